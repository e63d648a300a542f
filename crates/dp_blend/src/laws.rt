//! Laws of blending and of canvases. Each function does nothing: its contract is the law.
//!
//! The rule: docs/protocol.md, "Numbers and blending".

ghost use Rattle.std.specs.Prelude.{◌≡◌, ◌*◌, ◌<◌, ◌≤◌, ℕ, List, length};
ghost use Rattle.dp_blend.specs.Color.{Channels, IsPixel, clear, fade};
ghost use Rattle.dp_blend.specs.Blending.{blend};
ghost use Rattle.dp_blend.specs.Canvas.{canvas_of, pixel_at};
ghost use Rattle.dp_blend.specs.declared.modes.Mode.{Mode};

/// A fade by one changes nothing.
pub fn fade_by_one_keeps()
    ensures { (p : Channels) → fade p 32768 ≡ p }
{}

/// A faded pixel is a pixel.
pub fn fade_gives_pixels()
    ensures { (p : Channels) (m : ℕ) → IsPixel p → m ≤ 32768 → IsPixel (fade p m) }
{}

/// Over what shows nothing, the normal mode gives the source.
pub fn normal_over_clear_gives_source()
    ensures { (src : Channels) → blend Mode.Normal src clear ≡ src }
{}

/// The replacing mode gives the source, whatever the destination is.
pub fn replace_gives_source()
    ensures { (src dst : Channels) → blend Mode.Replace src dst ≡ src }
{}

/// Each mode gives a pixel of two pixels.
pub fn blend_gives_pixels()
    ensures { (mode : Mode) (src dst : Channels) → IsPixel src → IsPixel dst
        → IsPixel (blend mode src dst) }
{}

/// A canvas has a pixel for each place.
pub fn length_of_canvas()
    ensures { (width height : ℕ) (f : ℕ → ℕ → Channels) →
        length (canvas_of width height f) ≡ width * height }
{}

/// The pixel at a place within a canvas is the one that it was made with.
pub fn pixel_of_canvas()
    ensures { (width height : ℕ) (f : ℕ → ℕ → Channels) (x y : ℕ) → x < width → y < height →
        pixel_at width (canvas_of width height f) x y ≡ f x y }
{}

/// Two lists of a canvas's length with the same pixel at each place are equal.
pub fn equal_pixels_at_each_place()
    ensures { (width height : ℕ) (ps qs : List Channels)
        → length ps ≡ width * height → length qs ≡ width * height
        → ((x y : ℕ) → x < width → y < height → pixel_at width ps x y ≡ pixel_at width qs x y)
        → ps ≡ qs }
{}

/// Two canvases that are made with the same pixel at each place within them are equal.
pub fn equal_canvases()
    ensures { (width height : ℕ) (f g : ℕ → ℕ → Channels)
        → ((x y : ℕ) → x < width → y < height → f x y ≡ g x y)
        → canvas_of width height f ≡ canvas_of width height g }
{}
