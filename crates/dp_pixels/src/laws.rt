//! Laws of the pixel commands. Each function does nothing: its contract is the law.
//!
//! The rule: docs/protocol.md, "Pixel commands".

ghost use Rattle.std.specs.Prelude.{◌≡◌, ◌≤◌, ◌↔◌, ℕ, ℤ, List, false, Some, None};
ghost use Rattle.std.specs.Prelude.{fold, true};
ghost use Rattle.dp_blend.specs.Color.{Channels, IsPixel};
ghost use Rattle.dp_blend.specs.declared.modes.Mode.{Mode};
ghost use Rattle.dp_msg_draw.specs.declared.draw.Draw.{Draw};
ghost use Rattle.dp_pixels.specs.declared.rect.Rect.{Rect};
ghost use Rattle.dp_pixels.specs.declared.dabs.PlacedDab.{PlacedDab};
ghost use Rattle.dp_pixels.specs.declared.dabs.Shape.{Shape};
ghost use Rattle.dp_pixels.specs.declared.stroke.Brush.{Brush};
ghost use Rattle.dp_pixels.specs.Rectangles.{canvas_rect, is_in, share_place};
ghost use Rattle.dp_pixels.specs.Colors.{FitsColors};
ghost use Rattle.dp_pixels.specs.Dabs.{dab_rect};
ghost use Rattle.dp_pixels.specs.Commands.{IsDabs, dab_blended, drawn, pixel_after, pixels_after};
ghost use Rattle.dp_pixels.specs.Strokes.{brush_of, dabs_of_command};
ghost use Rattle.dp_pixels.specs.declared.feet.Footprint.{Footprint};
ghost use Rattle.dp_pixels.specs.Feet.{feet_meet, foot, foot_layer, on_greatest};
ghost use Rattle.dp_pixels.specs.Feet.{is_in_foot, squares_of, squares_shared};

use dp_blend::{blend_gives_pixels, equal_canvases, fade_gives_pixels, pixel_of_canvas};

/// Outside its foot a command keeps each pixel.
pub fn pixels_stay_outside_the_foot()
    ensures { (width height : ℕ) (op : Draw) (old : ℤ → ℤ → Channels) (x y : ℤ)
        → width ≤ 4096 → height ≤ 4096 → is_in_foot (foot op) x y ≡ false
        → drawn width height op old x y ≡ old x y }
{}

/// The pixel drawn at a place depends on the old one there and on those of the canvas in the foot,
/// and on no others.
pub fn the_foot_tells_all()
    ensures { (width height : ℕ) (op : Draw) (old other : ℤ → ℤ → Channels) (x y : ℤ)
        → width ≤ 4096 → height ≤ 4096 → old x y ≡ other x y
        → ((v w : ℤ) → is_in (canvas_rect width height) v w ≡ true
        → is_in_foot (foot op) v w ≡ true → old v w ≡ other v w)
        → drawn width height op old x y ≡ drawn width height op other x y }
{}

/// Two rectangles share a place exactly if some place is in both.
pub fn shared_places()
    ensures { (a b : Rect) → (share_place a b ≡ true)
        ↔ ((x : ℤ) × (y : ℤ) × (is_in a x y ≡ true) × (is_in b x y ≡ true)) }
{}

/// Feet of one layer that don't meet have no place in common.
pub fn feet_apart()
    ensures { (a b : Footprint) (x y : ℤ) → foot_layer a ≡ foot_layer b → feet_meet a b ≡ false
        → is_in_foot a x y ≡ true → is_in_foot b x y ≡ false }
{}

/// Two commands on a layer whose feet don't meet give the same pixels in either order.
pub fn apart_commands_commute()
    ensures { (width height : ℕ) (a b : Draw) (pixels : List Channels)
        → width ≤ 4096 → height ≤ 4096 → foot_layer (foot a) ≡ foot_layer (foot b)
        → feet_meet (foot a) (foot b) ≡ false
        → pixels_after width height b (pixels_after width height a pixels)
        ≡ pixels_after width height a (pixels_after width height b pixels) }
{
    pixel_of_canvas();
    equal_canvases();
}

/// A command makes pixels of pixels.
pub fn pixels_stay_pixels()
    ensures { (width height : ℕ) (op : Draw) (old : ℤ → ℤ → Channels) (x y : ℤ) → FitsColors op
        → IsPixel (old x y)
        → ((v w : ℤ) → is_in (canvas_rect width height) v w ≡ true → IsPixel (old v w))
        → IsPixel (drawn width height op old x y) }
{
    blend_gives_pixels();
    fade_gives_pixels();
}

/// The product that gives the squares of a rectangle within the greatest canvas counts those that
/// share a place with it.
pub fn squares_are_counted()
    ensures { (r : Rect)
        → squares_of (on_greatest r) ≡ squares_shared (on_greatest r) }
{}

/// A message of dabs changes each place by its dabs, one after the other, each drawn with the
/// message's brush. If no mode has its number the place stays.
pub fn messages_are_their_dabs()
    ensures drawn { (op : Draw) (brush : Brush) (x y : ℤ) (old : Channels)
        → brush_of op ≡ Some brush
        → pixel_after op x y old
        ≡ fold (λ under dab. dab_blended brush.shape brush.mode brush.color dab x y under) old
        (dabs_of_command op) }
    ensures stays { (op : Draw) (x y : ℤ) (old : Channels) → IsDabs op → brush_of op ≡ None
        → pixel_after op x y old ≡ old }
{}

/// A dab keeps each place outside its square.
pub fn dabs_stay_in_their_squares()
    ensures { (shape : Shape) (mode : Mode) (color : Channels) (dab : PlacedDab) (x y : ℤ)
        (old : Channels)
        → is_in (dab_rect dab) x y ≡ false
        → dab_blended shape mode color dab x y old ≡ old }
{}
