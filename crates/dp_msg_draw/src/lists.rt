//! The lists that messages carry. Each is short enough that its message fits in a payload of at
//! most 65,535 bytes.

ghost use Rattle.std.specs.Prelude.{◌≡◌, ◌≤◌, ◌↔◌, [], length, replicate};
ghost use Rattle.std.specs.Prelude.{IfOk, IfSome, IsSome, true};
ghost use Rattle.std.specs.Bool.{◌==◌};
ghost use Rattle.std.specs.Cmp.{partial_equiv_from_equiv};
ghost use Rattle.std.specs.Cmp.Lexicographic.{pointwise, nat_list_eq_equiv, lists_per};
ghost use Rattle.dp_msg_draw.specs.Limits.{IsTitle};
ghost use Rattle.dp_msg_draw.specs.contracts.lists.DabPartialEq.TheImpl.Laws as dab;
ghost use Rattle.dp_msg_draw.specs.contracts.lists.TilePixelPartialEq.TheImpl.Laws as pixel;

use std::alloc::{AllocError, Global};
use std::marker::Model;

/// The title of a layer: at most 255 bytes of UTF-8.
#[derive(Debug)]
pub struct Title {
    bytes: Vec<u8>,
}

impl Drop for Title {
    fn drop(self) {
        let Title { bytes } = self;
        drop(bytes);
    }
}

impl Model for Title {
    ghost use Rattle.std.specs.Prelude.{List, ℕ};
    ghost use Rattle.dp_msg_draw.specs.Limits.{IsTitle};

    ghost Value = { List ℕ };

    ghost view = { λ t. t.bytes.items };

    ghost invariant = { λ t. IsTitle t.bytes.items };
}

/// Whether these bytes are a title.
pub(crate) fn is_title(bytes: &[u8]) -> bool
    ensures { (result ≡ true) ↔ IsTitle bytes.now }
{
    bytes.len() <= 255 && str::from_utf8(bytes).is_ok()
}

impl Title {
    /// The empty title.
    pub fn new(alloc: Global) -> Title
        ensures { result ≡ [] }
    {
        Title {
            bytes: Vec::new(alloc),
        }
    }

    /// The title of these bytes, if they are one.
    pub fn from_vec(bytes: Vec<u8>) -> Option<Title>
        ensures title { IsSome result ↔ IsTitle bytes.items }
        ensures value { IfSome result (λ t. t ≡ bytes.items) }
    {
        if is_title(&bytes) {
            Some(Title { bytes })
        } else {
            None
        }
    }

    /// The title of these bytes, which have to be one.
    pub(crate) fn from_slice(alloc: Global, bytes: &[u8]) -> Result<Title, AllocError>
        requires { IsTitle bytes.now }
        ensures { IfOk result (λ t. t ≡ bytes.now) }
    {
        let bytes = Vec::from_slice(alloc, bytes)?;
        Ok(Title { bytes })
    }

    /// The bytes of the title.
    pub fn as_slice(&self) -> &[u8]
        ensures value { result.now ≡ self.now }
        ensures title { IsTitle self.now }
    {
        &self.bytes
    }

    /// An equal title.
    pub fn copy(&self) -> Result<Title, AllocError>
        ensures { IfOk result (λ t. t ≡ self.now) }
    {
        let bytes = Vec::from_slice(*self.bytes.allocator(), &self.bytes)?;
        Ok(Title { bytes })
    }
}

impl PartialEq for Title {
    ghost eq = { pointwise ◌==◌ };

    ghost laws = { partial_equiv_from_equiv nat_list_eq_equiv };

    fn eq(&self, other: &Title) -> bool {
        self.bytes == other.bytes
    }
}

/// One dab of a brush. Its place is that of the dab before it, or of the message, moved by `dx`
/// and `dy`.
#[derive(Clone, Copy, Debug, PartialEq, Eq)]
pub struct Dab {
    pub dx: i8,
    pub dy: i8,
    /// The diameter in pixels.
    pub size: u8,
    /// From 0, clear, to 255.
    pub opacity: u8,
}

/// At most 16,380 dabs.
#[derive(Debug)]
pub struct Dabs {
    dabs: Vec<Dab>,
}

impl Drop for Dabs {
    fn drop(self) {
        let Dabs { dabs } = self;
        drop(dabs);
    }
}

impl Model for Dabs {
    ghost use Rattle.std.specs.Prelude.{List, ◌≤◌, length};
    ghost use Rattle.dp_msg_draw.specs.declared.lists.Dab.{Dab};

    ghost Value = { List Dab };

    ghost view = { λ d. d.dabs.items };

    ghost invariant = { λ d. length d.dabs.items ≤ 16380 };
}

impl Dabs {
    /// No dabs.
    pub fn new(alloc: Global) -> Dabs
        ensures { result ≡ [] }
    {
        Dabs {
            dabs: Vec::new(alloc),
        }
    }

    /// These dabs, at most 16,380.
    pub fn from_vec(dabs: Vec<Dab>) -> Dabs
        requires { length dabs.items ≤ 16380 }
        ensures { result ≡ dabs.items }
    {
        Dabs { dabs }
    }

    /// The dabs in order.
    pub fn as_slice(&self) -> &[Dab]
        ensures value { result.now ≡ self.now }
        ensures short { length self.now ≤ 16380 }
    {
        &self.dabs
    }

    /// Equal dabs.
    pub fn copy(&self) -> Result<Dabs, AllocError>
        ensures { IfOk result (λ d. d ≡ self.now) }
    {
        let dabs = Vec::from_slice(*self.dabs.allocator(), &self.dabs)?;
        Ok(Dabs { dabs })
    }
}

impl PartialEq for Dabs {
    ghost eq = { pointwise ⟦<Dab as PartialEq>⟧.eq };

    ghost laws = { lists_per dab.laws-law };

    fn eq(&self, other: &Dabs) -> bool {
        self.dabs == other.dabs
    }
}

/// At most 16,379 colours, each an ARGB number with alpha in its highest byte.
#[derive(Debug)]
pub struct Colors {
    colors: Vec<u32>,
}

impl Drop for Colors {
    fn drop(self) {
        let Colors { colors } = self;
        drop(colors);
    }
}

impl Model for Colors {
    ghost use Rattle.std.specs.Prelude.{List, ℕ, ◌≤◌, length};

    ghost Value = { List ℕ };

    ghost view = { λ c. c.colors.items };

    ghost invariant = { λ c. length c.colors.items ≤ 16379 };
}

impl Colors {
    /// No colours.
    pub fn new(alloc: Global) -> Colors
        ensures { result ≡ [] }
    {
        Colors {
            colors: Vec::new(alloc),
        }
    }

    /// These colours, at most 16,379.
    pub fn from_vec(colors: Vec<u32>) -> Colors
        requires { length colors.items ≤ 16379 }
        ensures { result ≡ colors.items }
    {
        Colors { colors }
    }

    /// The colours in order.
    pub fn as_slice(&self) -> &[u32]
        ensures value { result.now ≡ self.now }
        ensures short { length self.now ≤ 16379 }
    {
        &self.colors
    }

    /// Equal colours.
    pub fn copy(&self) -> Result<Colors, AllocError>
        ensures { IfOk result (λ c. c ≡ self.now) }
    {
        let colors = Vec::from_slice(*self.colors.allocator(), &self.colors)?;
        Ok(Colors { colors })
    }
}

impl PartialEq for Colors {
    ghost eq = { pointwise ◌==◌ };

    ghost laws = { partial_equiv_from_equiv nat_list_eq_equiv };

    fn eq(&self, other: &Colors) -> bool {
        self.colors == other.colors
    }
}

/// A pixel of a tile, premultiplied: 32768 is one, in a well-formed message no channel is above
/// alpha, and alpha is at most one.
#[derive(Clone, Copy, Debug, PartialEq, Eq)]
pub struct TilePixel {
    pub r: u16,
    pub g: u16,
    pub b: u16,
    pub a: u16,
}

/// The 4096 pixels of a tile, row by row.
#[derive(Debug)]
pub struct TilePixels {
    pixels: Vec<TilePixel>,
}

impl Drop for TilePixels {
    fn drop(self) {
        let TilePixels { pixels } = self;
        drop(pixels);
    }
}

impl Model for TilePixels {
    ghost use Rattle.std.specs.Prelude.{List, ◌≡◌, length};
    ghost use Rattle.dp_msg_draw.specs.declared.lists.TilePixel.{TilePixel};

    ghost Value = { List TilePixel };

    ghost view = { λ p. p.pixels.items };

    ghost invariant = { λ p. length p.pixels.items ≡ 4096 };
}

impl TilePixels {
    /// 4096 clear pixels, since a tile has no fewer.
    pub fn new(alloc: Global) -> Result<TilePixels, AllocError>
        ensures { IfOk result (λ p. p ≡ replicate 4096 (record { r = 0; g = 0; b = 0; a = 0 })) }
    {
        let clear = TilePixel {
            r: 0,
            g: 0,
            b: 0,
            a: 0,
        };
        let pixels = vec![in alloc; clear; 4096]?;
        Ok(TilePixels { pixels })
    }

    /// These pixels, which have to be 4096.
    pub fn from_vec(pixels: Vec<TilePixel>) -> TilePixels
        requires { length pixels.items ≡ 4096 }
        ensures { result ≡ pixels.items }
    {
        TilePixels { pixels }
    }

    /// The 4096 pixels, row by row.
    pub fn as_slice(&self) -> &[TilePixel]
        ensures value { result.now ≡ self.now }
        ensures whole { length self.now ≡ 4096 }
    {
        &self.pixels
    }

    /// Equal pixels.
    pub fn copy(&self) -> Result<TilePixels, AllocError>
        ensures { IfOk result (λ p. p ≡ self.now) }
    {
        let pixels = Vec::from_slice(*self.pixels.allocator(), &self.pixels)?;
        Ok(TilePixels { pixels })
    }
}

impl PartialEq for TilePixels {
    ghost eq = { pointwise ⟦<TilePixel as PartialEq>⟧.eq };

    ghost laws = { lists_per pixel.laws-law };

    fn eq(&self, other: &TilePixels) -> bool {
        self.pixels == other.pixels
    }
}
