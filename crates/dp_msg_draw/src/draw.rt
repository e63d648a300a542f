//! The drawing messages.
//!
//! The rule: docs/protocol.md, "Drawing messages".

ghost use Rattle.std.specs.Prelude.{◌≡◌, IfOk, OnErr};
ghost use Rattle.dp_msg_draw.specs.Limits.{TakesMemory};
ghost use Rattle.dp_msg_draw.specs.Payloads.{draw_kind};

use crate::kinds::kind_of_draw;
use crate::lists::{Colors, Dabs, TilePixel, TilePixels, Title};
use std::alloc::AllocError;
use std::fmt;

/// What a tile is filled with.
#[derive(Debug, PartialEq)]
pub enum TileContent {
    /// Each pixel is this one.
    Solid(TilePixel),
    /// The pixels, row by row.
    Pixels(TilePixels),
}

impl Drop for TileContent {
    fn drop(self) {
        match self {
            TileContent::Solid(_) => {}
            TileContent::Pixels(pixels) => drop(pixels),
        }
    }
}

/// A drawing message. Each is relayed to everybody and drawn by each client.
#[derive(Drop, PartialEq)]
pub enum Draw {
    /// The canvas grows by this many pixels on each side, or shrinks if a number is negative.
    CanvasResize {
        top: i32,
        right: i32,
        bottom: i32,
        left: i32,
    },
    LayerCreate {
        id: u16,
        parent: u16,
        group: bool,
        title: Title,
    },
    LayerAttr {
        id: u16,
        opacity: u8,
        mode: u8,
        hidden: bool,
    },
    LayerTitle {
        id: u16,
        title: Title,
    },
    LayerMove {
        id: u16,
        parent: u16,
        above: u16,
    },
    LayerDelete {
        id: u16,
    },
    /// An image of w by h colours, row by row.
    PutImage {
        layer: u16,
        mode: u8,
        x: u32,
        y: u32,
        w: u32,
        h: u32,
        colors: Colors,
    },
    FillRect {
        layer: u16,
        mode: u8,
        x: u32,
        y: u32,
        w: u32,
        h: u32,
        color: u32,
    },
    /// The tile at a column and a row, and `repeat` further ones.
    PutTile {
        layer: u16,
        col: u16,
        row: u16,
        repeat: u16,
        content: TileContent,
    },
    /// The colour below the layers, an ARGB number.
    Background {
        color: u32,
    },
    DabsRound {
        layer: u16,
        x: i32,
        y: i32,
        r: u8,
        g: u8,
        b: u8,
        mode: u8,
        dabs: Dabs,
    },
    DabsSquare {
        layer: u16,
        x: i32,
        y: i32,
        r: u8,
        g: u8,
        b: u8,
        mode: u8,
        dabs: Dabs,
    },
    /// The rectangle of w by h pixels at (sx, sy) goes to (tx, ty).
    MoveRect {
        layer: u16,
        sx: u32,
        sy: u32,
        w: u32,
        h: u32,
        tx: i32,
        ty: i32,
    },
}

impl TileContent {
    /// Equal content.
    pub fn copy(&self) -> Result<TileContent, AllocError>
        ensures { IfOk result (λ c. c ≡ self.now) }
    {
        Ok(match self {
            TileContent::Solid(pixel) => TileContent::Solid(*pixel),
            TileContent::Pixels(pixels) => TileContent::Pixels(pixels.copy()?),
        })
    }
}

impl fmt::Debug for Draw {
    /// The kind alone, since a message may be long.
    fn fmt<W: fmt::Write>(&self, f: &mut fmt::Formatter<W>) -> fmt::Result {
        write!(f, "Draw of kind {}", kind_of_draw(self))
    }
}

/// A message with these fields again: each number as it is, and the list, if there is one, copied.
macro_rules! copied {
    ($m:expr; $($variant:ident { $($number:ident)* $(; $list:ident)? })*) => {
        match $m {
            $(Draw::$variant { $($number,)* $($list,)? } => Draw::$variant {
                $($number: *$number,)*
                $($list: $list.copy()?,)?
            },)*
        }
    };
}

impl Draw {
    /// An equal message. Only titles, colours, pixels and dabs take memory.
    pub fn copy(&self) -> Result<Draw, AllocError>
        ensures same { IfOk result (λ m. m ≡ self.now) }
        ensures memory { OnErr result (TakesMemory (draw_kind self.now)) }
    {
        Ok(copied! { self;
            CanvasResize { top right bottom left }
            LayerCreate { id parent group; title }
            LayerAttr { id opacity mode hidden }
            LayerTitle { id; title }
            LayerMove { id parent above }
            LayerDelete { id }
            PutImage { layer mode x y w h; colors }
            FillRect { layer mode x y w h color }
            PutTile { layer col row repeat; content }
            Background { color }
            DabsRound { layer x y r g b mode; dabs }
            DabsSquare { layer x y r g b mode; dabs }
            MoveRect { layer sx sy w h tx ty }
        })
    }
}
