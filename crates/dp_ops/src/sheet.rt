//! Commands that operations name by their numbers.

ghost use Rattle.std.specs.Prelude.{◌≡◌, [], ◌∷◌, ◌<◌, ◌/◌, ◌%◌, length, slice_get, IfSome, IfNone};
ghost use Rattle.std.specs.Prelude.{Some, None};
ghost use Rattle.dp_ops.specs.Ops.{command_at, on_tile, tile_after};

use crate::op::TileOp;
use crate::painter::CommandPainter;
use dp_blend::Pixel;
use dp_msg_draw::Draw;
use dp_pixels::{Region, draw_region};

/// A canvas of these sides, and the commands that operations on its tiles name by their numbers.
#[derive(Clone, Copy)]
pub struct Sheet<'a> {
    pub width: u32,
    pub height: u32,
    pub commands: &'a [Draw],
}

impl Sheet<'_> {
    /// The command of a number, if there is one.
    fn command(&self, number: u32) -> Option<&Draw>
        ensures some { IfSome result
            (λ command. slice_get self.now.commands.now number ≡ Some command.now) }
        ensures none { IfNone result (slice_get self.now.commands.now number ≡ None) }
    {
        self.commands.get(number as usize)
    }

    /// Draws the command of a number on the tile at a column and a row, if there is one.
    #[inline(never)]
    pub(crate) fn draw(&self, number: u32, col: u32, row: u32, pixels: &mut [Pixel])
        requires col { col < 64 }
        requires row { row < 64 }
        requires count { length pixels.old ≡ 4096 }
        ensures { pixels.new ≡ tile_after
            (on_tile self.now.width self.now.height self.now.commands.now col row)
            (TileOp.Command number ∷ []) pixels.old }
    {
        match self.command(number) {
            Some(command) => {
                let painter = CommandPainter {
                    command,
                    width: self.width,
                    height: self.height,
                };
                painter.draw(col, row, pixels);
            }
            None => {}
        }
    }

    /// The pixel at a place of the canvas after the command of a number, of the old one there. It
    /// stays if there is no such command.
    #[inline(never)]
    pub(crate) fn pixel_after(&self, number: u32, x: u32, y: u32, old: Pixel) -> Pixel
        ensures { result ≡ command_at (on_tile self.now.width self.now.height
            self.now.commands.now (x / 64) (y / 64)) number (x % 64) (y % 64) old }
    {
        let Some(command) = self.command(number) else {
            return old;
        };
        let place = Region {
            x,
            y,
            width: 1,
            height: 1,
            canvas_width: self.width,
            canvas_height: self.height,
        };
        let mut pixel = [old];
        draw_region(command, &place, 1, &mut pixel);
        pixel[0]
    }
}
