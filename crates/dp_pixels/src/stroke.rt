//! Messages of dabs, dab by dab.

ghost use Rattle.std.specs.Prelude.{◌≡◌, ◌≤◌, ◌*◌, length, map, IfOk};
ghost use Rattle.dp_pixels.specs.Commands.{IsDabs, dab_blended};
ghost use Rattle.dp_pixels.specs.Feet.{around};
ghost use Rattle.dp_pixels.specs.Regions.{IsPainted, on_canvas};
ghost use Rattle.dp_pixels.specs.Strokes.{brush_of, dabs_of_command};

use crate::dabs::{NearDab, Shape};
use crate::disc::Disc;
use crate::fill::Fill;
use crate::paint::paint_region;
use crate::place::dabs_of;
use crate::rect::Rect;
use crate::region::Region;
use dp_blend::{Mode, Pixel, fade, from8};
use dp_msg_draw::Draw;
use std::alloc::{AllocError, Global};

/// How dabs are drawn.
#[derive(Clone, Copy, PartialEq, Eq)]
pub struct Brush {
    pub shape: Shape,
    pub mode: Mode,
    /// The colour of a dab of full opacity.
    pub color: Pixel,
}

/// How each dab of a command is drawn. `None` comes exactly if no mode has the command's number:
/// such dabs change nothing.
pub fn brush_of(command: &Draw) -> Option<Brush>
    requires { IsDabs command.now }
    ensures { result ≡ brush_of command.now }
{
    let dabs = dabs_of(command);
    let mode = Mode::from_u8(dabs.mode)?;
    Some(Brush {
        shape: dabs.run.shape,
        mode,
        color: dabs.color,
    })
}

/// The dabs of a command, each where it stands.
pub fn place_dabs(alloc: Global, command: &Draw) -> Result<Vec<NearDab>, AllocError>
    requires { IsDabs command.now }
    ensures { IfOk result (λ dabs. map (λ near. near.dab) dabs.items
        ≡ dabs_of_command command.now) }
{
    dabs_of(command).run.place(alloc)
}

/// The least rectangle around the squares of the dabs of a command. Without a dab it has no place.
/// It takes no memory.
pub fn dabs_bounds(command: &Draw) -> Rect
    requires { IsDabs command.now }
    ensures { result ≡ around (dabs_of_command command.now) }
{
    dabs_of(command).run.bounds()
}

/// Draws one dab on a region, in a list of pixels whose rows are `stride` long. The pixels of the
/// region that are on the canvas change if the dab covers them, and all others stay.
pub fn draw_dab(brush: &Brush, dab: NearDab, region: &Region, stride: usize, pixels: &mut [Pixel])
    requires wide { region.now.width ≤ stride }
    requires long { region.now.height * stride ≤ length pixels.old }
    ensures { IsPainted region.now stride
        (on_canvas region.now
        (dab_blended brush.now.shape brush.now.mode brush.now.color dab.dab))
        pixels.old pixels.new }
{
    let mode = brush.mode;
    let source = fade(brush.color, from8(dab.dab.opacity));
    match brush.shape {
        Shape::Round => {
            let disc = Disc {
                dab: dab.dab,
                mode,
                source,
            };
            paint_region(&disc, region, stride, pixels);
        }
        Shape::Square => {
            let area = dab.rect();
            let fill = Fill { area, mode, source };
            paint_region(&fill, region, stride, pixels);
        }
    }
}
