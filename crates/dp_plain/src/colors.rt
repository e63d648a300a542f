//! The colours of a command, as numbers of their fields.

ghost use Rattle.std.specs.Prelude.{◌<◌, ◌^◌, All};
ghost use Rattle.dp_msg_draw.specs.declared.lists.Dab.{Dab as Stamp};
ghost use Rattle.dp_pixels.specs.Colors.{FitsColors, FitsStroke};

use dp_msg_draw::{Dab, Draw};

/// Each colour of the command fits its field. Nothing is computed.
pub fn known_colors(command: &Draw)
    ensures { FitsColors command.now }
{
    match command {
        Draw::FillRect { color, .. } => known_number(*color),
        Draw::PutImage { colors, .. } => known_numbers(colors.as_slice()),
        Draw::DabsRound { r, g, b, dabs, .. } | Draw::DabsSquare { r, g, b, dabs, .. } => {
            known_stroke(*r, *g, *b, dabs.as_slice());
        }
        _ => {}
    }
}

/// The colours of several commands fit.
pub fn known_commands(commands: &[Draw])
    ensures { All FitsColors commands.now }
{
    for command in commands {
        known_colors(command);
    }
}

fn known_number(color: u32)
    ensures { color < 2 ^ 32 }
{}

fn known_numbers(colors: &[u32])
    ensures { All (λ color. color < 2 ^ 32) colors.now }
{}

fn known_stroke(r: u8, g: u8, b: u8, dabs: &[Dab])
    ensures { FitsStroke r g b dabs.now }
{
    known_dabs(dabs);
}

fn known_dabs(dabs: &[Dab])
    ensures { All (λ (dab : Stamp). dab.opacity < 2 ^ 8) dabs.now }
{
    for dab in dabs {
        known_byte(dab.opacity);
    }
}

fn known_byte(n: u8)
    ensures { n < 2 ^ 8 }
{}
