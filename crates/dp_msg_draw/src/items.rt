//! Dabs and pixels, the items of lists.

ghost use Rattle.std.specs.Prelude.{◌≡◌, ◌↔◌, true};
ghost use Rattle.dp_msg_draw.specs.FieldLaws.{dab_field, pixel_field};
ghost use Rattle.dp_msg_draw.specs.Payloads.{dab_bytes, IsDab, pixel_bytes, IsPixel};

use crate::lists::{Dab, TilePixel};
use dp_fields::Field;
use std::alloc::AllocError;

impl Field for Dab {
    ghost spelling = { dab_bytes };

    ghost valid = { IsDab };

    ghost is_field = { dab_field };

    fn take(bytes: &[u8]) -> Option<(Dab, &[u8])> {
        let Some((((dx, dy), (size, opacity)), rest)) = <((u8, u8), (u8, u8))>::take(bytes) else {
            return None;
        };
        if size == 0 {
            return None;
        }
        let dab = Dab {
            dx: dx.cast_signed(),
            dy: dy.cast_signed(),
            size,
            opacity,
        };
        Some((dab, rest))
    }

    fn put(&self, out: &mut Vec<u8>) -> Result<(), AllocError> {
        let bytes = [
            self.dx.cast_unsigned(),
            self.dy.cast_unsigned(),
            self.size,
            self.opacity,
        ];
        out.extend_from_slice(&bytes)
    }
}

fn is_pixel(p: TilePixel) -> bool
    ensures { (result ≡ true) ↔ IsPixel p }
{
    p.r <= p.a && p.g <= p.a && p.b <= p.a && p.a <= 32768
}

impl Field for TilePixel {
    ghost spelling = { pixel_bytes };

    ghost valid = { IsPixel };

    ghost is_field = { pixel_field };

    fn take(bytes: &[u8]) -> Option<(TilePixel, &[u8])> {
        let Some((((r, g), (b, a)), rest)) = Field::take(bytes) else {
            return None;
        };
        let pixel = TilePixel { r, g, b, a };
        if is_pixel(pixel) {
            Some((pixel, rest))
        } else {
            None
        }
    }

    fn put(&self, out: &mut Vec<u8>) -> Result<(), AllocError> {
        ((self.r, self.g), (self.b, self.a)).put(out)
    }
}
