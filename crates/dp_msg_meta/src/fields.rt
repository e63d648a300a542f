//! Tiers and depths, as fields of a payload.

ghost use Rattle.std.specs.Prelude.{◌≡◌, ◌≤◌, ◌<◌, ◌^◌, ◌↔◌, true};
ghost use Rattle.dp_fields.specs.Fields.{one_byte};
ghost use Rattle.dp_msg_meta.specs.FieldLaws.{tier_field, depth_field, tiers_field};
ghost use Rattle.dp_msg_meta.specs.Payloads.{tier_bytes, AreTiers};

use crate::message::Tiers;
use dp_fields::Field;
use std::alloc::AllocError;

/// A tier. Only 0 to 3 is taken.
#[derive(Drop)]
pub(crate) struct Tier(pub u8);

impl Field for Tier {
    ghost spelling = { λ t. one_byte t.0 };

    ghost valid = { λ t. t.0 ≤ 3 };

    ghost is_field = { tier_field };

    fn take(bytes: &[u8]) -> Option<(Tier, &[u8])> {
        match bytes {
            [tier, rest @ ..] if *tier <= 3 => Some((Tier(*tier), rest)),
            _ => None,
        }
    }

    fn put(&self, out: &mut Vec<u8>) -> Result<(), AllocError> {
        self.0.put(out)
    }
}

/// A depth of undo. 0 isn't taken.
#[derive(Drop)]
pub(crate) struct Depth(pub u8);

impl Field for Depth {
    ghost spelling = { λ d. one_byte d.0 };

    ghost valid = { λ d. (1 ≤ d.0) × (d.0 < 2 ^ 8) };

    ghost is_field = { depth_field };

    fn take(bytes: &[u8]) -> Option<(Depth, &[u8])> {
        match bytes {
            [depth, rest @ ..] if *depth != 0 => Some((Depth(*depth), rest)),
            _ => None,
        }
    }

    fn put(&self, out: &mut Vec<u8>) -> Result<(), AllocError> {
        self.0.put(out)
    }
}

impl Field for Tiers {
    ghost spelling = { tier_bytes };

    ghost valid = { AreTiers };

    ghost is_field = { tiers_field };

    #[rattlefmt::skip]
    fn take(bytes: &[u8]) -> Option<(Tiers, &[u8])> {
        let [image, move_, resize, background, edit_layers, own_layers, laser, undo, rest @ ..] =
            bytes
        else {
            return None;
        };
        let tiers = Tiers {
            image: *image,
            move_: *move_,
            resize: *resize,
            background: *background,
            edit_layers: *edit_layers,
            own_layers: *own_layers,
            laser: *laser,
            undo: *undo,
        };
        if are_tiers(&tiers) { Some((tiers, rest)) } else { None }
    }

    fn put(&self, out: &mut Vec<u8>) -> Result<(), AllocError> {
        let bytes = [
            self.image,
            self.move_,
            self.resize,
            self.background,
            self.edit_layers,
            self.own_layers,
            self.laser,
            self.undo,
        ];
        out.extend_from_slice(&bytes)
    }
}

fn are_tiers(t: &Tiers) -> bool
    ensures { (result ≡ true) ↔ AreTiers t.now }
{
    t.image <= 3
        && t.move_ <= 3
        && t.resize <= 3
        && t.background <= 3
        && t.edit_layers <= 3
        && t.own_layers <= 3
        && t.laser <= 3
        && t.undo <= 3
}
