//! Laws of inputs, each the contract of a function that does nothing.

ghost use Rattle.std.specs.Prelude.{◌≡◌, ℕ, List};
ghost use Rattle.dp_messages.specs.declared.message.Entry.{Entry};
ghost use Rattle.dp_lines.specs.declared.run_end.RunEnd.{RunEnd};
ghost use Rattle.dp_entries.specs.Input.{ComesTo};

use crate::Standing;
use dp_frame::{one_first_frame, one_splitting};

/// An input comes to at most one end, with one list of entries.
pub fn one_reading<S: Standing>()
    ensures entries { (first limit : ℕ) (input : List ℕ) (entries others : List Entry)
        (end other : RunEnd)
        → ComesTo S.may_stand first limit input entries end
        → ComesTo S.may_stand first limit input others other → entries ≡ others }
    ensures end { (first limit : ℕ) (input : List ℕ) (entries others : List Entry)
        (end other : RunEnd)
        → ComesTo S.may_stand first limit input entries end
        → ComesTo S.may_stand first limit input others other → end ≡ other }
{
    one_first_frame();
    one_splitting();
    S::one_standing();
}

/// It can't be that an input comes to no end.
pub fn each_input_ends<S: Standing>()
    ensures { (first limit : ℕ) (input : List ℕ) → ¬ ((entries : List Entry) (end : RunEnd)
        → ¬ ComesTo S.may_stand first limit input entries end) }
{}
