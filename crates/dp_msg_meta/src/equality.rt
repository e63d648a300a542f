//! Whether two messages are equal.

ghost use Rattle.std.specs.Prelude.{◌≡◌, ◌↔◌, true};
ghost use Rattle.dp_msg_meta.specs.Equality.{same_control, same_meta};

use crate::message::{Control, Meta};

/// Whether two control messages are equal, field by field. It takes no memory.
#[tactic(auto, using(crate::proofs::Comparing::controls_compare))]
pub fn same_control(control: &Control, other: &Control) -> bool
    ensures value { result ≡ same_control control.now other.now }
    ensures equal { (result ≡ true) ↔ (control.now ≡ other.now) }
{
    control == other
}

/// Whether two meta messages are equal, field by field. It takes no memory.
#[tactic(auto, using(crate::proofs::Comparing::metas_compare))]
pub fn same_meta(meta: &Meta, other: &Meta) -> bool
    ensures value { result ≡ same_meta meta.now other.now }
    ensures equal { (result ≡ true) ↔ (meta.now ≡ other.now) }
{
    meta == other
}
