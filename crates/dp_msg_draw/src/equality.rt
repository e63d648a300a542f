//! Whether two drawing messages are equal.

ghost use Rattle.std.specs.Prelude.{◌≡◌, ◌↔◌, true};
ghost use Rattle.dp_msg_draw.specs.Equality.{same_draw};

use crate::draw::Draw;

/// Whether two messages are equal, field by field.
#[tactic(auto, using(crate::proofs::Comparing::draws_compare))]
pub fn same_draw(a: &Draw, b: &Draw) -> bool
    ensures value { result ≡ same_draw a.now b.now }
    ensures equal { (result ≡ true) ↔ (a.now ≡ b.now) }
{
    a == b
}
