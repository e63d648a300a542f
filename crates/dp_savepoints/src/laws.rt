//! Laws of the definitions. The function does nothing: its contract is the law.

ghost use Rattle.dp_savepoints.specs.Laws.{Laws};

use dp_board::{each_act_has_a_flag, flags_go_on, groups_come_first, tables_follow};

/// The laws of strokes and flags.
pub fn stroke_laws<Op>()
    ensures { Laws Op }
{
    flags_go_on::<Op>();
    groups_come_first::<Op>();
    each_act_has_a_flag::<Op>();
    tables_follow::<Op>();
}
