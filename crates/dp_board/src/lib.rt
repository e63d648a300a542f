//! A history read as acts, which of its commands are drawn after undo and redo, and the board that
//! they are drawn on.
//!
//! Each user has groups of commands. A point opens a group, a command joins the last done group of
//! its user, and undo and redo move a whole group. A command of a user without a done group is in
//! group 0, which is never undone. The rule: docs/protocol.md, "Strokes, undo and redo".
#![tactic(auto)]

mod act;
mod board;
mod flags;
mod groups;
mod join;
mod laws;
mod number_board;
mod sorted;
mod table;
mod window;

pub use act::{Act, Change, UserAct};
pub use board::Board;
pub use flags::drawn_flags;
pub use join::Join;
pub use laws::{
    commands_do_not_count, cut_out_stays_out, depth_is_in_force, each_act_has_a_flag,
    final_flags_stay, first_strokes_stay, flags_go_on, groups_are_points, groups_come_first,
    others_do_not_count, prefixes_without_points, strokes_go_on, tables_follow,
    window_is_of_last_points,
};
pub use number_board::{NumberBoard, SetNumber};
pub use table::{NextStrokes, StrokeTable, concerned};
