//! Acts that are kept with what they joined, savepoints of boards, and boards that are drawn anew
//! from a savepoint on.
#![tactic(auto)]

mod kept;
mod laws;
mod marks;
mod redraw;
mod room;
mod run;
mod saves;

pub use kept::{KeptAct, Mark, mark_all};
pub use laws::stroke_laws;
pub use marks::{is_draw, mark_of};
pub use redraw::{draw_act, draw_next};
pub use room::{add_act, let_go};
pub use run::Run;
pub use saves::{
    Save, copy_saves, depth_after, forget, push_save, put_save, save_at, save_last, save_of,
};
