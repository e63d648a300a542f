//! A history as a session keeps it beside its journal: items that name events, the frames of their
//! entries, and how the next epoch opens.
#![tactic(auto)]

mod frames;
mod item;
mod opening;
mod page;
mod presence;

pub use dp_frame_log::PageFrames;
pub use frames::HistoryFrames;
pub use item::{HistoryItem, copies, count_kept, entry, join_entry, name_text};
pub use opening::Opening;
pub use page::Page;
pub use presence::{first_operator, free_id, next_operator, present_ids};
