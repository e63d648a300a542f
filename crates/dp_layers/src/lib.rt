//! The tree of layers: the list of its rows, and what the commands on layers make of it.
#![tactic(auto)]

mod changes;
mod held;
mod laws;
mod lookup;
mod row;
mod rows;
mod share;
mod tree;

pub use laws::{
    contents_in_order, contents_ride_along, listed_modes, one_tree, rows_by_id, trees_stay_trees,
};
pub use row::LayerRow;
pub use share::Share;
pub use tree::Tree;
