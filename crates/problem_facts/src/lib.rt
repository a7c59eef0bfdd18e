//! What is known of a problem before a search: trees of slots that steps join, the fullest cell, a
//! crowd of trees of which each two share a cell, whether tracks may change places, and trees that
//! no track serves.
#![tactic(auto)]

mod bit_rows;
mod closed_tree;
mod crowding;
mod exchange;
mod facts;
mod full;
mod fullest;
mod gathering;
mod grouped;
mod grouped_slots;
mod laws;
mod limits;
mod met_trees;
mod search;
mod tracks;
mod trees;

pub use closed_tree::{ClosedTree, trackless};
pub use exchange::{group_count, is_exchangeable, track_group, why_not_exchangeable};
pub use facts::Facts;
pub use full::{Asymmetry, is_symmetric, narrow_boxes, why_not_symmetric};
pub use fullest::{cells_of, fullest_cell};
pub use grouped_slots::GroupedSlots;
pub use laws::{
    cells_have_different_tracks, crowds_have_different_tracks, trackless_is_unroutable,
    trees_have_one_track,
};
pub use limits::{CROWD_LIMIT, LOOK_LIMIT, MET_LIMIT};
pub use trees::{Lead, Trees};
