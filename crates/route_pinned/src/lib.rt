//! The clauses of problems of which all tracks are alike, with the tracks of one cell given.
#![tactic(auto)]

mod laws;
mod pin_clauses;
mod pinned;
mod pinned_row;

pub use laws::{pinned_clauses_are_fair, pinned_says_unroutable, pins_change_nothing};
pub use pinned::Pinned;
