//! How many tracks no routing of a placement has, by a search through clauses over the cells of
//! windows.
#![tactic(auto)]

mod blaming;
mod refuting;
mod windows;

pub use refuting::{Budget, CellRefutation, LEARNED_LIMIT, refute};
