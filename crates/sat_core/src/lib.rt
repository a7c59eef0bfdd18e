//! A search for values that satisfy a formula, which logs why there are none: as a whole, or turn
//! by turn.
#![tactic(auto)]

mod again;
mod analysis;
mod answer;
mod bumping;
mod choosing;
mod clause_activity;
mod clause_list;
mod deciding;
mod deleting;
mod deletions;
mod distinct;
mod habits;
mod implied;
mod inputs;
mod learned;
mod marks;
mod occurrences;
mod places;
mod ranking;
mod restarts;
mod saved;
mod search;
mod solving;
mod start;
mod state;
mod turn;
mod visit;
mod walking;
mod way_back;

pub use answer::Answer;
pub use habits::{DecidedValue, FirstOrder, Habits};
pub use search::Search;
pub use solving::solve;
pub use turn::Turn;
