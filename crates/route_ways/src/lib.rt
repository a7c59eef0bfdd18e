//! Ways of searching: by one search or by several that take turns, by counting or by a guess in
//! front of another way, and with refutations that are cut down behind another way.
#![tactic(auto)]

mod added;
mod counting;
mod guess;
mod guessing;
mod plain;
mod track_values;
mod trimming;
mod unlimited;
mod way;
mod wire_values;
mod wires;

pub use counting::Counting;
pub use guess::Guess;
pub use guessing::Guessing;
pub use plain::{BUDGET_LIMIT, Plain, Solver};
pub use trimming::{Learner, Trimming};
pub use way::Way;
pub use wires::Wires;
