//! The clauses of a routing problem, and the way from a model back to a routing.
#![tactic(auto)]

mod clauses;
mod encoder;
mod fabric;
mod laws;
mod rivals;
mod size;
mod strict;
mod tracks;
mod variables;
mod walk;

pub use clauses::add_clause;
pub use encoder::Encoder;
pub use laws::{bits_say_legal, models_say_legal, unsat_says_unroutable};
pub use rivals::RivalChains;
pub use strict::Strict;
pub use variables::Variables;
pub use walk::add_apart_tracks;
