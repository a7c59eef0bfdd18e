//! Refutations by counting: where more slots than there are tracks are seen to want different ones,
//! the clauses of a problem are refuted without a search.
#![tactic(auto)]

mod clause_ids;
mod clauses;
mod counted;
mod counting;
mod crowded;
mod first_level;
mod laws;
mod meetings;

pub use counted::counted_out;
pub use crowded::{Crowding, crowded_by};
pub use laws::crowded_is_unroutable;
