//! A checker of logs of full LRAT: where the hints of a step do not lead to a conflict, the step
//! may be justified by resolution on the first literal of its clause. Each live clause with the
//! negation of that literal then has one group among the hints: a negative hint that names it, and
//! hints from which it follows without that literal.
#![tactic(auto)]

mod checker;
mod counted_clauses;
mod counts;
mod following;
mod full_rule;
mod groups;
mod ids;
mod laws;
mod resolution;

pub use checker::check_full;
pub use full_rule::{FullReplay, FullRule};
pub use laws::{accepted_is_full_accepted, full_accepted_is_unsat};
