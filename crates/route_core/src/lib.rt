//! What a refutation does not need, and the nets that stand against each other.
#![tactic(auto)]

mod blaming;
mod laws;
mod needed;
mod sources;
mod trimming;
mod wanted;

pub use blaming::{blame, blame_in, used_clauses};
pub use laws::{
    blame_is_just, clauses_are_fair, live_clauses_are_said, needed_hints_serve,
    needed_steps_are_trimmed, trimmed_is_its_own,
};
pub use trimming::trim;
