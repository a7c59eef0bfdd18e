//! The clauses of problems whose tracks may change places, with the tracks in the order in which a
//! row of slots comes to them.
#![tactic(auto)]

mod adding;
mod laws;
mod ordered;

pub use laws::{
    clauses_say_order, crowds_are_slots, order_changes_nothing, ordered_clauses_are_fair,
    ordered_says_unroutable,
};
pub use ordered::Ordered;
