//! What no routing of a placement can have: the nets that cross a cut of the array take a wire
//! each in one of its cells.
#![tactic(auto)]

mod crossing;
mod cut;
mod inside;
mod laws;
mod lines;
mod placed;
mod range;
mod reach;
mod search;
mod span;

pub use crossing::crossing_nets;
pub use cut::{Cut, best_cut};
pub use inside::is_inside;
pub use laws::{
    bounds_are_least, crossing_nets_are_parted, crossing_nets_cross, cuts_bound,
    cuts_have_two_sides, few_nets_cross, few_nets_parted, held_terminals_are_parted,
};
pub use range::{CornerRange, LineKind, Standing};
