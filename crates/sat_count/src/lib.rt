//! Refutations by counting: slots that are one more than the tracks do not each have a track of
//! their own. By learned clauses such refutations grow exponentially with the tracks; here new
//! variables take one slot and one track away at a time.
#![tactic(auto)]

mod counting;
mod descent;
mod ground;
mod level;
mod limits;
mod pairs;
mod refutation;

pub use counting::count_down;
pub use level::Level;
pub use limits::{COUNTED_LIMIT, TRACK_LIMIT};
pub use refutation::{Refutation, negated, plain};
