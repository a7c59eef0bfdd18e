//! The commands over a placement alone: `bound`, how many tracks a cut of it asks for; `global`, a
//! route of it that is found together with its tracks; and `least`, how many tracks it needs, from
//! both sides.
#![tactic(auto)]

mod bounding;
mod narrowed;
mod narrowing;
mod negotiating;
mod progress;
mod raising;

pub use bounding::bound_files;
pub use narrowing::{FoundAt, narrow_files};
pub use negotiating::negotiate_files;
pub use progress::Progress;
pub use raising::Raised;
