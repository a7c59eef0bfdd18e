//! A judge of routed files: whether a stranger's detailed route is legal for a problem.
#![tactic(auto)]

mod cause;
mod depths;
mod ends;
mod gathering;
mod judge;
mod judgement;
mod kept;
mod laws;
mod line;
mod line_cause;
mod listing;
mod pins;
mod rules;
mod traces;
mod verdict;
mod wires;
mod wiring;

pub use cause::Cause;
pub use depths::LineDepths;
pub use judge::head_cause;
pub use judgement::Judgement;
pub use laws::{legal_tracks_are_judged_legal, legal_without_causes};
pub use line::{LineContext, is_unconnected, is_unfit, repeats_cell, repeats_wire};
pub use line_cause::LineCause;
pub use listing::all_causes;
pub use verdict::{verify, verify_reach};
pub use wires::{WireKey, add_wire, add_wires, is_on};
pub use wiring::Wiring;
