//! Clauses over cells: what is so in every routing of a placement, whatever its tracks, switch
//! blocks and connection boxes, so that a refutation says how many tracks no routing has.
#![tactic(auto)]

mod adding;
mod apart;
mod cells;
mod demands;
mod ends;
mod finding;
mod formula;
mod frame;
mod framing;
mod laws;
mod near;
mod pins;
mod placed;
mod span;
mod support;
mod tallies;
mod window;

pub use frame::PlacedWindow;
pub use framing::{WINDOW_CELLS, WINDOW_NETS, WINDOW_SINKS, WINDOW_VARIABLES};
pub use laws::{few_nets_held, parts_are_models, refuted_has_no_routing, routings_are_models};
pub use tallies::{Sizes, add_counts};
pub use window::{Arrival, WindowNet};
