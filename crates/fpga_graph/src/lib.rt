//! The wires of a fabric: which wires a wire is joined to, how tracks go from cell to cell, and
//! which wires a pin opens.
#![tactic(auto)]

mod across;
mod around;
mod beside;
mod crossing;
mod graph;
mod joint;
mod opened;

pub use beside::cell_beside;
pub use crossing::Crossing;
pub use graph::Graph;
pub use joint::Joint;
pub use opened::MOST_TRACKS;
