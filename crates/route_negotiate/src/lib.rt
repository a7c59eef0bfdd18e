//! Looks for wires of all nets of a placed netlist by costs that rise where nets meet.
#![tactic(auto)]

mod block_lines;
mod board;
mod costs;
mod fabric;
mod field;
mod found;
mod frame;
mod front;
mod given;
mod growth;
mod heap;
mod held;
mod nets;
mod options;
mod own_field;
mod own_nets;
mod own_rounds;
mod own_wave;
mod pins;
mod progress;
mod rounds;
mod routing;
mod row;
mod rows;
mod sites;
mod start;
mod text;
mod tree;
mod wave;
mod wires;
mod within;

pub use found::{Sought, negotiate};
pub use options::{CellWires, Options, ROUND_LIMIT};
pub use routing::{NetPaths, Path};
pub use text::route_text;
pub use within::{ReachedWire, negotiate_within};
