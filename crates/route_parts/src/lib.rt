//! Which ordinary nets of a placed netlist no wires reach at a width, whatever the other nets have:
//! the wires of the array fall into parts, of which each has the wires that switch blocks join over
//! some wires between, and a net can be routed only where its terminals open wires of one part.
#![tactic(auto)]

mod flood;
mod laws;
mod numbers;
mod parts;
mod pins;
mod terminals;
mod unreached;
mod wires;

pub use laws::unreached_nets_have_no_routing;
pub use unreached::{Unreached, unreached_net};
