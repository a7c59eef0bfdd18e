//! What a net is printed by.

use crate::numbers::SlotNumbers;
use crate::tree::NetTree;
use fpga_bounds::PlacedProblem;
use fpga_graph::Graph;
use fpga_types::RouteNet;

/// What a net is printed by: the net in the global route of a problem, by its position there, and
/// its tree of wires for a reach.
#[derive(Drop)]
pub(crate) struct NetPrinter<'a> {
    pub problem: &'a PlacedProblem,
    pub graph: &'a Graph<'a>,
    pub numbers: &'a SlotNumbers<'a>,
    pub net: &'a RouteNet,
    pub number: u32,
    pub tree: &'a NetTree,
    pub reach: u32,
}
