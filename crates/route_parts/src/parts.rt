//! The parts of the wires of an array.
ghost use Rattle.std.specs.Prelude.{◌≡◌, ◌≤◌, IfOk};
ghost use Rattle.fpga_graph.specs.Wires.{IsWire};
ghost use Rattle.route_parts.specs.Links.{AreParts, graph_of, part_in};

use crate::flood::Flood;
use crate::wires::Wires;
use fpga_types::Wire;
use std::alloc::{AllocError, Global};

/// The parts of the wires of an array: two wires have one part exactly where switch blocks join
/// them over some wires between. Each part has a wire in each cell, so that there are no more of
/// them than tracks.
#[derive(Drop)]
pub(crate) struct WireParts {
    /// How many parts there are.
    pub count: u32,
    /// For each wire, by number, its part, from 1 on.
    pub table: Vec<u32>,
}

impl WireParts {
    /// The parts of these wires. The time is that of the wires and of what they are joined to.
    ///
    /// # Errors
    /// Where memory is short.
    pub fn of(alloc: Global, wires: &Wires<'_>) -> Result<WireParts, AllocError>
        ensures { IfOk result
            (λ parts. AreParts (graph_of wires.now) parts.count parts.table.items) }
    {
        let mut flood = Flood {
            table: vec![in alloc; 0; wires.count() as usize]?,
            ahead: Vec::new(alloc),
        };
        let count = flood.fill(wires)?;
        let Flood { table, .. } = flood;
        Ok(WireParts { count, table })
    }

    /// The part of a wire.
    pub fn part(&self, wires: &Wires<'_>, wire: Wire) -> u32
        requires parts { AreParts (graph_of wires.now) self.now.count self.now.table.items }
        requires wire { IsWire (graph_of wires.now) wire }
        ensures part { result ≡ part_in (graph_of wires.now) self.now.table.items wire }
        ensures within { result ≤ self.now.count }
    {
        self.table[wires.number(wire) as usize]
    }
}
