//! The wires of an array at a width, by number.
ghost use Rattle.std.specs.Prelude.{◌≡◌, ◌+◌, ◌*◌, ◌<◌, ◌≤◌, IsTrue};
ghost use Rattle.fpga_graph.specs.Wires.{IsWire};
ghost use Rattle.fpga_types.specs.CellNumbers.{cell_count as count_of_cells, number_of_cell};
ghost use Rattle.fpga_types.specs.Fabric.{is_cell};
ghost use Rattle.fpga_types.specs.declared.limits.TheConstants.{WIDTH_LIMIT};
ghost use Rattle.route_parts.specs.Links.{graph_of, wire_count, wire_number};

use crate::wires::Wires;
use fpga_graph::Graph;
use fpga_types::{Grid, Wire, cell_number, cell_of};

impl<'a> Wires<'a> {
    /// The graph of these wires.
    pub fn graph(&self) -> Graph<'a>
        ensures { result ≡ graph_of self.now }
    {
        Graph::new(self.arch, self.grid, self.width)
    }

    /// How many wires there are, at most 1,292,800.
    pub fn count(&self) -> u32
        ensures { result ≡ wire_count (graph_of self.now) }
    {
        cell_count(self.grid) * self.width
    }

    /// The number of a wire of the array.
    pub fn number(&self, wire: Wire) -> u32
        requires { IsWire (graph_of self.now) wire }
        ensures number { result ≡ wire_number (graph_of self.now) wire }
        ensures within { result < wire_count (graph_of self.now) }
    {
        number_in(self.grid, self.width, wire)
    }

    /// The wire with this number.
    pub fn wire(&self, number: u32) -> Wire
        requires { number < wire_count (graph_of self.now) }
        ensures wire { IsWire (graph_of self.now) result }
        ensures number { wire_number (graph_of self.now) result ≡ number }
    {
        Wire {
            cell: cell_of(self.grid, number / self.width),
            track: number % self.width,
        }
    }
}

/// How many cells the array has.
fn cell_count(grid: Grid) -> u32
    ensures count { result ≡ count_of_cells grid }
    ensures within { result ≤ 20200 }
{
    let Grid { nx, ny } = grid;
    nx * (ny + 1) + ny * (nx + 1)
}

/// The number of a wire in channels of so many tracks.
fn number_in(grid: Grid, width: u32, wire: Wire) -> u32
    requires cell { IsTrue (is_cell grid wire.cell) }
    requires track { wire.track < width }
    requires few { width ≤ WIDTH_LIMIT }
    ensures { result ≡ number_of_cell grid wire.cell * width + wire.track }
{
    // The limits of the array keep the number in range.
    let Grid { nx: _, ny: _ } = grid;
    cell_number(grid, wire.cell) * width + wire.track
}
