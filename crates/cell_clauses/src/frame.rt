//! A window of a placed netlist.
ghost use Rattle.std.specs.Prelude.{◌≡◌, ◌+◌, ◌*◌, ◌<◌, ◌≤◌, All, length};
ghost use Rattle.cell_clauses.specs.declared.window.Arrival.{Arrival as ArrivalOf};
ghost use Rattle.fpga_types.specs.declared.limits.TheConstants.{PIN_LIMIT};
ghost use Rattle.sat_clause.specs.declared.limits.TheConstants.{VARIABLE_LIMIT};

use crate::tallies::Sizes;
use crate::window::{Arrival, WindowNet};
use fpga_types::{Arch, Cell, Grid};
use route_bound::CornerRange;

/// A window of a placed netlist, with some tracks: a rectangle of corners, the cells of the array
/// that have one of them, the nets of which these cells hold a terminal, and their sinks.
#[derive(Drop)]
pub struct PlacedWindow<'a> {
    pub(crate) arch: &'a Arch,
    pub(crate) grid: Grid,
    pub(crate) range: CornerRange,
    pub(crate) cells: Vec<Cell>,
    pub(crate) nets: Vec<WindowNet>,
    pub(crate) arrivals: Vec<Arrival>,
    pub(crate) sizes: Sizes,
    ghost few_pins: { length arch.now.pins ≤ PIN_LIMIT },
    ghost nets_are: { sizes.nets ≡ length nets.items },
    ghost cells_are: { sizes.cells ≡ length cells.items },
    ghost come_to: { All (λ (a : ArrivalOf). a.net < length nets.items) arrivals.items },
    ghost few: { sizes.nets * sizes.cells + (sizes.nets + 1) * sizes.cells * sizes.width
        + length arrivals.items * (length arch.now.pins + 1) ≤ VARIABLE_LIMIT },
}
