//! Windows of a placed netlist, made.
ghost use Rattle.std.specs.Prelude.{◌≡◌, ◌↔◌, ◌+◌, ◌<◌, ◌≤◌, IfOk, IfSome, IsNone, length};
ghost use Rattle.cell_clauses.specs.Counted.{AreSizes, AreTooMany, IsTooLarge, variables_of};
ghost use Rattle.cell_clauses.specs.Frames.{frame_of};
ghost use Rattle.cell_clauses.specs.Held.{frame_in};
ghost use Rattle.cell_clauses.specs.Places.{entry_place as place_of_entry, variable_count as count_of};
ghost use Rattle.fpga_types.specs.declared.limits.TheConstants.{NET_LIMIT, PIN_LIMIT, WIDTH_LIMIT};
ghost use Rattle.route_bound.specs.Placed.{placed_netlist};
ghost use Rattle.route_bound.specs.Ranges.{corners_of};
ghost use Rattle.sat_clause.specs.declared.limits.TheConstants.{VARIABLE_LIMIT};

use crate::cells::window_cells;
use crate::frame::PlacedWindow;
use crate::placed::Placed;
use crate::tallies::Sizes;
use fpga_types::{Arch, Netlist, Placement};
use route_bound::CornerRange;
use std::alloc::{AllocError, Global};

/// The greatest number of nets of a window.
pub const WINDOW_NETS: usize = 4_096;

/// The greatest number of cells of a window.
pub const WINDOW_CELLS: usize = 8_192;

/// The greatest number of sinks of a window's nets.
pub const WINDOW_SINKS: usize = 8_192;

/// The greatest number of variables of a window's clauses.
pub const WINDOW_VARIABLES: u64 = 2_000_000;

impl<'a> PlacedWindow<'a> {
    /// The window of a rectangle of corners of a placed netlist with `width` tracks, from 1 to 64.
    /// None exactly where it has more than 4,096 nets, 8,192 cells, 8,192 sinks of its nets or
    /// 2,000,000 variables.
    ///
    /// Takes time for each cell of the array and for each pin of the netlist.
    ///
    /// # Errors
    /// Where memory is short.
    pub fn of(
        alloc: Global,
        arch: &'a Arch,
        netlist: &Netlist,
        placement: &Placement,
        range: CornerRange,
        width: u32,
    ) -> Result<Option<PlacedWindow<'a>>, AllocError>
        requires nets { length netlist.now.nets ≤ NET_LIMIT }
        requires pins { length arch.now.pins ≤ PIN_LIMIT }
        requires some { 1 ≤ width }
        requires most { width ≤ WIDTH_LIMIT }
        ensures window { IfOk result (λ found. IfSome found (λ window. frame_in window ≡ frame_of
            (placed_netlist arch.now netlist.now placement.now) (corners_of range) width)) }
        ensures none { IfOk result (λ found. IsNone found ↔ IsTooLarge (frame_of
            (placed_netlist arch.now netlist.now placement.now) (corners_of range) width)) }
    {
        let placed = Placed {
            arch,
            netlist,
            placement,
        };
        let grid = placement.grid;
        let cells = window_cells(alloc, grid, range)?;
        let nets = placed.nets_held(alloc, range)?;
        if nets.len() > WINDOW_NETS {
            return Ok(None);
        }
        let arrivals = placed.arrivals(alloc, nets.as_slice())?;
        let pins = arch.pins.as_slice().len();
        let Some(sizes) = sizes_of(nets.len(), cells.len(), arrivals.len(), pins, width) else {
            return Ok(None);
        };
        Ok(Some(PlacedWindow {
            arch,
            grid,
            range,
            cells,
            nets,
            arrivals,
            sizes,
        }))
    }

    /// How many nets the window has.
    pub fn net_count(&self) -> u32
        ensures { result ≡ length (frame_in self.now).nets }
    {
        self.sizes.nets
    }

    /// How many variables its clauses have.
    pub(crate) fn variable_count(&self) -> u32
        ensures value { result ≡ count_of (frame_in self.now) }
        ensures few { result ≤ VARIABLE_LIMIT }
    {
        let pins = self.arch.pins.as_slice().len() as u32 + 1;
        self.sizes.count() + self.arrivals.len() as u32 * pins
    }

    /// The place of the variable that says that an arrival is by the pin with this number.
    pub(crate) fn entry_place(&self, arrival: u32, number: u32) -> u32
        requires arrival { arrival < length self.now.arrivals.items }
        requires number { number < length self.now.arch.now.pins + 1 }
        ensures value { result ≡ place_of_entry (frame_in self.now) arrival number }
        ensures within { result < count_of (frame_in self.now) }
    {
        let pins = self.arch.pins.as_slice().len() as u32 + 1;
        self.sizes.count() + (arrival * pins + number)
    }
}

/// The sizes of a window with so many nets, cells, sinks and pins of a logic block; none exactly
/// where it is too large.
fn sizes_of(nets: usize, cells: usize, arrivals: usize, pins: usize, width: u32) -> Option<Sizes>
    requires pins { pins ≤ PIN_LIMIT }
    requires some { 1 ≤ width }
    requires most { width ≤ WIDTH_LIMIT }
    ensures sizes { IfSome result (AreSizes nets cells arrivals pins width) }
    ensures none { IsNone result
        ↔ AreTooMany nets cells arrivals (variables_of nets cells arrivals pins width) }
{
    if nets > WINDOW_NETS {
        return None;
    }
    if cells > WINDOW_CELLS {
        return None;
    }
    if arrivals > WINDOW_SINKS {
        return None;
    }
    let uses = nets as u64 * cells as u64;
    let tallies = (nets as u64 + 1) * cells as u64 * u64::from(width);
    let entries = arrivals as u64 * (pins as u64 + 1);
    if uses + tallies + entries > WINDOW_VARIABLES {
        return None;
    }
    Some(Sizes {
        nets: nets as u32,
        cells: cells as u32,
        width,
    })
}
