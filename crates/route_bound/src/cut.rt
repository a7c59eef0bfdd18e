//! A cut that asks for many tracks.
ghost use Rattle.std.specs.Prelude.{◌≡◌, ◌*◌, ◌≤◌, nat_lt, IfOk, length};
ghost use Rattle.route_bound.specs.Cuts.{BeatsLines, cut_of, IsBestCut, IsCrossed, IsFullLine};
ghost use Rattle.route_bound.specs.Placed.{placed_netlist};
ghost use Rattle.route_bound.specs.Ranges.{IsRange, cut_size};

use crate::placed::PlacedNets;
use crate::range::{CornerRange, LineKind};
use crate::search::full_rectangle;
use fpga_types::{Arch, Items, NET_LIMIT, Netlist, Placement};
use std::alloc::{AllocError, Global};

/// A cut: the corners round which it goes, how many cells it has, the numbers of the nets that
/// cross it, in the order of the netlist, and the least number of tracks, from 1 on, with which its
/// cells have as many wires as there are such nets.
#[derive(Drop)]
pub struct Cut {
    pub range: CornerRange,
    pub cells: u32,
    pub nets: Items<u32>,
    pub tracks: u32,
}

/// The corners round which a cut goes, how many cells it has, and the nets that cross it.
#[derive(Drop)]
pub(crate) struct Crossed {
    pub range: CornerRange,
    pub cells: u32,
    pub nets: Vec<u32>,
}

/// The fullest cut that is found: for each of its cells at least as many nets cross it as cross any
/// straight line, and no routing of the placement has fewer tracks than it asks for, whatever the
/// global route. Where no net crosses any line the cut is one of these, and asks for one track.
///
/// Takes time for each terminal, for each net and line that goes between its terminals, and then
/// for each terminal and rectangle that is looked at: at most 4,000, and at most 60 million
/// terminals in all. Takes memory for the terminals.
///
/// # Errors
/// Where memory is short.
pub fn best_cut(
    alloc: Global,
    arch: &Arch,
    netlist: &Netlist,
    placement: &Placement,
) -> Result<Cut, AllocError>
    requires { length netlist.now.nets ≤ NET_LIMIT }
    ensures { IfOk result (IsBestCut (placed_netlist arch.now netlist.now placement.now)) }
{
    let placed = PlacedNets::of(alloc, arch, netlist, placement)?;
    let found = full_rectangle(alloc, &placed)?;
    let crossed = placed.fullest(alloc, found)?;
    Ok(crossed.into_cut())
}

impl<'a> PlacedNets<'a> {
    /// The cut round these corners, if they are some of the array and it is fuller than each line,
    /// and else the fullest line.
    ///
    /// # Errors
    /// Where memory is short.
    fn fullest(&self, alloc: Global, found: CornerRange) -> Result<Crossed, AllocError>
        requires { length self.now.netlist.nets ≤ NET_LIMIT }
        ensures crossed { IfOk result (IsCrossed self.now) }
        ensures lines { IfOk result (λ c. BeatsLines self.now (length c.nets.items) c.cells) }
    {
        let line = self.fullest_line(alloc)?;
        if !found.is_in(self.placement.grid) {
            return Ok(line);
        }
        if found.cell_count(self.placement.grid) == 0 {
            return Ok(line);
        }
        let rectangle = self.crossed(alloc, found)?;
        if rectangle.is_fuller(&line) {
            return Ok(rectangle);
        }
        Ok(line)
    }

    /// The fullest straight line.
    ///
    /// # Errors
    /// Where memory is short.
    fn fullest_line(&self, alloc: Global) -> Result<Crossed, AllocError>
        requires { length self.now.netlist.nets ≤ NET_LIMIT }
        ensures crossed { IfOk result (IsCrossed self.now) }
        ensures lines { IfOk result (λ c. BeatsLines self.now (length c.nets.items) c.cells) }
    {
        let column = self.crossed_line(alloc, LineKind::Column)?;
        let row = self.crossed_line(alloc, LineKind::Row)?;
        if column.is_fuller(&row) {
            return Ok(column);
        }
        Ok(row)
    }

    /// A straight line of a kind that most nets cross.
    ///
    /// # Errors
    /// Where memory is short.
    fn crossed_line(&self, alloc: Global, kind: LineKind) -> Result<Crossed, AllocError>
        requires { length self.now.netlist.nets ≤ NET_LIMIT }
        ensures crossed { IfOk result (IsCrossed self.now) }
        ensures most { IfOk result (λ c. IsFullLine self.now kind (length c.nets.items) c.cells) }
    {
        let line = self.best_line(kind);
        let range = CornerRange::of_line(self.placement.grid, kind, line);
        let cut = self.crossed(alloc, range)?;
        Ok(cut)
    }

    /// The cut round these corners, and the nets that cross it.
    ///
    /// # Errors
    /// Where memory is short.
    fn crossed(&self, alloc: Global, range: CornerRange) -> Result<Crossed, AllocError>
        requires few { length self.now.netlist.nets ≤ NET_LIMIT }
        requires range { IsRange self.now.placement.grid range }
        requires some { 1 ≤ cut_size self.now.placement.grid range }
        ensures crossed { IfOk result (IsCrossed self.now) }
        ensures range { IfOk result (λ c. c.range ≡ range) }
    {
        let nets = self.crossing(alloc, range)?;
        Ok(Crossed {
            range,
            cells: range.cell_count(self.placement.grid),
            nets,
        })
    }
}

impl Crossed {
    /// Whether more nets cross it for each of its cells than cross the other.
    fn is_fuller(&self, other: &Crossed) -> bool
        requires few { length self.now.nets.items ≤ NET_LIMIT }
        requires other_few { length other.now.nets.items ≤ NET_LIMIT }
        ensures { result ≡ nat_lt (length other.now.nets.items * self.now.cells)
            (length self.now.nets.items * other.now.cells) }
    {
        wires_asked(other.nets.len(), self.cells) < wires_asked(self.nets.len(), other.cells)
    }

    /// The cut with the tracks that it asks for.
    fn into_cut(self) -> Cut
        requires some { 1 ≤ self.cells }
        requires few { length self.nets.items ≤ NET_LIMIT }
        ensures { result ≡ cut_of self }
    {
        let Crossed { range, cells, nets } = self;
        let tracks = nets.len().saturating_sub(1) as u32 / cells + 1;
        Cut {
            range,
            cells,
            nets: Items::of(nets),
            tracks,
        }
    }
}

/// So many nets, times so many cells.
fn wires_asked(nets: usize, cells: u32) -> u64
    requires { nets ≤ NET_LIMIT }
    ensures { result ≡ nets * cells }
{
    nets as u64 * u64::from(cells)
}
