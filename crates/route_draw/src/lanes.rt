//! Where the wires of a route stand in the channels: on their tracks, or, of a route without
//! tracks, side by side in each cell.
ghost use Rattle.std.specs.Prelude.{◌≡◌, ◌≤◌, IfOk, true, false};
ghost use Rattle.fpga_types.specs.Slots.{slots};
ghost use Rattle.route_draw.specs.Needs.{has_tracks};
ghost use Rattle.route_draw.specs.Wires.{AreLanes, IsAcross, Layout, layout_of};
ghost use Rattle.route_draw.specs.declared.scale.TheConstants.{CHANNEL};

use crate::needs::{cell_count, has_tracks, need_at, no_needs, place_of, take_nets, take_slots};
use crate::scale::track_place;
use fpga_bounds::PlacedProblem;
use fpga_types::{Cell, Elem, ElemKind, Grid, RouteText};
use std::alloc::{AllocError, Global};
use std::marker::Model;

/// Where wires stand: by a table of how many tracks each cell wants, and where they stand side by
/// side by another of how many nets have come to each cell.
#[derive(Drop)]
pub(crate) struct Lanes {
    grid: Grid,
    on_tracks: bool,
    needs: Vec<u64>,
    width: u32,
    ranks: Vec<u32>,
}

impl Model for Lanes {
    ghost use Rattle.route_draw.specs.Wires.{LanesOf};

    ghost Value = { LanesOf };

    ghost view = { λ l. record {
      grid = l.grid;
      on_tracks = l.on_tracks;
      needs = l.needs.items;
      width = l.width;
    } };
}

impl Lanes {
    /// Where the wires of a problem's own route stand: on their tracks, unless all these are 0.
    pub(crate) fn of(
        alloc: Global,
        problem: &PlacedProblem,
        width: u32,
    ) -> Result<Lanes, AllocError>
        ensures { IfOk result (AreLanes
            (layout_of (has_tracks problem.now.route.nets) problem.now.route width)) }
    {
        let route = problem.route();
        if has_tracks(route.nets.as_slice()) {
            let lanes = Lanes::on_tracks(alloc, route, width)?;
            return Ok(lanes);
        }
        let lanes = Lanes::side_by_side(alloc, problem, width)?;
        Ok(lanes)
    }

    /// Where the wires of a routing stand: on their tracks.
    pub(crate) fn on_tracks(
        alloc: Global,
        route: &RouteText,
        width: u32,
    ) -> Result<Lanes, AllocError>
        ensures { IfOk result (AreLanes (layout_of true route.now width)) }
    {
        let grid = route.grid;
        let mut needs = no_needs(alloc, grid)?;
        take_nets(&mut needs, grid, route.nets.as_slice());
        Ok(Lanes {
            grid,
            on_tracks: true,
            needs,
            width,
            ranks: Vec::new(alloc),
        })
    }

    // Where the wires of a route without tracks stand.
    fn side_by_side(alloc: Global, problem: &PlacedProblem, width: u32) -> Result<Lanes, AllocError>
        ensures { IfOk result (AreLanes (layout_of false problem.now.route width)) }
    {
        let grid = problem.route().grid;
        let mut needs = no_needs(alloc, grid)?;
        take_slots(&mut needs, grid, problem.slots());
        let ranks = vec![in alloc; 0u32; cell_count(grid) as usize]?;
        Ok(Lanes {
            grid,
            on_tracks: false,
            needs,
            width,
            ranks,
        })
    }

    /// How many tracks each cell wants, by its number.
    pub(crate) fn needs(&self) -> &[u64]
        ensures { result.now ≡ self.now.needs }
    {
        self.needs.as_slice()
    }

    /// Gives a net with these lines, the next of all, a place of its own in each of its cells,
    /// where nets stand side by side.
    pub(crate) fn enter(&mut self, elems: &[Elem])
        ensures { self.new ≡ self.old }
    {
        if !self.on_tracks {
            enter_cells(&mut self.ranks, self.grid, elems);
        }
    }

    /// How far a wire of this cell and track is from the start of its channel. Where nets stand
    /// side by side it is a wire of the net that came last.
    pub(crate) fn across(&self, cell: Cell, track: u32) -> u64
        ensures within { result ≤ CHANNEL }
        ensures place { (layout : Layout) → AreLanes layout self.now →
            IsAcross layout cell track result }
    {
        let tracks = need_at(&self.needs, self.grid, cell).max(self.width as u64);
        if self.on_tracks {
            return track_place(track, tracks);
        }
        track_place(self.rank(cell), tracks)
    }

    // The place of the net that came last to the cell, from 0 on.
    fn rank(&self, cell: Cell) -> u32 {
        let Some(place) = place_of(self.grid, cell) else {
            return 0;
        };
        self.ranks
            .get(place)
            .copied()
            .unwrap_or(0)
            .saturating_sub(1)
    }
}

// Counts a net with these lines in each of its cells.
fn enter_cells(ranks: &mut [u32], grid: Grid, elems: &[Elem]) {
    let mut behind_sink = false;
    for elem in elems {
        if !behind_sink {
            enter_cell(ranks, grid, *elem);
        }
        behind_sink = matches!(elem.kind, ElemKind::Sink);
    }
}

fn enter_cell(ranks: &mut [u32], grid: Grid, elem: Elem) {
    let Some(cell) = elem.cell() else {
        return;
    };
    let Some(place) = place_of(grid, cell) else {
        return;
    };
    if let Some(rank) = ranks.get_mut(place) {
        *rank = rank.saturating_add(1);
    }
}
