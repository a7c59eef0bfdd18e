//! The cells of a window near pins and cells, and that a net uses one of them.
ghost use Rattle.std.specs.Prelude.{◌≡◌, ◌<◌, [], ◌∷◌, ◌++◌, IfOk, OnOk, filter, is_some, map};
ghost use Rattle.cell_clauses.specs.Clauses.{is_cell_in, uses_some};
ghost use Rattle.cell_clauses.specs.Places.{has, use_place as use_of};
ghost use Rattle.cell_clauses.specs.Held.{frame_in, near_cells};
ghost use Rattle.fpga_types.specs.Fabric.{meeting};
ghost use Rattle.fpga_types.specs.Touching.{touches};
ghost use Rattle.std.specs.List.{list_any};

use crate::frame::PlacedWindow;
use crate::pins::is_touched;
use crate::tallies::has_lit;
use fpga_fabric::meet;
use fpga_types::{Arch, Cell, Grid, PinAt};
use sat_clause::Lit;
use std::alloc::{AllocError, Global};

/// Which cells are near.
#[derive(Clone, Copy)]
pub(crate) enum Near<'b> {
    /// Those that the pin touches.
    Touched(PinAt),
    /// Those that one of these pins touches.
    Reached(&'b [PinAt]),
    /// Those that meet the cell.
    Met(Cell),
}

impl<'a> PlacedWindow<'a> {
    /// Whether the cell is near.
    pub(crate) fn is_near(&self, near: Near<'_>, cell: Cell) -> bool
        ensures { result ≡ near_cells (frame_in self.now) near.entry cell }
    {
        match near {
            Near::Touched(pin) => is_touched(self.arch, self.grid, pin, cell),
            Near::Reached(pins) => is_reached(self.arch, self.grid, pins, cell),
            Near::Met(other) => are_met(self.grid, other, cell),
        }
    }

    /// The clause that a net uses one of the window's cells that are near.
    ///
    /// # Errors
    /// Where memory is short.
    pub(crate) fn uses(
        &self,
        alloc: Global,
        net: u32,
        near: Near<'_>,
    ) -> Result<Vec<Lit>, AllocError>
        requires { net < self.now.sizes.nets }
        ensures { IfOk result (λ lits. lits.items
            ≡ uses_some (frame_in self.now) net (near_cells (frame_in self.now) near.entry)) }
    {
        let mut lits = Vec::new(alloc);
        self.add_uses(&mut lits, net, near)?;
        Ok(lits)
    }

    /// The same behind a literal.
    ///
    /// # Errors
    /// Where memory is short.
    pub(crate) fn uses_behind(
        &self,
        alloc: Global,
        first: Lit,
        net: u32,
        near: Near<'_>,
    ) -> Result<Vec<Lit>, AllocError>
        requires { net < self.now.sizes.nets }
        ensures { IfOk result (λ lits. lits.items ≡ first
            ∷ uses_some (frame_in self.now) net (near_cells (frame_in self.now) near.entry)) }
    {
        let mut lits = Vec::new(alloc);
        lits.push(first)?;
        self.add_uses(&mut lits, net, near)?;
        Ok(lits)
    }

    /// Adds to a clause that a net uses one of the window's cells that are near.
    fn add_uses(&self, lits: &mut Vec<Lit>, net: u32, near: Near<'_>) -> Result<(), AllocError>
        requires { net < self.now.sizes.nets }
        ensures { OnOk result (lits.new.items ≡ lits.old.items
            ++ uses_some (frame_in self.now) net (near_cells (frame_in self.now) near.entry)) }
    {
        for place in 0..self.sizes.cells {
            self.add_use(lits, net, near, place)?;
        }
        Ok(())
    }

    /// Adds to a clause that a net uses the cell at a place, if it is near.
    fn add_use(
        &self,
        lits: &mut Vec<Lit>,
        net: u32,
        near: Near<'_>,
        place: u32,
    ) -> Result<(), AllocError>
        requires net { net < self.now.sizes.nets }
        requires place { place < self.now.sizes.cells }
        ensures { OnOk result (lits.new.items ≡ lits.old.items
            ++ map (λ c. has (use_of (frame_in self.now) net c))
            (filter (is_cell_in (frame_in self.now) (near_cells (frame_in self.now) near.entry))
            (place ∷ []))) }
    {
        if !self.is_near(near, self.cells[place as usize]) {
            return Ok(());
        }
        lits.push(has_lit(self.sizes.use_place(net, place)))?;
        Ok(())
    }
}

/// Whether one of the pins touches the cell.
fn is_reached(arch: &Arch, grid: Grid, pins: &[PinAt], cell: Cell) -> bool
    ensures { result ≡ list_any (λ pin. touches arch.now grid pin cell) pins.now }
{
    pins.iter().any(|pin| is_touched(arch, grid, *pin, cell))
}

/// Whether two cells are of the array and meet.
fn are_met(grid: Grid, a: Cell, b: Cell) -> bool
    ensures { result ≡ is_some (meeting grid a b) }
{
    if !grid.has_cell(a) || !grid.has_cell(b) {
        return false;
    }
    meet(grid, a, b).is_some()
}
