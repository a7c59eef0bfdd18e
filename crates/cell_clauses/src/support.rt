//! That a cell which a net uses meets another that it uses.
ghost use Rattle.std.specs.Prelude.{◌≡◌, ◌<◌, ◌≤◌, OnOk, flat_map, length};
ghost use Rattle.std.specs.List.{enumerate_from};
ghost use Rattle.cell_clauses.specs.Adding.{Extends};
ghost use Rattle.cell_clauses.specs.Clauses.{held_clauses, support_clauses};
ghost use Rattle.cell_clauses.specs.Held.{frame_in};
ghost use Rattle.cell_clauses.specs.Places.{variable_count as count_of};
ghost use Rattle.route_bound.specs.Lying.{pins_at as pins_of};

use crate::adding::extend;
use crate::frame::PlacedWindow;
use crate::near::Near;
use crate::pins::pins_at;
use crate::tallies::lacks_lit;
use crate::window::WindowNet;
use fpga_types::{Cell, PinAt};
use sat_clause::Formula;
use std::alloc::{AllocError, Global};

impl<'a> PlacedWindow<'a> {
    /// Adds that each cell which a net uses meets another that it uses, if its driver does not
    /// touch the cell and all that the cell meets are of the window.
    ///
    /// # Errors
    /// Where memory is short.
    pub(crate) fn add_support(&self, alloc: Global, formula: &mut Formula) -> Result<(), AllocError>
        requires vars { count_of (frame_in self.now) ≤ formula.old.cnf.vars }
        ensures { OnOk result (Extends formula.old (flat_map (support_clauses (frame_in self.now))
            (enumerate_from 0 self.now.nets.items)) formula.new) }
    {
        for place in 0..self.sizes.nets {
            let net = self.nets[place as usize];
            self.add_net_support(alloc, formula, place, net)?;
        }
        Ok(())
    }

    /// Adds the same of one net.
    fn add_net_support(
        &self,
        alloc: Global,
        formula: &mut Formula,
        place: u32,
        net: WindowNet,
    ) -> Result<(), AllocError>
        requires vars { count_of (frame_in self.now) ≤ formula.old.cnf.vars }
        requires place { place < self.now.sizes.nets }
        ensures { OnOk result (Extends formula.old
            (support_clauses (frame_in self.now) (place, net)) formula.new) }
    {
        let pins = pins_at(alloc, self.arch, net.driver)?;
        self.add_cells_support(alloc, formula, place, net, pins.as_slice())
    }

    /// Adds the same of one net, by the pins of its driver.
    fn add_cells_support(
        &self,
        alloc: Global,
        formula: &mut Formula,
        place: u32,
        net: WindowNet,
        pins: &[PinAt],
    ) -> Result<(), AllocError>
        requires vars { count_of (frame_in self.now) ≤ formula.old.cnf.vars }
        requires place { place < self.now.sizes.nets }
        requires pins { pins.now ≡ pins_of self.now.arch.now net.driver }
        ensures { OnOk result (Extends formula.old
            (support_clauses (frame_in self.now) (place, net)) formula.new) }
    {
        for number in 0..self.sizes.cells {
            let cell = self.cells[number as usize];
            self.add_cell_support(alloc, formula, place, net, pins, number, cell)?;
        }
        Ok(())
    }

    /// Adds the same of one net and one cell.
    fn add_cell_support(
        &self,
        alloc: Global,
        formula: &mut Formula,
        place: u32,
        net: WindowNet,
        pins: &[PinAt],
        number: u32,
        cell: Cell,
    ) -> Result<(), AllocError>
        requires vars { count_of (frame_in self.now) ≤ formula.old.cnf.vars }
        requires place { place < self.now.sizes.nets }
        requires number { number < self.now.sizes.cells }
        requires pins { pins.now ≡ pins_of self.now.arch.now net.driver }
        ensures { OnOk result (Extends formula.old
            (held_clauses (frame_in self.now) (place, net) (number, cell)) formula.new) }
    {
        if self.range.standing(cell).outside {
            return Ok(());
        }
        if self.is_near(Near::Reached(pins), cell) {
            return Ok(());
        }
        let lacks = lacks_lit(self.sizes.use_place(place, number));
        let lits = self.uses_behind(alloc, lacks, place, Near::Met(cell))?;
        extend(formula, lits.as_slice())
    }
}
