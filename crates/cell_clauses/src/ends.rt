//! That a net leaves its driver by a cell, and comes to each sink by a pin.
ghost use Rattle.std.specs.Prelude.{◌≡◌, ◌+◌, ◌<◌, ◌≤◌, [], ◌∷◌, ◌++◌, All, OnOk, flat_map, length, map};
ghost use Rattle.std.specs.List.{enumerate_from};
ghost use Rattle.cell_clauses.specs.Adding.{Extends};
ghost use Rattle.cell_clauses.specs.Clauses.{enters_by, enters_clauses, enters_some, leaves_clauses};
ghost use Rattle.cell_clauses.specs.Held.{frame_in};
ghost use Rattle.cell_clauses.specs.Places.{entry_place, has, pin_number as number_of, variable_count as count_of};
ghost use Rattle.route_bound.specs.Lying.{pins_at as pins_of};

use crate::adding::extend;
use crate::frame::PlacedWindow;
use crate::near::Near;
use crate::pins::{pin_number, pins_at};
use crate::tallies::{has_lit, lacks_lit};
use crate::window::{Arrival, WindowNet};
use fpga_types::PinAt;
use route_bound::is_inside;
use sat_clause::{Formula, Lit};
use std::alloc::{AllocError, Global};

impl<'a> PlacedWindow<'a> {
    /// Adds that each net uses a cell that its driver touches, if all of these are of the window.
    ///
    /// # Errors
    /// Where memory is short.
    pub(crate) fn add_leaves(&self, alloc: Global, formula: &mut Formula) -> Result<(), AllocError>
        requires vars { count_of (frame_in self.now) ≤ formula.old.cnf.vars }
        ensures { OnOk result (Extends formula.old (flat_map (leaves_clauses (frame_in self.now))
            (enumerate_from 0 self.now.nets.items)) formula.new) }
    {
        for place in 0..self.sizes.nets {
            let net = self.nets[place as usize];
            self.add_leave(alloc, formula, place, net)?;
        }
        Ok(())
    }

    /// Adds that a net uses a cell that its driver touches, if all of these are of the window.
    fn add_leave(
        &self,
        alloc: Global,
        formula: &mut Formula,
        place: u32,
        net: WindowNet,
    ) -> Result<(), AllocError>
        requires vars { count_of (frame_in self.now) ≤ formula.old.cnf.vars }
        requires place { place < self.now.sizes.nets }
        ensures { OnOk result
            (Extends formula.old (leaves_clauses (frame_in self.now) (place, net)) formula.new) }
    {
        if !is_inside(self.arch, self.grid, self.range, net.driver) {
            return Ok(());
        }
        let pins = pins_at(alloc, self.arch, net.driver)?;
        let lits = self.uses(alloc, place, Near::Reached(pins.as_slice()))?;
        extend(formula, lits.as_slice())
    }

    /// Adds that each net comes to its sinks by a pin of theirs, and by a cell that this touches,
    /// if all that the sink touches are of the window.
    ///
    /// # Errors
    /// Where memory is short.
    pub(crate) fn add_enters(&self, alloc: Global, formula: &mut Formula) -> Result<(), AllocError>
        requires vars { count_of (frame_in self.now) ≤ formula.old.cnf.vars }
        ensures { OnOk result (Extends formula.old (flat_map (enters_clauses (frame_in self.now))
            (enumerate_from 0 self.now.arrivals.items)) formula.new) }
    {
        for place in 0..self.arrivals.len() as u32 {
            let arrival = self.arrivals[place as usize];
            self.add_enter(alloc, formula, place, arrival)?;
        }
        Ok(())
    }

    /// Adds that a net comes to a sink by a pin, and by a cell that this touches, if all that the
    /// sink touches are of the window.
    fn add_enter(
        &self,
        alloc: Global,
        formula: &mut Formula,
        place: u32,
        arrival: Arrival,
    ) -> Result<(), AllocError>
        requires vars { count_of (frame_in self.now) ≤ formula.old.cnf.vars }
        requires place { place < length self.now.arrivals.items }
        requires net { arrival.net < self.now.sizes.nets }
        ensures { OnOk result (Extends formula.old
            (enters_clauses (frame_in self.now) (place, arrival)) formula.new) }
    {
        if !is_inside(self.arch, self.grid, self.range, arrival.at) {
            return Ok(());
        }
        let pins = pins_at(alloc, self.arch, arrival.at)?;
        self.add_some_pin(alloc, formula, place, pins.as_slice())?;
        self.add_by_pins(alloc, formula, place, arrival, pins.as_slice())
    }

    /// Adds that an arrival is by one of some pins.
    fn add_some_pin(
        &self,
        alloc: Global,
        formula: &mut Formula,
        place: u32,
        pins: &[PinAt],
    ) -> Result<(), AllocError>
        requires vars { count_of (frame_in self.now) ≤ formula.old.cnf.vars }
        requires place { place < length self.now.arrivals.items }
        requires low { All (λ pin. number_of pin < length self.now.arch.now.pins + 1) pins.now }
        ensures { OnOk result (Extends formula.old
            (map (λ pin. has (entry_place (frame_in self.now) place (number_of pin))) pins.now ∷ [])
            formula.new) }
    {
        let mut lits = Vec::new(alloc);
        self.add_entries(&mut lits, place, pins)?;
        extend(formula, lits.as_slice())
    }

    /// Adds to a clause that an arrival is by one of some pins.
    fn add_entries(&self, lits: &mut Vec<Lit>, place: u32, pins: &[PinAt]) -> Result<(), AllocError>
        requires place { place < length self.now.arrivals.items }
        requires low { All (λ pin. number_of pin < length self.now.arch.now.pins + 1) pins.now }
        ensures { OnOk result (lits.new.items ≡ lits.old.items
            ++ map (λ pin. has (entry_place (frame_in self.now) place (number_of pin))) pins.now) }
    {
        for pin in pins {
            lits.push(has_lit(self.entry_place(place, pin_number(*pin))))?;
        }
        Ok(())
    }

    /// Adds for each of some pins that an arrival by it is by a cell that it touches.
    fn add_by_pins(
        &self,
        alloc: Global,
        formula: &mut Formula,
        place: u32,
        arrival: Arrival,
        pins: &[PinAt],
    ) -> Result<(), AllocError>
        requires vars { count_of (frame_in self.now) ≤ formula.old.cnf.vars }
        requires place { place < length self.now.arrivals.items }
        requires net { arrival.net < self.now.sizes.nets }
        requires low { All (λ pin. number_of pin < length self.now.arch.now.pins + 1) pins.now }
        ensures { OnOk result (Extends formula.old
            (map (enters_by (frame_in self.now) (place, arrival)) pins.now) formula.new) }
    {
        for pin in pins {
            self.add_by_pin(alloc, formula, place, arrival, *pin)?;
        }
        Ok(())
    }

    /// Adds that an arrival by a pin is by a cell that it touches.
    fn add_by_pin(
        &self,
        alloc: Global,
        formula: &mut Formula,
        place: u32,
        arrival: Arrival,
        pin: PinAt,
    ) -> Result<(), AllocError>
        requires vars { count_of (frame_in self.now) ≤ formula.old.cnf.vars }
        requires place { place < length self.now.arrivals.items }
        requires net { arrival.net < self.now.sizes.nets }
        requires low { number_of pin < length self.now.arch.now.pins + 1 }
        ensures { OnOk result (Extends formula.old
            (enters_by (frame_in self.now) (place, arrival) pin ∷ []) formula.new) }
    {
        let lacks = lacks_lit(self.entry_place(place, pin_number(pin)));
        let lits = self.uses_behind(alloc, lacks, arrival.net, Near::Touched(pin))?;
        extend(formula, lits.as_slice())
    }
}
