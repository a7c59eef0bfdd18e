//! That no two arrivals at a sink are by one pin.
ghost use Rattle.std.specs.Prelude.{◌≡◌, ◌+◌, ◌<◌, ◌≤◌, [], ◌∷◌, All, OnOk, flat_map, length, map};
ghost use Rattle.std.specs.List.{enumerate_from};
ghost use Rattle.cell_clauses.specs.Adding.{Extends};
ghost use Rattle.cell_clauses.specs.Clauses.{apart_clauses, not_both, pair_clauses};
ghost use Rattle.cell_clauses.specs.Held.{frame_in};
ghost use Rattle.cell_clauses.specs.Places.{pin_number as number_of, variable_count as count_of};

use crate::adding::extend;
use crate::frame::PlacedWindow;
use crate::pins::{pin_number, pins_at, same_terminal};
use crate::tallies::lacks_lit;
use crate::window::Arrival;
use fpga_types::PinAt;
use sat_clause::Formula;
use std::alloc::{AllocError, Global};

impl<'a> PlacedWindow<'a> {
    /// Adds that no two arrivals at a sink are by one pin.
    ///
    /// # Errors
    /// Where memory is short.
    pub(crate) fn add_apart(&self, alloc: Global, formula: &mut Formula) -> Result<(), AllocError>
        requires vars { count_of (frame_in self.now) ≤ formula.old.cnf.vars }
        ensures { OnOk result (Extends formula.old (flat_map (apart_clauses (frame_in self.now))
            (enumerate_from 0 self.now.arrivals.items)) formula.new) }
    {
        for place in 0..self.arrivals.len() as u32 {
            let arrival = self.arrivals[place as usize];
            self.add_pairs(alloc, formula, place, arrival)?;
        }
        Ok(())
    }

    /// Adds that no later arrival at the same sink is by the same pin.
    fn add_pairs(
        &self,
        alloc: Global,
        formula: &mut Formula,
        first: u32,
        arrival: Arrival,
    ) -> Result<(), AllocError>
        requires vars { count_of (frame_in self.now) ≤ formula.old.cnf.vars }
        requires first { first < length self.now.arrivals.items }
        ensures { OnOk result (Extends formula.old
            (apart_clauses (frame_in self.now) (first, arrival)) formula.new) }
    {
        for place in 0..self.arrivals.len() as u32 {
            let second = self.arrivals[place as usize];
            self.add_pair(alloc, formula, first, arrival, place, second)?;
        }
        Ok(())
    }

    /// Adds that an arrival is not by the same pin as another, if it is a later one at the same
    /// sink.
    fn add_pair(
        &self,
        alloc: Global,
        formula: &mut Formula,
        first: u32,
        arrival: Arrival,
        place: u32,
        second: Arrival,
    ) -> Result<(), AllocError>
        requires vars { count_of (frame_in self.now) ≤ formula.old.cnf.vars }
        requires first { first < length self.now.arrivals.items }
        requires place { place < length self.now.arrivals.items }
        ensures { OnOk result (Extends formula.old
            (pair_clauses (frame_in self.now) (first, arrival) (place, second)) formula.new) }
    {
        let later = first < place && same_terminal(arrival.at, second.at);
        if !later {
            return Ok(());
        }
        let pins = pins_at(alloc, self.arch, arrival.at)?;
        self.add_not_both(formula, first, place, pins.as_slice())
    }

    /// Adds for each of some pins that two arrivals are not both by it.
    fn add_not_both(
        &self,
        formula: &mut Formula,
        first: u32,
        second: u32,
        pins: &[PinAt],
    ) -> Result<(), AllocError>
        requires vars { count_of (frame_in self.now) ≤ formula.old.cnf.vars }
        requires first { first < length self.now.arrivals.items }
        requires second { second < length self.now.arrivals.items }
        requires low { All (λ pin. number_of pin < length self.now.arch.now.pins + 1) pins.now }
        ensures { OnOk result (Extends formula.old
            (map (not_both (frame_in self.now) first second) pins.now) formula.new) }
    {
        for pin in pins {
            self.add_not_by(formula, first, second, *pin)?;
        }
        Ok(())
    }

    /// Adds that two arrivals are not both by a pin.
    fn add_not_by(
        &self,
        formula: &mut Formula,
        first: u32,
        second: u32,
        pin: PinAt,
    ) -> Result<(), AllocError>
        requires vars { count_of (frame_in self.now) ≤ formula.old.cnf.vars }
        requires first { first < length self.now.arrivals.items }
        requires second { second < length self.now.arrivals.items }
        requires low { number_of pin < length self.now.arch.now.pins + 1 }
        ensures { OnOk result (Extends formula.old
            (not_both (frame_in self.now) first second pin ∷ []) formula.new) }
    {
        let number = pin_number(pin);
        let one = lacks_lit(self.entry_place(first, number));
        let other = lacks_lit(self.entry_place(second, number));
        extend(formula, &[one, other])
    }
}
