//! The clauses over cells of a window as a formula.
ghost use Rattle.std.specs.Prelude.{◌≡◌, ◌≤◌, ◌+◌, ◌*◌, IfOk, OnOk, flat_map, length};
ghost use Rattle.cell_clauses.specs.Adding.{Extends};
ghost use Rattle.cell_clauses.specs.Clauses.{below, cell_cnf, count_clauses};
ghost use Rattle.cell_clauses.specs.Held.{frame_in};
ghost use Rattle.cell_clauses.specs.Places.{variable_count as count_of};

use crate::frame::PlacedWindow;
use crate::tallies::add_counts;
use sat_clause::{Formula, ID_LIMIT};
use std::alloc::{AllocError, Global};

impl<'a> PlacedWindow<'a> {
    /// The clauses over cells of the window.
    ///
    /// Takes time for each net and each two cells, for each two sinks, and for each clause.
    ///
    /// # Errors
    /// Where memory is short.
    pub fn formula(&self, alloc: Global) -> Result<Formula, AllocError>
        ensures { IfOk result (λ formula. formula.cnf ≡ cell_cnf (frame_in self.now)) }
    {
        let mut formula = Formula::new(alloc);
        formula.reserve(self.variable_count(), 0, 0)?;
        self.add_clauses(alloc, &mut formula)?;
        Ok(formula)
    }

    /// Adds all clauses to a formula without any.
    fn add_clauses(&self, alloc: Global, formula: &mut Formula) -> Result<(), AllocError>
        requires vars { count_of (frame_in self.now) ≤ formula.old.cnf.vars }
        ensures { OnOk result
            (Extends formula.old (cell_cnf (frame_in self.now)).clauses formula.new) }
    {
        self.add_leaves(alloc, formula)?;
        self.add_enters(alloc, formula)?;
        self.add_apart(alloc, formula)?;
        self.add_support(alloc, formula)?;
        self.add_tallies(formula)
    }

    /// Adds the clauses that count nets.
    fn add_tallies(&self, formula: &mut Formula) -> Result<(), AllocError>
        requires vars { count_of (frame_in self.now) ≤ formula.old.cnf.vars }
        ensures { OnOk result (Extends formula.old
            (flat_map (count_clauses (frame_in self.now)) (below self.now.sizes.nets))
            formula.new) }
    {
        let sizes = self.sizes;
        let clauses = sizes.clause_count();
        if clauses > ID_LIMIT - formula.len() {
            return Err(AllocError);
        }
        let vars = formula.vars();
        formula.reserve(vars, clauses, sizes.lit_count())?;
        add_counts(formula, sizes);
        Ok(())
    }
}
