//! What is guessed before a search.
ghost use Rattle.std.specs.Prelude.{◌≡◌, ◌≤◌, IfOk, IfSome, length};
ghost use Rattle.fpga_types.specs.declared.limits.TheConstants.{WIDTH_LIMIT};
ghost use Rattle.sat_clause.specs.Formula.{Satisfies};

use crate::track_values::track_values;
use crate::wire_values::wire_values;
use fpga_bounds::PlacedProblem;
use fpga_types::WIDTH_LIMIT;
use patience::Patience;
use sat_clause::{Formula, holds};
use std::alloc::{AllocError, Global};

/// What is guessed before a search.
#[derive(Clone, Copy)]
pub enum Guess {
    /// Nothing.
    Nothing,
    /// A track for each tree, one tree after another.
    Tracks,
    /// Wires that drivers reach their sinks by within so many joins, by costs that rise where nets
    /// meet.
    Wires { reach: u32 },
}

impl Guess {
    /// Values that satisfy the clauses, if those do that are guessed.
    ///
    /// # Errors
    /// Where memory is short.
    pub(crate) fn model<P: Patience>(
        self,
        alloc: Global,
        problem: &PlacedProblem,
        width: u32,
        formula: &Formula,
        patience: &mut P,
    ) -> Result<Option<Vec<bool>>, AllocError>
        requires { (1 ≤ width) × (width ≤ WIDTH_LIMIT) }
        ensures { IfOk result
            (λ found. IfSome found (λ values. Satisfies values.items formula.now.cnf)) }
    {
        let Some(values) = self.values(alloc, problem, width, formula.vars() as usize, patience)?
        else {
            return Ok(None);
        };
        if !holds(&values, formula) {
            return Ok(None);
        }
        Ok(Some(values))
    }

    // So many values. No law says what they satisfy.
    fn values<P: Patience>(
        self,
        alloc: Global,
        problem: &PlacedProblem,
        width: u32,
        count: usize,
        patience: &mut P,
    ) -> Result<Option<Vec<bool>>, AllocError>
        requires { (1 ≤ width) × (width ≤ WIDTH_LIMIT) }
        ensures { IfOk result
            (λ found. IfSome found (λ values. length values.items ≡ count)) }
    {
        match self {
            Guess::Nothing => Ok(None),
            Guess::Tracks => track_values(alloc, problem, width, count),
            Guess::Wires { reach } => wire_values(alloc, problem, width, reach, count, patience),
        }
    }
}

/// Sets a value, if it is there.
pub(crate) fn set(values: &mut [bool], place: usize)
    ensures { length values.new ≡ length values.old }
{
    if place < values.len() {
        values[place] = true;
    }
}
