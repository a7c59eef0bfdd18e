//! In how many clauses variables stand.

ghost use Rattle.std.specs.Prelude.{◌≤◌};

use sat_clause::{Lit, VARIABLE_LIMIT};
use std::alloc::{AllocError, Global};

/// How many literals of each variable were counted, by its number. None is counted where there is
/// no room for it.
#[derive(Drop)]
pub(crate) struct Occurrences {
    counts: Vec<u32>,
}

/// Whether a clause is of two literals of one variable, as one that is always true.
fn is_of_one_variable(clause: &[Lit]) -> bool {
    clause.len() == 2 && clause[0].variable() == clause[1].variable()
}

impl Occurrences {
    /// For so many variables, of which no literal is counted yet.
    pub(crate) fn new(alloc: Global, vars: u32) -> Result<Occurrences, AllocError>
        requires { vars ≤ VARIABLE_LIMIT }
    {
        Ok(Occurrences {
            counts: vec![in alloc; 0; vars as usize + 1]?,
        })
    }

    /// For a search that has no use of them: none is counted.
    pub(crate) fn none(alloc: Global) -> Occurrences {
        Occurrences {
            counts: Vec::new(alloc),
        }
    }

    /// Counts the literals of a clause, but of one that is of two literals of one variable.
    pub(crate) fn count(&mut self, clause: &[Lit]) {
        if is_of_one_variable(clause) {
            return;
        }
        for l in clause {
            if let Some(count) = self.counts.get_mut(l.variable() as usize) {
                *count = count.saturating_add(1);
            }
        }
    }

    /// How many literals of a variable were counted.
    pub(crate) fn of(&self, v: u32) -> u32 {
        self.counts.get(v as usize).copied().unwrap_or(0)
    }
}
