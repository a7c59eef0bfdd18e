//! A guess in front of another way.
use crate::guess::Guess;
use fpga_bounds::PlacedProblem;
use route_sweep::{Ended, Searcher, Watch};
use sat_clause::Formula;
use std::alloc::{AllocError, Global};

/// What is guessed counts where it satisfies the clauses; else another way is gone.
#[derive(Clone, Copy)]
pub struct Guessing<R: Searcher> {
    /// What is guessed.
    pub guess: Guess,
    /// The other way.
    pub rest: R,
}

impl<R: Searcher> Searcher for Guessing<R> {
    ghost copies = { λ way. R.copies way.rest };

    ghost budget = { λ way. R.budget way.rest };

    ghost serves = { λ way p width formula. R.serves way.rest p width formula };

    ghost refutes = { λ way p width formula log lead. R.refutes way.rest p width formula log lead };

    ghost leaves_open = { λ way p width formula log. R.leaves_open way.rest p width formula log };

    fn copy_count(&self) -> u32 {
        self.rest.copy_count()
    }

    fn search<P: Watch>(
        &self,
        alloc: Global,
        problem: &PlacedProblem,
        width: u32,
        formula: &Formula,
        patience: &mut P,
    ) -> Result<Ended, AllocError> {
        let Ok(found) = self.guess.model(alloc, problem, width, formula, patience) else {
            return Err(AllocError);
        };
        match found {
            Some(values) => Ok(Ended::Model { values }),
            None => self.rest.search(alloc, problem, width, formula, patience),
        }
    }
}
