//! Counting in front of another way.

use fpga_bounds::PlacedProblem;
use problem_facts::Facts;
use route_count::counted_out;
use route_sweep::{Ended, Searcher, Watch};
use sat_clause::Formula;
use std::alloc::{AllocError, Global};

/// A width that numbers alone forbid is refuted by counting, and another one goes another way.
#[derive(Clone, Copy)]
pub struct Counting<'a, R: Searcher> {
    /// The other way.
    pub rest: R,
    /// What is known of the problem, whose crowd is counted.
    pub facts: &'a Facts,
}

impl<'a, R: Searcher> Searcher for Counting<'a, R> {
    ghost use Rattle.problem_facts.specs.Facts.{AreFactsOf};
    ghost use Rattle.route_count.specs.Begun.{IsBegunBy};
    ghost use Rattle.route_count.specs.Crowded.{IsCrowded};
    ghost use Rattle.route_encode.specs.Encoding.{cnf_of};
    ghost use Rattle.route_ways.specs.Counting.{IsRefutedIf};

    ghost copies = { λ way. R.copies way.rest };

    ghost budget = { λ way. R.budget way.rest };

    ghost serves = { λ way p width formula. AreFactsOf p way.facts.now
        × IsBegunBy formula (cnf_of width p) × R.serves way.rest p width formula };

    ghost refutes = { λ way p width formula log lead.
        IsRefutedIf (IsCrowded width p way.facts.now.crowd)
        (R.refutes way.rest p width formula log lead) formula log lead };

    ghost leaves_open = { λ way p width formula log. (¬ IsCrowded width p way.facts.now.crowd)
        × R.leaves_open way.rest p width formula log };

    fn copy_count(&self) -> u32 {
        self.rest.copy_count()
    }

    fn search<P: Watch>(
        &self,
        alloc: Global,
        problem: &PlacedProblem,
        width: u32,
        formula: &Formula,
        patience: &mut P,
    ) -> Result<Ended, AllocError> {
        let Ok(found) = counted_out(alloc, formula, problem, self.facts, width) else {
            return Err(AllocError);
        };
        match found {
            Some(log) => {
                patience.told_log(&log);
                let lead = Vec::new(alloc);
                Ok(Ended::Refuted { log, lead })
            }
            None => self.rest.search(alloc, problem, width, formula, patience),
        }
    }
}
