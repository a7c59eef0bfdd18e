//! The ways that words can ask for.
use crate::counting::Counting;
use crate::guessing::Guessing;
use crate::plain::Plain;
use crate::trimming::Trimming;
use fpga_bounds::PlacedProblem;
use route_sweep::{Ended, Searcher, Watch};
use sat_clause::Formula;
use std::alloc::{AllocError, Global};

/// A way that words can ask for.
#[derive(Clone, Copy)]
pub enum Way<'a> {
    /// A search, behind a guess.
    Searched {
        guessing: Guessing<Plain>,
    },
    /// Counting in front of that.
    Counted {
        counting: Counting<'a, Guessing<Plain>>,
    },
    /// A search whose refutations are cut down.
    Cut {
        trimming: Trimming<Plain>,
    },
}

impl<'a> Searcher for Way<'a> {
    ghost use Rattle.route_ways.specs.Way.{budget_of, copies_by, course_of, opens_by, refutes_by, serves_by};

    ghost copies = { λ way. copies_by (course_of way) };

    ghost budget = { λ way. budget_of (course_of way) };

    ghost serves = { serves_by };

    ghost refutes = { λ way. refutes_by (course_of way) };

    ghost leaves_open = { λ way. opens_by (course_of way) };

    fn copy_count(&self) -> u32 {
        match self {
            Way::Searched { guessing } => guessing.copy_count(),
            Way::Counted { counting } => counting.copy_count(),
            Way::Cut { trimming } => trimming.copy_count(),
        }
    }

    fn search<P: Watch>(
        &self,
        alloc: Global,
        problem: &PlacedProblem,
        width: u32,
        formula: &Formula,
        patience: &mut P,
    ) -> Result<Ended, AllocError> {
        match *self {
            Way::Searched { guessing } => guessing.search(alloc, problem, width, formula, patience),
            Way::Counted { counting } => counting.search(alloc, problem, width, formula, patience),
            Way::Cut { trimming } => trimming.search(alloc, problem, width, formula, patience),
        }
    }
}
