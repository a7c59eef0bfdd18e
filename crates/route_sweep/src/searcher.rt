//! A way of searching.
ghost use Rattle.std.specs.Prelude.{◌≡◌, ◌≤◌, ℕ, List, IfOk};
ghost use Rattle.desk_io.specs.Files.{Bytes};
ghost use Rattle.fpga_types.specs.Problem.{RoutingProblem};
ghost use Rattle.sat_clause.specs.declared.limits.TheConstants.{VARIABLE_LIMIT};
ghost use Rattle.sat_clause.specs.Formula.{Cnf};
ghost use Rattle.sat_clause.specs.Step.{Step};
ghost use Rattle.route_sweep.specs.Ended.{EndsShort, HasEnded};
ghost use Rattle.route_sweep.specs.Found.{HasFew};

use crate::watch::Watch;
use fpga_bounds::PlacedProblem;
use fpga_types::WIDTH_LIMIT;
use sat_clause::{Formula, Log};
use std::alloc::{AllocError, Global};

/// What a search through the clauses of a problem comes to.
#[derive(Drop)]
pub enum Ended {
    /// Truth values that satisfy the clauses.
    Model { values: Vec<bool> },
    /// A log that refutes them, and what is said of it before the report.
    Refuted { log: Log, lead: Vec<u8> },
    /// A log that leaves them open, of so many learned clauses.
    Open { log: Log, learned: u64 },
}

/// A way of searching through the clauses of a problem at a width.
pub trait Searcher {
    /// How many copies of the clauses it holds at one time.
    ghost copies: { Self → ℕ };

    /// How many clauses it may learn.
    ghost budget: { Self → ℕ };

    /// What it needs of itself and of the clauses.
    ghost serves: { Self → RoutingProblem → ℕ → Cnf → Type 0 };

    /// The logs by which it refutes them, each with what is said of it before the report.
    ghost refutes: { Self → RoutingProblem → ℕ → Cnf → List Step → Bytes → Type 0 };

    /// The logs by which it leaves them open.
    ghost leaves_open: { Self → RoutingProblem → ℕ → Cnf → List Step → Type 0 };

    /// How many copies of the clauses it holds at one time.
    fn copy_count(&self) -> u32
        ensures { result ≡ copies self.now };

    /// What the search comes to, at a width from 1 to 64. It leaves the clauses open before its
    /// budget is spent only where its caller has said that it may not go on.
    ///
    /// # Errors
    /// Where memory is short.
    fn search<P: Watch>(
        &self,
        alloc: Global,
        problem: &PlacedProblem,
        width: u32,
        formula: &Formula,
        patience: &mut P,
    ) -> Result<Ended, AllocError>
        requires width { (1 ≤ width) × (width ≤ WIDTH_LIMIT) }
        requires few { HasFew formula.now.cnf }
        requires few_vars { formula.now.cnf.vars ≤ VARIABLE_LIMIT }
        requires serves { serves self.now problem.now width formula.now.cnf }
        ensures ended { IfOk result (HasEnded
            (refutes self.now problem.now width formula.now.cnf)
            (leaves_open self.now problem.now width formula.now.cnf) formula.now.cnf) }
        ensures stopped { IfOk result (λ ended.
            EndsShort (budget self.now) ended → P.is_over patience.new) };
}
