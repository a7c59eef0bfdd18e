//! From the problems of four files to clauses, and back from models to routes.
ghost use Rattle.std.specs.Prelude.{ℕ, ◌≡◌, ◌≤◌, length, IfOk};
ghost use Rattle.fpga_types.specs.Problem.{RoutingProblem};
ghost use Rattle.fpga_types.specs.declared.route.RouteText.{RouteText};
ghost use Rattle.sat_clause.specs.Formula.{Cnf, IsUnsat, Satisfies};

use fpga_bounds::PlacedProblem;
use fpga_types::{RouteText, WIDTH_LIMIT};
use sat_clause::{CLAUSE_LIMIT, Formula};
use std::alloc::{AllocError, Global};

/// A way to say by clauses that a problem has a routing. A width is from 1 to 64 tracks.
pub trait Encoder {
    /// The formula of a problem at a width.
    ghost formula_of: { Self → RoutingProblem → ℕ → Cnf };

    /// The routes that count as routings of a problem at a width.
    ghost is_good: { Self → RoutingProblem → ℕ → RouteText → Type 0 };

    /// The number of clauses. Takes no memory.
    fn count(&self, problem: &PlacedProblem, width: u32) -> u64
        requires width { (1 ≤ width) × (width ≤ WIDTH_LIMIT) }
        ensures { result ≡ length (formula_of self.now problem.now width).clauses };

    /// The clauses, of which there are at most 40,000,000. Where no values satisfy them, the
    /// problem has no routing.
    fn build(
        &self,
        alloc: Global,
        problem: &PlacedProblem,
        width: u32,
    ) -> Result<Formula, AllocError>
        requires width { (1 ≤ width) × (width ≤ WIDTH_LIMIT) }
        requires few { length (formula_of self.now problem.now width).clauses ≤ CLAUSE_LIMIT }
        ensures formula { IfOk result
            (λ formula. formula.cnf ≡ formula_of self.now problem.now width) }
        ensures none_without_model { IsUnsat (formula_of self.now problem.now width)
            → (found : RouteText) → ¬ is_good self.now problem.now width found };

    /// The route that a model stands for: truth values that satisfy the clauses.
    fn decode(
        &self,
        alloc: Global,
        problem: &PlacedProblem,
        width: u32,
        values: &[bool],
    ) -> Result<RouteText, AllocError>
        requires width { (1 ≤ width) × (width ≤ WIDTH_LIMIT) }
        requires model { Satisfies values.now (formula_of self.now problem.now width) }
        ensures good { IfOk result (is_good self.now problem.now width) };
}
