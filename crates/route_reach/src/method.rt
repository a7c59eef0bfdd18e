//! Routing within a reach as an encoding.
ghost use Rattle.std.specs.Prelude.{◌≤◌};
ghost use Rattle.route_reach.specs.Encoding.{reach_cnf};
ghost use Rattle.route_reach.specs.Good.{IsReachRoute};
ghost use Rattle.fpga_types.specs.declared.limits.TheConstants.{REACH_LIMIT};

use crate::build::reach_build;
use crate::count::reach_count;
use crate::decoding::decoded_route;
use fpga_bounds::PlacedProblem;
use fpga_types::RouteText;
use route_encode::Encoder;
use sat_clause::Formula;
use std::alloc::{AllocError, Global};

/// Routing within a reach: a net may take several wires of its cells, and each of its sinks is
/// reached from its source over at most so many joins of them.
#[derive(Clone, Copy)]
pub struct Reach {
    /// The greatest number of joins, from 1 to 64.
    pub reach: u32,
    ghost within: { (1 ≤ reach) × (reach ≤ REACH_LIMIT) },
}

impl Encoder for Reach {
    ghost formula_of = { λ method p width. reach_cnf width method.reach p };

    ghost is_good = { λ method p width found. IsReachRoute width method.reach p found };

    fn count(&self, problem: &PlacedProblem, width: u32) -> u64 {
        reach_count(problem, width, self.reach)
    }

    fn build(
        &self,
        alloc: Global,
        problem: &PlacedProblem,
        width: u32,
    ) -> Result<Formula, AllocError> {
        // A problem fits.
        let _fits = problem.route();
        let formula = reach_build(alloc, problem, width, self.reach)?;
        Ok(formula)
    }

    fn decode(
        &self,
        alloc: Global,
        problem: &PlacedProblem,
        width: u32,
        values: &[bool],
    ) -> Result<RouteText, AllocError> {
        let found = decoded_route(alloc, problem, width, self.reach, values)?;
        Ok(found)
    }
}
