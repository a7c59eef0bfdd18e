//! The encoding with pinned tracks.
ghost use Rattle.std.specs.Prelude.{◌≡◌, ◌≤◌, length, IfOk};
ghost use Rattle.route_encode.specs.Good.{IsRoutingOf};
ghost use Rattle.route_pinned.specs.Pinned.{pinned_cnf};

use crate::pin_clauses::add_row;
use crate::pinned_row::pinned_row;
use fpga_bounds::PlacedProblem;
use fpga_types::RouteText;
use route_encode::{Encoder, Strict, Variables};
use sat_clause::Formula;
use std::alloc::{AllocError, Global};

/// The clauses of [`Strict`], followed by one for each pinned slot where all tracks are alike: the
/// nets of one cell, of those with the most slots the first by number, have the tracks 0, 1 and so
/// on. There is a model exactly where `Strict` has one.
#[derive(Clone, Copy)]
pub struct Pinned;

impl Encoder for Pinned {
    ghost formula_of = { λ _ p width. pinned_cnf width p };

    ghost is_good = { λ _ p width found. IsRoutingOf width p found };

    fn count(&self, problem: &PlacedProblem, width: u32) -> u64 {
        Strict.count(problem, width) + pinned_row(problem, width).len() as u64
    }

    fn build(
        &self,
        alloc: Global,
        problem: &PlacedProblem,
        width: u32,
    ) -> Result<Formula, AllocError> {
        let row = pinned_row(problem, width);
        let pins = row.len() as u32;
        let mut formula = Strict.build_with_room(alloc, problem, width, pins, pins)?;
        let variables = Variables {
            slots: problem.slots().len() as u32,
            width,
        };
        add_row(&mut formula, variables, &row);
        Ok(formula)
    }

    fn decode(
        &self,
        alloc: Global,
        problem: &PlacedProblem,
        width: u32,
        values: &[bool],
    ) -> Result<RouteText, AllocError> {
        Strict.decode(alloc, problem, width, values)
    }
}
