//! The encoding in which each slot has one track.
ghost use Rattle.std.specs.Prelude.{ℕ, ◌≡◌, ◌≤◌, ◌<◌, ◌+◌, ◌*◌, ◌^◌, length, IfOk, map, flat_map};
ghost use Rattle.fpga_types.specs.Legal.{tracks_of};
ghost use Rattle.fpga_types.specs.Slots.{slots};
ghost use Rattle.fpga_types.specs.declared.route.RouteText.{RouteText};
ghost use Rattle.route_encode.specs.Added.{added_clauses, slot_clauses};
ghost use Rattle.route_encode.specs.Adding.{Adds, HasRoom, HasVariables};
ghost use Rattle.route_encode.specs.Bits.{bits};
ghost use Rattle.route_encode.specs.Encoding.{cnf_of};
ghost use Rattle.route_encode.specs.Good.{IsRoutingOf};
ghost use Rattle.sat_clause.specs.Formula.{IsUnsat, Satisfies};

use crate::clauses::{add_one_tracks, add_some_tracks};
use crate::encoder::Encoder;
use crate::fabric::{add_joined_tracks, add_open_tracks};
use crate::rivals::RivalChains;
use crate::size::formula_size;
use crate::tracks::tracks_said;
use crate::variables::Variables;
use crate::walk::add_apart_tracks;
use fpga_bounds::PlacedProblem;
use fpga_graph::Graph;
use fpga_types::{RouteText, WIDTH_LIMIT};
use sat_clause::{CLAUSE_LIMIT, Formula};
use std::alloc::{AllocError, Global};

/// Each slot has exactly one track, which the pins next to it open, the tracks of the slots of a
/// step are joined, and nets that share a cell have different tracks there.
///
/// The clauses are the connectivity and exclusivity constraints of Nam, Sakallah and Rutenbar (IEEE
/// Transactions on CAD, 2002), with a variable for each track of each slot.
#[derive(Clone, Copy)]
pub struct Strict;

impl Encoder for Strict {
    ghost formula_of = { λ _ p width. cnf_of width p };

    ghost is_good = { λ _ p width found. IsRoutingOf width p found };

    fn count(&self, problem: &PlacedProblem, width: u32) -> u64
        requires width { (1 ≤ width) × (width ≤ WIDTH_LIMIT) }
        ensures count { result ≡ length (cnf_of width problem.now).clauses }
        ensures few { result < 2 ^ 63 }
    {
        formula_size(problem, width).clauses
    }

    fn build(
        &self,
        alloc: Global,
        problem: &PlacedProblem,
        width: u32,
    ) -> Result<Formula, AllocError> {
        self.build_with_room(alloc, problem, width, 0, 0)
    }

    fn decode(
        &self,
        alloc: Global,
        problem: &PlacedProblem,
        width: u32,
        values: &[bool],
    ) -> Result<RouteText, AllocError>
        requires width { (1 ≤ width) × (width ≤ WIDTH_LIMIT) }
        requires model { Satisfies values.now (cnf_of width problem.now) }
        ensures good { IfOk result (IsRoutingOf width problem.now) }
        ensures chosen { IfOk result
            (λ found. values.now ≡ bits width (tracks_of problem.now.route found)) }
    {
        let variables = Variables {
            slots: problem.slots().len() as u32,
            width,
        };
        let tracks = tracks_said(alloc, variables, values)?;
        let route = problem.copy_with_tracks(alloc, &tracks)?;
        Ok(route)
    }
}

impl Strict {
    /// The clauses of a problem at a width, with room for so many more, of so many literals
    /// together, which can then be added without memory. With room for none more it is
    /// [`Encoder::build`].
    ///
    /// # Errors
    /// Where memory is short.
    pub fn build_with_room(
        &self,
        alloc: Global,
        problem: &PlacedProblem,
        width: u32,
        clauses: u32,
        lits: u32,
    ) -> Result<Formula, AllocError>
        requires width { (1 ≤ width) × (width ≤ WIDTH_LIMIT) }
        requires few { length (cnf_of width problem.now).clauses + clauses ≤ CLAUSE_LIMIT }
        ensures formula { IfOk result (λ formula. formula.cnf ≡ cnf_of width problem.now) }
        ensures room { IfOk result
            (λ formula. (formula.clause_room ≡ clauses) × (formula.lit_room ≡ lits)) }
        ensures none_without_model { IsUnsat (cnf_of width problem.now)
            → (found : RouteText) → ¬ IsRoutingOf width problem.now found }
    {
        let slots = problem.slots();
        let variables = Variables {
            slots: slots.len() as u32,
            width,
        };
        let size = formula_size(problem, width);
        let chains = RivalChains::new(alloc, slots)?;
        let mut formula = Formula::new(alloc);
        formula.reserve(
            variables.count(),
            size.clauses as u32 + clauses,
            size.lits + lits as u64,
        )?;
        add_clauses(&mut formula, variables, problem, &chains);
        Ok(formula)
    }
}

/// Adds the clauses of a problem, whose slots are in these chains.
fn add_clauses(
    formula: &mut Formula,
    variables: Variables,
    problem: &PlacedProblem,
    chains: &RivalChains<'_>,
)
    requires width { 1 ≤ variables.width }
    requires slots { chains.now ≡ slots problem.now.route }
    requires each { variables.slots ≡ length (slots problem.now.route) }
    requires vars { HasVariables variables formula.old }
    requires room { HasRoom formula.old (added_clauses variables.width problem.now) }
    ensures { Adds formula.old (added_clauses variables.width problem.now) formula.new }
{
    let graph = Graph::new(problem.arch(), problem.route().grid, variables.width);
    add_slot_clauses(formula, variables);
    add_open_tracks(formula, variables, &graph, problem.pin_steps());
    add_joined_tracks(formula, variables, &graph, problem.slots(), problem.steps());
    add_apart_tracks(formula, variables, chains);
}

/// Adds that each slot has one track.
fn add_slot_clauses(formula: &mut Formula, variables: Variables)
    requires vars { HasVariables variables formula.old }
    requires room { HasRoom formula.old (slot_clauses variables.width variables.slots) }
    ensures { Adds formula.old (slot_clauses variables.width variables.slots) formula.new }
{
    add_some_tracks(formula, variables);
    add_one_tracks(formula, variables);
}
