//! The encoding with the tracks in the order in which a row of slots comes to them.
ghost use Rattle.std.specs.Prelude.{◌≡◌, ◌≤◌, IfOk, filter, length, nat_lt};
ghost use Rattle.route_encode.specs.Good.{IsRoutingOf};
ghost use Rattle.problem_facts.specs.declared.limits.TheConstants.{CROWD_LIMIT};
ghost use Rattle.route_ordered.specs.Counts.{clauses_per_slot};
ghost use Rattle.route_ordered.specs.Ordered.{AreSlots, ordered_cnf, ordered_row, slots_among};

use crate::adding::add_precedence;
use arrayvec::ArrayVec;
use fpga_bounds::PlacedProblem;
use fpga_types::{Pattern, RouteText, WIDTH_LIMIT};
use problem_facts::{CROWD_LIMIT, Facts, is_exchangeable};
use route_encode::{Encoder, Strict, Variables};
use sat_clause::Formula;
use std::alloc::{AllocError, Global};

/// The clauses of [`Strict`], followed by those that keep the groups of tracks in the order in
/// which a row of slots comes to them, where groups may change places. There is a model exactly
/// where `Strict` has one, whichever slots these are.
#[derive(Drop)]
pub struct Ordered {
    /// The row of slots, of which those count that the problem has.
    pub row: ArrayVec<u32, CROWD_LIMIT>,
}

impl Encoder for Ordered {
    ghost formula_of = { λ it p width. ordered_cnf width p (slots_among p it.row.items) };

    ghost is_good = { λ _ p width found. IsRoutingOf width p found };

    fn count(&self, problem: &PlacedProblem, width: u32) -> u64 {
        let row = self.ordered_row(problem, width);
        let each = clauses_per_slot(problem.arch().pattern, width);
        Strict.count(problem, width) + row.len() as u64 * each as u64
    }

    fn build(
        &self,
        alloc: Global,
        problem: &PlacedProblem,
        width: u32,
    ) -> Result<Formula, AllocError> {
        let row = self.ordered_row(problem, width);
        let pattern = problem.arch().pattern;
        let clauses = row.len() as u32 * clauses_per_slot(pattern, width);
        let lits = clauses * (1 + 2 * row.len() as u32);
        let mut formula = Strict.build_with_room(alloc, problem, width, clauses, lits)?;
        let variables = Variables {
            slots: problem.slots().len() as u32,
            width,
        };
        add_precedence(alloc, &mut formula, variables, pattern, &row)?;
        Ok(formula)
    }

    fn decode(
        &self,
        alloc: Global,
        problem: &PlacedProblem,
        width: u32,
        values: &[bool],
    ) -> Result<RouteText, AllocError> {
        Strict.decode(alloc, problem, width, values)
    }
}

impl Ordered {
    /// The order of the crowd that is known of a problem. Takes no memory.
    pub fn of_crowd(facts: &Facts) -> Ordered
        ensures { result.row.items ≡ facts.now.crowd }
    {
        let row = row_of(facts.crowd());
        Ordered { row }
    }

    /// The slots of the row that the problem has, where its groups of tracks may change places, and
    /// none elsewhere.
    fn ordered_row(&self, problem: &PlacedProblem, width: u32) -> ArrayVec<u32, CROWD_LIMIT>
        requires width { (1 ≤ width) × (width ≤ WIDTH_LIMIT) }
        ensures row { result.items
            ≡ ordered_row width problem.now (slots_among problem.now self.now.row.items) }
        ensures slots { AreSlots problem.now result.items }
        ensures few { length result.items ≤ CROWD_LIMIT }
    {
        if !is_exchangeable(problem, width) {
            return ArrayVec::new();
        }
        slots_among(problem.slots().len() as u32, &self.row)
    }
}

/// The row of these slots.
fn row_of(slots: &[u32]) -> ArrayVec<u32, CROWD_LIMIT>
    requires { length slots.now ≤ CROWD_LIMIT }
    ensures { result.items ≡ slots.now }
{
    let mut row = ArrayVec::new();
    for s in slots {
        row.push(*s);
    }
    row
}

/// Those of these numbers that are below the count.
fn slots_among(count: u32, row: &[u32]) -> ArrayVec<u32, CROWD_LIMIT>
    requires few { length row.now ≤ CROWD_LIMIT }
    ensures row { result.items ≡ filter (λ s. nat_lt s count) row.now }
    ensures few { length result.items ≤ CROWD_LIMIT }
{
    let mut among = ArrayVec::new();
    for s in row {
        if *s < count {
            among.push(*s);
        }
    }
    among
}

/// The clauses of each slot of a row.
fn clauses_per_slot(pattern: Pattern, width: u32) -> u32
    requires { (1 ≤ width) × (width ≤ WIDTH_LIMIT) }
    ensures value { result ≡ clauses_per_slot pattern width }
    ensures few { result ≤ 94 }
{
    match pattern {
        Pattern::Subset => width - 1,
        Pattern::Wilton => 0,
        Pattern::Universal => (3 * (width / 2)).saturating_sub(2),
    }
}
