//! The refutation of a crowded width.
ghost use Rattle.std.specs.Prelude.{◌≡◌, ◌≤◌, ◌<◌, All, IfOk, OnOk, length, suc};
ghost use Rattle.fpga_types.specs.Slots.{slots};
ghost use Rattle.fpga_types.specs.declared.limits.TheConstants.{WIDTH_LIMIT};
ghost use Rattle.problem_facts.specs.Facts.{AreFactsOf};
ghost use Rattle.route_count.specs.Begun.{IsBegunBy};
ghost use Rattle.route_count.specs.Crowded.{IsCrowding};
ghost use Rattle.problem_facts.specs.Leads.{AreTrees};
ghost use Rattle.route_count.specs.Meetings.{DoMeet};
ghost use Rattle.route_count.specs.Said.{AreInNets, HasClauses};
ghost use Rattle.route_encode.specs.Encoding.{cnf_of};
ghost use Rattle.sat_clause.specs.Formula.{IsUnsat};
ghost use Rattle.sat_rat.specs.FullJudge.{FullAccepts};

use crate::clause_ids::ClauseIds;
use crate::crowded::Crowding;
use crate::first_level::Beginning;
use crate::meetings::Meetings;
use fpga_bounds::PlacedProblem;
use fpga_types::WIDTH_LIMIT;
use problem_facts::{Facts, Trees};
use route_encode::Variables;
use sat_clause::{Formula, Log};
use sat_count::{Refutation, count_down};
use std::alloc::{AllocError, Global};

/// The steps by which slots that are one more than the tracks refute the clauses of a problem.
///
/// # Errors
/// Where memory is short.
pub(crate) fn counting(
    alloc: Global,
    formula: &Formula,
    problem: &PlacedProblem,
    facts: &Facts,
    width: u32,
    crowding: &Crowding,
) -> Result<Log, AllocError>
    requires width { (1 ≤ width) × (width ≤ WIDTH_LIMIT) }
    requires begun { IsBegunBy formula.now.cnf (cnf_of width problem.now) }
    requires facts { AreFactsOf problem.now facts.now }
    requires crowding { IsCrowding width problem.now facts.now.crowd crowding.now }
    ensures accepted { IfOk result (λ log. FullAccepts formula.now.cnf log.steps) }
    ensures sound { OnOk result (IsUnsat formula.now.cnf) }
{
    let _route = problem.route();
    let _steps = problem.steps();
    let count = problem.slots().len() as u32;
    match crowding {
        Crowding::Cell(row) => {
            let trees = Trees::apart(alloc, count)?;
            counted_row(alloc, formula, problem, width, row, &trees)
        }
        Crowding::Crowd(row) => counted_row(alloc, formula, problem, width, row, facts.trees()),
    }
}

/// The steps by which the slots of a row refute the clauses: each stands for its tree, and each two
/// trees meet.
fn counted_row(
    alloc: Global,
    formula: &Formula,
    problem: &PlacedProblem,
    width: u32,
    row: &[u32],
    trees: &Trees,
) -> Result<Log, AllocError>
    requires width { (1 ≤ width) × (width ≤ WIDTH_LIMIT) }
    requires begun { IsBegunBy formula.now.cnf (cnf_of width problem.now) }
    requires row { All (λ s. s < length (slots problem.now.route)) row.now }
    requires size { length row.now ≡ suc width }
    requires trees { AreTrees trees.now }
    requires said { HasClauses formula.now.cnf width (slots problem.now.route) trees.now }
    requires nets { AreInNets (slots problem.now.route) trees.now }
    requires meet { DoMeet problem.now.route.grid (slots problem.now.route) trees.now.roots
        row.now }
    ensures accepted { IfOk result (λ log. FullAccepts formula.now.cnf log.steps) }
    ensures sound { OnOk result (IsUnsat formula.now.cnf) }
{
    let _clauses = formula.len();
    let slots = problem.slots();
    let Ok(ids) = ClauseIds::of(alloc, problem, width) else {
        return Err(AllocError);
    };
    let Ok(meetings) = Meetings::new(alloc, problem.route().grid, slots, trees, row) else {
        return Err(AllocError);
    };
    let variables = Variables {
        slots: slots.len() as u32,
        width,
    };
    let beginning = Beginning {
        formula,
        variables,
        ids: &ids,
        slots,
        trees,
        row,
        meetings: &meetings,
    };
    let mut refutation = Refutation::of(alloc, formula);
    let Ok(first) = beginning.first_level(alloc, &mut refutation) else {
        return Err(AllocError);
    };
    let Ok(log) = count_down(alloc, refutation, first) else {
        return Err(AllocError);
    };
    Ok(log)
}
