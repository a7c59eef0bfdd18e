//! Widths that are refuted without a search.
ghost use Rattle.std.specs.Prelude.{◌≤◌, IfOk, IfSome, IsNone};
ghost use Rattle.sat_clause.specs.Formula.{IsUnsat};
ghost use Rattle.sat_rat.specs.FullJudge.{FullAccepts};
ghost use Rattle.route_encode.specs.Encoding.{cnf_of};
ghost use Rattle.problem_facts.specs.Facts.{AreFactsOf};
ghost use Rattle.route_count.specs.Begun.{IsBegunBy};
ghost use Rattle.route_count.specs.Crowded.{IsCrowded};

use crate::counting::counting;
use crate::crowded::crowded_by;
use fpga_bounds::PlacedProblem;
use fpga_types::WIDTH_LIMIT;
use problem_facts::Facts;
use sat_clause::{Formula, Log};
use std::alloc::{AllocError, Global};

/// Refutes the clauses of a problem at a width, from 1 to 64, by counting: where a cell has more
/// slots than there are tracks, or where the switch blocks are subset ones and the crowd that is
/// known of the problem has more trees. The first clauses of the formula are those of
/// [`Strict`](route_encode::Strict), which alone are used.
///
/// `None` comes where there is neither. The time and the memory are those of the slots and the
/// cells, and of the steps, which grow with the fourth power of the tracks: 4.6 million at 64.
///
/// # Errors
/// Where memory is short.
pub fn counted_out(
    alloc: Global,
    formula: &Formula,
    problem: &PlacedProblem,
    facts: &Facts,
    width: u32,
) -> Result<Option<Log>, AllocError>
    requires width { (1 ≤ width) × (width ≤ WIDTH_LIMIT) }
    requires facts { AreFactsOf problem.now facts.now }
    requires begun { IsBegunBy formula.now.cnf (cnf_of width problem.now) }
    ensures accepted { IfOk result (λ found. IfSome found
        (λ log. FullAccepts formula.now.cnf log.steps)) }
    ensures sound { IfOk result (λ found. IfSome found (λ _. IsUnsat formula.now.cnf)) }
    ensures crowded { IfOk result (λ found. IfSome found
        (λ _. IsCrowded width problem.now facts.now.crowd)) }
    ensures none { IfOk result (λ found. IsNone found
        → ¬ IsCrowded width problem.now facts.now.crowd) }
{
    let Some(crowding) = crowded_by(alloc, problem, facts, width)? else {
        return Ok(None);
    };
    let log = counting(alloc, formula, problem, facts, width, &crowding)?;
    Ok(Some(log))
}
