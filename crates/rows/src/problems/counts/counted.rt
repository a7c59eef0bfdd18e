//! What is printed of a problem at a width.
ghost use Rattle.std.specs.Prelude.{◌≤◌};
ghost use Rattle.problem_facts.specs.Facts.{AreFactsOf};

use crate::problems::say::say;
use crate::stop::RowsError;
use fpga_bounds::PlacedProblem;
use fpga_types::WIDTH_LIMIT;
use problem_facts::Facts;
use route_count::counted_out;
use route_encode::{Encoder, Strict};
use sat_clause::{CLAUSE_LIMIT, Log};
use std::alloc::Global;

// How many clauses a log deletes.
fn deleted_count(log: &Log) -> u64 {
    let mut count = 0u64;
    for k in 0..log.len() {
        let step = log.step(k);
        if step.erase {
            count = count.saturating_add(step.hints.len() as u64);
        }
    }
    count
}

/// Prints how many steps refute the clauses of the problem, and how many clauses they delete, or
/// that they are not counted out.
pub(crate) fn print_counted(
    rt: &impl Print,
    alloc: Global,
    problem: &PlacedProblem,
    facts: &Facts,
    width: u32,
) -> Result<(), RowsError>
    requires width { (1 ≤ width) × (width ≤ WIDTH_LIMIT) }
    requires facts { AreFactsOf problem.now facts.now }
{
    if Strict.count(problem, width) > CLAUSE_LIMIT {
        return say(rt, "too many clauses");
    }
    let formula = Strict.build(alloc, problem, width)?;
    let log = counted_out(alloc, &formula, problem, facts, width)?;
    drop(formula);
    let Some(log) = log else {
        println!(rt; "{width}: not counted out")?;
        return Ok(());
    };
    let steps = log.len();
    let deleted = deleted_count(&log);
    drop(log);
    println!(rt; "{width}: {steps} steps, {deleted} clauses deleted")?;
    Ok(())
}
