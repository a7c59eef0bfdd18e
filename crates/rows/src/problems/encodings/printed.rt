//! What is printed of a problem at a width.
ghost use Rattle.std.specs.Prelude.{◌≤◌};

use crate::problems::encodings::clauses::{clause_line, head_line};
use crate::problems::encodings::decoded::{tracks_line, values_of};
use crate::problems::say::say;
use crate::stop::RowsError;
use fpga_bounds::PlacedProblem;
use fpga_types::{RouteText, WIDTH_LIMIT};
use route_encode::{Encoder, Strict};
use sat_clause::{CLAUSE_LIMIT, Formula, Lit, holds};
use std::alloc::Global;

/// Prints the clauses of the problem, and the tracks of the route that the truth values say, if
/// there are values and they satisfy the clauses.
pub(crate) fn print_problem(
    rt: &impl Print,
    alloc: Global,
    problem: &PlacedProblem,
    width: u32,
    word: Option<&str>,
) -> Result<(), RowsError>
    requires { (1 ≤ width) × (width ≤ WIDTH_LIMIT) }
{
    if Strict.count(problem, width) > CLAUSE_LIMIT {
        return say(rt, "too many clauses");
    }
    let formula = Strict.build(alloc, problem, width)?;
    print_clauses(rt, alloc, &formula)?;
    let Some(word) = word else {
        return Ok(());
    };
    let values = values_of(alloc, word)?;
    if values.len() != formula.vars() as usize || !holds(&values, &formula) {
        return say(rt, "no model");
    }
    drop(formula);
    let route = Strict.decode(alloc, problem, width, &values)?;
    drop(values);
    print_tracks(rt, alloc, &route)
}

// Prints the clauses.
fn print_clauses(rt: &impl Print, alloc: Global, formula: &Formula) -> Result<(), RowsError> {
    let head = head_line(alloc, formula)?;
    println!(rt; "{head}")?;
    drop(head);
    for i in 0..formula.len() {
        print_clause(rt, alloc, formula.clause(i))?;
    }
    Ok(())
}

// Prints a clause.
fn print_clause(rt: &impl Print, alloc: Global, lits: &[Lit]) -> Result<(), RowsError> {
    let line = clause_line(alloc, lits)?;
    println!(rt; "{line}")?;
    Ok(())
}

// Prints the tracks of a route.
fn print_tracks(rt: &impl Print, alloc: Global, route: &RouteText) -> Result<(), RowsError> {
    let tracks = tracks_line(alloc, route)?;
    println!(rt; "{tracks}")?;
    Ok(())
}
