//! The search at one width.
ghost use Rattle.std.specs.Prelude.{◌≤◌};
ghost use Rattle.route_sweep.specs.Asked.{asked};
ghost use Rattle.route_sweep.specs.Found.{FindsBy, FindsShort};

use crate::asking::Ask;
use crate::building::few_clauses;
use crate::found::{Found, Stop};
use crate::searcher::{Ended, Searcher};
use crate::watch::Watch;
use crate::writing::{write_proof, write_routing};
use desk_io::Shelf;
use fpga_bounds::PlacedProblem;
use fpga_types::WIDTH_LIMIT;
use route_encode::Encoder;
use std::alloc::Global;

/// Searches for a routing of a problem at a width from 1 to 64, and writes the routing; or else the
/// clauses, and then the log of the search.
///
/// The clauses are counted first, and none is built where there are more than 40,000,000 in all
/// copies that the way holds. Files of other names stay as they are. The width is left open before
/// the budget is spent only where the caller has said that the search may not go on. It is told
/// of the width, of the clauses once they are built, and of the routing before that is written.
///
/// # Errors
/// `Fault` names the file on which the shelf failed; it and those that were written before it stand
/// as far as they were written. `TooManyClauses` and `TooManyHeld` have the number of the clauses,
/// and `Memory` comes where memory is short: nothing was written then.
pub fn one_width<W: Searcher, E: Encoder, S: Shelf, P: Watch>(
    alloc: Global,
    way: &W,
    encoder: &E,
    problem: &PlacedProblem,
    width: u32,
    ask: &Ask<'_>,
    shelf: &mut S,
    patience: &mut P,
) -> Result<Found, Stop>
    requires width { (1 ≤ width) × (width ≤ WIDTH_LIMIT) }
    requires serves { W.serves way.now problem.now width
        (E.formula_of encoder.now problem.now width) }
    ensures finds { FindsBy (W.copies way.now)
        (W.refutes way.now problem.now width (E.formula_of encoder.now problem.now width))
        (W.leaves_open way.now problem.now width (E.formula_of encoder.now problem.now width))
        (asked ask.now) width (E.formula_of encoder.now problem.now width)
        (E.is_good encoder.now problem.now width) (S.state shelf.old) (S.state shelf.new) result }
    ensures stopped { FindsShort (W.budget way.now) result → P.is_over patience.new }
{
    patience.told_width(width);
    let formula = match few_clauses(alloc, way.copy_count(), encoder, problem, width) {
        Ok(formula) => formula,
        Err(stop) => return Err(stop),
    };
    patience.told_clauses(&formula);
    match way.search(alloc, problem, width, &formula, patience) {
        Ok(Ended::Model { values }) => {
            let Ok(found) = encoder.decode(alloc, problem, width, &values) else {
                return Err(Stop::Memory);
            };
            patience.told_route(&found);
            write_routing(alloc, &found, ask, shelf).and(Ok(Found::Routed))
        }
        Ok(Ended::Refuted { log, lead }) => {
            write_proof(alloc, &formula, &log, width, ask, shelf).and(Ok(Found::Refuted { lead }))
        }
        Ok(Ended::Open { log, learned }) => {
            write_proof(alloc, &formula, &log, width, ask, shelf).and(Ok(Found::Spent { learned }))
        }
        Err(_) => Err(Stop::Memory),
    }
}
