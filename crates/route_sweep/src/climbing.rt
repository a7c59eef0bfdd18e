//! The search for the least width that has a routing.
ghost use Rattle.std.specs.Prelude.{◌≤◌, ℕ};
ghost use Rattle.route_sweep.specs.Asked.{asked};
ghost use Rattle.route_sweep.specs.Climb.{ClimbsShort, ClimbsTo, numbered};

use crate::asking::Ask;
use crate::found::{Climbed, Found, Stop};
use crate::searcher::Searcher;
use crate::searching::one_width;
use crate::watch::Watch;
use desk_io::Shelf;
use fpga_bounds::PlacedProblem;
use fpga_types::WIDTH_LIMIT;
use route_encode::Encoder;
use std::alloc::Global;

/// Searches at the widths from 1 on, up to the first that is not refuted or up to the last, which
/// is from 1 to 64. Each width that is refuted or left open has files of its own: their names have
/// the width in them, whatever the ask says of names. A width is left open before the budget is
/// spent only where the caller has said that the search may not go on.
///
/// # Errors
/// What the search at a width answers. The files of the widths below stay.
pub fn climb<W: Searcher, E: Encoder, S: Shelf, P: Watch>(
    alloc: Global,
    way: &W,
    encoder: &E,
    problem: &PlacedProblem,
    most: u32,
    ask: &Ask<'_>,
    shelf: &mut S,
    patience: &mut P,
) -> Result<Climbed, Stop>
    requires most { (1 ≤ most) × (most ≤ WIDTH_LIMIT) }
    requires serves { (width : ℕ) → W.serves way.now problem.now width
        (E.formula_of encoder.now problem.now width) }
    ensures climbs { ClimbsTo (W.copies way.now) (λ width. W.refutes way.now problem.now width
        (E.formula_of encoder.now problem.now width)) (λ width. W.leaves_open way.now problem.now
        width (E.formula_of encoder.now problem.now width)) (numbered (asked ask.now)) most
        (E.formula_of encoder.now problem.now) (E.is_good encoder.now problem.now)
        (S.state shelf.old) (S.state shelf.new) result }
    ensures stopped { ClimbsShort (W.budget way.now) result → P.is_over patience.new }
{
    let ask = Ask {
        prefix: ask.prefix,
        numbered: true,
    };
    for width in 1..most + 1 {
        match one_width(alloc, way, encoder, problem, width, &ask, shelf, patience) {
            Ok(Found::Refuted { .. }) => {}
            Ok(Found::Routed) => return Ok(Climbed::Routed { width }),
            Ok(Found::Spent { learned }) => return Ok(Climbed::Undecided { width, learned }),
            Err(stop) => return Err(stop),
        }
    }
    Ok(Climbed::Unroutable { width: most })
}
