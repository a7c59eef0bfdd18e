//! The clauses of a problem, where there are not too many.
ghost use Rattle.std.specs.Prelude.{◌≡◌, ◌≤◌, IfErr, IfOk, OnOk};
ghost use Rattle.fpga_types.specs.declared.route.RouteText.{RouteText};
ghost use Rattle.sat_clause.specs.Formula.{IsUnsat};
ghost use Rattle.route_sweep.specs.Found.{IsHeld, IsUnbuilt};

use crate::found::Stop;
use fpga_bounds::PlacedProblem;
use fpga_types::WIDTH_LIMIT;
use route_encode::Encoder;
use sat_clause::{CLAUSE_LIMIT, Formula};
use std::alloc::Global;

/// The clauses of a problem at a width from 1 to 64, of which there are at most 40,000,000 in so
/// many copies as are to be held together. They are counted first, and none is built where there
/// are more. Where no values satisfy them, the problem has no routing.
///
/// # Errors
/// `TooManyClauses` has the number of the clauses, `TooManyHeld` that of all copies where one alone
/// has few enough, and `Memory` comes where memory is short.
pub fn few_clauses<E: Encoder>(
    alloc: Global,
    copies: u32,
    encoder: &E,
    problem: &PlacedProblem,
    width: u32,
) -> Result<Formula, Stop>
    requires { (1 ≤ width) × (width ≤ WIDTH_LIMIT) }
    ensures formula { IfOk result
        (λ formula. formula.cnf ≡ E.formula_of encoder.now problem.now width) }
    ensures held { OnOk result (IsHeld copies (E.formula_of encoder.now problem.now width)) }
    ensures none_without_model { OnOk result (IsUnsat
        (E.formula_of encoder.now problem.now width) → (found : RouteText)
        → ¬ E.is_good encoder.now problem.now width found) }
    ensures stop { IfErr result (IsUnbuilt copies (E.formula_of encoder.now problem.now width)) }
{
    let count = encoder.count(problem, width);
    if count > CLAUSE_LIMIT {
        return Err(Stop::TooManyClauses { count });
    }
    let held = u64::from(copies) * count;
    if held > CLAUSE_LIMIT {
        return Err(Stop::TooManyHeld { count: held });
    }
    let Ok(formula) = encoder.build(alloc, problem, width) else {
        return Err(Stop::Memory);
    };
    Ok(formula)
}
