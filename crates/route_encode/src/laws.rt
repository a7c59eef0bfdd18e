//! Laws over the definitions, as functions that do nothing.
ghost use Rattle.std.specs.Prelude.{ℕ};
ghost use Rattle.fpga_types.specs.Fits.{Fits};
ghost use Rattle.fpga_types.specs.Problem.{RoutingProblem};
ghost use Rattle.route_encode.specs.Exact.{BitsSayLegal, ModelsSayLegal, UnsatSaysUnroutable};

/// Of a problem that fits, one number for each slot is a legal routing exactly where its bits
/// satisfy the clauses.
pub fn bits_say_legal()
    ensures { (width : ℕ) (problem : RoutingProblem) → Fits problem → BitsSayLegal width problem }
{}

/// Of a problem that fits, values that satisfy the clauses are the bits of a legal routing.
pub fn models_say_legal()
    ensures { (width : ℕ) (problem : RoutingProblem) → Fits problem → ModelsSayLegal width problem }
{}

/// A problem that fits has no legal routing exactly where no values satisfy the clauses.
pub fn unsat_says_unroutable()
    ensures { (width : ℕ) (problem : RoutingProblem) → Fits problem
        → UnsatSaysUnroutable width problem }
{}
