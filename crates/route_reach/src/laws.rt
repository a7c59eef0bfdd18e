//! Laws over the definitions, as functions that do nothing.
ghost use Rattle.std.specs.Prelude.{ℕ, ◌≤◌, ◌^◌};
ghost use Rattle.fpga_types.specs.Fits.{Fits};
ghost use Rattle.fpga_types.specs.Problem.{RoutingProblem};
ghost use Rattle.fpga_types.specs.Sound.{IsSound};
ghost use Rattle.route_reach.specs.Exact.{ModelsSayReached, ReachedHaveModels, UnsatSaysUnreachable};
ghost use Rattle.route_reach.specs.ReadBack.{RoutesReadBack};
ghost use Rattle.route_reach.specs.Trees.{ReachCoversStrict, RoutesSayReached, TracksSayReached, UnsatSaysNoRoute};

/// Values that satisfy the clauses of a problem for a reach give a routing within it.
pub fn models_say_reached()
    ensures { (width reach : ℕ) (problem : RoutingProblem) → ModelsSayReached width reach problem }
{}

/// Where there is a routing within a reach, some values satisfy the clauses.
pub fn reached_have_models()
    ensures { (width reach : ℕ) (problem : RoutingProblem) → ReachedHaveModels width reach problem }
{}

/// There is no routing within a reach exactly where no values satisfy the clauses.
pub fn unsat_says_unreachable()
    ensures { (width reach : ℕ) (problem : RoutingProblem)
        → UnsatSaysUnreachable width reach problem }
{}

/// Of a problem that fits, the wires of each net of a route that counts within a reach are a
/// routing within it.
pub fn routes_say_reached()
    ensures { (width reach : ℕ) (problem : RoutingProblem) → IsSound problem.route → Fits problem
        → RoutesSayReached width reach problem }
{}

/// Of a problem that fits, the wires of a legal routing are a routing within each reach from the
/// greatest depth of the global route on.
pub fn tracks_say_reached()
    ensures { (width reach : ℕ) (problem : RoutingProblem) → IsSound problem.route → Fits problem
        → TracksSayReached width reach problem }
{}

/// Where no values satisfy the clauses, no route counts within the reach.
pub fn unsat_says_no_route()
    ensures { (width reach : ℕ) (problem : RoutingProblem) → IsSound problem.route → Fits problem
        → UnsatSaysNoRoute width reach problem }
{}

/// Of a problem that fits: where there is no routing within a reach, and no channel line of the
/// global route is deeper, there is no legal routing either.
pub fn reach_covers_strict()
    ensures { (width reach : ℕ) (problem : RoutingProblem) → IsSound problem.route → Fits problem
        → ReachCoversStrict width reach problem }
{}

/// Of a problem that fits, whose global route can be printed, a route that counts within a reach
/// can be printed and reads back, at any width whose tracks have 32 bits.
pub fn routes_read_back()
    ensures { (width reach : ℕ) (problem : RoutingProblem) → IsSound problem.route → Fits problem
        → width ≤ 2 ^ 32 → RoutesReadBack width reach problem }
{}
