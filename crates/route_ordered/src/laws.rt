//! Laws over the definitions, as functions that do nothing.
ghost use Rattle.std.specs.Prelude.{◌≡◌, ◌≤◌, ℕ, List, true};
ghost use Rattle.fpga_types.specs.Fits.{Fits};
ghost use Rattle.fpga_types.specs.Problem.{RoutingProblem};
ghost use Rattle.problem_facts.specs.Crowd.{IsCrowd};
ghost use Rattle.problem_facts.specs.Groups.{is_exchangeable};
ghost use Rattle.route_core.specs.Fair.{IsFair};
ghost use Rattle.route_ordered.specs.Ordered.{AreSlots, ClausesSayOrder, OrderChangesNothing, OrderedSaysUnroutable, ordered_cnf, slots_among};

/// Of a problem that fits, whose groups of tracks may change places, there is a legal routing
/// exactly where there is one in which a row of slots, whichever it is, comes to the groups in
/// their order.
pub fn order_changes_nothing()
    ensures { (width : ℕ) (problem : RoutingProblem) (row : List ℕ) → Fits problem
        → is_exchangeable width problem ≡ true → AreSlots problem row
        → OrderChangesNothing width problem row }
{}

/// Of a legal routing the clauses of a row of slots say exactly that it comes to the groups of
/// tracks in their order.
pub fn clauses_say_order()
    ensures { (width : ℕ) (problem : RoutingProblem) (row : List ℕ) → AreSlots problem row
        → ClausesSayOrder width problem row }
{}

/// A problem that fits has no legal routing, in the order of a row of slots or in another, exactly
/// where no values satisfy the clauses with that order.
pub fn ordered_says_unroutable()
    ensures { (width : ℕ) (problem : RoutingProblem) (row : List ℕ) → Fits problem
        → AreSlots problem row → OrderedSaysUnroutable width problem row }
{}

/// Of a problem that fits, the clauses with the order of a row of slots are fair: where some nets
/// have a legal routing by themselves, some values make those about these nets alone true.
pub fn ordered_clauses_are_fair()
    ensures { (width : ℕ) (problem : RoutingProblem) (row : List ℕ) → 1 ≤ width → Fits problem
        → AreSlots problem row → IsFair width problem (ordered_cnf width problem row) }
{}

/// The trees of a crowd of a problem, whichever it is, stand by slots of the problem, so that all
/// of them count in an order.
pub fn crowds_are_slots()
    ensures { (problem : RoutingProblem) (crowd : List ℕ) → IsCrowd problem crowd
        → slots_among problem crowd ≡ crowd }
{}
