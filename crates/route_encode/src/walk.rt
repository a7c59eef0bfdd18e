//! The clauses that keep nets off each other's wires.
ghost use Rattle.std.specs.Prelude.{◌≡◌, ◌<◌, length, flat_map};
ghost use Rattle.route_encode.specs.Adding.{Adds, HasRoom, HasVariables};
ghost use Rattle.route_encode.specs.Encoding.{below};
ghost use Rattle.route_encode.specs.Rivals.{apart_from_rivals};

use crate::clauses::add_apart_track;
use crate::rivals::RivalChains;
use crate::variables::Variables;
use sat_clause::Formula;

/// Adds for each slot that it has no track of a later slot of its cell. The time is that of the
/// slots and of the clauses.
pub fn add_apart_tracks(formula: &mut Formula, variables: Variables, chains: &RivalChains<'_>)
    requires each { variables.slots ≡ length chains.now }
    requires vars { HasVariables variables formula.old }
    requires room { HasRoom formula.old
        (flat_map (apart_from_rivals variables.width chains.now) (below (length chains.now))) }
    ensures { Adds formula.old
        (flat_map (apart_from_rivals variables.width chains.now) (below (length chains.now)))
        formula.new }
{
    for slot in 0..variables.slots {
        add_apart_from_rivals(formula, variables, chains, slot);
    }
}

/// Adds that a slot has no track of a later slot of its cell.
fn add_apart_from_rivals(
    formula: &mut Formula,
    variables: Variables,
    chains: &RivalChains<'_>,
    slot: u32,
)
    requires each { variables.slots ≡ length chains.now }
    requires slot { slot < length chains.now }
    requires vars { HasVariables variables formula.old }
    requires room { HasRoom formula.old (apart_from_rivals variables.width chains.now slot) }
    ensures { Adds formula.old (apart_from_rivals variables.width chains.now slot) formula.new }
{
    let mut next = chains.next_after(slot);
    while let Some(rival) = next {
        add_apart_track(formula, variables, slot, rival);
        next = chains.next_after(rival);
    }
}
