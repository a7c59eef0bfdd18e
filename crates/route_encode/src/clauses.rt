//! The clauses of slots, item by item.
ghost use Rattle.std.specs.Prelude.{◌≡◌, ◌≤◌, ◌<◌, ◌*◌, [], ◌∷◌, All, length, map, flat_map};
ghost use Rattle.route_encode.specs.Adding.{Adds, HasRoom, HasVariables};
ghost use Rattle.route_encode.specs.Encoding.{apart_track, below, no_higher_track, one_track, some_track};
ghost use Rattle.sat_clause.specs.Literal.{IsWithin};

use crate::variables::Variables;
use fpga_graph::MOST_TRACKS;
use sat_clause::{Formula, Lit};

/// Adds a clause at the end of a formula that has the room. Its literals are of the formula's
/// variables.
pub fn add_clause(formula: &mut Formula, clause: &[Lit])
    requires within { All (IsWithin formula.old.cnf.vars) clause.now }
    requires room { HasRoom formula.old (clause.now ∷ []) }
    ensures { Adds formula.old (clause.now ∷ []) formula.new }
{
    formula.push(clause);
}

/// Adds for each slot that it has a track.
pub(crate) fn add_some_tracks(formula: &mut Formula, variables: Variables)
    requires vars { HasVariables variables formula.old }
    requires room { HasRoom formula.old (map (some_track variables.width) (below variables.slots)) }
    ensures { Adds formula.old
        (map (some_track variables.width) (below variables.slots)) formula.new }
{
    let mut row = [Lit { code: 1 }; MOST_TRACKS];
    for slot in 0..variables.slots {
        variables.fill_some_track(&mut row, slot);
        add_clause(formula, &row[..variables.width as usize]);
    }
}

/// Adds for each slot that it has no two tracks.
pub(crate) fn add_one_tracks(formula: &mut Formula, variables: Variables)
    requires vars { HasVariables variables formula.old }
    requires room { HasRoom formula.old
        (flat_map (one_track variables.width) (below variables.slots)) }
    ensures { Adds formula.old
        (flat_map (one_track variables.width) (below variables.slots)) formula.new }
{
    for slot in 0..variables.slots {
        add_one_track(formula, variables, slot);
    }
}

/// Adds that a slot has no two tracks.
fn add_one_track(formula: &mut Formula, variables: Variables, slot: u32)
    requires slot { slot < variables.slots }
    requires vars { HasVariables variables formula.old }
    requires room { HasRoom formula.old (one_track variables.width slot) }
    ensures { Adds formula.old (one_track variables.width slot) formula.new }
{
    for track in 0..variables.width {
        add_no_higher_track(formula, variables, slot, track);
    }
}

/// Adds that a slot does not have a track and a higher one.
fn add_no_higher_track(formula: &mut Formula, variables: Variables, slot: u32, track: u32)
    requires slot { slot < variables.slots }
    requires track { track < variables.width }
    requires vars { HasVariables variables formula.old }
    requires room { HasRoom formula.old (no_higher_track variables.width slot track) }
    ensures { Adds formula.old (no_higher_track variables.width slot track) formula.new }
{
    let lower = variables.lacks(slot, track);
    for higher in track + 1..variables.width {
        add_clause(formula, &[lower, variables.lacks(slot, higher)]);
    }
}

/// Adds that two slots do not have one track.
pub(crate) fn add_apart_track(formula: &mut Formula, variables: Variables, lower: u32, higher: u32)
    requires within { (lower < variables.slots) × (higher < variables.slots) }
    requires vars { HasVariables variables formula.old }
    requires room { HasRoom formula.old (apart_track variables.width (lower, higher)) }
    ensures { Adds formula.old (apart_track variables.width (lower, higher)) formula.new }
{
    for shared in 0..variables.width {
        let first = variables.lacks(lower, shared);
        add_clause(formula, &[first, variables.lacks(higher, shared)]);
    }
}
