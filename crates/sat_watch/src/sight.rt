//! What a clause says whose watched literal is false.

ghost use Rattle.std.specs.Prelude.{◌≡◌, ◌<◌, ◌≤◌, length, true, Some};
ghost use Rattle.sat_clause.specs.Learned.{IsSimple};
ghost use Rattle.sat_clause.specs.declared.literal.Lit.{Lit};
ghost use Rattle.sat_watch.specs.Chains.{watch_of};
ghost use Rattle.sat_watch.specs.Watched.{IsFalseWatch, OpenSays, SightSays};

use crate::trail::Trail;
use sat_clause::{LITERAL_LIMIT, Lit, VARIABLE_LIMIT};

/// What a clause says whose watched literal is false.
#[derive(Clone, Copy, Debug)]
pub(crate) enum Sight {
    /// Its other watched literal is true.
    IsTrueAlready,
    /// The literal at this position is not false, and can be watched.
    Open(u32),
    /// Its other watched literal is open, and all others are false.
    Unit(Lit),
    /// All its literals are false.
    IsFalseNow,
}

/// The position of a literal from the third on that is not false, if there is one.
fn open_position(trail: &Trail, lits: &[Lit]) -> Option<u32>
    requires simple { IsSimple trail.now.vars lits.now }
    requires few { length lits.now ≤ LITERAL_LIMIT }
    ensures { OpenSays trail.now.entries lits.now result }
{
    for k in 2..lits.len() as u32 {
        if !trail.is_false(lits[k as usize]) {
            return Some(k);
        }
    }
    None
}

/// What the clause says, whose watched literal at the position is false.
pub(crate) fn look(trail: &Trail, lits: &[Lit], which: u32) -> Sight
    requires vars { trail.now.vars ≤ VARIABLE_LIMIT }
    requires simple { IsSimple trail.now.vars lits.now }
    requires few { length lits.now ≤ LITERAL_LIMIT }
    requires which { which < 2 }
    requires two { 2 ≤ length lits.now }
    requires watch { IsFalseWatch trail.now.entries lits.now which }
    ensures { SightSays trail.now.entries lits.now which result }
{
    let other = lits[1 - which as usize];
    if trail.is_true(other) {
        return Sight::IsTrueAlready;
    }
    if let Some(k) = open_position(trail, lits) {
        return Sight::Open(k);
    }
    if trail.is_false(other) {
        return Sight::IsFalseNow;
    }
    Sight::Unit(other)
}
