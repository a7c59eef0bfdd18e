//! The places of the trail.

ghost use Rattle.std.specs.Prelude.{◌≡◌, ◌<◌, ◌≤◌, IfNone, IfSome, Some, false, length, true};
ghost use Rattle.sat_arena.specs.declared.clause_ref.ClauseRef.{ClauseRef};
ghost use Rattle.sat_clause.specs.Literal.{IsWithin};
ghost use Rattle.sat_core.specs.Analysis.{IsAt};
ghost use Rattle.sat_watch.specs.Trail.{IsOnce, place_in};
ghost use Rattle.sat_watch.specs.Watched.{is_false};
ghost use Rattle.sat_watch.specs.Watches.{is_attached};

use sat_clause::Lit;
use sat_watch::{TrailEntry, Watches};

/// The entry at a place, the oldest at 0.
pub(crate) fn entry_at(watches: &Watches, place: u32) -> TrailEntry
    requires { place < length watches.now.trail }
    ensures at { IsAt watches.now.trail place result }
    ensures within { IsWithin watches.now.vars result.lit }
    ensures attached { (c : ClauseRef) → result.reason ≡ Some c
        → is_attached watches.now.clauses c ≡ true }
    ensures once { IsOnce watches.now.trail }
    ensures few { length watches.now.trail ≤ watches.now.vars }
{
    watches.trail()[place as usize]
}

/// The place of a literal that is false.
pub(crate) fn false_place(watches: &Watches, l: Lit) -> Option<u32>
    requires { IsWithin watches.now.vars l }
    ensures is_false { IfSome result (λ _. is_false watches.now.trail l ≡ true) }
    ensures place { IfSome result (λ p. place_in watches.now.trail l ≡ Some p) }
    ensures within { IfSome result (λ p. p < watches.now.vars) }
    ensures on { IfSome result (λ p. p < length watches.now.trail) }
    ensures none { IfNone result (is_false watches.now.trail l ≡ false) }
{
    let Some(value) = watches.value(l) else {
        return None;
    };
    if value {
        return None;
    }
    Some(watches.place(l))
}
