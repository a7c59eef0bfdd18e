//! Decisions over watches, one after another.

ghost use Rattle.std.specs.Prelude.{◌≡◌, ◌+◌, ◌<◌, ◌≤◌, IfNone, IfOk, IfSome, None, false, length, true};
ghost use Rattle.sat_clause.specs.Trail.{IsClosed};
ghost use Rattle.sat_core.specs.Deciding.{AreValuesOf, GoesOn, IsDecided, IsFalse};
ghost use Rattle.sat_core.specs.Ranking.{IsRanked, held_count};
ghost use Rattle.sat_watch.specs.Trail.{lits_of};
ghost use Rattle.sat_watch.specs.Watches.{IsPropagatedAt};

use crate::again::Again;
use crate::ranking::Ranking;
use sat_arena::ClauseRef;
use sat_clause::{Lit, VARIABLE_LIMIT};
use sat_watch::Watches;
use std::alloc::{AllocError, Global};

/// Decides the open variable that stands first in the ranking. False where each variable has a
/// value.
fn decide(ranking: &mut Ranking, watches: &mut Watches) -> bool
    requires ranked { IsRanked watches.old.vars watches.old.trail ranking.old }
    requires few { watches.old.vars ≤ VARIABLE_LIMIT }
    requires empty { watches.old.queued ≡ 0 }
    requires quiet { watches.old.pending ≡ None }
    ensures decided { result ≡ true → IsDecided watches.old watches.new }
    ensures fewer { result ≡ true
        → held_count ranking.new.held < held_count ranking.old.held }
    ensures ranked { IsRanked watches.new.vars watches.new.trail ranking.new }
    ensures closed { result ≡ false → IsClosed watches.old.vars (lits_of watches.old.trail) }
    ensures same { result ≡ false → watches.new ≡ watches.old }
{
    while let Some(v) = ranking.take_best() {
        let l = ranking.literal(v);
        if watches.value(l).is_none() {
            watches.assume(l);
            return true;
        }
    }
    false
}

/// Decides a variable: the first open one of those that are decided again, or else the one that
/// stands first in the ranking. False where each variable has a value.
fn decide_next(again: &mut Again, ranking: &mut Ranking, watches: &mut Watches, vars: u32) -> bool
    requires vars { vars ≡ watches.old.vars }
    requires ranked { IsRanked watches.old.vars watches.old.trail ranking.old }
    requires few { watches.old.vars ≤ VARIABLE_LIMIT }
    requires empty { watches.old.queued ≡ 0 }
    requires quiet { watches.old.pending ≡ None }
    ensures decided { result ≡ true → IsDecided watches.old watches.new }
    ensures fewer { result ≡ true
        → held_count ranking.new.held + again.new < held_count ranking.old.held + again.old }
    ensures ranked { IsRanked watches.new.vars watches.new.trail ranking.new }
    ensures closed { result ≡ false → IsClosed watches.old.vars (lits_of watches.old.trail) }
    ensures same { result ≡ false → watches.new ≡ watches.old }
{
    if let Some(l) = again.take_open(watches, vars) {
        watches.assume(l);
        return true;
    }
    decide(ranking, watches)
}

/// Decides variable after variable of the variables 1 to `vars`, first those that are decided again
/// and then in the order of the ranking, until a clause is false, whose reference it gives, or each
/// variable has a value.
pub(crate) fn decide_on(
    again: &mut Again,
    ranking: &mut Ranking,
    watches: &mut Watches,
    vars: u32,
) -> Option<ClauseRef>
    requires vars { vars ≡ watches.old.vars }
    requires ranked { IsRanked watches.old.vars watches.old.trail ranking.old }
    requires few { watches.old.vars ≤ VARIABLE_LIMIT }
    requires quiet { watches.old.pending ≡ None }
    ensures ranked { IsRanked watches.new.vars watches.new.trail ranking.new }
    ensures goes { GoesOn watches.old watches.new }
    ensures conflict { IfSome result (IsFalse watches.new) }
    ensures propagated { IfNone result (IsPropagatedAt watches.new watches.new.level) }
    ensures closed { IfNone result (IsClosed watches.new.vars (lits_of watches.new.trail)) }
{
    let mut visits = 0;
    loop {
        if let Some(c) = watches.propagate(&mut visits) {
            return Some(c);
        }
        if !decide_next(again, ranking, watches, vars) {
            return None;
        }
    }
}

/// The value of each variable, that of variable 1 first.
pub(crate) fn values(alloc: Global, watches: &Watches, vars: u32) -> Result<Vec<bool>, AllocError>
    requires vars { vars ≡ watches.now.vars }
    requires few { vars ≤ VARIABLE_LIMIT }
    ensures many { IfOk result (λ values. length values.items ≡ vars) }
    ensures truth { IfOk result (λ values. AreValuesOf watches.now.trail vars values.items) }
{
    let mut values = Vec::with_capacity(alloc, vars as usize)?;
    for v in 1..vars + 1 {
        values.push_reserved(watches.value(Lit::positive(v)).unwrap_or(false));
    }
    Ok(values)
}
