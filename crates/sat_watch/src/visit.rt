//! Visits of the clauses in the chain of a literal that has become false.

ghost use Rattle.std.specs.Prelude.{◌≡◌, ◌+◌, ◌^◌, ◌<◌, ◌≤◌, ◌∷◌, [], All, IfNone, IfSome, Option, length, slice_index, true, false, None, Some};
ghost use Rattle.sat_clause.specs.Literal.{IsWithin, negation};
ghost use Rattle.sat_arena.specs.declared.clause_ref.ClauseRef.{ClauseRef};
ghost use Rattle.sat_arena.specs.Store.{is_held, link_of, ref, stored_at};
ghost use Rattle.sat_watch.specs.Chains.{holders, HasCursor, IsPlaceOf, head_of, lit_at, next_on, literals, watchers};
ghost use Rattle.sat_watch.specs.Tails.{IsPairOf, IsTail, refs};
ghost use Rattle.sat_watch.specs.Watched.{AreWhole, GoesTo, HasCounted, IsVisited, OtherIsTrue, is_false, AreFalse};

use crate::chains::Chains;
use crate::entry::TrailEntry;
use crate::maybe_clause::MaybeClause;
use crate::place::Place;
use crate::sight::{Sight, look};
use crate::trail::Trail;
use sat_arena::ClauseRef;
use sat_clause::Lit;

/// Visits the clause at a place in the chain of `f`, which is false: it stays there, where its
/// other watched literal is true or is made true, or moves to another chain. Gives the clause
/// behind which the next one stands then, or none where the clause is false.
fn visit_clause(
    chains: &mut Chains,
    trail: &mut Trail,
    f: Lit,
    level: u32,
    before: MaybeClause,
    at: Place,
    after: Option<ClauseRef>,
) -> Option<MaybeClause>
    requires whole { AreWhole chains.old trail.old }
    requires within { IsWithin chains.old.vars f }
    requires is_false { is_false trail.old.entries f ≡ true }
    requires at { IsPlaceOf chains.old.clauses f at }
    requires cursor { HasCursor (next_on chains.old.clauses f) (head_of chains.old f) before
        (Some at.clause) }
    requires after { link_of (stored_at chains.old.clauses at.clause) at.which ≡ after }
    requires near { IfSome after (λ c. c.word < 2 ^ 63) }
    ensures vars { chains.new.vars ≡ chains.old.vars }
    ensures whole { AreWhole chains.new trail.new }
    ensures goes { GoesTo level f chains.old trail.old chains.new trail.new }
    ensures visited { IfSome result
        (IsVisited f before at after chains.old chains.new trail.new.entries) }
    ensures stopped { IfNone result
        (AreFalse trail.new.entries (literals chains.new.clauses at.clause)) }
{
    match look(trail, chains.lits(at.clause), at.which) {
        Sight::IsTrueAlready => {
            return Some(MaybeClause::to(at.clause));
        }
        Sight::Open(k) => {
            let place = chains.place_before(before, f);
            chains.rewatch(f, place, at, k, after);
            return Some(before);
        }
        Sight::Unit(lit) => {
            trail.push(TrailEntry {
                lit,
                level,
                reason: MaybeClause::to(at.clause),
            });
            return Some(MaybeClause::to(at.clause));
        }
        Sight::IsFalseNow => {
            return None;
        }
    }
}

/// The clause at a position of a tail.
fn clause_in(words: &[u32], i: usize) -> ClauseRef
    requires { i < length words.now }
    ensures value { result ≡ ref (slice_index words.now i) }
    ensures near { result.word < 2 ^ 63 }
{
    ClauseRef {
        word: u64::from(words[i]),
    }
}

/// Visits the pair at a position of the tail of the chain of `f`, which is false: its other literal
/// is true then, or the clause is false. Whether it is true.
fn visit_pair(
    chains: &Chains,
    trail: &mut Trail,
    f: Lit,
    level: u32,
    others: &[Lit],
    words: &[u32],
    i: usize,
) -> bool
    requires whole { AreWhole chains.now trail.old }
    requires is_false { is_false trail.old.entries f ≡ true }
    requires pair { IsPairOf chains.now.clauses f (lit_at others.now i)
        (ref (slice_index words.now i)) }
    requires literal { i < length others.now }
    requires clause { i < length words.now }
    ensures whole { AreWhole chains.now trail.new }
    ensures goes { GoesTo level f chains.now trail.old chains.now trail.new }
    ensures is_true { result ≡ true
        → is_false trail.new.entries (negation (lit_at others.now i)) ≡ true }
    ensures stopped { result ≡ false → AreFalse trail.new.entries
        (literals chains.now.clauses (ref (slice_index words.now i))) }
{
    let other = others[i];
    if trail.is_true(other) {
        return true;
    }
    if trail.is_false(other) {
        return false;
    }
    trail.push(TrailEntry {
        lit: other,
        level,
        reason: MaybeClause::to(clause_in(words, i)),
    });
    true
}

/// Goes over the tail of the chain of `f`, which is false: clauses of two literals, whose other
/// ones are true then or are made true. Gives a clause that is false, or none.
fn walk_tail(
    chains: &Chains,
    trail: &mut Trail,
    f: Lit,
    level: u32,
    others: &[Lit],
    words: &[u32],
    visits: &mut u64,
) -> Option<ClauseRef>
    requires whole { AreWhole chains.now trail.old }
    requires is_false { is_false trail.old.entries f ≡ true }
    requires tail { (from : Option ClauseRef)
        × IsTail chains.now.clauses f from others.now (refs words.now) None }
    ensures whole { AreWhole chains.now trail.new }
    ensures goes { GoesTo level f chains.now trail.old chains.now trail.new }
    ensures none { IfNone result
        (All (λ o. is_false trail.new.entries (negation o) ≡ true) others.now) }
    ensures held { IfSome result (λ c. is_held chains.now.clauses c ≡ true) }
    ensures stopped { IfSome result
        (λ c. AreFalse trail.new.entries (literals chains.now.clauses c)) }
    ensures visits { visits.new ≤ visits.old + length others.now }
    ensures counted { visits.old ≤ visits.new }
    ensures each { IfNone result (HasCounted visits.old (length others.now) visits.new) }
{
    for i in 0..others.len() {
        if !visit_pair(chains, trail, f, level, others, words, i) {
            *visits = visits.saturating_add(i as u64 + 1);
            return Some(clause_in(words, i));
        }
    }
    *visits = visits.saturating_add(others.len() as u64);
    None
}

/// Walks along the chain of `f`, which is false. Gives a clause that is false, or none; then the
/// other watched literal of each clause that still watches `f` is true, and each of these was
/// visited.
pub(crate) fn walk(
    chains: &mut Chains,
    trail: &mut Trail,
    f: Lit,
    level: u32,
    visits: &mut u64,
) -> Option<ClauseRef>
    requires whole { AreWhole chains.old trail.old }
    requires within { IsWithin chains.old.vars f }
    requires is_false { is_false trail.old.entries f ≡ true }
    ensures vars { chains.new.vars ≡ chains.old.vars }
    ensures whole { AreWhole chains.new trail.new }
    ensures goes { GoesTo level f chains.old trail.old chains.new trail.new }
    ensures none { IfNone result ((c : ClauseRef)
        → OtherIsTrue trail.new.entries (literals chains.new.clauses c) f) }
    ensures held { IfSome result (λ c. is_held chains.new.clauses c ≡ true) }
    ensures stopped { IfSome result
        (λ c. AreFalse trail.new.entries (literals chains.new.clauses c)) }
    ensures visits { visits.new ≤ visits.old + holders f chains.old.clauses }
    ensures counted { visits.old ≤ visits.new }
    ensures each { IfNone result
        (HasCounted visits.old (watchers f chains.new.clauses) visits.new) }
{
    let mut walked: u64 = 0;
    let mut before = MaybeClause::none();
    let mut next = chains.head(f);
    while let Some(clause) = next {
        if let Some((others, words)) = chains.tail_from(f, clause) {
            *visits = visits.saturating_add(walked);
            return walk_tail(chains, trail, f, level, others, words, visits);
        }
        let at = chains.place(clause, f);
        let after = chains.after(at);
        walked += 1;
        let Some(last) = visit_clause(chains, trail, f, level, before, at, after) else {
            *visits = visits.saturating_add(walked);
            return Some(clause);
        };
        before = last;
        next = after;
    }
    *visits = visits.saturating_add(walked);
    None
}
