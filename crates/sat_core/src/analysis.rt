//! The analysis of a false clause: which entries of the trail made it false.

ghost use Rattle.std.specs.Prelude.{◌≡◌, ◌⊎◌, ◌-◌, ◌<◌, ◌≤◌, ℕ, [], ◌∷◌, All, false, length, slice_index_or, suc, true};
ghost use Rattle.sat_clause.specs.declared.limits.TheConstants.{VARIABLE_LIMIT};
ghost use Rattle.sat_clause.specs.Literal.{IsWithin};
ghost use Rattle.sat_core.specs.Analysis.{AreOn, AreUsed, GoesOn, HasCurrent, IsAnalysed, IsFalsePlace, IsKnown, IsLeast, IsPoint, IsReasonAt, IsReasonPlace, IsWalk, Uses};
ghost use Rattle.sat_core.specs.Implied.{IsAtRest, IsLeftOut, IsWalked};
ghost use Rattle.sat_core.specs.Marks.{IsClean, IsMet, IsUsed, Meets};
ghost use Rattle.sat_core.specs.Ranking.{SameHeld};
ghost use Rattle.sat_watch.specs.Watches.{is_attached};

use crate::implied::Implied;
use crate::marks::Marks;
use crate::places::{entry_at, false_place};
use crate::ranking::Ranking;
use sat_arena::ClauseRef;
use sat_clause::{Lit, VARIABLE_LIMIT};
use sat_watch::Watches;

/// What an analysis has met of the trail of these watches, at their current level.
#[derive(Drop)]
pub(crate) struct Analysis<'a> {
    pub(crate) watches: &'a Watches,
    pub(crate) marks: &'a Marks,
    pub(crate) level: u32,
    ghost few: { watches.now.vars ≤ VARIABLE_LIMIT },
    ghost size: { watches.now.vars ≤ length marks.now.met },
    ghost on: { AreOn watches.now.trail marks.now },
    ghost current: { level ≡ watches.now.level },
}

/// The lower one of two places, where the second counts only if it is of the current level.
fn lower_current(watches: &Watches, least: u32, place: u32) -> u32
    requires { place < length watches.now.trail }
    ensures { IsLeast watches.now.trail watches.now.level (λ p. p ≡ place) least result }
{
    if least <= place {
        return least;
    }
    if entry_at(watches, place).level == watches.level() {
        return place;
    }
    least
}

/// Meets the place of a literal, if it is false. Gives the least place of the current level.
fn meet_literal(marks: &mut Marks, watches: &Watches, l: Lit, least: u32) -> u32
    requires within { IsWithin watches.now.vars l }
    requires size { watches.now.vars ≤ length marks.old.met }
    ensures meets { Meets (IsFalsePlace watches.now.trail (l ∷ [])) marks.old marks.new }
    ensures least { IsLeast watches.now.trail watches.now.level
        (IsFalsePlace watches.now.trail (l ∷ [])) least result }
{
    let Some(place) = false_place(watches, l) else {
        return least;
    };
    marks.meet(place);
    lower_current(watches, least, place)
}

/// Meets the places of the false literals of a clause. Gives the least place of the current level.
fn meet_clause(marks: &mut Marks, watches: &Watches, lits: &[Lit], least: u32) -> u32
    requires within { All (IsWithin watches.now.vars) lits.now }
    requires size { watches.now.vars ≤ length marks.old.met }
    ensures meets { Meets (IsFalsePlace watches.now.trail lits.now) marks.old marks.new }
    ensures least { IsLeast watches.now.trail watches.now.level
        (IsFalsePlace watches.now.trail lits.now) least result }
{
    let mut lowest = least;
    for l in lits {
        lowest = meet_literal(marks, watches, *l, lowest);
    }
    lowest
}

/// Uses the reason of the entry at a place: meets the places of its false literals. Gives the least
/// place of the current level.
fn use_entry(marks: &mut Marks, watches: &Watches, place: u32, reason: ClauseRef, least: u32) -> u32
    requires met { IsMet marks.old place }
    requires reason { IsReasonAt watches.now.trail place reason }
    requires attached { is_attached watches.now.clauses reason ≡ true }
    requires size { watches.now.vars ≤ length marks.old.met }
    ensures uses { Uses watches.now place marks.old marks.new }
    ensures least { IsLeast watches.now.trail watches.now.level (IsReasonPlace watches.now place)
        least result }
{
    let lowest = meet_clause(marks, watches, watches.lits(reason), least);
    marks.use_reason(place);
    lowest
}

/// Passes a place on the way down to the first unique implication point, which stands below it.
/// Uses its reason, if it was met. Gives the least place of the current level.
fn pass(marks: &mut Marks, watches: &Watches, place: u32, least: u32) -> u32
    requires walk { IsWalk watches.now marks.old place least }
    requires below { least < place }
    ensures goes_on { GoesOn watches.now marks.old marks.new }
    ensures walk { IsWalk watches.now marks.new (place - 1) result }
{
    let entry = entry_at(watches, place);
    if !marks.is_met(place) {
        return least;
    }
    let Some(reason) = entry.reason.clause() else {
        unreachable!();
    };
    use_entry(marks, watches, place, reason, least)
}

/// Uses reasons from the newest entry on down, until one place of the current level is left whose
/// reason is not used: the first unique implication point, which it gives. `least` is the least
/// place of the current level that was met.
fn first_point(marks: &mut Marks, watches: &Watches, least: u32) -> u32
    requires few { watches.now.vars ≤ VARIABLE_LIMIT }
    requires walk { IsWalk watches.now marks.old (length watches.now.trail - 1) least }
    ensures goes_on { GoesOn watches.now marks.old marks.new }
    ensures point { IsPoint watches.now marks.new result }
{
    let mut lowest = least;
    let mut place = watches.trail().len() as u32 - 1;
    while place > lowest {
        lowest = pass(marks, watches, place, lowest);
        place -= 1;
    }
    lowest
}

/// The first unique implication point, where a level was begun.
fn point(marks: &mut Marks, watches: &Watches, level: u32, least: u32) -> u32
    requires level { level ≡ watches.now.level }
    requires few { watches.now.vars ≤ VARIABLE_LIMIT }
    requires walk { 1 ≤ watches.now.level
        → IsWalk watches.now marks.old (length watches.now.trail - 1) least }
    ensures goes_on { GoesOn watches.now marks.old marks.new }
    ensures point { 1 ≤ watches.now.level → IsPoint watches.now marks.new result }
{
    if level == 0 {
        return 0;
    }
    first_point(marks, watches, least)
}

/// Whether the entry at a place that was met needs no literal: it is of level 0 or implied.
fn is_left_out(implied: &Implied, level: u32, place: u32) -> bool
    requires { place < length implied.now.marks.met }
    ensures yes { result ≡ true
        → (level ≡ 0) ⊎ (slice_index_or implied.now.marks.used place false ≡ true) }
    ensures none { result ≡ false
        → (1 ≤ level) × (slice_index_or implied.now.marks.used place false ≡ false) }
{
    if level == 0 {
        return true;
    }
    implied.is_implied(place)
}

/// Uses the reason of the place that was met as the i-th one, if the place needs no literal.
fn use_at(marks: &mut Marks, implied: &Implied, watches: &Watches, i: u32)
    requires walked { IsWalked watches.now marks.old implied.now }
    requires i { i < length marks.old.places }
    ensures walked { IsWalked watches.now marks.new implied.now }
    ensures goes_on { GoesOn watches.now marks.old marks.new }
    ensures point { (point : ℕ) → 1 ≤ watches.now.level → IsPoint watches.now marks.old point
        → IsPoint watches.now marks.new point }
    ensures used { AreUsed (IsLeftOut watches.now.trail implied.now.marks.used) i marks.old
        → AreUsed (IsLeftOut watches.now.trail implied.now.marks.used) (suc i) marks.new }
    ensures no_more { (p : ℕ) → IsMet marks.new p → IsMet marks.old p
        ⊎ IsLeftOut watches.now.trail implied.now.marks.used p }
{
    let place = marks.place(i);
    let entry = entry_at(watches, place);
    if !is_left_out(implied, entry.level, place) {
        return;
    }
    let Some(reason) = entry.reason.clause() else {
        unreachable!();
    };
    use_entry(marks, watches, place, reason, 0);
}

/// Uses the reasons of all places that were met and need no literal, and of those that they meet.
/// So their literals are dropped, and no other one comes up.
fn use_left_out(marks: &mut Marks, implied: &Implied, watches: &Watches)
    requires { IsWalked watches.now marks.old implied.now }
    ensures goes_on { GoesOn watches.now marks.old marks.new }
    ensures point { (point : ℕ) → 1 ≤ watches.now.level → IsPoint watches.now marks.old point
        → IsPoint watches.now marks.new point }
    ensures used { (p : ℕ) → IsMet marks.new p
        → IsLeftOut watches.now.trail implied.now.marks.used p → IsUsed marks.new p }
    ensures no_more { (p : ℕ) → IsMet marks.new p → IsMet marks.old p ⊎ IsUsed marks.new p }
{
    let mut i = 0;
    while i < marks.len() {
        use_at(marks, implied, watches, i);
        i += 1;
    }
}

/// Uses the reasons of what made a clause false, from the newest entry on down to the first unique
/// implication point of the current level, which it gives, and all those that are met and are of
/// level 0 or implied by the others. Bumps what is met on the way down, and what stands behind a
/// short clause.
///
/// It costs what it meets: the entries from the newest down to that point, the literals of the
/// reasons that it uses, and of those that it visits to find out what is implied.
pub(crate) fn analyse(
    ranking: &mut Ranking,
    marks: &mut Marks,
    implied: &mut Implied,
    watches: &Watches,
    lits: &[Lit],
) -> u32
    requires few { watches.now.vars ≤ VARIABLE_LIMIT }
    requires vars { ranking.old.vars ≡ watches.now.vars }
    requires size { watches.now.vars ≤ length marks.old.met }
    requires walk_size { length implied.old.marks.met ≡ length marks.old.met }
    requires clean { IsClean marks.old }
    requires rest { IsAtRest implied.old }
    requires within { All (IsWithin watches.now.vars) lits.now }
    requires current { IsKnown watches.now → HasCurrent watches.now lits.now }
    ensures held { SameHeld ranking.old ranking.new }
    ensures walk_size { length implied.new.marks.met ≡ length marks.new.met }
    ensures rest { IsAtRest implied.new }
    ensures analysed { IsAnalysed watches.now lits.now marks.new result }
{
    let top = watches.trail().len() as u32;
    let level = watches.level();
    let least = meet_clause(marks, watches, lits, top);
    let point = point(marks, watches, level, least);
    let analysis = Analysis {
        watches,
        marks,
        level,
    };
    analysis.find_implied(implied);
    analysis.bump_conflict(ranking, implied, point);
    use_left_out(marks, implied, watches);
    implied.clear();
    point
}
