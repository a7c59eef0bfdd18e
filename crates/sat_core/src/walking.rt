//! The walk over the reasons of the entries that an analysis has met, for those that need no
//! literal in the clause.
//!
//! What is found to be implied rests on [`Analysis::settle`] alone. In which order places come
//! there is free, and a place that is given up is only a literal more.

ghost use Rattle.std.specs.Prelude.{◌≡◌, ◌<◌, ◌≤◌, [], ◌∷◌, All, IfNone, IfSome, length, slice_index_or, true, false};
ghost use Rattle.sat_clause.specs.Literal.{IsWithin};
ghost use Rattle.sat_core.specs.Implied.{IsCovered, IsWalking, steps_left};

use crate::analysis::Analysis;
use crate::implied::Implied;
use crate::places::{entry_at, false_place};
use crate::visit::Visit;
use sat_clause::Lit;

/// The set of one level. Levels that are alike modulo 64 count as one.
fn level_set(level: u32) -> u64 {
    1 << (level % 64)
}

impl Analysis<'_> {
    /// The place of a literal that is false, but was not met and is neither of level 0 nor implied.
    fn uncovered_place(&self, implied: &Implied, l: Lit) -> Option<u32>
        requires within { IsWithin self.now.watches.now.vars l }
        requires walk_size { self.now.watches.now.vars ≤ length implied.now.marks.met }
        ensures none { IfNone result (IsCovered self.now.watches.now.trail self.now.marks.now
            implied.now.marks.used (l ∷ [])) }
        ensures on { IfSome result (λ p. p < length self.now.watches.now.trail) }
        ensures within { IfSome result (λ p. p < self.now.watches.now.vars) }
    {
        let Some(place) = false_place(self.watches, l) else {
            return None;
        };
        if self.marks.is_met(place) {
            return None;
        }
        if implied.is_implied(place) {
            return None;
        }
        if entry_at(self.watches, place).level == 0 {
            return None;
        }
        Some(place)
    }

    /// The first of these literals from a position on whose place is not covered, as a visit of
    /// that place, and its position.
    fn next_uncovered(&self, implied: &Implied, lits: &[Lit], from: usize) -> Option<Visit>
        requires within { All (IsWithin self.now.watches.now.vars) lits.now }
        requires walk_size { self.now.watches.now.vars ≤ length implied.now.marks.met }
        ensures on { IfSome result (λ found. found.place < length self.now.watches.now.trail) }
        ensures within { IfSome result (λ found. found.place < self.now.watches.now.vars) }
    {
        for next in from..lits.len() {
            if let Some(place) = self.uncovered_place(implied, lits[next]) {
                return Some(Visit { place, next });
            }
        }
        None
    }

    /// Whether the place of each false literal of a clause was met, is of level 0, or is implied.
    fn are_covered(&self, implied: &Implied, lits: &[Lit]) -> bool
        requires within { All (IsWithin self.now.watches.now.vars) lits.now }
        requires walk_size { self.now.watches.now.vars ≤ length implied.now.marks.met }
        ensures { result ≡ true → IsCovered self.now.watches.now.trail self.now.marks.now
            implied.now.marks.used lits.now }
    {
        for l in lits {
            if self.uncovered_place(implied, *l).is_some() {
                return false;
            }
        }
        true
    }

    /// Notes that a place is implied, if it is below the current level and its reason is covered.
    fn settle(&self, implied: &mut Implied, place: u32)
        requires on { place < length self.now.watches.now.trail }
        requires walking { IsWalking self.now.watches.now self.now.marks.now implied.old }
        ensures walking { IsWalking self.now.watches.now self.now.marks.now implied.new }
        ensures left { steps_left implied.new ≤ steps_left implied.old }
    {
        let entry = entry_at(self.watches, place);
        if entry.level == self.level {
            return;
        }
        let Some(reason) = entry.reason.clause() else {
            return;
        };
        if !self.are_covered(implied, self.watches.lits(reason)) {
            return;
        }
        implied.mark(place);
    }

    /// Whether it is worth while to visit a place: it was not, its level is lower than the current
    /// one and among these, and it has a reason.
    fn is_promising(&self, implied: &Implied, levels: u64, place: u32) -> bool
        requires on { place < length self.now.watches.now.trail }
        requires walk_size { place < length implied.now.marks.met }
        ensures { result ≡ true → slice_index_or implied.now.marks.met place false ≡ false }
    {
        if implied.was_visited(place) {
            return false;
        }
        let entry = entry_at(self.watches, place);
        if entry.level == self.level {
            return false;
        }
        if level_set(entry.level) & levels == 0 {
            return false;
        }
        entry.reason.clause().is_some()
    }

    /// Goes on with a visit: to the next literal of its reason that is not covered, or to its end.
    /// Gives the whole walk up where that literal cannot be implied.
    fn go_on(&self, implied: &mut Implied, levels: u64, visit: Visit)
        requires on { visit.place < length self.now.watches.now.trail }
        requires room { length implied.old.visits < length implied.old.marks.places }
        requires walking { IsWalking self.now.watches.now self.now.marks.now implied.old }
        ensures walking { IsWalking self.now.watches.now self.now.marks.now implied.new }
        ensures left { steps_left implied.new ≤ steps_left implied.old }
    {
        let Some(reason) = entry_at(self.watches, visit.place).reason.clause() else {
            implied.end();
            return;
        };
        let lits = self.watches.lits(reason);
        let Some(found) = self.next_uncovered(implied, lits, visit.next) else {
            self.settle(implied, visit.place);
            return;
        };
        if !self.is_promising(implied, levels, found.place) {
            implied.end();
            return;
        }
        let left = Visit {
            place: visit.place,
            next: found.next,
        };
        implied.descend(left, found.place);
    }

    /// Finds out whether a place that was met is implied, unless it is of the current level or of
    /// level 0.
    fn look_behind(&self, implied: &mut Implied, levels: u64, place: u32)
        requires on { place < length self.now.watches.now.trail }
        requires none { implied.old.visits ≡ [] }
        requires walking { IsWalking self.now.watches.now self.now.marks.now implied.old }
        ensures walking { IsWalking self.now.watches.now self.now.marks.now implied.new }
        ensures none { implied.new.visits ≡ [] }
    {
        let entry = entry_at(self.watches, place);
        if entry.level == self.level {
            return;
        }
        if entry.level == 0 {
            return;
        }
        implied.begin(place);
        while let Some(visit) = implied.take() {
            self.go_on(implied, levels, visit);
        }
    }

    /// The set of the levels of the places that were met, but for the current one.
    fn lower_levels(&self) -> u64 {
        let mut levels = 0;
        for k in 0..self.marks.len() {
            let entry = entry_at(self.watches, self.marks.place(k));
            if entry.level != self.level {
                levels |= level_set(entry.level);
            }
        }
        levels
    }

    /// Finds out which of the places that were met are implied by the others: their reasons' other
    /// literals were met, are of level 0, or are implied themselves. The places in between that are
    /// implied are marked too.
    ///
    /// It visits only what stands behind these places, each place once, and none behind one that is
    /// not implied: a visit costs the literals of its reason.
    pub(crate) fn find_implied(&self, implied: &mut Implied)
        requires none { implied.old.visits ≡ [] }
        requires walking { IsWalking self.now.watches.now self.now.marks.now implied.old }
        ensures walking { IsWalking self.now.watches.now self.now.marks.now implied.new }
    {
        let levels = self.lower_levels();
        for k in 0..self.marks.len() {
            self.look_behind(implied, levels, self.marks.place(k));
        }
    }
}
