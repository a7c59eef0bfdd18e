//! Which variables a conflict bumps.

ghost use Rattle.std.specs.Prelude.{◌≡◌, ◌<◌, ◌≤◌, All, length};
ghost use Rattle.sat_clause.specs.Literal.{IsWithin};
ghost use Rattle.sat_core.specs.Marks.{IsMet};
ghost use Rattle.sat_core.specs.Ranking.{SameHeld};

use crate::analysis::Analysis;
use crate::implied::Implied;
use crate::places::{entry_at, false_place};
use crate::ranking::Ranking;
use sat_clause::Lit;

impl Analysis<'_> {
    /// Bumps the variable of the entry that was met as the k-th one, but at level 0.
    fn bump_at(&self, ranking: &mut Ranking, k: u32)
        requires vars { ranking.old.vars ≡ self.now.watches.now.vars }
        requires k { k < length self.now.marks.now.places }
        ensures { SameHeld ranking.old ranking.new }
    {
        let entry = entry_at(self.watches, self.marks.place(k));
        if entry.level == 0 {
            return;
        }
        ranking.bump(entry.lit.variable());
    }

    /// Bumps the variables of the entries that were met, but of those of level 0.
    fn bump_met(&self, ranking: &mut Ranking)
        requires vars { ranking.old.vars ≡ self.now.watches.now.vars }
        ensures { SameHeld ranking.old ranking.new }
    {
        for k in 0..self.marks.len() {
            self.bump_at(ranking, k);
        }
    }

    /// Whether an entry that was met comes into the clause: its reason is not used, and it is
    /// neither of level 0 nor implied.
    fn is_learned(&self, implied: &Implied, place: u32) -> bool
        requires size { self.now.watches.now.vars ≤ length implied.now.marks.met }
        requires met { IsMet self.now.marks.now place }
    {
        if self.marks.is_used(place) {
            return false;
        }
        if entry_at(self.watches, place).level == 0 {
            return false;
        }
        !implied.is_implied(place)
    }

    /// How many literals are learned.
    fn learned_length(&self, implied: &Implied) -> u32
        requires { self.now.watches.now.vars ≤ length implied.now.marks.met }
        ensures { result ≤ length self.now.marks.now.places }
    {
        let mut count = 0;
        for k in 0..self.marks.len() {
            if self.is_learned(implied, self.marks.place(k)) {
                count += 1;
            }
        }
        count
    }

    /// Bumps the variable of a literal, if it is false and was not met.
    fn bump_literal(&self, ranking: &mut Ranking, l: Lit)
        requires vars { ranking.old.vars ≡ self.now.watches.now.vars }
        requires within { IsWithin self.now.watches.now.vars l }
        ensures { SameHeld ranking.old ranking.new }
    {
        let Some(place) = false_place(self.watches, l) else {
            return;
        };
        if self.marks.is_met(place) {
            return;
        }
        ranking.bump(l.variable());
    }

    /// Bumps the variables of the false literals of a reason that were not met.
    fn bump_reason(&self, ranking: &mut Ranking, lits: &[Lit])
        requires vars { ranking.old.vars ≡ self.now.watches.now.vars }
        requires within { All (IsWithin self.now.watches.now.vars) lits.now }
        ensures { SameHeld ranking.old ranking.new }
    {
        for l in lits {
            self.bump_literal(ranking, *l);
        }
    }

    /// Bumps what stands in the reason of the entry that was met as the k-th one, if its literal is
    /// learned and it is not the first unique implication point.
    fn bump_behind(&self, ranking: &mut Ranking, implied: &Implied, point: u32, k: u32)
        requires vars { ranking.old.vars ≡ self.now.watches.now.vars }
        requires size { self.now.watches.now.vars ≤ length implied.now.marks.met }
        requires k { k < length self.now.marks.now.places }
        ensures { SameHeld ranking.old ranking.new }
    {
        let place = self.marks.place(k);
        if place == point {
            return;
        }
        if !self.is_learned(implied, place) {
            return;
        }
        let Some(reason) = entry_at(self.watches, place).reason.clause() else {
            return;
        };
        self.bump_reason(ranking, self.watches.lits(reason));
    }

    /// Bumps what stands behind the learned literals, where they are not more than learned clauses
    /// have in the mean.
    fn bump_behind_short(&self, ranking: &mut Ranking, implied: &Implied, point: u32)
        requires vars { ranking.old.vars ≡ self.now.watches.now.vars }
        requires size { self.now.watches.now.vars ≤ length implied.now.marks.met }
        ensures { SameHeld ranking.old ranking.new }
    {
        if !ranking.is_short(self.learned_length(implied)) {
            return;
        }
        for k in 0..self.marks.len() {
            self.bump_behind(ranking, implied, point, k);
        }
    }

    /// Bumps each variable that an analysis met, and behind a short clause what stands there. The
    /// next conflict bumps by more.
    pub(crate) fn bump_conflict(&self, ranking: &mut Ranking, implied: &Implied, point: u32)
        requires vars { ranking.old.vars ≡ self.now.watches.now.vars }
        requires size { self.now.watches.now.vars ≤ length implied.now.marks.met }
        ensures { SameHeld ranking.old ranking.new }
    {
        self.bump_met(ranking);
        self.bump_behind_short(ranking, implied, point);
        ranking.grow_step();
    }
}
