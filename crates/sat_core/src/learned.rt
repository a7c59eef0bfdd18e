//! What is learned where a clause is false.

ghost use Rattle.std.specs.Prelude.{◌≡◌, ◌++◌, ◌∷◌, [], ◌<◌, ◌≤◌, All, AllPairs, IfOk, flat_map, length, max, option_map, pos};
ghost use Rattle.std.specs.Option.{option_to_list};
ghost use Rattle.sat_clause.specs.Literal.{IsWithin};
ghost use Rattle.sat_core.specs.Analysis.{HasCurrent, IsKnown};
ghost use Rattle.sat_core.specs.Marks.{IsClean, IsMet, IsReady};
ghost use Rattle.sat_core.specs.Ranking.{SameHeld};
ghost use Rattle.sat_core.specs.Reading.{AreLearned, EndsIn, HasLearnedClause, IsFound, hint_at};

use crate::analysis::{Analysis, analyse};
use crate::implied::Implied;
use crate::marks::Marks;
use crate::places::entry_at;
use crate::ranking::Ranking;
use sat_clause::{Lit, VARIABLE_LIMIT};
use sat_watch::Watches;
use std::alloc::{AllocError, Global};
use std::marker::Model;
use std::mem;

/// A clause that follows from others, the ids of these, and the level to go back to. Its last
/// literal is the one that became false last.
#[derive(Debug, Drop)]
pub(crate) struct LearnedClause {
    pub(crate) clause: Vec<Lit>,
    pub(crate) hints: Vec<i64>,
    pub(crate) back: u32,
}

impl LearnedClause {
    /// A learned clause without literals and hints, which has no room yet.
    fn empty(alloc: Global) -> LearnedClause
        ensures clause { result.clause.items ≡ [] }
        ensures hints { result.hints.items ≡ [] }
        ensures back { result.back ≡ 0 }
    {
        LearnedClause {
            clause: Vec::new(alloc),
            hints: Vec::new(alloc),
            back: 0,
        }
    }
}

/// Literals of lower levels than the current one, and the highest of their levels.
#[derive(Debug, Drop)]
struct Lower {
    lits: Vec<Lit>,
    back: u32,
}

/// The higher one of two levels.
fn higher(a: u32, b: u32) -> u32
    ensures { result ≡ max a b }
{
    if a < b { b } else { a }
}

impl Analysis<'_> {
    /// The negations of the entries that were met, but of those whose reasons were used, and of
    /// that at the first unique implication point; in place of these literals.
    fn lower_literals(&self, old: Vec<Lit>, point: u32) -> Result<Lower, AllocError>
        requires rising { AllPairs (λ a b. a < b) self.now.marks.now.places }
        ensures { IfOk result (λ lower. AreLearned self.now.watches.now self.now.marks.now point
            self.now.marks.now.places lower.lits.items lower.back) }
    {
        let mut lits = old;
        lits.clear();
        let mut back = 0;
        for place in self.marks.places() {
            if self.marks.is_used(*place) {
                continue;
            }
            if *place == point {
                continue;
            }
            let entry = entry_at(self.watches, *place);
            lits.push(entry.lit.negation())?;
            back = higher(back, entry.level);
        }
        Ok(Lower { lits, back })
    }

    /// The id of the reason of the entry at a place, if it was used and has one.
    fn hint_of(&self, place: u32) -> Option<u32>
        requires { IsMet self.now.marks.now place }
        ensures { option_to_list (option_map pos result)
            ≡ hint_at self.now.watches.now self.now.marks.now place }
    {
        if !self.marks.is_used(place) {
            return None;
        }
        let Some(reason) = entry_at(self.watches, place).reason.clause() else {
            return None;
        };
        Some(self.watches.id(reason))
    }

    /// The ids of the reasons that were used, in the order of the trail, and then an id; in place
    /// of these.
    fn used_hints(&self, old: Vec<i64>, id: u32) -> Result<Vec<i64>, AllocError>
        ensures { IfOk result (λ hints. hints.items
            ≡ flat_map (hint_at self.now.watches.now self.now.marks.now)
            self.now.marks.now.places ++ pos id ∷ []) }
    {
        let mut hints = old;
        hints.clear();
        for place in self.marks.places() {
            let Some(hint) = self.hint_of(*place) else {
                continue;
            };
            hints.push(i64::from(hint))?;
        }
        hints.push(i64::from(id))?;
        Ok(hints)
    }

    /// The literals, and then the negation of the entry at a place, where a level was begun.
    fn with_point(&self, lits: Vec<Lit>, point: u32) -> Result<Vec<Lit>, AllocError>
        requires { 1 ≤ self.now.level → point < length self.now.watches.now.trail }
        ensures zero { IfOk result (λ clause. self.now.watches.now.level ≡ 0
            → clause.items ≡ lits.items) }
        ensures more { IfOk result (λ clause. 1 ≤ self.now.watches.now.level
            → EndsIn self.now.watches.now.trail lits.items point clause.items) }
    {
        if self.level == 0 {
            return Ok(lits);
        }
        let mut clause = lits;
        clause.push(entry_at(self.watches, point).lit.negation())?;
        Ok(clause)
    }

    /// What an analysis comes to, in the room of a learned clause.
    fn read(&self, room: LearnedClause, point: u32, id: u32) -> Result<LearnedClause, AllocError>
        requires rising { AllPairs (λ a b. a < b) self.now.marks.now.places }
        requires point { 1 ≤ self.now.level → point < length self.now.watches.now.trail }
        ensures { IfOk result (λ learned. HasLearnedClause self.now.watches.now
            self.now.marks.now point id learned.clause.items learned.hints.items learned.back) }
    {
        let lower = self.lower_literals(room.clause, point)?;
        let hints = self.used_hints(room.hints, id)?;
        let clause = self.with_point(lower.lits, point)?;
        Ok(LearnedClause {
            clause,
            hints,
            back: lower.back,
        })
    }
}

/// The marks of an analysis: what it has met, and what it has found to be implied. And the room of
/// a learned clause that is no longer needed.
#[derive(Drop)]
pub(crate) struct Findings {
    marks: Marks,
    implied: Implied,
    spare: LearnedClause,
}

impl Model for Findings {
    ghost use Rattle.sat_core.specs.Implied.{IsFindings};
    ghost use Rattle.sat_core.specs.Marks.{MarkState};

    ghost Value = { MarkState };

    ghost view = { λ f. f.marks };

    ghost invariant = { λ f. IsFindings f.marks f.implied };
}

impl Findings {
    /// Marks for so many places, none of which was met.
    pub(crate) fn new(alloc: Global, size: u32) -> Result<Findings, AllocError>
        requires { size ≤ VARIABLE_LIMIT }
        ensures clean { IfOk result IsClean }
        ensures size { IfOk result (λ m. length m.met ≡ size) }
    {
        Ok(Findings {
            marks: Marks::new(alloc, size)?,
            implied: Implied::new(alloc, size)?,
            spare: LearnedClause::empty(alloc),
        })
    }

    /// Takes a learned clause that is no longer needed, whose room the next one takes.
    pub(crate) fn reuse(&mut self, learned: LearnedClause)
        ensures { self.new ≡ self.old }
    {
        self.spare = learned;
    }
}

/// What is learned where a clause with this id is false. All marks are taken back. What the
/// analysis meets is bumped. It takes memory only where the clause or its hints have no room in the
/// learned clause that was given back.
///
/// # Errors
/// Where memory is short.
pub(crate) fn find_learned(
    alloc: Global,
    ranking: &mut Ranking,
    marks: &mut Findings,
    watches: &Watches,
    lits: &[Lit],
    id: u32,
) -> Result<LearnedClause, AllocError>
    requires few { watches.now.vars ≤ VARIABLE_LIMIT }
    requires vars { ranking.old.vars ≡ watches.now.vars }
    requires ready { IsReady watches.now.vars marks.old }
    requires within { All (IsWithin watches.now.vars) lits.now }
    requires current { IsKnown watches.now → HasCurrent watches.now lits.now }
    ensures held { SameHeld ranking.old ranking.new }
    ensures ready { IsReady watches.now.vars marks.new }
    ensures found { IfOk result (λ learned. IsFound watches.now lits.now id learned.clause.items
        learned.hints.items learned.back) }
{
    let point = analyse(ranking, &mut marks.marks, &mut marks.implied, watches, lits);
    marks.marks.sort();
    let room = mem::replace(&mut marks.spare, LearnedClause::empty(alloc));
    let analysis = Analysis {
        watches,
        marks: &marks.marks,
        level: watches.level(),
    };
    let learned = analysis.read(room, point, id);
    marks.marks.clear();
    learned
}
