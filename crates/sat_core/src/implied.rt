//! Which entries of the trail are implied by those that an analysis has met.

ghost use Rattle.std.specs.Prelude.{◌≡◌, ◌<◌, ◌≤◌, ◌++◌, [], ◌∷◌, IfNone, IfOk, IfSome, false, length, slice_index_or, slice_set, true};
ghost use Rattle.sat_core.specs.Implied.{IsAtRest};
ghost use Rattle.sat_core.specs.Marks.{AreMarks};

use crate::marks::Marks;
use crate::visit::Visit;
use sat_clause::VARIABLE_LIMIT;
use std::alloc::{AllocError, Global};
use std::marker::Model;

/// The places of a trail that a walk over reasons has visited, which of them it has found to be
/// implied, and the visits that are not at their end. A visited place that is neither implied nor
/// being visited is not implied. Nothing but [`Implied::new`] takes memory.
#[derive(Drop)]
pub(crate) struct Implied {
    marks: Marks,
    visits: Vec<Visit>,
}

impl Model for Implied {
    ghost use Rattle.sat_core.specs.Implied.{IsWalkStore, WalkState};

    ghost Value = { WalkState };

    ghost view = { λ i. record {
      marks = i.marks;
      visits = i.visits.items;
    } };

    ghost invariant = { λ i. IsWalkStore i.marks i.visits };
}

impl Implied {
    /// A walk over so many places, none of which is visited.
    pub(crate) fn new(alloc: Global, size: u32) -> Result<Implied, AllocError>
        requires { size ≤ VARIABLE_LIMIT }
        ensures rest { IfOk result IsAtRest }
        ensures size { IfOk result (λ walk. length walk.marks.met ≡ size) }
    {
        Ok(Implied {
            marks: Marks::new(alloc, size)?,
            visits: Vec::with_capacity(alloc, size as usize)?,
        })
    }

    /// Whether a place was found to be implied.
    pub(crate) fn is_implied(&self, place: u32) -> bool
        requires { place < length self.now.marks.met }
        ensures { result ≡ slice_index_or self.now.marks.used place false }
    {
        self.marks.is_used(place)
    }

    /// Whether a place was visited.
    pub(crate) fn was_visited(&self, place: u32) -> bool
        requires { place < length self.now.marks.met }
        ensures { result ≡ slice_index_or self.now.marks.met place false }
    {
        self.marks.is_met(place)
    }

    /// Begins a walk with the visit of a place.
    pub(crate) fn begin(&mut self, place: u32)
        requires within { place < length self.old.marks.met }
        requires none { self.old.visits ≡ [] }
        ensures used { self.new.marks.used ≡ self.old.marks.used }
        ensures size { length self.new.marks.met ≡ length self.old.marks.met }
        ensures visits { self.new.visits ≡ (record { place = place; next = 0 }) ∷ [] }
    {
        self.marks.meet(place);
        self.visits.push_reserved(Visit { place, next: 0 });
    }

    /// Takes the newest visit.
    pub(crate) fn take(&mut self) -> Option<Visit>
        ensures marks { self.new.marks ≡ self.old.marks }
        ensures some { IfSome result (λ visit. self.old.visits ≡ self.new.visits ++ visit ∷ []) }
        ensures none { IfNone result (self.new.visits ≡ []) }
        ensures few { length self.old.visits ≤ length self.old.marks.places }
    {
        self.visits.pop()
    }

    /// Leaves a visit for that of a place that was not visited.
    pub(crate) fn descend(&mut self, visit: Visit, place: u32)
        requires within { place < length self.old.marks.met }
        requires new { slice_index_or self.old.marks.met place false ≡ false }
        requires room { length self.old.visits < length self.old.marks.places }
        ensures used { self.new.marks.used ≡ self.old.marks.used }
        ensures size { length self.new.marks.met ≡ length self.old.marks.met }
        ensures visits { self.new.visits
            ≡ self.old.visits ++ visit ∷ (record { place = place; next = 0 }) ∷ [] }
        ensures more { length self.old.marks.places < length self.new.marks.places }
        ensures few { length self.new.marks.places ≤ length self.new.marks.met }
    {
        self.marks.meet(place);
        self.visits.push_reserved(visit);
        self.visits.push_reserved(Visit { place, next: 0 });
    }

    /// Ends the walk: none of the places that are being visited is implied.
    pub(crate) fn end(&mut self)
        ensures marks { self.new.marks ≡ self.old.marks }
        ensures visits { self.new.visits ≡ [] }
    {
        self.visits.clear();
    }

    /// Notes that a place is implied.
    pub(crate) fn mark(&mut self, place: u32)
        requires { place < length self.old.marks.met }
        ensures used { self.new.marks.used ≡ slice_set self.old.marks.used place true }
        ensures size { length self.new.marks.met ≡ length self.old.marks.met }
        ensures visits { self.new.visits ≡ self.old.visits }
        ensures more { length self.old.marks.places ≤ length self.new.marks.places }
    {
        self.marks.meet(place);
        self.marks.use_reason(place);
    }

    /// Takes all marks back. It costs time linear in the places that were visited.
    pub(crate) fn clear(&mut self)
        ensures rest { IsAtRest self.new }
        ensures size { length self.new.marks.met ≡ length self.old.marks.met }
    {
        self.marks.clear();
        self.visits.clear();
    }
}
