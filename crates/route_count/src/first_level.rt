//! The first level of a count: slots of a problem, and their clauses.
ghost use Rattle.std.specs.Prelude.{◌≡◌, ◌≢◌, ◌+◌, ◌*◌, ◌≤◌, ◌<◌, ◌++◌, ◌∷◌, [], ◌^◌, ℕ, All, IfOk, IfSome, OnOk, Some, length, pos, slice_index};
ghost use Rattle.std.specs.List.{AllPairs};
ghost use Rattle.problem_facts.specs.Leads.{AreTrees, lead_at, root_at};
ghost use Rattle.problem_facts.specs.declared.trees.Lead.{Lead};
ghost use Rattle.route_count.specs.Firsts.{AreClosed, AreLed, AreMarked, AreReady, IsLed, IsMet, KeepsMarks, apart_of, firsts_of, some_of};
ghost use Rattle.route_count.specs.Meetings.{AreFound, IsMeeting};
ghost use Rattle.route_count.specs.Said.{AreInNets, HasClauses, IsInput, IsOneOf, IsReason, apart_clause, chain_hints, led_clause, reason_hints};
ghost use Rattle.sat_count.specs.Levels.{IsLevel};
ghost use Rattle.sat_count.specs.Places.{some_clause};
ghost use Rattle.sat_count.specs.Refuting.{Adds, Grows, Holds, RefutationState, begun};
ghost use Rattle.sat_count.specs.Rows.{AddsPairs, AddsRow, AddsRows};

use crate::clause_ids::ClauseIds;
use crate::clauses::clause_id;
use crate::meetings::{Meeting, Meetings};
use arrayvec::ArrayVec;
use fpga_types::Slot;
use problem_facts::{Lead, Trees};
use route_encode::Variables;
use sat_clause::{Formula, Lit};
use sat_count::{Level, Refutation};
use std::alloc::{AllocError, Global};

/// What the first level is made of: the clauses of a problem in a formula, their variables and
/// where they are expected, the slots with their trees, and a row of slots with where their trees
/// meet.
#[derive(Drop)]
pub(crate) struct Beginning<'a> {
    pub formula: &'a Formula,
    pub variables: Variables,
    pub ids: &'a ClauseIds,
    pub slots: &'a [Slot],
    pub trees: &'a Trees,
    pub row: &'a [u32],
    pub meetings: &'a Meetings,
    ghost width: { 1 ≤ variables.width },
    ghost width_of_ids: { ids.now.width ≡ variables.width },
    ghost slots_of_ids: { ids.now.slots ≡ variables.slots },
    ghost each: { length slots.now ≡ variables.slots },
    ghost room: { variables.slots * variables.width ≤ formula.now.cnf.vars },
    ghost are_trees: { AreTrees trees.now },
    ghost said: { HasClauses formula.now.cnf variables.width slots.now trees.now },
    ghost nets: { AreInNets slots.now trees.now },
    ghost size: { length row.now ≡ variables.width + 1 },
    ghost within: { All (λ s. s < variables.slots) row.now },
    ghost met: { AreFound slots.now trees.now row.now (length row.now) meetings.now },
}

impl<'a> Beginning<'a> {
    /// Adds the first level: for each slot of the row that it has a track, and for each two of them
    /// and each track that not both have it. What served to show it is deleted behind it.
    ///
    /// # Errors
    /// Where memory is short.
    pub fn first_level(
        &self,
        alloc: Global,
        refutation: &mut Refutation,
    ) -> Result<Level, AllocError>
        requires begun { refutation.old ≡ begun self.now.formula.now.cnf }
        requires differ { AllPairs (λ s t. s ≢ t) self.now.row.now }
        ensures level { IfOk result (IsLevel refutation.new) }
        ensures cnf { OnOk result (refutation.new.cnf ≡ refutation.old.cnf) }
    {
        let mut led = vec![in alloc; 0; self.variables.slots as usize]?;
        self.add_level(alloc, refutation, &mut led)
    }

    /// Adds it, with a row in which the ids are noted behind which the clauses of slots stand.
    fn add_level(
        &self,
        alloc: Global,
        refutation: &mut Refutation,
        led: &mut [u32],
    ) -> Result<Level, AllocError>
        requires begun { refutation.old ≡ begun self.now.formula.now.cnf }
        requires differ { AllPairs (λ s t. s ≢ t) self.now.row.now }
        requires led { length led.old ≡ self.now.variables.slots }
        ensures level { IfOk result (IsLevel refutation.new) }
        ensures cnf { OnOk result (refutation.new.cnf ≡ refutation.old.cnf) }
    {
        let begin = refutation.last_id();
        let Ok(()) = self.add_led_tracks(alloc, refutation, led) else {
            return Err(AllocError);
        };
        let behind = refutation.last_id();
        let _few = refutation.last_variable();
        let Ok(()) = self.add_some_tracks(alloc, refutation) else {
            return Err(AllocError);
        };
        let Ok(()) = self.add_pairs(refutation, led) else {
            return Err(AllocError);
        };
        let Ok(()) = refutation.erase(alloc, begin, behind) else {
            return Err(AllocError);
        };
        let Ok(firsts) = self.firsts(alloc) else {
            return Err(AllocError);
        };
        Ok(Level {
            tracks: self.variables.width,
            behind,
            firsts,
        })
    }

    /// For each slot of the row the variable that it has the first track, by its number less one.
    fn firsts(&self, alloc: Global) -> Result<Vec<u32>, AllocError>
        ensures { IfOk result (λ firsts. firsts.items
            ≡ firsts_of self.now.variables.width self.now.row.now) }
    {
        let mut firsts = Vec::new(alloc);
        for place in 0..self.row.len() {
            firsts.push(self.row[place] * self.variables.width)?;
        }
        Ok(firsts)
    }

    /// Adds for each slot on the way to a meeting and each track that it has the track where the
    /// first slot of its tree has it, but for slots to which a step leads from that one; notes for
    /// each slot the id behind which its clauses stand.
    fn add_led_tracks(
        &self,
        alloc: Global,
        refutation: &mut Refutation,
        led: &mut [u32],
    ) -> Result<(), AllocError>
        requires begun { Grows (begun self.now.formula.now.cnf) refutation.old }
        requires led { length led.old ≡ self.now.variables.slots }
        ensures each { length led.new ≡ self.now.variables.slots }
        ensures ready { OnOk result (AreReady refutation.new self.now.trees.now
            self.now.variables.width (length self.now.row.now) self.now.meetings.now led.new) }
        ensures grows { OnOk result (Grows refutation.old refutation.new) }
    {
        let passed = self.passed_slots(alloc)?;
        for slot in 0..self.variables.slots {
            let Ok(()) = self.add_passed(refutation, led, &passed, slot) else {
                return Err(AllocError);
            };
        }
        Ok(())
    }

    /// Adds the clauses of a slot that is passed, and notes the id behind which they stand.
    fn add_passed(
        &self,
        refutation: &mut Refutation,
        led: &mut [u32],
        passed: &[bool],
        slot: u32,
    ) -> Result<(), AllocError>
        requires begun { Grows (begun self.now.formula.now.cnf) refutation.old }
        requires led { length led.old ≡ self.now.variables.slots }
        requires passed { length passed.now ≡ self.now.variables.slots }
        requires slot { slot < self.now.variables.slots }
        requires closed { AreClosed self.now.trees.now 0 passed.now }
        requires before { AreLed refutation.old self.now.trees.now self.now.variables.width slot
            passed.now led.old }
        ensures each { length led.new ≡ self.now.variables.slots }
        ensures led { OnOk result (AreLed refutation.new self.now.trees.now
            self.now.variables.width (slot + 1) passed.now led.new) }
        ensures grows { OnOk result (Grows refutation.old refutation.new) }
    {
        if !passed[slot as usize] {
            return Ok(());
        }
        led[slot as usize] = refutation.last_id();
        let Ok(()) = self.add_led_track(refutation, led, slot) else {
            return Err(AllocError);
        };
        Ok(())
    }

    /// Adds the clauses of one slot, unless the slot before it is the first of its tree.
    fn add_led_track(
        &self,
        refutation: &mut Refutation,
        led: &[u32],
        slot: u32,
    ) -> Result<(), AllocError>
        requires begun { Grows (begun self.now.formula.now.cnf) refutation.old }
        requires led { length led.now ≡ self.now.variables.slots }
        requires slot { slot < self.now.variables.slots }
        requires before { (lead : Lead) → lead_at self.now.trees.now slot ≡ Some lead
            → IsLed refutation.old self.now.trees.now self.now.variables.width
            (slice_index led.now lead.from) lead.from }
        ensures led { OnOk result (IsLed refutation.new self.now.trees.now
            self.now.variables.width refutation.old.last_id slot) }
        ensures grows { OnOk result (Grows refutation.old refutation.new) }
    {
        let Some(lead) = self.trees.lead(slot) else {
            return Ok(());
        };
        let Some(before) = self.trees.lead(lead.from) else {
            return Ok(());
        };
        for track in 0..self.variables.width {
            let Ok(()) = self.add_led(refutation, led, slot, lead, before, track) else {
                return Err(AllocError);
            };
        }
        Ok(())
    }

    /// Adds that a slot has a track where the first slot of its tree has it.
    fn add_led(
        &self,
        refutation: &mut Refutation,
        led: &[u32],
        slot: u32,
        lead: Lead,
        before: Lead,
        track: u32,
    ) -> Result<(), AllocError>
        requires begun { Grows (begun self.now.formula.now.cnf) refutation.old }
        requires led { length led.now ≡ self.now.variables.slots }
        requires slot { slot < self.now.variables.slots }
        requires lead { lead_at self.now.trees.now slot ≡ Some lead }
        requires before { lead_at self.now.trees.now lead.from ≡ Some before }
        requires track { track < self.now.variables.width }
        requires led_before { IsLed refutation.old self.now.trees.now self.now.variables.width
            (slice_index led.now lead.from) lead.from }
        ensures { OnOk result (Adds refutation.old refutation.new
            (led_clause self.now.variables.width (root_at self.now.trees.now slot) slot track)) }
    {
        let root = self.trees.root(slot);
        let hints = two_hints(
            self.led_by(led, lead.from, before, track),
            self.joined(slot, lead, track),
        );
        let clause = [
            self.variables.lacks(root, track),
            self.variables.has(slot, track),
        ];
        refutation.add(&clause, &hints)
    }

    /// The id of the clause that a slot has a track where the first slot of its tree has it; `None`
    /// for that slot itself.
    fn led_track(&self, led: &[u32], slot: u32, track: u32) -> Option<u64>
        requires led { length led.now ≡ self.now.variables.slots }
        requires slot { slot < self.now.variables.slots }
        requires track { track < self.now.variables.width }
        ensures few { IfSome result (λ id. id < 2 ^ 33) }
        ensures reason { (r : RefutationState) → Grows (begun self.now.formula.now.cnf) r
            → IsLed r self.now.trees.now self.now.variables.width (slice_index led.now slot) slot
            → IsReason r self.now.variables.width (root_at self.now.trees.now slot) slot track
            result }
    {
        let Some(lead) = self.trees.lead(slot) else {
            return None;
        };
        Some(self.led_by(led, slot, lead, track))
    }

    /// The same for a slot that is come to from another: the clause of the step, if that one is the
    /// first of the tree.
    fn led_by(&self, led: &[u32], slot: u32, lead: Lead, track: u32) -> u64
        requires led { length led.now ≡ self.now.variables.slots }
        requires slot { slot < self.now.variables.slots }
        requires lead { lead_at self.now.trees.now slot ≡ Some lead }
        requires track { track < self.now.variables.width }
        ensures few { result < 2 ^ 33 }
        ensures led { (r : RefutationState) → Grows (begun self.now.formula.now.cnf) r
            → IsLed r self.now.trees.now self.now.variables.width (slice_index led.now slot) slot
            → Holds r result
            (led_clause self.now.variables.width (root_at self.now.trees.now slot) slot track) }
    {
        let Some(_) = self.trees.lead(lead.from) else {
            return self.joined(slot, lead, track);
        };
        led[slot as usize] as u64 + track as u64 + 1
    }

    /// The id of the clause that a slot has a track of the slot from which it is come to.
    fn joined(&self, slot: u32, lead: Lead, track: u32) -> u64
        requires slot { slot < self.now.variables.slots }
        requires lead { lead_at self.now.trees.now slot ≡ Some lead }
        requires track { track < self.now.variables.width }
        ensures id { IsInput self.now.formula.now.cnf result
            (led_clause self.now.variables.width lead.from slot track) }
        ensures few { result < 2 ^ 32 }
    {
        let clause = [
            self.variables.lacks(lead.from, track),
            self.variables.has(slot, track),
        ];
        clause_id(self.formula, self.ids.joined(lead.step, track), &clause)
    }

    /// The id of the clause that two slots of one cell do not both have a track.
    fn apart(&self, a: u32, b: u32, track: u32) -> u64
        requires lower { a < b }
        requires higher { b < self.now.variables.slots }
        requires track { track < self.now.variables.width }
        requires there { IsOneOf self.now.formula.now.cnf.clauses
            (apart_clause self.now.variables.width a b track) }
        ensures id { IsInput self.now.formula.now.cnf result
            (apart_clause self.now.variables.width a b track) }
        ensures few { result < 2 ^ 32 }
    {
        let clause = [
            self.variables.lacks(a, track),
            self.variables.lacks(b, track),
        ];
        clause_id(self.formula, self.ids.apart(a, b, track), &clause)
    }

    /// Marks the slots on the ways from the first slots of trees to where they meet.
    fn passed_slots(&self, alloc: Global) -> Result<Vec<bool>, AllocError>
        ensures each { IfOk result (λ passed. length passed.items ≡ self.now.variables.slots) }
        ensures marked { IfOk result (λ passed. AreMarked (length self.now.row.now)
            self.now.meetings.now passed.items) }
        ensures closed { IfOk result (λ passed. AreClosed self.now.trees.now 0 passed.items) }
    {
        let mut passed = vec![in alloc; false; self.variables.slots as usize]?;
        self.mark_passed(&mut passed);
        Ok(passed)
    }

    /// Marks them in a row.
    fn mark_passed(&self, passed: &mut [bool])
        requires each { length passed.old ≡ self.now.variables.slots }
        ensures each { length passed.new ≡ self.now.variables.slots }
        ensures marked { AreMarked (length self.now.row.now) self.now.meetings.now passed.new }
        ensures closed { AreClosed self.now.trees.now 0 passed.new }
    {
        self.mark_meetings(passed);
        self.mark_ways(passed);
    }

    /// Marks the slots in which trees meet.
    fn mark_meetings(&self, passed: &mut [bool])
        requires each { length passed.old ≡ self.now.variables.slots }
        ensures each { length passed.new ≡ self.now.variables.slots }
        ensures marked { AreMarked (length self.now.row.now) self.now.meetings.now passed.new }
    {
        for higher in 0..self.row.len() {
            self.mark_meetings_below(passed, higher);
        }
    }

    /// Marks those of one tree with each before it.
    fn mark_meetings_below(&self, passed: &mut [bool], higher: usize)
        requires each { length passed.old ≡ self.now.variables.slots }
        requires higher { higher < length self.now.row.now }
        requires marked { AreMarked higher self.now.meetings.now passed.old }
        ensures each { length passed.new ≡ self.now.variables.slots }
        ensures marked { AreMarked (higher + 1) self.now.meetings.now passed.new }
    {
        for lower in 0..higher {
            let meeting = self.meetings.of(lower, higher);
            passed[meeting.lower as usize] = true;
            passed[meeting.higher as usize] = true;
        }
    }

    /// Marks the slots on the ways to those that are marked.
    fn mark_ways(&self, passed: &mut [bool])
        requires each { length passed.old ≡ self.now.variables.slots }
        ensures each { length passed.new ≡ self.now.variables.slots }
        ensures kept { KeepsMarks passed.old passed.new }
        ensures closed { AreClosed self.now.trees.now 0 passed.new }
    {
        for slot in (0..self.variables.slots).rev() {
            self.mark_way(passed, slot);
        }
    }

    /// Marks the slot from which one is come to that is marked.
    fn mark_way(&self, passed: &mut [bool], slot: u32)
        requires each { length passed.old ≡ self.now.variables.slots }
        requires slot { slot < self.now.variables.slots }
        requires closed { AreClosed self.now.trees.now (slot + 1) passed.old }
        ensures each { length passed.new ≡ self.now.variables.slots }
        ensures kept { KeepsMarks passed.old passed.new }
        ensures closed { AreClosed self.now.trees.now slot passed.new }
    {
        if !passed[slot as usize] {
            return;
        }
        let Some(lead) = self.trees.lead(slot) else {
            return;
        };
        passed[lead.from as usize] = true;
    }

    /// Adds for each slot of the row that it has a track.
    fn add_some_tracks(&self, alloc: Global, refutation: &mut Refutation) -> Result<(), AllocError>
        requires begun { Grows (begun self.now.formula.now.cnf) refutation.old }
        ensures { OnOk result (AddsRow refutation.old refutation.new
            (self.now.variables.width + 1)
            (some_of self.now.variables.width self.now.row.now)) }
    {
        for place in 0..self.variables.width + 1 {
            let Ok(()) = self.add_some_track(alloc, refutation, place) else {
                return Err(AllocError);
            };
        }
        Ok(())
    }

    /// Adds that a slot has a track.
    fn add_some_track(
        &self,
        alloc: Global,
        refutation: &mut Refutation,
        place: u32,
    ) -> Result<(), AllocError>
        requires begun { Grows (begun self.now.formula.now.cnf) refutation.old }
        requires place { place ≤ self.now.variables.width }
        ensures { OnOk result (Adds refutation.old refutation.new
            (some_of self.now.variables.width self.now.row.now place)) }
    {
        let slot = self.row[place as usize];
        let Ok(clause) = self.some_track(alloc, slot) else {
            return Err(AllocError);
        };
        let hints = one_hint(clause_id(self.formula, self.ids.some_track(slot), &clause));
        refutation.add(&clause, &hints)
    }

    /// The clause that a slot has a track.
    fn some_track(&self, alloc: Global, slot: u32) -> Result<Vec<Lit>, AllocError>
        requires { slot < self.now.variables.slots }
        ensures { IfOk result (λ clause. clause.items
            ≡ some_clause (slot * self.now.variables.width) self.now.variables.width) }
    {
        let mut clause = Vec::new(alloc);
        for track in 0..self.variables.width {
            clause.push(self.variables.has(slot, track))?;
        }
        Ok(clause)
    }

    /// Adds for each two slots of the row and each track that not both have it.
    fn add_pairs(&self, refutation: &mut Refutation, led: &[u32]) -> Result<(), AllocError>
        requires begun { Grows (begun self.now.formula.now.cnf) refutation.old }
        requires led { length led.now ≡ self.now.variables.slots }
        requires ready { AreReady refutation.old self.now.trees.now self.now.variables.width
            (length self.now.row.now) self.now.meetings.now led.now }
        ensures { OnOk result (AddsPairs refutation.old refutation.new
            (self.now.variables.width + 1) self.now.variables.width
            (apart_of self.now.variables.width self.now.row.now)) }
    {
        for higher in 0..self.variables.width + 1 {
            let Ok(()) = self.add_pairs_below(refutation, led, higher) else {
                return Err(AllocError);
            };
        }
        Ok(())
    }

    /// Adds those of one slot and each before it.
    fn add_pairs_below(
        &self,
        refutation: &mut Refutation,
        led: &[u32],
        higher: u32,
    ) -> Result<(), AllocError>
        requires begun { Grows (begun self.now.formula.now.cnf) refutation.old }
        requires led { length led.now ≡ self.now.variables.slots }
        requires ready { AreReady refutation.old self.now.trees.now self.now.variables.width
            (length self.now.row.now) self.now.meetings.now led.now }
        requires higher { higher ≤ self.now.variables.width }
        ensures { OnOk result (AddsRows refutation.old refutation.new higher
            self.now.variables.width (λ lower.
            apart_of self.now.variables.width self.now.row.now lower higher)) }
    {
        for lower in 0..higher {
            let Ok(()) = self.add_pairs_of(refutation, led, lower, higher) else {
                return Err(AllocError);
            };
        }
        Ok(())
    }

    /// Adds those of two slots.
    fn add_pairs_of(
        &self,
        refutation: &mut Refutation,
        led: &[u32],
        lower: u32,
        higher: u32,
    ) -> Result<(), AllocError>
        requires begun { Grows (begun self.now.formula.now.cnf) refutation.old }
        requires led { length led.now ≡ self.now.variables.slots }
        requires ready { AreReady refutation.old self.now.trees.now self.now.variables.width
            (length self.now.row.now) self.now.meetings.now led.now }
        requires lower { lower < higher }
        requires higher { higher ≤ self.now.variables.width }
        ensures { OnOk result (AddsRow refutation.old refutation.new self.now.variables.width
            (apart_of self.now.variables.width self.now.row.now lower higher)) }
    {
        for track in 0..self.variables.width {
            let Ok(()) = self.add_pair(refutation, led, lower, higher, track) else {
                return Err(AllocError);
            };
        }
        Ok(())
    }

    /// Adds that two slots do not both have a track: where they had it, the slots in which their
    /// trees meet would both have it.
    fn add_pair(
        &self,
        refutation: &mut Refutation,
        led: &[u32],
        lower: u32,
        higher: u32,
        track: u32,
    ) -> Result<(), AllocError>
        requires begun { Grows (begun self.now.formula.now.cnf) refutation.old }
        requires led { length led.now ≡ self.now.variables.slots }
        requires ready { AreReady refutation.old self.now.trees.now self.now.variables.width
            (length self.now.row.now) self.now.meetings.now led.now }
        requires lower { lower < higher }
        requires higher { higher ≤ self.now.variables.width }
        requires track { track < self.now.variables.width }
        ensures { OnOk result (Adds refutation.old refutation.new
            (apart_of self.now.variables.width self.now.row.now lower higher track)) }
    {
        let meeting = self.meetings.of(lower as usize, higher as usize);
        let hints = chained(
            self.led_track(led, meeting.lower, track),
            self.led_track(led, meeting.higher, track),
            self.met(meeting, track),
        );
        let clause = [
            self.variables.lacks(self.row[lower as usize], track),
            self.variables.lacks(self.row[higher as usize], track),
        ];
        refutation.add(&clause, &hints)
    }

    /// The id of the clause that the slots in which two trees meet do not both have a track.
    fn met(&self, meeting: Meeting, track: u32) -> u64
        requires track { track < self.now.variables.width }
        requires meeting { (a : ℕ) × (b : ℕ)
            × IsMeeting self.now.slots.now self.now.trees.now a b meeting }
        ensures id { IsMet self.now.formula.now.cnf self.now.variables.width track meeting result }
        ensures few { result < 2 ^ 32 }
    {
        if meeting.lower < meeting.higher {
            return self.apart(meeting.lower, meeting.higher, track);
        }
        self.apart(meeting.higher, meeting.lower, track)
    }
}

/// The hints for the reasons that there are, and for the last clause.
fn chained(lower: Option<u64>, higher: Option<u64>, last: u64) -> ArrayVec<i64, 3>
    requires lower { IfSome lower (λ id. id < 2 ^ 33) }
    requires higher { IfSome higher (λ id. id < 2 ^ 33) }
    requires last { last < 2 ^ 33 }
    ensures { result.items ≡ chain_hints lower higher last }
{
    let mut hints = ArrayVec::new();
    push_reason(&mut hints, lower);
    push_reason(&mut hints, higher);
    hints.push(hint(last));
    hints
}

/// Pushes the hint for a reason, if there is one.
fn push_reason(hints: &mut ArrayVec<i64, 3>, reason: Option<u64>)
    requires room { length hints.old.items < 3 }
    requires reason { IfSome reason (λ id. id < 2 ^ 33) }
    ensures { hints.new.items ≡ hints.old.items ++ reason_hints reason }
{
    let Some(id) = reason else {
        return;
    };
    hints.push(hint(id));
}

/// The hints for two clauses.
fn two_hints(first: u64, second: u64) -> [i64; 2]
    requires first { first < 2 ^ 33 }
    requires second { second < 2 ^ 33 }
    ensures { result ≡ pos first ∷ pos second ∷ [] }
{
    [hint(first), hint(second)]
}

/// The hint for one clause.
fn one_hint(id: u64) -> [i64; 1]
    requires { id < 2 ^ 33 }
    ensures { result ≡ pos id ∷ [] }
{
    [hint(id)]
}

/// An id as a hint.
fn hint(id: u64) -> i64
    requires { id < 2 ^ 33 }
    ensures { result ≡ pos id }
{
    id as i64
}
