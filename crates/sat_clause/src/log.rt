//! Logs of steps, as one vector for each part of a step and where each part ends in another.

ghost use Rattle.std.specs.Prelude.{◌≡◌, ◌+◌, ◌-◌, ◌<◌, ◌≤◌, [], ◌∷◌, ◌++◌, length, max, All, OnOk, OnErr, Some, slice_get, IsTrue, if◌then◌else◌};
ghost use Rattle.sat_clause.specs.Literal.{IsLiteral};
ghost use Rattle.sat_clause.specs.LogStore.{step_of};
ghost use Rattle.sat_clause.specs.Step.{Added, Erased};

use crate::Lit;
use crate::parts::part;
use std::alloc::{AllocError, Global};
use std::marker::Model;

/// A step of a log, as LRAT has them: it adds a clause with hints, or deletes clauses.
#[derive(Clone, Copy)]
pub struct StepView<'a> {
    /// The id of the added clause; of a deletion, a number that says nothing.
    pub id: u32,
    /// Whether it is a deletion.
    pub erase: bool,
    /// The literals of the added clause; of a deletion, none.
    pub lits: &'a [Lit],
    /// The ids of the clauses that justify the added one, in order; of a deletion, the ids that it
    /// deletes. An id that is zero or negative names no clause.
    pub hints: &'a [i64],
}

/// A step's id, and whether it is a deletion.
#[derive(Clone, Copy)]
struct Head {
    id: u32,
    erase: bool,
}

/// A log: in order, steps that add a clause with hints or delete clauses.
///
/// Only [`Log::reserve`] takes memory. It makes room for steps and for their numbers, and each step
/// that is added uses some of it up.
#[derive(Drop)]
pub struct Log {
    heads: Vec<Head>,
    lits: Vec<Lit>,
    lit_ends: Vec<u32>,
    numbers: Vec<i64>,
    number_ends: Vec<u32>,
    step_room: u64,
    number_room: u64,
}

impl Model for Log {
    ghost use Rattle.sat_clause.specs.Parts.{parts_from};
    ghost use Rattle.sat_clause.specs.LogStore.{LogState, IsLogStore, steps_of};

    ghost Value = { LogState };

    ghost view = { λ l. record {
      steps = steps_of l.heads.items
          (parts_from 0 l.lits.items l.lit_ends.items)
          (parts_from 0 l.numbers.items l.number_ends.items);
      step_room = l.step_room;
      number_room = l.number_room;
    } };

    ghost invariant = { λ l.
        IsLogStore l.heads l.lits l.lit_ends l.numbers l.number_ends l.step_room l.number_room };
}

impl Log {
    /// The log without steps. It has no room, and takes no memory.
    pub fn new(alloc: Global) -> Log
        ensures { result ≡ record { steps = []; step_room = 0; number_room = 0 } }
    {
        Log {
            heads: Vec::new(alloc),
            lits: Vec::new(alloc),
            lit_ends: Vec::new(alloc),
            numbers: Vec::new(alloc),
            number_ends: Vec::new(alloc),
            step_room: 0,
            number_room: 0,
        }
    }

    /// Makes room for so many more steps, and for so many more literals, hints and deleted ids in
    /// all. Room that is there already stays, so two calls make room for the larger number of each.
    ///
    /// # Errors
    /// Where memory is short, or the literals or the hints and ids would be more than
    /// 4,294,967,295; the log is then as it was.
    pub fn reserve(&mut self, steps: u64, numbers: u64) -> Result<(), AllocError>
        ensures kept { self.new.steps ≡ self.old.steps }
        ensures steps { OnOk result (self.new.step_room ≡ max self.old.step_room steps) }
        ensures numbers { OnOk result (self.new.number_room ≡ max self.old.number_room numbers) }
        ensures err { OnErr result (self.new ≡ self.old) }
    {
        let most = self.lits.len().max(self.numbers.len()) as u64;
        if numbers > 4294967295 - most {
            return Err(AllocError);
        }
        self.heads.reserve(steps as usize)?;
        self.lit_ends.reserve(steps as usize)?;
        self.number_ends.reserve(steps as usize)?;
        self.lits.reserve(numbers as usize)?;
        self.numbers.reserve(numbers as usize)?;
        self.step_room = self.step_room.max(steps);
        self.number_room = self.number_room.max(numbers);
        Ok(())
    }

    /// Adds a step at the end that adds a clause under an id, with hints. There is room for it. It
    /// can't be refused: ids may repeat, and hints may name nothing.
    pub fn add(&mut self, id: u32, lits: &[Lit], hints: &[i64])
        requires literals { All IsLiteral lits.now }
        requires step_room { 1 ≤ self.old.step_room }
        requires number_room { length lits.now + length hints.now ≤ self.old.number_room }
        ensures steps { self.new.steps ≡ self.old.steps ++ Added id lits.now hints.now ∷ [] }
        ensures step_room { self.new.step_room ≡ self.old.step_room - 1 }
        ensures number_room { self.new.number_room
            ≡ self.old.number_room - (length lits.now + length hints.now) }
    {
        self.push_step(Head { id, erase: false }, lits, hints);
    }

    /// Adds a step at the end that deletes the clauses with these ids, in order, behind a number
    /// that says nothing. There is room for it, and it can't be refused.
    pub fn erase(&mut self, id: u32, ids: &[i64])
        requires step_room { 1 ≤ self.old.step_room }
        requires number_room { length ids.now ≤ self.old.number_room }
        ensures steps { self.new.steps ≡ self.old.steps ++ Erased id ids.now ∷ [] }
        ensures step_room { self.new.step_room ≡ self.old.step_room - 1 }
        ensures number_room { self.new.number_room ≡ self.old.number_room - length ids.now }
    {
        self.push_step(Head { id, erase: true }, &[], ids);
    }

    /// Adds a step at the end. There is room for it.
    fn push_step(&mut self, head: Head, lits: &[Lit], numbers: &[i64])
        requires literals { All IsLiteral lits.now }
        requires step_room { 1 ≤ self.old.step_room }
        requires number_room { length lits.now + length numbers.now ≤ self.old.number_room }
        ensures steps { self.new.steps
            ≡ self.old.steps ++ step_of head lits.now numbers.now ∷ [] }
        ensures step_room { self.new.step_room ≡ self.old.step_room - 1 }
        ensures number_room { self.new.number_room
            ≡ self.old.number_room - (length lits.now + length numbers.now) }
    {
        self.heads.push_reserved(head);
        let Ok(()) = self.lits.extend_from_slice(lits) else {
            unreachable!();
        };
        self.lit_ends.push_reserved(self.lits.len() as u32);
        let Ok(()) = self.numbers.extend_from_slice(numbers) else {
            unreachable!();
        };
        self.number_ends.push_reserved(self.numbers.len() as u32);
        self.step_room -= 1;
        self.number_room -= (lits.len() + numbers.len()) as u64;
    }

    /// The number of steps.
    pub fn len(&self) -> u64
        ensures { result ≡ length self.now.steps }
    {
        self.heads.len() as u64
    }

    /// The number that a next step would have, where steps are counted from 1.
    pub fn next_number(&self) -> u64
        ensures { result ≡ length self.now.steps + 1 }
    {
        self.heads.len() as u64 + 1
    }

    /// The step at a position, counted from 0.
    pub fn step(&self, i: u64) -> StepView<'_>
        requires { i < length self.now.steps }
        ensures value { slice_get self.now.steps i ≡ Some (if result.erase
            then Erased result.id result.hints.now
            else Added result.id result.lits.now result.hints.now) }
        ensures literals { All IsLiteral result.lits.now }
        ensures none { IsTrue result.erase → result.lits.now ≡ [] }
    {
        let at = i as usize;
        let head = self.heads[at];
        let lits = part(&self.lits, &self.lit_ends, at);
        let hints = part(&self.numbers, &self.number_ends, at);
        if head.erase {
            return StepView {
                id: head.id,
                erase: true,
                lits: &[],
                hints,
            };
        }
        StepView {
            id: head.id,
            erase: false,
            lits,
            hints,
        }
    }
}
