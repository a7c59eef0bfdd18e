//! The literals that a search has made true, in order.

ghost use Rattle.std.specs.Prelude.{◌≡◌, ◌≢◌, ◌+◌, ◌*◌, ◌≤◌, ◌∷◌, [], ℕ, length, drop, map, reverse, slice_index_or, slice_set, true, false, ◌<◌, IfNone, IfOk, IfSome, None, Some};
ghost use Rattle.sat_clause.specs.Literal.{IsLiteral, IsWithin, is_among, negation};
ghost use Rattle.sat_arena.specs.Compact.{AreRising, moved_by};
ghost use Rattle.sat_watch.specs.Delete.{entry_moved};
ghost use Rattle.sat_watch.specs.Relinking.{AreNear};
ghost use Rattle.sat_watch.specs.Trail.{IsOpen, fallen, falses, place_in, value_in};
ghost use Rattle.sat_watch.specs.TrailStore.{place_of};
ghost use Rattle.sat_watch.specs.Watched.{true_at};

use crate::entry::TrailEntry;
use crate::maybe_clause::MaybeClause;
use sat_arena::Moves;
use sat_clause::{Lit, VARIABLE_LIMIT};
use std::alloc::{AllocError, Global};
use std::marker::Model;

/// The true literals with their levels and reasons, oldest first, each of another variable. Beside
/// them stand the truth of each literal and the place of each variable, each one load away. Nothing
/// but [`Trail::new`] takes memory.
#[derive(Drop)]
pub(crate) struct Trail {
    vars: u32,
    entries: Vec<TrailEntry>,
    truths: Vec<u8>,
    places: Vec<u32>,
}

impl Model for Trail {
    ghost use Rattle.sat_watch.specs.Trail.{TrailState};
    ghost use Rattle.sat_watch.specs.TrailStore.{IsTrailStore, trail_state};

    ghost Value = { TrailState };

    ghost view = { λ t. trail_state t.vars t.entries };

    ghost invariant = { λ t. IsTrailStore t.vars t.entries t.truths t.places };
}

/// The place of a literal in a table of all literals, whose middle belongs to none. Neighbours of
/// one sign stand side by side: propagation comes to many of them at a time.
pub(crate) fn place(vars: u32, l: Lit) -> usize
    requires few { vars ≤ VARIABLE_LIMIT }
    requires within { IsWithin vars l }
    ensures { result ≡ place_of vars l }
{
    (vars as i32 + l.code) as usize
}

/// Writes the truth of a literal and that of its negation into the table of truths.
fn tell(truths: &mut [u8], vars: u32, l: Lit, truth: u8, opposite: u8)
    requires few { vars ≤ VARIABLE_LIMIT }
    requires within { IsWithin vars l }
    requires wide { length truths.old ≡ vars * 2 + 1 }
    ensures { truths.new ≡ slice_set (slice_set truths.old (place_of vars l) truth)
        (place_of vars (negation l)) opposite }
{
    truths[place(vars, l)] = truth;
    truths[place(vars, l.negation())] = opposite;
}

/// The entry with its reason at the reference that the moves give for it.
fn moved(entry: TrailEntry, moves: &Moves) -> TrailEntry
    requires rising { AreRising 0 moves.now }
    requires near { AreNear moves.now }
    ensures { result ≡ entry_moved (moved_by moves.now) entry }
{
    let Some(reason) = entry.reason.clause() else {
        return entry;
    };
    TrailEntry {
        reason: MaybeClause::of(moves.after(reason)),
        ..entry
    }
}

/// Moves the reasons of all these entries.
fn move_all(entries: &mut [TrailEntry], moves: &Moves)
    requires rising { AreRising 0 moves.now }
    requires near { AreNear moves.now }
    ensures { entries.new ≡ map (entry_moved (moved_by moves.now)) entries.old }
{
    for entry in entries.iter_mut() {
        *entry = moved(*entry, moves);
    }
}

impl Trail {
    /// The trail of so many variables on which nothing stands.
    pub(crate) fn new(alloc: Global, vars: u32) -> Result<Trail, AllocError>
        requires { vars ≤ VARIABLE_LIMIT }
        ensures { IfOk result (λ t. t ≡ record { vars = vars; entries = [] }) }
    {
        Ok(Trail {
            vars,
            entries: Vec::with_capacity(alloc, vars as usize)?,
            truths: vec![in alloc; 0; vars as usize * 2 + 1]?,
            places: vec![in alloc; 0; vars as usize]?,
        })
    }

    /// Whether the literal is false.
    pub(crate) fn is_false(&self, l: Lit) -> bool
        requires { IsWithin self.now.vars l }
        ensures { result ≡ is_among (falses self.now.entries) l }
    {
        self.truths[place(self.vars, l)] == 2
    }

    /// Whether the literal is true.
    pub(crate) fn is_true(&self, l: Lit) -> bool
        requires { IsWithin self.now.vars l }
        ensures { result ≡ is_among (falses self.now.entries) (negation l) }
    {
        self.truths[place(self.vars, l)] == 1
    }

    /// How many literals stand on it.
    pub(crate) fn len(&self) -> u32
        ensures { result ≡ length self.now.entries }
    {
        self.entries.len() as u32
    }

    /// Its entries, oldest first.
    pub(crate) fn entries(&self) -> &[TrailEntry]
        ensures { reverse result.now ≡ self.now.entries }
    {
        &self.entries
    }

    /// Puts a literal on it whose variable is open.
    pub(crate) fn push(&mut self, entry: TrailEntry)
        requires within { IsWithin self.old.vars entry.lit }
        requires open { IsOpen self.old.entries entry.lit }
        ensures vars { self.new.vars ≡ self.old.vars }
        ensures entries { self.new.entries ≡ entry ∷ self.old.entries }
    {
        let l = entry.lit;
        let older = self.len();
        let vars = self.vars;
        let truths: &mut [u8] = &mut self.truths;
        self.entries.push_reserved(entry);
        tell(truths, vars, l, 1, 2);
        self.places[l.variable() as usize - 1] = older;
    }

    /// Takes the newest entry off, if there is one.
    pub(crate) fn pop(&mut self) -> Option<TrailEntry>
        ensures vars { self.new.vars ≡ self.old.vars }
        ensures some { IfSome result (λ entry. self.old.entries ≡ entry ∷ self.new.entries) }
        ensures none { IfNone result (self.old.entries ≡ []) }
    {
        let Some(entry) = self.entries.pop() else {
            return None;
        };
        tell(&mut self.truths, self.vars, entry.lit, 0, 0);
        Some(entry)
    }

    /// The literal's truth, and none where it is open.
    pub(crate) fn value(&self, l: Lit) -> Option<bool>
        requires { IsWithin self.now.vars l }
        ensures { result ≡ value_in self.now.entries l }
    {
        let truth = self.truths[place(self.vars, l)];
        if truth == 2 {
            return Some(false);
        }
        if truth == 1 {
            return Some(true);
        }
        None
    }

    /// The level at which a literal was made true or false.
    pub(crate) fn level_of(&self, l: Lit) -> u32
        requires { IsWithin self.now.vars l }
        ensures is_true { (n : ℕ) → true_at self.now.entries l ≡ Some n → result ≡ n }
        ensures is_false { (n : ℕ) → true_at self.now.entries (negation l) ≡ Some n → result ≡ n }
    {
        let older = self.places[l.variable() as usize - 1];
        let Some(entry) = self.entries.get(older as usize) else {
            return 0;
        };
        entry.level
    }

    /// How many entries are older than the one of a literal's variable, which has a value.
    pub(crate) fn place(&self, l: Lit) -> u32
        requires within { IsWithin self.now.vars l }
        requires valued { value_in self.now.entries l ≢ None }
        ensures { place_in self.now.entries l ≡ Some result }
    {
        self.places[l.variable() as usize - 1]
    }

    /// The entry that so many newer ones stand before.
    pub(crate) fn at(&self, newer: u32) -> TrailEntry
        requires { newer < length self.now.entries }
        ensures value { slice_index_or self.now.entries newer result ≡ result }
        ensures within { IsWithin self.now.vars result.lit }
        ensures literal { IsLiteral result.lit }
    {
        self.entries[self.entries.len() - (newer as usize + 1)]
    }

    /// Takes off the entries of a level above this one, the newest first, up to one that is not.
    pub(crate) fn fall_to(&mut self, level: u32)
        ensures vars { self.new.vars ≡ self.old.vars }
        ensures entries { self.new.entries ≡ fallen level self.old.entries }
    {
        while self.is_above(level) {
            let _entry = self.pop();
        }
    }

    /// Moves each reason to the reference that the moves give for it.
    pub(crate) fn move_reasons(&mut self, moves: &Moves)
        requires rising { AreRising 0 moves.now }
        requires near { AreNear moves.now }
        ensures vars { self.new.vars ≡ self.old.vars }
        ensures entries { self.new.entries
            ≡ map (entry_moved (moved_by moves.now)) self.old.entries }
    {
        move_all(&mut self.entries, moves);
    }

    /// Whether the newest entry is of a level above this one.
    fn is_above(&self, level: u32) -> bool
        ensures above { result ≡ true
            → fallen level self.now.entries ≡ fallen level (drop 1 self.now.entries) }
        ensures some { result ≡ true → 1 ≤ length self.now.entries }
        ensures done { result ≡ false → fallen level self.now.entries ≡ self.now.entries }
    {
        if self.entries.is_empty() {
            return false;
        }
        self.at(0).level > level
    }
}
