//! Clauses, the literals that are true, and what the clauses make true.

ghost use Rattle.std.specs.Prelude.{◌≡◌, ◌≢◌, ◌+◌, ◌-◌, ◌<◌, ◌≤◌, [], ◌∷◌, All, IfNone, IfOk, IfSome, OnErr, OnOk, length, reverse, true, false, None, Some};
ghost use Rattle.sat_clause.specs.declared.literal.Lit.{Lit};
ghost use Rattle.sat_clause.specs.Learned.{IsSimple};
ghost use Rattle.sat_clause.specs.Literal.{IsWithin};
ghost use Rattle.sat_watch.specs.Chains.{lit_at};
ghost use Rattle.sat_watch.specs.Choice.{IsAttachedAs, IsTrueAt};
ghost use Rattle.sat_watch.specs.Delete.{IsNoReason, OthersMove, OthersStay, deleted};
ghost use Rattle.sat_watch.specs.Levels.{pending_without as pending_without_of};
ghost use Rattle.sat_watch.specs.Trail.{AreWithin, IsOpen, IsOnce, place_in, value_in};
ghost use Rattle.sat_watch.specs.Watched.{IsReason, is_false, true_at, AreFalse};
ghost use Rattle.sat_watch.specs.Watches.{AreInPlace, Attaches, HasLevels, HasVisited, IsOnlyOne, MayAttach, highest, IsPropagatedAt, IsPropagatedState, IsWithinVisits, Propagates, assumed, attached_behind, first_attached, gone_back, id_at, implied, is_attached, left_queued, lits_at, watcher_count};

use crate::chains::Chains;
use crate::choice::{free_position, highest_position};
use crate::entry::TrailEntry;
use crate::maybe_clause::MaybeClause;
use crate::trail::Trail;
use crate::visit::walk;
use sat_arena::{Arena, ClauseRef};
use sat_clause::{LITERAL_LIMIT, Lit, VARIABLE_LIMIT};
use std::alloc::{AllocError, Global};
use std::marker::Model;

/// Clauses with their watch chains, and the *trail* of the literals that are true.
///
/// Decisions are counted by *levels*. The newest entries of the trail are *queued*: the chains of
/// their negations are not walked yet. One clause may be *pending*: it was attached where it makes
/// a literal true, and [`Watches::imply`] comes next to do so. At each level below the current one
/// the clauses are *propagated*, that is, none is false and none has one open literal and all
/// others false; and so they are at the current level, where nothing is queued or pending.
///
/// Only [`Watches::new`], [`Watches::attach`] and [`Watches::delete`] take memory.
#[derive(Drop)]
pub struct Watches {
    chains: Chains,
    trail: Trail,
    queued: u32,
    level: u32,
    pending: Option<ClauseRef>,
}

impl Model for Watches {
    ghost use Rattle.sat_watch.specs.Watches.{IsWatches, WatchState, watch_state};

    ghost Value = { WatchState };

    ghost view = { λ w. watch_state w.chains w.trail w.queued w.level w.pending };

    ghost invariant = { λ w. IsWatches w.chains w.trail w.queued w.level w.pending };
}

/// What is pending once a clause has made a literal true.
fn pending_without(reason: ClauseRef, pending: Option<ClauseRef>) -> Option<ClauseRef>
    ensures { result ≡ pending_without_of reason pending }
{
    let Some(c) = pending else {
        return None;
    };
    if reason.word == c.word {
        return None;
    }
    Some(c)
}

impl Watches {
    /// The watches of the variables 1 to `vars`, with no clause, in an arena that has none yet.
    /// There are at most 100,000,000 variables. Time and memory are linear in their number.
    ///
    /// # Errors
    /// Where there is no memory for the tables; the arena is then dropped.
    pub fn new(alloc: Global, arena: Arena, vars: u32) -> Result<Watches, AllocError>
        requires empty { arena.clauses ≡ [] }
        requires few { vars ≤ VARIABLE_LIMIT }
        ensures { IfOk result (λ w. w ≡ record {
          vars = vars;
          clauses = [];
          trail = [];
          queued = 0;
          level = 0;
          pending = None;
        }) }
    {
        let chains = Chains::new(alloc, arena, vars)?;
        let trail = Trail::new(alloc, vars)?;
        Ok(Watches {
            chains,
            trail,
            queued: 0,
            level: 0,
            pending: None,
        })
    }

    /// A literal's truth, and none where it is open. It costs one load.
    pub fn value(&self, l: Lit) -> Option<bool>
        requires within { IsWithin self.now.vars l }
        ensures value { result ≡ value_in self.now.trail l }
        ensures open { IfNone result (IsOpen self.now.trail l) }
    {
        self.trail.value(l)
    }

    /// The place on the trail of a literal's variable, which has a value: the oldest entry is at 0.
    /// It costs one load.
    pub fn place(&self, l: Lit) -> u32
        requires within { IsWithin self.now.vars l }
        requires valued { value_in self.now.trail l ≢ None }
        ensures place { place_in self.now.trail l ≡ Some result }
        ensures within { result < self.now.vars }
    {
        self.trail.place(l)
    }

    /// The current level: how many decisions stand on the trail.
    pub fn level(&self) -> u32
        ensures value { result ≡ self.now.level }
        ensures propagated { IsPropagatedState self.now }
    {
        self.level
    }

    /// The true literals, the oldest first, lent where they stand. No variable comes twice. The
    /// levels do not fall along the trail, each from 1 on begins with its decision, and each other
    /// entry has a reason whose other literals are false by older entries.
    pub fn trail(&self) -> &[TrailEntry]
        ensures value { reverse result.now ≡ self.now.trail }
        ensures once { IsOnce self.now.trail }
        ensures within { AreWithin self.now.vars self.now.trail }
        ensures levels { HasLevels self.now.clauses self.now.level self.now.trail }
        ensures queue { self.now.queued ≤ length self.now.trail }
    {
        self.trail.entries()
    }

    /// The literals of a clause, lent where they stand; the first two are watched. It costs one
    /// load. The first clause has the reference 0, and each next one stands behind the literals of
    /// the one before and 6 words, so that all are found by their lengths.
    pub fn lits(&self, c: ClauseRef) -> &[Lit]
        requires attached { is_attached self.now.clauses c ≡ true }
        ensures value { result.now ≡ lits_at self.now.clauses c }
        ensures simple { IsSimple self.now.vars result.now }
        ensures placed { AreInPlace 0 self.now.clauses }
    {
        self.chains.lits(c)
    }

    /// The id of a clause. It costs one load.
    pub fn id(&self, c: ClauseRef) -> u32
        requires attached { is_attached self.now.clauses c ≡ true }
        ensures value { result ≡ id_at self.now.clauses c }
    {
        self.chains.id(c)
    }

    /// The clause that stands first, and none where there is no clause. With [`Watches::behind`]
    /// all clauses are come by, each once, by rising references.
    pub fn first(&self) -> Option<ClauseRef>
        ensures value { result ≡ first_attached self.now.clauses }
        ensures placed { AreInPlace 0 self.now.clauses }
    {
        self.chains.first()
    }

    /// The clause that stands right behind this one, and none behind the last. It costs one load.
    pub fn behind(&self, c: ClauseRef) -> Option<ClauseRef>
        requires attached { is_attached self.now.clauses c ≡ true }
        ensures { result ≡ first_attached (attached_behind self.now.clauses c) }
    {
        self.chains.behind(c)
    }

    /// Attaches a clause two of whose literals, at positions `i` and `j`, are not false.
    fn attach_free(
        &mut self,
        lits: &[Lit],
        id: u32,
        i: u32,
        j: u32,
    ) -> Result<ClauseRef, AllocError>
        requires simple { IsSimple self.old.vars lits.now }
        requires few { length lits.now ≤ LITERAL_LIMIT }
        requires quiet { self.old.pending ≡ None }
        requires i { i < length lits.now }
        requires j { j < length lits.now }
        requires other { j ≢ i }
        requires free_i { is_false self.old.trail (lit_at lits.now i) ≡ false }
        requires free_j { is_false self.old.trail (lit_at lits.now j) ≡ false }
        ensures ok { IfOk result (λ c. IsAttachedAs self.old self.new lits.now id None c) }
        ensures err { OnErr result (self.new ≡ self.old) }
    {
        let c = self.chains.add_ahead(lits, id, i, j)?;
        Ok(c)
    }

    /// Attaches a clause whose literal at position `i` is true, and whose others are false.
    fn attach_true(&mut self, lits: &[Lit], id: u32, i: u32) -> Result<ClauseRef, AllocError>
        requires simple { IsSimple self.old.vars lits.now }
        requires few { length lits.now ≤ LITERAL_LIMIT }
        requires quiet { self.old.pending ≡ None }
        requires i { i < length lits.now }
        requires only { IsOnlyOne self.old.trail lits.now (lit_at lits.now i) }
        requires is_true { IsTrueAt self.old.trail lits.now i }
        ensures ok { IfOk result (λ c. IsAttachedAs self.old self.new lits.now id None c) }
        ensures err { OnErr result (self.new ≡ self.old) }
    {
        let j = highest_position(&self.trail, lits, i);
        let c = self.chains.add_ahead(lits, id, i, j)?;
        Ok(c)
    }

    /// Attaches a clause whose literal at position `i` is open, and whose others are false, the
    /// newest since the current level. The clause is pending.
    fn attach_pending(&mut self, lits: &[Lit], id: u32, i: u32) -> Result<ClauseRef, AllocError>
        requires simple { IsSimple self.old.vars lits.now }
        requires few { length lits.now ≤ LITERAL_LIMIT }
        requires quiet { self.old.pending ≡ None }
        requires i { i < length lits.now }
        requires only { IsOnlyOne self.old.trail lits.now (lit_at lits.now i) }
        requires is_open { true_at self.old.trail (lit_at lits.now i) ≡ None }
        requires level { self.old.level ≡ highest self.old.trail lits.now }
        ensures ok { IfOk result (λ c. IsAttachedAs self.old self.new lits.now id (Some c) c) }
        ensures err { OnErr result (self.new ≡ self.old) }
    {
        let j = highest_position(&self.trail, lits, i);
        let c = self.chains.add_ahead(lits, id, i, j)?;
        self.pending = Some(c);
        Ok(c)
    }

    /// Attaches a clause behind the others, in an order of its literals that puts the watched ones
    /// first, and gives its reference. It has at least one literal, and no variable twice.
    ///
    /// Two of its literals are not false; or one alone, which is true at a level not above the
    /// highest of the others; or one alone, which is open, and the current level is the highest of
    /// the others. Without others that highest level is 0. In the last case the clause is pending.
    /// It costs a few loads a literal, beside the room in the arena.
    ///
    /// # Errors
    /// Where there is no memory for the clause; nothing has changed then.
    pub fn attach(&mut self, lits: &[Lit], id: u32) -> Result<ClauseRef, AllocError>
        requires simple { IsSimple self.old.vars lits.now }
        requires quiet { self.old.pending ≡ None }
        requires may { MayAttach self.old lits.now }
        ensures ok { IfOk result (λ c. Attaches self.old self.new lits.now id c) }
        ensures err { OnErr result (self.new ≡ self.old) }
    {
        let Some(i) = free_position(&self.trail, lits, 0) else {
            unreachable!()
        };
        if let Some(j) = free_position(&self.trail, lits, i + 1) {
            return self.attach_free(lits, id, i, j);
        }
        if self.trail.is_false(lits[i as usize].negation()) {
            return self.attach_true(lits, id, i);
        }
        self.attach_pending(lits, id, i)
    }

    /// Decides an open literal: a level begins with it, and it is queued. Nothing is queued or
    /// pending before. It takes constant time.
    pub fn assume(&mut self, l: Lit)
        requires within { IsWithin self.old.vars l }
        requires open { IsOpen self.old.trail l }
        requires empty { self.old.queued ≡ 0 }
        requires quiet { self.old.pending ≡ None }
        ensures { self.new ≡ assumed l self.old }
    {
        self.trail.push(TrailEntry {
            lit: l,
            level: self.level + 1,
            reason: MaybeClause::none(),
        });
        self.queued = 1;
        self.level += 1;
    }

    /// Makes an open literal true at the current level, by a clause whose other literals are false,
    /// and queues it. Where that clause was pending, none is pending any more. It takes constant
    /// time.
    pub fn imply(&mut self, l: Lit, reason: ClauseRef)
        requires within { IsWithin self.old.vars l }
        requires open { IsOpen self.old.trail l }
        requires attached { is_attached self.old.clauses reason ≡ true }
        requires unit { IsReason self.old.trail (lits_at self.old.clauses reason) l }
        ensures { self.new ≡ implied l reason self.old }
    {
        self.trail.push(TrailEntry {
            lit: l,
            level: self.level,
            reason: self.chains.as_reason(reason),
        });
        self.queued += 1;
        self.pending = pending_without(reason, self.pending);
    }

    /// Drops the entries of levels above this one, with what is queued and pending. Nothing changes
    /// where the current level is not above. It costs a few stores for each entry that is dropped.
    pub fn back_to(&mut self, level: u32)
        ensures { self.new ≡ gone_back level self.old }
    {
        if level >= self.level {
            return;
        }
        self.trail.fall_to(level);
        self.queued = 0;
        self.level = level;
        self.pending = None;
    }

    /// Takes these clauses out, at level 0, where nothing is queued or pending and none of them is
    /// a reason. The list may name a clause twice.
    ///
    /// The others close up in their order, each with its id and its literals: the first has the
    /// reference 0, and each next one stands behind the literals of the one before and 6 words. The
    /// reasons of the trail move with them. All chains are made anew: it costs time linear in the
    /// arena and the variables, and for each reason a binary search.
    ///
    /// # Errors
    /// Where there is no memory for a pair of references of each clause that stays; nothing has
    /// changed then.
    pub fn delete(&mut self, alloc: Global, clauses: &[ClauseRef]) -> Result<(), AllocError>
        requires level { self.old.level ≡ 0 }
        requires empty { self.old.queued ≡ 0 }
        requires quiet { self.old.pending ≡ None }
        requires attached { All (λ c. is_attached self.old.clauses c ≡ true) clauses.now }
        requires no_reason { All (IsNoReason self.old.trail) clauses.now }
        ensures ok { OnOk result (self.new ≡ deleted clauses.now self.old) }
        ensures others { OnOk result (OthersMove clauses.now self.old.clauses self.new.clauses) }
        ensures left { OnOk result (OthersStay clauses.now self.old.clauses self.new.clauses) }
        ensures err { OnErr result (self.new ≡ self.old) }
    {
        let moves = self.chains.remove(alloc, clauses)?;
        self.chains.make_tails(alloc);
        self.trail.move_reasons(&moves);
        Ok(())
    }

    /// Puts what the chains come to at their ends, clauses of two literals, side by side, so that
    /// propagation goes over them faster. It pays where many such clauses are attached and none of
    /// more literals is yet. It costs time and memory linear in these clauses and the variables;
    /// where memory is short nothing is gained, and nothing lost.
    pub fn make_tails(&mut self, alloc: Global)
        ensures { self.new ≡ self.old }
    {
        self.chains.make_tails(alloc);
    }

    /// Takes the oldest literal from the queue and walks along the chain of its negation. Gives a
    /// clause that is false; the literal then stays queued.
    fn take_queued(&mut self, visits: &mut u64) -> Option<ClauseRef>
        requires some { 1 ≤ self.old.queued }
        requires quiet { self.old.pending ≡ None }
        ensures propagates { Propagates self.old self.new }
        ensures attached { IfSome result (λ c. is_attached self.new.clauses c ≡ true) }
        ensures stopped { IfSome result
            (λ c. AreFalse self.new.trail (lits_at self.new.clauses c)) }
        ensures visits { IsWithinVisits self.old self.new result visits.old visits.new }
        ensures counted { visits.old ≤ visits.new }
        ensures each { IfNone result (HasVisited self.old self.new visits.old visits.new) }
        ensures fewer { (l : Lit) → is_false self.old.trail l ≡ true
            → watcher_count l self.new.clauses ≤ watcher_count l self.old.clauses }
        ensures front { length self.new.trail + self.old.queued
            ≡ length self.old.trail + left_queued self.new result + 1 }
        ensures few { length self.new.trail ≤ self.new.vars }
        ensures queue { self.new.queued ≤ length self.new.trail }
    {
        let before = self.trail.len();
        let entry = self.trail.at(self.queued - 1);
        let found = walk(
            &mut self.chains,
            &mut self.trail,
            entry.lit.negation(),
            self.level,
            visits,
        );
        let queued = self.queued + (self.trail.len() - before);
        if let Some(c) = found {
            self.queued = queued;
            return Some(c);
        }
        self.queued = queued - 1;
        None
    }

    /// Whether a literal is queued. Where none is, and no clause is pending, the clauses are
    /// propagated.
    fn has_queued(&self) -> bool
        ensures some { result ≡ true → 1 ≤ self.now.queued }
        ensures none { result ≡ false → self.now.queued ≡ 0 }
        ensures queue { self.now.queued ≤ length self.now.trail }
        ensures propagated { result ≡ false → self.now.pending ≡ None
            → IsPropagatedAt self.now self.now.level }
    {
        self.queued > 0
    }

    /// Makes true what the clauses make true, until one of them is false, which it gives, or none
    /// makes a literal true any more. No clause is pending before.
    ///
    /// Each visit of a clause adds one to `visits`, up to 2^64 - 1. For each literal that is taken
    /// from the queue there are at most as many visits as clauses hold its negation, and, where no
    /// clause is false, at least as many as still watch it; a visit costs the literals of the
    /// clause at most. A literal whose walk ends in a false clause stays queued, and
    /// [`Watches::back_to`] drops it.
    pub fn propagate(&mut self, visits: &mut u64) -> Option<ClauseRef>
        requires quiet { self.old.pending ≡ None }
        ensures propagates { Propagates self.old self.new }
        ensures empty { IfNone result (self.new.queued ≡ 0) }
        ensures propagated { IfNone result (IsPropagatedAt self.new self.new.level) }
        ensures attached { IfSome result (λ c. is_attached self.new.clauses c ≡ true) }
        ensures stopped { IfSome result
            (λ c. AreFalse self.new.trail (lits_at self.new.clauses c)) }
        ensures visits { IsWithinVisits self.old self.new result visits.old visits.new }
        ensures counted { visits.old ≤ visits.new }
        ensures each { IfNone result (HasVisited self.old self.new visits.old visits.new) }
    {
        while self.has_queued() {
            if let Some(c) = self.take_queued(visits) {
                return Some(c);
            }
        }
        None
    }
}
