//! The clauses, and the chains of those that watch a literal.

ghost use Rattle.std.specs.Prelude.{◌≡◌, ◌≢◌, ◌^◌, ◌<◌, ◌≤◌, ◌∷◌, [], List, length, map, swap, true, All, IfOk, IfSome, Option, None, OnErr, OnOk, Some};
ghost use Rattle.sat_clause.specs.declared.literal.Lit.{Lit};
ghost use Rattle.sat_clause.specs.Learned.{IsSimple};
ghost use Rattle.sat_clause.specs.Literal.{IsWithin};
ghost use Rattle.sat_arena.specs.declared.clause_ref.ClauseRef.{ClauseRef};
ghost use Rattle.sat_arena.specs.Compact.{AreRising, moves_of};
ghost use Rattle.sat_arena.specs.Store.{behind_of, first_ref, is_held, link_of, stored_at};
ghost use Rattle.sat_watch.specs.Chains.{AreChained, GoesOn, HasCursor, IsAdded, IsCursor, IsPlaceOf, IsRewatched, MayBePlaceOf, clause_of, head_at, head_of, holders, literals, next_on};
ghost use Rattle.sat_watch.specs.Choice.{IsAhead, after_first as after_first_of};
ghost use Rattle.sat_watch.specs.Relinking.{AreNear, marked, stored_without};
ghost use Rattle.sat_watch.specs.Tails.{IsTail, refs};
ghost use Rattle.sat_watch.specs.TrailStore.{place_of};
ghost use Rattle.sat_watch.specs.Watches.{attached};

use crate::links::{link_all, link_first, mark_all, push_ordered, put_first, unlink};
use crate::maybe_clause::MaybeClause;
use crate::place::Place;
use crate::tails::{Tails, literal_at};
use crate::trail::place;
use sat_arena::{Arena, ClauseRef, Moves};
use sat_clause::{LITERAL_LIMIT, Lit, VARIABLE_LIMIT};
use std::alloc::{AllocError, Global};
use std::marker::Model;

/// The clauses in their arena, and the first clause of each literal's chain.
#[derive(Drop)]
pub(crate) struct Chains {
    vars: u32,
    arena: Arena,
    heads: Vec<MaybeClause>,
    tails: Tails,
}

impl Model for Chains {
    ghost use Rattle.sat_watch.specs.Chains.{ChainsState};
    ghost use Rattle.sat_watch.specs.Tails.{IsChainStore};

    ghost Value = { ChainsState };

    ghost view = { λ c. record {
      vars = c.vars;
      clauses = c.arena.clauses;
      spare = c.arena.spare;
      heads = c.heads.items;
    } };

    ghost invariant = { λ c. IsChainStore c.vars c.arena.clauses c.heads.items c.tails };
}

/// Where what stood at position `j` stands, once the one at position `i` has changed places with
/// the first.
fn after_first(i: u32, j: u32) -> u32
    ensures { result ≡ after_first_of i j }
{
    if j == 0 {
        return i;
    }
    j
}

impl Chains {
    /// No clause, in an arena without clauses, and empty chains of so many variables.
    pub(crate) fn new(alloc: Global, arena: Arena, vars: u32) -> Result<Chains, AllocError>
        requires empty { arena.clauses ≡ [] }
        requires few { vars ≤ VARIABLE_LIMIT }
        ensures vars { IfOk result (λ c. c.vars ≡ vars) }
        ensures clauses { IfOk result (λ c. c.clauses ≡ []) }
        ensures chained { IfOk result AreChained }
    {
        let heads = vec![in alloc; MaybeClause::none(); vars as usize * 2 + 1]?;
        let tails = Tails::new(alloc);
        Ok(Chains {
            vars,
            arena,
            heads,
            tails,
        })
    }

    /// Adds a clause of two or more literals, with the one at position `i` first, and then the one
    /// that stands at position `j` second; these two are watched.
    ///
    /// # Errors
    /// Where memory is short; the chains are then as they were.
    pub(crate) fn add(
        &mut self,
        lits: &[Lit],
        id: u32,
        i: u32,
        j: u32,
    ) -> Result<ClauseRef, AllocError>
        requires simple { IsSimple self.old.vars lits.now }
        requires few { length lits.now ≤ LITERAL_LIMIT }
        requires i { i < length lits.now }
        requires j { j < length lits.now }
        requires two { 2 ≤ length lits.now }
        ensures ok { IfOk result
            (λ c. IsAdded self.old self.new (swap (swap lits.now 0 i) 1 j) id c) }
        ensures chained { AreChained self.new }
        ensures err { OnErr result (self.new ≡ self.old) }
    {
        self.arena.reserve(lits.len() as u64 + 6)?;
        let c = push_ordered(&mut self.arena, lits, id, i, j);
        link_first(&mut self.arena, &mut self.heads, self.vars, c);
        Ok(c)
    }

    /// Adds a clause of one literal, which is in no chain.
    ///
    /// # Errors
    /// Where memory is short; the chains are then as they were.
    fn add_one(&mut self, lits: &[Lit], id: u32) -> Result<ClauseRef, AllocError>
        requires simple { IsSimple self.old.vars lits.now }
        requires one { length lits.now ≡ 1 }
        ensures ok { IfOk result (λ c. IsAdded self.old self.new lits.now id c) }
        ensures chained { AreChained self.new }
        ensures err { OnErr result (self.new ≡ self.old) }
    {
        self.arena.reserve(lits.len() as u64 + 6)?;
        Ok(self.arena.push(lits, id))
    }

    /// Adds a clause, with the literal at position `i` first and that at position `j` second.
    ///
    /// # Errors
    /// Where memory is short; the chains are then as they were.
    pub(crate) fn add_ahead(
        &mut self,
        lits: &[Lit],
        id: u32,
        i: u32,
        j: u32,
    ) -> Result<ClauseRef, AllocError>
        requires simple { IsSimple self.old.vars lits.now }
        requires few { length lits.now ≤ LITERAL_LIMIT }
        requires i { i < length lits.now }
        requires j { j < length lits.now }
        requires other { 2 ≤ length lits.now → j ≢ i }
        ensures ok { IfOk result (λ c. IsAhead self.old self.new lits.now id i j c) }
        ensures chained { AreChained self.new }
        ensures err { OnErr result (self.new ≡ self.old) }
    {
        if lits.len() < 2 {
            return self.add_one(lits, id);
        }
        self.add(lits, id, i, after_first(i, j))
    }

    /// The first clause of a literal's chain.
    pub(crate) fn head(&self, l: Lit) -> Option<ClauseRef>
        requires within { IsWithin self.now.vars l }
        ensures { result ≡ head_of self.now l }
    {
        self.heads[place(self.vars, l)].clause()
    }

    /// The literals of a clause.
    pub(crate) fn lits(&self, c: ClauseRef) -> &[Lit]
        requires held { is_held self.now.clauses c ≡ true }
        ensures value { result.now ≡ (literals self.now.clauses c) }
        ensures simple { IsSimple self.now.vars result.now }
        ensures few { length result.now ≤ LITERAL_LIMIT }
        ensures near { c.word < 2 ^ 63 }
    {
        self.arena.unmarked_lits(c)
    }

    /// A clause as the reason of an entry. The arena says of a clause whose literals it lends that
    /// it stands near.
    pub(crate) fn as_reason(&self, c: ClauseRef) -> MaybeClause
        requires held { is_held self.now.clauses c ≡ true }
        ensures { result ≡ Some c }
    {
        let _literals = self.arena.lits(c);
        MaybeClause::to(c)
    }

    /// The id of a clause.
    pub(crate) fn id(&self, c: ClauseRef) -> u32
        requires held { is_held self.now.clauses c ≡ true }
        ensures value { result ≡ (stored_at self.now.clauses c).id }
    {
        self.arena.id(c)
    }

    /// The clause that stands first.
    pub(crate) fn first(&self) -> Option<ClauseRef>
        ensures { result ≡ first_ref self.now.clauses }
    {
        self.arena.first()
    }

    /// The clause that stands right behind this one.
    pub(crate) fn behind(&self, c: ClauseRef) -> Option<ClauseRef>
        requires held { is_held self.now.clauses c ≡ true }
        ensures { result ≡ first_ref (behind_of self.now.clauses c) }
    {
        self.arena.behind(c)
    }

    /// The clause after this one in the chain of its literal at a position.
    pub(crate) fn after(&self, p: Place) -> Option<ClauseRef>
        requires held { is_held self.now.clauses p.clause ≡ true }
        requires which { p.which < 2 }
        ensures value { result ≡ link_of (stored_at self.now.clauses p.clause) p.which }
        ensures near { IfSome result (λ c. c.word < 2 ^ 63) }
        ensures few { length self.now.clauses < 2 ^ 63 }
    {
        self.arena.link(p.clause, p.which)
    }

    /// The place of a clause that stands in a literal's chain.
    pub(crate) fn place(&self, clause: ClauseRef, f: Lit) -> Place
        requires goes { GoesOn (next_on self.now.clauses f clause) }
        ensures clause { result.clause ≡ clause }
        ensures place { IsPlaceOf self.now.clauses f result }
    {
        if self.arena.lits(clause)[0] == f {
            return Place { clause, which: 0 };
        }
        Place { clause, which: 1 }
    }

    /// The place in a literal's chain of the clause that a walk stands behind, if there is one.
    pub(crate) fn place_before(&self, before: MaybeClause, f: Lit) -> Option<Place>
        requires goes { (c : ClauseRef) → before ≡ Some c
            → GoesOn (next_on self.now.clauses f c) }
        ensures clause { clause_of result ≡ before }
        ensures place { MayBePlaceOf self.now.clauses f result }
    {
        let Some(clause) = before.clause() else {
            return None;
        };
        Some(self.place(clause, f))
    }

    /// Takes these clauses out. The others close up, and chains and heads are made anew.
    ///
    /// # Errors
    /// Where memory is short; the chains are then as they were.
    pub(crate) fn remove(
        &mut self,
        alloc: Global,
        clauses: &[ClauseRef],
    ) -> Result<Moves, AllocError>
        requires held { All (λ c. is_held self.old.clauses c ≡ true) clauses.now }
        ensures vars { self.new.vars ≡ self.old.vars }
        ensures clauses { OnOk result (map attached self.new.clauses
            ≡ map attached (stored_without clauses.now self.old.clauses)) }
        ensures moves { IfOk result
            (λ m. m ≡ moves_of (marked true clauses.now self.old.clauses)) }
        ensures rising { IfOk result (AreRising 0) }
        ensures near { IfOk result AreNear }
        ensures chained { AreChained self.new }
        ensures err { OnErr result (self.new ≡ self.old) }
    {
        self.tails.clear();
        mark_all(&mut self.arena, clauses, true);
        let Ok(moves) = self.arena.compact(alloc) else {
            mark_all(&mut self.arena, clauses, false);
            return Err(AllocError);
        };
        self.heads.fill(MaybeClause::none());
        link_all(&mut self.arena, &mut self.heads, self.vars, &moves);
        Ok(moves)
    }

    /// The tail of a literal's chain, where it begins with this clause: the other literals of its
    /// clauses, and the words at which these stand.
    pub(crate) fn tail_from(&self, f: Lit, clause: ClauseRef) -> Option<(&[Lit], &[u32])>
        requires within { IsWithin self.now.vars f }
        ensures { IfSome result (λ tail.
            IsTail self.now.clauses f (Some clause) tail.0.now (refs tail.1.now) None) }
    {
        self.tails.from(place(self.vars, f), clause)
    }

    /// Puts the clause at a place in the chain of `l` behind those of a tail, or ends the tail
    /// before it where it is no pair.
    fn take_pair(
        &self,
        l: Lit,
        at: Place,
        others: &mut Vec<Lit>,
        words: &mut Vec<u32>,
    ) -> Result<(), AllocError>
        requires at { IsPlaceOf self.now.clauses l at }
        ensures { OnOk result ((after : Option ClauseRef) → (from : Option ClauseRef)
            → link_of (stored_at self.now.clauses at.clause) at.which ≡ after
            → IsTail self.now.clauses l from others.old.items (refs words.old.items)
            (Some at.clause)
            → (from' : Option ClauseRef)
            × IsTail self.now.clauses l from' others.new.items (refs words.new.items) after) }
    {
        let lits = self.arena.lits(at.clause);
        if lits.len() != 2 || at.clause.word > u64::from(u32::MAX) {
            others.clear();
            words.clear();
            return Ok(());
        }
        others.push(lits[1 - at.which as usize])?;
        words.push(at.clause.word as u32)?;
        Ok(())
    }

    /// Finds the tail of a literal's chain.
    fn find_tail(
        &self,
        l: Lit,
        others: &mut Vec<Lit>,
        words: &mut Vec<u32>,
    ) -> Result<(), AllocError>
        requires chained { AreChained self.now }
        requires within { IsWithin self.now.vars l }
        requires others { others.old.items ≡ [] }
        requires words { words.old.items ≡ [] }
        ensures { OnOk result ((from : Option ClauseRef)
            × IsTail self.now.clauses l from others.new.items (refs words.new.items) None) }
    {
        let mut next = self.head(l);
        while let Some(clause) = next {
            let at = self.place(clause, l);
            next = self.after(at);
            self.take_pair(l, at, others, words)?;
        }
        Ok(())
    }

    /// Finds the tail of the chain of the literal at a place, if one is there.
    fn tail_of_place(
        &self,
        place: usize,
        others: &mut Vec<Lit>,
        words: &mut Vec<u32>,
    ) -> Result<(), AllocError>
        requires others { others.old.items ≡ [] }
        requires words { words.old.items ≡ [] }
        ensures many { OnOk result (length words.new.items ≡ length others.new.items) }
        ensures tail { OnOk result ((l : Lit) → IsWithin self.now.vars l
            → place_of self.now.vars l ≡ place → (from : Option ClauseRef)
            × IsTail self.now.clauses l from others.new.items (refs words.new.items) None) }
    {
        let Some(l) = literal_at(self.vars, place) else {
            return Ok(());
        };
        self.find_tail(l, others, words)
    }

    /// Whether the chain of the literal at a place is empty, or no literal is there.
    fn is_bare(&self, place: usize) -> bool {
        place >= self.heads.len() || self.heads[place].clause().is_none()
    }

    /// Puts an empty tail behind the others: that of a chain whose last clause is no pair, and of
    /// an empty one.
    fn add_bare(&mut self) -> Result<(), AllocError>
        ensures { self.new ≡ self.old }
    {
        let Ok(()) = self.tails.push_empty() else {
            self.tails.clear();
            return Err(AllocError);
        };
        Ok(())
    }

    /// Puts the tail of the next literal behind the others. Two vectors are lent, whatever they
    /// hold.
    ///
    /// # Errors
    /// Where memory is short; then there may be no tails.
    fn add_tail(&mut self, others: &mut Vec<Lit>, words: &mut Vec<u32>) -> Result<(), AllocError>
        ensures { self.new ≡ self.old }
    {
        let place = self.tails.count();
        // most literals of a merged formula are in no clause
        if self.is_bare(place) {
            return self.add_bare();
        }
        others.clear();
        words.clear();
        self.tail_of_place(place, others, words)?;
        let Ok(()) = self.tails.push(others, words) else {
            self.tails.clear();
            return Err(AllocError);
        };
        Ok(())
    }

    /// Makes the tails of all literals, of which there is none before. Where memory is short some
    /// or all are left out.
    fn find_tails(&mut self, alloc: Global) -> Result<(), AllocError>
        ensures { self.new ≡ self.old }
    {
        let mut others = Vec::new(alloc);
        let mut words = Vec::new(alloc);
        for _ in 0..u64::from(self.vars) * 2 + 2 {
            self.add_tail(&mut others, &mut words)?;
        }
        Ok(())
    }

    /// Makes the tails of all chains anew. Where memory is short some or all are left out; chains
    /// are then walked from clause to clause.
    pub(crate) fn make_tails(&mut self, alloc: Global)
        ensures { self.new ≡ self.old }
    {
        self.tails.clear();
        let _made = self.find_tails(alloc);
    }

    /// Moves the watch of a clause from the literal at a place to the one at position `k`: it
    /// leaves the chain of `f`, where it stands behind `before`, and comes first in the other one.
    pub(crate) fn rewatch(
        &mut self,
        f: Lit,
        before: Option<Place>,
        at: Place,
        k: u32,
        after: Option<ClauseRef>,
    )
        requires within { IsWithin self.old.vars f }
        requires at { IsPlaceOf self.old.clauses f at }
        requires before { MayBePlaceOf self.old.clauses f before }
        requires low { 2 ≤ k }
        requires high { k < length (literals self.old.clauses at.clause) }
        requires cursor { HasCursor (next_on self.old.clauses f) (head_of self.old f)
            (clause_of before) (Some at.clause) }
        requires after { link_of (stored_at self.old.clauses at.clause) at.which ≡ after }
        requires near { IfSome after (λ c. c.word < 2 ^ 63) }
        ensures vars { self.new.vars ≡ self.old.vars }
        ensures spare { self.new.spare ≡ self.old.spare }
        ensures chained { AreChained self.new }
        ensures clauses { IsRewatched self.old.clauses self.new.clauses before at k after
            (head_at self.old.vars self.old.clauses self.old.heads at.clause k) }
        ensures holders { (l : Lit) → holders l self.new.clauses ≡ holders l self.old.clauses }
        ensures cursor { (kept rest : List ClauseRef)
            → IsCursor (next_on self.old.clauses f) (head_of self.old f) kept
            (at.clause ∷ rest) (clause_of before) (Some at.clause)
            → IsCursor (next_on self.new.clauses f) (head_of self.new f) kept rest
            (clause_of before) after }
    {
        unlink(
            &mut self.arena,
            &mut self.heads,
            self.vars,
            f,
            before,
            after,
        );
        put_first(&mut self.arena, &mut self.heads, self.vars, at, k);
    }
}
