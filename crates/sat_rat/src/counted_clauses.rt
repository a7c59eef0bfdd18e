//! The live clauses, with counts of their literals once they are asked for.

ghost use Rattle.std.specs.Prelude.{◌≡◌, ◌+◌, ◌≤◌, [], All, IfOk, IsTrue, IsNone, OnErr, OnOk, is_some};
ghost use Rattle.sat_clause.specs.declared.literal.Lit.{Lit as LitOf};
ghost use Rattle.sat_clause.specs.Judge.{erase as erased, erase_fault, inputs as inputs_of, take_out as taken_out};
ghost use Rattle.sat_clause.specs.Literal.{IsLiteral, IsWithin};
ghost use Rattle.sat_clause.specs.Live.{Live, put as put_in};
ghost use Rattle.sat_check.specs.Finder.{Finds, named_by};
ghost use Rattle.sat_check.specs.LiveStore.{last_placed, live_at, scattered_id};
ghost use Rattle.sat_rat.specs.CountedStore.{Tracks};
ghost use Rattle.sat_rat.specs.Counts.{count_at, held, ids_to, times_in, with_ids};

use crate::counts::Counts;
use sat_check::LiveClauses;
use sat_clause::{Cause, Formula, LITERAL_LIMIT, Lit};
use std::alloc::{AllocError, Global};
use std::marker::Model;

/// The live clauses of a formula and of a log, and once it was asked for, how often each literal
/// stands in them.
#[derive(Drop)]
pub(crate) struct CountedClauses<'a> {
    alloc: Global,
    live: LiveClauses<'a>,
    counts: Option<Counts>,
}

impl<'a> Model for CountedClauses<'a> {
    ghost use Rattle.std.specs.Prelude.{◌≤◌};
    ghost use Rattle.sat_clause.specs.declared.limits.TheConstants.{LITERAL_LIMIT};
    ghost use Rattle.sat_rat.specs.CountedStore.{CountedState};

    ghost Value = { CountedState };

    ghost view = { λ c. record { live = c.live; counts = c.counts } };

    ghost invariant = { λ c. c.live.vars ≤ LITERAL_LIMIT };
}

/// The literals of the clause with an id are counted, if it is live.
fn count_under(counts: &mut Counts, live: &LiveClauses, id: u64) -> Result<(), AllocError>
    requires { live.now.vars ≤ LITERAL_LIMIT }
    ensures { OnOk result ((l : LitOf) → count_at counts.new l
        ≡ count_at counts.old l + times_in l (live_at live.now id)) }
{
    let Some(clause) = live.get(id) else {
        return Ok(());
    };
    counts.add(clause)
}

/// The literals of the clauses that have a place of their own are counted.
fn count_placed(counts: &mut Counts, live: &LiveClauses) -> Result<(), AllocError>
    requires { live.now.vars ≤ LITERAL_LIMIT }
    ensures { OnOk result ((clauses : Live) → Finds (live_at live.now) clauses → (l : LitOf)
        → count_at counts.new l + held l (ids_to (last_placed live.now)) clauses
        ≡ count_at counts.old l + held l [] clauses) }
{
    for i in 0..live.last_placed() {
        let Ok(()) = count_under(counts, live, i + 1) else {
            return Err(AllocError);
        };
    }
    Ok(())
}

/// And those of the others.
fn count_scattered(counts: &mut Counts, live: &LiveClauses) -> Result<(), AllocError>
    requires { live.now.vars ≤ LITERAL_LIMIT }
    ensures { OnOk result ((clauses : Live) → Finds (live_at live.now) clauses → (l : LitOf)
        → count_at counts.new l
        ≡ count_at counts.old l + held l (ids_to (last_placed live.now)) clauses) }
{
    for at in 0..live.scattered() {
        let Some(id) = live.scattered_id(at) else {
            continue;
        };
        let Ok(()) = count_under(counts, live, id) else {
            return Err(AllocError);
        };
    }
    Ok(())
}

/// The counts of the literals of the live clauses.
fn count_all(alloc: Global, live: &LiveClauses) -> Result<Counts, AllocError>
    requires { live.now.vars ≤ LITERAL_LIMIT }
    ensures { IfOk result (λ counts. (clauses : Live) → Finds (live_at live.now) clauses
        → (l : LitOf) → count_at counts l ≡ held l [] clauses) }
{
    let mut counts = Counts::none(alloc);
    let Ok(()) = count_placed(&mut counts, live) else {
        return Err(AllocError);
    };
    let Ok(()) = count_scattered(&mut counts, live) else {
        return Err(AllocError);
    };
    Ok(counts)
}

/// A copy of the clause with an id, without literals where there is none.
fn copy_at(alloc: Global, live: &LiveClauses, id: u64) -> Result<Vec<Lit>, AllocError>
    ensures times { IfOk result (λ copy. (l : LitOf) → times_in l (Some copy.items)
        ≡ times_in l (live_at live.now id)) }
    ensures within { IfOk result (λ copy. All (IsWithin live.now.vars) copy.items) }
{
    let mut copy = Vec::new(alloc);
    let Some(clause) = live.get(id) else {
        return Ok(copy);
    };
    let Ok(()) = copy.extend_from_slice(clause) else {
        return Err(AllocError);
    };
    Ok(copy)
}

impl<'a> CountedClauses<'a> {
    /// The clauses of the formula, with the ids from 1 on.
    ///
    /// # Errors
    /// Where memory is short.
    pub(crate) fn inputs(
        alloc: Global,
        formula: &'a Formula,
    ) -> Result<CountedClauses<'a>, AllocError>
        ensures vars { IfOk result (λ c. c.live.vars ≡ formula.now.cnf.vars) }
        ensures tracks { IfOk result (λ c. Tracks c (inputs_of formula.now.cnf)) }
    {
        let Ok(live) = LiveClauses::inputs(alloc, formula) else {
            return Err(AllocError);
        };
        prove!(formula.vars() <= LITERAL_LIMIT);
        Ok(CountedClauses {
            alloc,
            live,
            counts: None,
        })
    }

    /// The live clauses.
    pub(crate) fn clauses(&self) -> &LiveClauses<'a>
        ensures { result.now ≡ self.now.live }
    {
        &self.live
    }

    /// Lets clauses have the variables up to a greater number.
    pub(crate) fn widen(&mut self, vars: u32)
        requires more { self.old.live.vars ≤ vars }
        requires small { vars ≤ LITERAL_LIMIT }
        ensures vars { self.new.live.vars ≡ vars }
        ensures tracks { (live : Live) → Tracks self.old live → Tracks self.new live }
    {
        self.live.widen(vars);
    }

    /// How often a literal stands in the live clauses. The first time all their literals are
    /// counted, and from then on as clauses come and go.
    ///
    /// # Errors
    /// Where memory is short, or a literal stands in them more than 4294967295 times.
    pub(crate) fn count(&mut self, l: Lit) -> Result<u64, AllocError>
        requires { IsLiteral l }
        ensures same { self.new.live ≡ self.old.live }
        ensures tracks { (live : Live) → Tracks self.old live → Tracks self.new live }
        ensures ok { IfOk result
            (λ count. (live : Live) → Tracks self.old live → count ≡ held l [] live) }
    {
        if let Some(counts) = &self.counts {
            return Ok(counts.get(l));
        }
        let Ok(counts) = count_all(self.alloc, &self.live) else {
            return Err(AllocError);
        };
        let count = counts.get(l);
        self.counts = Some(counts);
        Ok(count)
    }

    /// Makes a copy of a clause live under an id, in place of any other.
    ///
    /// # Errors
    /// Where memory is short, or where literals are counted and one would stand in the live clauses
    /// more than 4294967295 times.
    pub(crate) fn put(&mut self, id: u32, clause: &[Lit]) -> Result<(), AllocError>
        requires { All (IsWithin self.old.live.vars) clause.now }
        ensures vars { self.new.live.vars ≡ self.old.live.vars }
        ensures ok { OnOk result ((live : Live) → Tracks self.old live
            → Tracks self.new (put_in live id clause.now)) }
        ensures err { OnErr result ((live : Live) → Tracks self.old live → Tracks self.new live) }
    {
        let Some(counts) = &mut self.counts else {
            return self.live.put(id, clause);
        };
        let Ok(gone) = copy_at(self.alloc, &self.live, id as u64) else {
            return Err(AllocError);
        };
        let Ok(()) = counts.add(clause) else {
            return Err(AllocError);
        };
        let Ok(()) = self.live.put(id, clause) else {
            counts.take(clause);
            return Err(AllocError);
        };
        counts.take(&gone);
        Ok(())
    }

    /// Takes out the clause that a deletion names, and says whether it was live.
    fn take_out(&mut self, id: i64) -> bool
        ensures vars { self.new.live.vars ≡ self.old.live.vars }
        ensures found { result ≡ is_some (named_by (live_at self.old.live) id) }
        ensures tracks { IsTrue result → (live : Live) → Tracks self.old live
            → Tracks self.new (taken_out live id) }
    {
        let Some(counts) = &mut self.counts else {
            return self.live.take_out(id);
        };
        let Some(clause) = self.live.named(id) else {
            return false;
        };
        counts.take(clause);
        self.live.take_out(id)
    }

    /// Takes out the clauses with these ids, in order, up to the first that is not live.
    pub(crate) fn erase(&mut self, ids: &[i64]) -> Option<Cause>
        ensures vars { self.new.live.vars ≡ self.old.live.vars }
        ensures fault { (live : Live) → Tracks self.old live → result ≡ erase_fault live ids.now }
        ensures tracks { IsNone result → (live : Live) → Tracks self.old live
            → Tracks self.new (erased live ids.now) }
    {
        for id in ids {
            if !self.take_out(*id) {
                return Some(Cause::DeletesNotLive);
            }
        }
        None
    }
}
