//! How often each literal stands in clauses.

ghost use Rattle.std.specs.Prelude.{◌≡◌, ◌+◌, ◌*◌, ◌≤◌, ℕ, length, All, IsTrue, OnOk, OnErr, slice_index_or};
ghost use Rattle.sat_clause.specs.declared.literal.Lit.{Lit as LitOf};
ghost use Rattle.sat_clause.specs.Literal.{IsLiteral, IsWithin};
ghost use Rattle.sat_check.specs.FalseStore.{slot_of};
ghost use Rattle.sat_rat.specs.Counts.{count_at, one_if, times as times_of};

use sat_check::{greatest_of, slot};
use sat_clause::{LITERAL_LIMIT, Lit};
use std::alloc::{AllocError, Global};
use std::marker::Model;

/// The greatest count of a literal.
pub const COUNT_LIMIT: u32 = u32::MAX;

/// A count for each literal. Those behind the greatest variable that came are 0.
#[derive(Drop)]
pub(crate) struct Counts {
    counts: Vec<u32>,
}

impl Model for Counts {
    ghost use Rattle.std.specs.Prelude.{List, ℕ};

    ghost Value = { List ℕ };

    ghost view = { λ c. c.counts.items };
}

/// How often the literal stands in the clause.
pub(crate) fn times(l: Lit, clause: &[Lit]) -> u64
    ensures { result ≡ times_of l clause.now }
{
    let mut count = 0;
    for m in clause {
        if *m != l {
            continue;
        }
        count += 1;
    }
    count
}

/// One more of a literal.
fn raise(counts: &mut Vec<u32>, l: Lit, size: u32)
    requires within { IsWithin size l }
    requires many { 2 * size + 2 ≤ length counts.old.items }
    requires room { slice_index_or counts.old.items (slot_of l.code) 0 + 1 ≤ COUNT_LIMIT }
    ensures many { length counts.new.items ≡ length counts.old.items }
    ensures counts { (m : LitOf) → count_at counts.new.items m
        ≡ count_at counts.old.items m + one_if m l }
{
    counts[slot(l, size)] += 1;
}

/// One more of each literal of a clause, as often as it stands there.
fn raise_all(counts: &mut Vec<u32>, clause: &[Lit], size: u32)
    requires within { All (IsWithin size) clause.now }
    requires many { 2 * size + 2 ≤ length counts.old.items }
    requires room { All (λ m. count_at counts.old.items m + times_of m clause.now ≤ COUNT_LIMIT)
        clause.now }
    ensures many { length counts.new.items ≡ length counts.old.items }
    ensures counts { (m : LitOf) → count_at counts.new.items m
        ≡ count_at counts.old.items m + times_of m clause.now }
{
    for l in clause {
        raise(counts, *l, size);
    }
}

/// One less of a literal, if there is one.
fn lower(counts: &mut Vec<u32>, l: Lit)
    requires { IsLiteral l }
    ensures { (m : LitOf) → one_if m l ≤ count_at counts.old.items m
        → count_at counts.new.items m + one_if m l ≡ count_at counts.old.items m }
{
    let at = slot(l, LITERAL_LIMIT);
    if at < counts.len() {
        counts[at] = counts[at].saturating_sub(1);
    }
}

/// Makes them at least so many. Those that come are 0.
fn lengthen(counts: &mut Vec<u32>, most: usize) -> Result<(), AllocError>
    ensures many { OnOk result (most ≤ length counts.new.items) }
    ensures no_fewer { length counts.old.items ≤ length counts.new.items }
    ensures same { (at : ℕ) → slice_index_or counts.new.items at 0
        ≡ slice_index_or counts.old.items at 0 }
{
    while counts.len() < most {
        let Ok(()) = counts.push(0) else {
            return Err(AllocError);
        };
    }
    Ok(())
}

/// Whether each literal of a clause has at most so many.
fn have_at_most(counts: &[u32], clause: &[Lit], size: u32, most: u32) -> bool
    requires within { All (IsWithin size) clause.now }
    requires many { 2 * size + 2 ≤ length counts.now }
    ensures { IsTrue result → All (λ l. count_at counts.now l ≤ most) clause.now }
{
    clause.iter().all(|l| counts[slot(*l, size)] <= most)
}

/// Whether each literal of a clause can have as many more as there are literals in it.
fn have_room(counts: &[u32], clause: &[Lit], size: u32) -> bool
    requires within { All (IsWithin size) clause.now }
    requires many { 2 * size + 2 ≤ length counts.now }
    ensures { IsTrue result → All (λ m. count_at counts.now m + times_of m clause.now
        ≤ COUNT_LIMIT) clause.now }
{
    if clause.len() > COUNT_LIMIT as usize {
        return false;
    }
    have_at_most(counts, clause, size, COUNT_LIMIT - clause.len() as u32)
}

impl Counts {
    /// No literal has one.
    pub(crate) fn none(alloc: Global) -> Counts
        ensures { (l : LitOf) → count_at result l ≡ 0 }
    {
        Counts {
            counts: Vec::new(alloc),
        }
    }

    /// How many a literal has.
    pub(crate) fn get(&self, l: Lit) -> u64
        requires { IsLiteral l }
        ensures { result ≡ count_at self.now l }
    {
        match self.counts.get(slot(l, LITERAL_LIMIT)) {
            Some(count) => u64::from(*count),
            None => 0,
        }
    }

    /// One more of each literal of a clause, as often as it stands there.
    ///
    /// # Errors
    /// Where memory is short, or a count would be past its limit. All counts are then as they were.
    pub(crate) fn add(&mut self, clause: &[Lit]) -> Result<(), AllocError>
        requires { All IsLiteral clause.now }
        ensures ok { OnOk result ((l : LitOf) → count_at self.new l
            ≡ count_at self.old l + times_of l clause.now) }
        ensures err { OnErr result ((l : LitOf) → count_at self.new l ≡ count_at self.old l) }
    {
        let size = greatest_of(0, clause);
        let Ok(()) = lengthen(&mut self.counts, 2 * size as usize + 2) else {
            return Err(AllocError);
        };
        if !have_room(&self.counts, clause, size) {
            return Err(AllocError);
        }
        raise_all(&mut self.counts, clause, size);
        Ok(())
    }

    /// One less of each literal of a clause, as often as it stands there.
    pub(crate) fn take(&mut self, clause: &[Lit])
        requires { All IsLiteral clause.now }
        ensures { (l : LitOf) → times_of l clause.now ≤ count_at self.old l
            → count_at self.new l + times_of l clause.now ≡ count_at self.old l }
    {
        for l in clause {
            lower(&mut self.counts, *l);
        }
    }
}
