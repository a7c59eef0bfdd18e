//! What the clauses of kept hints want of literals, for one step after another. A table has a
//! number for each literal. Each step has a higher one than those before, so that nothing has to be
//! taken back behind it.
ghost use Rattle.std.specs.Prelude.{◌≡◌, ◌≢◌, ◌+◌, ◌*◌, ◌<◌, ◌≤◌, ◌^◌, ◌++◌, [], All, IfOk, List, length};
ghost use Rattle.std.specs.List.{list_any};
ghost use Rattle.sat_clause.specs.declared.literal.Lit.{Lit as LitOf};
ghost use Rattle.sat_clause.specs.Literal.{Clause, IsWithin, is_among, negation};
ghost use Rattle.route_core.specs.Wanting.{Tells, is_wanted, own_by, told, wanted_by};

use sat_check::slot;
use sat_clause::{LITERAL_LIMIT, Lit};
use std::alloc::{AllocError, Global};
use std::marker::Model;

/// Behind a step with a higher number the table is wiped: the next one would have no room.
const MOST_STAMP: u32 = 4294967292;

/// For one step the literals of its own clause, and those that its kept hints want, of variables up
/// to a size. The first have the number of the step, the others the number behind it, and all that
/// are neither a lower one.
#[derive(Drop)]
pub(crate) struct Wanted {
    size: u32,
    stamp: u32,
    table: Vec<u32>,
}

impl Model for Wanted {
    ghost use Rattle.route_core.specs.Wanting.{IsWantedStore, WantedState};

    ghost Value = { WantedState };

    ghost view = { λ w. record { size = w.size; stamp = w.stamp; table = w.table.items } };

    ghost invariant = { λ w. IsWantedStore w.size w.stamp w.table.items };
}

/// Writes the number of a literal.
#[inline(always)]
fn tell(table: &mut Vec<u32>, l: Lit, size: u32, number: u32)
    requires within { IsWithin size l }
    requires many { 2 * size + 2 ≤ length table.old.items }
    ensures many { length table.new.items ≡ length table.old.items }
    ensures here { told table.new.items l ≡ number }
    ensures others { (m : LitOf) → m ≢ l → told table.new.items m ≡ told table.old.items m }
{
    table[slot(l, size)] = number;
}

/// Writes 0 for each literal.
fn wipe(table: &mut Vec<u32>)
    ensures many { length table.new.items ≡ length table.old.items }
    ensures told { (m : LitOf) → told table.new.items m ≡ 0 }
{
    for i in 0..table.len() {
        table[i] = 0;
    }
}

/// The number of the step behind one with this number. All in the table are lower.
fn next_stamp(table: &mut Vec<u32>, stamp: u32) -> u32
    requires { (m : LitOf) → told table.old.items m ≤ stamp + 1 }
    ensures many { length table.new.items ≡ length table.old.items }
    ensures low { (m : LitOf) → told table.new.items m < result }
    ensures room { result + 1 < 2 ^ 32 }
{
    if stamp <= MOST_STAMP {
        return stamp + 2;
    }
    wipe(table);
    2
}

/// Writes the number of a step for the literals of its own clause.
fn tell_own(table: &mut Vec<u32>, own: &[Lit], size: u32, stamp: u32)
    requires within { All (IsWithin size) own.now }
    requires many { 2 * size + 2 ≤ length table.old.items }
    ensures many { length table.new.items ≡ length table.old.items }
    ensures told { (m : LitOf) → told table.new.items m
        ≡ own_by stamp (is_among own.now m) (told table.old.items m) }
{
    for l in own {
        tell(table, *l, size, stamp);
    }
}

/// Writes the number behind that of a step for the literals of a clause that have a lower one.
#[inline(always)]
fn tell_wanted(table: &mut Vec<u32>, clause: &[Lit], size: u32, stamp: u32)
    requires within { All (IsWithin size) clause.now }
    requires many { 2 * size + 2 ≤ length table.old.items }
    requires room { stamp + 1 < 2 ^ 32 }
    ensures many { length table.new.items ≡ length table.old.items }
    ensures told { (m : LitOf) → told table.new.items m
        ≡ wanted_by stamp (is_among clause.now m) (told table.old.items m) }
{
    for l in clause {
        if table[slot(*l, size)] >= stamp {
            continue;
        }
        tell(table, *l, size, stamp + 1);
    }
}

impl Wanted {
    /// For literals of variables up to a size.
    pub(crate) fn new(alloc: Global, size: u32) -> Result<Wanted, AllocError>
        requires { size ≤ LITERAL_LIMIT }
        ensures { IfOk result (λ w. w.size ≡ size) }
    {
        Ok(Wanted {
            size,
            stamp: 0,
            table: vec![in alloc; 0; 2 * size as usize + 2]?,
        })
    }

    /// Begins a step with this clause, for which nothing is wanted yet.
    pub(crate) fn begin(&mut self, own: &[Lit])
        requires { All (IsWithin self.old.size) own.now }
        ensures size { self.new.size ≡ self.old.size }
        ensures told { Tells own.now [] self.new }
    {
        self.stamp = next_stamp(&mut self.table, self.stamp);
        tell_own(&mut self.table, own, self.size, self.stamp);
    }

    /// The literals of a clause are wanted too.
    #[inline(always)]
    #[tactic(auto, using(crate::proofs::WantedLemmas::low, crate::proofs::WantedLemmas::told_more))]
    pub(crate) fn want(&mut self, clause: &[Lit])
        requires { All (IsWithin self.old.size) clause.now }
        ensures size { self.new.size ≡ self.old.size }
        ensures wanted { (own : Clause) (before : List LitOf) → Tells own before self.old
            → Tells own (clause.now ++ before) self.new }
    {
        tell_wanted(&mut self.table, clause, self.size, self.stamp);
    }

    /// Whether the negation of a literal of the clause is wanted.
    #[inline(always)]
    pub(crate) fn wants_opposite(&self, clause: &[Lit]) -> bool
        requires { All (IsWithin self.now.size) clause.now }
        ensures { result ≡ list_any (λ m. is_wanted self.now (negation m)) clause.now }
    {
        let wanted = self.stamp + 1;
        for l in clause {
            if self.table[slot(l.negation(), self.size)] == wanted {
                return true;
            }
        }
        false
    }
}
