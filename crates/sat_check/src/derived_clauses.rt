//! The live clauses that a log has added.

ghost use Rattle.std.specs.Prelude.{◌≡◌, ◌<◌, ◌+◌, ◌^◌, ℕ, IfSome, OnErr, OnOk, None, Some, is_some, length, nat_eq, option_map};
ghost use Rattle.std.specs.List.{IsDistinct};
ghost use Rattle.std.specs.Map.{keys_of};
ghost use Rattle.sat_check.specs.DerivedStore.{cell_at, derived_at, key_at};
ghost use Rattle.sat_check.specs.Finder.{Changes};

use indexmap::IndexMap;
use sat_clause::Lit;
use std::alloc::{AllocError, Global};
use std::marker::Model;

/// How many cells there may be for each clause that was put in.
const CELLS_EACH: u64 = 4;

/// Clauses by their ids, each in memory of its own, which is given back where it is taken out.
///
/// Logs number the clauses that they add from the last input clause on. So the ids from there on
/// have a cell of a table each, which is read at once. The table grows with the ids that come, as
/// far as the number of clauses allows. The clauses with other ids, which a log may have as well,
/// stand in a map, until the table has grown up to them.
#[derive(Drop)]
pub(crate) struct DerivedClauses {
    first: u64,
    allowed: u64,
    table: Vec<Option<Vec<Lit>>>,
    others: IndexMap<u64, Vec<Lit>>,
}

impl Model for DerivedClauses {
    ghost use Rattle.sat_check.specs.DerivedStore.{DerivedState};

    ghost Value = { DerivedState };

    ghost view = { λ c. record {
      first = c.first;
      table = c.table.items;
      others = c.others.entries;
    } };
}

/// The cell of an id in a table of so many cells, where the first has this id.
fn cell_at(first: u64, count: usize, id: u64) -> Option<usize>
    ensures value { result ≡ cell_at first count id }
    ensures within { IfSome result (λ at. at < count) }
{
    if id < first {
        return None;
    }
    let at = id - first;
    if at < count as u64 {
        return Some(at as usize);
    }
    None
}

impl DerivedClauses {
    /// No clauses, and no cells, of which the first will have this id.
    pub(crate) fn new(alloc: Global, first: u64) -> DerivedClauses
        ensures first { result.first ≡ first }
        ensures none { (id : ℕ) → derived_at result id ≡ None }
    {
        DerivedClauses {
            first,
            allowed: 0,
            table: Vec::new(alloc),
            others: IndexMap::new(alloc),
        }
    }

    /// The clause with an id.
    pub(crate) fn get(&self, id: u64) -> Option<&[Lit]>
        ensures { option_map (λ c. c.now) result ≡ derived_at self.now id }
    {
        let Some(at) = cell_at(self.first, self.table.len(), id) else {
            let Some(clause) = self.others.get(&id) else {
                return None;
            };
            return Some(clause.as_slice());
        };
        let Some(clause) = &self.table[at] else {
            return None;
        };
        Some(clause.as_slice())
    }

    /// One more id gets a cell. A clause under it moves there.
    fn widen(&mut self) -> Result<(), AllocError>
        requires { self.old.first + length self.old.table < 2 ^ 64 }
        ensures first { self.new.first ≡ self.old.first }
        ensures longer { OnOk result (length self.new.table ≡ length self.old.table + 1) }
        ensures kept { (id : ℕ) → derived_at self.new id ≡ derived_at self.old id }
    {
        if self.others.is_empty() {
            self.table.push(None)?;
            return Ok(());
        }
        let id = self.first + self.table.len() as u64;
        self.table.reserve(1)?;
        let clause = self.others.swap_remove(&id);
        self.table.push_reserved(clause);
        Ok(())
    }

    /// The ids up to this one get cells, as far as the number of clauses allows one more clause.
    fn reach(&mut self, id: u64) -> Result<(), AllocError>
        ensures first { self.new.first ≡ self.old.first }
        ensures kept { (q : ℕ) → derived_at self.new q ≡ derived_at self.old q }
    {
        self.allowed = self.allowed.saturating_add(CELLS_EACH);
        if id < self.first {
            return Ok(());
        }
        let last = id - self.first;
        while self.table.len() as u64 <= last && (self.table.len() as u64) < self.allowed {
            self.widen()?;
        }
        Ok(())
    }

    /// Puts a clause in under an id, in place of any other, where the table is as it is.
    fn place(&mut self, id: u64, clause: Vec<Lit>) -> Result<(), AllocError>
        ensures first { self.new.first ≡ self.old.first }
        ensures ok { OnOk result
            (Changes (derived_at self.old) (derived_at self.new) id (Some clause.items)) }
        ensures err { OnErr result ((q : ℕ) → derived_at self.new q ≡ derived_at self.old q) }
    {
        let Some(at) = cell_at(self.first, self.table.len(), id) else {
            self.others.insert(id, clause)?;
            return Ok(());
        };
        self.table[at] = Some(clause);
        Ok(())
    }

    /// Puts a clause in under an id, in place of any other.
    pub(crate) fn put(&mut self, id: u64, clause: Vec<Lit>) -> Result<(), AllocError>
        ensures first { self.new.first ≡ self.old.first }
        ensures ok { OnOk result
            (Changes (derived_at self.old) (derived_at self.new) id (Some clause.items)) }
        ensures err { OnErr result ((q : ℕ) → derived_at self.new q ≡ derived_at self.old q) }
    {
        let Ok(()) = self.reach(id) else {
            return Err(AllocError);
        };
        let Ok(()) = self.place(id, clause) else {
            return Err(AllocError);
        };
        Ok(())
    }

    /// Takes out the clause with an id, and says whether there was one.
    pub(crate) fn take_out(&mut self, id: u64) -> bool
        ensures first { self.new.first ≡ self.old.first }
        ensures found { result ≡ is_some (derived_at self.old id) }
        ensures clauses { Changes (derived_at self.old) (derived_at self.new) id None }
    {
        let Some(at) = cell_at(self.first, self.table.len(), id) else {
            return self.others.swap_remove(&id).is_some();
        };
        let found = self.table[at].is_some();
        self.table[at] = None;
        found
    }

    /// How many ids have a cell. They are those from the first one on.
    pub(crate) fn cells(&self) -> usize
        ensures value { result ≡ length self.now.table }
        ensures small { result < 2 ^ 63 }
    {
        self.table.as_slice().len()
    }

    /// How many clauses stand in the map.
    pub(crate) fn outside(&self) -> usize
        ensures value { result ≡ length self.now.others }
        ensures small { result < 2 ^ 63 }
        ensures once { IsDistinct nat_eq (keys_of self.now.others) }
    {
        self.others.len()
    }

    /// The id of the clause at a position in the map.
    pub(crate) fn outside_id(&self, at: usize) -> Option<u64>
        ensures { result ≡ key_at self.now.others at }
    {
        let Some((id, _)) = self.others.as_slice().get_index(at) else {
            return None;
        };
        Some(*id)
    }
}
