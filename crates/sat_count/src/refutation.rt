//! A refutation that is being written.
ghost use Rattle.std.specs.Prelude.{◌≡◌, ◌≢◌, ◌-◌, ◌^◌, ◌≤◌, ◌<◌, [], ◌∷◌, All, IfOk, OnOk, length, negsuc, pos, suc};
ghost use Rattle.sat_clause.specs.Formula.{IsUnsat};
ghost use Rattle.sat_clause.specs.Literal.{IsWithin};
ghost use Rattle.sat_clause.specs.declared.limits.TheConstants.{ID_LIMIT, LITERAL_LIMIT};
ghost use Rattle.sat_rat.specs.FullJudge.{FullAccepts};
ghost use Rattle.sat_rat.specs.FullRup.{full_rup};
ghost use Rattle.sat_count.specs.Names.{no, yes};
ghost use Rattle.sat_count.specs.Refuting.{Adds, AreLive, Defines, Erases, IsRefutation, added, begun, ids_behind as ids_between, live_of, widened};

use sat_clause::{Formula, LITERAL_LIMIT, Lit, Log};
use std::alloc::{AllocError, Global};
use std::marker::Model;

/// Steps behind the clauses of a formula, each of which adds a clause under the next id, or deletes
/// clauses. All of them are good by the rules of full LRAT, and none adds the empty clause.
#[derive(Drop)]
pub struct Refutation<'a> {
    formula: &'a Formula,
    log: Log,
    last_id: u32,
    last_variable: u32,
}

impl<'a> Model for Refutation<'a> {
    ghost use Rattle.sat_count.specs.Refuting.{IsRefutation, RefutationState};

    ghost Value = { RefutationState };

    ghost view = { λ r. record {
      cnf = r.formula.now.cnf;
      steps = r.log.steps;
      last_id = r.last_id;
      last_variable = r.last_variable;
    } };

    ghost invariant = { λ r. IsRefutation (record {
      cnf = r.formula.now.cnf;
      steps = r.log.steps;
      last_id = r.last_id;
      last_variable = r.last_variable;
    }) };
}

/// The variable whose number less one this is.
pub fn plain(name: u32) -> Lit
    requires { name < LITERAL_LIMIT }
    ensures { result ≡ yes name }
{
    Lit::positive(name + 1)
}

/// Its negation.
pub fn negated(name: u32) -> Lit
    requires { name < LITERAL_LIMIT }
    ensures { result ≡ no name }
{
    plain(name).negation()
}

impl<'a> Refutation<'a> {
    /// No step behind the clauses of a formula, of which there are no more than ids.
    pub fn of(alloc: Global, formula: &'a Formula) -> Refutation<'a>
        ensures begun { result ≡ begun formula.now.cnf }
        ensures few { length formula.now.cnf.clauses ≤ ID_LIMIT }
    {
        Refutation {
            formula,
            log: Log::new(alloc),
            last_id: formula.len(),
            last_variable: formula.vars(),
        }
    }

    /// Makes room for so many more steps with so many literals, hints and ids together.
    ///
    /// # Errors
    /// Where memory is short.
    pub fn reserve(&mut self, steps: u64, numbers: u64) -> Result<(), AllocError>
        ensures { self.new ≡ self.old }
    {
        self.log.reserve(steps, numbers)
    }

    /// The id of the last clause.
    pub fn last_id(&self) -> u32
        ensures { result ≡ self.now.last_id }
    {
        self.last_id
    }

    /// The number of the last variable, which is that of the next one less one.
    pub fn last_variable(&self) -> u32
        ensures value { result ≡ self.now.last_variable }
        ensures few { result ≤ LITERAL_LIMIT }
        ensures good { IsRefutation self.now }
    {
        self.last_variable
    }

    /// The number of steps.
    pub fn len(&self) -> u64
        ensures { result ≡ length self.now.steps }
    {
        self.log.len()
    }

    /// Adds a clause under the next id, which its hints justify. It is not the empty one.
    ///
    /// # Errors
    /// Where memory is short.
    pub fn add(&mut self, clause: &[Lit], hints: &[i64]) -> Result<(), AllocError>
        requires some { clause.now ≢ [] }
        requires within { All (IsWithin self.old.last_variable) clause.now }
        requires follows { full_rup (live_of self.old) clause.now hints.now ≡ None }
        ensures adds { OnOk result (Adds self.old self.new clause.now) }
        ensures steps { OnOk result (self.new ≡ added self.old clause.now hints.now) }
    {
        // A log of so many clauses would take more than 60 GiB.
        if self.last_id == u32::MAX {
            return Err(AllocError);
        }
        let numbers = clause.len() as u64 + hints.len() as u64;
        let Ok(()) = self.log.reserve(1, numbers) else {
            return Err(AllocError);
        };
        self.last_id += 1;
        self.log.add(self.last_id, clause, hints);
        Ok(())
    }

    /// Adds a new variable that is true exactly where the first one is, or both others are: the
    /// clauses that it is true where the first is; where both others are; that where it is true and
    /// the first is not, the second is; and the third. The variables are given by their numbers
    /// less one.
    ///
    /// # Errors
    /// Where memory is short.
    pub fn define(&mut self, kept: u32, moved: u32, given: u32) -> Result<(), AllocError>
        requires kept { kept < self.old.last_variable }
        requires moved { moved < self.old.last_variable }
        requires given { given < self.old.last_variable }
        ensures { OnOk result (Defines self.old self.new kept moved given) }
    {
        let name = self.last_variable();
        let groups = groups_behind(self.last_id());
        if name >= LITERAL_LIMIT {
            return Err(AllocError);
        }
        self.widen();
        let Ok(()) = self.add(&by_kept(name, kept), &[]) else {
            return Err(AllocError);
        };
        let Ok(()) = self.add(&by_moved(name, moved, given), &[]) else {
            return Err(AllocError);
        };
        let Ok(()) = self.add(&or_else(name, kept, moved), &groups) else {
            return Err(AllocError);
        };
        let Ok(()) = self.add(&or_else(name, kept, given), &groups) else {
            return Err(AllocError);
        };
        Ok(())
    }

    /// Counts one variable more.
    fn widen(&mut self)
        requires { self.old.last_variable < LITERAL_LIMIT }
        ensures { self.new ≡ widened self.old }
    {
        self.last_variable += 1;
    }

    /// Deletes the clauses with the ids behind one and up to another, all of which are live.
    ///
    /// # Errors
    /// Where memory is short.
    pub fn erase(&mut self, alloc: Global, behind: u32, last: u32) -> Result<(), AllocError>
        requires order { behind ≤ last }
        requires live { AreLive self.old behind last }
        ensures { OnOk result (Erases self.old self.new last) }
    {
        if behind == last {
            return Ok(());
        }
        let Ok(ids) = ids_behind(alloc, behind, last) else {
            return Err(AllocError);
        };
        let Ok(()) = self.log.reserve(1, ids.len() as u64) else {
            return Err(AllocError);
        };
        self.log.erase(self.last_id, &ids);
        Ok(())
    }

    /// Adds the empty clause, which the hints justify, and gives the steps, which refute the
    /// formula.
    ///
    /// # Errors
    /// Where memory is short.
    pub fn finish(self, hints: &[i64]) -> Result<Log, AllocError>
        requires { full_rup (live_of self) [] hints.now ≡ None }
        ensures accepted { IfOk result (λ log. FullAccepts self.entry.cnf log.steps) }
        ensures sound { IfOk result (λ log. IsUnsat self.entry.cnf) }
    {
        // As in `add`: ids rise, so that the log can be read.
        if self.last_id == u32::MAX {
            return Err(AllocError);
        }
        let mut log = self.log;
        let Ok(()) = log.reserve(1, hints.len() as u64) else {
            return Err(AllocError);
        };
        log.add(self.last_id + 1, &[], hints);
        Ok(log)
    }
}

/// The clause that a variable is true where another is.
fn by_kept(name: u32, kept: u32) -> [Lit; 2]
    requires name { name < LITERAL_LIMIT }
    requires kept { kept < LITERAL_LIMIT }
    ensures { result ≡ yes name ∷ no kept ∷ [] }
{
    [plain(name), negated(kept)]
}

/// The clause that it is true where two others are.
fn by_moved(name: u32, moved: u32, given: u32) -> [Lit; 3]
    requires name { name < LITERAL_LIMIT }
    requires moved { moved < LITERAL_LIMIT }
    requires given { given < LITERAL_LIMIT }
    ensures { result ≡ yes name ∷ no moved ∷ no given ∷ [] }
{
    [plain(name), negated(moved), negated(given)]
}

/// The clause that where it is true one of two others is.
fn or_else(name: u32, kept: u32, other: u32) -> [Lit; 3]
    requires name { name < LITERAL_LIMIT }
    requires kept { kept < LITERAL_LIMIT }
    requires other { other < LITERAL_LIMIT }
    ensures { result ≡ no name ∷ yes kept ∷ yes other ∷ [] }
{
    [negated(name), plain(kept), plain(other)]
}

/// Groups for the next two clauses behind an id, as hints.
fn groups_behind(id: u32) -> [i64; 2]
    ensures { result ≡ negsuc id ∷ negsuc (suc id) ∷ [] }
{
    [group_for(id as u64 + 1), group_for(id as u64 + 2)]
}

/// A group for the clause with an id, as a hint.
fn group_for(id: u64) -> i64
    requires some { 1 ≤ id }
    requires few { id < 2 ^ 40 }
    ensures { result ≡ negsuc (id - 1) }
{
    -(id as i64)
}

/// The ids behind one and up to another.
fn ids_behind(alloc: Global, behind: u32, last: u32) -> Result<Vec<i64>, AllocError>
    requires { behind ≤ last }
    ensures { IfOk result (λ ids. ids.items ≡ ids_between behind (last - behind)) }
{
    let mut ids = Vec::new(alloc);
    for id in behind..last {
        ids.push(hint_behind(id))?;
    }
    Ok(ids)
}

/// The clause with the next id, as a hint.
fn hint_behind(id: u32) -> i64
    ensures { result ≡ pos (suc id) }
{
    id as i64 + 1
}
