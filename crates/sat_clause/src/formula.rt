//! Formulas, as the literals of all clauses in one vector and where each clause ends in another.

ghost use Rattle.std.specs.Prelude.{◌≡◌, ◌+◌, ◌-◌, ◌<◌, ◌≤◌, ◌≢◌, [], ◌∷◌, ◌++◌, length, All, OnOk, OnErr, slice_get};
ghost use Rattle.sat_clause.specs.Literal.{IsWithin};
ghost use Rattle.sat_clause.specs.FormulaStore.{reserved};

use crate::Lit;
use crate::limits::{ID_LIMIT, VARIABLE_LIMIT};
use crate::parts::part;
use std::alloc::{AllocError, Global};
use std::marker::Model;

/// A formula in conjunctive normal form: a number of variables, and clauses in order.
///
/// Only [`Formula::reserve`] takes memory. It makes room for clauses and for literals, and each
/// push uses some of it up.
#[derive(Drop)]
pub struct Formula {
    vars: u32,
    lits: Vec<Lit>,
    ends: Vec<u32>,
    clause_room: u32,
    lit_room: u64,
}

impl Model for Formula {
    ghost use Rattle.sat_clause.specs.Parts.{parts_from};
    ghost use Rattle.sat_clause.specs.FormulaStore.{FormulaState, IsFormulaStore};

    ghost Value = { FormulaState };

    ghost view = { λ f. record {
      cnf = record { vars = f.vars; clauses = parts_from 0 f.lits.items f.ends.items };
      clause_room = f.clause_room;
      lit_room = f.lit_room;
    } };

    ghost invariant = { λ f. IsFormulaStore f.vars f.lits f.ends f.clause_room f.lit_room };
}

impl Formula {
    /// The formula without variables and clauses. It has no room, and takes no memory.
    pub fn new(alloc: Global) -> Formula
        ensures { result ≡ record {
          cnf = record { vars = 0; clauses = [] };
          clause_room = 0;
          lit_room = 0;
        } }
    {
        Formula {
            vars: 0,
            lits: Vec::new(alloc),
            ends: Vec::new(alloc),
            clause_room: 0,
            lit_room: 0,
        }
    }

    /// Sets the number of variables, and makes room for so many more clauses with so many literals
    /// in all. Room that is there already stays, so two calls make room for the larger number of
    /// each.
    ///
    /// A formula with clauses can't get fewer variables, and none has more than 100,000,000.
    ///
    /// # Errors
    /// Where memory is short, or the literals in all would be more than 4,294,967,295; the formula
    /// is then as it was.
    pub fn reserve(&mut self, vars: u32, clauses: u32, lits: u64) -> Result<(), AllocError>
        requires few_vars { vars ≤ VARIABLE_LIMIT }
        requires no_fewer { self.old.cnf.clauses ≢ [] → self.old.cnf.vars ≤ vars }
        requires few_clauses { length self.old.cnf.clauses + clauses ≤ ID_LIMIT }
        ensures ok { OnOk result (self.new ≡ reserved self.old vars clauses lits) }
        ensures err { OnErr result (self.new ≡ self.old) }
    {
        if lits > 4294967295 - self.lits.len() as u64 {
            return Err(AllocError);
        }
        self.ends.reserve(clauses as usize)?;
        self.lits.reserve(lits as usize)?;
        self.vars = vars;
        self.clause_room = self.clause_room.max(clauses);
        self.lit_room = self.lit_room.max(lits);
        Ok(())
    }

    /// Adds a clause at the end, with its literals as they stand. There is room for it, and its
    /// literals are of the formula's variables. It can't be refused.
    pub fn push(&mut self, lits: &[Lit])
        requires within { All (IsWithin self.old.cnf.vars) lits.now }
        requires clause_room { 1 ≤ self.old.clause_room }
        requires lit_room { length lits.now ≤ self.old.lit_room }
        ensures vars { self.new.cnf.vars ≡ self.old.cnf.vars }
        ensures clauses { self.new.cnf.clauses ≡ self.old.cnf.clauses ++ lits.now ∷ [] }
        ensures clause_room { self.new.clause_room ≡ self.old.clause_room - 1 }
        ensures lit_room { self.new.lit_room ≡ self.old.lit_room - length lits.now }
    {
        let Ok(()) = self.lits.extend_from_slice(lits) else {
            unreachable!();
        };
        self.ends.push_reserved(self.lits.len() as u32);
        self.clause_room -= 1;
        self.lit_room -= lits.len() as u64;
    }

    /// The number of variables, which are 1, 2 and so on. The literals of all clauses are of these.
    pub fn vars(&self) -> u32
        ensures value { result ≡ self.now.cnf.vars }
        ensures few { result ≤ VARIABLE_LIMIT }
        ensures within { All (All (IsWithin self.now.cnf.vars)) self.now.cnf.clauses }
    {
        self.vars
    }

    /// The number of clauses.
    pub fn len(&self) -> u32
        ensures { result ≡ length self.now.cnf.clauses }
    {
        self.ends.len() as u32
    }

    /// The clause at a position, counted from 0, with its literals as they were pushed.
    pub fn clause(&self, i: u32) -> &[Lit]
        requires { i < length self.now.cnf.clauses }
        ensures value { slice_get self.now.cnf.clauses i ≡ Some result.now }
        ensures within { All (IsWithin self.now.cnf.vars) result.now }
    {
        part(&self.lits, &self.ends, i as usize)
    }
}
