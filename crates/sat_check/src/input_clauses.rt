//! The input clauses that are live.

ghost use Rattle.std.specs.Prelude.{◌≡◌, ◌≤◌, All, IfOk, IfSome, None, is_some, length, option_map};
ghost use Rattle.sat_clause.specs.Literal.{IsWithin};
ghost use Rattle.sat_clause.specs.Judge.{inputs as inputs_of};
ghost use Rattle.sat_check.specs.InputStore.{input_at, position_of};
ghost use Rattle.sat_check.specs.Finder.{Changes, Finds};

use sat_clause::{Formula, ID_LIMIT, Lit};
use std::alloc::{AllocError, Global};
use std::marker::Model;

/// The clauses of a formula that are live. Their ids are 1, 2 and so on, in order, so that it keeps
/// a mark for each of them and borrows the formula.
#[derive(Drop)]
pub(crate) struct InputClauses<'a> {
    formula: &'a Formula,
    live: Vec<bool>,
}

impl<'a> Model for InputClauses<'a> {
    ghost use Rattle.sat_check.specs.InputStore.{InputState, IsInputStore};

    ghost Value = { InputState };

    ghost view = { λ c. record {
      vars = c.formula.now.cnf.vars;
      marks = c.live.items;
      clauses = c.formula.now.cnf.clauses;
    } };

    ghost invariant = { λ c. IsInputStore c.live.items c.formula.now.cnf.clauses };
}

/// The position of the live clause with an id.
fn position_of(live: &[bool], id: u64) -> Option<usize>
    ensures { result ≡ position_of live.now id }
{
    if id == 0 {
        return None;
    }
    let at = id - 1;
    if at < live.len() as u64 && live[at as usize] {
        return Some(at as usize);
    }
    None
}

impl<'a> InputClauses<'a> {
    /// All clauses of the formula.
    pub(crate) fn all(alloc: Global, formula: &'a Formula) -> Result<InputClauses<'a>, AllocError>
        ensures many { IfOk result (λ c. length c.marks ≡ length formula.now.cnf.clauses) }
        ensures vars { IfOk result (λ c. c.vars ≡ formula.now.cnf.vars) }
        ensures live { IfOk result (λ c. Finds (input_at c) (inputs_of formula.now.cnf)) }
    {
        Ok(InputClauses {
            formula,
            live: vec![in alloc; true; formula.len() as usize]?,
        })
    }

    /// The live clause with an id.
    pub(crate) fn get(&self, id: u64) -> Option<&'a [Lit]>
        ensures value { option_map (λ c. c.now) result ≡ input_at self.now id }
        ensures within { IfSome result (λ c. All (IsWithin self.now.vars) c.now) }
    {
        let Some(at) = position_of(&self.live, id) else {
            return None;
        };
        Some(self.formula.clause(at as u32))
    }

    /// Takes out the clause with an id, and says whether it was live.
    pub(crate) fn take_out(&mut self, id: u64) -> bool
        ensures many { length self.new.marks ≡ length self.old.marks }
        ensures vars { self.new.vars ≡ self.old.vars }
        ensures found { result ≡ is_some (input_at self.old id) }
        ensures live { Changes (input_at self.old) (input_at self.new) id None }
    {
        let Some(at) = position_of(&self.live, id) else {
            return false;
        };
        self.live[at] = false;
        true
    }

    /// How many clauses the formula has.
    pub(crate) fn len(&self) -> usize
        ensures value { result ≡ length self.now.marks }
        ensures few { result ≤ ID_LIMIT }
    {
        self.live.len()
    }
}
