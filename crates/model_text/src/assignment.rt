//! Which literals are said to be true.
ghost use Rattle.std.specs.Prelude.{◌≡◌, ◌≤◌, ◌||◌, List, None, All, IfOk, vec_len};
ghost use Rattle.std.specs.List.{list_any};
ghost use Rattle.std.specs.Ordering.{int_eq};
ghost use Rattle.sat_clause.specs.declared.limits.TheConstants.{VARIABLE_LIMIT};
ghost use Rattle.sat_clause.specs.declared.literal.Lit.{Lit};
ghost use Rattle.sat_clause.specs.Formula.{Cnf, Satisfies};
ghost use Rattle.sat_clause.specs.Literal.{IsWithin};

use sat_clause::{Formula, Lit, VARIABLE_LIMIT};
use std::alloc::{AllocError, Global};

/// Which literals of some variables are said to be true: of each variable itself, its negation, or
/// neither.
#[derive(Drop)]
pub struct Assignment {
    positive: Vec<bool>,
    negative: Vec<bool>,
    ghost alike: { vec_len negative ≡ vec_len positive },
    ghost few: { vec_len positive ≤ VARIABLE_LIMIT },
}

impl Assignment {
    ghost use Rattle.std.specs.Prelude.{false, length};
    ghost use Rattle.model_text.specs.Assignments.{Gives, gives, vars_in};
    ghost use Rattle.model_text.specs.Models.{first_unmet};

    /// No literal of so many variables is said to be true.
    pub(crate) fn new(alloc: Global, vars: u32) -> Result<Assignment, AllocError>
        requires { vars ≤ VARIABLE_LIMIT }
        ensures vars { IfOk result (λ a. vars_in a ≡ vars) }
        ensures none { IfOk result (λ a. (l : Lit) → gives a l ≡ false) }
    {
        let Ok(positive) = vec![in alloc; false; vars as usize] else {
            return Err(AllocError);
        };
        let Ok(negative) = vec![in alloc; false; vars as usize] else {
            return Err(AllocError);
        };
        Ok(Assignment { positive, negative })
    }

    /// The number of variables.
    pub(crate) fn vars(&self) -> u32
        ensures vars { result ≡ vars_in self.now }
        ensures few { result ≤ VARIABLE_LIMIT }
    {
        self.positive.len() as u32
    }

    /// Whether a literal is said to be true.
    pub(crate) fn gives(&self, literal: Lit) -> bool
        requires { IsWithin (vars_in self.now) literal }
        ensures { result ≡ gives self.now literal }
    {
        let place = literal.variable() as usize - 1;
        if literal.is_positive() {
            return self.positive[place];
        }
        self.negative[place]
    }

    /// Says one more literal to be true.
    pub(crate) fn add(&mut self, literal: Lit)
        requires { IsWithin (vars_in self.old) literal }
        ensures vars { vars_in self.new ≡ vars_in self.old }
        ensures gives { (l : Lit) → IsWithin (vars_in self.old) l
            → gives self.new l ≡ (gives self.old l || int_eq literal.code l.code) }
    {
        let place = literal.variable() as usize - 1;
        if literal.is_positive() {
            self.positive[place] = true;
            return;
        }
        self.negative[place] = true;
    }

    /// Whether a literal of a clause is said to be true.
    fn meets(&self, clause: &[Lit]) -> bool
        requires { All (IsWithin (vars_in self.now)) clause.now }
        ensures { result ≡ list_any (gives self.now) clause.now }
    {
        for literal in clause {
            if self.gives(*literal) {
                return true;
            }
        }
        false
    }

    /// The number, counted from 1 on, of the formula's first clause of which no literal is said to
    /// be true, if there is one.
    pub fn first_unmet(&self, formula: &Formula) -> Option<u32>
        requires { vars_in self.now ≡ formula.now.cnf.vars }
        ensures { (literals : List Lit) → Gives formula.now.cnf.vars literals self.now
            → result ≡ first_unmet literals formula.now.cnf.clauses }
    {
        for i in 0..formula.len() {
            if !self.meets(formula.clause(i)) {
                return Some(i + 1);
            }
        }
        None
    }

    /// A value for each variable, of variable 1 first: those that are said to be true are, and no
    /// others. Where each clause of a formula has a literal that is said to be true, these values
    /// satisfy it.
    pub fn values(&self) -> &[bool]
        ensures { (literals : List Lit) (formula : Cnf) → Gives formula.vars literals self.now
            → first_unmet literals formula.clauses ≡ None → Satisfies result.now formula }
    {
        &self.positive
    }
}
