//! As what variables are decided.

ghost use Rattle.std.specs.Prelude.{◌≡◌, ◌≤◌};
ghost use Rattle.sat_clause.specs.Literal.{variable};

use crate::habits::DecidedValue;
use sat_clause::{Lit, VARIABLE_LIMIT};
use std::alloc::{AllocError, Global};

/// The value as which each variable is decided. Nothing but [`SavedValues::new`] takes memory.
#[derive(Drop)]
pub(crate) struct SavedValues {
    // by the number of the variable
    values: Vec<bool>,
    // whether the values that variables lose come in their place
    are_saved: bool,
}

impl SavedValues {
    /// Those of a search in which no variable has had a value.
    pub(crate) fn new(
        alloc: Global,
        vars: u32,
        value: DecidedValue,
    ) -> Result<SavedValues, AllocError>
        requires { vars ≤ VARIABLE_LIMIT }
    {
        let are_saved = match value {
            DecidedValue::True => false,
            DecidedValue::Last => true,
        };
        Ok(SavedValues {
            values: vec![in alloc; !are_saved; vars as usize + 1]?,
            are_saved,
        })
    }

    /// Takes the value that a literal's variable loses, which the literal makes true.
    pub(crate) fn save(&mut self, l: Lit) {
        if !self.are_saved {
            return;
        }
        if let Some(value) = self.values.get_mut(l.variable() as usize) {
            *value = l.is_positive();
        }
    }

    /// The literal as which a variable is decided.
    pub(crate) fn literal(&self, v: u32) -> Lit
        requires some { 1 ≤ v }
        requires few { v ≤ VARIABLE_LIMIT }
        ensures { variable result ≡ v }
    {
        let l = Lit::positive(v);
        if self.values.get(v as usize).copied().unwrap_or(true) {
            return l;
        }
        l.negation()
    }
}
