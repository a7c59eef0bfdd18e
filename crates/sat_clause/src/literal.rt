//! Literals as DIMACS writes them.

ghost use Rattle.std.specs.Prelude.{◌≡◌, ◌≤◌, length};
ghost use Rattle.sat_clause.specs.Literal.{IsLiteral, IsWithin, is_positive as is_positive_of, negation as negation_of, positive as positive_of, variable as variable_of};
ghost use Rattle.sat_clause.specs.Formula.{makes_true};

use crate::limits::LITERAL_LIMIT;

/// A literal: a variable, or its negation.
///
/// The type itself keeps no fact. Calls that take literals ask for numbers that are not 0.
#[derive(Clone, Copy, Debug, PartialEq, Eq)]
pub struct Lit {
    /// The number of the variable, from 1 to 2147483647, and below 0 for its negation.
    pub code: i32,
}

impl Lit {
    /// The literal of a variable that is not negated.
    pub fn positive(variable: u32) -> Lit
        requires { variable ≤ LITERAL_LIMIT }
        ensures { result ≡ positive_of variable }
    {
        Lit {
            code: variable as i32,
        }
    }

    /// Whether it is a variable and not a negation.
    pub fn is_positive(self) -> bool
        ensures { result ≡ is_positive_of self }
    {
        self.code > 0
    }

    /// The number of its variable: its own number without a sign.
    pub fn variable(self) -> u32
        ensures { result ≡ variable_of self }
    {
        self.code.unsigned_abs()
    }

    /// The literal that is true where this one is false.
    #[tactic(auto, using(crate::proofs::LiteralLaws::variable_negation))]
    pub fn negation(self) -> Lit
        requires { IsLiteral self }
        ensures value { result ≡ negation_of self }
        ensures variable { variable_of result ≡ variable_of self }
    {
        Lit { code: -self.code }
    }

    /// Whether it is true where variable 1 has the first of the values, variable 2 the second, and
    /// so on. There is a value for its variable.
    pub fn is_true(self, values: &[bool]) -> bool
        requires { IsWithin (length values.now) self }
        ensures { result ≡ makes_true values.now self }
    {
        values[self.variable() as usize - 1] == self.is_positive()
    }
}
