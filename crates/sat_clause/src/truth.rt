//! Whether truth values satisfy a formula.

ghost use Rattle.std.specs.Prelude.{◌≡◌, ◌↔◌, IsTrue, All, length};
ghost use Rattle.sat_clause.specs.Literal.{IsWithin};
ghost use Rattle.sat_clause.specs.Formula.{IsTrueClause, Satisfies};

use crate::{Formula, Lit};

/// Whether the clause has a true literal.
fn is_true_clause(values: &[bool], clause: &[Lit]) -> bool
    requires { All (IsWithin (length values.now)) clause.now }
    ensures { IsTrue result ↔ IsTrueClause values.now clause.now }
{
    for l in clause {
        if l.is_true(values) {
            return true;
        }
    }
    false
}

/// Whether each clause of the formula has a true literal, where variable 1 has the first of the
/// values, variable 2 the second, and so on. There is one value for each variable.
pub fn holds(values: &[bool], formula: &Formula) -> bool
    requires { length values.now ≡ formula.now.cnf.vars }
    ensures { IsTrue result ↔ Satisfies values.now formula.now.cnf }
{
    for i in 0..formula.len() {
        if !is_true_clause(values, formula.clause(i)) {
            return false;
        }
    }
    true
}
