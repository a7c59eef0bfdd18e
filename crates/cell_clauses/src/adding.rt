//! Clauses that are added with the memory that they take.
ghost use Rattle.std.specs.Prelude.{[], ◌∷◌, All, OnOk};
ghost use Rattle.cell_clauses.specs.Adding.{Extends};
ghost use Rattle.sat_clause.specs.Literal.{IsWithin};

use sat_clause::{Formula, ID_LIMIT, Lit};
use std::alloc::AllocError;

/// Adds a clause at the end. Its literals are of the formula's variables.
///
/// # Errors
/// Where memory is short, or the formula would have more than 4,294,967,295 clauses or literals.
pub(crate) fn extend(formula: &mut Formula, clause: &[Lit]) -> Result<(), AllocError>
    requires { All (IsWithin formula.old.cnf.vars) clause.now }
    ensures { OnOk result (Extends formula.old (clause.now ∷ []) formula.new) }
{
    if formula.len() == ID_LIMIT {
        return Err(AllocError);
    }
    let vars = formula.vars();
    formula.reserve(vars, 1, clause.len() as u64)?;
    formula.push(clause);
    Ok(())
}
