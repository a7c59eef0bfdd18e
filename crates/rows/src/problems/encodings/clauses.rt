//! The clauses of a formula, as they are printed.
ghost use Rattle.std.specs.Prelude.{◌≡◌, ◌++◌, IfOk, OnOk, codes, string_bytes};
ghost use Rattle.sat_text.specs.Printed.{clause_text, head_text, literal_text};

use sat_clause::{Formula, Lit};
use std::alloc::{AllocError, Global};

/// The line of a clause.
pub(crate) fn clause_line(alloc: Global, lits: &[Lit]) -> Result<String, AllocError>
    ensures { IfOk result (λ line. string_bytes line ++ codes "\n" ≡ clause_text lits.now) }
{
    let mut line = String::new(alloc);
    for lit in lits {
        push_literal(alloc, &mut line, *lit)?;
    }
    line.push('0')?;
    Ok(line)
}

// Puts a literal and a blank behind the line.
fn push_literal(alloc: Global, line: &mut String, lit: Lit) -> Result<(), AllocError>
    ensures { OnOk result (string_bytes line.new ≡ string_bytes line.old ++ literal_text lit) }
{
    let code = lit.code;
    line.push_str(format!(in alloc; "{code} ")?.as_str())
}

/// The first line of a formula.
pub(crate) fn head_line(alloc: Global, formula: &Formula) -> Result<String, AllocError>
    ensures { IfOk result (λ line. string_bytes line ++ codes "\n" ≡ head_text formula.now.cnf) }
{
    let vars = formula.vars();
    let clauses = formula.len();
    let line = format!(in alloc; "p cnf {vars} {clauses}")?;
    Ok(line)
}
