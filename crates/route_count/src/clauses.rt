//! Under which ids clauses stand in a formula.
ghost use Rattle.std.specs.Prelude.{◌↔◌, ◌≤◌, ◌<◌, ◌^◌, IsTrue, length};
ghost use Rattle.route_count.specs.Said.{IsInput, IsOneOf};

use sat_clause::{Formula, Lit};

/// The id of a clause of the formula: the one that is expected, or else the first. Ids are expected
/// where they are; but no clause says so, and so the others are looked at too.
pub(crate) fn clause_id(formula: &Formula, expected: u64, clause: &[Lit]) -> u64
    requires { IsOneOf formula.now.cnf.clauses clause.now }
    ensures id { IsInput formula.now.cnf result clause.now }
    ensures few { result < 2 ^ 32 }
{
    let count = formula.len() as u64;
    if is_clause(formula, expected, clause) {
        return expected;
    }
    for place in 0..count {
        if is_clause(formula, place + 1, clause) {
            return place + 1;
        }
    }
    unreachable!()
}

/// Whether this is the clause with the id.
fn is_clause(formula: &Formula, id: u64, clause: &[Lit]) -> bool
    ensures { IsTrue result ↔ ((1 ≤ id) × (id ≤ length formula.now.cnf.clauses)
        × IsInput formula.now.cnf id clause.now) }
{
    if id == 0 || id > formula.len() as u64 {
        return false;
    }
    formula.clause(id as u32 - 1) == clause
}
