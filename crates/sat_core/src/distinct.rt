//! The different literals of a clause.

ghost use Rattle.std.specs.Prelude.{◌≡◌, IfOk, true};
ghost use Rattle.std.specs.List.Sorted.{IsNonDecreasingBy};
ghost use Rattle.sat_clause.specs.Literal.{variable};
ghost use Rattle.sat_core.specs.Kept.{HasOnce, IsDistinct};

use sat_clause::Lit;
use std::alloc::AllocError;

/// Whether the variable of each literal is above that of the one before it.
pub(crate) fn is_rising(lits: &[Lit]) -> bool
    ensures { result ≡ true → HasOnce lits.now }
{
    let mut last = 0;
    for l in lits {
        if l.variable() <= last {
            return false;
        }
        last = l.variable();
    }
    true
}

/// Puts the different literals of a clause, which stand by their variables, into a vector, in place
/// of what it held. False where a literal and its negation stand in the clause.
fn take_sorted(sorted: &[Lit], distinct: &mut Vec<Lit>) -> Result<bool, AllocError>
    requires { IsNonDecreasingBy variable sorted.now }
    ensures { IfOk result (IsDistinct sorted.now distinct.new.items) }
{
    distinct.clear();
    for l in sorted {
        let Some(last) = distinct.last() else {
            distinct.push(*l)?;
            continue;
        };
        if last.variable() < l.variable() {
            distinct.push(*l)?;
            continue;
        }
        if *last != *l {
            return Ok(false);
        }
    }
    Ok(true)
}

/// Puts the different literals of a clause into a vector, by their variables, in place of what it
/// held; in the other one the clause is sorted. False where a literal and its negation stand in the
/// clause, so that it is always true. Takes `n log n` steps for `n` literals.
pub(crate) fn take_distinct(
    lits: &[Lit],
    sorted: &mut Vec<Lit>,
    distinct: &mut Vec<Lit>,
) -> Result<bool, AllocError>
    ensures { IfOk result (IsDistinct lits.now distinct.new.items) }
{
    sorted.clear();
    sorted.extend_from_slice(lits)?;
    sorted.sort_unstable_by_key(|l| l.variable());
    take_sorted(sorted, distinct)
}
