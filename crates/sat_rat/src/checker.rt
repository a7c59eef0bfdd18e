//! What a log of full LRAT says of a formula.

ghost use Rattle.std.specs.Prelude.{◌≡◌, IfOk};
ghost use Rattle.sat_clause.specs.Formula.{IsUnsat};
ghost use Rattle.sat_check.specs.Verdict.{judgement_of};
ghost use Rattle.sat_rat.specs.FullJudge.{full_judge};

use crate::FullRule;
use sat_check::{Verdict, check_by};
use sat_clause::{Formula, Log};
use std::alloc::{AllocError, Global};

/// Whether the log refutes the formula, by unit propagation along the hints of its steps and
/// resolution on the first literal, as in LRAT.
///
/// A step that adds a clause is good where its hints lead to a conflict, or where behind them each
/// live clause with the negation of its first literal has one group of hints, which shows that the
/// clause without that literal follows. For the rest it is as [`check`](sat_check::check).
///
/// Where no step needs resolution, it takes the time and memory of `check`, and a second set of
/// false literals. The first step that does takes a time by the literals of the live clauses, which
/// are then counted, in 8 bytes for each variable. From there on each clause that comes or goes
/// takes a time by its literals, and each group one by its clause and those of its hints.
///
/// # Errors
/// Where memory is short, or behind a step that needs resolution a literal stands in the live
/// clauses more than 4294967295 times.
pub fn check_full(alloc: Global, formula: &Formula, log: &Log) -> Result<Verdict, AllocError>
    ensures judged { IfOk result
        (λ verdict. judgement_of verdict ≡ full_judge formula.now.cnf log.now.steps) }
    ensures sound { IfOk result (λ verdict. verdict ≡ Verdict.Accepted → IsUnsat formula.now.cnf) }
{
    check_by::<FullRule>(alloc, formula, log)
}
