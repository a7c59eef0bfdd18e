//! What a log says of a formula.

ghost use Rattle.std.specs.Prelude.{◌≡◌, IfOk};
ghost use Rattle.sat_clause.specs.Formula.{IsUnsat};
ghost use Rattle.sat_clause.specs.Judge.{judge, judge_by};
ghost use Rattle.sat_check.specs.Verdict.{judgement_of};

use crate::Verdict;
use crate::replay::Replay;
use crate::step_rule::StepRule;
use crate::unit_rule::UnitRule;
use sat_clause::{Formula, Log};
use std::alloc::{AllocError, Global};

/// Whether the log refutes the formula, by a rule of steps.
///
/// # Errors
/// Where memory is short.
pub fn check_by<'a, R: StepRule<'a>>(
    alloc: Global,
    formula: &'a Formula,
    log: &Log,
) -> Result<Verdict, AllocError>
    ensures judged { IfOk result
        (λ verdict. judgement_of verdict ≡ judge_by R.fault formula.now.cnf log.now.steps) }
    ensures sound { IfOk result (λ verdict. verdict ≡ Verdict.Accepted → IsUnsat formula.now.cnf) }
{
    let Ok(mut replay) = Replay::<R>::new(alloc, formula) else {
        return Err(AllocError);
    };
    for i in 0..log.len() {
        let Ok(()) = replay.take(log.step(i)) else {
            return Err(AllocError);
        };
    }
    Ok(replay.verdict())
}

/// Whether the log refutes the formula, by unit propagation along the hints of its steps, as in
/// LRAT without its resolution on a pivot.
///
/// The input clauses have the ids 1, 2 and so on. A step that adds a clause is refused where its
/// hints do not justify it, and a deletion where it names a clause that is not live. The first
/// empty clause whose step is good ends the steps. Ids may repeat: a clause that is added under an
/// id takes the place of the one before. Clauses of the log may have variables that the formula
/// does not have.
///
/// It takes time by the number of clauses, the greatest variable and the length of the log, and for
/// each hint a time by the length of its clause. A deletion takes the same time whatever is live.
/// Memory goes by the number of clauses, the greatest variable, the number of steps, and the
/// clauses that are live.
///
/// # Errors
/// Where memory is short.
pub fn check(alloc: Global, formula: &Formula, log: &Log) -> Result<Verdict, AllocError>
    ensures judged { IfOk result
        (λ verdict. judgement_of verdict ≡ judge formula.now.cnf log.now.steps) }
    ensures sound { IfOk result (λ verdict. verdict ≡ Verdict.Accepted → IsUnsat formula.now.cnf) }
{
    check_by::<UnitRule>(alloc, formula, log)
}
