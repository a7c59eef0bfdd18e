//! The log of a search over representatives, made to one over the formula.

ghost use Rattle.std.specs.Prelude.{◌≡◌, ◌+◌, ◌∷◌, ◌++◌, [], Bool, IfOk, IsTrue, OnOk, All, List, length};
ghost use Rattle.sat_check.specs.Finder.{Finds};
ghost use Rattle.sat_check.specs.LiveStore.{live_at};
ghost use Rattle.sat_check.specs.Verdict.{step_of};
ghost use Rattle.sat_clause.specs.Formula.{Cnf};
ghost use Rattle.sat_clause.specs.Literal.{IsLiteral, IsWithin};
ghost use Rattle.sat_clause.specs.Live.{Live, put as put_in};
ghost use Rattle.sat_clause.specs.Step.{Step, Added, Erased};
ghost use Rattle.sat_core.specs.Stands.{IsAbove};
ghost use Rattle.sat_merge.specs.Representatives.{keeps};
ghost use Rattle.sat_merge.specs.Rewriting.{IsRewriting};
ghost use Rattle.sat_merge.specs.Rewritten.{IsRewritten};

use crate::hints::HintWriter;
use crate::representatives::Representatives;
use sat_check::LiveClauses;
use sat_clause::{Formula, Lit, Log, StepView};
use std::alloc::{AllocError, Global};

/// Whether the number is an id above this one.
fn is_above(id: i64, number: u32) -> bool
    ensures { IsTrue result → IsAbove number id }
{
    id > number as i64
}

/// Whether all numbers are ids above this one.
pub(crate) fn are_above(ids: &[i64], number: u32) -> bool
    ensures { IsTrue result → All (IsAbove number) ids.now }
{
    for id in ids {
        if !is_above(*id, number) {
            return false;
        }
    }
    true
}

/// Adds a clause to the log and to what is live.
pub(crate) fn log_clause(
    live: &mut LiveClauses<'_>,
    log: &mut Log,
    id: u32,
    clause: &[Lit],
    hints: &[i64],
) -> Result<(), AllocError>
    requires within { All (IsWithin live.old.vars) clause.now }
    requires literals { All IsLiteral clause.now }
    ensures vars { live.new.vars ≡ live.old.vars }
    ensures live { OnOk result ((clauses : Live) → Finds (live_at live.old) clauses
        → Finds (live_at live.new) (put_in clauses id clause.now)) }
    ensures logged { OnOk result
        (log.new.steps ≡ log.old.steps ++ Added id clause.now hints.now ∷ []) }
{
    log.reserve(1, (clause.len() + hints.len()) as u64)?;
    live.put(id, clause)?;
    log.add(id, clause, hints);
    Ok(())
}

/// Adds a clause to the log and to what is live, with hints over the formula, if they justify it.
fn add(
    representatives: &Representatives,
    live: &mut LiveClauses<'_>,
    writer: &mut HintWriter,
    log: &mut Log,
    id: u32,
    clause: &[Lit],
    hints: &[i64],
) -> Result<bool, AllocError>
    requires literals { All IsLiteral clause.now }
    requires representatives { length representatives.now ≡ live.old.vars + 1 }
    requires vars { writer.old.vars ≡ live.old.vars }
    ensures live { live.new.vars ≡ live.old.vars }
    ensures vars { writer.new.vars ≡ writer.old.vars }
    ensures added { IfOk result (λ is. IsTrue is → (formula : Cnf) → (steps : List Step)
        → IsRewriting (keeps representatives.now) formula steps live.old log.old.steps
        → IsRewriting (keeps representatives.now) formula
        (steps ++ Added id clause.now hints.now ∷ []) live.new log.new.steps) }
{
    if !representatives.are_kept(clause) {
        return Ok(false);
    }
    if !writer.write(representatives, live, clause, hints)? {
        return Ok(false);
    }
    log_clause(live, log, id, clause, writer.hints())?;
    Ok(true)
}

/// Deletes clauses in the log and of what is live, if they are live and none is an input.
fn erase(
    live: &mut LiveClauses<'_>,
    log: &mut Log,
    inputs: u32,
    id: u32,
    ids: &[i64],
) -> Result<bool, AllocError>
    ensures live { live.new.vars ≡ live.old.vars }
    ensures erased { IfOk result (λ is. IsTrue is → (formula : Cnf) → (steps : List Step)
        → (keeps : Lit → Bool) → length formula.clauses ≡ inputs
        → IsRewriting keeps formula steps live.old log.old.steps
        → IsRewriting keeps formula (steps ++ Erased id ids.now ∷ []) live.new log.new.steps) }
{
    if !are_above(ids, inputs) {
        return Ok(false);
    }
    log.reserve(1, ids.len() as u64)?;
    if live.erase(ids).is_some() {
        return Ok(false);
    }
    log.erase(id, ids);
    Ok(true)
}

/// Takes one more step of the log of the search over representatives.
fn take(
    representatives: &Representatives,
    live: &mut LiveClauses<'_>,
    writer: &mut HintWriter,
    log: &mut Log,
    inputs: u32,
    step: StepView<'_>,
) -> Result<bool, AllocError>
    requires literals { All IsLiteral step.lits.now }
    requires representatives { length representatives.now ≡ live.old.vars + 1 }
    requires vars { writer.old.vars ≡ live.old.vars }
    ensures live { live.new.vars ≡ live.old.vars }
    ensures vars { writer.new.vars ≡ writer.old.vars }
    ensures taken { IfOk result (λ is. IsTrue is → (formula : Cnf) → (steps : List Step)
        → length formula.clauses ≡ inputs
        → IsRewriting (keeps representatives.now) formula steps live.old log.old.steps
        → IsRewriting (keeps representatives.now) formula (steps ++ step_of step.entry ∷ [])
        live.new log.new.steps) }
{
    if step.erase {
        return erase(live, log, inputs, step.id, step.hints);
    }
    add(
        representatives,
        live,
        writer,
        log,
        step.id,
        step.lits,
        step.hints,
    )
}

/// Makes the log of a search over representatives one over the formula: the same steps with other
/// hints, each of which is judged. The log has no step before.
pub(crate) fn rewrite(
    alloc: Global,
    formula: &Formula,
    representatives: &Representatives,
    steps: &Log,
    log: &mut Log,
) -> Result<bool, AllocError>
    requires fresh { log.old.steps ≡ [] }
    requires representatives { length representatives.now ≡ formula.now.cnf.vars + 1 }
    ensures { IfOk result (λ is. IsTrue is
        → IsRewritten (keeps representatives.now) formula.now.cnf steps.now.steps log.new.steps) }
{
    let mut live = LiveClauses::inputs(alloc, formula)?;
    let mut writer = HintWriter::new(alloc, formula.vars())?;
    for at in 0..steps.len() {
        if !take(
            representatives,
            &mut live,
            &mut writer,
            log,
            formula.len(),
            steps.step(at),
        )? {
            return Ok(false);
        }
    }
    Ok(true)
}
