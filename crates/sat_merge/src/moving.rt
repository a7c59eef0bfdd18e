//! The steps of a search through merged clauses, moved behind lemmas.

ghost use Rattle.std.specs.Prelude.{◌≡◌, ◌+◌, ◌∷◌, ◌++◌, [], Bool, All, IfOk, IsTrue, List, length, map};
ghost use Rattle.sat_check.specs.Finder.{Finds};
ghost use Rattle.sat_check.specs.LiveStore.{live_at};
ghost use Rattle.sat_check.specs.Verdict.{step_of};
ghost use Rattle.sat_clause.specs.Formula.{Cnf};
ghost use Rattle.sat_clause.specs.Learned.{added_count};
ghost use Rattle.sat_clause.specs.Literal.{IsLiteral};
ghost use Rattle.sat_clause.specs.Step.{Step, Added, Erased};
ghost use Rattle.sat_core.specs.Stands.{live_after};
ghost use Rattle.sat_merge.specs.Representatives.{keeps};
ghost use Rattle.sat_merge.specs.Moved.{HasPlace, moved_id};
ghost use Rattle.sat_merge.specs.Moving.{IsMoving};

use crate::hints::HintWriter;
use crate::places::Places;
use crate::representatives::Representatives;
use crate::rewriting::{are_above, log_clause};
use sat_check::LiveClauses;
use sat_clause::{Lit, Log, StepView};
use std::alloc::{AllocError, Global};

/// The same ids as they are behind the lemmas; false where one has none there.
fn move_ids(places: &Places, ids: &[i64], numbers: &mut Vec<i64>) -> Result<bool, AllocError>
    ensures ids { IfOk result (λ is. IsTrue is
        → numbers.new.items ≡ map (moved_id places.now) ids.now) }
    ensures places { IfOk result (λ is. IsTrue is → All (HasPlace places.now) ids.now) }
{
    numbers.clear();
    for id in ids {
        let Some(now) = places.moved_id(*id) else {
            return Ok(false);
        };
        numbers.push(now)?;
    }
    Ok(true)
}

/// The same ids where they have one behind the lemmas, and else as they are. Nothing is promised of
/// them: as hints they are judged behind.
fn mix_ids(places: &Places, ids: &[i64], numbers: &mut Vec<i64>) -> Result<(), AllocError> {
    numbers.clear();
    for id in ids {
        numbers.push(match places.moved_id(*id) {
            Some(now) => now,
            None => *id,
        })?;
    }
    Ok(())
}

/// Adds the clause of a step under its id behind the lemmas, by the same hints, or by others where
/// one of them has no id there.
fn add(
    representatives: &Representatives,
    places: &Places,
    live: &mut LiveClauses<'_>,
    writer: &mut HintWriter,
    numbers: &mut Vec<i64>,
    log: &mut Log,
    id: u32,
    clause: &[Lit],
    hints: &[i64],
) -> Result<bool, AllocError>
    requires literals { All IsLiteral clause.now }
    requires representatives { length representatives.now ≡ live.old.vars + 1 }
    requires vars { writer.old.vars ≡ live.old.vars }
    ensures live { live.new.vars ≡ live.old.vars }
    ensures vars { writer.new.vars ≡ writer.old.vars }
    ensures moved { IfOk result (λ is. IsTrue is → (formula : Cnf) → (lemmas steps : List Step)
        → IsMoving (keeps representatives.now) formula places.now lemmas steps live.old
        log.old.steps
        → IsMoving (keeps representatives.now) formula places.now lemmas
        (steps ++ Added id clause.now hints.now ∷ []) live.new log.new.steps) }
{
    if id <= places.inputs() || !representatives.are_kept(clause) {
        return Ok(false);
    }
    let Some(now) = places.behind(id) else {
        return Ok(false);
    };
    if move_ids(places, hints, numbers)? {
        log_clause(live, log, now, clause, numbers)?;
        return Ok(true);
    }
    mix_ids(places, hints, numbers)?;
    if !writer.write(representatives, live, clause, numbers)? {
        return Ok(false);
    }
    log_clause(live, log, now, clause, writer.hints())?;
    Ok(true)
}

/// Deletes clauses in the log and of what is live, under their ids behind the lemmas.
fn erase(
    places: &Places,
    live: &mut LiveClauses<'_>,
    numbers: &mut Vec<i64>,
    log: &mut Log,
    id: u32,
    ids: &[i64],
) -> Result<bool, AllocError>
    ensures live { live.new.vars ≡ live.old.vars }
    ensures moved { IfOk result (λ is. IsTrue is → (keeps : Lit → Bool) → (formula : Cnf)
        → (lemmas steps : List Step)
        → IsMoving keeps formula places.now lemmas steps live.old log.old.steps
        → IsMoving keeps formula places.now lemmas (steps ++ Erased id ids.now ∷ []) live.new
        log.new.steps) }
{
    if !are_above(ids, places.inputs()) {
        return Ok(false);
    }
    let Some(now) = places.behind(id) else {
        return Ok(false);
    };
    if !move_ids(places, ids, numbers)? {
        return Ok(false);
    }
    log.reserve(1, numbers.len() as u64)?;
    if live.erase(numbers).is_some() {
        return Ok(false);
    }
    log.erase(now, numbers);
    Ok(true)
}

/// Takes one more step.
fn take(
    representatives: &Representatives,
    places: &Places,
    live: &mut LiveClauses<'_>,
    writer: &mut HintWriter,
    numbers: &mut Vec<i64>,
    log: &mut Log,
    step: StepView<'_>,
) -> Result<bool, AllocError>
    requires literals { All IsLiteral step.lits.now }
    requires representatives { length representatives.now ≡ live.old.vars + 1 }
    requires vars { writer.old.vars ≡ live.old.vars }
    ensures live { live.new.vars ≡ live.old.vars }
    ensures vars { writer.new.vars ≡ writer.old.vars }
    ensures moved { IfOk result (λ is. IsTrue is → (formula : Cnf) → (lemmas steps : List Step)
        → IsMoving (keeps representatives.now) formula places.now lemmas steps live.old
        log.old.steps
        → IsMoving (keeps representatives.now) formula places.now lemmas
        (steps ++ step_of step.entry ∷ []) live.new log.new.steps) }
{
    if step.erase {
        return erase(places, live, numbers, log, step.id, step.hints);
    }
    add(
        representatives,
        places,
        live,
        writer,
        numbers,
        log,
        step.id,
        step.lits,
        step.hints,
    )
}

/// Logs the steps of a search over representatives behind lemmas, under other ids. False where one
/// can't stand there.
pub(crate) fn move_steps(
    alloc: Global,
    representatives: &Representatives,
    places: &Places,
    live: &mut LiveClauses<'_>,
    writer: &mut HintWriter,
    steps: &Log,
    log: &mut Log,
) -> Result<bool, AllocError>
    requires representatives { length representatives.now ≡ live.old.vars + 1 }
    requires vars { writer.old.vars ≡ live.old.vars }
    ensures { IfOk result (λ is. IsTrue is → (formula : Cnf)
        → Finds (live_at live.old) (live_after formula log.old.steps)
        → IsMoving (keeps representatives.now) formula places.now log.old.steps steps.now.steps
        live.new log.new.steps) }
{
    let mut numbers = Vec::new(alloc);
    for at in 0..steps.len() {
        if !take(
            representatives,
            places,
            live,
            writer,
            &mut numbers,
            log,
            steps.step(at),
        )? {
            return Ok(false);
        }
    }
    Ok(true)
}

/// How many clauses the steps add.
pub(crate) fn added(steps: &Log) -> u64
    ensures { result ≡ added_count steps.now.steps }
{
    let mut added = 0;
    for at in 0..steps.len() {
        if !steps.step(at).erase {
            added += 1;
        }
    }
    added
}
