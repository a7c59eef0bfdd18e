//! A log without what its refutation does not need.
ghost use Rattle.std.specs.Prelude.{◌≡◌, ◌<◌, ◌||◌, [], ℕ, All, IfOk, OnOk, false, length, reverse, slice_index_or};
ghost use Rattle.std.specs.List.{list_any};
ghost use Rattle.sat_clause.specs.Judge.{Accepts, inputs};
ghost use Rattle.route_core.specs.Keeping.{IsFirstEmpty, IsGoodAt, KeepsStep, names};
ghost use Rattle.route_core.specs.Ready.{IsReady};
ghost use Rattle.route_core.specs.Trimmed.{AddedRise, IsTrimmed};
ghost use Rattle.route_core.specs.Trimming.{needed_steps};

use crate::needed::NeededHints;
use crate::sources::Sources;
use sat_clause::{Formula, Log};
use std::alloc::{AllocError, Global};

/// The steps that a refutation needs, each with the hints that it needs, and no deletion: in one
/// pass back over the log, from its first empty clause on. The ids of the clauses that the log adds
/// rise, from above those of the formula.
///
/// Time and memory go by the length of the log and the greatest variable, each of which takes 8
/// bytes. Each hint of a step that is needed takes a time by the length of its clause.
///
/// # Errors
/// Where memory is short.
pub fn trim(alloc: Global, formula: &Formula, log: &Log) -> Result<Log, AllocError>
    requires accepted { Accepts formula.now.cnf log.now.steps }
    requires rising { AddedRise (length formula.now.cnf.clauses) log.now.steps }
    ensures { IfOk result (λ small. IsTrimmed formula.now.cnf log.now.steps small.steps) }
{
    let last = first_empty(formula, log);
    let sources = Sources::new(alloc, formula, log)?;
    let back = steps_back(alloc, &sources, last)?;
    let small = turned(alloc, &back)?;
    Ok(small)
}

/// Where the first step stands that adds the empty clause.
fn first_empty(formula: &Formula, log: &Log) -> u64
    requires { Accepts formula.now.cnf log.now.steps }
    ensures { IsFirstEmpty log.now.steps result }
{
    for at in 0..log.len() {
        let step = log.step(at);
        if !step.erase && step.lits.is_empty() {
            return at;
        }
    }
    unreachable!()
}

/// The needed steps, from the last back to the first.
fn steps_back(alloc: Global, sources: &Sources<'_>, last: u64) -> Result<Log, AllocError>
    requires accepted { Accepts sources.now.formula sources.now.log }
    requires last { IsFirstEmpty sources.now.log last }
    ensures { IfOk result (λ back. reverse back.steps
        ≡ needed_steps (inputs sources.now.formula) sources.now.log) }
{
    let mut needed = NeededHints::new(alloc, sources.size())?;
    let mut marks = vec![in alloc; false; sources.log().len() as usize]?;
    let mut back = Log::new(alloc);
    go_over(sources, last, &mut needed, &mut marks, &mut back)?;
    Ok(back)
}

/// Goes over the steps from the last one back, and keeps those that are marked when it comes there.
fn go_over(
    sources: &Sources<'_>,
    last: u64,
    needed: &mut NeededHints,
    marks: &mut [bool],
    back: &mut Log,
) -> Result<(), AllocError>
    requires accepted { Accepts sources.now.formula sources.now.log }
    requires rise { AddedRise (length sources.now.formula.clauses) sources.now.log }
    requires last { IsFirstEmpty sources.now.log last }
    requires ready { IsReady sources.now.size needed.old }
    requires many { length marks.old ≡ length sources.now.log }
    requires clear { All (λ mark. mark ≡ false) marks.old }
    requires empty { back.old.steps ≡ [] }
    ensures { OnOk result (reverse back.new.steps
        ≡ needed_steps (inputs sources.now.formula) sources.now.log) }
{
    keep_step(sources, last, needed, marks, back)?;
    for at in (0..last).rev() {
        if !marks[at as usize] {
            continue;
        }
        keep_step(sources, at, needed, marks, back)?;
    }
    Ok(())
}

/// Adds a step with the hints that it needs to the others, and marks the steps that these name.
fn keep_step(
    sources: &Sources<'_>,
    at: u64,
    needed: &mut NeededHints,
    marks: &mut [bool],
    back: &mut Log,
) -> Result<(), AllocError>
    requires good { IsGoodAt sources.now.formula sources.now.log at }
    requires ready { IsReady sources.now.size needed.old }
    requires many { length marks.old ≡ length sources.now.log }
    ensures ready { OnOk result (IsReady sources.now.size needed.new) }
    ensures keeps { OnOk result (KeepsStep sources.now.formula sources.now.log at
        back.old.steps back.new.steps marks.old marks.new) }
{
    let step = sources.log().step(at);
    needed.find(sources, step.lits, step.hints)?;
    let hints = needed.hints();
    mark_hints(sources, hints, marks);
    back.reserve(1, (step.lits.len() + hints.len()) as u64)?;
    back.add(step.id, step.lits, hints);
    Ok(())
}

/// Marks the steps that these hints name.
fn mark_hints(sources: &Sources<'_>, hints: &[i64], marks: &mut [bool])
    requires { length marks.old ≡ length sources.now.log }
    ensures { (j : ℕ) → j < length marks.old → slice_index_or marks.new j false
        ≡ (slice_index_or marks.old j false || list_any (names sources.now.log j) hints.now) }
{
    for hint in hints {
        let Some(place) = sources.place_of(*hint) else {
            continue;
        };
        marks[place as usize] = true;
    }
}

/// The steps of a log in the opposite order.
fn turned(alloc: Global, back: &Log) -> Result<Log, AllocError>
    ensures { IfOk result (λ log. log.steps ≡ reverse back.now.steps) }
{
    let mut log = Log::new(alloc);
    for at in (0..back.len()).rev() {
        let step = back.step(at);
        log.reserve(1, (step.lits.len() + step.hints.len()) as u64)?;
        if step.erase {
            log.erase(step.id, step.hints);
            continue;
        }
        log.add(step.id, step.lits, step.hints);
    }
    Ok(log)
}
