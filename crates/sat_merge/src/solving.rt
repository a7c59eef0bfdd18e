//! The search as a whole.

ghost use Rattle.std.specs.Prelude.{◌≡◌, ◌≢◌, ◌+◌, ◌≤◌, ℕ, Bool, [], false, length, IfOk, IfSome, IsNone, IsTrue, Ok, OnErr, Vec};
ghost use Rattle.std.specs.Global.{Global};
ghost use Rattle.sat_clause.specs.Formula.{Cnf};
ghost use Rattle.sat_clause.specs.Learned.{added_count, deletions};
ghost use Rattle.sat_core.specs.declared.answer.Answer.TheVariants.{Model, Refuted, Stopped};
ghost use Rattle.sat_core.specs.Answer.{IsAnswer, IsDecided, most_added};
ghost use Rattle.sat_core.specs.SearchLog.{IsSearchLog};
ghost use Rattle.sat_core.specs.Underway.{HasSearched};
ghost use Rattle.sat_merge.specs.Representatives.{keeps};
ghost use Rattle.sat_merge.specs.Rewritten.{IsMerged};

use crate::lemmas::rewrite_refutation;
use crate::merged::merged;
use crate::representatives::Representatives;
use crate::rewriting::rewrite;
use patience::Patience;
use sat_clause::{Formula, ID_LIMIT, Log, holds};
use sat_core::{Answer, Habits, solve};
use std::alloc::{AllocError, Global};

/// The values of all variables: those of their representatives.
fn spread(
    alloc: Global,
    formula: &Formula,
    representatives: &Representatives,
    values: &[bool],
) -> Result<Vec<bool>, AllocError>
    requires representatives { length representatives.now ≡ formula.now.cnf.vars + 1 }
    requires values { length values.now ≡ formula.now.cnf.vars }
    ensures { IfOk result (λ all. length all.items ≡ formula.now.cnf.vars) }
{
    let mut all = Vec::new(alloc);
    for at in 0..formula.vars() {
        let value = match representatives.representative(at + 1) {
            Some(representative) => values[representative as usize - 1],
            None => false,
        };
        all.push(value)?;
    }
    Ok(all)
}

/// The answer that values of the representatives are. `None` says that they do not serve for the
/// formula.
fn try_values(
    alloc: Global,
    formula: &Formula,
    representatives: &Representatives,
    values: &[bool],
) -> Result<Option<Answer>, AllocError>
    requires representatives { length representatives.now ≡ formula.now.cnf.vars + 1 }
    requires values { length values.now ≡ formula.now.cnf.vars }
    ensures searched { IfOk result (λ found. IfSome found (λ answer. (budget : ℕ) → (keep : Bool)
        → HasSearched formula.now.cnf budget keep [] (Ok answer))) }
    ensures decided { IfOk result (λ found. IfSome found IsDecided) }
{
    let all = spread(alloc, formula, representatives, values)?;
    if !holds(&all, formula) {
        return Ok(None);
    }
    Ok(Some(Answer::Model(all)))
}

/// Makes the log of a search over the representatives that refuted their clauses one over the
/// formula, with lemmas; false where it has no such form, and the log is as it was.
fn take_refutation(
    alloc: Global,
    formula: &Formula,
    representatives: &Representatives,
    merged: &Formula,
    steps: &Log,
    budget: u64,
    log: &mut Log,
) -> Result<bool, AllocError>
    requires representatives { length representatives.now ≡ formula.now.cnf.vars + 1 }
    requires merged { IsMerged (keeps representatives.now) formula.now.cnf merged.now.cnf }
    ensures searched { IfOk result (λ is. IsTrue is → (keep : Bool)
        → HasSearched merged.now.cnf budget keep steps.now.steps (Ok Refuted)
        → HasSearched formula.now.cnf budget keep log.new.steps (Ok Refuted)) }
    ensures same { IfOk result (λ is. is ≡ false → log.new ≡ log.old) }
{
    let mut refutation = Log::new(alloc);
    if !rewrite_refutation(
        alloc,
        formula,
        merged,
        representatives,
        steps,
        budget,
        &mut refutation,
    )? {
        return Ok(false);
    }
    *log = refutation;
    Ok(true)
}

/// The answer for the formula where the clauses of the representatives are refuted. `None` says
/// that the log has no form over it.
fn take_refuted(
    alloc: Global,
    formula: &Formula,
    representatives: &Representatives,
    merged: &Formula,
    steps: &Log,
    budget: u64,
    log: &mut Log,
) -> Result<Option<Answer>, AllocError>
    requires representatives { length representatives.now ≡ formula.now.cnf.vars + 1 }
    requires merged { IsMerged (keeps representatives.now) formula.now.cnf merged.now.cnf }
    requires fresh { log.old.steps ≡ [] }
    ensures searched { IfOk result (λ found. IfSome found (λ now. (keep : Bool)
        → HasSearched merged.now.cnf budget keep steps.now.steps (Ok Refuted)
        → HasSearched formula.now.cnf budget keep log.new.steps (Ok now))) }
    ensures decided { IfOk result (λ found. IfSome found IsDecided) }
{
    if take_refutation(alloc, formula, representatives, merged, steps, budget, log)? {
        return Ok(Some(Answer::Refuted));
    }
    if !rewrite(alloc, formula, representatives, steps, log)? {
        return Ok(None);
    }
    Ok(Some(Answer::Refuted))
}

/// The answer for the formula where this one, without values, is that of the search over the
/// representatives: the same. `None` says that the log has no form over it.
fn take_open(
    alloc: Global,
    formula: &Formula,
    representatives: &Representatives,
    steps: &Log,
    answer: Answer,
    log: &mut Log,
) -> Result<Option<Answer>, AllocError>
    requires representatives { length representatives.now ≡ formula.now.cnf.vars + 1 }
    requires no_values { (values : Vec Bool Global) → answer ≢ Model values }
    requires fresh { log.old.steps ≡ [] }
    ensures searched { IfOk result (λ found. IfSome found (λ now. (merged : Cnf) → (budget : ℕ)
        → (keep : Bool) → IsMerged (keeps representatives.now) formula.now.cnf merged
        → HasSearched merged budget keep steps.now.steps (Ok answer)
        → HasSearched formula.now.cnf budget keep log.new.steps (Ok now))) }
    ensures same { IfOk result (λ found. IfSome found (λ now. now ≡ answer)) }
{
    if !rewrite(alloc, formula, representatives, steps, log)? {
        return Ok(None);
    }
    Ok(Some(answer))
}

/// The answer for the formula where one for the representatives is this. `None` says that its
/// values do not serve for the formula, or its log has no form over it.
fn take_answer(
    alloc: Global,
    formula: &Formula,
    representatives: &Representatives,
    merged: &Formula,
    steps: &Log,
    answer: Answer,
    budget: u64,
    log: &mut Log,
) -> Result<Option<Answer>, AllocError>
    requires representatives { length representatives.now ≡ formula.now.cnf.vars + 1 }
    requires merged { IsMerged (keeps representatives.now) formula.now.cnf merged.now.cnf }
    requires values { (values : Vec Bool Global) → answer ≡ Model values
        → length values.items ≡ formula.now.cnf.vars }
    requires fresh { log.old.steps ≡ [] }
    ensures searched { IfOk result (λ found. IfSome found (λ now. (keep : Bool)
        → HasSearched merged.now.cnf budget keep steps.now.steps (Ok answer)
        → HasSearched formula.now.cnf budget keep log.new.steps (Ok now))) }
    ensures left_open { IfOk result (λ found. IfSome found (λ now.
        ¬ IsDecided now → now ≡ answer)) }
{
    match answer {
        Answer::Model(values) => try_values(alloc, formula, representatives, &values),
        Answer::Refuted => take_refuted(
            alloc,
            formula,
            representatives,
            merged,
            steps,
            budget,
            log,
        ),
        Answer::Spent => take_open(alloc, formula, representatives, steps, Answer::Spent, log),
        Answer::Stopped => take_open(alloc, formula, representatives, steps, Answer::Stopped, log),
    }
}

/// What a search over the representatives comes to, with a log over the formula. `None` says that
/// it does not serve for that.
fn search_representatives<P: Patience>(
    alloc: Global,
    formula: &Formula,
    representatives: &Representatives,
    merged: &Formula,
    habits: Habits,
    budget: u64,
    keep: bool,
    patience: &mut P,
    log: &mut Log,
) -> Result<Option<Answer>, AllocError>
    requires representatives { length representatives.now ≡ formula.now.cnf.vars + 1 }
    requires merged { IsMerged (keeps representatives.now) formula.now.cnf merged.now.cnf }
    requires budget { 1 ≤ budget }
    requires ids { length formula.now.cnf.clauses + budget ≤ ID_LIMIT }
    requires fresh { log.old.steps ≡ [] }
    ensures searched { IfOk result (λ found. IfSome found (λ answer.
        HasSearched formula.now.cnf budget keep log.new.steps (Ok answer))) }
    ensures stopped { IfOk result (λ found. IfSome found (λ answer.
        answer ≡ Stopped → P.is_over patience.new)) }
    ensures decided { IfOk result (λ found. IfSome found (λ answer.
        most_added keep formula.now.cnf.vars ≤ budget → answer ≢ Stopped → IsDecided answer)) }
{
    let mut steps = Log::new(alloc);
    let Ok(answer) = solve(alloc, merged, habits, budget, keep, patience, &mut steps) else {
        return Err(AllocError);
    };
    take_answer(
        alloc,
        formula,
        representatives,
        merged,
        &steps,
        answer,
        budget,
        log,
    )
}

/// The same search, where most variables follow from others. `None` says that they do not, or some
/// clause has no form over the representatives, or the answer does not serve; the log has no step
/// then.
fn search_most<P: Patience>(
    alloc: Global,
    formula: &Formula,
    habits: Habits,
    budget: u64,
    keep: bool,
    patience: &mut P,
    log: &mut Log,
) -> Result<Option<Answer>, AllocError>
    requires budget { 1 ≤ budget }
    requires ids { length formula.now.cnf.clauses + budget ≤ ID_LIMIT }
    requires fresh { log.old.steps ≡ [] }
    ensures searched { IfOk result (λ found. IfSome found (λ answer.
        HasSearched formula.now.cnf budget keep log.new.steps (Ok answer))) }
    ensures stopped { IfOk result (λ found. IfSome found (λ answer.
        answer ≡ Stopped → P.is_over patience.new)) }
    ensures decided { IfOk result (λ found. IfSome found (λ answer.
        most_added keep formula.now.cnf.vars ≤ budget → answer ≢ Stopped → IsDecided answer)) }
    ensures none { IfOk result (λ found. IsNone found → log.new.steps ≡ []) }
    ensures err { OnErr result (log.new.steps ≡ []) }
{
    let representatives = Representatives::of(alloc, formula)?;
    if !representatives.are_most() {
        return Ok(None);
    }
    let Some(merged) = merged(alloc, formula, &representatives)? else {
        return Ok(None);
    };
    let mut tried = Log::new(alloc);
    let found = search_representatives(
        alloc,
        formula,
        &representatives,
        &merged,
        habits,
        budget,
        keep,
        patience,
        &mut tried,
    )?;
    let Some(answer) = found else {
        return Ok(None);
    };
    *log = tried;
    Ok(Some(answer))
}

/// Searches for values that satisfy a formula as [`solve`](sat_core::solve) does, and promises the
/// same.
///
/// Where most variables follow from others by clauses of two literals, as those of a tree of wires
/// follow from the ones of its first wire, it searches over those others alone, with the clauses of
/// the rest made to clauses of theirs. The log is then made one over the formula: the same steps,
/// whose hints lead through the clauses of two literals, each judged before it is added. Where the
/// clauses are refuted, lemmas come before these steps, if the budget has room for them: each
/// merged clause that is a hint twice or more, with the way to it. Values are tried on the formula.
/// Where that fails, or some clause has no form over the others, the search is one through the
/// formula itself, with habits of its own.
///
/// # Errors
/// Where memory is short. What the log has by then still follows.
pub fn solve_merged<P: Patience>(
    alloc: Global,
    formula: &Formula,
    over_representatives: Habits,
    straight: Habits,
    budget: u64,
    keep: bool,
    patience: &mut P,
    log: &mut Log,
) -> Result<Answer, AllocError>
    requires budget { 1 ≤ budget }
    requires ids { length formula.now.cnf.clauses + budget ≤ ID_LIMIT }
    requires fresh { log.old.steps ≡ [] }
    ensures answer { IfOk result (IsAnswer formula.now.cnf budget log.new.steps) }
    ensures logged { IsSearchLog formula.now.cnf log.new.steps }
    ensures within { added_count log.new.steps ≤ budget }
    ensures kept { IsTrue keep → deletions log.new.steps ≡ 0 }
    ensures stopped { IfOk result (λ answer. answer ≡ Stopped → P.is_over patience.new) }
    ensures decided { most_added keep formula.now.cnf.vars ≤ budget
        → IfOk result (λ answer. answer ≢ Stopped → IsDecided answer) }
{
    let Ok(found) = search_most(
        alloc,
        formula,
        over_representatives,
        budget,
        keep,
        patience,
        log,
    ) else {
        return Err(AllocError);
    };
    if let Some(answer) = found {
        return Ok(answer);
    }
    solve(alloc, formula, straight, budget, keep, patience, log)
}
