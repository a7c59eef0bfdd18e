//! The replay of a log, step by step.

ghost use Rattle.std.specs.Prelude.{◌≡◌, ◌∷◌, ◌++◌, [], List, All, IfOk, OnErr, OnOk};
ghost use Rattle.sat_clause.specs.Formula.{Cnf, IsUnsat};
ghost use Rattle.sat_clause.specs.Judge.{is_empty_clause, judge_by};
ghost use Rattle.sat_clause.specs.Literal.{IsLiteral};
ghost use Rattle.sat_clause.specs.Step.{Step};
ghost use Rattle.sat_check.specs.Replaying.{HasReplayed};
ghost use Rattle.sat_check.specs.Verdict.{judgement_of, step_of};

use crate::Verdict;
use crate::step_rule::StepRule;
use sat_clause::{Cause, Formula, StepView};
use std::alloc::{AllocError, Global};
use std::marker::Model;

/// Whether the step adds the empty clause.
fn is_empty_clause(step: StepView) -> bool
    ensures { result ≡ is_empty_clause (step_of step.entry) }
{
    !step.erase && step.lits.is_empty()
}

/// A formula and the steps of a log that were taken: what they say by a rule, and the clauses that
/// are live behind them.
///
/// The live clauses that the steps have added are held as copies, and one that is deleted is given
/// back. So a log can be replayed as it is read. Behind the first step that is refused, and behind
/// the first good empty clause, steps change nothing.
#[derive(Drop)]
pub struct Replay<R> {
    judge: R,
    taken: u64,
    verdict: Option<Verdict>,
}

impl<R> Model for Replay<R> {
    ghost use Rattle.std.specs.Prelude.{◌+◌, ◌^◌, ◌<◌};
    ghost use Rattle.sat_check.specs.Replaying.{ReplayState};

    ghost Value = { ReplayState R };

    ghost view = { λ r. record { judge = r.judge; taken = r.taken; verdict = r.verdict } };

    ghost invariant = { λ r. r.taken + 1 < 2 ^ 64 };
}

impl<'a, R: StepRule<'a>> Replay<R> {
    /// The formula, and no step. Its clauses have the ids 1, 2 and so on.
    ///
    /// # Errors
    /// Where memory is short.
    pub fn new(alloc: Global, formula: &'a Formula) -> Result<Replay<R>, AllocError>
        ensures { IfOk result (HasReplayed R.fault R.tracks formula.now.cnf []) }
    {
        Ok(Replay {
            judge: R::inputs(alloc, formula)?,
            taken: 0,
            verdict: None,
        })
    }

    /// Takes the next step.
    ///
    /// It takes the time of the rule: for each hint one by the length of its clause, for a group of
    /// full LRAT one by the length of its clause too, and a time by the literals and ids of the
    /// step, whatever is live.
    ///
    /// # Errors
    /// Where memory is short, or behind 18446744073709551614 steps. The step is not taken then.
    pub fn take(&mut self, step: StepView<'_>) -> Result<(), AllocError>
        requires { All IsLiteral step.lits.now }
        ensures ok { OnOk result ((formula : Cnf) (steps : List Step)
            → HasReplayed R.fault R.tracks formula steps self.old
            → HasReplayed R.fault R.tracks formula (steps ++ step_of step.entry ∷ []) self.new) }
        ensures err { OnErr result ((formula : Cnf) (steps : List Step)
            → HasReplayed R.fault R.tracks formula steps self.old
            → HasReplayed R.fault R.tracks formula steps self.new) }
    {
        if self.verdict.is_some() {
            return Ok(());
        }
        if self.taken >= u64::MAX - 1 {
            return Err(AllocError);
        }
        let Ok(fault) = self.judge.take_step(step) else {
            return Err(AllocError);
        };
        if let Some(cause) = fault {
            self.verdict = Some(Verdict::Refused {
                step: self.taken + 1,
                cause,
            });
            return Ok(());
        }
        if is_empty_clause(step) {
            self.verdict = Some(Verdict::Accepted);
            return Ok(());
        }
        self.taken += 1;
        Ok(())
    }

    /// What the steps say of the formula, where no more come.
    pub fn verdict(&self) -> Verdict
        ensures judged { (formula : Cnf) (steps : List Step)
            → HasReplayed R.fault R.tracks formula steps self.now
            → judgement_of result ≡ judge_by R.fault formula steps }
        ensures sound { (formula : Cnf) (steps : List Step)
            → HasReplayed R.fault R.tracks formula steps self.now → result ≡ Verdict.Accepted
            → IsUnsat formula }
    {
        self.judge.is_sound();
        if let Some(verdict) = self.verdict {
            return verdict;
        }
        Verdict::Refused {
            step: self.taken + 1,
            cause: Cause::NoEmptyClause,
        }
    }
}
