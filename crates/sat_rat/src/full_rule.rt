//! Steps that follow by unit propagation, or by resolution on a pivot.

ghost use Rattle.std.specs.Prelude.{◌≡◌, ◌≤◌, [], All, IfOk, OnErr, OnOk, None};
ghost use Rattle.sat_clause.specs.Judge.{after};
ghost use Rattle.sat_clause.specs.Literal.{IsWithin};
ghost use Rattle.sat_clause.specs.Live.{Live};
ghost use Rattle.sat_check.specs.Verdict.{step_of};
ghost use Rattle.sat_rat.specs.CountedStore.{Tracks};
ghost use Rattle.sat_rat.specs.FullJudge.{full_fault};

use crate::counted_clauses::CountedClauses;
use crate::resolution::check_clause;
use sat_check::{FalseSet, Replay, StepRule, greatest_of};
use sat_clause::{Cause, Formula, LITERAL_LIMIT, StepView};
use std::alloc::{AllocError, Global};
use std::marker::Model;

/// The replay of a log of full LRAT.
pub type FullReplay<'a> = Replay<FullRule<'a>>;

/// The rule of full LRAT: a clause is good where its hints lead to a conflict, or where it may be
/// resolved on its first literal.
///
/// From the first step on that is not justified by unit propagation, it holds a count for each
/// literal beside the live clauses. A step is not taken either where a literal would then stand in
/// them more than 4294967295 times.
#[derive(Drop)]
pub struct FullRule<'a> {
    alloc: Global,
    live: CountedClauses<'a>,
    first: FalseSet,
    second: FalseSet,
}

impl<'a> Model for FullRule<'a> {
    ghost use Rattle.sat_rat.specs.CountedStore.{AreReady, CountedState};

    ghost Value = { CountedState };

    ghost view = { λ r. r.live };

    ghost invariant = { λ r. AreReady r.live.live.vars r.first r.second };
}

/// Why a step within the variables is refused. Where it is not, the live clauses are then those
/// after it.
fn take_within(
    alloc: Global,
    live: &mut CountedClauses,
    first: &mut FalseSet,
    second: &mut FalseSet,
    step: StepView,
) -> Result<Option<Cause>, AllocError>
    requires size { first.old.size ≡ live.old.live.vars }
    requires in_second { first.old.size ≤ second.old.size }
    requires small { first.old.size ≤ LITERAL_LIMIT }
    requires empty { first.old.set ≡ [] }
    requires empty_second { second.old.set ≡ [] }
    requires within { All (IsWithin first.old.size) step.lits.now }
    ensures vars { live.new.live.vars ≡ live.old.live.vars }
    ensures size { first.new.size ≡ first.old.size }
    ensures in_second { second.new.size ≡ second.old.size }
    ensures empty { first.new.set ≡ [] }
    ensures empty_second { second.new.set ≡ [] }
    ensures fault { IfOk result (λ r. (clauses : Live) → Tracks live.old clauses
        → r ≡ full_fault clauses (step_of step.entry)) }
    ensures live { IfOk result (λ r. r ≡ None → (clauses : Live) → Tracks live.old clauses
        → Tracks live.new (after clauses (step_of step.entry))) }
    ensures err { OnErr result ((clauses : Live) → Tracks live.old clauses
        → Tracks live.new clauses) }
{
    if step.erase {
        return Ok(live.erase(step.hints));
    }
    let Ok(fault) = check_clause(alloc, live, first, second, step.lits, step.hints) else {
        return Err(AllocError);
    };
    if let Some(cause) = fault {
        return Ok(Some(cause));
    }
    let Ok(()) = live.put(step.id, step.lits) else {
        return Err(AllocError);
    };
    Ok(None)
}

impl<'a> FullRule<'a> {
    /// Makes room for the variables up to a greater number.
    fn widen(&mut self, vars: u32) -> Result<(), AllocError>
        requires more { self.old.live.vars ≤ vars }
        requires small { vars ≤ LITERAL_LIMIT }
        ensures tracks { (clauses : Live) → Tracks self.old clauses → Tracks self.new clauses }
        ensures ok { OnOk result (self.new.live.vars ≡ vars) }
    {
        let Ok(()) = self.second.widen(vars.max(self.second.size())) else {
            return Err(AllocError);
        };
        let Ok(()) = self.first.widen(vars) else {
            return Err(AllocError);
        };
        self.live.widen(vars);
        Ok(())
    }
}

impl<'a> StepRule<'a> for FullRule<'a> {
    ghost fault = { full_fault };

    ghost tracks = { Tracks };

    fn inputs(alloc: Global, formula: &'a Formula) -> Result<FullRule<'a>, AllocError> {
        let Ok(first) = FalseSet::new(alloc, formula.vars()) else {
            return Err(AllocError);
        };
        let Ok(second) = FalseSet::new(alloc, formula.vars()) else {
            return Err(AllocError);
        };
        let Ok(live) = CountedClauses::inputs(alloc, formula) else {
            return Err(AllocError);
        };
        Ok(FullRule {
            alloc,
            live,
            first,
            second,
        })
    }

    fn take_step(&mut self, step: StepView<'_>) -> Result<Option<Cause>, AllocError> {
        let vars = greatest_of(self.first.size(), step.lits);
        let Ok(()) = self.widen(vars) else {
            return Err(AllocError);
        };
        take_within(
            self.alloc,
            &mut self.live,
            &mut self.first,
            &mut self.second,
            step,
        )
    }

    #[tactic(auto, using(crate::proofs::FullSound::full_refutes))]
    fn is_sound(&self) {}
}
