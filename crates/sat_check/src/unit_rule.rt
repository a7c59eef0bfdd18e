//! Steps that follow by unit propagation alone.

ghost use Rattle.std.specs.Prelude.{◌≡◌, ◌≤◌, [], All, IfOk, OnErr, None};
ghost use Rattle.sat_clause.specs.Judge.{after, fault as unit_fault};
ghost use Rattle.sat_clause.specs.Literal.{IsWithin};
ghost use Rattle.sat_clause.specs.Live.{Live};
ghost use Rattle.sat_check.specs.Finder.{Finds};
ghost use Rattle.sat_check.specs.LiveStore.{live_at};
ghost use Rattle.sat_check.specs.Verdict.{step_of};

use crate::false_set::FalseSet;
use crate::hints::check_clause;
use crate::live_clauses::LiveClauses;
use crate::step_rule::StepRule;
use crate::variables::greatest_of;
use sat_clause::{Cause, Formula, LITERAL_LIMIT, StepView};
use std::alloc::{AllocError, Global};
use std::marker::Model;

/// The rule of LRAT without its resolution on a pivot: a clause is good where unit propagation
/// along its hints leads to a conflict.
#[derive(Drop)]
pub struct UnitRule<'a> {
    live: LiveClauses<'a>,
    set: FalseSet,
}

impl<'a> Model for UnitRule<'a> {
    ghost use Rattle.sat_check.specs.LiveStore.{LiveState};
    ghost use Rattle.sat_check.specs.FalseStore.{IsReady};

    ghost Value = { LiveState };

    ghost view = { λ r. r.live };

    ghost invariant = { λ r. IsReady r.live.vars r.set };
}

/// Why a step within the variables is refused. Where it is not, the live clauses are then those
/// after it.
fn take_within(
    live: &mut LiveClauses,
    set: &mut FalseSet,
    step: StepView,
) -> Result<Option<Cause>, AllocError>
    requires size { set.old.size ≡ live.old.vars }
    requires small { set.old.size ≤ LITERAL_LIMIT }
    requires empty { set.old.set ≡ [] }
    requires within { All (IsWithin set.old.size) step.lits.now }
    ensures vars { live.new.vars ≡ live.old.vars }
    ensures size { set.new.size ≡ set.old.size }
    ensures empty { set.new.set ≡ [] }
    ensures fault { IfOk result (λ r. (clauses : Live) → Finds (live_at live.old) clauses
        → r ≡ unit_fault clauses (step_of step.entry)) }
    ensures live { IfOk result (λ r. r ≡ None → (clauses : Live) → Finds (live_at live.old) clauses
        → Finds (live_at live.new) (after clauses (step_of step.entry))) }
    ensures err { OnErr result ((clauses : Live) → Finds (live_at live.old) clauses
        → Finds (live_at live.new) clauses) }
{
    if step.erase {
        return Ok(live.erase(step.hints));
    }
    let Ok(fault) = check_clause(live, set, step.lits, step.hints) else {
        return Err(AllocError);
    };
    if let Some(cause) = fault {
        return Ok(Some(cause));
    }
    let Ok(()) = live.put(step.id, step.lits) else {
        return Err(AllocError);
    };
    Ok(None)
}

impl<'a> StepRule<'a> for UnitRule<'a> {
    ghost use Rattle.sat_clause.specs.Judge.{fault as unit_fault};
    ghost use Rattle.sat_check.specs.LiveStore.{HasLive};

    ghost fault = { unit_fault };

    ghost tracks = { HasLive };

    fn inputs(alloc: Global, formula: &'a Formula) -> Result<UnitRule<'a>, AllocError> {
        Ok(UnitRule {
            live: LiveClauses::inputs(alloc, formula)?,
            set: FalseSet::new(alloc, formula.vars())?,
        })
    }

    fn take_step(&mut self, step: StepView<'_>) -> Result<Option<Cause>, AllocError> {
        let vars = greatest_of(self.set.size(), step.lits);
        let Ok(()) = self.set.widen(vars) else {
            return Err(AllocError);
        };
        self.live.widen(vars);
        take_within(&mut self.live, &mut self.set, step)
    }

    #[tactic(auto, using(sat_clause::proofs::Refutes::refutes))]
    fn is_sound(&self) {}
}
