//! Rules by which the steps of a log are judged.

ghost use Rattle.std.specs.Prelude.{◌≡◌, List, All, IfOk, OnErr, None};
ghost use Rattle.sat_clause.specs.Formula.{Cnf, IsUnsat};
ghost use Rattle.sat_clause.specs.Judge.{Accepted, Rule, after, inputs as inputs_of, judge_by};
ghost use Rattle.sat_clause.specs.Literal.{IsLiteral};
ghost use Rattle.sat_clause.specs.Live.{Live};
ghost use Rattle.sat_clause.specs.Step.{HaveLiterals, Step};
ghost use Rattle.sat_check.specs.Verdict.{step_of};

use sat_clause::{Cause, Formula, StepView};
use std::alloc::{AllocError, Global};

/// What judges the steps of a log by a rule, and holds the clauses that are live.
pub trait StepRule<'a>: Drop {
    /// Why a step is refused, and none where it is good.
    ghost fault: { Rule };

    /// These are the live clauses.
    ghost tracks: { Self → Live → Type 0 };

    /// The clauses of the formula are live, with the ids 1, 2 and so on.
    ///
    /// # Errors
    /// Where memory is short.
    fn inputs(alloc: Global, formula: &'a Formula) -> Result<Self, AllocError>
        ensures { IfOk result (λ judge. tracks judge (inputs_of formula.now.cnf)) };

    /// Why the step is refused. Where it is not, the live clauses are then those after it.
    ///
    /// # Errors
    /// Where memory is short. The same clauses are live then.
    fn take_step(&mut self, step: StepView<'_>) -> Result<Option<Cause>, AllocError>
        requires { All IsLiteral step.lits.now }
        ensures fault { IfOk result (λ r. (live : Live) → tracks self.old live
            → r ≡ fault live (step_of step.entry)) }
        ensures live { IfOk result (λ r. r ≡ None → (live : Live) → tracks self.old live
            → tracks self.new (after live (step_of step.entry))) }
        ensures err { OnErr result ((live : Live) → tracks self.old live
            → tracks self.new live) };

    /// A log of literals that the rule accepts is a refutation. Does nothing.
    fn is_sound(&self)
        ensures { (formula : Cnf) (log : List Step) → HaveLiterals log
            → judge_by fault formula log ≡ Accepted → IsUnsat formula };
}
