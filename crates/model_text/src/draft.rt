//! A model as far as it was read.
ghost use Rattle.std.specs.Prelude.{◌≡◌, ◌≤◌, [], ◌∷◌, ◌++◌, List, ℤ, IfOk};
ghost use Rattle.fpga_text.specs.FirstFault.{AnswersFault};
ghost use Rattle.sat_clause.specs.declared.limits.TheConstants.{VARIABLE_LIMIT};

use crate::assignment::Assignment;
use crate::cause::Cause;
use crate::line_kind::{LineKind, kind_of, skip_v};
use fpga_text::{Coded, Line, TextFault};
use sat_clause::Lit;
use std::alloc::{AllocError, Global};

/// What the numbers so far say, and what is wrong with them.
#[derive(Drop)]
pub struct Draft {
    /// The literals of variables that are there, up to the first 0.
    pub assignment: Assignment,
    /// Whether there was a 0.
    pub ended: bool,
    /// Whether a number stood behind it.
    pub behind: bool,
    /// Whether a literal was of a variable that is not there.
    pub strange: bool,
    /// Whether a literal and its negation were said to be true.
    pub both: bool,
}

impl Draft {
    ghost use Rattle.model_text.specs.Assignments.{vars_in};
    ghost use Rattle.model_text.specs.Drafts.{AreClean, IsDraftOf, TakesValues};
    ghost use Rattle.model_text.specs.ModelText.{model_line_fault, model_numbers, values_fault};
    ghost use Rattle.model_text.specs.LineKinds.{behind_v};
    ghost use Rattle.sat_text.specs.FrontNumbers.{IsAtNoNumber};
    ghost use Rattle.sat_text.specs.Numbers.{numbers_of};

    /// Nothing was read of a model of so many variables.
    pub fn new(alloc: Global, vars: u32) -> Result<Draft, AllocError>
        requires { vars ≤ VARIABLE_LIMIT }
        ensures vars { IfOk result (λ draft. vars_in draft.assignment ≡ vars) }
        ensures none { IfOk result (IsDraftOf []) }
    {
        let Ok(assignment) = Assignment::new(alloc, vars) else {
            return Err(AllocError);
        };
        Ok(Draft {
            assignment,
            ended: false,
            behind: false,
            strange: false,
            both: false,
        })
    }

    /// Takes a number.
    fn take(&mut self, number: i64)
        ensures vars { vars_in self.new.assignment ≡ vars_in self.old.assignment }
        ensures taken { (before : List ℤ) → IsDraftOf before self.old
            → IsDraftOf (before ++ number ∷ []) self.new }
    {
        if self.ended {
            self.behind = true;
            return;
        }
        if number == 0 {
            self.ended = true;
            return;
        }
        if number.unsigned_abs() > u64::from(self.assignment.vars()) {
            self.strange = true;
            return;
        }
        let literal = Lit {
            code: number as i32,
        };
        self.both |= self.assignment.gives(literal.negation());
        self.assignment.add(literal);
    }

    /// Takes the numbers of a line up to a word that says none.
    fn take_front(&mut self, line: &mut Line<'_>)
        ensures taken { TakesValues self.old self.new line.old.words line.new.words }
        ensures end { IsAtNoNumber line.new.words }
    {
        while let Some(number) = line.next_number() {
            self.take(number);
        }
    }

    /// Takes a line with literals.
    fn take_values(&mut self, line: &mut Line<'_>) -> Result<(), TextFault>
        ensures vars { vars_in self.new.assignment ≡ vars_in self.old.assignment }
        ensures answers { (before : List ℤ) → IsDraftOf before self.old → AnswersFault
            (values_fault (vars_in self.old.assignment) before line.old.number
            (behind_v line.old.words))
            (λ _. IsDraftOf (before ++ numbers_of (behind_v line.old.words)) self.new) result }
    {
        let number = line.number();
        skip_v(line);
        self.take_front(line);
        if line.has_words() {
            return Err(Cause::Number.at(number));
        }
        if self.behind {
            return Err(Cause::BehindEnd.at(number));
        }
        if self.strange {
            return Err(Cause::Variable.at(number));
        }
        if self.both {
            return Err(Cause::BothWays.at(number));
        }
        Ok(())
    }

    /// Takes a line. Nothing is wrong with the numbers before it.
    pub fn take_line(&mut self, line: &mut Line<'_>) -> Result<(), TextFault>
        ensures vars { vars_in self.new.assignment ≡ vars_in self.old.assignment }
        ensures answers { (before : List ℤ) → AreClean (vars_in self.old.assignment) before
            → IsDraftOf before self.old → AnswersFault
            (model_line_fault (vars_in self.old.assignment) before line.old.number line.old.words)
            (λ _. IsDraftOf (before ++ model_numbers line.old.words) self.new) result }
    {
        match kind_of(line) {
            LineKind::Passed => Ok(()),
            LineKind::Denial => Err(Cause::NoModel.at(line.number())),
            LineKind::Values => self.take_values(line),
        }
    }
}
