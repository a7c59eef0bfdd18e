//! The step of a line of an LRAT text.
ghost use Rattle.std.specs.Prelude.{◌≡◌, [], true, false, None, OnOk, IsTrue, map, All};
ghost use Rattle.sat_clause.specs.Literal.{IsLiteral, lit};
ghost use Rattle.sat_clause.specs.Step.{Added};
ghost use Rattle.fpga_text.specs.FirstFault.{AnswersFault};
ghost use Rattle.sat_text.specs.ByNumbers.{numbers_fault, step_line_fault};
ghost use Rattle.sat_text.specs.LratText.{said_step, step_of};
ghost use Rattle.sat_text.specs.Steps.{viewed};

use crate::front_numbers::{front_hints, front_literals};
use crate::hint_rule::HintRule;
use crate::step_line::{MOST_ID, addition_said, deletion_said, read_numbers};
use fpga_text::{Line, TextFault};
use sat_clause::{Lit, StepView};
use std::alloc::{AllocError, Global};

/// The step of the line that was read last, and the number that the id of the next added clause has
/// to be above. The hints of a deletion are the ids that it deletes. Each line reuses the room of
/// the one before, and `numbers` too. Where a line is refused, what stands here is no step of it.
#[derive(Drop)]
pub struct StepDraft {
    pub id: u32,
    pub erase: bool,
    pub lits: Vec<Lit>,
    pub hints: Vec<i64>,
    pub above: u32,
    pub rule: HintRule,
    pub numbers: Vec<i64>,
    ghost literals: { erase ≡ false → All IsLiteral lits.items },
}

/// Puts the literals with these numbers in place of these.
fn read_literals(lits: &mut Vec<Lit>, numbers: &[i64]) -> Result<(), AllocError>
    requires { All (λ n. IsLiteral (lit n)) numbers.now }
    ensures { OnOk result (lits.new.items ≡ map lit numbers.now) }
{
    lits.clear();
    for n in numbers {
        let Ok(()) = lits.push(Lit { code: *n as i32 }) else {
            return Err(AllocError);
        };
    }
    Ok(())
}

/// Puts these numbers in place of the others.
fn put_numbers(numbers: &mut Vec<i64>, others: &[i64]) -> Result<(), AllocError>
    ensures { OnOk result (numbers.new.items ≡ others.now) }
{
    numbers.clear();
    let Ok(()) = numbers.extend_from_slice(others) else {
        return Err(AllocError);
    };
    Ok(())
}

impl StepDraft {
    ghost use Rattle.sat_text.specs.StepDrafts.{TakesStep, held};

    /// No line was read of a log that goes with so many input clauses.
    pub fn new(alloc: Global, inputs: u32, rule: HintRule) -> StepDraft
        ensures above { result.above ≡ inputs }
        ensures rule { result.rule ≡ rule }
    {
        StepDraft {
            id: 0,
            erase: true,
            lits: Vec::new(alloc),
            hints: Vec::new(alloc),
            above: inputs,
            rule,
            numbers: Vec::new(alloc),
        }
    }

    /// The step.
    pub fn step(&self) -> StepView<'_>
        ensures value { viewed result ≡ held self.now }
        ensures literals { All IsLiteral result.lits.now }
        ensures none { IsTrue result.erase → result.lits.now ≡ [] }
    {
        if self.erase {
            return StepView {
                id: self.id,
                erase: true,
                lits: &[],
                hints: &self.hints,
            };
        }
        StepView {
            id: self.id,
            erase: false,
            lits: &self.lits,
            hints: &self.hints,
        }
    }

    /// Makes the step one that adds the clause that stands here, with the hints, under this id.
    fn add(&mut self, id: u32)
        requires { All IsLiteral self.old.lits.items }
        ensures step { held self.new ≡ Added id self.old.lits.items self.old.hints.items }
        ensures above { self.new.above ≡ id }
        ensures rule { self.new.rule ≡ self.old.rule }
    {
        self.id = id;
        self.erase = false;
        self.above = id;
    }

    /// Takes the deletion that the numbers say.
    fn take_deletion(&mut self, line: u64) -> Result<(), TextFault>
        ensures { AnswersFault
            (numbers_fault self.old.rule self.old.above line true self.old.numbers.items)
            (λ _. TakesStep self.old self.new (step_of true self.old.numbers.items)) result }
    {
        let said = match deletion_said(&self.numbers, line) {
            Ok(said) => said,
            Err(fault) => return Err(fault),
        };
        let Ok(()) = put_numbers(&mut self.hints, said.ids) else {
            return Err(TextFault::Memory);
        };
        self.id = said.id;
        self.erase = true;
        Ok(())
    }

    /// Takes the added clause that the numbers say.
    fn take_addition(&mut self, line: u64) -> Result<(), TextFault>
        ensures { AnswersFault
            (numbers_fault self.old.rule self.old.above line false self.old.numbers.items)
            (λ _. TakesStep self.old self.new (step_of false self.old.numbers.items)) result }
    {
        let said = match addition_said(&self.numbers, self.rule, self.above, line) {
            Ok(said) => said,
            Err(fault) => return Err(fault),
        };
        self.erase = true;
        let Ok(()) = read_literals(&mut self.lits, said.lits) else {
            return Err(TextFault::Memory);
        };
        let Ok(()) = put_numbers(&mut self.hints, said.hints) else {
            return Err(TextFault::Memory);
        };
        let id = said.id;
        self.add(id);
        Ok(())
    }

    /// Takes a line if it adds a clause and has no fault, as nearly all do, and answers whether it
    /// does. Where it doesn't, or memory is short, no step is taken, and `take_any_line` says why.
    fn take_faultless_addition(&mut self, line: &mut Line<'_>) -> bool
        ensures clean { IsTrue result
            → step_line_fault self.old.rule self.old.above line.old ≡ None }
        ensures step { IsTrue result → TakesStep self.old self.new (said_step line.old.words) }
        ensures kept { result ≡ false → self.new.above ≡ self.old.above }
        ensures rule { self.new.rule ≡ self.old.rule }
    {
        self.erase = true;
        let Some(id) = line.next_number() else {
            return false;
        };
        if id <= i64::from(self.above) || id as u64 > MOST_ID {
            return false;
        }
        if !front_literals(&mut self.lits, line) || !front_hints(&mut self.hints, line) {
            return false;
        }
        if line.has_words() {
            return false;
        }
        self.add(id as u32);
        true
    }

    /// Takes a line.
    pub fn take_line(&mut self, line: &mut Line<'_>) -> Result<(), TextFault>
        ensures { AnswersFault (step_line_fault self.old.rule self.old.above line.old)
            (λ _. TakesStep self.old self.new (said_step line.old.words)) result }
    {
        if self.take_faultless_addition(&mut line.again()) {
            return Ok(());
        }
        self.take_any_line(line)
    }

    /// Takes a line of any form.
    fn take_any_line(&mut self, line: &mut Line<'_>) -> Result<(), TextFault>
        ensures { AnswersFault (step_line_fault self.old.rule self.old.above line.old)
            (λ _. TakesStep self.old self.new (said_step line.old.words)) result }
    {
        let number = line.number();
        let deletes = match read_numbers(&mut self.numbers, line) {
            Ok(deletes) => deletes,
            Err(fault) => return Err(fault),
        };
        if deletes {
            return self.take_deletion(number);
        }
        self.take_addition(number)
    }
}
