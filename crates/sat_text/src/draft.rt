//! A formula as far as it was read.
ghost use Rattle.std.specs.Prelude.{◌≡◌, ◌≤◌, ◌<◌, ◌∷◌, [], false, is_some, length, nat_abs, OnOk, IfOk, All, if◌then◌else◌};
ghost use Rattle.fpga_text.specs.FirstFault.{AnswersFault};
ghost use Rattle.fpga_text.specs.declared.fault.TextFault.TheVariants.{Bad};
ghost use Rattle.sat_clause.specs.Literal.{IsWithin};
ghost use Rattle.sat_text.specs.Causes.{code_of};
ghost use Rattle.sat_text.specs.declared.cause.Cause.TheVariants.{HeadForm, CnfNumber};
ghost use Rattle.sat_text.specs.CnfText.{begins_as_head};

use crate::cause::Cause;
use crate::head::Head;
use fpga_text::{Coded, Line, TextFault};
use sat_clause::{Formula, ID_LIMIT, Lit, VARIABLE_LIMIT};
use std::alloc::{AllocError, Global};

/// The clauses that a 0 has ended, and the literals behind the last 0.
#[derive(Drop)]
pub struct Draft {
    pub formula: Formula,
    pub open_clause: Vec<Lit>,
    /// How many clauses the head line says.
    pub most: u32,
    /// Whether a number came behind so many clauses. The text is refused then, at its end if not
    /// earlier, and no number is kept any more.
    pub excess: bool,
    ghost within: { All (IsWithin formula.cnf.vars) open_clause.items },
}

// What is called for each number or each line is inlined: then what is left of the line stays in
// registers from one number to the next.
impl Draft {
    ghost use Rattle.sat_text.specs.Bodies.{body_fault};
    ghost use Rattle.sat_text.specs.CnfText.{has_strange_variable};
    ghost use Rattle.sat_text.specs.Drafts.{TakesLineFront, TakesNumbers, clauses_with, head_in};
    ghost use Rattle.sat_text.specs.FrontNumbers.{IsAtNoNumber};
    ghost use Rattle.sat_text.specs.Numbers.{numbers_of};

    /// Nothing was read behind this head line of a text with so many bytes. There is room for the
    /// clauses that the head line says, but for no more than the text can have: each takes two
    /// bytes.
    pub fn new(alloc: Global, head: Head, bytes: usize) -> Result<Draft, AllocError>
        requires { head.vars ≤ VARIABLE_LIMIT }
        ensures head { IfOk result (λ draft. head_in draft ≡ head) }
        ensures clauses { IfOk result (λ draft. draft.formula.cnf.clauses ≡ []) }
        ensures open { IfOk result (λ draft. draft.open_clause.items ≡ []) }
        ensures excess { IfOk result (λ draft. draft.excess ≡ false) }
    {
        let room = u64::from(head.clauses).min(bytes as u64 / 2) as u32;
        let mut formula = Formula::new(alloc);
        let Ok(()) = formula.reserve(head.vars, room, 0) else {
            return Err(AllocError);
        };
        Ok(Draft {
            formula,
            open_clause: Vec::new(alloc),
            most: head.clauses,
            excess: false,
        })
    }

    /// Takes a literal, or a 0 that ends a clause. There are fewer clauses than the head line says.
    #[inline(always)]
    fn take(&mut self, number: i64) -> Result<(), AllocError>
        requires within { nat_abs number ≤ self.old.formula.cnf.vars }
        requires few { nat_abs number ≤ VARIABLE_LIMIT }
        requires room { length self.old.formula.cnf.clauses < ID_LIMIT }
        ensures { OnOk result (TakesNumbers self.old self.new (number ∷ [])) }
    {
        if number != 0 {
            let Ok(()) = self.open_clause.push(Lit {
                code: number as i32,
            })
            else {
                return Err(AllocError);
            };
            return Ok(());
        }
        // The room for literals doubles where it is missing: to count them first would read the
        // text twice.
        let vars = self.formula.vars();
        let Ok(()) = self.formula.reserve(vars, 1, self.open_clause.len() as u64) else {
            return Err(AllocError);
        };
        self.formula.push(&self.open_clause);
        self.open_clause.clear();
        Ok(())
    }

    /// Takes a number. It answers whether its variable is none of the formula's: then it isn't
    /// taken.
    #[inline(always)]
    fn take_number(&mut self, number: i64) -> Result<bool, AllocError>
        ensures found { IfOk result
            (λ strange. strange ≡ has_strange_variable self.old.formula.cnf.vars
            (number ∷ [])) }
        ensures head { IfOk result (λ _. head_in self.new ≡ head_in self.old) }
        ensures taken { IfOk result (λ strange. strange ≡ false → TakesNumbers self.old self.new
            (number ∷ [])) }
    {
        if number.unsigned_abs() > u64::from(self.formula.vars()) {
            return Ok(true);
        }
        let most = self.most;
        if self.formula.len() >= most {
            self.excess = true;
            return Ok(false);
        }
        let Ok(()) = self.take(number) else {
            return Err(AllocError);
        };
        Ok(false)
    }

    /// Takes the numbers of a line up to a word that says none. It answers whether a variable of
    /// these is none of the formula's.
    #[inline(always)]
    fn take_front(&mut self, line: &mut Line<'_>) -> Result<bool, AllocError>
        ensures front { IfOk result
            (TakesLineFront self.old self.new line.old.words line.new.words) }
        ensures end { IfOk result (λ _. IsAtNoNumber line.new.words) }
    {
        let mut strange = false;
        while let Some(number) = line.next_number() {
            let Ok(found) = self.take_number(number) else {
                return Err(AllocError);
            };
            strange |= found;
        }
        Ok(strange)
    }

    /// Takes a line behind the head line.
    pub fn take_line(&mut self, line: &mut Line<'_>) -> Result<(), TextFault>
        ensures { AnswersFault (body_fault (head_in self.old) line.old)
            (λ _. TakesNumbers self.old self.new (numbers_of line.old.words)) result }
    {
        let whole = line.again();
        let Ok(strange) = self.take_front(line) else {
            return Err(TextFault::Memory);
        };
        if line.has_words() {
            return Err(foreign_word(&whole));
        }
        if strange {
            return Err(Cause::Variable.at(whole.number()));
        }
        Ok(())
    }

    /// Whether there are so many clauses as the head line says, and nothing stands behind the last
    /// 0.
    #[tactic(auto, using(crate::proofs::DraftLemmas::clauses_now))]
    pub fn is_whole(&self) -> bool
        ensures { result ≡ is_some (clauses_with self.now []) }
    {
        !self.excess && self.formula.len() == self.most && self.open_clause.is_empty()
    }
}

/// Why a line is refused that has a word which says no number.
fn foreign_word(line: &Line<'_>) -> TextFault
    ensures { result ≡ Bad line.now.number
        (code_of (if begins_as_head line.now.words then HeadForm else CnfNumber)) }
{
    let mut words = line.again();
    match words.next_word() {
        Some(first) if first.text == b"p".as_slice() => Cause::HeadForm.at(first.line),
        _ => Cause::CnfNumber.at(line.number()),
    }
}
