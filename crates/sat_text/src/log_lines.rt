//! The steps of an LRAT text, one after another.
ghost use Rattle.std.specs.Prelude.{◌≡◌, [], IfErr, IfOk, IsTrue, false, All, length};
ghost use Rattle.fpga_text.specs.FirstFault.{IsRefusal};
ghost use Rattle.sat_clause.specs.Literal.{IsLiteral};
ghost use Rattle.sat_text.specs.LratText.{full_lrat_faults, lrat_faults, lrat_faults_by, lrat_said};
ghost use Rattle.sat_text.specs.Steps.{viewed};

use crate::hint_rule::HintRule;
use crate::step_draft::StepDraft;
use crate::told::next_told;
use fpga_text::{Lines, Style, TextFault};
use sat_clause::StepView;
use std::alloc::Global;
use std::marker::Model;

/// The steps of an LRAT text that were not read yet, and the one that was read last. It holds that
/// one step alone, and each uses the room of the one before again.
#[derive(Drop)]
pub struct LogLines<'a> {
    lines: Lines<'a>,
    draft: StepDraft,
}

impl<'a> Model for LogLines<'a> {
    ghost use Rattle.sat_text.specs.LogAhead.{LogAhead, ahead_of};

    ghost Value = { LogAhead };

    ghost view = { λ l. ahead_of l.lines l.draft };
}

impl<'a> LogLines<'a> {
    ghost use Rattle.sat_text.specs.LogAhead.{IsReadOut, ReadsNext};

    /// The steps of a text whose hints keep this rule.
    fn by_rule(alloc: Global, bytes: &'a [u8], inputs: u32, rule: HintRule) -> LogLines<'a>
        ensures faults { result.faults ≡ lrat_faults_by rule inputs bytes.now }
        ensures steps { result.steps ≡ lrat_said bytes.now }
    {
        LogLines {
            lines: Lines::new(bytes, Style::Plain),
            draft: StepDraft::new(alloc, inputs, rule),
        }
    }

    /// The steps of a text that goes with so many input clauses, from its first line on. The step
    /// that was read last is at first a deletion of nothing.
    pub fn new(alloc: Global, bytes: &'a [u8], inputs: u32) -> LogLines<'a>
        ensures faults { result.faults ≡ lrat_faults inputs bytes.now }
        ensures steps { result.steps ≡ lrat_said bytes.now }
    {
        LogLines::by_rule(alloc, bytes, inputs, HintRule::Plain)
    }

    /// The same of a text of full LRAT, in which steps may resolve on a first literal.
    pub fn full(alloc: Global, bytes: &'a [u8], inputs: u32) -> LogLines<'a>
        ensures faults { result.faults ≡ full_lrat_faults inputs bytes.now }
        ensures steps { result.steps ≡ lrat_said bytes.now }
    {
        LogLines::by_rule(alloc, bytes, inputs, HintRule::Full)
    }

    /// Reads the next step, and answers whether there was one.
    ///
    /// # Errors
    /// Those of [`crate::read_lrat`] or [`crate::read_lrat_full`], of which the first in the text
    /// comes first. Nothing is said of what is read behind one.
    pub fn read_next(&mut self) -> Result<bool, TextFault>
        ensures some { IfOk result (λ more. IsTrue more → ReadsNext self.old self.new) }
        ensures none { IfOk result (λ more. more ≡ false → IsReadOut self.old) }
        ensures err { IfErr result (IsRefusal self.old.faults) }
    {
        let Some(mut line) = next_told(&mut self.lines) else {
            return Ok(false);
        };
        match self.draft.take_line(&mut line) {
            Ok(()) => {}
            Err(fault) => return Err(fault),
        }
        Ok(true)
    }

    /// The step that was read last.
    pub fn step(&self) -> StepView<'_>
        ensures value { viewed result ≡ self.now.step }
        ensures literals { All IsLiteral result.lits.now }
        ensures none { IsTrue result.erase → result.lits.now ≡ [] }
    {
        self.draft.step()
    }
}
