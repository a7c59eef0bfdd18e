//! Reading models.
ghost use Rattle.std.specs.Prelude.{◌≡◌, ◌≤◌, []};
ghost use Rattle.fpga_text.specs.FirstFault.{Answers};
ghost use Rattle.sat_clause.specs.declared.limits.TheConstants.{VARIABLE_LIMIT};
ghost use Rattle.model_text.specs.Assignments.{Gives, vars_in};
ghost use Rattle.model_text.specs.Drafts.{IsDraftOf, TakesLines};
ghost use Rattle.model_text.specs.ModelText.{lines_faults, model_faults, model_said};

use crate::assignment::Assignment;
use crate::cause::Cause;
use crate::draft::Draft;
use fpga_text::{Coded, Lines, Style, TextFault};
use std::alloc::Global;

/// Takes all lines, of which none was taken yet.
fn take_lines(draft: &mut Draft, lines: &mut Lines<'_>) -> Result<(), TextFault>
    requires { IsDraftOf [] draft.old }
    ensures vars { vars_in draft.new.assignment ≡ vars_in draft.old.assignment }
    ensures answers { Answers (lines_faults (vars_in draft.old.assignment) [] lines.old.ahead)
        (λ _. TakesLines lines.old lines.new draft.new) result }
{
    while let Some(mut line) = lines.next_line() {
        match draft.take_line(&mut line) {
            Ok(()) => {}
            Err(fault) => return Err(fault),
        }
    }
    Ok(())
}

/// The literals that the text of a model of so many variables says to be true, as SAT solvers print
/// it: up to the first 0, on lines that begin with a `v` or not. Comments, `s SATISFIABLE` and
/// `SAT` are passed over. The text is read once, and takes two bytes of memory a variable.
///
/// # Errors
/// `Bad` has the first bad line, counted from 1, with the least code that holds there:
/// - 1001: the solver has found no model: the first word is `s`, `UNSAT` or `INDET`;
/// - 1002: a number is due, and is none of 64 bits with its sign;
/// - 1003: a number stands behind the 0;
/// - 1004: a literal of a variable above the number of variables;
/// - 1005: a literal whose negation is said to be true, too;
/// - 1006: at the end, no 0 has come.
///
/// `Memory` comes where memory is short.
pub fn read_model(alloc: Global, bytes: &[u8], vars: u32) -> Result<Assignment, TextFault>
    requires { vars ≤ VARIABLE_LIMIT }
    ensures { Answers (model_faults vars bytes.now) (Gives vars (model_said bytes.now)) result }
{
    let mut lines = Lines::new(bytes, Style::Plain);
    let Ok(mut draft) = Draft::new(alloc, vars) else {
        return Err(TextFault::Memory);
    };
    match take_lines(&mut draft, &mut lines) {
        Ok(()) => {}
        Err(fault) => return Err(fault),
    }
    if !draft.ended {
        return Err(Cause::NoEnd.at(lines.line_count() + 1));
    }
    Ok(draft.assignment)
}
