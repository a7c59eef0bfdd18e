//! Reading CNF and LRAT texts.
ghost use Rattle.std.specs.Prelude.{◌≡◌, ◌∷◌, ◌++◌, [], OnOk, All};
ghost use Rattle.fpga_text.specs.FirstFault.{Answers};
ghost use Rattle.sat_text.specs.Bodies.{TakesBody, body_faults};
ghost use Rattle.sat_text.specs.CnfText.{cnf_faults, cnf_said};
ghost use Rattle.sat_text.specs.Drafts.{head_in};
ghost use Rattle.sat_clause.specs.Literal.{IsLiteral};
ghost use Rattle.sat_text.specs.LratText.{full_lrat_faults, lrat_faults, lrat_said};
ghost use Rattle.sat_text.specs.Steps.{viewed};
ghost use Rattle.sat_text.specs.ToldLines.{told};

use crate::cause::Cause;
use crate::draft::Draft;
use crate::head::read_head;
use crate::log_lines::LogLines;
use crate::told::next_told;
use fpga_text::{Coded, Lines, Style, TextFault};
use sat_clause::{Formula, Log, StepView};
use std::alloc::{AllocError, Global};

/// Takes the lines behind the head line.
fn take_body(draft: &mut Draft, lines: &mut Lines<'_>) -> Result<(), TextFault>
    ensures { Answers (body_faults (head_in draft.old) (told lines.old.ahead))
        (λ _. TakesBody draft.old draft.new lines.old lines.new) result }
{
    while let Some(mut line) = next_told(lines) {
        match draft.take_line(&mut line) {
            Ok(()) => {}
            Err(fault) => return Err(fault),
        }
    }
    Ok(())
}

/// The formula that a CNF text says, in the format of the second DIMACS challenge (1993). The text
/// is read once. The head line says for how many clauses room is made. Behind as many clauses as
/// the head line says nothing is kept any more, so that a text takes no more memory than its
/// formula.
///
/// # Errors
/// `Bad` has the first bad line, counted from 1, with the least code that holds there:
/// - 601: no head line where one is due, or a second one;
/// - 602: a number is due, and is none of 64 bits with its sign, or is negative in the head line;
/// - 603: a literal of a variable that the head line does not have;
/// - 604: at the end, another number of clauses than in the head line, or no 0 behind the last one.
///
/// `Limit` has the code 605 and a number of the head line: more than 100,000,000 variables, or more
/// than 40,000,000 clauses. `Memory` comes where memory is short.
pub fn read_cnf(alloc: Global, bytes: &[u8]) -> Result<Formula, TextFault>
    ensures { Answers (cnf_faults bytes.now) (λ formula. formula.cnf ≡ cnf_said bytes.now) result }
{
    let mut lines = Lines::new(bytes, Style::Plain);
    let Some(mut line) = next_told(&mut lines) else {
        return Err(Cause::HeadForm.at(lines.line_count() + 1));
    };
    let head = match read_head(&mut line) {
        Ok(head) => head,
        Err(fault) => return Err(fault),
    };
    let Ok(mut draft) = Draft::new(alloc, head, bytes.len()) else {
        return Err(TextFault::Memory);
    };
    match take_body(&mut draft, &mut lines) {
        Ok(()) => {}
        Err(fault) => return Err(fault),
    }
    if !draft.is_whole() {
        return Err(Cause::ClauseCount.at(lines.line_count() + 1));
    }
    let Draft {
        formula,
        open_clause: _,
        most: _,
        excess: _,
    } = draft;
    Ok(formula)
}

/// Adds a step to a log.
fn add_step(log: &mut Log, step: StepView<'_>) -> Result<(), AllocError>
    requires { All IsLiteral step.lits.now }
    ensures { OnOk result (log.new.steps ≡ log.old.steps ++ viewed step.entry ∷ []) }
{
    let Ok(()) = log.reserve(1, step.lits.len() as u64 + step.hints.len() as u64) else {
        return Err(AllocError);
    };
    if step.erase {
        log.erase(step.id, step.hints);
        return Ok(());
    }
    log.add(step.id, step.lits, step.hints);
    Ok(())
}

/// The log of the steps that are left.
fn read_steps(alloc: Global, mut lines: LogLines<'_>) -> Result<Log, TextFault>
    ensures { Answers lines.entry.faults (λ log. log.steps ≡ lines.entry.steps) result }
{
    let mut log = Log::new(alloc);
    loop {
        let more = match lines.read_next() {
            Ok(more) => more,
            Err(fault) => return Err(fault),
        };
        if !more {
            return Ok(log);
        }
        let Ok(()) = add_step(&mut log, lines.step()) else {
            return Err(TextFault::Memory);
        };
    }
}

/// The log that an LRAT text says which goes with so many input clauses, in the format of
/// Cruz-Filipe, Heule, Hunt, Kaufmann and Schneider-Kamp (2017) without steps that resolve on a
/// first literal. The text is read once.
///
/// # Errors
/// `Bad` has the first bad line, counted from 1, with the least code that holds there:
/// - 701: a number is due, and is none of 64 bits with its sign, or is an id below 1;
/// - 702: the line has the form neither of an added clause nor of a deletion;
/// - 703: the id of an added clause is not above the number of input clauses and all earlier ones;
/// - 704: a negative hint.
///
/// `Limit` has the code 705 and a number: an id or a hint above 4,294,967,295, or a literal of a
/// variable above 100,000,000. `Memory` comes where memory is short.
pub fn read_lrat(alloc: Global, bytes: &[u8], inputs: u32) -> Result<Log, TextFault>
    ensures { Answers (lrat_faults inputs bytes.now)
        (λ log. log.steps ≡ lrat_said bytes.now) result }
{
    read_steps(alloc, LogLines::new(alloc, bytes, inputs))
}

/// The log that a text of full LRAT says which goes with so many input clauses, steps that resolve
/// on a first literal included: a negative hint begins a group of hints, and its size is the id of
/// the group's clause.
///
/// # Errors
/// Those of [`read_lrat`], but for one: `Bad` with the code 704 comes at an added clause without
/// literals that has a negative hint. The size of a negative hint counts for 705.
pub fn read_lrat_full(alloc: Global, bytes: &[u8], inputs: u32) -> Result<Log, TextFault>
    ensures { Answers (full_lrat_faults inputs bytes.now)
        (λ log. log.steps ≡ lrat_said bytes.now) result }
{
    read_steps(alloc, LogLines::full(alloc, bytes, inputs))
}
