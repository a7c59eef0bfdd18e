//! The line that a row is answered by.
ghost use Rattle.std.specs.Prelude.{◌≡◌, IfOk, string_bytes};
ghost use Rattle.rows.specs.Fitted.{IsAnswered, counts_line, counts_text, fault_line as fault_words};

use fpga_bounds::PlacedProblem;
use fpga_problem::{FourTexts, read_problem};
use fpga_text::TextFault;
use std::alloc::{AllocError, Global};

/// The line that the four texts are answered by.
pub(crate) fn answer(alloc: Global, texts: &FourTexts<'_>) -> Result<String, AllocError>
    ensures { IfOk result (λ line. IsAnswered texts.now (string_bytes line)) }
{
    match read_problem(alloc, texts) {
        Ok(problem) => counts(alloc, &problem),
        Err(refusal) => fault_line(alloc, refusal.fault),
    }
}

// How many parts of each kind the problem has.
fn counts(alloc: Global, problem: &PlacedProblem) -> Result<String, AllocError>
    ensures { IfOk result (λ line. string_bytes line ≡ counts_line problem.now) }
{
    let slots = problem.slots().len();
    let steps = problem.steps().len();
    let pins = problem.pin_steps().len();
    told_counts(alloc, slots, steps, pins, problem.pairs())
}

// The line of so many parts of each kind.
fn told_counts(
    alloc: Global,
    slots: usize,
    steps: usize,
    pins: usize,
    pairs: u64,
) -> Result<String, AllocError>
    ensures { IfOk result (λ line. string_bytes line ≡ counts_text slots steps pins pairs) }
{
    format!(in alloc; "{slots} slots, {steps} steps, {pins} pin steps, {pairs} pairs")
}

// The line of a fault.
fn fault_line(alloc: Global, fault: TextFault) -> Result<String, AllocError>
    ensures { IfOk result (λ line. string_bytes line ≡ fault_words fault) }
{
    match fault {
        TextFault::Bad { line, code } => format!(in alloc; "line {line}: {code}"),
        TextFault::Limit { code, count } => format!(in alloc; "{code} by {count}"),
        TextFault::Memory => format!(in alloc; "no memory"),
    }
}
