//! What is said of what is refused: where, why, and by which code or cause.
ghost use Rattle.std.specs.Prelude.{◌≡◌, ◌++◌, OnOk, string_bytes, unwrap_or};
ghost use Rattle.std.specs.Option.{option_copied};
ghost use Rattle.code_words.specs.Refused.{
  judged_said,
  judged_why,
  limit_said,
  limit_why,
  line_said,
  line_why,
  step_said,
  step_why,
};

use crate::causes::{cause, cause_within_reach};
use crate::refusals::refusal;
use std::alloc::AllocError;

/// Appends which line of a file is bad, why, and its code: behind the name of the file, with no
/// stop at the end.
///
/// # Errors
/// Memory ran out; then a front part may have been appended.
pub fn append_line(out: &mut String, line: u64, code: u32) -> Result<(), AllocError>
    ensures { OnOk result (string_bytes out.new ≡ string_bytes out.old ++ line_said line code) }
{
    let why = line_why(code);
    write!(out, ", line {line}: {why} (code {code})")
}

/// Appends which line of a routed file the judge holds against it, why, and the cause. `several`
/// says whether a net may have several wires of a cell there.
///
/// # Errors
/// Memory ran out; then a front part may have been appended.
pub fn append_judged(
    out: &mut String,
    several: bool,
    line: u64,
    cause: u32,
) -> Result<(), AllocError>
    ensures { OnOk result
        (string_bytes out.new ≡ string_bytes out.old ++ judged_said several line cause) }
{
    let why = judged_why(several, cause);
    write!(out, ", line {line}: {why} (cause {cause})")
}

/// Appends which step of a log is refused, why, and the cause.
///
/// # Errors
/// Memory ran out; then a front part may have been appended.
pub fn append_step(out: &mut String, step: u64, cause: u32) -> Result<(), AllocError>
    ensures { OnOk result (string_bytes out.new ≡ string_bytes out.old ++ step_said step cause) }
{
    let why = step_why(cause);
    write!(
        out,
        ", step {step}: {why} (cause {cause}); so it refutes nothing"
    )
}

/// Appends which number passes its limit, and the code.
///
/// # Errors
/// Memory ran out; then a front part may have been appended.
pub fn append_limit(out: &mut String, code: u32, count: u64) -> Result<(), AllocError>
    ensures { OnOk result (string_bytes out.new ≡ string_bytes out.old ++ limit_said code count) }
{
    let why = limit_why(code);
    write!(out, "{why}: {count} (code {code})")
}

fn line_why(code: u32) -> &'static str
    ensures { result.now ≡ line_why code }
{
    words_or(cause(code), "this line is not taken")
}

fn judged_why(several: bool, cause_told: u32) -> &'static str
    ensures { result.now ≡ judged_why several cause_told }
{
    let words = match several {
        true => cause_within_reach(cause_told),
        false => cause(cause_told),
    };
    words_or(words, "this line is not taken")
}

fn step_why(cause: u32) -> &'static str
    ensures { result.now ≡ step_why cause }
{
    words_or(refusal(cause), "it does not follow")
}

fn limit_why(code: u32) -> &'static str
    ensures { result.now ≡ limit_why code }
{
    words_or(cause(code), "a number passes its limit")
}

// The words for a cause, or these where it has none.
fn words_or(words: Option<&'static str>, others: &'static str) -> &'static str
    ensures { result.now ≡ unwrap_or (option_copied words.entry) others.now }
{
    match words {
        Some(words) => words,
        None => others,
    }
}
