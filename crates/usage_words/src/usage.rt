//! Words for a command that is not taken.
ghost use Rattle.std.specs.Prelude.{◌≡◌, ◌++◌, OnOk, string_bytes};
ghost use Rattle.usage_words.specs.Usage as spec;
ghost use Rattle.usage_words.specs.Usage.{
  clash_said,
  code_said,
  example_said,
  form_said,
  lines_said,
  takes_said,
  usage_said,
  why_said,
};
ghost use Rattle.usage_words.specs.Word.{words_of};

use crate::command::{Command, command_of};
use crate::phrases::*;
use crate::wrong::append_wrong;
use std::alloc::AllocError;

/// Appends what is wrong with the words of a command, those after the program's name: which of
/// them, where one is. Then comes what the command takes, and an example; where the first word
/// names no command, those of `route`. `code` is the code of the report: 1 where the first word
/// names no command, 2 where the words are not taken, 3 of a number, 4 of options that exclude each
/// other, 5 of a file that would be written over.
///
/// # Errors
/// Memory ran out; then a front part may have been appended.
pub fn append_usage(out: &mut String, words: &[String], code: u32) -> Result<(), AllocError>
    ensures { OnOk result (string_bytes out.new
        ≡ string_bytes out.old ++ usage_said (words_of words.now) code) }
{
    let [name, others @ ..] = words else {
        append_code(out, code, Command::Route)?;
        return append_form(out, Command::Route);
    };
    let Some(command) = command_of(name.as_str()) else {
        append_no_command(out, name.as_str())?;
        append_code(out, 1, Command::Route)?;
        return append_form(out, Command::Route);
    };
    append_why(out, command, others, code)?;
    append_form(out, command)
}

// Appends that a word names no command.
fn append_no_command(out: &mut String, name: &str) -> Result<(), AllocError>
    ensures { OnOk result (string_bytes out.new
        ≡ string_bytes out.old ++ spec.no_command_said name.now) }
{
    write!(out, "{name}{WRONG_COMMAND}")
}

// Appends what is wrong with the words behind the name of a command.
fn append_why(
    out: &mut String,
    command: Command,
    words: &[String],
    code: u32,
) -> Result<(), AllocError>
    ensures { OnOk result (string_bytes out.new
        ≡ string_bytes out.old ++ why_said command (words_of words.now) code) }
{
    if code == 2 || code == 3 {
        let is_told = append_wrong(out, command, words)?;
        if is_told {
            return Ok(());
        }
    }
    append_code(out, code, command)
}

// Appends what a code says.
fn append_code(out: &mut String, code: u32, command: Command) -> Result<(), AllocError>
    ensures { OnOk result
        (string_bytes out.new ≡ string_bytes out.old ++ code_said code command) }
{
    out.push_str(code_said(code, command))
}

// Appends what a command takes, and an example.
fn append_form(out: &mut String, command: Command) -> Result<(), AllocError>
    ensures { OnOk result (string_bytes out.new ≡ string_bytes out.old ++ form_said command) }
{
    append_lines(out, takes_said(command), example_said(command))
}

fn append_lines(out: &mut String, takes: &str, example: &str) -> Result<(), AllocError>
    ensures { OnOk result
        (string_bytes out.new ≡ string_bytes out.old ++ lines_said takes.now example.now) }
{
    write!(out, "{FORM_TAKES}{takes}{FORM_EXAMPLE}{example}")
}

// What a code says.
fn code_said(code: u32, command: Command) -> &'static str
    ensures { result.now ≡ code_said code command }
{
    match code {
        1 => CODE_NO_COMMAND,
        3 => CODE_NUMBER,
        4 => clash_said(command),
        5 => CODE_WRITTEN_OVER,
        _ => CODE_OTHER_WORDS,
    }
}

// Which options of a command exclude each other, or need another.
fn clash_said(command: Command) -> &'static str
    ensures { result.now ≡ clash_said command }
{
    match command {
        Command::Encode | Command::Decode => CLASH_OF_METHODS,
        Command::Core => CLASH_OF_ORDERS,
        Command::Trial => CLASH_OF_COUNT,
        Command::Route
        | Command::Sweep
        | Command::Check
        | Command::Verify
        | Command::Judge
        | Command::Bound
        | Command::Global
        | Command::Least
        | Command::Gen => CLASH_OF_SEARCHES,
    }
}

// The words that a command takes.
fn takes_said(command: Command) -> &'static str
    ensures { result.now ≡ takes_said command }
{
    match command {
        Command::Route => TAKES_ROUTE,
        Command::Sweep => TAKES_SWEEP,
        Command::Encode => TAKES_ENCODE,
        Command::Decode => TAKES_DECODE,
        Command::Core => TAKES_CORE,
        Command::Check => TAKES_CHECK,
        Command::Verify => TAKES_VERIFY,
        Command::Judge => TAKES_JUDGE,
        Command::Bound => TAKES_BOUND,
        Command::Global => TAKES_GLOBAL,
        Command::Least => TAKES_LEAST,
        Command::Gen => TAKES_GEN,
        Command::Trial => TAKES_TRIAL,
    }
}

// A command as it may be given.
fn example_said(command: Command) -> &'static str
    ensures { result.now ≡ example_said command }
{
    match command {
        Command::Route => EXAMPLE_ROUTE,
        Command::Sweep => EXAMPLE_SWEEP,
        Command::Encode => EXAMPLE_ENCODE,
        Command::Decode => EXAMPLE_DECODE,
        Command::Core => EXAMPLE_CORE,
        Command::Check => EXAMPLE_CHECK,
        Command::Verify => EXAMPLE_VERIFY,
        Command::Judge => EXAMPLE_JUDGE,
        Command::Bound => EXAMPLE_BOUND,
        Command::Global => EXAMPLE_GLOBAL,
        Command::Least => EXAMPLE_LEAST,
        Command::Gen => EXAMPLE_GEN,
        Command::Trial => EXAMPLE_TRIAL,
    }
}
