//! Which word of a command is wrong, or what is missing.
ghost use Rattle.std.specs.Prelude.{◌≡◌, ◌++◌, IfOk, OnOk, string_bytes};
ghost use Rattle.usage_words.specs.Wrong as spec;
ghost use Rattle.usage_words.specs.Word.{words_of};

use crate::command::Command;
use crate::item::Item;
use crate::phrases::*;
use crate::turn::{Standing, Turn, turn_of};
use std::alloc::AllocError;

/// Appends which of the words behind the name of a command is the first that is wrong, or what is
/// missing behind them all; says whether there was something to append.
pub(crate) fn append_wrong(
    out: &mut String,
    command: Command,
    words: &[String],
) -> Result<bool, AllocError>
    ensures { IfOk result (λ told. spec.IsTold (spec.wrong_said command spec.begun
        (words_of words.now)) (string_bytes out.old) (string_bytes out.new) told) }
{
    let mut standing = Standing {
        words: 0,
        option: None,
    };
    for word in words {
        match turn_of(command, standing, word.as_str()) {
            Turn::Goes(next) => standing = next,
            stop => return append_stop(out, command, word.as_str(), stop),
        }
    }
    append_missing(out, command, standing)
}

// Appends what is wrong with a word that ends the walk.
fn append_stop(
    out: &mut String,
    command: Command,
    word: &str,
    stop: Turn,
) -> Result<bool, AllocError>
    ensures { IfOk result (λ told. spec.IsTold (spec.stop_said command word.now stop)
        (string_bytes out.old) (string_bytes out.new) told) }
{
    match stop {
        Turn::Goes(_) | Turn::Open => return Ok(false),
        Turn::NoOption => append_no_option(out, command.name(), word)?,
        Turn::NoValue(item) => append_no_value(out, item.name())?,
        Turn::TooMany => append_too_many(out, word)?,
        Turn::OutOfRange(item) => append_out_of_range(out, item, word)?,
    }
    Ok(true)
}

// Appends what is missing behind all words.
fn append_missing(
    out: &mut String,
    command: Command,
    standing: Standing,
) -> Result<bool, AllocError>
    ensures { IfOk result (λ told. spec.IsTold (spec.end_said command standing)
        (string_bytes out.old) (string_bytes out.new) told) }
{
    if let Some(item) = standing.option {
        append_no_value(out, item.name())?;
        return Ok(true);
    }
    let Some(item) = command.word(standing.words) else {
        return Ok(false);
    };
    append_no_word(out, item.name())?;
    Ok(true)
}

fn append_no_option(out: &mut String, command: &str, word: &str) -> Result<(), AllocError>
    ensures { OnOk result (string_bytes out.new
        ≡ string_bytes out.old ++ spec.no_option_said command.now word.now) }
{
    write!(out, "{command}{WRONG_OPTION}{word}.\n")
}

fn append_no_value(out: &mut String, option: &str) -> Result<(), AllocError>
    ensures { OnOk result
        (string_bytes out.new ≡ string_bytes out.old ++ spec.no_value_said option.now) }
{
    write!(out, "{option}{WRONG_NO_VALUE}")
}

fn append_too_many(out: &mut String, word: &str) -> Result<(), AllocError>
    ensures { OnOk result
        (string_bytes out.new ≡ string_bytes out.old ++ spec.too_many_said word.now) }
{
    write!(out, "{word}{WRONG_TOO_MANY}")
}

fn append_no_word(out: &mut String, name: &str) -> Result<(), AllocError>
    ensures { OnOk result
        (string_bytes out.new ≡ string_bytes out.old ++ spec.no_word_said name.now) }
{
    write!(out, "{name}{WRONG_MISSING}")
}

fn append_out_of_range(out: &mut String, item: Item, word: &str) -> Result<(), AllocError>
    ensures { OnOk result (string_bytes out.new
        ≡ string_bytes out.old ++ spec.out_of_range_said item word.now) }
{
    let Some(range) = item.range() else {
        return Ok(());
    };
    append_not_within(out, item.name(), range.least, range.greatest, word)
}

fn append_not_within(
    out: &mut String,
    name: &str,
    least: u64,
    greatest: u64,
    word: &str,
) -> Result<(), AllocError>
    ensures { OnOk result (string_bytes out.new
        ≡ string_bytes out.old ++ spec.not_within_said name.now least greatest word.now) }
{
    write!(
        out,
        "{name}{WRONG_RANGE_FROM}{least}{WRONG_RANGE_TO}{greatest}{WRONG_RANGE_NOT}{word}.\n"
    )
}
