//! What a form takes, and the words and numbers that it finds.
ghost use Rattle.std.specs.Prelude.{◌≡◌, ◌≤◌, IfOk, is_some, option_map, true};
ghost use Rattle.clap.specs.Words.{app_of, first_of, found_of, rows_of};
ghost use Rattle.router_words.specs.Command.{has_flag, number_within, word_in};
ghost use Rattle.router_words.specs.Form.{is_form};
ghost use Rattle.router_words.specs.Taken.{Takes};
ghost use Rattle.router_words.specs.Word.{words_of};

use crate::fault::{Refusal, WordsFault};
use clap::error::ErrorKind;
use clap::{ArgMatches, Command};
use fpga_text::whole_number_of;

/// What the form finds in the words that it takes. `Refused` has the cause `Form`, and comes
/// exactly where it does not take them; `Memory` comes where memory is short.
pub fn take<'a>(command: Command<'a>, words: &'a [String]) -> Result<ArgMatches<'a>, WordsFault>
    requires { is_form (app_of command) ≡ true }
    ensures { Takes (app_of command.entry) (words_of words.entry.now) result }
{
    let error = match command.try_get_matches_from(words) {
        Ok(matches) => return Ok(matches),
        Err(error) => error,
    };
    if error.kind() == ErrorKind::OutOfMemory {
        return Err(WordsFault::Memory);
    }
    Err(WordsFault::Refused(Refusal::Form))
}

/// The first word for a name, where there is one.
pub fn first_word<'a>(matches: &ArgMatches<'a>, name: &str) -> Option<&'a str>
    ensures { option_map (λ word. word.now) result
        ≡ first_of name.now (rows_of (found_of matches.now)) }
{
    matches.get_str(name)
}

/// The word for a name that the form requires.
pub fn required_word<'a>(matches: &ArgMatches<'a>, name: &str) -> &'a str
    requires { is_some (first_of name.now (rows_of (found_of matches.now))) ≡ true }
    ensures { result.now ≡ word_in name.now (rows_of (found_of matches.now)) }
{
    let Some(word) = first_word(matches, name) else {
        unreachable!();
    };
    word
}

/// Whether the option with this name, which has no value, was given. `clap` notes `true` for it,
/// and `false` where it was not.
pub fn has_flag(matches: &ArgMatches, name: &str) -> bool
    ensures { result ≡ has_flag name.now (rows_of (found_of matches.now)) }
{
    let Some(text) = first_word(matches, name) else {
        return false;
    };
    text == "true"
}

/// The whole number that a word says, where it is from the least to the greatest. The refusal is
/// `Number`.
pub fn number_within(word: &str, least: u64, greatest: u64) -> Result<u64, Refusal>
    ensures number { result ≡ number_within least greatest word.now }
    ensures within { IfOk result (λ number. (least ≤ number) × (number ≤ greatest)) }
{
    let number = whole_number_of(word.as_bytes()).ok_or(Refusal::Number)?;
    if number < least || greatest < number {
        return Err(Refusal::Number);
    }
    Ok(number)
}
