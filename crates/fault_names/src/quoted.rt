//! A line as it stands, cut to what a person takes in.
ghost use Rattle.std.specs.Prelude.{◌≡◌, ◌++◌, OnOk, flat_map, string_bytes};
ghost use Rattle.fault_names.specs.Lookups.{bytes_of};
ghost use Rattle.fault_names.specs.Quoted as spec;
ghost use Rattle.fault_names.specs.Quoted.{line_quoted, quoted, word_cut, word_quoted};

use crate::line_of::line_with;
use crate::name_bytes::append_name;
use fpga_text::{FirstWords, Line, Style};
use std::alloc::AllocError;

/// How many words are quoted at the most. No form of a line of VPR has more.
const WORD_LIMIT: usize = 7;

/// How many bytes of a word are quoted at the most.
const BYTE_LIMIT: usize = 60;

/// Appends the words of the line with this number, behind a colon, if it has some: the first ones,
/// and of a long one the front.
///
/// # Errors
/// Memory ran out; then a front part may have been appended.
pub fn append_line_quoted(
    out: &mut String,
    style: Style,
    text: &[u8],
    number: u64,
) -> Result<(), AllocError>
    ensures { OnOk result
        (string_bytes out.new ≡ string_bytes out.old ++ line_quoted style text.now number) }
{
    let Some(mut line) = line_with(text, style, number) else {
        return Ok(());
    };
    out.push_str(":")?;
    append_quoted(out, &mut line)
}

/// Appends the words of a line that were not yet taken, each behind a blank.
#[tactic(auto, using(crate::proofs::QuotedLemmas::quoted_front))]
pub(crate) fn append_quoted(out: &mut String, line: &mut Line<'_>) -> Result<(), AllocError>
    ensures { OnOk result
        (string_bytes out.new ≡ string_bytes out.old ++ quoted line.old.words) }
{
    let words = FirstWords::of(line);
    append_first(out, words.as_slice())
}

// Appends words, of many the first.
fn append_first(out: &mut String, words: &[&[u8]]) -> Result<(), AllocError>
    ensures { OnOk result
        (string_bytes out.new ≡ string_bytes out.old ++ quoted (bytes_of words.now)) }
{
    if words.len() <= WORD_LIMIT {
        return append_each(out, words);
    }
    append_each(out, &words[..WORD_LIMIT])?;
    out.push_str(" ..")
}

// Appends words, each behind a blank.
fn append_each(out: &mut String, words: &[&[u8]]) -> Result<(), AllocError>
    ensures { OnOk result (string_bytes out.new
        ≡ string_bytes out.old ++ flat_map word_quoted (bytes_of words.now)) }
{
    for word in words {
        append_word(out, *word)?;
    }
    Ok(())
}

fn append_word(out: &mut String, word: &[u8]) -> Result<(), AllocError>
    ensures { OnOk result (string_bytes out.new ≡ string_bytes out.old ++ word_quoted word.now) }
{
    out.push_str(" ")?;
    append_cut(out, word)
}

// Appends a word, of a long one the front.
fn append_cut(out: &mut String, word: &[u8]) -> Result<(), AllocError>
    ensures { OnOk result (string_bytes out.new ≡ string_bytes out.old ++ word_cut word.now) }
{
    if word.len() <= BYTE_LIMIT {
        return append_name(out, word);
    }
    let (front, _) = word.split_at(BYTE_LIMIT);
    append_name(out, front)?;
    out.push_str("..")
}
