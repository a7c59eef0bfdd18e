//! The words that stand behind another on lines of a netlist, and the first words of a placement.
ghost use Rattle.std.specs.Prelude.{◌≡◌, ◌++◌, OnOk, flat_map, take};
ghost use Rattle.fault_names.specs.LinesBy.{behind_here, first_words, words_behind};
ghost use Rattle.fault_names.specs.Lookups.{bytes_of};

use fpga_text::{Line, Lines, Style};
use std::alloc::AllocError;

/// Adds the words behind this one, on each line of a netlist that begins with it.
///
/// # Errors
/// Memory ran out; then some may have been added.
pub(crate) fn add_behind<'a>(
    names: &mut Vec<&'a [u8]>,
    text: &'a [u8],
    word: &[u8],
) -> Result<(), AllocError>
    ensures { OnOk result (bytes_of names.new.items
        ≡ bytes_of names.old.items ++ words_behind word.now text.now) }
{
    let mut lines = Lines::new(text, Style::Joined);
    while let Some(mut line) = lines.next_line() {
        add_behind_here(names, &mut line, word)?;
    }
    Ok(())
}

// Adds the words behind this one, if a line begins with it.
fn add_behind_here<'a>(
    names: &mut Vec<&'a [u8]>,
    line: &mut Line<'a>,
    word: &[u8],
) -> Result<(), AllocError>
    ensures { OnOk result (bytes_of names.new.items
        ≡ bytes_of names.old.items ++ behind_here word.now line.old.words) }
{
    if !line.next_is(word) {
        return Ok(());
    }
    add_rest(names, line)
}

// Adds the words of a line that were not yet taken.
fn add_rest<'a>(names: &mut Vec<&'a [u8]>, line: &mut Line<'a>) -> Result<(), AllocError>
    ensures { OnOk result
        (bytes_of names.new.items ≡ bytes_of names.old.items ++ line.old.words) }
{
    while let Some(word) = line.next_word() {
        names.push(word.text)?;
    }
    Ok(())
}

/// Adds the first word of each line of a placement behind its head.
///
/// # Errors
/// Memory ran out; then some may have been added.
pub(crate) fn add_first_words<'a>(
    names: &mut Vec<&'a [u8]>,
    text: &'a [u8],
) -> Result<(), AllocError>
    ensures { OnOk result
        (bytes_of names.new.items ≡ bytes_of names.old.items ++ first_words text.now) }
{
    let mut lines = Lines::new(text, Style::Hash);
    lines.next_line();
    lines.next_line();
    add_firsts(names, &mut lines)
}

// Adds the first word of each of the next lines.
fn add_firsts<'a>(names: &mut Vec<&'a [u8]>, lines: &mut Lines<'a>) -> Result<(), AllocError>
    ensures { OnOk result (bytes_of names.new.items ≡ bytes_of names.old.items
        ++ flat_map (λ line. take 1 line.words) lines.old.ahead) }
{
    while let Some(mut line) = lines.next_line() {
        add_first(names, &mut line)?;
    }
    Ok(())
}

// Adds the first word of a line.
fn add_first<'a>(names: &mut Vec<&'a [u8]>, line: &mut Line<'a>) -> Result<(), AllocError>
    ensures { OnOk result
        (bytes_of names.new.items ≡ bytes_of names.old.items ++ take 1 line.old.words) }
{
    let Some(word) = line.next_word() else {
        return Ok(());
    };
    names.push(word.text)?;
    Ok(())
}
