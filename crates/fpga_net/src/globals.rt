//! The global nets. A line may name them anywhere in a text, and codes of earlier lines look at
//! them, so they are looked for first.
ghost use Rattle.std.specs.Prelude.{◌≡◌, ◌≤◌, ◌+◌, ◌∷◌, [], fold, length, take, IfOk, OnOk};
ghost use Rattle.fpga_text.specs.Words.{text_lines};
ghost use Rattle.fpga_text.specs.declared.style.Style.TheVariants.{Joined};
ghost use Rattle.fpga_types.specs.declared.limits.TheConstants.{NET_LIMIT};
ghost use Rattle.fpga_net.specs.Codes.{globals_of};
ghost use Rattle.fpga_net.specs.Forms as spec;
ghost use Rattle.fpga_net.specs.Forms.{form_of as form_said_by, made_global};
ghost use Rattle.fpga_net.specs.Globals.{
  AreFound,
  FindsGlobals,
  FindsMore,
  LooksFor,
  nets_named,
  nets_on_pins,
  some_globals,
};
ghost use Rattle.fpga_net.specs.Names.{names_with};

use crate::forms::{LineForm, form_of};
use crate::names::NameTable;
use crate::net_use::is_open;
use fpga_text::{Line, Lines, Style};
use fpga_types::NET_LIMIT;
use std::alloc::{AllocError, Global};

/// The nets on pins that any line of a netlist text makes global, for an architecture whose blocks
/// have at most so many pins.
///
/// Behind the pinlist with which there are more than a netlist may have nets none is looked for,
/// as a reader refuses that one. So memory grows with the nets of the netlist alone, however many
/// others its `.global` lines name. A text without such a line takes none.
pub fn global_nets<'a>(
    alloc: Global,
    text: &'a [u8],
    pins: usize,
) -> Result<NameTable<'a>, AllocError>
    ensures { IfOk result (FindsGlobals pins (text_lines Joined text.now)) }
{
    if !names_globals(text) {
        return Ok(NameTable::new(alloc));
    }
    let sought = names_on_pins(alloc, text, pins)?;
    let found = found_names(alloc, text, &sought)?;
    Ok(found)
}

/// Whether a line of the text names global nets.
fn names_globals(text: &[u8]) -> bool
    ensures { result ≡ some_globals (text_lines Joined text.now) }
{
    let mut lines = Lines::new(text, Style::Joined);
    while let Some(mut line) = lines.next_line() {
        if is_globals(&mut line) {
            return true;
        }
    }
    false
}

/// Whether a line names global nets, of which no word was taken yet.
fn is_globals(line: &mut Line<'_>) -> bool
    ensures { result ≡ spec.is_globals (form_said_by line.old.words) }
{
    matches!(form_of(line), LineForm::Globals)
}

/// The nets that pinlists name for the pins of their blocks, up to the pinlist with which there
/// are more than a netlist may have.
fn names_on_pins<'a>(
    alloc: Global,
    text: &'a [u8],
    pins: usize,
) -> Result<NameTable<'a>, AllocError>
    ensures looks { IfOk result (LooksFor pins (text_lines Joined text.now)) }
    ensures few { IfOk result (λ names. length names ≤ NET_LIMIT + pins) }
{
    let mut names = NameTable::new(alloc);
    let mut lines = Lines::new(text, Style::Joined);
    while names.len() <= NET_LIMIT {
        let Some(mut line) = lines.next_line() else {
            return Ok(names);
        };
        add_pinlist(&mut names, &mut line, pins)?;
    }
    Ok(names)
}

/// Adds the nets that a line names for at most so many pins, if it is a pinlist. No word of it was
/// taken yet.
fn add_pinlist<'a>(
    names: &mut NameTable<'a>,
    line: &mut Line<'a>,
    most: usize,
) -> Result<(), AllocError>
    ensures nets { OnOk result
        (names.new ≡ fold names_with names.old (nets_on_pins most (form_said_by line.old.words))) }
    ensures few { OnOk result (length names.new ≤ length names.old + most) }
{
    match form_of(line) {
        LineForm::Pinlist => add_words(names, line, most),
        _ => Ok(()),
    }
}

/// Adds the nets that the next words of a line name, at most so many words.
fn add_words<'a>(
    names: &mut NameTable<'a>,
    line: &mut Line<'a>,
    most: usize,
) -> Result<(), AllocError>
    ensures nets { OnOk result
        (names.new ≡ fold names_with names.old (nets_named (take most line.old.words))) }
    ensures few { OnOk result (length names.new ≤ length names.old + most) }
{
    let mut left = most;
    while left > 0 {
        let Some(word) = line.next_word() else {
            return Ok(());
        };
        add_word(names, word.text)?;
        left -= 1;
    }
    Ok(())
}

/// Adds the net that a word of a pinlist names, if it names one.
fn add_word<'a>(names: &mut NameTable<'a>, word: &'a [u8]) -> Result<(), AllocError>
    ensures nets { OnOk result
        (names.new ≡ fold names_with names.old (nets_named (word.now ∷ []))) }
    ensures few { OnOk result (length names.new ≤ length names.old + 1) }
{
    if is_open(word) {
        return Ok(());
    }
    names.add(word)
}

/// Those of the sought names that a line of the text makes global.
fn found_names<'a>(
    alloc: Global,
    text: &'a [u8],
    sought: &NameTable<'a>,
) -> Result<NameTable<'a>, AllocError>
    ensures { IfOk result (AreFound sought.now (globals_of (text_lines Joined text.now))) }
{
    let mut found = NameTable::new(alloc);
    let mut lines = Lines::new(text, Style::Joined);
    while let Some(mut line) = lines.next_line() {
        find_globals(&mut found, sought, &mut line)?;
    }
    Ok(found)
}

/// Adds those of the sought names that a line makes global, of which no word was taken yet.
fn find_globals<'a>(
    found: &mut NameTable<'a>,
    sought: &NameTable<'a>,
    line: &mut Line<'a>,
) -> Result<(), AllocError>
    ensures { OnOk result
        (FindsMore sought.now found.old (made_global (form_said_by line.old.words)) found.new) }
{
    match form_of(line) {
        LineForm::Globals => find_words(found, sought, line),
        _ => Ok(()),
    }
}

/// Adds those of the next words of a line that are sought.
fn find_words<'a>(
    found: &mut NameTable<'a>,
    sought: &NameTable<'a>,
    line: &mut Line<'a>,
) -> Result<(), AllocError>
    ensures { OnOk result (FindsMore sought.now found.old line.old.words found.new) }
{
    while let Some(word) = line.next_word() {
        find_word(found, sought, word.text)?;
    }
    Ok(())
}

/// Adds a name, if it is sought.
fn find_word<'a>(
    found: &mut NameTable<'a>,
    sought: &NameTable<'a>,
    name: &'a [u8],
) -> Result<(), AllocError>
    ensures { OnOk result (FindsMore sought.now found.old (name.now ∷ []) found.new) }
{
    if sought.contains(name) {
        return found.add(name);
    }
    Ok(())
}
