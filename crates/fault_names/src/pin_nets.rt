//! The nets on the pins of blocks, as the lines of a netlist name them.
ghost use Rattle.std.specs.Prelude.{◌≡◌, ◌++◌, OnOk, drop};
ghost use Rattle.fault_names.specs.Lookups.{bytes_of};
ghost use Rattle.fault_names.specs.PinNets as spec;
ghost use Rattle.fault_names.specs.PinNets.{nets_behind, nets_on, net_here, pin_nets};

use fpga_text::{Line, Lines, Style, is_text};
use fpga_types::{BlockKind, PinSpec, SideSet};
use std::alloc::AllocError;

/// Adds the words of the pinlists of a netlist for the pins that drive their nets, or for those at
/// which nets end, where logic blocks have these pins. They stand in the order of the text, `open`
/// and global nets among them.
///
/// # Errors
/// Memory ran out; then some may have been added.
pub(crate) fn add_pin_nets<'a>(
    names: &mut Vec<&'a [u8]>,
    pins: &[PinSpec],
    text: &'a [u8],
    drives: bool,
) -> Result<(), AllocError>
    ensures { OnOk result (bytes_of names.new.items
        ≡ bytes_of names.old.items ++ pin_nets drives pins.now text.now) }
{
    let mut lines = Lines::new(text, Style::Joined);
    let mut begun = None;
    while let Some(mut line) = lines.next_line() {
        let kind = kind_begun(&mut line);
        add_of_line(names, pins, begun, drives, &mut line)?;
        begun = kind;
    }
    Ok(())
}

// The kind of the block that a line begins, of which no word was taken yet. The first is taken.
fn kind_begun(line: &mut Line<'_>) -> Option<BlockKind>
    ensures kind { result ≡ spec.kind_begun line.old.words }
    ensures after { line.new ≡ record line.old { words = drop 1 line.old.words } }
{
    let Some(word) = line.next_word() else {
        return None;
    };
    kind_named(word.text)
}

// The kind of the block that a line with this first word begins.
fn kind_named(word: &[u8]) -> Option<BlockKind>
    ensures { result ≡ spec.kind_named word.now }
{
    if is_text(word, b".input") {
        return Some(BlockKind::Input);
    }
    if is_text(word, b".output") {
        return Some(BlockKind::Output);
    }
    if is_text(word, b".clb") {
        return Some(BlockKind::Logic);
    }
    None
}

// Adds the next words of a line for such pins, behind one that begins a block of this kind.
fn add_of_line<'a>(
    names: &mut Vec<&'a [u8]>,
    pins: &[PinSpec],
    begun: Option<BlockKind>,
    drives: bool,
    line: &mut Line<'a>,
) -> Result<(), AllocError>
    ensures { OnOk result (bytes_of names.new.items
        ≡ bytes_of names.old.items ++ nets_behind drives pins.now begun line.old.words) }
{
    match begun {
        Some(BlockKind::Input) => add_on(names, &[pad_pin(true)], drives, line),
        Some(BlockKind::Output) => add_on(names, &[pad_pin(false)], drives, line),
        Some(BlockKind::Logic) => add_on(names, pins, drives, line),
        None => Ok(()),
    }
}

// Adds the next words of a line for such pins among these.
fn add_on<'a>(
    names: &mut Vec<&'a [u8]>,
    pins: &[PinSpec],
    drives: bool,
    line: &mut Line<'a>,
) -> Result<(), AllocError>
    ensures { OnOk result (bytes_of names.new.items
        ≡ bytes_of names.old.items ++ nets_on drives pins.now line.old.words) }
{
    for pin in pins {
        let Some(word) = line.next_word() else {
            return Ok(());
        };
        add_here(names, *pin, drives, word.text)?;
    }
    Ok(())
}

// Adds the word for a pin, if it is such a one.
fn add_here<'a>(
    names: &mut Vec<&'a [u8]>,
    pin: PinSpec,
    drives: bool,
    word: &'a [u8],
) -> Result<(), AllocError>
    ensures { OnOk result (bytes_of names.new.items
        ≡ bytes_of names.old.items ++ net_here drives pin word.now) }
{
    if !is_sought(drives, pin) {
        return Ok(());
    }
    names.push(word)?;
    Ok(())
}

fn is_sought(drives: bool, pin: PinSpec) -> bool
    ensures { result ≡ spec.is_sought drives pin }
{
    if drives { pin.output } else { !pin.output }
}

// The one pin of a pad.
fn pad_pin(output: bool) -> PinSpec
    ensures { result ≡ spec.pad_pin output }
{
    PinSpec {
        class: 0,
        output,
        global: false,
        sides: SideSet {
            left: false,
            right: false,
            bottom: false,
            top: false,
        },
    }
}
