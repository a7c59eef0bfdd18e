//! What the texts of files say of a fault.
ghost use Rattle.std.specs.Prelude.{◌≡◌, ◌++◌, OnOk, string_bytes};
ghost use Rattle.router_says.specs.AtFault as spec;
ghost use Rattle.router_says.specs.AtFault.{both_shown, file_shown, foreign_said, judged_shown, lineless_said, nets_said, own_said, pins_said, standing_said, use_at_fault, uses_at};

use crate::missing::append_missing;
use crate::pin_use::{append_global_pin, append_shared_class, ordinary_uses};
use crate::sought::Sought;
use code_words::foreign_kind;
use fault_names::{
    append_driver, append_line_quoted, append_no_line, append_no_place, append_no_sink,
    append_route_line, line_with,
};
use fpga_arch::read_arch;
use fpga_problem::TextFile as ProblemFile;
use fpga_route::read_route;
use fpga_text::{Style, TextFault};
use fpga_types::PinSpec;
use run_outcome::TextFile;
use std::alloc::{AllocError, Global};

// ---- of one file

/// Appends what a text is instead, or what it says.
pub(crate) fn append_shown(
    out: &mut String,
    file: TextFile,
    sought: Sought,
    line: u64,
    text: &[u8],
) -> Result<(), AllocError>
    ensures { OnOk result (string_bytes out.new
        ≡ string_bytes out.old ++ file_shown file sought line text.now) }
{
    match foreign_kind(text) {
        Some(phrase) => append_foreign(out, phrase),
        None => append_own(out, file, sought, line, text),
    }
}

fn append_foreign(out: &mut String, phrase: &str) -> Result<(), AllocError>
    ensures { OnOk result (string_bytes out.new ≡ string_bytes out.old ++ foreign_said phrase.now) }
{
    write!(out, "\n{phrase}.")
}

// Appends what the text of a file says.
fn append_own(
    out: &mut String,
    file: TextFile,
    sought: Sought,
    line: u64,
    text: &[u8],
) -> Result<(), AllocError>
    ensures { OnOk result (string_bytes out.new
        ≡ string_bytes out.old ++ own_said file sought line text.now) }
{
    match sought {
        Sought::Keywords => append_missing(out, text),
        Sought::Standing
        | Sought::Drivers
        | Sought::NoSink
        | Sought::GlobalPin
        | Sought::SharedClass
        | Sought::NoPlace
        | Sought::NoLine
        | Sought::Routed => append_standing(out, file, text, line),
    }
}

// Appends a line of a file as it stands; of a route, in which net too.
fn append_standing(
    out: &mut String,
    file: TextFile,
    text: &[u8],
    line: u64,
) -> Result<(), AllocError>
    ensures { OnOk result (string_bytes out.new
        ≡ string_bytes out.old ++ standing_said file text.now line) }
{
    match file {
        TextFile::Problem(ProblemFile::Route) | TextFile::Routed => {
            append_route_line(out, text, line)
        }
        _ => append_line_quoted(out, style_of(file), text, line),
    }
}

// How a file is cut into lines.
fn style_of(file: TextFile) -> Style
    ensures { result ≡ spec.style_of file }
{
    match file {
        TextFile::Problem(ProblemFile::Architecture) | TextFile::Problem(ProblemFile::Netlist) => {
            Style::Joined
        }
        TextFile::Problem(ProblemFile::Placement)
        | TextFile::Problem(ProblemFile::Route)
        | TextFile::Routed => Style::Hash,
        _ => Style::Plain,
    }
}

// ---- of two files

/// Appends what the texts of two files say of what is sought, at this line.
pub(crate) fn append_both(
    alloc: Global,
    out: &mut String,
    one: &[u8],
    other: &[u8],
    line: u64,
    sought: Sought,
) -> Result<(), AllocError>
    ensures { OnOk result (string_bytes out.new ≡ string_bytes out.old
        ++ both_shown sought line one.now other.now) }
{
    match sought {
        Sought::NoPlace => append_no_place(alloc, out, one, other),
        Sought::NoLine => append_lineless(alloc, out, one, other),
        Sought::Routed => append_judged(alloc, out, one, other, line),
        Sought::Standing
        | Sought::Keywords
        | Sought::Drivers
        | Sought::NoSink
        | Sought::GlobalPin
        | Sought::SharedClass => append_nets(alloc, out, one, other, line, sought),
    }
}

// Appends a line of a routed file, or a net of the netlist that has none there.
fn append_judged(
    alloc: Global,
    out: &mut String,
    text: &[u8],
    routed: &[u8],
    line: u64,
) -> Result<(), AllocError>
    ensures { OnOk result (string_bytes out.new ≡ string_bytes out.old
        ++ judged_shown line text.now routed.now) }
{
    if line_with(routed, Style::Hash, line).is_some() {
        return append_route_line(out, routed, line);
    }
    append_lineless(alloc, out, text, routed)
}

// Appends which net of a netlist has no line in a route.
fn append_lineless(
    alloc: Global,
    out: &mut String,
    text: &[u8],
    route: &[u8],
) -> Result<(), AllocError>
    ensures { OnOk result (string_bytes out.new ≡ string_bytes out.old
        ++ lineless_said text.now route.now) }
{
    let route = match read_route(alloc, route) {
        Ok(route) => route,
        Err(TextFault::Memory) => return Err(AllocError),
        Err(TextFault::Bad { .. }) | Err(TextFault::Limit { .. }) => return Ok(()),
    };
    append_no_line(alloc, out, text, route.nets.as_slice())
}

// Appends which net of a netlist is at fault, by the pins of this architecture.
fn append_nets(
    alloc: Global,
    out: &mut String,
    arch: &[u8],
    text: &[u8],
    line: u64,
    sought: Sought,
) -> Result<(), AllocError>
    ensures { OnOk result (string_bytes out.new ≡ string_bytes out.old
        ++ nets_said sought line arch.now text.now) }
{
    let arch = match read_arch(alloc, arch) {
        Ok(arch) => arch,
        Err(TextFault::Memory) => return Err(AllocError),
        Err(TextFault::Bad { .. }) | Err(TextFault::Limit { .. }) => return Ok(()),
    };
    append_by_pins(alloc, out, arch.pins.as_slice(), text, line, sought)
}

// Appends which net of a netlist is at fault, by these pins.
fn append_by_pins(
    alloc: Global,
    out: &mut String,
    pins: &[PinSpec],
    text: &[u8],
    line: u64,
    sought: Sought,
) -> Result<(), AllocError>
    ensures { OnOk result (string_bytes out.new ≡ string_bytes out.old
        ++ pins_said sought line pins.now text.now) }
{
    match sought {
        Sought::Drivers => append_driver(alloc, out, pins, text),
        Sought::NoSink => append_no_sink(alloc, out, pins, text),
        Sought::Standing
        | Sought::Keywords
        | Sought::GlobalPin
        | Sought::SharedClass
        | Sought::NoPlace
        | Sought::NoLine
        | Sought::Routed => append_of_line(alloc, out, pins, text, line, sought),
    }
}

// Appends which net is on which pins, of the pinlist on a line.
fn append_of_line(
    alloc: Global,
    out: &mut String,
    pins: &[PinSpec],
    text: &[u8],
    number: u64,
    sought: Sought,
) -> Result<(), AllocError>
    ensures { OnOk result (string_bytes out.new ≡ string_bytes out.old
        ++ use_at_fault sought (uses_at text.now pins.now number)) }
{
    let Some(mut line) = line_with(text, Style::Joined, number) else {
        return Ok(());
    };
    line.next_word();
    let uses = ordinary_uses(alloc, pins, text, &mut line)?;
    match sought {
        Sought::GlobalPin => append_global_pin(out, &uses),
        Sought::SharedClass => append_shared_class(out, &uses),
        Sought::Standing
        | Sought::Keywords
        | Sought::Drivers
        | Sought::NoSink
        | Sought::NoPlace
        | Sought::NoLine
        | Sought::Routed => Ok(()),
    }
}
