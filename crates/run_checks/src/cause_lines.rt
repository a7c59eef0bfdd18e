//! The lines that tell the causes against a routed file.
ghost use Rattle.std.specs.Prelude.{◌≡◌, ◌++◌, [], IfOk, OnOk};
ghost use Rattle.std.specs.Option.{option_map_or};
ghost use Rattle.fpga_route.specs.Forms as forms;
ghost use Rattle.run_checks.specs.Causes as spec;
ghost use Rattle.run_checks.specs.Causes.{words_of_net};

use fpga_types::{Elem, ElemKind, Label, RouteNet};
use itoa::Buffer;
use route_verify::LineCause;
use std::alloc::{AllocError, Global};

/// A line for each of the causes, in their order, against a file with these nets.
///
/// # Errors
/// Where memory is short.
pub(crate) fn cause_lines(
    alloc: Global,
    nets: &[RouteNet],
    causes: &[LineCause],
) -> Result<Vec<u8>, AllocError>
    ensures { IfOk result (λ lines. lines.items ≡ spec.cause_lines nets.now causes.now) }
{
    let mut lines = Vec::new(alloc);
    append_lines(&mut lines, nets, causes)?;
    Ok(lines)
}

// Appends the lines of the causes.
fn append_lines(
    lines: &mut Vec<u8>,
    nets: &[RouteNet],
    causes: &[LineCause],
) -> Result<(), AllocError>
    ensures { OnOk result (lines.new.items
        ≡ lines.old.items ++ spec.cause_lines nets.now causes.now) }
{
    for at in causes {
        append_line(lines, nets, *at)?;
    }
    Ok(())
}

// Appends the line of a cause.
fn append_line(lines: &mut Vec<u8>, nets: &[RouteNet], at: LineCause) -> Result<(), AllocError>
    ensures { OnOk result (lines.new.items ≡ lines.old.items ++ spec.cause_line nets.now at) }
{
    lines.extend_from_slice(b"line ")?;
    lines.extend_from_slice(Buffer::new().format(at.line).as_bytes())?;
    lines.extend_from_slice(b" cause ")?;
    lines.extend_from_slice(Buffer::new().format(at.cause).as_bytes())?;
    append_net(lines, nets, at.net)?;
    append_elem(lines, at.elem)?;
    lines.extend_from_slice(b"\n")?;
    Ok(())
}

// Appends the words of the net at this position, if there is one.
fn append_net(
    lines: &mut Vec<u8>,
    nets: &[RouteNet],
    number: Option<usize>,
) -> Result<(), AllocError>
    ensures { OnOk result (lines.new.items
        ≡ lines.old.items ++ option_map_or (words_of_net nets.now) number []) }
{
    let Some(number) = number else {
        return Ok(());
    };
    let Some(net) = nets.get(number) else {
        return Ok(());
    };
    lines.extend_from_slice(b" net ")?;
    lines.extend_from_slice(net.name.bytes.as_slice())?;
    Ok(())
}

// Appends the words of an element, if there is one.
fn append_elem(lines: &mut Vec<u8>, elem: Option<Elem>) -> Result<(), AllocError>
    ensures { OnOk result (lines.new.items
        ≡ lines.old.items ++ option_map_or spec.elem_words elem []) }
{
    let Some(e) = elem else {
        return Ok(());
    };
    lines.extend_from_slice(b" ")?;
    lines.extend_from_slice(kind_word(e.kind).as_bytes())?;
    append_place(lines, e.x, e.y)?;
    lines.extend_from_slice(label_name(e.label).as_bytes())?;
    lines.extend_from_slice(b" ")?;
    lines.extend_from_slice(Buffer::new().format(e.number).as_bytes())?;
    Ok(())
}

// Appends a place, with what stands round it.
fn append_place(lines: &mut Vec<u8>, x: u32, y: u32) -> Result<(), AllocError>
    ensures { OnOk result (lines.new.items ≡ lines.old.items ++ spec.place_words x y) }
{
    lines.extend_from_slice(b" (")?;
    lines.extend_from_slice(Buffer::new().format(x).as_bytes())?;
    lines.extend_from_slice(b",")?;
    lines.extend_from_slice(Buffer::new().format(y).as_bytes())?;
    lines.extend_from_slice(b") ")?;
    Ok(())
}

// The word of a kind.
fn kind_word(kind: ElemKind) -> &'static str
    ensures { result.now ≡ forms.kind_word kind }
{
    match kind {
        ElemKind::Source => "SOURCE",
        ElemKind::Opin => "OPIN",
        ElemKind::ChanX => "CHANX",
        ElemKind::ChanY => "CHANY",
        ElemKind::Ipin => "IPIN",
        ElemKind::Sink => "SINK",
    }
}

// What the number of an element counts.
fn label_name(label: Label) -> &'static str
    ensures { result.now ≡ spec.label_name label }
{
    match label {
        Label::Class => "class",
        Label::Pin => "pin",
        Label::Pad => "pad",
        Label::Track => "track",
    }
}
