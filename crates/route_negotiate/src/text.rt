//! The route text that a search's wires make.
ghost use Rattle.std.specs.Prelude.{◌≡◌, ◌+◌, ◌<◌, ◌≤◌, ◌^◌, IfOk, length};
ghost use Rattle.fpga_types.specs.Sound.{IsSound, IsSoundNet};
ghost use Rattle.fpga_types.specs.declared.limits.TheConstants.{NET_LIMIT};
ghost use Rattle.route_negotiate.specs.Texts.{AreElemLines, AreNetLines, GainsElems};

use crate::block_lines::block_lines;
use crate::routing::{NetPaths, Path};
use crate::sites::spec_of;
use fpga_types::{
    Arch, Axis, Elem, ElemKind, Grid, Items, Label, Name, Net, Netlist, PinAt, Placement, RouteNet,
    RouteText, Wire,
};
use std::alloc::{AllocError, Global};

/// No text has more lines: they would not fit into memory.
const LINES_MOST: u64 = 1 << 62;

/// The route text of the paths of each net of a placed netlist: its nets in the order of the
/// netlist, each under its number there; a net's channel lines have its tracks, and a global net
/// has a line for the block of each pin. Lines are numbered as in the printed form. Paths beyond
/// those of the netlist's nets are not looked at, and nets without paths have no elements.
///
/// # Errors
/// Where memory is short.
///
/// The time is that of the wires and of the netlist.
pub fn route_text(
    alloc: Global,
    arch: &Arch,
    netlist: &Netlist,
    placement: &Placement,
    nets: &[NetPaths],
) -> Result<RouteText, AllocError>
    requires few { length netlist.now.nets ≤ NET_LIMIT }
    ensures sound { IfOk result IsSound }
    ensures array { IfOk result (λ route. route.grid ≡ placement.now.grid) }
    ensures each { IfOk result (λ route. length route.nets ≡ length netlist.now.nets) }
{
    // The empty line before a Net line is the third behind this.
    let mut last = 2;
    let nets = net_texts(alloc, arch, netlist, placement, nets, &mut last)?;
    Ok(RouteText {
        grid: placement.grid,
        grid_line: 1,
        lines: line_behind(last, 1)?,
        nets: Items::of(nets),
    })
}

/// The line so many behind another.
fn line_behind(line: u64, more: u64) -> Result<u64, AllocError>
    ensures line { IfOk result (λ next. next ≡ line + more) }
    ensures few { IfOk result (λ next. next ≤ 2 ^ 63) }
{
    if line > LINES_MOST || more > LINES_MOST {
        return Err(AllocError);
    }
    Ok(line + more)
}

/// The texts of all nets, the first behind a line.
fn net_texts(
    alloc: Global,
    arch: &Arch,
    netlist: &Netlist,
    placement: &Placement,
    paths: &[NetPaths],
    last: &mut u64,
) -> Result<Vec<RouteNet>, AllocError>
    ensures lines { IfOk result
        (λ nets. AreNetLines placement.now.grid last.old last.new nets.items) }
    ensures each { IfOk result (λ nets. length nets.items ≡ length netlist.now.nets) }
{
    let mut nets = Vec::new(alloc);
    let none = NetPaths {
        wires: Vec::new(alloc),
        paths: Vec::new(alloc),
    };
    for (number, net) in netlist.nets.as_slice().iter().enumerate() {
        let own = if number < paths.len() {
            &paths[number]
        } else {
            &none
        };
        let text = net_text(alloc, arch, netlist, placement, number, net, own, last)?;
        nets.push(text)?;
    }
    Ok(nets)
}

/// The text of a net under a number, behind a line.
fn net_text(
    alloc: Global,
    arch: &Arch,
    netlist: &Netlist,
    placement: &Placement,
    number: usize,
    net: &Net,
    paths: &NetPaths,
    last: &mut u64,
) -> Result<RouteNet, AllocError>
    ensures sound { IfOk result (IsSoundNet placement.now.grid) }
    ensures line { IfOk result (λ net. last.old < net.line) }
    ensures elems { IfOk result
        (λ net. AreElemLines placement.now.grid net.line last.new net.elems) }
{
    let line = line_behind(*last, 3)?;
    *last = line_behind(line, 1)?;
    if net.global {
        let kept = block_lines(alloc, arch, netlist, placement, net)?;
        *last = line_behind(*last, kept.len() as u64)?;
        return text_of(alloc, number, net, line, Vec::new(alloc), kept);
    }
    let elems = elems_of(alloc, arch, placement.grid, paths, last)?;
    text_of(alloc, number, net, line, elems, Vec::new(alloc))
}

/// The text of a net under a number, on a line, with these elements and kept lines.
fn text_of(
    alloc: Global,
    number: usize,
    net: &Net,
    line: u64,
    elems: Vec<Elem>,
    kept: Vec<Name>,
) -> Result<RouteNet, AllocError>
    ensures line { IfOk result (λ text. text.line ≡ line) }
    ensures global { IfOk result (λ text. text.global ≡ net.now.global) }
    ensures elems { IfOk result (λ text. text.elems ≡ elems.items) }
    ensures kept { IfOk result (λ text. text.kept ≡ kept.items) }
{
    let name = copied_name(alloc, &net.name)?;
    Ok(RouteNet {
        k: number as u64,
        name,
        global: net.global,
        line,
        elems: Items::of(elems),
        kept: Items::of(kept),
    })
}

/// A name that is equal to this one.
fn copied_name(alloc: Global, name: &Name) -> Result<Name, AllocError>
    ensures { IfOk result (λ copy. copy ≡ name.now) }
{
    let bytes = Vec::from_slice(alloc, name.bytes.as_slice())?;
    Ok(Name {
        bytes: Items::of(bytes),
    })
}

/// The elements of the paths of a net, behind a line.
fn elems_of(
    alloc: Global,
    arch: &Arch,
    grid: Grid,
    net: &NetPaths,
    last: &mut u64,
) -> Result<Vec<Elem>, AllocError>
    ensures { IfOk result (λ elems. AreElemLines grid last.old last.new elems.items) }
{
    // Of a path there are up to four lines beside those of its wires.
    let most = net
        .paths
        .len()
        .saturating_mul(4)
        .saturating_add(net.wires.len());
    let mut elems = Vec::with_capacity(alloc, most)?;
    let mut begin: usize = 0;
    for path in &net.paths {
        let end = begin.saturating_add(path.length as usize);
        if end <= net.wires.len() {
            let wires = &net.wires[begin..end];
            add_path(&mut elems, arch, grid, *path, wires, last)?;
        }
        begin = end;
    }
    Ok(elems)
}

/// Adds the elements of a path.
fn add_path(
    elems: &mut Vec<Elem>,
    arch: &Arch,
    grid: Grid,
    path: Path,
    wires: &[Wire],
    last: &mut u64,
) -> Result<(), AllocError>
    ensures { GainsElems grid last.old last.new elems.old.items elems.new.items }
{
    if let Some(pin) = path.leaves {
        if elems.is_empty() {
            add_elem(elems, grid, end_elem(arch, ElemKind::Source, pin), last)?;
        }
        add_elem(elems, grid, pin_elem(ElemKind::Opin, pin), last)?;
    }
    for wire in wires {
        add_elem(elems, grid, wire_elem(*wire), last)?;
    }
    add_elem(elems, grid, pin_elem(ElemKind::Ipin, path.enters), last)?;
    add_elem(
        elems,
        grid,
        end_elem(arch, ElemKind::Sink, path.enters),
        last,
    )
}

/// Adds an element on the next line, if there may be such a one on the array.
fn add_elem(elems: &mut Vec<Elem>, grid: Grid, e: Elem, last: &mut u64) -> Result<(), AllocError>
    ensures { GainsElems grid last.old last.new elems.old.items elems.new.items }
{
    if !grid.has_place(e.kind, e.x, e.y) || !e.kind.takes(e.label) {
        return Ok(());
    }
    let line = line_behind(*last, 1)?;
    elems.push(Elem { line, ..e })?;
    *last = line;
    Ok(())
}

/// The channel of a wire. It has no line yet, here and below.
fn wire_elem(wire: Wire) -> Elem {
    let kind = match wire.cell.axis {
        Axis::X => ElemKind::ChanX,
        Axis::Y => ElemKind::ChanY,
    };
    Elem {
        kind,
        x: wire.cell.x,
        y: wire.cell.y,
        label: Label::Track,
        number: wire.track,
        line: 0,
    }
}

/// A pin.
fn pin_elem(kind: ElemKind, pin: PinAt) -> Elem {
    let (x, y, label, number) = match pin {
        PinAt::Pad { x, y, sub } => (x, y, Label::Pad, sub),
        PinAt::Pin { x, y, pin } => (x, y, Label::Pin, pin),
    };
    Elem {
        kind,
        x,
        y,
        label,
        number,
        line: 0,
    }
}

/// The end of a net at a pin: the class of a block, or a pad.
fn end_elem(arch: &Arch, kind: ElemKind, pin: PinAt) -> Elem {
    let mut e = pin_elem(kind, pin);
    if let Some(spec) = spec_of(arch, e.number)
        && matches!(e.label, Label::Pin)
    {
        e.label = Label::Class;
        e.number = spec.class;
    }
    e
}
