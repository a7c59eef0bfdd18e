//! The blocks of a placement, and the global nets that connect them.
ghost use Rattle.std.specs.Prelude.{◌≡◌, IfOk, OnOk, string_bytes};
ghost use Rattle.route_draw.specs.Blamed.{blame_of};
ghost use Rattle.route_draw.specs.Label.{IsLabelled};
ghost use Rattle.route_draw.specs.Parts.{Adds, AreParts};
ghost use Rattle.route_draw.specs.Picture.{IsBlock, IsGlobal, block_class};

use crate::emphasis::Emphasis;
use crate::group::{Label, append_group};
use crate::label::{Area, append_label, append_shape};
use crate::path::append_dot;
use crate::scale::{BLOCK, PAD, Point, block_start};
use fpga_bounds::PlacedProblem;
use fpga_types::{Block, BlockKind, Grid, Net, PinRef, Place};
use std::alloc::{AllocError, Global};

/// Appends the blocks, each at its place and by its kind.
pub(crate) fn append_blocks(
    out: &mut String,
    alloc: Global,
    problem: &PlacedProblem,
    blocks: &[Block],
) -> Result<(), AllocError>
    ensures { OnOk result
        (Adds (AreParts IsBlock blocks.now) (string_bytes out.old) (string_bytes out.new)) }
{
    let mut number = 0usize;
    for block in blocks {
        append_block(out, alloc, problem, block, number)?;
        number = number.saturating_add(1);
    }
    Ok(())
}

fn append_block(
    out: &mut String,
    alloc: Global,
    problem: &PlacedProblem,
    block: &Block,
    number: usize,
) -> Result<(), AllocError>
    ensures { OnOk result (Adds (IsBlock block.now) (string_bytes out.old) (string_bytes out.new)) }
{
    let drawn = block_drawn(alloc, problem, block, number)?;
    let class = block_class(block.kind);
    let name = block.name.bytes.as_slice();
    let label = Label {
        mark: "",
        class,
        colour: "",
        name,
    };
    append_group(out, label, drawn.as_str())?;
    Ok(())
}

fn block_class(kind: BlockKind) -> &'static str
    ensures { result.now ≡ block_class kind }
{
    match kind {
        BlockKind::Logic => "l",
        BlockKind::Input => "i",
        BlockKind::Output => "o",
    }
}

// The rectangle of the block with this number at its place, and the name in it.
fn block_drawn(
    alloc: Global,
    problem: &PlacedProblem,
    block: &Block,
    number: usize,
) -> Result<String, AllocError>
    ensures { IfOk result (λ drawn. IsLabelled block.now.name (string_bytes drawn)) }
{
    let mut out = String::new(alloc);
    let Some(place) = problem.placement().places.as_slice().get(number) else {
        return Ok(out);
    };
    let area = block_area(problem, block.kind, *place);
    append_shape(&mut out, area)?;
    append_label(&mut out, alloc, area, block.name.bytes.as_slice())?;
    Ok(out)
}

// A logic block is as large as its place; a pad is a part of it, at the side that looks into the
// array.
fn block_area(problem: &PlacedProblem, kind: BlockKind, place: Place) -> Area {
    match kind {
        BlockKind::Logic => Area {
            at: start(place),
            width: BLOCK,
            height: BLOCK,
        },
        BlockKind::Input | BlockKind::Output => {
            pad_area(problem.route().grid, problem.arch().io_rat, place)
        }
    }
}

fn pad_area(grid: Grid, io_rat: u32, place: Place) -> Area {
    let part = BLOCK / (io_rat as u64).max(1);
    let along = part
        .saturating_mul(place.sub as u64)
        .saturating_add(part / 10);
    let length = part.saturating_mul(4) / 5;
    if place.x == 0 || place.x > grid.nx {
        return Area {
            at: start(place).moved(inset(place.x), along),
            width: PAD,
            height: length,
        };
    }
    Area {
        at: start(place).moved(along, inset(place.y)),
        width: length,
        height: PAD,
    }
}

// How far a pad is from the start of its place: one before the array stands at the end of it.
fn inset(n: u32) -> u64 {
    if n == 0 { BLOCK - PAD } else { 0 }
}

fn start(place: Place) -> Point {
    Point {
        x: block_start(place.x),
        y: block_start(place.y),
    }
}

/// Appends the global nets of the netlist, each with its mark: a dot on each block that it
/// connects.
pub(crate) fn append_global_nets<'a>(
    out: &mut String,
    alloc: Global,
    problem: &PlacedProblem,
    emphasis: &Emphasis<'a>,
    nets: &'a [Net],
) -> Result<(), AllocError>
    ensures { OnOk result (Adds (AreParts (IsGlobal (blame_of emphasis.now)) nets.now)
        (string_bytes out.old) (string_bytes out.new)) }
{
    for net in nets {
        append_global_net(out, alloc, problem, emphasis, net)?;
    }
    Ok(())
}

// Appends a net if it is global.
fn append_global_net<'a>(
    out: &mut String,
    alloc: Global,
    problem: &PlacedProblem,
    emphasis: &Emphasis<'a>,
    net: &'a Net,
) -> Result<(), AllocError>
    ensures { OnOk result (Adds (IsGlobal (blame_of emphasis.now) net.now)
        (string_bytes out.old) (string_bytes out.new)) }
{
    if !net.global {
        return Ok(());
    }
    let drawn = global_net_drawn(alloc, problem, net)?;
    let name = net.name.bytes.as_slice();
    let label = Label {
        mark: emphasis.mark(name),
        class: "g",
        colour: "",
        name,
    };
    append_group(out, label, drawn.as_str())?;
    Ok(())
}

fn global_net_drawn(
    alloc: Global,
    problem: &PlacedProblem,
    net: &Net,
) -> Result<String, AllocError> {
    let mut out = String::new(alloc);
    out.push_str("<path d=\"")?;
    if let Some(driver) = net.driver {
        append_block_dot(&mut out, problem, driver)?;
    }
    for sink in net.sinks.as_slice() {
        append_block_dot(&mut out, problem, *sink)?;
    }
    out.push_str("\"/>")?;
    Ok(out)
}

// A dot on the block that has the pin, in a corner of it.
fn append_block_dot(
    out: &mut String,
    problem: &PlacedProblem,
    pin: PinRef,
) -> Result<(), AllocError> {
    let number = pin.block as usize;
    let Some(block) = problem.netlist().blocks.as_slice().get(number) else {
        return Ok(());
    };
    let Some(place) = problem.placement().places.as_slice().get(number) else {
        return Ok(());
    };
    let Area { at, width, height } = block_area(problem, block.kind, *place);
    let parts = match block.kind {
        BlockKind::Logic => 10,
        BlockKind::Input | BlockKind::Output => 6,
    };
    append_dot(out, at.moved(width / parts, height / parts))
}
