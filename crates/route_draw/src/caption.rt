//! What stands below a picture.
ghost use Rattle.std.specs.Prelude.{◌≡◌, ◌++◌, IfOk, OnOk, filter, if◌then◌else◌, length, string_bytes};
ghost use Rattle.fpga_types.specs.declared.netlist.Net.{Net as AnyNet};
ghost use Rattle.route_draw.specs.Blamed.{blame_of, is_blamed};
ghost use Rattle.route_draw.specs.Caption.{AreCounts, IsKey, blamed_counted, blamed_said, counted, crowd_counted, crowded_cells, global_count, line_opening};
ghost use Rattle.route_draw.specs.Parts.{Adds};

use crate::emphasis::{Emphasis, NetNames};
use crate::head::caption_line;
use fpga_bounds::PlacedProblem;
use fpga_types::{Grid, Net};
use std::alloc::{AllocError, Global};

/// Appends how many nets, blocks and tracks there are.
pub(crate) fn append_counts<'a>(
    out: &mut String,
    problem: &'a PlacedProblem,
    width: u32,
    emphasis: &Emphasis<'a>,
) -> Result<(), AllocError>
    ensures { OnOk result (Adds (AreCounts problem.now width (blame_of emphasis.now))
        (string_bytes out.old) (string_bytes out.new)) }
{
    let netlist = problem.netlist();
    let nets = netlist.nets.as_slice();
    append_text(out, caption_line(problem.route().grid, 0))?;
    append_counted(
        out,
        nets.len(),
        global_count(nets),
        netlist.blocks.as_slice().len(),
        width,
    )?;
    append_blamed(out, nets, emphasis)?;
    out.push_str("</text>\n")?;
    Ok(())
}

fn append_counted(
    out: &mut String,
    nets: usize,
    globals: usize,
    blocks: usize,
    width: u32,
) -> Result<(), AllocError>
    ensures { OnOk result
        (string_bytes out.new ≡ string_bytes out.old ++ counted nets globals blocks width) }
{
    write!(
        out,
        "nets: {nets} (global: {globals}), blocks: {blocks}, tracks in each channel: {width}"
    )
}

// How many nets are global.
fn global_count(nets: &[Net]) -> usize
    ensures { result ≡ global_count nets.now }
{
    nets.iter().filter(|net| net.global).count()
}

// Appends how many nets are to blame, if that is shown.
fn append_blamed<'a>(
    out: &mut String,
    nets: &'a [Net],
    emphasis: &Emphasis<'a>,
) -> Result<(), AllocError>
    ensures { OnOk result (string_bytes out.new
        ≡ string_bytes out.old ++ blamed_counted (blame_of emphasis.now) nets.now) }
{
    let Emphasis::Blamed(names) = emphasis else {
        return Ok(());
    };
    append_blamed_count(out, blamed_count(nets, names))?;
    Ok(())
}

fn append_blamed_count(out: &mut String, count: usize) -> Result<(), AllocError>
    ensures { OnOk result (string_bytes out.new ≡ string_bytes out.old ++ blamed_said count) }
{
    write!(out, ", nets to blame, bold: {count}")
}

// How many nets have one of the names.
fn blamed_count<'a>(nets: &'a [Net], names: &NetNames<'a>) -> usize
    ensures { result ≡ length (filter (λ (net : AnyNet). is_blamed names.now net.name) nets.now) }
{
    let mut count = 0;
    for net in nets {
        count += blamed_one(net, names);
    }
    count
}

// 1 of a net that has one of the names, and else 0.
fn blamed_one<'a>(net: &'a Net, names: &NetNames<'a>) -> usize
    ensures { result ≡ (if is_blamed names.now net.now.name then 1 else 0) }
{
    if names.contains(net.name.bytes.as_slice()) {
        return 1;
    }
    0
}

/// What stands below the counts: a key to the colours, and how many cells are crowded, if some are.
pub(crate) fn key(alloc: Global, grid: Grid, crowded: u32) -> Result<String, AllocError>
    ensures { IfOk result (λ text. IsKey crowded (string_bytes text)) }
{
    let mut out = String::new(alloc);
    append_key(&mut out, caption_line(grid, 1))?;
    append_crowd(&mut out, caption_line(grid, 2), crowded)?;
    Ok(out)
}

fn append_key(out: &mut String, y: u64) -> Result<(), AllocError> {
    append_text(out, y)?;
    out.push_str(KEY)?;
    Ok(())
}

// A square or a dot in the colour of each kind of part.
const KEY: &str = "<tspan fill=\"#e3bd62\">&#9632;</tspan> logic block \
    <tspan fill=\"#7fbf68\">&#9632;</tspan> input pad \
    <tspan fill=\"#dd8f82\">&#9632;</tspan> output pad \
    <tspan fill=\"#9aa0a6\">&#9679;</tspan> global net \
    &#9632; driver &#9679; switch</text>\n";

fn append_crowd(out: &mut String, y: u64, crowded: u32) -> Result<(), AllocError>
    ensures { OnOk result
        (string_bytes out.new ≡ string_bytes out.old ++ crowd_counted y crowded) }
{
    if crowded == 0 {
        return Ok(());
    }
    append_text(out, y)?;
    append_crowded_cells(out, crowded)?;
    Ok(())
}

fn append_crowded_cells(out: &mut String, crowded: u32) -> Result<(), AllocError>
    ensures { OnOk result (string_bytes out.new ≡ string_bytes out.old ++ crowded_cells crowded) }
{
    write!(
        out,
        "<tspan fill=\"#e00000\">&#9632; cells that want more tracks: {crowded}</tspan></text>\n"
    )
}

fn append_text(out: &mut String, y: u64) -> Result<(), AllocError>
    ensures { OnOk result (string_bytes out.new ≡ string_bytes out.old ++ line_opening y) }
{
    write!(out, "<text class=\"k\" x=\"180\" y=\"{y}\">")
}
