//! Words for the nets by which a placement needs more tracks than its cut asks for.
ghost use Rattle.std.specs.Prelude.{◌≡◌, ◌++◌, ◌-◌, OnOk, codes, decimal, flat_map, string_bytes, take};
ghost use Rattle.fault_names.specs.NameBytes.{name_said};
ghost use Rattle.router_says.specs.Raised.{alone_said, blamed_said, net_said, nets_said, raised_said, window_said};
ghost use Rattle.router_says.specs.declared.places.TheConstants.{NAME_LIMIT};
ghost use Rattle.route_sweep.specs.NetNames.{net_name};

use crate::phrases::{TO, WINDOW_ALONE, WINDOW_COLUMNS, WINDOW_NETS, WINDOW_ROWS};
use crate::places::{NAME_LIMIT, append_more};
use fault_names::append_name;
use fpga_types::Netlist;
use route_bound::CornerRange;
use run_outcome::{Outcome, Reason};
use std::alloc::AllocError;

/// Appends which nets need as many tracks by themselves, and where, if the outcome tells of tracks
/// and the run gives such a reason for them.
pub(crate) fn append_raised(
    out: &mut String,
    reason: &Option<Reason>,
    outcome: &Outcome,
) -> Result<(), AllocError>
    ensures { OnOk result (string_bytes out.new
        ≡ string_bytes out.old ++ raised_said reason.now outcome.now) }
{
    let Some(reason) = reason else {
        return Ok(());
    };
    match outcome {
        Outcome::Narrowed { .. } => append_blamed(out, reason),
        _ => Ok(()),
    }
}

// Appends where the window of a refutation is, and which of its nets that blames.
fn append_blamed(out: &mut String, reason: &Reason) -> Result<(), AllocError>
    ensures { OnOk result
        (string_bytes out.new ≡ string_bytes out.old ++ blamed_said reason.now) }
{
    append_window(out, reason.found.range)?;
    append_alone(out, reason.found.nets.len())?;
    append_nets(out, &reason.netlist, reason.found.nets.as_slice())?;
    Ok(())
}

// Appends which columns and rows of blocks have their corners in a range.
fn append_window(out: &mut String, range: CornerRange) -> Result<(), AllocError>
    ensures { OnOk result (string_bytes out.new ≡ string_bytes out.old ++ window_said range) }
{
    let left = u64::from(range.low.i) + 1;
    let bottom = u64::from(range.low.j) + 1;
    let CornerRange { high, .. } = range;
    write!(
        out,
        "{WINDOW_COLUMNS}{left}{TO}{}{WINDOW_ROWS}{bottom}{TO}{}.",
        high.i, high.j
    )
}

fn append_alone(out: &mut String, count: usize) -> Result<(), AllocError>
    ensures { OnOk result (string_bytes out.new ≡ string_bytes out.old ++ alone_said count) }
{
    write!(out, "{WINDOW_ALONE}{count}{WINDOW_NETS}")
}

// Appends nets by their numbers, the first of them by name.
fn append_nets(out: &mut String, netlist: &Netlist, row: &[u32]) -> Result<(), AllocError>
    ensures { OnOk result
        (string_bytes out.new ≡ string_bytes out.old ++ nets_said netlist.now row.now) }
{
    if row.len() <= NAME_LIMIT {
        return append_named(out, netlist, row);
    }
    append_named(out, netlist, &row[..NAME_LIMIT])?;
    append_more(out, row.len() - NAME_LIMIT)?;
    Ok(())
}

// Appends nets, each by name behind a blank.
fn append_named(out: &mut String, netlist: &Netlist, row: &[u32]) -> Result<(), AllocError>
    ensures { OnOk result (string_bytes out.new
        ≡ string_bytes out.old ++ flat_map (net_said netlist.now) row.now) }
{
    for number in row {
        append_net(out, netlist, *number)?;
    }
    Ok(())
}

// Appends a net by its number, by name behind a blank.
fn append_net(out: &mut String, netlist: &Netlist, number: u32) -> Result<(), AllocError>
    ensures { OnOk result
        (string_bytes out.new ≡ string_bytes out.old ++ net_said netlist.now number) }
{
    out.push_str(" ")?;
    append_name(out, net_name(netlist, number))?;
    Ok(())
}

// The name of a net by its number; empty where there is none.
fn net_name(netlist: &Netlist, number: u32) -> &[u8]
    ensures { result.now ≡ net_name netlist.now number }
{
    let Some(net) = netlist.nets.as_slice().get(number as usize) else {
        return b"";
    };
    net.name.bytes.as_slice()
}
