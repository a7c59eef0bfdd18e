//! The command `bound`: how many tracks a cut of a placement asks for.
ghost use Rattle.std.specs.Prelude.{◌≡◌, ◌++◌, IfOk, OnOk, flat_map, string_bytes};
ghost use Rattle.fpga_problem.specs.Files.{IsSoundPlaced, placed_names_said};
ghost use Rattle.run_placed.specs.Bound.{BoundsTo, HasSaidCut, bound_outcome, cut_line, cut_lines, net_line};
ghost use Rattle.route_sweep.specs.NetNames.{net_name};
ghost use Rattle.run_outcome.specs.Report.{IsReadFault};
ghost use Rattle.run_outcome.specs.Scene.{LeavesPlaced, scene};

use desk_io::{Desk, Shelf};
use fpga_problem::{PlacedFiles, read_placed};
use fpga_types::Netlist;
use route_bound::{Cut, best_cut};
use router_words::BoundJob;
use run_outcome::{Outcome, Slot, TextFile, unread_outcome};
use std::alloc::{AllocError, Global};

// The line that names a cut.
fn cut_line(alloc: Global, cut: &Cut) -> Result<String, AllocError>
    ensures { IfOk result (λ line. string_bytes line ≡ cut_line cut.now) }
{
    let low = cut.range.low;
    let high = cut.range.high;
    let nets = cut.nets.as_slice().len();
    let mut line = String::new(alloc);
    write!(
        line,
        "cut ({},{}) ({},{}) cells {} nets {nets}\n",
        low.i, low.j, high.i, high.j, cut.cells
    )?;
    Ok(line)
}

// The name of a net by its number; empty where there is none.
fn net_name(netlist: &Netlist, number: usize) -> &[u8]
    ensures { result.now ≡ net_name netlist.now number }
{
    let Some(net) = netlist.nets.as_slice().get(number) else {
        return b"";
    };
    net.name.bytes.as_slice()
}

/// Appends the line that names a net by its number.
///
/// # Errors
/// Memory ran out; then a front part may have been appended.
pub(crate) fn append_net(
    lines: &mut Vec<u8>,
    netlist: &Netlist,
    number: usize,
) -> Result<(), AllocError>
    ensures { OnOk result (lines.new.items ≡ lines.old.items ++ net_line netlist.now number) }
{
    lines.extend_from_slice(b"net ")?;
    lines.extend_from_slice(net_name(netlist, number))?;
    lines.extend_from_slice(b"\n")?;
    Ok(())
}

// Appends the lines that name these nets, in order.
fn append_nets(lines: &mut Vec<u8>, netlist: &Netlist, numbers: &[u32]) -> Result<(), AllocError>
    ensures { OnOk result
        (lines.new.items ≡ lines.old.items ++ flat_map (net_line netlist.now) numbers.now) }
{
    for number in numbers {
        append_net(lines, netlist, *number as usize)?;
    }
    Ok(())
}

// The line of a cut, and one for each net that crosses it.
fn cut_lines(alloc: Global, netlist: &Netlist, cut: &Cut) -> Result<Vec<u8>, AllocError>
    ensures { IfOk result (λ lines. lines.items ≡ cut_lines netlist.now cut.now) }
{
    let mut lines = Vec::new(alloc);
    let line = cut_line(alloc, cut)?;
    lines.extend_from_slice(line.as_bytes())?;
    append_nets(&mut lines, netlist, cut.nets.as_slice())?;
    Ok(lines)
}

/// Says the lines of a cut once they are all made.
///
/// # Errors
/// What the run comes to that they keep from its end: memory ran out, or they were not said whole.
pub(crate) fn say_cut<S: Shelf>(
    alloc: Global,
    netlist: &Netlist,
    cut: &Cut,
    shelf: &mut S,
) -> Result<(), Outcome>
    ensures { HasSaidCut netlist.now cut.now (S.state shelf.old) (S.state shelf.new) result }
{
    let Ok(lines) = cut_lines(alloc, netlist, cut) else {
        return Err(Outcome::OutOfMemory);
    };
    let Ok(()) = shelf.say(&lines) else {
        return Err(Outcome::WriteFault { slot: Slot::Said });
    };
    Ok(())
}

// How many tracks a cut asks for, and why.
fn bound_outcome(cut: &Cut) -> Outcome
    ensures { result ≡ bound_outcome cut.now }
{
    Outcome::Bound {
        tracks: cut.tracks,
        cells: cut.cells,
        nets: cut.nets.as_slice().len() as u64,
    }
}

// Finds one of the best cuts of a placed netlist, and says its lines.
fn bound_placed<S: Shelf>(alloc: Global, placed: &PlacedFiles, shelf: &mut S) -> Outcome
    requires { IsSoundPlaced placed.now }
    ensures { BoundsTo placed.now (S.state shelf.old) (S.state shelf.new) result }
{
    let Ok(cut) = best_cut(alloc, &placed.arch, &placed.netlist, &placed.placement) else {
        return Outcome::OutOfMemory;
    };
    match say_cut(alloc, &placed.netlist, &cut, shelf) {
        Ok(()) => bound_outcome(&cut),
        Err(stop) => stop,
    }
}

/// Reads the three files, finds one of the best cuts of what they pose, and says its lines.
pub fn bound_files<D: Desk, S: Shelf>(
    alloc: Global,
    job: &BoundJob<'_>,
    desk: &mut D,
    shelf: &mut S,
) -> Outcome
    ensures bounds { LeavesPlaced (placed_names_said job.now.files) BoundsTo
        (scene (D.state desk.old) (D.state desk.new) (S.state shelf.old) (S.state shelf.new))
        result }
    ensures files { (D.state desk.new).files ≡ (D.state desk.old).files }
    ensures quiet { ¬ IsReadFault result → (D.state desk.new).faults ≡ (D.state desk.old).faults }
{
    let placed = match read_placed(alloc, desk, &job.files) {
        Ok(placed) => placed,
        Err(stop) => return unread_outcome(TextFile::Problem(stop.file), stop.fault),
    };
    bound_placed(alloc, &placed, shelf)
}
