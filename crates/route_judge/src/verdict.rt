//! How a routed file is judged as a routing of a placement.
ghost use Rattle.std.specs.Prelude.{◌≡◌, ◌<◌, ◌≤◌, ◌-◌, ◌^◌, ⊤, false, true, length, IfOk};
ghost use Rattle.fpga_text.specs.FirstFault.{Answers};
ghost use Rattle.fpga_types.specs.Problem.{problem_of};
ghost use Rattle.fpga_types.specs.Sound.{IsSound};
ghost use Rattle.route_judge.specs.Judge.{lines_causes};
ghost use Rattle.route_judge.specs.Judged.{placed_judged, placed_route_causes};
ghost use Rattle.route_verify.specs.Judged.{graph_of};

use crate::kept::Kept;
use crate::placed_judge::Judge;
use fpga_bounds::{Design, check_nets, same_size};
use fpga_text::{Coded, TextFault};
use fpga_types::{Arch, NET_LIMIT, Netlist, Placement, RouteText, WIDTH_LIMIT};
use route_verify::{Cause, Judgement, Wiring};
use std::alloc::{AllocError, Global};

/// Judges a routed file, which was read like a global route, as a routing of a placement at a width
/// from 1 to 64 tracks. No cells are given beforehand, and a net may have several wires of a cell.
///
/// A file that is not legal is so at its first line with a cause, by the least cause there:
/// - 801: a channel line after a channel line of its net, both of tracks below the width, whose
///   wires no switch block joins; a channel line and a pin line next to each other, the track below
///   the width, where the pin does not touch the cell or does not open the track: the later line;
/// - 802: a channel line of a track that is not below the width;
/// - 803: a channel line whose wire stands in an earlier net of the file;
/// - 805: a channel line that equals an earlier line of its net, its track too, without standing
///   after a SINK;
/// - 806: the last line of an ordinary net where a sink has no SINK line; the end, which counts as
///   the line after the last, where an ordinary net has no Net line;
/// - 807: another array; an unknown or repeated net; another SOURCE, SINK, OPIN or IPIN than the
///   net's; a SINK that stands earlier in its net; a pin line that does without standing after a
///   SINK; a branch at an element that its net does not have; a pin of an earlier net; an element
///   out of order.
///
/// # Errors
/// Where memory is short.
///
/// Takes time that grows with the elements, blocks and pins times the logarithm of their number,
/// and memory in proportion to them.
pub fn judge(
    alloc: Global,
    arch: &Arch,
    netlist: &Netlist,
    placement: &Placement,
    width: u32,
    found: &RouteText,
) -> Result<Judgement, AllocError>
    requires placed { length placement.now.places ≡ length netlist.now.blocks }
    requires width { (1 ≤ width) × (width ≤ WIDTH_LIMIT) }
    requires found { IsSound found.now }
    ensures { IfOk result (λ judgement. judgement ≡ placed_judged false width
        (record { arch = arch.now; netlist = netlist.now; placement = placement.now })
        found.now) }
{
    judge_by(alloc, arch, netlist, placement, width, false, found)
}

/// Judges a routed file as `judge` does, but as one in which each net has one wire of a cell alone.
///
/// The causes are those of `judge`, with this one in place of its 805:
/// - 805: a channel line whose cell stands earlier in its net, unless it stands after a SINK and
///   names a wire of its net again.
///
/// # Errors
/// Where memory is short.
///
/// Takes the time and memory of `judge`.
pub fn judge_strict(
    alloc: Global,
    arch: &Arch,
    netlist: &Netlist,
    placement: &Placement,
    width: u32,
    found: &RouteText,
) -> Result<Judgement, AllocError>
    requires placed { length placement.now.places ≡ length netlist.now.blocks }
    requires width { (1 ≤ width) × (width ≤ WIDTH_LIMIT) }
    requires found { IsSound found.now }
    ensures { IfOk result (λ judgement. judgement ≡ placed_judged true width
        (record { arch = arch.now; netlist = netlist.now; placement = placement.now })
        found.now) }
{
    judge_by(alloc, arch, netlist, placement, width, true, found)
}

/// Judges a routed file, strictly or not.
fn judge_by(
    alloc: Global,
    arch: &Arch,
    netlist: &Netlist,
    placement: &Placement,
    width: u32,
    strict: bool,
    found: &RouteText,
) -> Result<Judgement, AllocError>
    requires placed { length placement.now.places ≡ length netlist.now.blocks }
    requires width { (1 ≤ width) × (width ≤ WIDTH_LIMIT) }
    requires found { IsSound found.now }
    ensures { IfOk result (λ judgement. judgement ≡ placed_judged strict width
        (record { arch = arch.now; netlist = netlist.now; placement = placement.now })
        found.now) }
{
    let Ok(design) = Design::of(alloc, arch, netlist, placement, found) else {
        return Err(AllocError);
    };
    match first_cause(alloc, &design, width, strict) {
        Ok(()) => Ok(Judgement::Legal),
        Err(TextFault::Bad { line, code }) => Ok(Judgement::NotLegal { line, cause: code }),
        Err(TextFault::Limit { .. }) => unreachable!(),
        Err(TextFault::Memory) => Err(AllocError),
    }
}

/// The first cause against the route of the problem.
fn first_cause<'a>(
    alloc: Global,
    design: &'a Design<'a>,
    width: u32,
    strict: bool,
) -> Result<(), TextFault>
    requires width { (1 ≤ width) × (width ≤ WIDTH_LIMIT) }
    requires nets { length design.now.route.nets ≤ NET_LIMIT }
    requires lines { design.now.route.lines < 2 ^ 64 - 1 }
    ensures { Answers (placed_route_causes strict width design.now) (λ _. ⊤) result }
{
    let wiring = Wiring::new(design.arch, design.route.grid, width);
    check_with(alloc, design, &wiring, strict)
}

/// The first cause against the route of the problem by this fabric, which is the problem's.
fn check_with<'a>(
    alloc: Global,
    design: &'a Design<'a>,
    wiring: &'a Wiring<'a>,
    strict: bool,
) -> Result<(), TextFault>
    requires fabric { wiring.now ≡ graph_of wiring.now.width design.now }
    requires nets { length design.now.route.nets ≤ NET_LIMIT }
    requires lines { design.now.route.lines < 2 ^ 64 - 1 }
    ensures { Answers (placed_route_causes strict wiring.now.width design.now) (λ _. ⊤) result }
{
    let Ok(judge) = Judge::of(alloc, design, wiring, strict) else {
        return Err(TextFault::Memory);
    };
    check_file(alloc, &judge)
}

/// The first cause against the file.
fn check_file<'a>(alloc: Global, judge: &Judge<'a>) -> Result<(), TextFault>
    requires nets { length judge.now.problem.route.nets ≤ NET_LIMIT }
    requires lines { judge.now.problem.route.lines < 2 ^ 64 - 1 }
    ensures { Answers (placed_route_causes judge.now.strict judge.now.width judge.now.problem)
        (λ _. ⊤) result }
{
    let design = judge.design();
    let found = design.route;
    if !same_size(design.placement.grid, found.grid) {
        return Err(Cause::Unfit.at(found.grid_line));
    }
    check_lines(alloc, judge, found)
}

/// The first cause against the file, which is this one, behind its array line.
fn check_lines<'a>(alloc: Global, judge: &Judge<'a>, found: &'a RouteText) -> Result<(), TextFault>
    requires found { found.now ≡ judge.now.problem.route }
    requires nets { length judge.now.problem.route.nets ≤ NET_LIMIT }
    requires lines { judge.now.problem.route.lines < 2 ^ 64 - 1 }
    ensures { Answers (lines_causes judge.now.strict judge.now.width judge.now.problem)
        (λ _. ⊤) result }
{
    let mut kept = Kept::nothing(alloc);
    let lacking = match check_nets(alloc, judge, &mut kept, found.nets.as_slice()) {
        Ok(lacking) => lacking,
        Err(fault) => return Err(fault),
    };
    if lacking {
        return Err(Cause::MissingSink.at(found.lines + 1));
    }
    Ok(())
}
