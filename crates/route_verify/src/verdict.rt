//! How a routed file is judged against the problem of its global route.
ghost use Rattle.std.specs.Prelude.{◌≡◌, ◌<◌, ◌≤◌, ◌-◌, ◌^◌, ⊤, length, IfOk};
ghost use Rattle.fpga_text.specs.FirstFault.{Answers};
ghost use Rattle.fpga_types.specs.Sound.{IsSound};
ghost use Rattle.route_verify.specs.Judge.{lines_causes};
ghost use Rattle.route_verify.specs.Judged.{graph_of, judged};
ghost use Rattle.route_verify.specs.Reach.{causes_by, judged_by, reach_judged};

use crate::cause::Cause;
use crate::judge::Judge;
use crate::judgement::Judgement;
use crate::kept::Kept;
use crate::wiring::Wiring;
use fpga_bounds::{Design, PlacedProblem, check_nets, same_size};
use fpga_text::{Coded, TextFault};
use fpga_types::{Grid, NET_LIMIT, RouteText, WIDTH_LIMIT};
use std::alloc::{AllocError, Global};

/// Judges a routed file, which was read like a global route, against the problem of its global
/// route at a width from 1 to 64 tracks. Any tree over the cells of a net is legal, whatever the
/// steps of the global route are.
///
/// A file that is not legal is so at its first line with a cause, by the least cause there:
/// - 801: a channel line after a channel line of its net, both of tracks below the width, whose
///   wires no switch block joins; a channel line and a pin line next to each other, the track below
///   the width, where the pin does not touch the cell or does not open the track: the later line;
/// - 802: a channel line of a track that is not below the width;
/// - 803: a channel line whose wire stands in an earlier net of the file;
/// - 804: a channel line whose cell is none of its net's in the global route;
/// - 805: a channel line whose cell stands earlier in its net, unless it stands after a SINK and
///   names a wire of its net again;
/// - 806: the last line of an ordinary net where a sink has no SINK line; the end, which counts as
///   the line after the last, where an ordinary net has no Net line;
/// - 807: a line at which a global route would not fit for another reason: another array; an
///   unknown or repeated net; another SOURCE, SINK, OPIN or IPIN than the net's; a SINK that
///   stands earlier in its net; a pin line that does without standing after a SINK; a branch at an
///   element that its net does not have; a pin of an earlier net; an element out of order.
///
/// # Errors
/// Where memory is short.
///
/// Takes time that grows with the elements, blocks and pins times the logarithm of their number,
/// and memory in proportion to them.
pub fn verify(
    alloc: Global,
    problem: &PlacedProblem,
    width: u32,
    found: &RouteText,
) -> Result<Judgement, AllocError>
    requires width { (1 ≤ width) × (width ≤ WIDTH_LIMIT) }
    requires found { IsSound found.now }
    ensures { IfOk result (λ judgement. judgement ≡ judged width problem.now found.now) }
{
    judge_by(alloc, problem, width, None, found)
}

/// Judges a routed file as `verify` does, but within a reach: a net may take several wires of a
/// cell, and at most so many joins of wires lead from its source to each sink.
///
/// The depth of a channel line is the number of joins that lead to it: behind an OPIN it is 0,
/// behind a channel line one more than that line's, and behind a SINK that of the first line of its
/// net that it equals. The causes are those of `verify`, with these two in place of its 805:
/// - 805: a channel line that equals an earlier line of its net, its track too, without standing
///   after a SINK;
/// - 808: a SINK after an IPIN after a channel line whose depth is above the reach.
///
/// # Errors
/// Where memory is short.
///
/// Takes the time and memory of `verify`.
pub fn verify_reach(
    alloc: Global,
    problem: &PlacedProblem,
    width: u32,
    reach: u32,
    found: &RouteText,
) -> Result<Judgement, AllocError>
    requires width { (1 ≤ width) × (width ≤ WIDTH_LIMIT) }
    requires found { IsSound found.now }
    ensures { IfOk result
        (λ judgement. judgement ≡ reach_judged width reach problem.now found.now) }
{
    judge_by(alloc, problem, width, Some(reach), found)
}

/// Judges a routed file, within a reach or without one.
fn judge_by(
    alloc: Global,
    problem: &PlacedProblem,
    width: u32,
    reach: Option<u32>,
    found: &RouteText,
) -> Result<Judgement, AllocError>
    requires width { (1 ≤ width) × (width ≤ WIDTH_LIMIT) }
    requires found { IsSound found.now }
    ensures { IfOk result
        (λ judgement. judgement ≡ judged_by reach width problem.now found.now) }
{
    match first_cause(alloc, problem, width, reach, found) {
        Ok(()) => Ok(Judgement::Legal),
        Err(TextFault::Bad { line, code }) => Ok(Judgement::NotLegal { line, cause: code }),
        Err(TextFault::Limit { .. }) => unreachable!(),
        Err(TextFault::Memory) => Err(AllocError),
    }
}

/// The first cause against the file.
fn first_cause(
    alloc: Global,
    problem: &PlacedProblem,
    width: u32,
    reach: Option<u32>,
    found: &RouteText,
) -> Result<(), TextFault>
    requires width { (1 ≤ width) × (width ≤ WIDTH_LIMIT) }
    requires found { IsSound found.now }
    ensures { Answers (causes_by reach width problem.now found.now) (λ _. ⊤) result }
{
    let arch = problem.arch();
    let route = problem.route();
    let Ok(design) = Design::of(alloc, arch, problem.netlist(), problem.placement(), route) else {
        return Err(TextFault::Memory);
    };
    let wiring = Wiring::new(arch, route.grid, width);
    check_with(alloc, &design, &wiring, reach, found)
}

/// The first cause against the file by this problem and this fabric, which is the problem's.
fn check_with<'a>(
    alloc: Global,
    design: &'a Design<'a>,
    wiring: &'a Wiring<'a>,
    reach: Option<u32>,
    found: &'a RouteText,
) -> Result<(), TextFault>
    requires fabric { wiring.now ≡ graph_of wiring.now.width design.now }
    requires nets { length found.now.nets ≤ NET_LIMIT }
    requires lines { found.now.lines < 2 ^ 64 - 1 }
    ensures { Answers (causes_by reach wiring.now.width design.now found.now) (λ _. ⊤) result }
{
    let Ok(judge) = Judge::of(alloc, design, wiring, reach) else {
        return Err(TextFault::Memory);
    };
    check_file(alloc, &judge, found)
}

/// The first cause against the file.
fn check_file<'a>(alloc: Global, judge: &Judge<'a>, found: &'a RouteText) -> Result<(), TextFault>
    requires nets { length found.now.nets ≤ NET_LIMIT }
    requires lines { found.now.lines < 2 ^ 64 - 1 }
    ensures { Answers (causes_by judge.now.reach judge.now.width judge.now.problem found.now)
        (λ _. ⊤) result }
{
    if !same_size(judge.design().placement.grid, found.grid) {
        return Err(Cause::Unfit.at(found.grid_line));
    }
    check_lines(alloc, judge, found)
}

/// The first cause against the file behind its array line.
fn check_lines<'a>(alloc: Global, judge: &Judge<'a>, found: &'a RouteText) -> Result<(), TextFault>
    requires nets { length found.now.nets ≤ NET_LIMIT }
    requires lines { found.now.lines < 2 ^ 64 - 1 }
    ensures { Answers (lines_causes judge.now.reach judge.now.width judge.now.problem found.now)
        (λ _. ⊤) result }
{
    let mut kept = Kept::nothing(alloc);
    let lacking = match check_nets(alloc, judge, &mut kept, found.nets.as_slice()) {
        Ok(lacking) => lacking,
        Err(fault) => return Err(fault),
    };
    if lacking {
        return Err(Cause::MissingSink.at(found.lines + 1));
    }
    Ok(())
}
