//! How a routed text is judged, as a row is answered.
ghost use Rattle.std.specs.Prelude.{◌≡◌, ◌≤◌, IfOk, string_bytes};
ghost use Rattle.fpga_types.specs.Sound.{IsSound};
ghost use Rattle.fpga_types.specs.Problem.{placed_netlist_of};
ghost use Rattle.route_judge.specs.Judged.{placed_judged};
ghost use Rattle.route_verify.specs.Reach.{judged_by};
ghost use Rattle.rows.specs.Judged.{answer_line, judged_in, judgement_line};

use fpga_bounds::PlacedProblem;
use fpga_route::read_route;
use fpga_text::TextFault;
use fpga_types::{RouteText, WIDTH_LIMIT};
use route_judge::{judge as judge_placed, judge_strict};
use route_verify::{Judgement, verify, verify_reach};
use std::alloc::{AllocError, Global};

/// How a routed text is judged.
#[derive(Clone, Copy)]
pub(crate) enum Manner {
    /// Within the cells of the global route, and within a reach where there is one.
    Within(Option<u32>),
    /// As a routing of the placement, in which each net has one wire of a cell where this says so.
    Placed(bool),
}

/// The line that the routed text is answered by where it is judged in this manner.
pub(crate) fn answer(
    alloc: Global,
    problem: &PlacedProblem,
    width: u32,
    manner: Manner,
    routed: &[u8],
) -> Result<String, AllocError>
    requires { (1 ≤ width) × (width ≤ WIDTH_LIMIT) }
    ensures { IfOk result
        (λ line. string_bytes line ≡ answer_line manner width problem.now routed.now) }
{
    let found = match read_route(alloc, routed) {
        Ok(found) => found,
        Err(TextFault::Memory) => return Err(AllocError),
        Err(TextFault::Bad { .. } | TextFault::Limit { .. }) => {
            return String::from_str(alloc, "no route");
        }
    };
    let judgement = judge(alloc, problem, width, manner, &found)?;
    told(alloc, judgement)
}

// How the routed file is judged.
fn judge(
    alloc: Global,
    problem: &PlacedProblem,
    width: u32,
    manner: Manner,
    found: &RouteText,
) -> Result<Judgement, AllocError>
    requires width { (1 ≤ width) × (width ≤ WIDTH_LIMIT) }
    requires found { IsSound found.now }
    ensures { IfOk result
        (λ judgement. judgement ≡ judged_in manner width problem.now found.now) }
{
    match manner {
        Manner::Within(reach) => judge_within(alloc, problem, width, reach, found),
        Manner::Placed(strict) => judge_freely(alloc, problem, width, strict, found),
    }
}

// How it is judged within the cells of the global route.
fn judge_within(
    alloc: Global,
    problem: &PlacedProblem,
    width: u32,
    reach: Option<u32>,
    found: &RouteText,
) -> Result<Judgement, AllocError>
    requires width { (1 ≤ width) × (width ≤ WIDTH_LIMIT) }
    requires found { IsSound found.now }
    ensures { IfOk result
        (λ judgement. judgement ≡ judged_by reach width problem.now found.now) }
{
    match reach {
        None => verify(alloc, problem, width, found),
        Some(reach) => verify_reach(alloc, problem, width, reach, found),
    }
}

// How it is judged as a routing of the placement.
fn judge_freely(
    alloc: Global,
    problem: &PlacedProblem,
    width: u32,
    strict: bool,
    found: &RouteText,
) -> Result<Judgement, AllocError>
    requires width { (1 ≤ width) × (width ≤ WIDTH_LIMIT) }
    requires found { IsSound found.now }
    ensures { IfOk result (λ judgement. judgement
        ≡ placed_judged strict width (placed_netlist_of problem.now) found.now) }
{
    let (arch, netlist, placement) = (problem.arch(), problem.netlist(), problem.placement());
    if strict {
        return judge_strict(alloc, arch, netlist, placement, width, found);
    }
    judge_placed(alloc, arch, netlist, placement, width, found)
}

// The line of a judgement.
fn told(alloc: Global, judgement: Judgement) -> Result<String, AllocError>
    ensures { IfOk result (λ line. string_bytes line ≡ judgement_line judgement) }
{
    match judgement {
        Judgement::Legal => String::from_str(alloc, "legal"),
        Judgement::NotLegal { line, cause } => {
            format!(in alloc; "not legal: line {line} cause {cause}")
        }
    }
}
