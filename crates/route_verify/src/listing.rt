//! All causes against a routed file.
ghost use Rattle.std.specs.Prelude.{◌≡◌, ◌<◌, ◌≤◌, ◌-◌, ◌^◌, length, IfOk};
ghost use Rattle.fpga_types.specs.Sound.{IsSound};
ghost use Rattle.route_verify.specs.AllCauses as spec;
ghost use Rattle.route_verify.specs.AllCauses.{AreAllCauses};
ghost use Rattle.route_verify.specs.Judged.{graph_of};

use crate::gathering::gather;
use crate::judge::Judge;
use crate::line_cause::LineCause;
use crate::wiring::Wiring;
use fpga_bounds::{Design, PlacedProblem};
use fpga_types::{NET_LIMIT, RouteText, WIDTH_LIMIT};
use std::alloc::{AllocError, Global};

/// All causes against a routed file: of each line against which there is one the least, in the
/// order of the lines. The causes are those of `verify`, and with a reach those of `verify_reach`;
/// there is none where these judge the file legal, and the first is the one that they give.
///
/// Each line is judged apart from the others, with the lines before it as they stand in the file,
/// whether there is a cause against them or not. So a line may have a cause because of one before
/// it: the line behind a channel line whose track was changed, a net whose wire another net took
/// first, nearly each line of a net that the netlist does not have.
///
/// # Errors
/// Where memory is short.
///
/// Takes the time and memory of `verify`, and memory for each cause.
pub fn all_causes(
    alloc: Global,
    problem: &PlacedProblem,
    width: u32,
    reach: Option<u32>,
    found: &RouteText,
) -> Result<Vec<LineCause>, AllocError>
    requires width { (1 ≤ width) × (width ≤ WIDTH_LIMIT) }
    requires found { IsSound found.now }
    ensures { IfOk result
        (λ causes. AreAllCauses reach width problem.now found.now causes.items) }
{
    let arch = problem.arch();
    let route = problem.route();
    let design = Design::of(alloc, arch, problem.netlist(), problem.placement(), route)?;
    let wiring = Wiring::new(arch, route.grid, width);
    let causes = gather_with(alloc, &design, &wiring, reach, found)?;
    Ok(causes)
}

/// The causes by this problem and this fabric, which is the problem's.
fn gather_with<'a>(
    alloc: Global,
    design: &'a Design<'a>,
    wiring: &'a Wiring<'a>,
    reach: Option<u32>,
    found: &'a RouteText,
) -> Result<Vec<LineCause>, AllocError>
    requires fabric { wiring.now ≡ graph_of wiring.now.width design.now }
    requires nets { length found.now.nets ≤ NET_LIMIT }
    requires lines { found.now.lines < 2 ^ 64 - 1 }
    ensures { IfOk result (λ causes. causes.items
        ≡ spec.all_causes reach wiring.now.width design.now found.now) }
{
    let judge = Judge::of(alloc, design, wiring, reach)?;
    gather(alloc, &judge, found)
}
