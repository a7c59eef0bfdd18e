//! How deep the channel lines of a global route are.
ghost use Rattle.std.specs.Prelude.{◌≡◌, IfOk};
ghost use Rattle.route_reach.specs.TraceDepth as spec;

use fpga_bounds::PlacedProblem;
use fpga_types::RouteNet;
use route_verify::LineDepths;
use std::alloc::{AllocError, Global};

/// The greatest depth of a channel line of the global route, or 0 without one: how many joins lead
/// to it from its net's OPIN, where a branch goes on at the depth of the first line in its cell.
///
/// Takes time that grows with the lines of a net times the logarithm of their number, and memory in
/// proportion to those of one net.
///
/// # Errors
/// Where memory is short.
pub fn trace_depth(alloc: Global, problem: &PlacedProblem) -> Result<u32, AllocError>
    ensures { IfOk result (λ depth. depth ≡ spec.trace_depth problem.now.route) }
{
    let nets = problem.route().nets.as_slice();
    if problem.slots().is_empty() {
        return Ok(0);
    }
    let mut greatest = 0u64;
    for net in nets {
        greatest = greatest.max(net_depth(alloc, net)?);
    }
    Ok(greatest as u32)
}

// The greatest depth of a channel line of the net, or 0 without one.
fn net_depth(alloc: Global, net: &RouteNet) -> Result<u64, AllocError>
    ensures { IfOk result (λ depth. depth ≡ spec.greatest (spec.net_depths net.now)) }
{
    let mut depths = LineDepths::new(alloc, false);
    let mut greatest = 0u64;
    for line in net.elems.as_slice() {
        depths.take(*line)?;
        greatest = greatest.max(depths.last().unwrap_or(0));
    }
    Ok(greatest)
}
