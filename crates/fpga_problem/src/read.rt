//! Reading the four texts of a problem.
ghost use Rattle.fpga_problem.specs.Refused.{AnswersTexts};

use crate::four_texts::FourTexts;
use crate::refusal::Refusal;
use crate::text_file::TextFile;
use fpga_arch::read_arch;
use fpga_bounds::{PlacedProblem, fit};
use fpga_net::read_net;
use fpga_place::read_place;
use fpga_route::read_route;
use std::alloc::Global;

/// The problem that four texts say, each read for those before it.
///
/// # Errors
/// The first text with a fault, in the order architecture, netlist, placement, route, and its first
/// fault, as its reader tells it: `read_arch`, `read_net`, `read_place` or `read_route`. Where each
/// text is read but the four values do not fit, the first fault that `fit` tells, of the route.
///
/// The fault is `Memory` where memory is short at that text or at the fit.
pub fn read_problem(alloc: Global, texts: &FourTexts<'_>) -> Result<PlacedProblem, Refusal>
    ensures { AnswersTexts texts.now result }
{
    let arch = match read_arch(alloc, texts.architecture) {
        Ok(arch) => arch,
        Err(fault) => return Err(TextFile::Architecture.refused(fault)),
    };
    let netlist = match read_net(alloc, texts.netlist, &arch) {
        Ok(netlist) => netlist,
        Err(fault) => return Err(TextFile::Netlist.refused(fault)),
    };
    let placement = match read_place(alloc, texts.placement, &arch, &netlist) {
        Ok(placement) => placement,
        Err(fault) => return Err(TextFile::Placement.refused(fault)),
    };
    let route = match read_route(alloc, texts.route) {
        Ok(route) => route,
        Err(fault) => return Err(TextFile::Route.refused(fault)),
    };
    match fit(alloc, arch, netlist, placement, route) {
        Ok(problem) => Ok(problem),
        Err(fault) => Err(TextFile::Route.refused(fault)),
    }
}
