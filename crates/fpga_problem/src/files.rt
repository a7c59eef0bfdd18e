//! From the files of a problem to the problem, and from the first three of them to what it is of.
ghost use Rattle.std.specs.Prelude.{◌≡◌, IfErr, IfOk};
ghost use Rattle.std.specs.Result.{IsErrAnd};
ghost use Rattle.fpga_arch.specs.Value.{arch_value};
ghost use Rattle.fpga_net.specs.Sound.{IsSoundNetlist};
ghost use Rattle.fpga_net.specs.Value.{net_value};
ghost use Rattle.fpga_place.specs.Value.{place_value};
ghost use Rattle.fpga_problem.specs.Files.{ArePlacedUnread, AreUnread, IsSoundPlaced, Poses, PosesPlaced, arch_source, names_said, net_source, place_source, placed_names_said};
ghost use Rattle.fpga_problem.specs.Sources.{IsDeskFault, IsStopped, ReadsTo, Says};
ghost use Rattle.fpga_types.specs.ArchSound.{IsSoundArch};
ghost use Rattle.fpga_types.specs.Placements.{IsSoundPlacement};

use crate::names::{FourNames, ThreeNames};
use crate::placed_files::PlacedFiles;
use crate::source::{TEXT_BYTES, read_bytes, read_route_file};
use crate::text_file::TextFile;
use crate::unread::{FileFault, Unread};
use desk_io::Desk;
use fpga_arch::read_arch;
use fpga_bounds::{PlacedProblem, fit};
use fpga_net::read_net;
use fpga_place::read_place;
use fpga_types::{Arch, Netlist, Placement};
use std::alloc::Global;

// The architecture that a file says.
fn architecture<D: Desk>(alloc: Global, desk: &mut D, name: &str) -> Result<Arch, FileFault>
    ensures reads { ReadsTo (D.state desk.old) (D.state desk.new) (arch_source name.now)
        (Says (D.state desk.old).files (arch_source name.now) arch_value) result }
    ensures sound { IfOk result IsSoundArch }
{
    let text = match read_bytes(alloc, desk, name, TEXT_BYTES) {
        Ok(text) => text,
        Err(fault) => return Err(fault),
    };
    match read_arch(alloc, &text) {
        Ok(arch) => Ok(arch),
        Err(fault) => Err(FileFault::Text(fault)),
    }
}

// The netlist that a file says.
fn netlist<D: Desk>(
    alloc: Global,
    desk: &mut D,
    name: &str,
    arch: &Arch,
) -> Result<Netlist, FileFault>
    ensures reads { ReadsTo (D.state desk.old) (D.state desk.new) (net_source name.now arch.now)
        (Says (D.state desk.old).files (net_source name.now arch.now) (net_value arch.now))
        result }
    ensures sound { IfOk result (IsSoundNetlist arch.now) }
{
    let text = match read_bytes(alloc, desk, name, TEXT_BYTES) {
        Ok(text) => text,
        Err(fault) => return Err(fault),
    };
    match read_net(alloc, &text, arch) {
        Ok(netlist) => Ok(netlist),
        Err(fault) => Err(FileFault::Text(fault)),
    }
}

// The placement that a file says.
fn placement<D: Desk>(
    alloc: Global,
    desk: &mut D,
    name: &str,
    arch: &Arch,
    netlist: &Netlist,
) -> Result<Placement, FileFault>
    ensures reads { ReadsTo (D.state desk.old) (D.state desk.new)
        (place_source name.now arch.now netlist.now) (Says (D.state desk.old).files
        (place_source name.now arch.now netlist.now) (place_value netlist.now)) result }
    ensures sound { IfOk result (IsSoundPlacement arch.now netlist.now) }
{
    let text = match read_bytes(alloc, desk, name, TEXT_BYTES) {
        Ok(text) => text,
        Err(fault) => return Err(fault),
    };
    match read_place(alloc, &text, arch, netlist) {
        Ok(placement) => Ok(placement),
        Err(fault) => Err(FileFault::Text(fault)),
    }
}

/// The placed netlist that three files pose: each is read and taken apart before the next is
/// opened. The first file that gives no value ends it. The files stay, and the desk's count of
/// faults rises only where it failed.
///
/// # Errors
/// The first file that gives no value, in the order architecture, netlist, placement, and why: the
/// desk failed on it, it has more than 67,108,864 bytes, or its text has a fault, the first, as its
/// reader tells it: `read_arch`, `read_net` or `read_place`.
///
/// The fault is `Text` of `Memory` where memory is short at that file.
pub fn read_placed<D: Desk>(
    alloc: Global,
    desk: &mut D,
    names: &ThreeNames<'_>,
) -> Result<PlacedFiles, Unread>
    ensures poses { IfOk result
        (PosesPlaced (D.state desk.old).files (placed_names_said names.now)) }
    ensures sound { IfOk result IsSoundPlaced }
    ensures stop { IfErr result (ArePlacedUnread (IsStopped (D.state desk.old) (D.state desk.new))
        (D.state desk.old).files (placed_names_said names.now)) }
    ensures files { (D.state desk.new).files ≡ (D.state desk.old).files }
    ensures quiet { ¬ IsErrAnd result (λ unread. IsDeskFault unread.fault)
        → (D.state desk.new).faults ≡ (D.state desk.old).faults }
{
    let arch = match architecture(alloc, desk, names.architecture) {
        Ok(arch) => arch,
        Err(fault) => return Err(TextFile::Architecture.unread(fault)),
    };
    let netlist = match netlist(alloc, desk, names.netlist, &arch) {
        Ok(netlist) => netlist,
        Err(fault) => return Err(TextFile::Netlist.unread(fault)),
    };
    match placement(alloc, desk, names.placement, &arch, &netlist) {
        Ok(placement) => Ok(PlacedFiles {
            arch,
            netlist,
            placement,
        }),
        Err(fault) => Err(TextFile::Placement.unread(fault)),
    }
}

/// The problem that four files pose: each is read and taken apart before the next is opened, and
/// last their values are fitted. The first file that gives no value ends it. The files stay, and
/// the desk's count of faults rises only where it failed.
///
/// # Errors
/// The first file that gives no value, in the order architecture, netlist, placement, route, and
/// why: the desk failed on it, it has more than 67,108,864 bytes, or its text has a fault, the
/// first, as its reader tells it: `read_arch`, `read_net`, `read_place` or `read_route`. Where each
/// is read but the four values do not fit, the first fault that `fit` tells, of the route.
///
/// The fault is `Text` of `Memory` where memory is short at that file or at the fit.
pub fn read_files<D: Desk>(
    alloc: Global,
    desk: &mut D,
    names: &FourNames<'_>,
) -> Result<PlacedProblem, Unread>
    ensures poses { IfOk result (Poses (D.state desk.old).files (names_said names.now)) }
    ensures stop { IfErr result (AreUnread (IsStopped (D.state desk.old) (D.state desk.new))
        (D.state desk.old).files (names_said names.now)) }
    ensures files { (D.state desk.new).files ≡ (D.state desk.old).files }
    ensures quiet { ¬ IsErrAnd result (λ unread. IsDeskFault unread.fault)
        → (D.state desk.new).faults ≡ (D.state desk.old).faults }
{
    let placed = match read_placed(alloc, desk, &names.placed()) {
        Ok(placed) => placed,
        Err(unread) => return Err(unread),
    };
    let route = match read_route_file(alloc, desk, names.route) {
        Ok(route) => route,
        Err(fault) => return Err(TextFile::Route.unread(fault)),
    };
    match fit(alloc, placed.arch, placed.netlist, placed.placement, route) {
        Ok(problem) => Ok(problem),
        Err(fault) => Err(TextFile::Route.unread(FileFault::Text(fault))),
    }
}
