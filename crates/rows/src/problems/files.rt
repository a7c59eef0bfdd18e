//! The problem of the files of an architecture and a design.
ghost use Rattle.std.specs.Prelude.{IfOk, MatchResult};
ghost use Rattle.fpga_problem.specs.Files.{AreUnread, Poses};
ghost use Rattle.fpga_problem.specs.Sources.{IsStopped};
ghost use Rattle.rows.specs.Names.{design_names};

use desk_io::Desk;
use fpga_bounds::PlacedProblem;
use fpga_problem::{FourNames, Unread, read_files};
use std::alloc::{AllocError, Global};

/// The problem of ARCH.arch and of DESIGN.net, DESIGN.place and DESIGN.route, or which of them
/// gives no value, and why. The error is of memory for their names.
pub fn problem_of_files<D: Desk>(
    alloc: Global,
    desk: &mut D,
    arch: &str,
    design: &str,
) -> Result<Result<PlacedProblem, Unread>, AllocError>
    ensures { IfOk result (λ answer. MatchResult answer
        (Poses (D.state desk.old).files (design_names arch.now design.now))
        (AreUnread (IsStopped (D.state desk.old) (D.state desk.new)) (D.state desk.old).files
        (design_names arch.now design.now))) }
{
    let architecture = format!(in alloc; "problems/{arch}.arch")?;
    let netlist = format!(in alloc; "problems/{design}.net")?;
    let placement = format!(in alloc; "problems/{design}.place")?;
    let route = format!(in alloc; "problems/{design}.route")?;
    Ok(read_files(
        alloc,
        desk,
        &FourNames {
            architecture: &architecture,
            netlist: &netlist,
            placement: &placement,
            route: &route,
        },
    ))
}
