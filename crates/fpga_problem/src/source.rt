//! Files that are read whole: their bytes, and the route that one says.
ghost use Rattle.std.specs.Prelude.{◌≤◌, ◌<◌, ◌^◌, vec_len};
ghost use Rattle.desk_io.specs.Reading.{IsWhole};
ghost use Rattle.fpga_problem.specs.Sources.{ReadsTo, Says, any_text, route_source};
ghost use Rattle.fpga_route.specs.Value.{route_value};
ghost use Rattle.fpga_types.specs.Sound.{IsSound};
ghost use Rattle.std.specs.Prelude.{IfOk};

use crate::unread::FileFault;
use desk_io::{Desk, ReadStop, read_file};
use fpga_route::read_route;
use fpga_text::TextFault;
use fpga_types::RouteText;
use std::alloc::Global;

/// How many bytes an architecture, a netlist, a placement or a route may have.
pub const TEXT_BYTES: u64 = 67_108_864;

/// The bytes of the file with this name, of which there may be at most `limit`.
///
/// # Errors
/// `Desk` where the desk fails, `TooLong` where there are more bytes, and `Text` of `Memory`.
pub fn read_bytes<D: Desk>(
    alloc: Global,
    desk: &mut D,
    name: &str,
    limit: u64,
) -> Result<Vec<u8>, FileFault>
    requires { limit < 2 ^ 63 }
    ensures reads { ReadsTo (D.state desk.old) (D.state desk.new) (any_text name.now limit)
        (λ bytes. IsWhole (D.state desk.old).files name.now bytes.items) result }
    ensures short { IfOk result (λ bytes. vec_len bytes ≤ limit) }
{
    match read_file(alloc, desk, name, limit) {
        Ok(bytes) => Ok(bytes),
        Err(ReadStop::Fault) => Err(FileFault::Desk),
        Err(ReadStop::TooLong) => Err(FileFault::TooLong),
        Err(ReadStop::Memory) => Err(FileFault::Text(TextFault::Memory)),
    }
}

/// The route that the file with this name says: the global route of a problem, or one that is to
/// be judged.
///
/// # Errors
/// Those of `read_bytes`, and the first fault of the text, as `read_route` tells it.
pub fn read_route_file<D: Desk>(
    alloc: Global,
    desk: &mut D,
    name: &str,
) -> Result<RouteText, FileFault>
    ensures reads { ReadsTo (D.state desk.old) (D.state desk.new) (route_source name.now)
        (Says (D.state desk.old).files (route_source name.now) route_value) result }
    ensures sound { IfOk result IsSound }
{
    let text = match read_bytes(alloc, desk, name, TEXT_BYTES) {
        Ok(text) => text,
        Err(fault) => return Err(fault),
    };
    match read_route(alloc, &text) {
        Ok(route) => Ok(route),
        Err(fault) => Err(FileFault::Text(fault)),
    }
}
