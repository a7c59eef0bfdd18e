//! Reading a route text.
ghost use Rattle.std.specs.Prelude.{◌≡◌, OnOk, IfOk, IfErr};
ghost use Rattle.fpga_text.specs.FirstFault.{Answers, IsRefusal};
ghost use Rattle.fpga_types.specs.Sound.{IsSound};
ghost use Rattle.fpga_route.specs.Codes.{route_faults};
ghost use Rattle.fpga_route.specs.Nets.{ReadsNets, faults_ahead};
ghost use Rattle.fpga_route.specs.Value.{route_value};

use crate::draft::Draft;
use crate::head::read_head;
use fpga_text::{Lines, Style, TextFault};
use fpga_types::{Items, RouteText};
use std::alloc::Global;

/// The value of a route text, or its first fault.
///
/// # Errors
/// `Bad` has the first bad line, counted from 1, with the least code that holds there:
/// - 401: a head line of another form, or none, which counts as the line after the last;
/// - 402: a later line of no form, or a Block line outside a global net;
/// - 403: a number is due, and is none or does not fit;
/// - 404: a channel that spans several cells;
/// - 405: an element before the first net or in a global net;
/// - 406: a place that the array does not have.
///
/// `Limit` has the code 407 and a count: more than 100 columns or rows, or more than 65,535 nets.
/// `Memory` comes where memory is short.
pub fn read_route(alloc: Global, bytes: &[u8]) -> Result<RouteText, TextFault>
    ensures answers { Answers (route_faults bytes.now) (λ route. route ≡ route_value bytes.now)
        result }
    ensures sound { IfOk result IsSound }
{
    let mut lines = Lines::new(bytes, Style::Hash);
    let head = read_head(&mut lines)?;
    let mut draft = Draft::new(alloc, head.grid);
    read_nets(&mut lines, &mut draft)?;
    let Ok(nets) = draft.finish() else {
        return Err(TextFault::Memory);
    };
    Ok(RouteText {
        grid: head.grid,
        grid_line: head.line,
        lines: lines.line_count(),
        nets: Items::of(nets),
    })
}

/// Takes the lines after the head.
fn read_nets(lines: &mut Lines<'_>, draft: &mut Draft) -> Result<(), TextFault>
    ensures ok { OnOk result (ReadsNets lines.old draft.old lines.new draft.new) }
    ensures err { IfErr result (IsRefusal (faults_ahead draft.old lines.old)) }
{
    while let Some(mut line) = lines.next_line() {
        draft.take_line(&mut line)?;
    }
    Ok(())
}
