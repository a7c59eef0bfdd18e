//! Reading a netlist text.
ghost use Rattle.std.specs.Prelude.{◌≡◌, IfErr, IfOk, OnOk};
ghost use Rattle.fpga_text.specs.FirstFault.{Answers, IsRefusal};
ghost use Rattle.fpga_net.specs.Codes.{net_faults};
ghost use Rattle.fpga_net.specs.Drafts.{IsKept, ReadsLines, faults_ahead};
ghost use Rattle.fpga_net.specs.Sound.{IsSoundNetlist};
ghost use Rattle.fpga_net.specs.Value.{net_value};

use crate::draft::Draft;
use crate::globals::global_nets;
use fpga_text::{Lines, Style, TextFault};
use fpga_types::{Arch, Netlist};
use std::alloc::Global;

/// The value of a netlist text for an architecture, or its first fault.
///
/// # Errors
/// `Bad` has the first bad line, counted from 1, with the least code that holds there. A line that
/// goes on has the number of its first part; what is missing at the end has the number after the
/// last line:
/// - 201: a line of no form, a pinlist not behind a block line, a subblock line not behind the
///   pinlist of a logic block or its subblock lines, or a block line without exactly one name;
/// - 202: a pinlist without exactly one word for each pin, or a pad on no net;
/// - 203: a block with the name of an earlier one;
/// - 204: an ordinary net with a second driver, or at the end with none;
/// - 205: an ordinary net without a sink, at the end;
/// - 206: an ordinary net on a pin for global nets;
/// - 207: an ordinary net on two pins of one class of a block;
/// - 208: a block line that no pinlist follows.
///
/// `Limit` has the code 209 and the count 65,536: more than 65,535 blocks or nets.
/// `Memory` comes where memory is short.
pub fn read_net(alloc: Global, bytes: &[u8], arch: &Arch) -> Result<Netlist, TextFault>
    ensures answers { Answers (net_faults arch.now bytes.now)
        (λ netlist. netlist ≡ net_value arch.now bytes.now) result }
    ensures sound { IfOk result (IsSoundNetlist arch.now) }
{
    let Ok(globals) = global_nets(alloc, bytes, arch.pins.as_slice().len() + 1) else {
        return Err(TextFault::Memory);
    };
    let mut lines = Lines::new(bytes, Style::Joined);
    let mut draft = Draft::new(alloc, arch, globals);
    match read_lines(&mut lines, &mut draft) {
        Ok(()) => {}
        Err(fault) => return Err(fault),
    }
    draft.finish(lines.line_count() + 1)
}

/// Takes all lines.
fn read_lines<'a>(lines: &mut Lines<'a>, draft: &mut Draft<'a, '_>) -> Result<(), TextFault>
    requires { IsKept draft.old }
    ensures ok { OnOk result (ReadsLines lines.old draft.old lines.new draft.new) }
    ensures err { IfErr result (IsRefusal (faults_ahead draft.old.context lines.old)) }
{
    while let Some(mut line) = lines.next_line() {
        draft.take_line(&mut line)?;
    }
    Ok(())
}
