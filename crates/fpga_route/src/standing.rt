//! What a line after the head says, by where it stands.
ghost use Rattle.std.specs.Prelude.{◌≡◌, not, true, false, Some, None, IfOk, IfErr, IfSome, IfNone};
ghost use Rattle.std.specs.Option.{option_map_or};
ghost use Rattle.fpga_text.specs.FirstFault.{IsFaultOf};
ghost use Rattle.fpga_text.specs.Numbers.{whole_number_of};
ghost use Rattle.fpga_route.specs.Codes.{is_number, is_32_bits, number_of};
ghost use Rattle.fpga_route.specs.Forms.{Net, Elem as ElemForm};
ghost use Rattle.fpga_route.specs.Lines.{net_said, elem_said};
ghost use Rattle.fpga_route.specs.Standings.{later_fault};
ghost use Rattle.fpga_route.specs.Value.{elem_of};

use crate::cause::Cause;
use crate::forms::{ElemLine, NetLine};
use fpga_text::{Coded, TextFault, whole_number_of};
use fpga_types::{Elem, Grid, NET_LIMIT};

/// Where a line after the head stands: the array, the Net lines before it, and whether the net
/// that it stands in is global, if it stands in one.
#[derive(Clone, Copy)]
pub struct Standing {
    pub grid: Grid,
    pub nets: u32,
    pub in_global: Option<bool>,
}

/// The number of a net, or what is wrong with its Net line.
pub fn net_number(at: Standing, net: &NetLine<'_>, line: u64) -> Result<u64, TextFault>
    ensures clean { IfOk result (λ k. later_fault at line (Net (net_said net.now)) ≡ None) }
    ensures number { IfOk result (λ k. k ≡ number_of net.now.k.now) }
    ensures err { IfErr result (IsFaultOf (later_fault at line (Net (net_said net.now)))) }
{
    let Some(k) = whole_number_of(net.k) else {
        return Err(Cause::NoNumber.at(line));
    };
    if at.nets as usize == NET_LIMIT {
        return Err(Cause::PastLimit.past(u64::from(at.nets) + 1));
    }
    Ok(k)
}

/// The element that a line says, or what is wrong with the line.
pub fn read_elem(at: Standing, parts: &ElemLine<'_>, line: u64) -> Result<Elem, TextFault>
    ensures clean { IfOk result (λ e. later_fault at line (ElemForm (elem_said parts.now)) ≡ None) }
    ensures value { IfOk result (λ e. e ≡ elem_of line (elem_said parts.now)) }
    ensures err { IfErr result (IsFaultOf (later_fault at line (ElemForm (elem_said parts.now)))) }
{
    let Some(x) = small_number(parts.x) else {
        return Err(Cause::NoNumber.at(line));
    };
    let Some(y) = small_number(parts.y) else {
        return Err(Cause::NoNumber.at(line));
    };
    let Some(number) = small_number(parts.number) else {
        return Err(Cause::NoNumber.at(line));
    };
    if !is_ordinary(at.in_global) {
        return Err(Cause::StrayElement.at(line));
    }
    if !at.grid.has_place(parts.kind, x, y) {
        return Err(Cause::NoPlace.at(line));
    }
    Ok(Elem {
        kind: parts.kind,
        x,
        y,
        label: parts.label,
        number,
        line,
    })
}

/// The number of 32 bits that a word says.
fn small_number(word: &[u8]) -> Option<u32>
    ensures some { IfSome result (λ n. whole_number_of word.now ≡ Some n) }
    ensures small { IfSome result (λ n. is_number is_32_bits word.now ≡ true) }
    ensures none { IfNone result (is_number is_32_bits word.now ≡ false) }
{
    let Some(n) = whole_number_of(word) else {
        return None;
    };
    if n >= 4294967296 {
        return None;
    }
    Some(n as u32)
}

/// Whether it is known of a net that it is not global.
fn is_ordinary(in_global: Option<bool>) -> bool
    ensures { result ≡ option_map_or not in_global false }
{
    match in_global {
        None => false,
        Some(global) => !global,
    }
}
