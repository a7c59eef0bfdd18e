//! Reading a placement text.
ghost use Rattle.std.specs.Prelude.{◌≡◌, OnOk, IfOk, IfErr};
ghost use Rattle.fpga_text.specs.FirstFault.{Answers, IsRefusal};
ghost use Rattle.fpga_types.specs.Placements.{IsSoundFor, IsSoundPlacement};
ghost use Rattle.fpga_place.specs.Codes.{faults_for, place_faults};
ghost use Rattle.fpga_place.specs.Reading.{ReadsBlocks, faults_ahead};
ghost use Rattle.fpga_place.specs.Value.{place_value, value_for};

use crate::block_table::BlockTable;
use crate::draft::Draft;
use crate::head::read_head;
use fpga_text::{Lines, Style, TextFault};
use fpga_types::{Arch, Block, Items, Netlist, Placement};
use std::alloc::Global;

/// The value of a placement text of this netlist in this architecture, or its first fault.
///
/// # Errors
/// `Bad` has the first bad line, counted from 1, with the least code that holds there:
/// - 301: a head line of another form, or none, which counts as the line after the last;
/// - 302: a number is due, and is none or does not fit, or there is no word;
/// - 303: a block that the netlist does not have;
/// - 304: a block that stands on an earlier line;
/// - 305: a block of the netlist has no line, which counts as the line after the last;
/// - 306: a place where a block of its kind may not stand;
/// - 307: a logic block on the place of an earlier one, or a pad on the place and the subblock
///   number of an earlier one.
///
/// `Limit` has the code 308 and a count: more than 100 columns or rows. `Memory` comes where memory
/// is short.
pub fn read_place(
    alloc: Global,
    bytes: &[u8],
    arch: &Arch,
    net: &Netlist,
) -> Result<Placement, TextFault>
    ensures answers { Answers (place_faults arch.now net.now bytes.now)
        (λ placement. placement ≡ place_value net.now bytes.now) result }
    ensures sound { IfOk result (IsSoundPlacement arch.now net.now) }
{
    read_for(alloc, bytes, arch.io_rat, net.blocks.as_slice())
}

/// The same for these blocks, where each place beside the array has room for `io_rat` pads. The
/// names of the blocks and the words of the text are looked up in one table.
fn read_for<'a>(
    alloc: Global,
    bytes: &'a [u8],
    io_rat: u32,
    blocks: &'a [Block],
) -> Result<Placement, TextFault>
    ensures answers { Answers
        (faults_for (record { io_rat = io_rat; blocks = blocks.now }) bytes.now)
        (λ placement. placement ≡ value_for blocks.now bytes.now) result }
    ensures sound { IfOk result (IsSoundFor io_rat blocks.now) }
{
    let mut lines = Lines::new(bytes, Style::Hash);
    let grid = read_head(&mut lines)?;
    let Ok(table) = BlockTable::of(alloc, blocks) else {
        return Err(TextFault::Memory);
    };
    let Ok(mut draft) = Draft::new(alloc, io_rat, grid, table) else {
        return Err(TextFault::Memory);
    };
    read_blocks(&mut lines, &mut draft)?;
    let places = draft.places(alloc, lines.line_count() + 1)?;
    Ok(Placement {
        grid,
        places: Items::of(places),
    })
}

/// Takes the lines behind the head.
fn read_blocks<'a>(lines: &mut Lines<'a>, draft: &mut Draft<'a>) -> Result<(), TextFault>
    ensures ok { OnOk result (ReadsBlocks lines.old draft.old lines.new draft.new) }
    ensures err { IfErr result (IsRefusal (faults_ahead draft.old lines.old)) }
{
    while let Some(mut line) = lines.next_line() {
        draft.take_line(&mut line)?;
    }
    Ok(())
}
