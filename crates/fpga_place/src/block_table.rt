//! The blocks of a netlist, by number and by name.
ghost use Rattle.std.specs.Prelude.{◌≡◌, ◌<◌, true, IfOk, IfSome, length};
ghost use Rattle.std.specs.List.{range_with_len};
ghost use Rattle.fpga_place.specs.BlockTables.{DifferAlong, is_before as before, name_at, number_cmp};
ghost use Rattle.fpga_place.specs.Blocks.{number_named};

use fpga_types::Block;
use std::alloc::{AllocError, Global};
use std::cmp::Ordering;
use std::marker::Model;

/// Blocks that are found by name. Of two with one name the first is found.
#[derive(Drop)]
pub struct BlockTable<'a> {
    blocks: &'a [Block],
    by_name: Vec<u32>,
    /// Whether no two blocks have one name, so that a block with a name is the first.
    are_apart: bool,
}

impl<'a> Model for BlockTable<'a> {
    ghost use Rattle.std.specs.Prelude.{List};
    ghost use Rattle.fpga_types.specs.declared.netlist.Block.{Block};
    ghost use Rattle.fpga_place.specs.BlockTables.{AreFound};

    ghost Value = { List Block };

    ghost view = { λ t. t.blocks.now };

    ghost invariant = { λ t. AreFound t.blocks.now t.by_name.items t.are_apart };
}

impl<'a> BlockTable<'a> {
    /// The table of these blocks.
    pub fn of(alloc: Global, blocks: &'a [Block]) -> Result<BlockTable<'a>, AllocError>
        ensures { IfOk result (λ table. table ≡ blocks.now) }
    {
        let Ok(mut by_name) = numbers_below(alloc, blocks.len()) else {
            return Err(AllocError);
        };
        by_name.sort_unstable_by(
            |a, b|
                ensures { result ≡ number_cmp blocks.entry.now a.now b.now }
            { number_cmp(blocks, *a, *b) },
        );
        let are_apart = names_differ(blocks, &by_name);
        Ok(BlockTable {
            blocks,
            by_name,
            are_apart,
        })
    }

    /// The blocks, by number.
    pub fn as_slice(&self) -> &'a [Block]
        ensures { result.now ≡ self.now }
    {
        self.blocks
    }

    /// The number of the first block with this name. It is found at once if it is the guess, and
    /// no two blocks have one name.
    pub fn number_of(&self, name: &[u8], guess: usize) -> Option<usize>
        ensures number { result ≡ number_named self.now name.now }
        ensures within { IfSome result (λ number. number < length self.now) }
    {
        if self.are_apart && guess < self.blocks.len() && name_at(self.blocks, guess) == name {
            return Some(guess);
        }
        self.search(name)
    }

    /// The same, found by its name alone.
    fn search(&self, name: &[u8]) -> Option<usize>
        ensures number { result ≡ number_named self.now name.now }
        ensures within { IfSome result (λ number. number < length self.now) }
    {
        let blocks = self.blocks;
        let place = self.by_name.partition_point(
            |number|
                ensures { result ≡ before blocks.entry.now name.entry.now number.now }
            { is_before(blocks, *number, name) },
        );
        let Some(number) = self.by_name.get(place) else {
            return None;
        };
        let number = *number as usize;
        if name_at(blocks, number) != name {
            return None;
        }
        Some(number)
    }
}

/// The numbers below this one.
fn numbers_below(alloc: Global, count: usize) -> Result<Vec<u32>, AllocError>
    ensures { IfOk result (λ numbers. numbers.items ≡ range_with_len 0 count) }
{
    // More than that would ask for more memory than there is.
    let Ok(end) = u32::try_from(count) else {
        return Err(AllocError);
    };
    let mut numbers = Vec::with_capacity(alloc, count)?;
    for number in 0..end {
        numbers.push(number)?;
    }
    Ok(numbers)
}

/// Whether no block of a row has the name of the next one.
fn names_differ(blocks: &[Block], row: &[u32]) -> bool
    ensures { result ≡ true → DifferAlong blocks.now row.now }
{
    for k in 1..row.len() {
        if name_at(blocks, row[k - 1] as usize) == name_at(blocks, row[k] as usize) {
            return false;
        }
    }
    true
}

/// The name of the block with this number; none where there is no such block.
fn name_at(blocks: &[Block], number: usize) -> &[u8]
    ensures { result.now ≡ name_at blocks.now number }
{
    match blocks.get(number) {
        Some(block) => block.name.bytes.as_slice(),
        None => b"",
    }
}

/// How two blocks stand to one another: by name, and of one name by number.
fn number_cmp(blocks: &[Block], a: u32, b: u32) -> Ordering
    ensures { result ≡ number_cmp blocks.now a b }
{
    name_at(blocks, a as usize)
        .cmp(name_at(blocks, b as usize))
        .then(a.cmp(&b))
}

/// Whether the name of the block with this number is before another.
fn is_before(blocks: &[Block], number: u32, name: &[u8]) -> bool
    ensures { result ≡ before blocks.now name.now number }
{
    name_at(blocks, number as usize).cmp(name).is_lt()
}
