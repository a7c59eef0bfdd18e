//! A block with the words of its pinlist.
ghost use Rattle.std.specs.Prelude.{◌≡◌, ◌≤◌, ◌||◌, ◌&&◌, ◌==◌, ◌+◌, not, List, ℕ, length, map, take, IfOk};
ghost use Rattle.std.specs.List.{list_any};
ghost use Rattle.fpga_types.specs.declared.limits.TheConstants.{NET_LIMIT};
ghost use Rattle.fpga_net.specs.NetUses.{use_said};
ghost use Rattle.fpga_net.specs.Uses.{HasPins, block_uses, is_logic, is_open as means_no_net};
ghost use Rattle.fpga_net.specs.Value.{block_of, net_on as number_on};

use crate::names::NameTable;
use crate::net_use::{NetUse, is_open, net_uses, pins_of};
use fpga_text::Line;
use fpga_types::{Arch, Block, BlockKind, Items, Name};
use std::alloc::{AllocError, Global};
use std::marker::Model;

/// A block with the words of its pinlist, all borrowed.
#[derive(Drop)]
pub struct ListedBlock<'a> {
    name: &'a [u8],
    kind: BlockKind,
    nets: Vec<&'a [u8]>,
}

impl<'a> Model for ListedBlock<'a> {
    ghost use Rattle.std.specs.Prelude.{map};
    ghost use Rattle.fpga_net.specs.Uses.{ListedBlock as Listed};

    ghost Value = { Listed };

    ghost view = { λ b. record {
      name = b.name.now;
      kind = b.kind;
      nets = map (λ word. word.now) b.nets.items;
    } };
}

impl<'a> ListedBlock<'a> {
    /// The block with these words as its pinlist.
    pub fn new(name: &'a [u8], kind: BlockKind, nets: Vec<&'a [u8]>) -> ListedBlock<'a>
        ensures { result ≡ record {
          name = name.now;
          kind = kind;
          nets = map (λ word. word.now) nets.entry.items;
        } }
    {
        ListedBlock { name, kind, nets }
    }

    /// Whether it is a logic block.
    pub fn is_logic(&self) -> bool
        ensures { result ≡ is_logic self.now.kind }
    {
        matches!(self.kind, BlockKind::Logic)
    }

    /// The nets on its pins, where it has this number.
    pub fn uses(
        &self,
        alloc: Global,
        arch: &Arch,
        number: u32,
    ) -> Result<Vec<NetUse<'a>>, AllocError>
        requires { HasPins arch.now self.now }
        ensures { IfOk result
            (λ uses. map use_said uses.items ≡ block_uses arch.now number self.now) }
    {
        net_uses(alloc, number, pins_of(arch, self.kind), &self.nets)
    }

    /// The block, with the numbers that the names of nets have.
    fn finish(&self, alloc: Global, names: &NameTable<'a>) -> Result<Block, AllocError>
        requires { length names.now ≤ NET_LIMIT }
        ensures { IfOk result (λ block. block ≡ block_of names.now self.now) }
    {
        let name = Vec::from_slice(alloc, self.name)?;
        let pins = net_numbers(alloc, &self.nets, names)?;
        Ok(Block {
            name: Name {
                bytes: Items::of(name),
            },
            kind: self.kind,
            pins: Items::of(pins),
        })
    }
}

/// The blocks, with the numbers that the names of nets have.
pub fn finish_all<'a>(
    alloc: Global,
    blocks: &[ListedBlock<'a>],
    names: &NameTable<'a>,
) -> Result<Vec<Block>, AllocError>
    requires { length names.now ≤ NET_LIMIT }
    ensures { IfOk result (λ all. all.items ≡ map (block_of names.now) blocks.now) }
{
    let mut all = Vec::with_capacity(alloc, blocks.len())?;
    for block in blocks {
        all.push(block.finish(alloc, names)?)?;
    }
    Ok(all)
}

/// For each word of a pinlist the number of its net, if it names one.
fn net_numbers<'a>(
    alloc: Global,
    words: &[&'a [u8]],
    names: &NameTable<'a>,
) -> Result<Vec<Option<u32>>, AllocError>
    requires { length names.now ≤ NET_LIMIT }
    ensures { IfOk result
        (λ pins. pins.items ≡ map (number_on names.now) (map (λ word. word.now) words.now)) }
{
    let mut pins = Vec::with_capacity(alloc, words.len())?;
    for word in words {
        pins.push(net_on(word, names))?;
    }
    Ok(pins)
}

/// The number of the net that a word of a pinlist names, if it names one.
fn net_on<'a>(word: &'a [u8], names: &NameTable<'a>) -> Option<u32>
    requires { length names.now ≤ NET_LIMIT }
    ensures { result ≡ number_on names.now word.now }
{
    if is_open(word) {
        return None;
    }
    let Some(number) = names.number_of(word) else {
        return None;
    };
    Some(number as u32)
}

/// Whether a pinlist has not one word for each of so many pins, or is of a pad on no net.
pub fn misses_pins(kind: BlockKind, pins: usize, words: &[&[u8]]) -> bool
    ensures { result ≡ (not (length words.now == pins) || not (is_logic kind)
        && list_any means_no_net (map (λ word. word.now) words.now)) }
{
    if words.len() != pins {
        return true;
    }
    !matches!(kind, BlockKind::Logic) && has_open(words)
}

/// Whether one of these words means no net.
fn has_open(words: &[&[u8]]) -> bool
    ensures { result ≡ list_any means_no_net (map (λ word. word.now) words.now) }
{
    for word in words {
        if is_open(word) {
            return true;
        }
    }
    false
}

/// The next words of a line, at most so many.
pub fn rest_words<'a>(
    alloc: Global,
    line: &mut Line<'a>,
    most: usize,
) -> Result<Vec<&'a [u8]>, AllocError>
    ensures { IfOk result
        (λ words. map (λ word. word.now) words.items ≡ take most line.old.words) }
{
    let mut words = Vec::with_capacity(alloc, most)?;
    while words.len() < most {
        let Some(word) = line.next_word() else {
            return Ok(words);
        };
        words.push(word.text)?;
    }
    Ok(words)
}
