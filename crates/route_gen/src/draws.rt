//! Where the nets of a generated problem end.
ghost use Rattle.std.specs.Prelude.{◌≡◌, ◌*◌, ◌<◌, ◌≤◌, ◌-◌, ◌^◌, ◌∷◌, ◌++◌, [], true, IfOk, length, map, slice_get, slice_set};
ghost use Rattle.std.specs.List.{range_with_len};
ghost use Rattle.fpga_types.specs.declared.limits.TheConstants.{SIDE_LIMIT};
ghost use Rattle.route_gen.specs.Draws as spec;

use crate::location::{Location, moved};
use crate::rand::Rand;
use arrayvec::ArrayVec;
use std::alloc::{AllocError, Global};
use std::marker::Model;

/// How many inputs a block has.
pub const INPUT_COUNT: usize = 4;

/// Where a net ends: an input of a block. Inputs have the first numbers among its pins.
#[derive(Clone, Copy)]
pub struct Sink {
    pub block: u32,
    pub pin: u32,
}

/// The inputs of a block that are taken, by the nets that end there. Contracts see the nets.
#[derive(Drop)]
pub struct Inputs {
    nets: ArrayVec<u32, INPUT_COUNT>,
}

impl Model for Inputs {
    ghost use Rattle.std.specs.Prelude.{List, ℕ};

    ghost Value = { List ℕ };

    ghost view = { λ i. i.nets.items };
}

impl Inputs {
    /// No input is taken.
    fn free() -> Inputs
        ensures { result ≡ [] }
    {
        Inputs {
            nets: ArrayVec::new(),
        }
    }

    /// The net that is on an input, if one is.
    pub fn net(&self, pin: usize) -> Option<u32>
        ensures { result ≡ slice_get self.now pin }
    {
        self.nets.get(pin).copied()
    }

    /// Whether an input is free.
    fn have_room(&self) -> bool
        ensures { result ≡ spec.has_room self.now }
    {
        self.nets.len() < INPUT_COUNT
    }

    /// Takes the next input for a net, and gives its number.
    fn take(&mut self, net: u32) -> u32
        requires { spec.has_room self.old ≡ true }
        ensures nets { self.new ≡ self.old ++ net ∷ [] }
        ensures pin { result ≡ length self.old }
    {
        let pin = self.nets.len();
        self.nets.push(net);
        pin as u32
    }
}

/// What is drawn: where each net ends, and the nets that end at each block.
#[derive(Drop)]
pub struct Draws {
    pub sinks: Vec<Sink>,
    pub inputs: Vec<Inputs>,
}

/// The block that two draws point at, near a driver: the first moves its column, the second its
/// row.
fn wanted_block(side: u32, driver: u32, rand: &mut Rand) -> u32
    requires side { (1 ≤ side) × (side ≤ SIDE_LIMIT) }
    requires driver { driver < side * side }
    ensures drawn { rand.new ≡ spec.after_rand (spec.after_rand rand.old) }
    ensures wanted { result ≡ spec.drawn_block side driver rand.old }
    ensures within { result < side * side }
{
    let from = Location::of(side, driver);
    let column = moved(side, from.column, rand.draw());
    let row = moved(side, from.row, rand.draw());
    Location { column, row }.block(side)
}

/// The first block with a free input, from one on and before another.
fn first_free(inputs: &[Inputs], from: usize, to: usize) -> Option<usize>
    requires { to ≤ length inputs.now }
    ensures { result ≡ spec.first_free inputs.now from (to - from) }
{
    for block in from..to {
        if inputs[block].have_room() {
            return Some(block);
        }
    }
    None
}

/// The first block with a free input, from one on and going round, or the first of all if none has.
fn free_block(inputs: &[Inputs], wanted: usize) -> usize
    requires { wanted < length inputs.now }
    ensures { result ≡ spec.free_block inputs.now wanted }
{
    if let Some(block) = first_free(inputs, wanted, inputs.len()) {
        return block;
    }
    first_free(inputs, 0, wanted).unwrap_or(0)
}

/// The inputs of so many blocks, none of them taken.
fn free_inputs(alloc: Global, blocks: u32) -> Result<Vec<Inputs>, AllocError>
    ensures { IfOk result (λ inputs. inputs.items ≡ map (λ _. []) (range_with_len 0 blocks)) }
{
    let mut inputs = Vec::new(alloc);
    for _block in 0..blocks {
        inputs.push(Inputs::free())?;
    }
    Ok(inputs)
}

/// Takes the next input of a block for a net, and gives its number.
fn take_input(inputs: &mut Vec<Inputs>, block: usize, net: u32) -> u32
    requires { spec.IsFree inputs.old.items block }
    ensures taken { inputs.new.items
        ≡ slice_set inputs.old.items block (spec.entry inputs.old.items block ++ net ∷ []) }
    ensures pin { result ≡ length (spec.entry inputs.old.items block) }
{
    inputs[block].take(net)
}

/// Draws where the net of a driver ends, and takes that input.
fn draw_sink(side: u32, driver: u32, rand: &mut Rand, inputs: &mut Vec<Inputs>) -> Sink
    requires side { (1 ≤ side) × (side ≤ SIDE_LIMIT) }
    requires driver { driver < side * side }
    requires blocks { length inputs.old.items ≡ side * side }
    requires room { spec.HasFree inputs.old.items }
    ensures drawn { rand.new ≡ spec.after_rand (spec.after_rand rand.old) }
    ensures sink { result
        ≡ spec.next_sink inputs.old.items (spec.drawn_block side driver rand.old) }
    ensures taken { inputs.new.items ≡ slice_set inputs.old.items result.block
        (spec.entry inputs.old.items result.block ++ driver ∷ []) }
{
    let wanted = wanted_block(side, driver, rand);
    let block = free_block(inputs, wanted as usize);
    let pin = take_input(inputs, block, driver);
    Sink {
        block: block as u32,
        pin,
    }
}

/// Draws where each of the nets ends. Each block drives the net of its number.
pub fn draw_sinks(alloc: Global, seed: u32, side: u32, nets: u32) -> Result<Draws, AllocError>
    requires seed { seed < 2 ^ 31 }
    requires side { (1 ≤ side) × (side ≤ SIDE_LIMIT) }
    requires nets { nets ≤ side * side }
    ensures sinks { IfOk result (λ drawn. drawn.sinks.items ≡ spec.sinks_of seed side nets) }
    ensures inputs { IfOk result (λ drawn. drawn.inputs.items
        ≡ spec.input_table side (spec.sinks_of seed side nets)) }
{
    let mut rand = Rand::new(seed);
    let mut sinks = Vec::new(alloc);
    let mut inputs = free_inputs(alloc, side * side)?;
    for net in 0..nets {
        let sink = draw_sink(side, net, &mut rand, &mut inputs);
        sinks.push(sink)?;
    }
    Ok(Draws { sinks, inputs })
}
