//! The value of a placement text as far as it was read.
ghost use Rattle.std.specs.Prelude.{◌≡◌, ℕ, None, OnOk, IfOk, IfErr, length, map, replicate, Some};
ghost use Rattle.fpga_text.specs.FirstFault.{AnswersFault, IsFaultOf};
ghost use Rattle.fpga_text.specs.declared.fault.TextFault.TheVariants.{Bad};
ghost use Rattle.fpga_types.specs.Placements.{AreLawful, HaveOwnNames};
ghost use Rattle.fpga_place.specs.Causes.{code_of};
ghost use Rattle.fpga_place.specs.Drafts as spec;
ghost use Rattle.fpga_place.specs.Drafts.{last_fault, places_alone};
ghost use Rattle.fpga_place.specs.Lines.{Block, block_form};
ghost use Rattle.fpga_place.specs.Value.{place_of};

use crate::block_table::BlockTable;
use crate::cause::Cause;
use crate::words::block_line;
use fpga_text::{Coded, Line, TextFault};
use fpga_types::{Grid, Place, Spot};
use std::alloc::{AllocError, Global};
use std::collections::BTreeSet;
use std::marker::Model;

/// The array, the place of each block that had a line, by its number, and the spots of these
/// blocks.
#[derive(Drop)]
pub struct Draft<'a> {
    io_rat: u32,
    grid: Grid,
    blocks: BlockTable<'a>,
    places: Vec<Option<Place>>,
    taken: BTreeSet<Spot>,
    /// The number behind that of the block of the last line: most texts have the order of the
    /// netlist.
    next: usize,
}

impl<'a> Model for Draft<'a> {
    ghost use Rattle.fpga_place.specs.Drafts.{IsInOrder, Progress};

    ghost Value = { Progress };

    ghost view = { λ d. record {
      setting = record { io_rat = d.io_rat; blocks = d.blocks };
      grid = d.grid;
      places = d.places.items;
    } };

    ghost invariant = { λ d. IsInOrder d.io_rat d.grid d.blocks d.places.items d.taken };
}

impl<'a> Draft<'a> {
    ghost use Rattle.fpga_place.specs.Drafts.{
      FitsBlock,
      FitsNamed,
      TakesLine,
      next_fault,
      with_place,
    };

    /// No block had a line.
    pub fn new(
        alloc: Global,
        io_rat: u32,
        grid: Grid,
        blocks: BlockTable<'a>,
    ) -> Result<Draft<'a>, AllocError>
        ensures { IfOk result (λ draft. draft ≡ record {
          setting = record { io_rat = io_rat; blocks = blocks.entry };
          grid = grid;
          places = replicate (length blocks.entry) None;
        }) }
    {
        let places = vec![in alloc; None; blocks.as_slice().len()]?;
        Ok(Draft {
            io_rat,
            grid,
            blocks,
            places,
            taken: BTreeSet::new(alloc),
            next: 0,
        })
    }

    /// Takes a line behind the head, of which no word was taken yet.
    pub fn take_line(&mut self, line: &mut Line<'a>) -> Result<(), TextFault>
        ensures ok { OnOk result
            (TakesLine self.old self.new line.old.number (block_form line.old.words)) }
        ensures err { IfErr result
            (IsFaultOf (next_fault self.old line.old.number (block_form line.old.words))) }
    {
        let number = line.number();
        let Some(said) = block_line(line) else {
            return Err(Cause::NoNumber.at(number));
        };
        let block = match self.number_for(said.name, said.place) {
            Ok(block) => block,
            Err(cause) => return Err(cause.at(number)),
        };
        let Ok(()) = self.put(block, said.place) else {
            return Err(TextFault::Memory);
        };
        Ok(())
    }

    /// The number of the block with this name, or why it can't have the place.
    fn number_for(&self, name: &'a [u8], place: Place) -> Result<usize, Cause>
        ensures ok { IfOk result (FitsNamed self.now name.now place) }
        ensures err { IfErr result (λ cause. (line : ℕ)
            → next_fault self.now line (Block name.now (Some place))
            ≡ Some (Bad line (code_of cause))) }
    {
        let Some(number) = self.blocks.number_of(name, self.next) else {
            return Err(Cause::UnknownBlock);
        };
        if self.places[number].is_some() {
            return Err(Cause::RepeatedBlock);
        }
        let kind = self.blocks.as_slice()[number].kind;
        if !self.grid.takes(self.io_rat, kind, place) {
            return Err(Cause::UnlawfulPlace);
        }
        if self.taken.contains(&place.spot(kind)) {
            return Err(Cause::SharedSpot);
        }
        Ok(number)
    }

    /// Gives a block its place.
    fn put(&mut self, number: usize, place: Place) -> Result<(), AllocError>
        requires { FitsBlock self.old number place }
        ensures { OnOk result (self.new ≡ with_place self.old number place) }
    {
        let kind = self.blocks.as_slice()[number].kind;
        let Ok(_) = self.taken.insert(place.spot(kind)) else {
            return Err(AllocError);
        };
        self.places[number] = Some(place);
        self.next = number.saturating_add(1);
        Ok(())
    }

    /// The places of the blocks, or why the text is refused that ends here, with this number. The
    /// spots are let go first, so that the places need no room beside them.
    pub fn places(self, alloc: Global, end: u64) -> Result<Vec<Place>, TextFault>
        ensures answers { AnswersFault (last_fault self.entry end)
            (λ places. places.items
            ≡ map (place_of (spec.placed self.entry)) self.entry.setting.blocks)
            result }
        ensures sound { IfOk result (λ places. HaveOwnNames self.entry.setting.blocks
            → AreLawful self.entry.grid self.entry.setting.io_rat self.entry.setting.blocks
            places.items) }
    {
        let Draft {
            blocks,
            places,
            taken,
            ..
        } = self;
        drop(taken);
        all_places(alloc, &blocks, &places, end)
    }
}

/// The places of these blocks, or why a text is refused that ends here, with this number.
fn all_places(
    alloc: Global,
    blocks: &BlockTable<'_>,
    places: &[Option<Place>],
    end: u64,
) -> Result<Vec<Place>, TextFault>
    requires { length places.now ≡ length blocks.now }
    ensures { AnswersFault (last_fault (places_alone blocks.now places.now) end)
        (λ all. all.items
        ≡ map (place_of (spec.placed (places_alone blocks.now places.now))) blocks.now)
        result }
{
    let named = blocks.as_slice();
    let Ok(mut all) = Vec::with_capacity(alloc, named.len()) else {
        return Err(TextFault::Memory);
    };
    for (i, block) in named.iter().enumerate() {
        let Some(place) = placed(blocks, places, block.name.bytes.as_slice(), i) else {
            return Err(Cause::MissingBlock.at(end));
        };
        let Ok(()) = all.push(place) else {
            return Err(TextFault::Memory);
        };
    }
    Ok(all)
}

/// The place of the block with this name, if it had a line. It is found at once if its number is
/// the guess.
fn placed(
    blocks: &BlockTable<'_>,
    places: &[Option<Place>],
    name: &[u8],
    guess: usize,
) -> Option<Place>
    requires { length places.now ≡ length blocks.now }
    ensures { result ≡ spec.placed (places_alone blocks.now places.now) name.now }
{
    let Some(number) = blocks.number_of(name, guess) else {
        return None;
    };
    places[number]
}
