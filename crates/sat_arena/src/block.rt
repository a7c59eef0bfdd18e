//! A row of words in one block of memory, which grows on request alone.

ghost use Rattle.std.specs.Prelude.{◌≡◌, ◌+◌, ◌-◌, ◌^◌, ◌<◌, ◌≤◌, [], ◌∷◌, ◌++◌, length, take, drop, slice_set, IfOk, List, OnOk, Some};
ghost use Rattle.sat_clause.specs.declared.literal.Lit.{Lit};
ghost use Rattle.sat_arena.specs.Block.{slid, word_at};
ghost use Rattle.sat_arena.specs.Layout.{lower as lower_of, upper as upper_of, written_new};
ghost use Rattle.sat_arena.specs.Places.{Begins};

use crate::layout::{NO_LINK, head_of, lower, upper, word_of};
use crate::places::{Claim, Places, Start, allocate, deallocate};
use sat_clause::{LITERAL_LIMIT, Lit};
use std::alloc::{AllocError, Global};
use std::marker::Model;
use std_alloc::room::may_hold;

/// A row of words, with room for more of them.
pub struct Block {
    start: Start<Lit>,
    places: Places<Lit>,
    claim: Option<Claim<Lit, Global>>,
    alloc: Global,
    len: usize,
    capacity: usize,
}

impl Model for Block {
    ghost use Rattle.std.specs.Prelude.{◌-◌};
    ghost use Rattle.sat_arena.specs.Block.{IsBlock, Words, words_in};

    ghost Value = { Words };

    ghost view = { λ b. record { words = words_in b.places b.len; spare = b.capacity - b.len } };

    ghost invariant = { λ b. IsBlock b.start b.places b.claim b.alloc b.len b.capacity };
}

/// Writes words into the places from one on. What the places before it hold stays there.
fn write_all(places: &mut Places<Lit>, start: Start<Lit>, from: usize, words: &[Lit])
    requires row { start.address ≡ places.old.start }
    requires room { from + length words.now ≤ length places.old.slots }
    requires small { length places.old.slots < 2 ^ 63 }
    ensures row { places.new.start ≡ places.old.start }
    ensures size { length places.new.slots ≡ length places.old.slots }
    ensures behind { (front : List Lit) → from ≡ length front → Begins places.old.slots front
        → Begins places.new.slots (front ++ words.now) }
{
    for k in 0..words.len() {
        places.write(start, from + k, words[k]);
    }
}

impl Block {
    /// The block without words and without room. It takes no memory.
    pub(crate) fn empty(alloc: Global) -> Block
        ensures { result ≡ record { words = []; spare = 0 } }
    {
        let start = Start::nowhere();
        Block {
            start,
            places: Places::none(start),
            claim: None,
            alloc,
            len: 0,
            capacity: 0,
        }
    }

    /// A block without words, with room for so many.
    pub(crate) fn with_room(alloc: Global, capacity: usize) -> Result<Block, AllocError>
        ensures block { IfOk result (λ b. b ≡ record { words = []; spare = capacity }) }
        ensures small { OnOk result (capacity < 2 ^ 63) }
    {
        if capacity == 0 {
            return Ok(Block::empty(alloc));
        }
        if !may_hold::<Lit>(capacity) {
            return Err(AllocError);
        }
        let (start, places, claim) = allocate(&alloc, capacity)?;
        Ok(Block {
            start,
            places,
            claim: Some(claim),
            alloc,
            len: 0,
            capacity,
        })
    }

    /// How many words there are.
    pub(crate) fn len(&self) -> usize
        ensures value { result ≡ length self.now.words }
        ensures small { length self.now.words + self.now.spare < 2 ^ 63 }
    {
        self.len
    }

    /// How many more words there is room for.
    pub(crate) fn spare(&self) -> usize
        ensures { result ≡ self.now.spare }
    {
        self.capacity - self.len
    }

    /// The word at an index.
    pub(crate) fn word(&self, index: usize) -> Lit
        requires { index < length self.now.words }
        ensures { result ≡ word_at self.now.words index }
    {
        *self.places.get(self.start, index)
    }

    /// The `len` words from `from` on.
    pub(crate) fn run(&self, from: usize, len: usize) -> &[Lit]
        requires within { from + len ≤ length self.now.words }
        requires some { 1 ≤ length self.now.words }
        ensures { result.now ≡ take len (drop from self.now.words) }
    {
        self.places.slice(self.start, from, len)
    }

    /// Writes over the word at an index.
    pub(crate) fn set(&mut self, index: usize, word: Lit)
        requires { index < length self.old.words }
        ensures { self.new ≡ record self.old { words = slice_set self.old.words index word } }
    {
        self.places.write(self.start, index, word);
    }

    /// Writes the halves of a number over two words.
    pub(crate) fn set_number(&mut self, index: usize, n: u64)
        requires inside { index + 1 < length self.old.words }
        requires small { index + 1 < 2 ^ 64 }
        ensures { self.new ≡ record self.old {
          words = slice_set (slice_set self.old.words index (lower_of n)) (index + 1) (upper_of n);
        } }
    {
        let start = self.start;
        self.places.write(start, index, lower(n));
        self.places.write(start, index + 1, upper(n));
    }

    /// Writes each of two words over the other.
    pub(crate) fn swap(&mut self, i: usize, j: usize)
        requires i { i < length self.old.words }
        requires j { j < length self.old.words }
        ensures { self.new ≡ record self.old {
          words =
              slice_set (slice_set self.old.words i (word_at self.old.words j)) j
              (word_at self.old.words i);
        } }
    {
        let first = self.word(i);
        let second = self.word(j);
        let start = self.start;
        self.places.write(start, i, second);
        self.places.write(start, j, first);
    }

    /// Writes these words behind the others.
    pub(crate) fn extend(&mut self, words: &[Lit])
        requires { length words.now ≤ self.old.spare }
        ensures words { self.new.words ≡ self.old.words ++ words.now }
        ensures spare { self.new.spare ≡ self.old.spare - length words.now }
    {
        write_all(&mut self.places, self.start, self.len, words);
        self.len += words.len();
    }

    /// The same words in another block, with room for so many in all.
    pub(crate) fn moved(&self, alloc: Global, capacity: usize) -> Result<Block, AllocError>
        requires { length self.now.words ≤ capacity }
        ensures words { IfOk result (λ b. b.words ≡ self.now.words) }
        ensures spare { IfOk result (λ b. b.spare ≡ capacity - length self.now.words) }
        ensures small { OnOk result (capacity < 2 ^ 63) }
    {
        let mut next = Block::with_room(alloc, capacity)?;
        if self.len == 0 {
            return Ok(next);
        }
        next.extend(self.run(0, self.len));
        Ok(next)
    }

    /// Writes a clause behind the others, with neither mark nor links.
    pub(crate) fn append_clause(&mut self, lits: &[Lit], id: u32)
        requires few { length lits.now ≤ LITERAL_LIMIT }
        requires room { length lits.now + 6 ≤ self.old.spare }
        ensures words { self.new.words ≡ self.old.words ++ written_new id lits.now }
        ensures spare { self.new.spare ≡ self.old.spare - (length lits.now + 6) }
    {
        self.extend(&[
            head_of(lits.len() as u32, false),
            word_of(id),
            lower(NO_LINK),
            upper(NO_LINK),
            lower(NO_LINK),
            upper(NO_LINK),
        ]);
        self.extend(lits);
    }

    /// Moves the `len` words from `from` on to an earlier place, word by word.
    pub(crate) fn slide(&mut self, from: usize, to: usize, len: usize)
        requires earlier { to ≤ from }
        requires inside { from + len ≤ length self.old.words }
        requires small { from + len < 2 ^ 64 }
        ensures words { self.new.words ≡ slid self.old.words from to len }
        ensures spare { self.new.spare ≡ self.old.spare }
    {
        if from == to {
            return;
        }
        for i in 0..len {
            let word = self.word(from + i);
            self.set(to + i, word);
        }
    }

    /// Keeps the first `len` words.
    pub(crate) fn cut(&mut self, len: usize)
        requires { len ≤ length self.old.words }
        ensures words { self.new.words ≡ take len self.old.words }
        ensures spare { self.new.spare ≡ self.old.spare + (length self.old.words - len) }
    {
        self.len = len;
    }
}

impl Drop for Block {
    fn drop(self) {
        let Block {
            start,
            places,
            claim,
            alloc,
            len: _,
            capacity,
        } = self;
        let Some(claim) = claim else {
            return;
        };
        deallocate(&alloc, start, capacity, places, claim);
    }
}
