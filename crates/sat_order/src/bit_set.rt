//! A set of numbers, with a bit for each.

ghost use Rattle.std.specs.Prelude.{◌≡◌, ◌<◌, ◌≤◌, ℕ, false, true, IfNone, IfOk, IfSome, length, replicate, slice_index, slice_index_or, slice_set};
ghost use Rattle.sat_order.specs.BitSet.{IsLeast};

use sat_clause::VARIABLE_LIMIT;
use std::alloc::{AllocError, Global};
use std::marker::Model;

/// A set of numbers below a size. Contracts see of each number whether it is in the set.
#[derive(Drop)]
pub(crate) struct BitSet {
    size: u32,
    words: Vec<u64>,
    low: usize,
}

impl Model for BitSet {
    ghost use Rattle.std.specs.Prelude.{Bool, List};
    ghost use Rattle.sat_order.specs.BitSet.{IsBitSet, members};

    ghost Value = { List Bool };

    ghost view = { λ s. members s.size s.words.items };

    ghost invariant = { λ s. IsBitSet s.size s.words.items s.low };
}

/// The place of the first word from this one on that is not 0, or the number of words.
fn next_word(words: &[u64], from: usize) -> usize
    ensures empty { (k : ℕ) → from ≤ k → k < result → slice_index words.now k ≡ 0 }
    ensures some { result < length words.now → 1 ≤ slice_index words.now result }
{
    for at in from..words.len() {
        if words[at] != 0 {
            return at;
        }
    }
    words.len()
}

impl BitSet {
    /// The set of no number, below this size.
    fn empty(alloc: Global, size: u32) -> Result<BitSet, AllocError>
        requires { size ≤ VARIABLE_LIMIT }
        ensures { IfOk result (λ s. s ≡ replicate size false) }
    {
        Ok(BitSet {
            size,
            words: vec![in alloc; 0; size as usize / 64 + 1]?,
            low: 0,
        })
    }

    /// The set of all numbers below this size.
    pub(crate) fn full(alloc: Global, size: u32) -> Result<BitSet, AllocError>
        requires { size ≤ VARIABLE_LIMIT }
        ensures { IfOk result (λ s. s ≡ replicate size true) }
    {
        let mut set = BitSet::empty(alloc, size)?;
        for number in 0..size {
            set.insert(number);
        }
        Ok(set)
    }

    /// Whether the number is in the set.
    pub(crate) fn has(&self, number: u32) -> bool
        requires { number < length self.now }
        ensures { result ≡ slice_index_or self.now number false }
    {
        (self.words[number as usize / 64] >> (number % 64)) & 1 == 1
    }

    /// Puts a number in.
    pub(crate) fn insert(&mut self, number: u32)
        requires { number < length self.old }
        ensures { self.new ≡ slice_set self.old number true }
    {
        let at = number as usize / 64;
        self.words[at] |= 1 << (number % 64);
        self.low = self.low.min(at);
    }

    /// Takes a number out.
    pub(crate) fn remove(&mut self, number: u32)
        requires { number < length self.old }
        ensures { self.new ≡ slice_set self.old number false }
    {
        self.words[number as usize / 64] &= !(1 << (number % 64));
    }

    /// The least number of the set, if there is one.
    pub(crate) fn least(&mut self) -> Option<u32>
        ensures same { self.new ≡ self.old }
        ensures least { IfSome result (IsLeast self.old) }
        ensures none { IfNone result
            ((x : ℕ) → slice_index_or self.old x false ≡ false) }
    {
        let low = next_word(&self.words, self.low);
        self.low = low;
        if low >= self.words.len() {
            return None;
        }
        let word = self.words[low];
        Some(low as u32 * 64 + word.trailing_zeros())
    }
}
