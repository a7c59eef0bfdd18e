//! Rows of bits.
ghost use Rattle.std.specs.Prelude.{◌≤◌};
ghost use Rattle.problem_facts.specs.declared.limits.TheConstants.{MET_LIMIT};

use crate::limits::MET_LIMIT;
use std::alloc::{AllocError, Global};

/// As many rows as each has bits.
#[derive(Drop)]
pub(crate) struct BitRows {
    count: usize,
    words: usize,
    bits: Vec<u64>,
}

impl BitRows {
    /// So many rows without a bit.
    ///
    /// # Errors
    /// Where memory is short.
    pub fn new(alloc: Global, count: usize) -> Result<BitRows, AllocError>
        requires { count ≤ MET_LIMIT }
    {
        let words = count / 64 + 1;
        let bits = vec![in alloc; 0; count * words]?;
        Ok(BitRows { count, words, bits })
    }

    /// How many there are.
    pub fn count(&self) -> usize {
        self.count
    }

    /// The row at a place.
    pub fn row(&self, place: usize) -> &[u64] {
        let first = place.saturating_mul(self.words);
        let end = first.saturating_add(self.words);
        self.bits.as_slice().get(first..end).unwrap_or(&[])
    }

    /// Sets a bit of the row at a place.
    pub fn set(&mut self, place: usize, bit: usize) {
        let at = place.saturating_mul(self.words).saturating_add(bit / 64);
        if at < self.bits.len() {
            self.bits[at] |= mask(bit);
        }
    }
}

/// A row with so many bits that are all set.
///
/// # Errors
/// Where memory is short.
pub(crate) fn full_row(alloc: Global, count: usize) -> Result<Vec<u64>, AllocError> {
    let mut row = vec![in alloc; 0; count / 64 + 1]?;
    set_all(&mut row, count);
    Ok(row)
}

/// Whether a bit is set.
pub(crate) fn has_bit(row: &[u64], bit: usize) -> bool {
    row.get(bit / 64).copied().unwrap_or(0) & mask(bit) != 0
}

/// Clears a bit.
pub(crate) fn clear_bit(row: &mut [u64], bit: usize) {
    let at = bit / 64;
    if at < row.len() {
        row[at] &= !mask(bit);
    }
}

/// The first bit that is set.
pub(crate) fn first_bit(row: &[u64]) -> Option<usize> {
    for at in 0..row.len() {
        let zeros = row[at].trailing_zeros() as usize;
        if zeros < 64 {
            return Some(at.saturating_mul(64).saturating_add(zeros));
        }
    }
    None
}

/// How many bits are set.
pub(crate) fn count_bits(row: &[u64]) -> usize {
    let mut count = 0usize;
    for word in row {
        count = count.saturating_add(word.count_ones() as usize);
    }
    count
}

/// How many bits are set in both rows.
pub(crate) fn common_bits(a: &[u64], b: &[u64]) -> usize {
    let mut count = 0usize;
    for (x, y) in a.iter().zip(b) {
        count = count.saturating_add((*x & *y).count_ones() as usize);
    }
    count
}

/// Clears the bits that are not set in the other row.
pub(crate) fn keep_common(row: &mut [u64], other: &[u64]) {
    for at in 0..row.len() {
        row[at] &= other.get(at).copied().unwrap_or(0);
    }
}

/// Sets the first bits.
fn set_all(row: &mut [u64], count: usize) {
    for bit in 0..count {
        let at = bit / 64;
        if at < row.len() {
            row[at] |= mask(bit);
        }
    }
}

/// The bit in its word.
fn mask(bit: usize) -> u64 {
    1 << (bit % 64)
}
