//! Rows that are read and written only within them.

/// The number at a place, or 0.
pub(crate) fn at(row: &[u32], place: usize) -> u32 {
    if place < row.len() { row[place] } else { 0 }
}

/// Writes a number at a place, if it is there.
pub(crate) fn put(row: &mut [u32], place: usize, value: u32) {
    if place < row.len() {
        row[place] = value;
    }
}

/// Counts one more at a place, if it is there.
pub(crate) fn count_at(row: &mut [u32], place: usize) {
    if place < row.len() {
        row[place] = row[place].saturating_add(1);
    }
}

/// A length as a number of 32 bits.
pub(crate) fn short(length: usize) -> u32 {
    (length & 0xffff_ffff) as u32
}
