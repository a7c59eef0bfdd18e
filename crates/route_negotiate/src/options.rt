//! What a search is told.

/// The greatest number of rounds of a search.
pub const ROUND_LIMIT: u32 = 100_000;

/// How many wires of a cell a net may have.
#[derive(Clone, Copy, PartialEq, Eq)]
pub enum CellWires {
    /// One at most: a net has one track in each of its cells.
    One,
    /// Any number.
    Several,
}

/// What a search is told.
#[derive(Clone, Copy)]
pub struct Options {
    /// How many wires of a cell a net may have.
    pub wires: CellWires,
    /// After how many rounds a search gives up, from 1 to `ROUND_LIMIT`.
    pub rounds: u32,
    /// From which number the order is made in which the start tracks of a net are tried.
    pub seed: u32,
}
