//! The limits of what is read.

/// The greatest number of blocks of a netlist.
pub const BLOCK_LIMIT: usize = 65_535;
