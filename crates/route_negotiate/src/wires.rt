//! Wires by number: a wire has its cell's times 64, and its track more.

/// The number of a wire.
pub(crate) fn wire_of(cell: u32, track: u32) -> u32 {
    cell.wrapping_mul(64).wrapping_add(track % 64)
}

/// The cell of a wire.
pub(crate) fn cell_of(wire: u32) -> u32 {
    wire / 64
}

/// The track of a wire.
pub(crate) fn track_of(wire: u32) -> u32 {
    wire % 64
}
