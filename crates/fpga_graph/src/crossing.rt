//! The two sides of a switch block where two cells meet.
ghost use Rattle.std.specs.Prelude.{◌≢◌, ◌≤◌};
ghost use Rattle.fpga_types.specs.declared.limits.TheConstants.{WIDTH_LIMIT};

use fpga_types::{Pattern, Side};

/// The two sides of a switch block where two cells meet, in a channel of `width` tracks.
#[derive(Clone, Copy)]
pub struct Crossing {
    /// What the switch block joins.
    pub pattern: Pattern,
    /// How many tracks each of the cells has.
    pub width: u32,
    /// The side that the first cell is on.
    pub from: Side,
    /// The side that the second cell is on.
    pub to: Side,
    ghost sides: { from ≢ to },
    ghost some_tracks: { 1 ≤ width },
    ghost few_tracks: { width ≤ WIDTH_LIMIT },
}
