//! Where the blocks of a generated problem stand.
ghost use Rattle.std.specs.Prelude.{◌≡◌, ◌*◌, ◌<◌, ◌≤◌};
ghost use Rattle.fpga_types.specs.declared.limits.TheConstants.{SIDE_LIMIT};
ghost use Rattle.route_gen.specs.Draws as spec;

/// A place of the array by its column and its row, both from 1 on.
#[derive(Clone, Copy)]
pub struct Location {
    pub column: u32,
    pub row: u32,
}

impl Location {
    /// Where a block stands on an array of this side.
    pub fn of(side: u32, block: u32) -> Location
        requires side { (1 ≤ side) × (side ≤ SIDE_LIMIT) }
        requires block { block < side * side }
        ensures place { result ≡ spec.location_of side block }
        ensures within { (result.column ≤ side) × (result.row ≤ side) }
    {
        Location {
            column: block % side + 1,
            row: block / side + 1,
        }
    }

    /// The block that stands there, on an array of this side.
    pub fn block(self, side: u32) -> u32
        requires side { side ≤ SIDE_LIMIT }
        requires column { (1 ≤ self.column) × (self.column ≤ side) }
        requires row { (1 ≤ self.row) × (self.row ≤ side) }
        ensures block { result ≡ spec.block_at side self.column self.row }
        ensures within { result < side * side }
    {
        (self.row - 1) * side + (self.column - 1)
    }
}

/// A column or a row moved by what was drawn.
pub fn moved(side: u32, from: u32, answer: u32) -> u32
    requires side { 1 ≤ side }
    requires from { (from ≤ side) × (side ≤ SIDE_LIMIT) }
    ensures moved { result ≡ spec.moved side from answer }
    ensures within { (1 ≤ result) × (result ≤ side) }
{
    (from + answer % 5).saturating_sub(2).max(1).min(side)
}
