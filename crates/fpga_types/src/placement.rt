//! The value of a placement text, and where blocks may stand.
ghost use Rattle.std.specs.Prelude.{◌≡◌, ◌≤◌};
ghost use Rattle.fpga_types.specs.Places.{is_next_to as next_to, is_within as within};
ghost use Rattle.fpga_types.specs.declared.limits.TheConstants.{SIDE_LIMIT};

use crate::grid::Grid;
use crate::items::Items;
use crate::netlist::BlockKind;

/// Where a block stands. The subblock number tells the pads of a place apart; that of a logic block
/// has no meaning.
#[derive(Clone, Copy)]
pub struct Place {
    pub x: u32,
    pub y: u32,
    pub sub: u32,
}

/// What no two blocks share: the place of a logic block, or a pad's place with its subblock number.
#[derive(Clone, Copy, PartialEq, Eq, PartialOrd, Ord)]
pub enum Spot {
    Block { x: u32, y: u32 },
    Pad { x: u32, y: u32, sub: u32 },
}

/// The array, and the place of each block, in the order of their numbers.
#[derive(Drop)]
pub struct Placement {
    pub grid: Grid,
    pub places: Items<Place>,
}

impl Place {
    ghost use Rattle.fpga_types.specs.Places.{spot_of};

    /// What a block of this kind takes up at the place.
    pub fn spot(self, kind: BlockKind) -> Spot
        ensures { result ≡ spot_of kind self }
    {
        let Place { x, y, sub } = self;
        match kind {
            BlockKind::Logic => Spot::Block { x, y },
            BlockKind::Input | BlockKind::Output => Spot::Pad { x, y, sub },
        }
    }
}

impl Grid {
    ghost use Rattle.fpga_types.specs.Places.{is_beside as beside, is_inside as inside, is_lawful};

    /// Whether a block of this kind may stand at the place, where a place beside the array has room
    /// for `io_rat` pads: a logic block stands in the array, a pad beside it.
    pub fn takes(self, io_rat: u32, kind: BlockKind, place: Place) -> bool
        ensures { result ≡ is_lawful self io_rat kind place }
    {
        match kind {
            BlockKind::Logic => self.is_inside(place),
            BlockKind::Input | BlockKind::Output => self.is_beside(place) && place.sub < io_rat,
        }
    }

    /// Whether the place is one of a logic block.
    fn is_inside(self, place: Place) -> bool
        ensures { result ≡ inside self place }
    {
        is_within(self.nx, place.x) && is_within(self.ny, place.y)
    }

    /// Whether the place is one of pads.
    fn is_beside(self, place: Place) -> bool
        ensures { result ≡ beside self place }
    {
        is_next_to(self.nx, place.x) && is_within(self.ny, place.y)
            || is_next_to(self.ny, place.y) && is_within(self.nx, place.x)
    }
}

/// Whether a number is one of these columns or rows.
fn is_within(most: u32, n: u32) -> bool
    ensures { result ≡ within most n }
{
    1 <= n && n <= most
}

/// Whether a number is one before the first of these columns or rows, or one behind the last.
fn is_next_to(most: u32, n: u32) -> bool
    requires { most ≤ SIDE_LIMIT }
    ensures { result ≡ next_to most n }
{
    n == 0 || n == most + 1
}
