//! The windows that are looked at. Which these are is promised nowhere.
ghost use Rattle.std.specs.Prelude.{◌≤◌};

use fpga_types::{Grid, SwitchAt};
use route_bound::CornerRange;

/// The greatest square.
const SIZE_LIMIT: u32 = 5;

/// How many sizes of squares there are.
const SIZES: u32 = 4;

/// How many blocks the side of the smallest square has.
pub(crate) fn first_size() -> u32 {
    2
}

/// How many blocks the side of the greatest square of an array has: no more than the array, but
/// where that is smaller than the smallest square.
pub(crate) fn last_size(grid: Grid) -> u32
    ensures { result ≤ SIZE_LIMIT }
{
    grid.nx.max(grid.ny).max(first_size()).min(SIZE_LIMIT)
}

/// How many blocks on the next square of a size stands, where there are to be so many windows of
/// all sizes at the most; one of each size there is in any case.
pub(crate) fn stride(grid: Grid, looks: u32) -> u32 {
    let Grid { nx, ny } = grid;
    let most = looks / SIZES;
    for stride in 1..101 {
        if ((nx + stride - 1) / stride) * ((ny + stride - 1) / stride) <= most {
            return stride;
        }
    }
    100
}

/// The corners of the window round a square of so many blocks, of which the lower left one has so
/// many to its left and below it: those of the blocks, and one more on each side. None where no
/// such block is in the array.
pub(crate) fn square(grid: Grid, size: u32, left: u32, bottom: u32) -> Option<CornerRange> {
    let Grid { nx, ny } = grid;
    if nx <= left || ny <= bottom {
        return None;
    }
    let low = SwitchAt {
        i: left.saturating_sub(1),
        j: bottom.saturating_sub(1),
    };
    let high = SwitchAt {
        i: left.saturating_add(size).saturating_add(1).min(nx),
        j: bottom.saturating_add(size).saturating_add(1).min(ny),
    };
    Some(CornerRange { low, high })
}
