//! Rectangles of corners, and the straight lines among their cuts.
ghost use Rattle.std.specs.Prelude.{◌≡◌, ◌↔◌, ◌*◌, ◌≤◌, IsTrue, length};
ghost use Rattle.route_bound.specs.Corners.{far_corner as far, has_corner_in, has_corner_out, near_corner as near};
ghost use Rattle.route_bound.specs.Crossing.{cut_cells};
ghost use Rattle.route_bound.specs.Ranges.{IsRange, corners_of, is_between as between, line_range, cut_size, side_count};

use fpga_types::{Axis, Cell, Grid, SwitchAt};

/// The corners from the lower left one to the upper right one, both of them included. The corners
/// of an array are its switch blocks.
#[derive(Clone, Copy)]
pub struct CornerRange {
    pub low: SwitchAt,
    pub high: SwitchAt,
}

/// Which way a straight line goes through an array: behind a column of corners, or behind a row.
#[derive(Clone, Copy)]
pub enum LineKind {
    Column,
    Row,
}

/// On which sides of a cut something lies; what is at the cut alone lies on both.
#[derive(Clone, Copy)]
pub struct Standing {
    pub inside: bool,
    pub outside: bool,
}

impl CornerRange {
    /// The corners on the left of a line behind column `number`, or below one behind row `number`.
    pub(crate) fn of_line(grid: Grid, kind: LineKind, number: u32) -> CornerRange
        ensures { result ≡ line_range grid kind number }
    {
        let low = SwitchAt { i: 0, j: 0 };
        let high = match kind {
            LineKind::Column => SwitchAt {
                i: number,
                j: grid.ny,
            },
            LineKind::Row => SwitchAt {
                i: grid.nx,
                j: number,
            },
        };
        CornerRange { low, high }
    }

    /// Whether it has a corner, and none out of the array.
    pub(crate) fn is_in(self, grid: Grid) -> bool
        ensures { IsTrue result ↔ IsRange grid self }
    {
        let columns = self.low.i <= self.high.i && self.high.i <= grid.nx;
        columns && self.low.j <= self.high.j && self.high.j <= grid.ny
    }

    /// How many cells the cut round these corners has.
    pub(crate) fn cell_count(self, grid: Grid) -> u32
        requires { IsRange grid self }
        ensures size { result ≡ cut_size grid self }
        ensures count { result ≡ length (cut_cells grid (corners_of self)) }
    {
        let Grid { nx, ny } = grid;
        let CornerRange { low, high } = self;
        let beside = times_sides(high.j + 1 - low.j, low.i, high.i, nx);
        let along = times_sides(high.i + 1 - low.i, low.j, high.j, ny);
        beside + along
    }

    /// Whether the corner is one of these.
    fn has(self, at: SwitchAt) -> bool
        ensures { result ≡ corners_of self at }
    {
        is_between(self.low.i, self.high.i, at.i) && is_between(self.low.j, self.high.j, at.j)
    }

    /// On which sides of the cut round these corners a cell lies.
    pub fn standing(self, cell: Cell) -> Standing
        ensures inside { result.inside ≡ has_corner_in (corners_of self) cell }
        ensures outside { result.outside ≡ has_corner_out (corners_of self) cell }
    {
        let near = self.has(near_corner(cell));
        let far = self.has(far_corner(cell));
        Standing {
            inside: near || far,
            outside: !near || !far,
        }
    }
}

/// So many cells on each of the two sides of a rectangle that does not lie at the array's end.
fn times_sides(count: u32, low: u32, high: u32, most: u32) -> u32
    requires { count ≤ 101 }
    ensures product { result ≡ count * side_count low high most }
    ensures most { result ≤ 202 }
{
    match (0 < low, high < most) {
        (true, true) => count * 2,
        (true, false) => count,
        (false, true) => count,
        (false, false) => 0,
    }
}

/// Whether n is one of the numbers from a to b.
fn is_between(a: u32, b: u32, n: u32) -> bool
    ensures { result ≡ between a b n }
{
    a <= n && n <= b
}

/// The corner at the left or lower end of a cell.
pub(crate) fn near_corner(cell: Cell) -> SwitchAt
    ensures { result ≡ near cell.axis cell.x cell.y }
{
    match cell.axis {
        Axis::X => SwitchAt {
            i: cell.x.saturating_sub(1),
            j: cell.y,
        },
        Axis::Y => SwitchAt {
            i: cell.x,
            j: cell.y.saturating_sub(1),
        },
    }
}

/// The corner at its right or upper end.
pub(crate) fn far_corner(cell: Cell) -> SwitchAt
    ensures { result ≡ far cell.x cell.y }
{
    SwitchAt {
        i: cell.x,
        j: cell.y,
    }
}
