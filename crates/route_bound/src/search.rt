//! Rectangles of corners whose cuts are full, the fullest first. Which one is found is promised
//! nowhere.

ghost use Rattle.std.specs.Prelude.{◌≤◌};

use crate::placed::PlacedNets;
use crate::range::CornerRange;
use crate::reach::Reach;
use fpga_types::{Grid, Net, SwitchAt};
use std::alloc::{AllocError, Global};
use std::collections::BTreeSet;

/// How many rectangles are looked at, at most.
const RECTANGLE_LIMIT: u64 = 4_000;

/// How many terminals are looked at in all of them, at most, beyond those of the lines.
const TERMINAL_LIMIT: u64 = 60_000_000;

/// How many parts of a cell's share of nets are told apart.
const SHARES: u64 = 1 << 20;

/// The columns and rows of corners at which a rectangle begins and ends.
#[derive(Clone, Copy, PartialEq, Eq, PartialOrd, Ord)]
struct Edges {
    left: u32,
    right: u32,
    bottom: u32,
    top: u32,
}

/// A rectangle, and how many nets cross its cut for each cell, in shares.
#[derive(Clone, Copy, PartialEq, Eq, PartialOrd, Ord)]
struct Candidate {
    fullness: u64,
    edges: Edges,
}

/// The cells that the driver and the sinks of a net touch, in this order, and corners among which
/// all of theirs are.
#[derive(Drop)]
struct Touched {
    reaches: Vec<Reach>,
    corners: CornerRange,
}

/// A search: for each net the cells that its driver and its sinks touch, the rectangles that were
/// looked at, those whose neighbors were not, the fullest so far, and how many may be looked at
/// yet.
#[derive(Drop)]
struct Search {
    grid: Grid,
    nets: Vec<Touched>,
    seen: BTreeSet<Edges>,
    open: BTreeSet<Candidate>,
    best: Candidate,
    left: u64,
}

/// A rectangle whose cut is as full as the search finds one: it begins with the straight lines and
/// with squares all over the array, and goes on at the fullest rectangle of which no neighbor was
/// looked at.
///
/// # Errors
/// Where memory is short.
pub(crate) fn full_rectangle(
    alloc: Global,
    placed: &PlacedNets<'_>,
) -> Result<CornerRange, AllocError> {
    let mut search = Search::new(alloc, placed)?;
    search.look_at_lines()?;
    search.look_at_squares()?;
    for _ in 0..RECTANGLE_LIMIT {
        let Some(fullest) = search.open.pop_last() else {
            break;
        };
        search.look_around(fullest.edges)?;
    }
    Ok(search.best.edges.range())
}

impl Search {
    /// A search that has not begun.
    fn new(alloc: Global, placed: &PlacedNets<'_>) -> Result<Search, AllocError> {
        let nets = nets_of(alloc, placed)?;
        let left = look_count(&nets);
        let edges = Edges {
            left: 0,
            right: 0,
            bottom: 0,
            top: 0,
        };
        Ok(Search {
            grid: placed.placement.grid,
            nets,
            seen: BTreeSet::new(alloc),
            open: BTreeSet::new(alloc),
            best: Candidate { fullness: 0, edges },
            left,
        })
    }

    /// Looks at the straight lines.
    fn look_at_lines(&mut self) -> Result<(), AllocError> {
        let Grid { nx, ny } = self.grid;
        for right in 0..nx {
            self.look_at(0, right, 0, ny)?;
        }
        for top in 0..ny {
            self.look_at(0, nx, 0, top)?;
        }
        Ok(())
    }

    /// Looks at squares of each size that is a power of two, side by side.
    fn look_at_squares(&mut self) -> Result<(), AllocError> {
        self.look_at_tiles(32)?;
        self.look_at_tiles(16)?;
        self.look_at_tiles(8)?;
        self.look_at_tiles(4)?;
        self.look_at_tiles(2)?;
        self.look_at_tiles(1)
    }

    /// Looks at squares of one size, side by side.
    fn look_at_tiles(&mut self, size: u32) -> Result<(), AllocError>
        requires { 1 ≤ size }
    {
        let Grid { nx, .. } = self.grid;
        for column in 0..nx / size + 1 {
            self.look_at_column(size, column.saturating_mul(size))?;
        }
        Ok(())
    }

    /// Looks at squares of one size, one above the other.
    fn look_at_column(&mut self, size: u32, left: u32) -> Result<(), AllocError>
        requires { 1 ≤ size }
    {
        let Grid { nx, ny } = self.grid;
        let right = left.saturating_add(size - 1).min(nx);
        for row in 0..ny / size + 1 {
            let bottom = row.saturating_mul(size);
            let top = bottom.saturating_add(size - 1).min(ny);
            self.look_at(left, right, bottom, top)?;
        }
        Ok(())
    }

    /// Looks at the rectangles of which one edge lies one corner on.
    fn look_around(&mut self, edges: Edges) -> Result<(), AllocError> {
        let Edges {
            left,
            right,
            bottom,
            top,
        } = edges;
        self.look_at(left.saturating_sub(1), right, bottom, top)?;
        self.look_at(left.saturating_add(1), right, bottom, top)?;
        self.look_at(left, right.saturating_sub(1), bottom, top)?;
        self.look_at(left, right.saturating_add(1), bottom, top)?;
        self.look_at(left, right, bottom.saturating_sub(1), top)?;
        self.look_at(left, right, bottom.saturating_add(1), top)?;
        self.look_at(left, right, bottom, top.saturating_sub(1))?;
        self.look_at(left, right, bottom, top.saturating_add(1))
    }

    /// Looks at a rectangle of the array, unless it was looked at or the search is at its end.
    fn look_at(&mut self, left: u32, right: u32, bottom: u32, top: u32) -> Result<(), AllocError> {
        let edges = Edges {
            left,
            right,
            bottom,
            top,
        };
        let range = edges.range();
        if self.left == 0 {
            return Ok(());
        }
        if !range.is_in(self.grid) {
            return Ok(());
        }
        if !self.seen.insert(edges)? {
            return Ok(());
        }
        self.left -= 1;
        let cells = u64::from(range.cell_count(self.grid));
        if cells == 0 {
            return Ok(());
        }
        let nets = count_crossing(&self.nets, range);
        self.keep(Candidate {
            fullness: nets.saturating_mul(SHARES) / cells,
            edges,
        })
    }

    /// Keeps a rectangle that was looked at.
    fn keep(&mut self, candidate: Candidate) -> Result<(), AllocError> {
        if candidate.fullness > self.best.fullness {
            self.best = candidate;
        }
        self.open.insert(candidate)?;
        Ok(())
    }
}

impl Edges {
    /// The corners of the rectangle.
    fn range(self) -> CornerRange {
        CornerRange {
            low: SwitchAt {
                i: self.left,
                j: self.bottom,
            },
            high: SwitchAt {
                i: self.right,
                j: self.top,
            },
        }
    }
}

/// For each net, the cells that its driver and its sinks touch.
fn nets_of(alloc: Global, placed: &PlacedNets<'_>) -> Result<Vec<Touched>, AllocError> {
    let mut nets = Vec::new(alloc);
    for net in placed.netlist.nets.as_slice() {
        let reaches = reaches_of(alloc, placed, net)?;
        let corners = corners_of(reaches.as_slice());
        nets.push(Touched { reaches, corners })?;
    }
    Ok(nets)
}

/// The cells that the driver and the sinks of a net touch; none of a global net or one without a
/// driver.
fn reaches_of(alloc: Global, placed: &PlacedNets<'_>, net: &Net) -> Result<Vec<Reach>, AllocError> {
    let mut reaches = Vec::new(alloc);
    let Some(driver) = placed.driver_reach(net) else {
        return Ok(reaches);
    };
    reaches.push(driver)?;
    for pin in net.sinks.as_slice() {
        if let Some(sink) = placed.reach(*pin) {
            reaches.push(sink)?;
        }
    }
    Ok(reaches)
}

/// Corners among which all are of the cells that are touched: those round the places, and all there
/// are where one touches none.
fn corners_of(reaches: &[Reach]) -> CornerRange {
    let mut low = SwitchAt {
        i: u32::MAX,
        j: u32::MAX,
    };
    let mut high = SwitchAt { i: 0, j: 0 };
    for reach in reaches {
        let Reach { x, y, sides } = *reach;
        if !(sides.left || sides.right || sides.bottom || sides.top) {
            return CornerRange {
                low: SwitchAt { i: 0, j: 0 },
                high: SwitchAt {
                    i: u32::MAX,
                    j: u32::MAX,
                },
            };
        }
        low.i = low.i.min(x.saturating_sub(1));
        low.j = low.j.min(y.saturating_sub(1));
        high.i = high.i.max(x);
        high.j = high.j.max(y);
    }
    CornerRange { low, high }
}

/// How many rectangles may be looked at.
fn look_count(nets: &[Touched]) -> u64 {
    let mut terminals = 1u64;
    for net in nets {
        terminals = terminals.saturating_add(net.reaches.len() as u64);
    }
    RECTANGLE_LIMIT.min(TERMINAL_LIMIT / terminals.max(1))
}

/// How many nets cross the cut round these corners.
fn count_crossing(nets: &[Touched], range: CornerRange) -> u64 {
    let mut count = 0u64;
    for net in nets {
        if is_on_one_side(net.corners, range) {
            continue;
        }
        if crosses(net.reaches.as_slice(), range) {
            count = count.saturating_add(1);
        }
    }
    count
}

/// Whether all of these corners are in a range, or none.
fn is_on_one_side(corners: CornerRange, range: CornerRange) -> bool {
    let CornerRange { low, high } = range;
    let beside = corners.high.i < low.i || high.i < corners.low.i;
    let above_or_below = corners.high.j < low.j || high.j < corners.low.j;
    let within_columns = low.i <= corners.low.i && corners.high.i <= high.i;
    let within_rows = low.j <= corners.low.j && corners.high.j <= high.j;
    beside || above_or_below || within_columns && within_rows
}

/// Whether a sink lies across the cut from the driver.
fn crosses(reaches: &[Reach], range: CornerRange) -> bool {
    let Some((driver, sinks)) = reaches.split_first() else {
        return false;
    };
    let driver = driver.standing(range);
    for sink in sinks {
        if driver.is_across_from(sink.standing(range)) {
            return true;
        }
    }
    false
}
