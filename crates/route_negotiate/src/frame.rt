//! Places, and the rectangle in which a net is routed.

/// A place in half blocks. A block has two even numbers, a cell of a row an odd second one, and a
/// cell of a column an odd first one: two cells that meet are two steps apart, and a block is one
/// step from the cells along its sides.
#[derive(Clone, Copy)]
pub(crate) struct Point {
    pub x: u32,
    pub y: u32,
}

impl Point {
    /// How many steps lie between two places.
    pub(crate) fn steps_to(self, other: Point) -> u32 {
        self.x
            .abs_diff(other.x)
            .saturating_add(self.y.abs_diff(other.y))
    }
}

/// The places from one to another.
#[derive(Clone, Copy)]
pub(crate) struct Frame {
    left: u32,
    right: u32,
    low: u32,
    high: u32,
}

impl Frame {
    /// The rectangle round no place.
    pub(crate) fn empty() -> Frame {
        Frame {
            left: u32::MAX,
            right: 0,
            low: u32::MAX,
            high: 0,
        }
    }

    /// The same with this place in it.
    pub(crate) fn with(self, at: Point) -> Frame {
        Frame {
            left: self.left.min(at.x),
            right: self.right.max(at.x),
            low: self.low.min(at.y),
            high: self.high.max(at.y),
        }
    }

    /// The same with so many blocks more on each side.
    pub(crate) fn wider(self, blocks: u32) -> Frame {
        let more = blocks.saturating_mul(2).saturating_add(1);
        Frame {
            left: self.left.saturating_sub(more),
            right: self.right.saturating_add(more),
            low: self.low.saturating_sub(more),
            high: self.high.saturating_add(more),
        }
    }

    /// Whether the place is in it.
    pub(crate) fn has(self, at: Point) -> bool {
        self.left <= at.x && at.x <= self.right && self.low <= at.y && at.y <= self.high
    }

    /// How many steps the place is away from it.
    pub(crate) fn steps_to(self, at: Point) -> u32 {
        away(at.x, self.left, self.right).saturating_add(away(at.y, self.low, self.high))
    }
}

/// How far the number is from those between two others.
fn away(x: u32, low: u32, high: u32) -> u32 {
    low.saturating_sub(x).max(x.saturating_sub(high))
}
