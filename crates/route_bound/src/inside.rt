//! Whether a terminal lies inside of a cut.
ghost use Rattle.std.specs.Prelude.{◌≡◌};
ghost use Rattle.route_bound.specs.Corners.{has_corner_in};
ghost use Rattle.route_bound.specs.Lying.{lies_in};
ghost use Rattle.route_bound.specs.Ranges.{corners_of};
ghost use Rattle.route_bound.specs.Reaches.{reach_of, terminal_sides as sides_of};

use crate::range::CornerRange;
use crate::reach::{Reach, class_sides, pad_sides};
use fpga_types::{Arch, Grid, Label, SideSet, Terminal};

/// Whether each cell that the terminal touches has one of these corners.
///
/// Takes time for each pin of a logic block, and no memory.
pub fn is_inside(arch: &Arch, grid: Grid, range: CornerRange, at: Terminal) -> bool
    ensures { result ≡ lies_in arch.now grid (has_corner_in (corners_of range)) at }
{
    let reach = terminal_reach(arch, grid, at);
    reach.standing(range).inside
}

/// The cells that a terminal touches.
fn terminal_reach(arch: &Arch, grid: Grid, at: Terminal) -> Reach
    ensures { result ≡ reach_of arch.now grid at }
{
    let sides = terminal_sides(arch, grid, at);
    Reach::along(grid, at.x, at.y, sides)
}

/// The sides that the pins of a terminal are on.
fn terminal_sides(arch: &Arch, grid: Grid, at: Terminal) -> SideSet
    ensures { result ≡ sides_of arch.now grid at.x at.y at.label at.number }
{
    match at.label {
        Label::Class => class_sides(arch.pins.as_slice(), at.number),
        Label::Pad => pad_sides(grid, at.x, at.y),
        Label::Pin | Label::Track => SideSet {
            left: false,
            right: false,
            bottom: false,
            top: false,
        },
    }
}
