//! Whether tracks may change places, and what keeps them from it.
ghost use Rattle.std.specs.Prelude.{◌≡◌, ◌≤◌, ◌<◌, ◌↔◌, IsNone, true};
ghost use Rattle.problem_facts.specs.Groups.{group_count, is_exchangeable, is_grouped, obstacle_of, track_group};

use crate::full::{Asymmetry, narrow_boxes};
use arrayvec::ArrayVec;
use fpga_bounds::PlacedProblem;
use fpga_types::{Pattern, WIDTH_LIMIT};

/// Whether groups of tracks may change places at this width, from 1 to 64: the switch blocks are
/// subset ones, where each track is a group, or universal ones, where each two tracks are that are
/// as far from the two ends, and the connection boxes of output pins, input pins and pads open
/// every track. Takes no memory.
pub fn is_exchangeable(problem: &PlacedProblem, width: u32) -> bool
    requires width { (1 ≤ width) × (width ≤ WIDTH_LIMIT) }
    ensures { result ≡ is_exchangeable width problem.now }
{
    why_not_exchangeable(problem, width).is_none()
}

/// The first of the pattern, the output pins, the input pins and the pads that keeps groups of
/// tracks from changing places at this width, from 1 to 64, or `None` where they may. Takes no
/// memory.
pub fn why_not_exchangeable(problem: &PlacedProblem, width: u32) -> Option<Asymmetry>
    requires width { (1 ≤ width) × (width ≤ WIDTH_LIMIT) }
    ensures first { result ≡ obstacle_of width problem.now }
    ensures none { IsNone result ↔ (is_exchangeable width problem.now ≡ true) }
{
    if !is_grouped(problem.arch().pattern) {
        return Some(Asymmetry::Pattern);
    }
    narrow_boxes(problem, width)
}

/// Whether the pattern has groups of tracks.
fn is_grouped(pattern: Pattern) -> bool
    ensures { result ≡ is_grouped pattern }
{
    !matches!(pattern, Pattern::Wilton)
}

/// How many groups of tracks there are.
pub fn group_count(pattern: Pattern, width: u32) -> u32
    ensures { result ≡ group_count pattern width }
{
    match pattern {
        Pattern::Subset => width,
        Pattern::Wilton => 0,
        Pattern::Universal => width / 2,
    }
}

/// The tracks of a group.
pub fn track_group(pattern: Pattern, width: u32, group: u32) -> ArrayVec<u32, 2>
    requires { group < group_count pattern width }
    ensures { result.items ≡ track_group pattern width group }
{
    let mut tracks = ArrayVec::new();
    match pattern {
        Pattern::Wilton => {}
        Pattern::Subset => tracks.push(group),
        Pattern::Universal => {
            tracks.push(group);
            tracks.push(width - 1 - group);
        }
    }
    tracks
}
