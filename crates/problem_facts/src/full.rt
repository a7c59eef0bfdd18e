//! Whether all tracks of a problem are alike, and what keeps them from it.
ghost use Rattle.std.specs.Prelude.{◌≡◌, ◌≤◌, ◌^◌, ◌==◌, ◌↔◌, IsNone, true};
ghost use Rattle.fpga_types.specs.Boxes.{box_count};
ghost use Rattle.problem_facts.specs.Full.{are_full_boxes, asymmetry_of, is_subset, is_symmetric, narrow_boxes_of};

use fpga_bounds::PlacedProblem;
use fpga_fabric::box_count;
use fpga_types::{Pattern, WIDTH_LIMIT};

/// What keeps the tracks of a problem from being alike.
#[derive(Clone, Copy)]
pub enum Asymmetry {
    /// The switch blocks are not subset ones.
    Pattern,
    /// The connection boxes of output pins do not open every track.
    Outputs,
    /// The connection boxes of input pins do not open every track.
    Inputs,
    /// The connection boxes of pads do not open every track.
    Pads,
}

/// Whether all tracks of the problem are alike at this width, from 1 to 64: its switch blocks are
/// subset ones, and the connection boxes of output pins, input pins and pads open every track. The
/// architecture decides this, whether or not it has such pins. Takes no memory.
pub fn is_symmetric(problem: &PlacedProblem, width: u32) -> bool
    requires width { (1 ≤ width) × (width ≤ WIDTH_LIMIT) }
    ensures { result ≡ is_symmetric width problem.now }
{
    why_not_symmetric(problem, width).is_none()
}

/// The first of the pattern, the output pins, the input pins and the pads that keeps the tracks of
/// the problem from being alike at this width, from 1 to 64, or `None` where they are alike. Takes
/// no memory.
pub fn why_not_symmetric(problem: &PlacedProblem, width: u32) -> Option<Asymmetry>
    requires width { (1 ≤ width) × (width ≤ WIDTH_LIMIT) }
    ensures first { result ≡ asymmetry_of width problem.now }
    ensures none { IsNone result ↔ (is_symmetric width problem.now ≡ true) }
{
    if !is_subset(problem.arch().pattern) {
        return Some(Asymmetry::Pattern);
    }
    narrow_boxes(problem, width)
}

/// The first of the output pins, the input pins and the pads whose connection boxes do not open
/// every track at this width, from 1 to 64, or `None` where all do. Takes no memory.
pub fn narrow_boxes(problem: &PlacedProblem, width: u32) -> Option<Asymmetry>
    requires width { (1 ≤ width) × (width ≤ WIDTH_LIMIT) }
    ensures first { result ≡ narrow_boxes_of width problem.now }
    ensures none { IsNone result ↔ (are_full_boxes width problem.now ≡ true) }
{
    let arch = problem.arch();
    if !is_full_box(arch.fc.fractional, width, arch.fc.output) {
        return Some(Asymmetry::Outputs);
    }
    if !is_full_box(arch.fc.fractional, width, arch.fc.input) {
        return Some(Asymmetry::Inputs);
    }
    if !is_full_box(arch.fc.fractional, width, arch.fc.pad) {
        return Some(Asymmetry::Pads);
    }
    None
}

/// Whether the switch blocks join a track to itself alone.
fn is_subset(pattern: Pattern) -> bool
    ensures { result ≡ is_subset pattern }
{
    matches!(pattern, Pattern::Subset)
}

/// Whether a box with this share of the width, in millionths, opens every track.
fn is_full_box(fractional: bool, width: u32, share: u64) -> bool
    requires width { (1 ≤ width) × (width ≤ WIDTH_LIMIT) }
    requires share { share ≤ 10 ^ 15 }
    ensures { result ≡ (box_count fractional width share == width) }
{
    box_count(fractional, width, share) == width
}
