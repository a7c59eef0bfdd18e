//! Which tracks a switch block joins.
ghost use Rattle.std.specs.Prelude.{◌≡◌, ◌≢◌, ◌<◌, ◌≤◌};
ghost use Rattle.fpga_fabric.specs.Laws.{IsMappedAlone};
ghost use Rattle.fpga_types.specs.Tracks.{mapped_track, universal_track, wilton_track};

use fpga_types::{Pattern, Side, WIDTH_LIMIT};

/// The track on side `to` of a switch block that `track` of side `from` is joined to, in a channel
/// of `width` tracks, from 1 to 64. Back from `to` to `from` it leads to `track` again, and no
/// other track of `from` leads to it. The same holds at the border of the array.
///
/// *Subset* is the disjoint block of VPR 4.30; *Wilton* follows Wilton's thesis (1997) as this
/// project has it, and *universal* the blocks of Chang, Wong and Wong (1996): `docs/FORMATS.md` has
/// the tables. Takes constant time and no memory.
pub fn joined_track(pattern: Pattern, width: u32, from: Side, to: Side, track: u32) -> u32
    requires sides { from ≢ to }
    requires width { (1 ≤ width) × (width ≤ WIDTH_LIMIT) }
    requires track { track < width }
    ensures joined { result ≡ mapped_track pattern width from to track }
    ensures within { result < width }
    ensures back { mapped_track pattern width to from result ≡ track }
    ensures alone { IsMappedAlone (mapped_track pattern width) width from to track result }
{
    match pattern {
        Pattern::Subset => track,
        Pattern::Wilton => wilton_track(width, from, to, track),
        Pattern::Universal => universal_track(width, from, to, track),
    }
}

/// The track of the Wilton table.
fn wilton_track(width: u32, from: Side, to: Side, track: u32) -> u32
    requires width { (1 ≤ width) × (width ≤ WIDTH_LIMIT) }
    requires track { track < width }
    ensures { result ≡ wilton_track width from to track }
{
    match (from, to) {
        (Side::Left, Side::Top) | (Side::Top, Side::Left) => (width - track) % width,
        (Side::Left, Side::Bottom) | (Side::Right, Side::Top) => (width + track - 1) % width,
        (Side::Bottom, Side::Left) | (Side::Top, Side::Right) => (track + 1) % width,
        (Side::Right, Side::Bottom) | (Side::Bottom, Side::Right) => {
            (2 * width - 2 - track) % width
        }
        _ => track,
    }
}

/// The track of the universal table.
fn universal_track(width: u32, from: Side, to: Side, track: u32) -> u32
    requires { track < width }
    ensures { result ≡ universal_track width from to track }
{
    match (from, to) {
        (Side::Left, Side::Top)
        | (Side::Top, Side::Left)
        | (Side::Right, Side::Bottom)
        | (Side::Bottom, Side::Right) => width - 1 - track,
        _ => track,
    }
}
