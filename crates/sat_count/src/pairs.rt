//! Where clauses of two slots stand among one another.
ghost use Rattle.std.specs.Prelude.{◌≡◌, ◌*◌, ◌^◌, ◌≤◌, ◌<◌};
ghost use Rattle.sat_count.specs.Places.{pair_place as pair_place_of, pairs_below as pairs_below_of};
ghost use Rattle.sat_count.specs.declared.limits.TheConstants.{TRACK_LIMIT};

use crate::limits::TRACK_LIMIT;

/// The place of a track of two slots among those of all: by the higher slot, then the lower one.
pub(crate) fn pair_place(tracks: u32, lower: u32, higher: u32, track: u32) -> u64
    requires tracks { tracks ≤ TRACK_LIMIT }
    requires lower { lower < higher }
    requires higher { higher ≤ TRACK_LIMIT }
    requires track { track < tracks }
    ensures value { result ≡ pair_place_of tracks lower higher track }
    ensures few { result < 2 ^ 20 }
{
    let before = pairs_below(higher);
    (before + lower as u64) * tracks as u64 + track as u64
}

/// How many pairs of slots have their higher one below this.
fn pairs_below(higher: u32) -> u64
    requires { higher ≤ TRACK_LIMIT }
    ensures value { result ≡ pairs_below_of higher }
    ensures few { result ≤ TRACK_LIMIT * TRACK_LIMIT }
{
    let slots = higher as u64;
    (slots * slots - slots) / 2
}
