//! Levels of a count: so many tracks, and one slot more.
ghost use Rattle.std.specs.Prelude.{◌≡◌, ◌+◌, ◌≤◌, ◌<◌, All, length, pos, slice_index};
ghost use Rattle.sat_clause.specs.declared.limits.TheConstants.{LITERAL_LIMIT};
ghost use Rattle.sat_count.specs.Places.{apart_id, name as name_of, some_id};
ghost use Rattle.sat_count.specs.declared.limits.TheConstants.{TRACK_LIMIT};

use crate::limits::TRACK_LIMIT;
use crate::pairs::pair_place;
use sat_clause::LITERAL_LIMIT;

/// So many tracks and one slot more: for each slot the variable that says that it has the first
/// track, by its number less one, behind which those of the others follow, and the id behind which
/// stand the clauses that each slot has a track, and then that no two have one.
#[derive(Drop)]
pub struct Level {
    pub tracks: u32,
    pub behind: u32,
    pub firsts: Vec<u32>,
    ghost many: { (1 ≤ tracks) × (tracks ≤ TRACK_LIMIT) },
    ghost each: { length firsts.items ≡ tracks + 1 },
    ghost few: { All (λ first. first + tracks ≤ LITERAL_LIMIT) firsts.items },
}

impl Level {
    /// The variable that the slot at a place has a track, by its number less one.
    pub fn name(&self, place: u32, track: u32) -> u32
        requires place { place ≤ self.now.tracks }
        requires track { track < self.now.tracks }
        ensures value { result ≡ name_of self.now.firsts.items place track }
        ensures few { result < LITERAL_LIMIT }
    {
        self.firsts[place as usize] + track
    }

    /// The clause that the slot at a place has a track, as a hint.
    pub fn some_track(&self, place: u32) -> i64
        requires { place ≤ self.now.tracks }
        ensures { result ≡ pos (some_id self.now.behind place) }
    {
        self.behind as i64 + place as i64 + 1
    }

    /// The clause that the slots at two places, the lower first, do not both have a track, as a
    /// hint.
    pub fn apart(&self, lower: u32, higher: u32, track: u32) -> i64
        requires lower { lower < higher }
        requires higher { higher ≤ self.now.tracks }
        requires track { track < self.now.tracks }
        ensures { result ≡ pos (apart_id self.now.behind self.now.tracks lower higher track) }
    {
        let slots = self.tracks as i64 + 1;
        let place = pair_place(self.tracks, lower, higher, track) as i64;
        self.behind as i64 + slots + place + 1
    }
}
