//! The variables of an encoding, and the literals that say which track a slot has.
ghost use Rattle.std.specs.Prelude.{◌≡◌, ◌≤◌, ◌<◌, ◌*◌, length, take};
ghost use Rattle.fpga_types.specs.declared.limits.TheConstants.{SLOT_LIMIT, WIDTH_LIMIT};
ghost use Rattle.route_encode.specs.Encoding.{has, lacks, some_track};
ghost use Rattle.sat_clause.specs.Literal.{IsWithin};

use sat_clause::Lit;

/// The variables of an encoding, one for each track of each slot: slot by slot, from 1 on.
#[derive(Clone, Copy)]
pub struct Variables {
    /// How many slots there are, at most 200,000.
    pub slots: u32,
    /// How many tracks each of them may have, at most 64.
    pub width: u32,
    ghost few_slots: { slots ≤ SLOT_LIMIT },
    ghost few_tracks: { width ≤ WIDTH_LIMIT },
}

impl Variables {
    /// How many there are.
    pub fn count(self) -> u32
        ensures { result ≡ self.slots * self.width }
    {
        self.slots * self.width
    }

    /// The literal that says that a slot has a track: the variable `slot * width + track + 1`.
    pub fn has(self, slot: u32, track: u32) -> Lit
        requires slot { slot < self.slots }
        requires track { track < self.width }
        ensures value { result ≡ has self.width slot track }
        ensures within { IsWithin (self.slots * self.width) result }
    {
        Lit {
            code: (slot * self.width + track + 1) as i32,
        }
    }

    /// The literal that says that a slot does not have a track: its negation.
    pub fn lacks(self, slot: u32, track: u32) -> Lit
        requires slot { slot < self.slots }
        requires track { track < self.width }
        ensures value { result ≡ lacks self.width slot track }
        ensures within { IsWithin (self.slots * self.width) result }
    {
        Lit {
            code: -((slot * self.width + track + 1) as i32),
        }
    }

    /// Writes the clause that says that a slot has a track to the front of a row.
    pub(crate) fn fill_some_track(self, row: &mut [Lit], slot: u32)
        requires room { self.width ≤ length row.old }
        requires slot { slot < self.slots }
        ensures { take self.width row.new ≡ some_track self.width slot }
    {
        for track in 0..self.width {
            row[track as usize] = self.has(slot, track);
        }
    }
}
