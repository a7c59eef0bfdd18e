//! How many slots are counted.

/// The greatest number of tracks.
pub const TRACK_LIMIT: u32 = 64;

/// The greatest number of slots that are counted: one more than there are tracks at most.
pub const COUNTED_LIMIT: usize = 65;
