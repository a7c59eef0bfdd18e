//! How much is looked at for a crowd.

/// The greatest number of trees of a crowd: twice that of the tracks.
pub const CROWD_LIMIT: usize = 128;

/// How many entries of its tables the search for a crowd looks at.
pub const LOOK_LIMIT: u64 = 67_108_864;

/// How many trees that meet one are looked at for a crowd with it.
pub const MET_LIMIT: usize = 4_096;
