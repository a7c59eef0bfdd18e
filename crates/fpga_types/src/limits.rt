//! The limits of what is read and routed.

/// The greatest number of columns or rows of an array.
pub const SIDE_LIMIT: u32 = 100;

/// The greatest number of nets of a route.
pub const NET_LIMIT: usize = 65_535;

/// The greatest number of slots of a route.
pub const SLOT_LIMIT: usize = 200_000;

/// The greatest number of steps of a route. They would take 8 TiB.
pub const STEP_LIMIT: usize = 1 << 40;

/// The greatest number of tracks of a channel.
pub const WIDTH_LIMIT: u32 = 64;

/// The greatest number of joins within which a net may be asked to reach its sinks.
pub const REACH_LIMIT: u32 = 64;

/// The greatest number of pads at a place of the border.
pub const PAD_LIMIT: u32 = 16;

/// The greatest number of pins of a logic block.
pub const PIN_LIMIT: usize = 64;

/// The greatest class of a pin.
pub const CLASS_LIMIT: u32 = 63;

/// The greatest share of an FcSpec, in millionths.
pub const SHARE_LIMIT: u64 = 1_000_000_000_000_000;
