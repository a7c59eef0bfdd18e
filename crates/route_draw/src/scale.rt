//! Where things stand in a picture. From a column or a row to the next it is `TILE`, whatever the
//! width is: a block, and the channel behind it with its tracks. Rows go upwards.
ghost use Rattle.std.specs.Prelude.{◌≡◌, ◌+◌, ◌*◌, ◌≤◌};
ghost use Rattle.route_draw.specs.Wires.{track_place};
ghost use Rattle.route_draw.specs.declared.scale.TheConstants.{BLOCK, CHANNEL, TILE};

/// From the start of a column or a row to that of the next.
pub(crate) const TILE: u64 = 1000;

/// The side of a block.
pub(crate) const BLOCK: u64 = 480;

/// From one side of a channel to the other.
pub(crate) const CHANNEL: u64 = 520;

/// How deep a pad is.
pub(crate) const PAD: u64 = 300;

/// A point of the picture.
#[derive(Clone, Copy)]
pub(crate) struct Point {
    pub(crate) x: u64,
    pub(crate) y: u64,
}

impl Point {
    /// The point that is so far to the right of it, and so far above.
    pub(crate) fn moved(self, right: u64, up: u64) -> Point {
        Point {
            x: self.x.saturating_add(right),
            y: self.y.saturating_add(up),
        }
    }
}

/// Where the blocks of a column or of a row begin.
pub(crate) fn block_start(n: u32) -> u64
    ensures { result ≡ n * TILE }
{
    n as u64 * TILE
}

/// Where the channel behind a column or a row begins.
pub(crate) fn channel_start(n: u32) -> u64
    ensures { result ≡ n * TILE + BLOCK }
{
    n as u64 * TILE + BLOCK
}

/// How long a channel is along so many blocks, from its first switch block to its last.
pub(crate) fn channel_length(blocks: u32) -> u64
    ensures { result ≡ blocks * TILE + CHANNEL }
{
    blocks as u64 * TILE + CHANNEL
}

/// How long the array is along so many blocks, with the places of pads around it.
pub(crate) fn side(blocks: u32) -> u64
    ensures { result ≡ blocks * TILE + TILE + BLOCK }
{
    blocks as u64 * TILE + TILE + BLOCK
}

/// The middle of part `k` of a block's side that is cut into so many parts, from its start.
pub(crate) fn part_middle(k: u32, parts: u64) -> u64
    ensures { result ≤ BLOCK }
{
    let halves = parts.saturating_mul(2).max(1);
    (BLOCK * (2 * k as u64 + 1) / halves).min(BLOCK)
}

/// How far a track is from its channel's start, where the channel has so many.
pub(crate) fn track_place(track: u32, tracks: u64) -> u64
    ensures { result ≡ track_place track tracks }
{
    let Some(parts) = tracks.checked_add(1) else {
        return 0;
    };
    (CHANNEL * (track as u64 + 1) / parts).min(CHANNEL)
}
