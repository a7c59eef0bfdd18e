//! What wires and pins cost, in 64ths of a wire that no net takes.

/// A wire that no net takes and none has fought for.
pub(crate) const WIRE: u64 = 64;
/// Such a pin: a little less.
pub(crate) const PIN: u64 = 60;
/// The factor for each net too many, in the first two rounds.
pub(crate) const PRESENT_FIRST: u64 = 32;
/// The factor for each net too many is no more.
const PRESENT_MOST: u64 = 640_000;
/// Further than any wire.
pub(crate) const FAR: u64 = (1 << 40) - 1;

/// The factor for each net too many in the round behind one with this factor.
pub(crate) fn present_after(round: u32, present: u64) -> u64 {
    if round == 0 {
        return PRESENT_FIRST;
    }
    (present.saturating_mul(147) / 128).min(PRESENT_MOST)
}
