//! In which order the start tracks of a net are tried.

/// The first of the start tracks that a net tries in a round.
pub(crate) fn first_start(net: u32, round: u32, seed: u32, width: u32) -> u32 {
    let mixed = net
        .wrapping_mul(2_654_435_761)
        .wrapping_add(round.wrapping_mul(2_246_822_519))
        .wrapping_add(seed.wrapping_mul(3_266_489_917));
    if width == 0 { 0 } else { (mixed >> 16) % width }
}
