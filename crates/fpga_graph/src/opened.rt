//! The tracks that a pin opens, as a row of marks.
ghost use Rattle.std.specs.Prelude.{◌≡◌, ◌==◌, ◌≤◌, ℕ, false, slice_index_or};
ghost use Rattle.std.specs.List.{list_any, range_with_len};
ghost use Rattle.fpga_types.specs.Boxes.{opens, pin_number, switch_track};
ghost use Rattle.fpga_types.specs.Pins.{HasPin};

use fpga_fabric::fc;
use fpga_types::{Arch, PinAt, WIDTH_LIMIT};

/// The greatest number of tracks of a channel, as the length of a row of marks.
pub const MOST_TRACKS: usize = 64;

/// For each track whether the pin opens it.
pub(crate) fn opened_row(arch: &Arch, width: u32, pin: PinAt) -> [bool; MOST_TRACKS]
    requires width { (1 ≤ width) × (width ≤ WIDTH_LIMIT) }
    requires pin { HasPin arch.now pin }
    ensures { (t : ℕ) → slice_index_or result t false ≡ opens arch.now width pin t }
{
    let count = fc(arch, width, pin);
    switch_row(width, count, pin_number(pin))
}

/// The number that shifts the pin's switches.
fn pin_number(pin: PinAt) -> u32
    ensures { result ≡ pin_number pin }
{
    match pin {
        PinAt::Pad { sub, .. } => sub,
        PinAt::Pin { pin, .. } => pin,
    }
}

/// For each track whether one of so many switches, spread evenly over the width from a number on,
/// is on it.
fn switch_row(width: u32, count: u32, number: u32) -> [bool; MOST_TRACKS]
    requires width { (1 ≤ width) × (width ≤ WIDTH_LIMIT) }
    requires count { (1 ≤ count) × (count ≤ width) }
    ensures { (t : ℕ) → slice_index_or result t false
        ≡ list_any (λ k. switch_track width count number k == t) (range_with_len 0 count) }
{
    let mut row = [false; MOST_TRACKS];
    for k in 0..count {
        let at = (k * width / count) as u64 + number as u64;
        row[(at % width as u64) as usize] = true;
    }
    row
}
