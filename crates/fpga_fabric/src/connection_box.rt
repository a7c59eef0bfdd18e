//! Which tracks a connection box opens.
ghost use Rattle.std.specs.Prelude.{◌≡◌, ◌<◌, ◌≤◌, ◌^◌, ◌↔◌, IsTrue};
ghost use Rattle.fpga_types.specs.Boxes.{Opens, box_count, open_count, opens, pin_number};
ghost use Rattle.fpga_types.specs.Pins.{HasPin};
ghost use Rattle.fpga_fabric.specs.Laws.{IsOnSwitch, opened_count};

use fpga_types::{Arch, PinAt, WIDTH_LIMIT};

/// How many tracks of a channel of `width`, from 1 to 64, the pin's connection box opens: its share
/// of the width, rounded to the nearest, or its number of tracks, each given in millionths by the
/// architecture; at least 1 and at most all. So many tracks are open, each once. A pin of a logic
/// block is to be one of the architecture.
///
/// Takes constant time and no memory.
pub fn fc(arch: &Arch, width: u32, pin: PinAt) -> u32
    requires width { (1 ≤ width) × (width ≤ WIDTH_LIMIT) }
    requires pin { HasPin arch.now pin }
    ensures count { result ≡ open_count arch.now width pin }
    ensures within { (1 ≤ result) × (result ≤ width) }
    ensures opened { opened_count arch.now width pin ≡ result }
{
    box_tracks(arch, width, pin)
}

/// The number of tracks by the architecture's shares.
fn box_tracks(arch: &Arch, width: u32, pin: PinAt) -> u32
    requires width { (1 ≤ width) × (width ≤ WIDTH_LIMIT) }
    requires pin { HasPin arch.now pin }
    ensures count { result ≡ open_count arch.now width pin }
    ensures within { (1 ≤ result) × (result ≤ width) }
{
    match pin {
        PinAt::Pad { .. } => box_count(arch.fc.fractional, width, arch.fc.pad),
        PinAt::Pin { pin, .. } => {
            let spec = arch.pins.as_slice()[pin as usize];
            let share = if spec.output {
                arch.fc.output
            } else {
                arch.fc.input
            };
            box_count(arch.fc.fractional, width, share)
        }
    }
}

/// How many tracks of a channel of `width`, from 1 to 64, a connection box with this share opens,
/// at least 1 and at most all. The share is given in millionths: of the width, rounded to the
/// nearest, or where it is not `fractional` of one track.
///
/// Takes constant time and no memory.
pub fn box_count(fractional: bool, width: u32, share: u64) -> u32
    requires width { (1 ≤ width) × (width ≤ WIDTH_LIMIT) }
    requires share { share ≤ 10 ^ 15 }
    ensures count { result ≡ box_count fractional width share }
    ensures within { (1 ≤ result) × (result ≤ width) }
{
    let most = width as u64;
    let tracks = if fractional {
        (2 * most * share + 1000000) / 2000000
    } else {
        share / 1000000
    };
    tracks.max(1).min(most) as u32
}

/// The number that shifts the pin's switches.
fn pin_number(pin: PinAt) -> u32
    ensures { result ≡ pin_number pin }
{
    match pin {
        PinAt::Pad { sub, .. } => sub,
        PinAt::Pin { pin, .. } => pin,
    }
}

/// Whether the pin opens the track in the cells that it touches: one of its switches, which stand
/// evenly over the width from the pin's own number on, is on the track.
///
/// Takes at most as many steps as the pin opens tracks, and no memory.
pub fn opens(arch: &Arch, width: u32, pin: PinAt, track: u32) -> bool
    requires width { (1 ≤ width) × (width ≤ WIDTH_LIMIT) }
    requires pin { HasPin arch.now pin }
    ensures found { result ≡ opens arch.now width pin track }
    ensures is { IsTrue result ↔ Opens arch.now width pin track }
{
    let count = fc(arch, width, pin);
    is_on_switch(width, count, pin_number(pin), track)
}

/// Whether one of so many switches, spread evenly over the width from a number on, is on the track.
fn is_on_switch(width: u32, count: u32, number: u32, track: u32) -> bool
    requires width { (1 ≤ width) × (width ≤ WIDTH_LIMIT) }
    requires count { (1 ≤ count) × (count ≤ width) }
    ensures { IsTrue result ↔ IsOnSwitch width count number track }
{
    for k in 0..count {
        let at = (k * width / count) as u64 + number as u64;
        if (at % width as u64) as u32 == track {
            return true;
        }
    }
    false
}
