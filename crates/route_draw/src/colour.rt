//! Colours of nets.
ghost use Rattle.std.specs.Prelude.{◌≡◌, ◌++◌, ◌≤◌, OnOk, string_bytes};
ghost use Rattle.route_draw.specs.Colour.{colour_of, rgb, share_of, step_of, strength_of};

use std::alloc::AllocError;

/// Appends the colour of a net: the hue goes round in large steps, so that nets of near numbers are
/// far apart. Each 360 nets the lightness goes one of three steps on, and from the last to the
/// first: none of these comes near to black or to white. Green, which looks lighter than red and
/// blue, has two thirds of their strength.
pub(crate) fn append_colour(out: &mut String, net: u32) -> Result<(), AllocError>
    ensures { OnOk result (string_bytes out.new ≡ string_bytes out.old ++ colour_of net) }
{
    let red = strength(net, share(net, 0) * 3);
    let green = strength(net, share(net, 240) * 2);
    let blue = strength(net, share(net, 120) * 3);
    append_rgb(out, red, green, blue)
}

fn append_rgb(out: &mut String, red: u64, green: u64, blue: u64) -> Result<(), AllocError>
    ensures { OnOk result (string_bytes out.new ≡ string_bytes out.old ++ rgb red green blue) }
{
    write!(out, "rgb({red},{green},{blue})")
}

// How many sixtieths of a primary colour the hue of a net has, by the turn of that colour from red.
fn share(net: u32, turn: u64) -> u64
    requires turn { turn ≤ 360 }
    ensures of { result ≡ share_of net turn }
    ensures few { result ≤ 60 }
{
    let degrees = (net as u64 * 137 + turn) % 360;
    degrees.abs_diff(180).saturating_sub(60).min(60)
}

// How strong a primary colour is that has so many of 180 parts.
fn strength(net: u32, parts: u64) -> u64
    requires parts { parts ≤ 180 }
    ensures { result ≡ strength_of net parts }
{
    match step(net) {
        0 => parts * 200 / 180,
        1 => parts * 105 / 180 + 35,
        _ => parts * 125 / 180 + 55,
    }
}

// How many steps of lightness the colour of a net is from the first.
fn step(net: u32) -> u32
    ensures { result ≡ step_of net }
{
    net / 360 % 3
}
