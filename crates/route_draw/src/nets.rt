//! The nets of a route.
ghost use Rattle.std.specs.Prelude.{◌≡◌, IfOk, OnOk, string_bytes};
ghost use Rattle.route_draw.specs.Blamed.{blame_of};
ghost use Rattle.route_draw.specs.Colour.{colour_of};
ghost use Rattle.route_draw.specs.Parts.{Adds, AreParts};
ghost use Rattle.route_draw.specs.Picture.{IsRouted};
ghost use Rattle.route_draw.specs.Wires.{AreLanes, AreWires, Layout};

use crate::colour::append_colour;
use crate::emphasis::Emphasis;
use crate::group::{Label, append_group};
use crate::joints::rest_drawn;
use crate::lanes::Lanes;
use crate::wires::append_wires;
use fpga_types::{Arch, Elem, Grid, RouteNet};
use std::alloc::{AllocError, Global};

/// Appends each net of the route that is not global, in a colour of its own and with its mark.
pub(crate) fn append_nets<'a>(
    out: &mut String,
    alloc: Global,
    arch: &Arch,
    grid: Grid,
    lanes: &mut Lanes,
    emphasis: &Emphasis<'a>,
    nets: &'a [RouteNet],
) -> Result<(), AllocError>
    ensures { OnOk result ((layout : Layout) → AreLanes layout lanes.old →
        Adds (AreParts (IsRouted layout (blame_of emphasis.now)) nets.now) (string_bytes out.old)
        (string_bytes out.new)) }
{
    let mut number = 0u32;
    for net in nets {
        lanes.enter(net.elems.as_slice());
        append_net(out, alloc, arch, grid, lanes, emphasis, net, number)?;
        number = number.saturating_add(1);
    }
    Ok(())
}

// Appends a net if it is not global.
fn append_net<'a>(
    out: &mut String,
    alloc: Global,
    arch: &Arch,
    grid: Grid,
    lanes: &Lanes,
    emphasis: &Emphasis<'a>,
    net: &'a RouteNet,
    number: u32,
) -> Result<(), AllocError>
    ensures { OnOk result ((layout : Layout) → AreLanes layout lanes.now →
        Adds (IsRouted layout (blame_of emphasis.now) net.now) (string_bytes out.old)
        (string_bytes out.new)) }
{
    if net.global {
        return Ok(());
    }
    let colour = colour(alloc, number)?;
    let drawn = net_drawn(alloc, arch, grid, lanes, net.elems.as_slice())?;
    let name = net.name.bytes.as_slice();
    let label = Label {
        mark: emphasis.mark(name),
        class: "n\" stroke=\"",
        colour: colour.as_str(),
        name,
    };
    append_group(out, label, drawn.as_str())?;
    Ok(())
}

// The colour of a net.
fn colour(alloc: Global, number: u32) -> Result<String, AllocError>
    ensures { IfOk result (λ colour. string_bytes colour ≡ colour_of number) }
{
    let mut out = String::new(alloc);
    append_colour(&mut out, number)?;
    Ok(out)
}

// The paths of a net: its wires and what joins them, its switches, and the pin that drives it.
fn net_drawn(
    alloc: Global,
    arch: &Arch,
    grid: Grid,
    lanes: &Lanes,
    elems: &[Elem],
) -> Result<String, AllocError>
    ensures { IfOk result (λ drawn. (layout : Layout) → AreLanes layout lanes.now →
        AreWires layout elems.now (string_bytes drawn)) }
{
    let rest = rest_drawn(alloc, arch, grid, lanes, elems)?;
    let mut out = String::new(alloc);
    out.push_str("<path d=\"")?;
    append_wires(&mut out, lanes, elems)?;
    out.push_str(rest.as_str())?;
    Ok(out)
}
