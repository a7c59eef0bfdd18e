//! A copy of a route with other tracks.
ghost use Rattle.std.specs.Prelude.{◌≡◌, ◌≤◌, length, map, slice_index, IfOk};
ghost use Rattle.fpga_bounds.specs.Copy.{net_with_tracks, nets_with_tracks};
ghost use Rattle.fpga_types.specs.Legal as legal;
ghost use Rattle.fpga_types.specs.Legal.{route_of};
ghost use Rattle.fpga_types.specs.Slots.{slots};

use crate::slot_table::SlotTable;
use crate::step_list::number_behind;
use fpga_types::{Elem, Items, NET_LIMIT, Name, RouteNet, RouteText};
use std::alloc::{AllocError, Global};

/// A copy of the route in which each channel line has the track of its slot.
pub(crate) fn copied_route(
    alloc: Global,
    route: &RouteText,
    table: &SlotTable,
    tracks: &[u32],
) -> Result<RouteText, AllocError>
    requires nets { length route.now.nets ≤ NET_LIMIT }
    requires slots { table.now ≡ slots route.now }
    ensures { IfOk result (λ copy. copy ≡ route_of route.now tracks.now) }
{
    let nets = copied_nets(alloc, route.nets.as_slice(), table, tracks)?;
    Ok(RouteText {
        grid: route.grid,
        grid_line: route.grid_line,
        lines: route.lines,
        nets: Items::of(nets),
    })
}

/// Copies of the nets in which each channel line has the track of its slot.
fn copied_nets(
    alloc: Global,
    nets: &[RouteNet],
    table: &SlotTable,
    tracks: &[u32],
) -> Result<Vec<RouteNet>, AllocError>
    requires { length nets.now ≤ NET_LIMIT }
    ensures { IfOk result (λ copy. copy.items ≡ nets_with_tracks table.now tracks.now nets.now) }
{
    let mut copy = Vec::with_capacity(alloc, nets.len())?;
    let mut next = 0;
    for n in 0..nets.len() {
        copy.push(copied_net(alloc, &nets[n], n as u32, table, tracks, &mut next)?)?;
    }
    Ok(copy)
}

/// A copy of the net at position `n` in which each channel line has the track of its slot. The
/// number of the slot that may come next is a guess, here and below.
fn copied_net(
    alloc: Global,
    net: &RouteNet,
    n: u32,
    table: &SlotTable,
    tracks: &[u32],
    next: &mut u32,
) -> Result<RouteNet, AllocError>
    ensures { IfOk result (λ copy. copy ≡ net_with_tracks table.now tracks.now n net.now) }
{
    let name = copied_name(alloc, &net.name)?;
    let elems = copied_elems(alloc, net.elems.as_slice(), n, table, tracks, next)?;
    let kept = copied_names(alloc, net.kept.as_slice())?;
    Ok(RouteNet {
        k: net.k,
        name,
        global: net.global,
        line: net.line,
        elems: Items::of(elems),
        kept: Items::of(kept),
    })
}

/// The elements of the net at position `n`, each channel with the track of its slot.
fn copied_elems(
    alloc: Global,
    elems: &[Elem],
    n: u32,
    table: &SlotTable,
    tracks: &[u32],
    next: &mut u32,
) -> Result<Vec<Elem>, AllocError>
    ensures { IfOk result (λ copy. copy.items
        ≡ map (legal.with_track table.now tracks.now n) elems.now) }
{
    let mut copy = Vec::with_capacity(alloc, elems.len())?;
    for e in elems {
        copy.push(with_track(*e, n, table, tracks, next))?;
    }
    Ok(copy)
}

/// The element with the track of its slot, if it is a channel.
fn with_track(e: Elem, n: u32, table: &SlotTable, tracks: &[u32], next: &mut u32) -> Elem
    ensures { result ≡ legal.with_track table.now tracks.now n e }
{
    let Some(number) = number_behind(table, n, e, next) else {
        return e;
    };
    Elem {
        number: track_at(tracks, number),
        ..e
    }
}

/// The track of a slot, or 0 past the end.
fn track_at(tracks: &[u32], slot: u32) -> u32
    ensures { result ≡ slice_index tracks.now slot }
{
    match tracks.get(slot as usize) {
        Some(track) => *track,
        None => 0,
    }
}

/// Names that are equal to these.
fn copied_names(alloc: Global, names: &[Name]) -> Result<Vec<Name>, AllocError>
    ensures { IfOk result (λ copy. copy.items ≡ names.now) }
{
    let mut copy = Vec::with_capacity(alloc, names.len())?;
    for name in names {
        copy.push(copied_name(alloc, name)?)?;
    }
    Ok(copy)
}

/// A name that is equal to this one.
fn copied_name(alloc: Global, name: &Name) -> Result<Name, AllocError>
    ensures { IfOk result (λ copy. copy ≡ name.now) }
{
    let bytes = Vec::from_slice(alloc, name.bytes.as_slice())?;
    Ok(Name {
        bytes: Items::of(bytes),
    })
}
