//! A search for wires of all nets within the cells of a global route.
ghost use Rattle.std.specs.Prelude.{◌≤◌, All, IfOk, IfSome, length};
ghost use Rattle.fpga_types.specs.declared.limits.TheConstants.{WIDTH_LIMIT};
ghost use Rattle.route_negotiate.specs.Reached.{IsReachedWithin};

use crate::fabric::Fabric;
use crate::own_nets::OwnNets;
use crate::own_rounds::{OwnSearch, slot_and_track};
use fpga_types::{Arch, RouteText, Slot};
use patience::Patience;
use std::alloc::{AllocError, Global};

/// A wire that a net holds: the number of the slot in whose cell it is, and its track; and over how
/// many joins the net's driver reaches it.
#[derive(Clone, Copy)]
pub struct ReachedWire {
    pub slot: u32,
    pub track: u32,
    pub joins: u32,
}

/// Looks for wires of all nets of a global route with these slots, in channels of so many tracks
/// from 1 to 64: for each net wires of its slots' cells over which its driver reaches each of its
/// sinks by at most so many joins, and none that another net has. Where none are found, there may
/// be some all the same.
///
/// In each round nets that share a wire are routed anew, one after another, those with most sinks
/// first: each by the cheapest paths, where a wire costs more the more nets take it, and more from
/// round to round. The patience is asked before each round: where it is over nothing is found.
/// Where it never is the answer is the same wherever and whenever it is asked.
///
/// No law says which wires are found, nor that they are what was looked for: whoever relies on them
/// has them judged. A round takes the time of the waves that nets send out, and of the wires;
/// memory is 8 bytes a wire of the array, 20 for each of the net that has most, and 8 for each that
/// a net holds.
///
/// # Errors
/// Where memory is short.
pub fn negotiate_within<P: Patience>(
    alloc: Global,
    arch: &Arch,
    route: &RouteText,
    slots: &[Slot],
    width: u32,
    reach: u32,
    rounds: u32,
    patience: &mut P,
) -> Result<Option<Vec<ReachedWire>>, AllocError>
    requires { (1 ≤ width) × (width ≤ WIDTH_LIMIT) }
    ensures { IfOk result (λ found. IfSome found
        (λ wires. All (IsReachedWithin (length slots.now) width reach) wires.items)) }
{
    let fabric = Fabric::new(alloc, arch, route.grid, width)?;
    let nets = OwnNets::new(alloc, arch, route, slots, width, fabric.cells())?;
    let mut search = OwnSearch::new(alloc, &fabric, &nets, reach)?;
    if !search.run(rounds, patience)? {
        return Ok(None);
    }
    let wires = reached_wires(alloc, &search, slots, width, reach)?;
    Ok(Some(wires))
}

/// The wires of all trees.
fn reached_wires(
    alloc: Global,
    search: &OwnSearch<'_>,
    slots: &[Slot],
    width: u32,
    reach: u32,
) -> Result<Vec<ReachedWire>, AllocError>
    ensures { IfOk result
        (λ wires. All (IsReachedWithin (length slots.now) width reach) wires.items) }
{
    let mut wires = Vec::new(alloc);
    for net in 0..search.nets.count() {
        add_tree(&mut wires, search, net, slots, width, reach)?;
    }
    Ok(wires)
}

/// Adds the wires of a tree.
fn add_tree(
    wires: &mut Vec<ReachedWire>,
    search: &OwnSearch<'_>,
    net: usize,
    slots: &[Slot],
    width: u32,
    reach: u32,
) -> Result<(), AllocError>
    requires { All (IsReachedWithin (length slots.now) width reach) wires.old.items }
    ensures { All (IsReachedWithin (length slots.now) width reach) wires.new.items }
{
    for grown in search.tree(net) {
        let (slot, track) = slot_and_track(search.nets.net(net), grown.wire, width);
        let joins = grown.joins;
        if (slot as usize) < slots.len() && track < width && joins <= reach {
            wires.push(ReachedWire { slot, track, joins })?;
        }
    }
    Ok(())
}
