//! The nets that cross the cut round a rectangle of corners.
ghost use Rattle.std.specs.Prelude.{◌≡◌, ◌≤◌, [], ◌∷◌, ◌++◌, IfOk, OnOk, if◌then◌else◌, length};
ghost use Rattle.std.specs.List.{list_any};
ghost use Rattle.route_bound.specs.Crossing.{crosses, crossing};
ghost use Rattle.route_bound.specs.Placed.{placed_netlist};
ghost use Rattle.route_bound.specs.Ranges.{corners_of};
ghost use Rattle.route_bound.specs.Standings.{is_sink_across, lie_across};

use crate::placed::PlacedNets;
use crate::range::{CornerRange, Standing};
use fpga_types::{Arch, Items, NET_LIMIT, Net, Netlist, PinRef, Placement};
use std::alloc::{AllocError, Global};

/// The numbers of the nets that cross the cut round these corners, in the order of the netlist. A
/// net crosses it if it is not global, and if its driver and one of its sinks lie on different
/// sides of the cut or one of the two at the cut alone. What lies at the cut is on both sides.
///
/// Takes time for each pin of a net, and memory for the numbers alone.
///
/// # Errors
/// Where memory is short.
pub fn crossing_nets(
    alloc: Global,
    arch: &Arch,
    netlist: &Netlist,
    placement: &Placement,
    range: CornerRange,
) -> Result<Items<u32>, AllocError>
    requires { length netlist.now.nets ≤ NET_LIMIT }
    ensures { IfOk result (λ numbers. numbers
        ≡ crossing (placed_netlist arch.now netlist.now placement.now) (corners_of range)) }
{
    let placed = PlacedNets::of(alloc, arch, netlist, placement)?;
    let numbers = placed.crossing(alloc, range)?;
    Ok(Items::of(numbers))
}

impl<'a> PlacedNets<'a> {
    /// The numbers of the nets that cross the cut round these corners.
    ///
    /// # Errors
    /// Where memory is short.
    pub fn crossing(&self, alloc: Global, range: CornerRange) -> Result<Vec<u32>, AllocError>
        requires { length self.now.netlist.nets ≤ NET_LIMIT }
        ensures { IfOk result (λ numbers. numbers.items ≡ crossing self.now (corners_of range)) }
    {
        let mut numbers = Vec::new(alloc);
        for (number, net) in self.netlist.nets.as_slice().iter().enumerate() {
            self.add_crossing(&mut numbers, range, number as u32, net)?;
        }
        Ok(numbers)
    }

    /// Adds the number of a net that crosses.
    fn add_crossing(
        &self,
        numbers: &mut Vec<u32>,
        range: CornerRange,
        number: u32,
        net: &Net,
    ) -> Result<(), AllocError>
        ensures { OnOk result (numbers.new.items ≡ numbers.old.items
            ++ (if crosses self.now (corners_of range) net.now then number ∷ [] else [])) }
    {
        if !self.crosses(range, net) {
            return Ok(());
        }
        numbers.push(number)?;
        Ok(())
    }

    /// Whether a net is an ordinary one that crosses the cut round these corners.
    pub fn crosses(&self, range: CornerRange, net: &Net) -> bool
        ensures { result ≡ crosses self.now (corners_of range) net.now }
    {
        if net.global {
            return false;
        }
        let Some(pin) = net.driver else {
            return false;
        };
        let Some(driver) = self.reach(pin) else {
            return false;
        };
        self.has_sink_across(range, driver.standing(range), net.sinks.as_slice())
    }

    /// Whether one of these sinks lies across the cut from a driver.
    fn has_sink_across(&self, range: CornerRange, driver: Standing, sinks: &[PinRef]) -> bool
        ensures { result
            ≡ list_any (is_sink_across self.now (corners_of range) driver) sinks.now }
    {
        sinks
            .iter()
            .any(|pin| self.is_sink_across(range, driver, *pin))
    }

    /// Whether the sink at this pin is there, and lies across the cut from a driver.
    fn is_sink_across(&self, range: CornerRange, driver: Standing, pin: PinRef) -> bool
        ensures { result ≡ is_sink_across self.now (corners_of range) driver pin }
    {
        let Some(sink) = self.reach(pin) else {
            return false;
        };
        driver.is_across_from(sink.standing(range))
    }
}

impl Standing {
    /// Whether one of the two lies inside and one outside; both may be the same one, at the cut.
    pub(crate) fn is_across_from(self, other: Standing) -> bool
        ensures { result ≡ lie_across self other }
    {
        (self.inside || other.inside) && (self.outside || other.outside)
    }
}
