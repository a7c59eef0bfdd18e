//! Values that a negotiation for wires comes to.
ghost use Rattle.std.specs.Prelude.{◌≡◌, ◌≤◌, IfOk, IfSome, length};
ghost use Rattle.fpga_types.specs.declared.limits.TheConstants.{WIDTH_LIMIT};

use crate::guess::set;
use fpga_bounds::PlacedProblem;
use fpga_types::WIDTH_LIMIT;
use patience::Patience;
use route_negotiate::{ReachedWire, negotiate_within};
use std::alloc::{AllocError, Global};

/// After so many rounds a negotiation gives up.
const ROUNDS: u32 = 500;

/// Where the variables stand that say of a wire within how many joins it is reached: those of one
/// wire behind those of another, and all behind those that say that wires are used.
#[derive(Clone, Copy)]
struct Order {
    slots: usize,
    width: usize,
    reach: usize,
}

impl Order {
    /// The place of the variable that says that the wire is used.
    fn used(self, wire: ReachedWire) -> usize {
        (wire.slot as usize)
            .saturating_mul(self.width)
            .saturating_add(wire.track as usize)
    }

    /// The place of the variable that says that the wire is reached within so many joins.
    fn reached(self, wire: ReachedWire, joins: usize) -> usize {
        self.used(wire)
            .saturating_mul(self.reach.saturating_add(1))
            .saturating_add(self.slots.saturating_mul(self.width))
            .saturating_add(joins)
    }
}

// Sets what is true of a wire that a net holds.
fn set_wire(values: &mut [bool], order: Order, wire: ReachedWire)
    ensures { length values.new ≡ length values.old }
{
    set(values, order.used(wire));
    for joins in wire.joins as usize..order.reach.saturating_add(1) {
        set(values, order.reached(wire, joins));
    }
}

// So many values, of which those are true that are true of these wires.
fn values_of(
    alloc: Global,
    order: Order,
    wires: &[ReachedWire],
    count: usize,
) -> Result<Vec<bool>, AllocError>
    ensures { IfOk result (λ values. length values.items ≡ count) }
{
    let mut values = vec![in alloc; false; count]?;
    for wire in wires {
        set_wire(&mut values, order, *wire);
    }
    Ok(values)
}

/// So many values of the clauses that let a net have several wires in a cell, within a reach: those
/// that are true of the wires that a negotiation finds.
///
/// # Errors
/// Where memory is short.
pub(crate) fn wire_values<P: Patience>(
    alloc: Global,
    problem: &PlacedProblem,
    width: u32,
    reach: u32,
    count: usize,
    patience: &mut P,
) -> Result<Option<Vec<bool>>, AllocError>
    requires { (1 ≤ width) × (width ≤ WIDTH_LIMIT) }
    ensures { IfOk result
        (λ found. IfSome found (λ values. length values.items ≡ count)) }
{
    let (arch, route, slots) = (problem.arch(), problem.route(), problem.slots());
    let found = negotiate_within(alloc, arch, route, slots, width, reach, ROUNDS, patience)?;
    let Some(wires) = found else {
        return Ok(None);
    };
    let order = Order {
        slots: slots.len(),
        width: width as usize,
        reach: reach as usize,
    };
    let values = values_of(alloc, order, &wires, count)?;
    Ok(Some(values))
}
