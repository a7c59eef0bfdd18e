//! The slots of a net whose cells meet a slot's, and those whose cells a pin touches.
ghost use Rattle.std.specs.Prelude.{◌≡◌, ◌+◌, ◌<◌, ◌≤◌, length};
ghost use Rattle.fpga_bounds.specs.Pairs.{AreDistinct};
ghost use Rattle.fpga_graph.specs.Wires.{IsWire, wire_in};
ghost use Rattle.fpga_types.specs.Pins.{HasPin};
ghost use Rattle.route_reach.specs.Near.{found_number, meeting_slots, side_slot, touched_slots, with_found};

use crate::numbers::SlotNumbers;
use crate::rising::{MOST_NEAR, add_number};
use arrayvec::ArrayVec;
use fpga_graph::{Graph, cell_beside};
use fpga_types::{PinAt, Side, Slot, Wire};

/// The slots of the slot's net whose cells meet its own, rising. Its cell is one of the array.
pub(crate) fn meeting_slots(
    graph: &Graph<'_>,
    numbers: &SlotNumbers<'_>,
    slot: Slot,
) -> ArrayVec<u32, MOST_NEAR>
    requires distinct { AreDistinct numbers.now }
    requires wire { IsWire graph.now (wire_in slot.cell 0) }
    ensures { result.items ≡ meeting_slots graph.now.grid numbers.now slot }
{
    let mut near = ArrayVec::new();
    let joints = graph.joints(Wire {
        cell: slot.cell,
        track: 0,
    });
    for joint in joints.as_slice() {
        let cell = joint.wire.cell;
        add_slot(
            &mut near,
            numbers,
            Slot {
                net: slot.net,
                cell,
            },
        );
    }
    near
}

/// The slots of the net at a position whose cells the pin touches, rising.
pub(crate) fn touched_slots(
    graph: &Graph<'_>,
    numbers: &SlotNumbers<'_>,
    net: u32,
    pin: PinAt,
) -> ArrayVec<u32, MOST_NEAR>
    requires distinct { AreDistinct numbers.now }
    requires pin { HasPin graph.now.arch pin }
    ensures { result.items ≡ touched_slots graph.now numbers.now net pin }
{
    let mut touched = ArrayVec::new();
    add_beside(&mut touched, graph, numbers, net, pin, Side::Left);
    add_beside(&mut touched, graph, numbers, net, pin, Side::Right);
    add_beside(&mut touched, graph, numbers, net, pin, Side::Bottom);
    add_beside(&mut touched, graph, numbers, net, pin, Side::Top);
    touched
}

/// Adds the slot of the net along this side of the pin's place, if there is one and the pin touches
/// its cell.
fn add_beside(
    row: &mut ArrayVec<u32, MOST_NEAR>,
    graph: &Graph<'_>,
    numbers: &SlotNumbers<'_>,
    net: u32,
    pin: PinAt,
    side: Side,
)
    requires pin { HasPin graph.now.arch pin }
    requires room { length row.old.items < MOST_NEAR }
    ensures with { row.new.items
        ≡ with_found row.old.items (side_slot graph.now numbers.now net pin side) }
    ensures few { length row.new.items ≤ length row.old.items + 1 }
{
    let Some(cell) = cell_beside(pin, side) else {
        return;
    };
    if !graph.touches(pin, cell) {
        return;
    }
    add_slot(row, numbers, Slot { net, cell });
}

/// Adds the number of the slot, if it is one of these.
fn add_slot(row: &mut ArrayVec<u32, MOST_NEAR>, numbers: &SlotNumbers<'_>, slot: Slot)
    requires { length row.old.items < MOST_NEAR }
    ensures with { row.new.items ≡ with_found row.old.items (found_number numbers.now slot) }
    ensures few { length row.new.items ≤ length row.old.items + 1 }
{
    let Some(number) = numbers.found_number(slot) else {
        return;
    };
    add_number(row, number);
}
