//! For each slot the slots near it.
ghost use Rattle.std.specs.Prelude.{◌≡◌, ◌+◌, ◌*◌, ◌≤◌, length, map, sum_by, IfOk};
ghost use Rattle.fpga_types.specs.Slots.{slots};
ghost use Rattle.fpga_types.specs.Sound.{IsSound};
ghost use Rattle.fpga_types.specs.declared.limits.TheConstants.{SLOT_LIMIT};
ghost use Rattle.route_encode.specs.Encoding.{below};
ghost use Rattle.route_reach.specs.Near.{near_of, rows_of};

use crate::near::meeting_slots;
use crate::numbers::SlotNumbers;
use crate::rising::MOST_NEAR;
use arrayvec::ArrayVec;
use fpga_bounds::PlacedProblem;
use fpga_graph::Graph;
use std::alloc::{AllocError, Global};

/// For each slot of the problem the slots of its net whose cells meet its own, rising.
pub(crate) fn near_table(
    alloc: Global,
    problem: &PlacedProblem,
    graph: &Graph<'_>,
    numbers: &SlotNumbers<'_>,
) -> Result<Vec<ArrayVec<u32, MOST_NEAR>>, AllocError>
    requires sound { IsSound problem.now.route }
    requires width { 1 ≤ graph.now.width }
    requires grid { graph.now.grid ≡ problem.now.route.grid }
    requires numbers { numbers.now ≡ slots problem.now.route }
    ensures { IfOk result (λ table. rows_of table.items
        ≡ map (near_of problem.now.route) (below (length (slots problem.now.route)))) }
{
    let mut table = Vec::new(alloc);
    for slot in problem.slots() {
        table.push(meeting_slots(graph, numbers, *slot))?;
    }
    Ok(table)
}

/// How many numbers there are in the rows of a table together.
pub(crate) fn near_count(table: &[ArrayVec<u32, MOST_NEAR>]) -> u64
    requires { length table.now ≤ SLOT_LIMIT }
    ensures value { result ≡ sum_by length (rows_of table.now) }
    ensures few { result ≤ MOST_NEAR * SLOT_LIMIT }
{
    let mut count = 0;
    for row in table {
        count += row.len() as u64;
    }
    count
}
