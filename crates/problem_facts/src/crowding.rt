//! A crowd of trees.
ghost use Rattle.std.specs.Prelude.{◌≡◌, ◌≤◌, ◌<◌, ◌++◌, All, IfOk, length};
ghost use Rattle.route_encode.specs.Encoding.{below};
ghost use Rattle.problem_facts.specs.Crowd.{IsGatheredFrom, gathered_from, longer};
ghost use Rattle.problem_facts.specs.Fullest.{slots_in};

use crate::fullest::cells_of;
use crate::gathering::{TreeSlots, gather};
use crate::limits::CROWD_LIMIT;
use crate::search::long_crowd;
use arrayvec::ArrayVec;
use fpga_types::WIDTH_LIMIT;
use std::alloc::{AllocError, Global};

/// A crowd of the trees: the longer one of those that are gathered from the slots of the cell with
/// this number on, and from the trees that a search finds. Where the cell has more slots than a
/// channel can have tracks, there is no search.
///
/// # Errors
/// Where memory is short.
pub(crate) fn crowd_of(
    alloc: Global,
    trees: &TreeSlots<'_>,
    cell: u32,
) -> Result<ArrayVec<u32, CROWD_LIMIT>, AllocError>
    ensures { IfOk result (λ crowd. IsGatheredFrom trees.now.grid trees.now.slots.now
        trees.now.roots.now cell crowd.items) }
{
    let own = slots_in(alloc, trees, cell as usize)?;
    let first = gathered_from(alloc, trees, &own)?;
    if own.len() > WIDTH_LIMIT as usize {
        return Ok(first);
    }
    let found = long_crowd(alloc, trees, first.len())?;
    let second = gathered_from(alloc, trees, &found)?;
    Ok(longer(first, second))
}

/// The trees that are gathered from these slots on.
fn gathered_from(
    alloc: Global,
    trees: &TreeSlots<'_>,
    front: &[u32],
) -> Result<ArrayVec<u32, CROWD_LIMIT>, AllocError>
    requires { All (λ s. s < length trees.now.slots.now) front.now }
    ensures { IfOk result (λ crowd. crowd.items ≡ gathered_from trees.now.grid
        trees.now.slots.now trees.now.roots.now front.now) }
{
    let mut rest = slots_from(alloc, trees.slots.len() as u32, front)?;
    let mut held = vec![in alloc; false; cells_of(trees.grid) as usize]?;
    let mut marked = vec![in alloc; false; trees.slots.len()]?;
    Ok(gather(trees, &mut rest, &mut held, &mut marked))
}

/// These slots, and then so many, all in their order.
fn slots_from(alloc: Global, count: u32, front: &[u32]) -> Result<Vec<u32>, AllocError>
    ensures { IfOk result (λ rest. rest.items ≡ front.now ++ below count) }
{
    let mut rest = front.to_vec(alloc)?;
    for s in 0..count {
        rest.push(s)?;
    }
    Ok(rest)
}

/// The slots that take the cell with this number.
fn slots_in(alloc: Global, trees: &TreeSlots<'_>, number: usize) -> Result<Vec<u32>, AllocError>
    ensures { IfOk result (λ own. own.items
        ≡ slots_in trees.now.grid trees.now.slots.now number) }
{
    let mut own = Vec::new(alloc);
    for s in 0..trees.slots.len() as u32 {
        if trees.cell(s) != number {
            continue;
        }
        own.push(s)?;
    }
    Ok(own)
}

/// The longer one, the first if they are equally long.
fn longer(
    a: ArrayVec<u32, CROWD_LIMIT>,
    b: ArrayVec<u32, CROWD_LIMIT>,
) -> ArrayVec<u32, CROWD_LIMIT>
    ensures { result.items ≡ longer a.items b.items }
{
    if a.len() < b.len() {
        return b;
    }
    a
}
