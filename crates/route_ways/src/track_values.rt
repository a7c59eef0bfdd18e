//! Values that tracks of trees come to.
ghost use Rattle.std.specs.Prelude.{◌≡◌, ◌≤◌, IfOk, IfSome, length};
ghost use Rattle.fpga_types.specs.declared.limits.TheConstants.{WIDTH_LIMIT};

use crate::guess::set;
use fpga_bounds::PlacedProblem;
use fpga_types::WIDTH_LIMIT;
use route_colour::colour;
use std::alloc::{AllocError, Global};

/// So many values of the clauses that give each slot one track: those that are true of the tracks
/// that the trees are coloured with, a slot's behind those of the slot before.
///
/// # Errors
/// Where memory is short.
pub(crate) fn track_values(
    alloc: Global,
    problem: &PlacedProblem,
    width: u32,
    count: usize,
) -> Result<Option<Vec<bool>>, AllocError>
    requires { (1 ≤ width) × (width ≤ WIDTH_LIMIT) }
    ensures { IfOk result
        (λ found. IfSome found (λ values. length values.items ≡ count)) }
{
    let Some(tracks) = colour(alloc, problem, width)? else {
        return Ok(None);
    };
    let mut values = vec![in alloc; false; count]?;
    set_tracks(&mut values, &tracks, width as usize);
    Ok(Some(values))
}

// Sets that each slot has its track.
fn set_tracks(values: &mut [bool], tracks: &[u32], width: usize)
    ensures { length values.new ≡ length values.old }
{
    let mut first = 0usize;
    for track in tracks {
        set(values, first.saturating_add(*track as usize));
        first = first.saturating_add(width);
    }
}
