//! Tracks for the trees of a problem, one tree after another.
ghost use Rattle.std.specs.Prelude.{◌≡◌, ◌≤◌, ◌<◌, All, IfOk, IfSome, length};
ghost use Rattle.fpga_types.specs.Slots.{slots};
ghost use Rattle.fpga_types.specs.declared.limits.TheConstants.{WIDTH_LIMIT};

use crate::board::Board;
use fpga_bounds::PlacedProblem;
use fpga_types::WIDTH_LIMIT;
use std::alloc::{AllocError, Global};

/// Looks for a track for each slot, in channels of so many tracks from 1 to 64: one that the pins
/// next to it open, that switch blocks join to those of the slots next to it, and that no slot of
/// another net has in its cell. Where none are found, there may be some all the same.
///
/// One tree after another gets a track, always the one whose weight is greatest for the tracks that
/// are left to it, and trees that meet it lose that track, as Brélaz colours a graph (Communications
/// of the ACM, 1979). Where a tree has none left it weighs more from then on, and the last choice is
/// made otherwise, as Boussemart and others do with constraints (ECAI, 2004); after some such turns
/// all begins anew, and after 64 nothing is found.
///
/// No law says which tracks are found, nor that they are what was looked for: whoever relies on them
/// has them judged. The time is that of the tracks of all slots and the pin steps, and at most 67
/// times that of the pairs of slots that share a cell; memory is 4 bytes for each track of each slot,
/// and some for each time that a tree loses a track.
///
/// # Errors
/// Where memory is short.
pub fn colour(
    alloc: Global,
    problem: &PlacedProblem,
    width: u32,
) -> Result<Option<Vec<u32>>, AllocError>
    requires { (1 ≤ width) × (width ≤ WIDTH_LIMIT) }
    ensures each { IfOk result (λ found. IfSome found
        (λ tracks. length tracks.items ≡ length (slots problem.now.route))) }
    ensures within { IfOk result (λ found. IfSome found
        (λ tracks. All (λ track. track < width) tracks.items)) }
{
    let count = problem.slots().len() as u32;
    let mut board = Board::of(alloc, problem, width)?;
    if !board.colour(count)? {
        return Ok(None);
    }
    let tracks = tracks_of(alloc, &board, count, width)?;
    Ok(Some(tracks))
}

/// The tracks of so many slots.
///
/// # Errors
/// Where memory is short.
fn tracks_of(alloc: Global, board: &Board, count: u32, width: u32) -> Result<Vec<u32>, AllocError>
    requires { 1 ≤ width }
    ensures each { IfOk result (λ tracks. length tracks.items ≡ count) }
    ensures within { IfOk result (λ tracks. All (λ track. track < width) tracks.items) }
{
    let mut tracks = Vec::with_capacity(alloc, count as usize)?;
    for slot in 0..count {
        tracks.push(board.track(slot).min(width - 1))?;
    }
    Ok(tracks)
}
