//! The tracks that truth values say.
ghost use Rattle.std.specs.Prelude.{◌≡◌, ◌<◌, ◌*◌, ℕ, true, length, IfOk};
ghost use Rattle.route_encode.specs.Said.{AreSaid, SaysTrack, says};

use crate::variables::Variables;
use std::alloc::{AllocError, Global};

/// For each slot the track that the values say.
pub(crate) fn tracks_said(
    alloc: Global,
    variables: Variables,
    values: &[bool],
) -> Result<Vec<u32>, AllocError>
    requires many { length values.now ≡ variables.slots * variables.width }
    requires some { (s : ℕ) → s < variables.slots → SaysTrack values.now variables.width s }
    ensures each { IfOk result (λ tracks. length tracks.items ≡ variables.slots) }
    ensures said { IfOk result
        (λ tracks. AreSaid values.now variables.width tracks.items variables.slots) }
{
    let mut tracks = Vec::with_capacity(alloc, variables.slots as usize)?;
    for slot in 0..variables.slots {
        tracks.push(track_said(variables, values, slot))?;
    }
    Ok(tracks)
}

/// The track that the values say of a slot.
fn track_said(variables: Variables, values: &[bool], slot: u32) -> u32
    requires slot { slot < variables.slots }
    requires many { length values.now ≡ variables.slots * variables.width }
    requires some { SaysTrack values.now variables.width slot }
    ensures within { result < variables.width }
    ensures said { says values.now variables.width slot result ≡ true }
{
    for track in 0..variables.width {
        if values[(slot * variables.width + track) as usize] {
            return track;
        }
    }
    unreachable!()
}
