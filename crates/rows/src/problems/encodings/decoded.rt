//! The tracks of a route that truth values were decoded to.
ghost use Rattle.std.specs.Prelude.{◌≡◌, ◌++◌, ◌==◌, IfOk, OnOk, flat_map, map, string_bytes};
ghost use Rattle.rows.specs.Tracks.{elem_track, tracks_text};

use fpga_types::{Elem, RouteText};
use std::alloc::{AllocError, Global};

/// The tracks of the channel lines of a route.
pub(crate) fn tracks_line(alloc: Global, route: &RouteText) -> Result<String, AllocError>
    ensures { IfOk result (λ line. string_bytes line ≡ tracks_text route.now) }
{
    let mut line = String::from_str(alloc, "tracks")?;
    for net in route.nets.as_slice() {
        push_tracks(alloc, &mut line, net.elems.as_slice())?;
    }
    Ok(line)
}

// Puts the tracks of the channel lines behind the text.
fn push_tracks(alloc: Global, line: &mut String, elems: &[Elem]) -> Result<(), AllocError>
    ensures { OnOk result
        (string_bytes line.new ≡ string_bytes line.old ++ flat_map elem_track elems.now) }
{
    for elem in elems {
        push_track(alloc, line, elem)?;
    }
    Ok(())
}

// Puts the track of a channel line behind the text, and nothing of another line.
fn push_track(alloc: Global, line: &mut String, elem: &Elem) -> Result<(), AllocError>
    ensures { OnOk result (string_bytes line.new ≡ string_bytes line.old ++ elem_track elem.now) }
{
    if !elem.kind.is_channel() {
        return Ok(());
    }
    let track = elem.number;
    line.push_str(format!(in alloc; " {track}")?.as_str())
}

/// The truth values that a word of zeros and ones says.
pub(crate) fn values_of(alloc: Global, word: &str) -> Result<Vec<bool>, AllocError>
    ensures { IfOk result (λ values. values.items ≡ map (λ byte. byte == 49) word.now) }
{
    let mut values = Vec::new(alloc);
    for byte in word.as_bytes() {
        values.push(*byte == b'1')?;
    }
    Ok(values)
}
