//! The channels of an array, with their tracks.
use crate::path::{append_across, append_rectangle, append_up};
use crate::scale::{BLOCK, CHANNEL, Point, channel_length, channel_start, track_place};
use fpga_types::Grid;
use std::alloc::AllocError;

/// Appends the channels, their tracks and the switch blocks.
pub(crate) fn append_array(out: &mut String, grid: Grid, width: u32) -> Result<(), AllocError> {
    out.push_str("<path class=\"c\" d=\"")?;
    append_channels(out, grid)?;
    out.push_str("\"/>\n<path class=\"t\" d=\"")?;
    for track in 0..width {
        append_tracks(out, grid, track_place(track, width as u64))?;
    }
    out.push_str("\"/>\n<path class=\"s\" d=\"")?;
    append_switches(out, grid)?;
    out.push_str("\"/>\n")?;
    Ok(())
}

fn append_channels(out: &mut String, grid: Grid) -> Result<(), AllocError> {
    let Grid { nx, ny } = grid;
    for row in 0..ny + 1 {
        append_rectangle(out, row_start(row), channel_length(nx), CHANNEL)?;
    }
    for column in 0..nx + 1 {
        append_rectangle(out, column_start(column), CHANNEL, channel_length(ny))?;
    }
    Ok(())
}

// One track of each channel.
fn append_tracks(out: &mut String, grid: Grid, across: u64) -> Result<(), AllocError> {
    let Grid { nx, ny } = grid;
    for row in 0..ny + 1 {
        append_across(out, row_start(row).moved(0, across), channel_length(nx))?;
    }
    for column in 0..nx + 1 {
        append_up(
            out,
            column_start(column).moved(across, 0),
            channel_length(ny),
        )?;
    }
    Ok(())
}

fn append_switches(out: &mut String, grid: Grid) -> Result<(), AllocError> {
    let Grid { nx, ny } = grid;
    for row in 0..ny + 1 {
        for column in 0..nx + 1 {
            let at = Point {
                x: channel_start(column),
                y: channel_start(row),
            };
            append_rectangle(out, at, CHANNEL, CHANNEL)?;
        }
    }
    Ok(())
}

// Where the channel above a row begins.
fn row_start(row: u32) -> Point {
    Point {
        x: BLOCK,
        y: channel_start(row),
    }
}

// Where the channel behind a column begins.
fn column_start(column: u32) -> Point {
    Point {
        x: channel_start(column),
        y: BLOCK,
    }
}
