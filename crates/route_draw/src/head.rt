//! What stands before the parts of a picture: its size, and how each class of parts is drawn.
use crate::scale::{BLOCK, PAD, Point, TILE, block_start, side};
use fpga_types::{Grid, Place};
use std::alloc::AllocError;

// What stays free at each edge.
const MARGIN: u64 = 100;

// How far pads on the left and below are from the start of the array.
const EDGE: u64 = BLOCK - PAD;

/// The size of the letters of the caption and of the numbers beside the array.
pub(crate) fn letter_size(grid: Grid) -> u64 {
    (side(grid.nx) / 48).max(40)
}

/// How far the array is moved to the right: the numbers of rows have room there.
pub(crate) fn moved(grid: Grid) -> u64 {
    letter_size(grid).saturating_mul(2)
}

/// The lower edge of the pads below the array.
pub(crate) fn floor(grid: Grid) -> u64 {
    side(grid.ny).saturating_sub(EDGE)
}

/// Where the numbers of columns stand below the array.
pub(crate) fn below(grid: Grid) -> Point {
    Point {
        x: moved(grid),
        y: floor(grid).saturating_add(letter_size(grid).saturating_mul(5) / 4),
    }
}

/// Where the numbers of rows stand, from the left edge of the array.
pub(crate) fn beside(grid: Grid) -> Point {
    let size = letter_size(grid);
    Point {
        x: moved(grid).saturating_add(EDGE).saturating_sub(size / 4),
        y: size.saturating_mul(7) / 20,
    }
}

/// Where a line of the caption stands, from the first on.
pub(crate) fn caption_line(grid: Grid, line: u64) -> u64 {
    let quarters = line.saturating_mul(6).saturating_add(13);
    floor(grid).saturating_add(letter_size(grid).saturating_mul(quarters) / 4)
}

/// The upper right corner of what is drawn: that of the channels, or of the pads behind them.
pub(crate) fn far_corner(grid: Grid, places: &[Place]) -> Point {
    let Grid { nx, ny } = grid;
    let right = places.iter().any(|place| place.x > nx);
    let up = places.iter().any(|place| place.y > ny);
    Point {
        x: far_edge(nx, right),
        y: far_edge(ny, up),
    }
}

fn far_edge(blocks: u32, has_pads: bool) -> u64 {
    let pads = if has_pads { PAD } else { 0 };
    block_start(blocks)
        .saturating_add(TILE)
        .saturating_add(pads)
}

/// Appends the head behind its first word, of a picture that is drawn up to this corner, and whose
/// caption has so many lines.
pub(crate) fn append_head(
    out: &mut String,
    grid: Grid,
    width: u32,
    far: Point,
    lines: u64,
) -> Result<(), AllocError> {
    let right = moved(grid).saturating_add(far.x).saturating_add(MARGIN);
    let top = side(grid.ny).saturating_sub(far.y.saturating_add(MARGIN));
    let foot = letter_size(grid).saturating_mul(3) / 4;
    let bottom = caption_line(grid, lines.saturating_sub(1)).saturating_add(foot);
    append_root(
        out,
        top,
        right.saturating_sub(EDGE - MARGIN),
        bottom.saturating_sub(top),
    )?;
    append_style(out, letter_size(grid), width)?;
    append_frame(out, moved(grid), side(grid.ny))
}

fn append_root(out: &mut String, top: u64, across: u64, down: u64) -> Result<(), AllocError> {
    let left = EDGE - MARGIN;
    let shown = (across / 15).max(700);
    out.push_str("xmlns=\"http://www.w3.org/2000/svg\" ")?;
    write!(
        out,
        "viewBox=\"{left} {top} {across} {down}\" width=\"{shown}\">\n"
    )
}

// Wires are so thin that those of one channel stay apart.
fn append_style(out: &mut String, size: u64, width: u32) -> Result<(), AllocError> {
    let wire = (280 / (width as u64 + 1)).clamp(3, 30);
    let dot = wire * 2;
    let wide = wire * 3;
    let spot = wire * 4;
    out.push_str(PLAIN_STYLE)?;
    write!(
        out,
        ".k,.r{{font-size:{size}px}}.k{{text-anchor:start}}.e text{{text-anchor:end}}\n"
    )?;
    write!(
        out,
        ".n path{{fill:none;stroke-width:{wire};stroke-linecap:round}}\n"
    )?;
    write!(
        out,
        ".n .d{{stroke-width:{dot}}}.n:hover path{{stroke-width:{wide}}}\n"
    )?;
    write!(out, ".n .p{{stroke-width:{wide};stroke-linecap:square}}\n")?;
    write!(
        out,
        ".b path{{stroke-width:{dot}}}.b .d,.b .p{{stroke-width:{spot}}}\n"
    )?;
    out.push_str(".b.g path{stroke-width:120}.f{opacity:.2}</style>\n")
}

// The classes that are drawn alike at each width.
const PLAIN_STYLE: &str = "<style>.c{fill:#f4f6f8}.s{fill:#e4e9ef}
.x{fill:#ff2d2d;fill-opacity:.25;stroke:#e00000;stroke-width:60}
.t{stroke:#d3dbe4;stroke-width:4;fill:none}
.l{fill:#fff3d6;stroke:#c9a24d;stroke-width:8}
.i{fill:#d3efc8;stroke:#5b9a45;stroke-width:8}
.o{fill:#fbd9d3;stroke:#c0685a;stroke-width:8}
.g path{stroke:#9aa0a6;stroke-width:60;stroke-linecap:round}
text{font-family:sans-serif;fill:#333;stroke:none;text-anchor:middle}
";

// Rows go upwards in what follows.
fn append_frame(out: &mut String, right: u64, up: u64) -> Result<(), AllocError> {
    write!(out, "<g transform=\"matrix(1 0 0 -1 {right} {up})\">\n")
}
