//! Where the pins of placed blocks are, and which wires they open.
ghost use Rattle.std.specs.Prelude.{◌≤◌, IfSome};
ghost use Rattle.fpga_types.specs.Pins.{HasPin};
ghost use Rattle.fpga_types.specs.declared.limits.TheConstants.{WIDTH_LIMIT};

use fpga_fabric::touches;
use fpga_graph::{Graph, MOST_TRACKS, cell_beside};
use fpga_types::{Arch, BlockKind, Grid, PinAt, PinSpec, Place, Side, cell_number};

/// All sides.
pub(crate) const SIDES: [Side; 4] = [Side::Left, Side::Right, Side::Bottom, Side::Top];

/// The pin with this number of a block of this kind at a place, if the architecture has it.
pub(crate) fn pin_at(arch: &Arch, kind: BlockKind, place: Place, pin: u32) -> Option<PinAt>
    ensures { IfSome result (HasPin arch.now) }
{
    let Place { x, y, sub } = place;
    match kind {
        BlockKind::Logic => {
            if pin as usize >= arch.pins.as_slice().len() {
                return None;
            }
            Some(PinAt::Pin { x, y, pin })
        }
        BlockKind::Input | BlockKind::Output => Some(PinAt::Pad { x, y, sub }),
    }
}

/// What the architecture says of a pin of a logic block.
pub(crate) fn spec_of(arch: &Arch, pin: u32) -> Option<PinSpec> {
    let specs = arch.pins.as_slice();
    if pin as usize >= specs.len() {
        return None;
    }
    Some(specs[pin as usize])
}

/// The number of the cell on a side of a pin, if the pin touches it.
pub(crate) fn touched_cell(arch: &Arch, grid: Grid, pin: PinAt, side: Side) -> Option<u32>
    requires { HasPin arch.now pin }
{
    let cell = cell_beside(pin, side)?;
    if !grid.has_cell(cell) || !touches(arch, grid, pin, cell) {
        return None;
    }
    Some(cell_number(grid, cell))
}

/// The tracks that a pin opens in a channel of so many, a bit for each.
pub(crate) fn opened_tracks(arch: &Arch, grid: Grid, width: u32, pin: PinAt) -> u64
    requires width { (1 ≤ width) × (width ≤ WIDTH_LIMIT) }
    requires pin { HasPin arch.now pin }
{
    let row = Graph::new(arch, grid, width).opened(pin);
    let mut tracks = 0;
    for track in 0..MOST_TRACKS {
        if row[track] {
            tracks |= 1 << track;
        }
    }
    tracks
}

/// Whether a track is one of these.
pub(crate) fn has_track(tracks: u64, track: u32) -> bool {
    (tracks >> (track % 64)) & 1 == 1
}
