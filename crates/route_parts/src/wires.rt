//! The wires of an array at a width.
ghost use Rattle.std.specs.Prelude.{◌≤◌};
ghost use Rattle.fpga_types.specs.declared.limits.TheConstants.{WIDTH_LIMIT};

use fpga_types::{Arch, Grid};

/// The wires of an array at a width from 1 to 64, with the switch blocks and connection boxes of an
/// architecture, which is lent.
#[derive(Drop)]
pub(crate) struct Wires<'a> {
    pub arch: &'a Arch,
    pub grid: Grid,
    pub width: u32,
    ghost some_tracks: { 1 ≤ width },
    ghost few_tracks: { width ≤ WIDTH_LIMIT },
}
