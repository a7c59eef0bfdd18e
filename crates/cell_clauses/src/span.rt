//! Numbers in a row.
ghost use Rattle.std.specs.Prelude.{◌+◌, ◌≤◌};
ghost use Rattle.fpga_types.specs.declared.limits.TheConstants.{SIDE_LIMIT};

/// So many numbers from the first one on.
#[derive(Clone, Copy)]
pub(crate) struct Span {
    pub first: u32,
    pub count: u32,
    ghost low: { first ≤ SIDE_LIMIT },
    ghost few: { count ≤ SIDE_LIMIT + 1 },
}
