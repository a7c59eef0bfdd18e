//! What can be wrong with an architecture text.

use fpga_text::Coded;

/// What is wrong with a line of an architecture text.
#[derive(Clone, Copy)]
pub enum Cause {
    /// The text ends, and a keyword had no line.
    MissingLine,
    /// A number is due and is none or not in its range; or another type on a line `Fc_type`.
    NoNumber,
    /// A pin without `class:`, without a side, or with another word among its sides.
    PinForm,
    /// A segment whose length is not 1.
    SegmentLength,
    /// A channel along rows or columns that is not uniform.
    NotUniform,
    /// A channel whose width differs from an earlier one.
    OtherWidth,
    /// A pattern of switch blocks that is not known.
    NoPattern,
    /// A pin whose class an earlier pin of the other direction has.
    MixedClass,
    /// More pads at a place, more pins or a greater class than may be.
    PastLimit,
    /// A keyword that may not repeat stands on an earlier line.
    Repeated,
    /// A segment that leaves out connection boxes or switch blocks.
    SparseSegment,
}

impl Coded for Cause {
    ghost use Rattle.fpga_arch.specs.Causes.{code_of};

    ghost code_of = { code_of };

    fn code(self) -> u32 {
        match self {
            Cause::MissingLine => 101,
            Cause::NoNumber => 102,
            Cause::PinForm => 103,
            Cause::SegmentLength => 104,
            Cause::NotUniform => 105,
            Cause::OtherWidth => 106,
            Cause::NoPattern => 107,
            Cause::MixedClass => 108,
            Cause::PastLimit => 109,
            Cause::Repeated => 110,
            Cause::SparseSegment => 111,
        }
    }
}
