//! What can be wrong with a placement text.

use fpga_text::Coded;

/// What is wrong with a line of a placement text.
#[derive(Clone, Copy)]
pub enum Cause {
    /// A head line of another form, or one that is missing.
    HeadForm,
    /// A number is due and is none, or does not fit.
    NoNumber,
    /// A block that the netlist does not have.
    UnknownBlock,
    /// A block that stands on an earlier line.
    RepeatedBlock,
    /// A block of the netlist without a line.
    MissingBlock,
    /// A place where a block of its kind may not stand.
    UnlawfulPlace,
    /// A spot that an earlier block has.
    SharedSpot,
    /// More columns or rows than may be.
    PastLimit,
}

impl Coded for Cause {
    ghost use Rattle.fpga_place.specs.Causes.{code_of};

    ghost code_of = { code_of };

    fn code(self) -> u32 {
        match self {
            Cause::HeadForm => 301,
            Cause::NoNumber => 302,
            Cause::UnknownBlock => 303,
            Cause::RepeatedBlock => 304,
            Cause::MissingBlock => 305,
            Cause::UnlawfulPlace => 306,
            Cause::SharedSpot => 307,
            Cause::PastLimit => 308,
        }
    }
}
