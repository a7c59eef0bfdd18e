//! What can be wrong with a route text.

use fpga_text::Coded;

/// What is wrong with a line of a route text.
#[derive(Clone, Copy)]
pub enum Cause {
    /// A head line of another form, or one that is missing.
    HeadForm,
    /// A later line of no form, or a Block line outside a global net.
    LineForm,
    /// A number is due and is none, or does not fit.
    NoNumber,
    /// A channel that spans several cells.
    SpannedChannel,
    /// An element before the first net or in a global net.
    StrayElement,
    /// A place that the array does not have.
    NoPlace,
    /// More columns, rows or nets than may be.
    PastLimit,
}

impl Coded for Cause {
    ghost use Rattle.fpga_route.specs.Causes.{code_of};

    ghost code_of = { code_of };

    fn code(self) -> u32 {
        match self {
            Cause::HeadForm => 401,
            Cause::LineForm => 402,
            Cause::NoNumber => 403,
            Cause::SpannedChannel => 404,
            Cause::StrayElement => 405,
            Cause::NoPlace => 406,
            Cause::PastLimit => 407,
        }
    }
}
