//! What can be wrong with a netlist text.

use fpga_text::Coded;

/// What is wrong with a line of a netlist text.
#[derive(Clone, Copy)]
pub enum Cause {
    /// A line of no form, one that stands where it may not, or a block line without one name.
    LineForm,
    /// A pinlist without one word for each pin, or a pad on no net.
    PinCount,
    /// A block with the name of an earlier one.
    SameName,
    /// An ordinary net with a second driver, or at the end with none.
    Drivers,
    /// An ordinary net without a sink at the end.
    NoSink,
    /// An ordinary net on a pin for global nets.
    GlobalPin,
    /// An ordinary net on two pins of one class.
    SharedClass,
    /// A block line that no pinlist follows.
    NoPinlist,
    /// More blocks or nets than may be.
    PastLimit,
}

impl Coded for Cause {
    ghost use Rattle.fpga_net.specs.Causes.{code_of};

    ghost code_of = { code_of };

    fn code(self) -> u32 {
        match self {
            Cause::LineForm => 201,
            Cause::PinCount => 202,
            Cause::SameName => 203,
            Cause::Drivers => 204,
            Cause::NoSink => 205,
            Cause::GlobalPin => 206,
            Cause::SharedClass => 207,
            Cause::NoPinlist => 208,
            Cause::PastLimit => 209,
        }
    }
}
