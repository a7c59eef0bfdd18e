//! What can be wrong with a routing problem whose four texts were read.

use fpga_text::Coded;

/// What keeps four values from being a routing problem, or a route from fitting by itself.
#[derive(Clone, Copy)]
pub enum FitCause {
    /// An array of another size than the placement's.
    OtherArray,
    /// A net of the netlist that is not global and has no Net line.
    MissingNet,
    /// A Net line with a name that the netlist does not have, or of a global net for one that is
    /// not, or the reverse.
    UnknownNet,
    /// A net with the name of an earlier one.
    RepeatedNet,
    /// A SOURCE that is not the driver of its net.
    OtherSource,
    /// A SINK that is no sink of its net.
    OtherSink,
    /// A SINK that stands earlier in its net, or the end of a net of which a sink has no SINK.
    SinkNotOnce,
    /// An OPIN that is no pin of the driver, an IPIN that is no input, or a SINK of another place,
    /// class or pad than the IPIN before it.
    OtherPin,
    /// A pin next to a channel that it does not touch.
    PinApart,
    /// A channel after a channel whose cell does not meet its own.
    CellsApart,
    /// An element that comes a second time where no branch starts.
    RepeatedElement,
    /// A branch that starts at an element that its net does not have.
    LooseBranch,
    /// A pin of an earlier net.
    SharedPin,
    /// An element out of order, or a net that does not end with a SINK.
    OutOfOrder,
    /// More slots than may be.
    PastLimit,
}

impl Coded for FitCause {
    ghost use Rattle.fpga_types.specs.FitCauses.{code_of};

    ghost code_of = { code_of };

    fn code(self) -> u32 {
        match self {
            FitCause::OtherArray => 501,
            FitCause::MissingNet => 502,
            FitCause::UnknownNet => 503,
            FitCause::RepeatedNet => 504,
            FitCause::OtherSource => 505,
            FitCause::OtherSink => 506,
            FitCause::SinkNotOnce => 507,
            FitCause::OtherPin => 508,
            FitCause::PinApart => 509,
            FitCause::CellsApart => 510,
            FitCause::RepeatedElement => 511,
            FitCause::LooseBranch => 512,
            FitCause::SharedPin => 513,
            FitCause::OutOfOrder => 514,
            FitCause::PastLimit => 515,
        }
    }
}
