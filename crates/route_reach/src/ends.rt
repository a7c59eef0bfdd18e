//! The pins at which nets begin and end, line by line.
ghost use Rattle.std.specs.Prelude.{◌≡◌, option_and_then};
ghost use Rattle.route_reach.specs.Ends.{ipin_of, opin_of, sink_pin};

use fpga_types::{Elem, ElemKind, PinAt};

/// The pin of an OPIN line, or None of another line.
pub(crate) fn opin_of(e: Elem) -> Option<PinAt>
    ensures { result ≡ opin_of e }
{
    match e.kind {
        ElemKind::Opin => e.pin(),
        _ => None,
    }
}

/// The pin of an IPIN line, or None of another line.
fn ipin_of(e: Elem) -> Option<PinAt>
    ensures { result ≡ ipin_of e }
{
    match e.kind {
        ElemKind::Ipin => e.pin(),
        _ => None,
    }
}

/// The pin of the IPIN line before a SINK line, or None of two other lines.
pub(crate) fn sink_pin(before: Option<Elem>, e: Elem) -> Option<PinAt>
    ensures { result ≡ option_and_then (λ other. sink_pin (other, e)) before }
{
    let before = before?;
    match e.kind {
        ElemKind::Sink => ipin_of(before),
        _ => None,
    }
}
