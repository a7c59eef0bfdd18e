//! Which straight lines of a kind a net can cross, by the places of its terminals.
ghost use Rattle.std.specs.Prelude.{◌≡◌, ◌<◌, ◌≤◌, All};
ghost use Rattle.route_bound.specs.Lines.{crosses_line};
ghost use Rattle.route_bound.specs.Ranges.{line_count};
ghost use Rattle.route_bound.specs.Spans.{AreBetween, Covers, IsOffSpan, Widens, WidensByAny, is_between, span_of};

use crate::placed::PlacedNets;
use crate::range::LineKind;
use crate::reach::Reach;
use fpga_types::{Grid, Net, PinRef};

/// The straight lines from number `low` on, before number `high`.
#[derive(Clone, Copy)]
pub(crate) struct Span {
    pub low: u32,
    pub high: u32,
}

/// The straight lines beside the driver of a net, those from the first beside one of its sinks to
/// the last, and those from the first of all these to the last.
#[derive(Clone, Copy)]
pub(crate) struct Spans {
    pub driver: Span,
    pub sinks: Span,
    pub whole: Span,
}

impl Spans {
    /// Whether a line lies behind the first one beside a sink and before the last one beside the
    /// driver, or the other way round: then it goes between them.
    pub fn has_between(self, line: u32) -> bool
        requires { line < 100 }
        ensures { result ≡ is_between self line }
    {
        let Spans { driver, sinks, .. } = self;
        sinks.low < line && line + 1 < driver.high || driver.low < line && line + 1 < sinks.high
    }
}

impl Reach {
    /// The lines beside its place; all of so many, where it touches no cell.
    fn span(self, kind: LineKind, limit: u32) -> Span
        ensures { result ≡ span_of kind limit self }
    {
        let Reach { x, y, sides } = self;
        if !(sides.left || sides.right || sides.bottom || sides.top) {
            return Span {
                low: 0,
                high: limit,
            };
        }
        let high = match kind {
            LineKind::Column => x,
            LineKind::Row => y,
        };
        Span {
            low: high.saturating_sub(1),
            high,
        }
    }
}

impl<'a> PlacedNets<'a> {
    /// How many straight lines of a kind the array has, at least one and at most 100.
    pub fn line_count(&self, kind: LineKind) -> u32
        ensures count { result ≡ line_count self.now.placement.grid kind }
        ensures within { (1 ≤ result) × (result ≤ 100) }
    {
        let grid = self.placement.grid;
        let Grid { nx, ny } = grid;
        match kind {
            LineKind::Column => nx,
            LineKind::Row => ny,
        }
    }

    /// Lines among which are all that the net crosses, and between which it crosses all.
    ///
    /// Takes time for each terminal.
    pub fn net_spans(&self, kind: LineKind, net: &Net) -> Spans
        ensures off { IsOffSpan self.now kind net.now result.whole }
        ensures between { AreBetween self.now kind net.now result }
    {
        let none = Span {
            low: self.line_count(kind),
            high: 0,
        };
        let nowhere = Spans {
            driver: none,
            sinks: none,
            whole: none,
        };
        if net.global {
            return nowhere;
        }
        let Some(pin) = net.driver else {
            return nowhere;
        };
        let driver = self.with_pin(none, kind, pin);
        let sinks = self.with_pins(none, kind, net.sinks.as_slice());
        Spans {
            driver,
            sinks,
            whole: Span {
                low: driver.low.min(sinks.low),
                high: driver.high.max(sinks.high),
            },
        }
    }

    /// So many lines and those beside each of these pins.
    fn with_pins(&self, span: Span, kind: LineKind, pins: &[PinRef]) -> Span
        ensures wider { (result.low ≤ span.low) × (span.high ≤ result.high) }
        ensures covers { All (λ pin. Covers self.now kind pin result) pins.now }
        ensures by { WidensByAny self.now kind pins.now span result }
    {
        let mut wider = span;
        for pin in pins {
            wider = self.with_pin(wider, kind, *pin);
        }
        wider
    }

    /// So many lines and those beside the pin.
    fn with_pin(&self, span: Span, kind: LineKind, pin: PinRef) -> Span
        ensures wider { (result.low ≤ span.low) × (span.high ≤ result.high) }
        ensures covers { Covers self.now kind pin result }
        ensures by { Widens self.now kind pin span result }
    {
        let Some(reach) = self.reach(pin) else {
            return span;
        };
        let Span { low, high } = reach.span(kind, self.line_count(kind));
        Span {
            low: span.low.min(low),
            high: span.high.max(high),
        }
    }
}
