//! The straight line that most nets cross, of each kind.
ghost use Rattle.std.specs.Prelude.{◌≡◌, ℕ, ◌+◌, ◌<◌, ◌≤◌, All, get_or, length};
ghost use Rattle.route_bound.specs.Lines.{AreCounted, IsBestLine, IsFirstGreatest, crosses_line, one_if};
ghost use Rattle.route_bound.specs.Ranges.{line_count};
ghost use Rattle.route_bound.specs.Spans.{AreBetween};

use crate::placed::PlacedNets;
use crate::range::{CornerRange, LineKind};
use crate::span::Spans;
use fpga_types::{NET_LIMIT, Net};

/// The greatest number of straight lines of a kind.
const LINE_LIMIT: usize = 100;

impl<'a> PlacedNets<'a> {
    /// The number of a straight line of a kind that most nets cross.
    ///
    /// Takes time for each terminal, and for each net and line that goes between its terminals.
    pub fn best_line(&self, kind: LineKind) -> u32
        requires { length self.now.netlist.nets ≤ NET_LIMIT }
        ensures { IsBestLine self.now kind result }
    {
        let limit = self.line_count(kind) as usize;
        let mut counts = [0; LINE_LIMIT];
        self.count_nets(&mut counts, kind);
        first_greatest(&counts[..limit])
    }

    /// Counts in a row of zeros, by the numbers of the lines, how many nets cross each.
    fn count_nets(&self, counts: &mut [u32], kind: LineKind)
        requires few { length self.now.netlist.nets ≤ NET_LIMIT }
        requires room { line_count self.now.placement.grid kind ≤ length counts.old }
        requires zeros { All (λ n. n ≡ 0) counts.old }
        ensures size { length counts.new ≡ length counts.old }
        ensures counted { AreCounted self.now kind (length self.now.netlist.nets) counts.new }
    {
        for net in self.netlist.nets.as_slice() {
            self.add_net(counts, kind, net);
        }
    }

    /// Counts a net at each line that it crosses: it crosses none outside of its span.
    fn add_net(&self, counts: &mut [u32], kind: LineKind, net: &Net)
        requires room { line_count self.now.placement.grid kind ≤ length counts.old }
        requires few { (line : ℕ) → line < line_count self.now.placement.grid kind
            → get_or counts.old line 0 < NET_LIMIT }
        ensures size { length counts.new ≡ length counts.old }
        ensures added { (line : ℕ) → line < line_count self.now.placement.grid kind
            → get_or counts.new line 0
            ≡ get_or counts.old line 0 + one_if (crosses_line self.now kind net.now line) }
    {
        let spans = self.net_spans(kind, net);
        for line in spans.whole.low..spans.whole.high.min(self.line_count(kind)) {
            if !self.crosses_between(kind, net, spans, line) {
                continue;
            }
            counts[line as usize] += 1;
        }
    }

    /// Whether a net crosses a straight line. Its sinks are looked at for the lines alone that do
    /// not go between them and the driver, which are four at most where each terminal touches a
    /// cell.
    fn crosses_between(&self, kind: LineKind, net: &Net, spans: Spans, line: u32) -> bool
        requires there { line < line_count self.now.placement.grid kind }
        requires few { line < 100 }
        requires between { AreBetween self.now kind net.now spans }
        ensures { result ≡ crosses_line self.now kind net.now line }
    {
        spans.has_between(line) || self.crosses_line(kind, net, line)
    }

    /// Whether a net crosses a straight line.
    fn crosses_line(&self, kind: LineKind, net: &Net, line: u32) -> bool
        ensures { result ≡ crosses_line self.now kind net.now line }
    {
        self.crosses(CornerRange::of_line(self.placement.grid, kind, line), net)
    }
}

/// Where the first of the greatest numbers of a row stands.
fn first_greatest(row: &[u32]) -> u32
    requires some { (1 ≤ length row.now) × (length row.now ≤ LINE_LIMIT) }
    ensures { IsFirstGreatest row.now result }
{
    let mut best = 0;
    for at in 1..row.len() {
        if row[best] < row[at] {
            best = at;
        }
    }
    best as u32
}
