//! Who looks on while a search goes on.

use fpga_types::RouteText;
use patience::{Forever, Patience};
use sat_clause::{Formula, Log};

/// Who is asked whether a search may go on, and told how it goes. What is told may be counted or
/// let go: a call promises no more than that a patience that is over stays over.
pub trait Watch: Patience {
    /// A width begins: its clauses, or its wires, are looked for next.
    fn told_width(&mut self, width: u32)
        ensures { Self.is_over self.old → Self.is_over self.new };

    /// The clauses of the width are built, and will be searched.
    fn told_clauses(&mut self, formula: &Formula)
        ensures { Self.is_over self.old → Self.is_over self.new };

    /// The search through the clauses has begun anew so often; each question behind this is asked
    /// where it does so once more, as long as the search goes on.
    fn told_restarts(&mut self, count: u64)
        ensures { Self.is_over self.old → Self.is_over self.new };

    /// The search has ended with this log, whatever it came to.
    fn told_log(&mut self, log: &Log)
        ensures { Self.is_over self.old → Self.is_over self.new };

    /// A negotiation has ended after so many rounds, whatever it came to.
    fn told_rounds(&mut self, rounds: u32)
        ensures { Self.is_over self.old → Self.is_over self.new };

    /// This route was found, and is written next.
    fn told_route(&mut self, route: &RouteText)
        ensures { Self.is_over self.old → Self.is_over self.new };
}

// A caller that sets no limit looks at nothing.
impl Watch for Forever {
    fn told_width(&mut self, _width: u32) {}

    fn told_clauses(&mut self, _formula: &Formula) {}

    fn told_restarts(&mut self, _count: u64) {}

    fn told_log(&mut self, _log: &Log) {}

    fn told_rounds(&mut self, _rounds: u32) {}

    fn told_route(&mut self, _route: &RouteText) {}
}
