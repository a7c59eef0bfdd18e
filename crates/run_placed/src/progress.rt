//! How far a climb through widths has come, while it writes no file.

ghost use Rattle.std.specs.Prelude.{◌≡◌};

use desk_io::{MemShelf, Shelf};

/// A shelf that is told how far `least` has come. What it tells of itself stays as it is.
pub trait Progress: Shelf {
    /// A refutation over cells has shown that no routing has so many tracks or fewer.
    fn told_refuted(&mut self, width: u32)
        ensures { Self.state self.new ≡ Self.state self.old };

    /// No route was found with so many tracks in so many rounds.
    fn told_unfound(&mut self, width: u32, rounds: u32)
        ensures { Self.state self.new ≡ Self.state self.old };
}

// A shelf in memory takes no note of it.
impl Progress for MemShelf {
    fn told_refuted(&mut self, _width: u32) {}

    fn told_unfound(&mut self, _width: u32, _rounds: u32) {}
}
