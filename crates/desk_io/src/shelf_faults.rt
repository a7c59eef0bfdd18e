//! The faults of a shelf.
ghost use Rattle.std.specs.Prelude.{◌≡◌, false};
ghost use Rattle.desk_io.specs.Files.{RisesByOne};

use crate::desk::Failed;

/// How often a shelf has failed, and whether the last time was in a `say`.
#[derive(Clone, Copy)]
pub(crate) struct ShelfFaults {
    count: u64,
    in_say: bool,
}

impl ShelfFaults {
    /// No fault yet.
    pub(crate) fn new() -> ShelfFaults
        ensures { result ≡ record { count = 0; in_say = false } }
    {
        ShelfFaults {
            count: 0,
            in_say: false,
        }
    }

    /// Counts a fault, and gives it.
    pub(crate) fn add(&mut self, in_say: bool) -> Failed
        ensures risen { RisesByOne self.old.count self.new.count }
        ensures in_say { self.new.in_say ≡ in_say }
    {
        self.count = self.count.saturating_add(1);
        self.in_say = in_say;
        Failed
    }
}
