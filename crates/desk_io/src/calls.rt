//! Calls that are counted, of which chosen ones fail.
ghost use Rattle.std.specs.Prelude.{◌≡◌, ◌↔◌, IsTrue};
ghost use Rattle.desk_io.specs.Files.{next_call};
ghost use Rattle.desk_io.specs.Memory.{IsNextListed};

/// How many calls there were, and the numbers of those that are to fail. The first call is 1.
#[derive(Drop)]
pub(crate) struct Calls {
    count: u64,
    fail: Vec<u64>,
}

impl Calls {
    /// No call yet.
    pub(crate) fn new(fail: Vec<u64>) -> Calls
        ensures count { result.count ≡ 0 }
        ensures fail { result.fail.items ≡ fail.items }
    {
        Calls { count: 0, fail }
    }

    /// Counts a call, and says whether it is to fail.
    pub(crate) fn next_fails(&mut self) -> bool
        ensures fails { IsTrue result ↔ IsNextListed self.old.count self.old.fail.items }
        ensures count { self.new.count ≡ next_call self.old.count }
        ensures fail { self.new.fail.items ≡ self.old.fail.items }
    {
        self.count = self.count.saturating_add(1);
        self.fail.contains(&self.count)
    }
}
