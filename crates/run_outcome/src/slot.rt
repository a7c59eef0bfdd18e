//! What a run writes, by number.
ghost use Rattle.std.specs.Prelude.{◌≡◌, ◌≤◌};
ghost use Rattle.run_outcome.specs.Report.{number_of};

use route_sweep::FileSlot;

/// What a run writes.
#[derive(Clone, Copy)]
pub enum Slot {
    /// The bytes said.
    Said,
    /// A file of a search.
    File(FileSlot),
    /// The architecture of a generated problem.
    Architecture,
    /// The netlist of a generated problem.
    Netlist,
    /// The placement of a generated problem.
    Placement,
    /// The global route of a generated problem.
    GlobalRoute,
}

impl Slot {
    /// The number by which reports name it.
    pub fn number(self) -> u32
        ensures value { result ≡ number_of self }
        ensures small { result ≤ 7 }
    {
        match self {
            Slot::Said => 0,
            Slot::File(slot) => slot.number(),
            Slot::Architecture => 4,
            Slot::Netlist => 5,
            Slot::Placement => 6,
            Slot::GlobalRoute => 7,
        }
    }
}
