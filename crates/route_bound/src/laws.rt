//! Laws over the definitions, as functions that do nothing.
ghost use Rattle.std.specs.Prelude.{◌≤◌, ℕ};
ghost use Rattle.fpga_types.specs.Problem.{PlacedNetlist};
ghost use Rattle.fpga_types.specs.Size.{Size};
ghost use Rattle.fpga_types.specs.declared.arch.Arch.{Arch};
ghost use Rattle.route_bound.specs.Corners.{Corners};
ghost use Rattle.route_bound.specs.Crossing.{ArePartedByCut, AreThoseThatCross, FewNetsCross, HasTwoSides, IsBound, IsLeast, bound_of, tracks_wanted};
ghost use Rattle.route_bound.specs.Lying.{Cells};
ghost use Rattle.route_bound.specs.Walks.{FewNetsParted, PartsWithin};

/// In every placed routing with so many tracks, the nets that a set of cells parts are at most as
/// many as these cells have wires.
pub fn few_nets_parted()
    ensures { (placed : PlacedNetlist) (cells : Cells) (width : ℕ) →
        FewNetsParted placed cells width }
{}

/// A terminal that touches cells of a set alone is parted by it from every other, so that one cell
/// is a cut too.
pub fn held_terminals_are_parted()
    ensures { (arch : Arch) (grid : Size) (cells : Cells) → PartsWithin arch grid cells }
{}

/// A net that crosses the cut round a set of corners is parted by the cells of the cut.
pub fn crossing_nets_are_parted()
    ensures { (placed : PlacedNetlist) (corners : Corners) → ArePartedByCut placed corners }
{}

/// In every placed routing with so many tracks, the nets that cross a cut are at most as many as
/// the cut's cells have wires.
pub fn few_nets_cross()
    ensures { (placed : PlacedNetlist) (corners : Corners) (width : ℕ)
        → FewNetsCross placed corners width }
{}

/// The search over pins and cells finds exactly the nets that cross a cut.
pub fn crossing_nets_cross()
    ensures { (placed : PlacedNetlist) (corners : Corners) → AreThoseThatCross placed corners }
{}

/// A cut is the same from either side: round the corners that are not in a set goes the cut round
/// those that are.
pub fn cuts_have_two_sides()
    ensures { (placed : PlacedNetlist) (corners : Corners) → HasTwoSides placed corners }
{}

/// No placed routing has fewer tracks than a cut asks for.
pub fn cuts_bound()
    ensures { (placed : PlacedNetlist) (corners : Corners) →
        IsBound placed (bound_of placed corners) }
{}

/// What a cut asks for is the least number of tracks, from 1 on, with which its cells have as many
/// wires as there are nets.
pub fn bounds_are_least()
    ensures { (nets cells : ℕ) → 1 ≤ cells → IsLeast nets cells (tracks_wanted nets cells) }
{}
