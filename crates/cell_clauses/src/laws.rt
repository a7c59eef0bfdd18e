//! Laws over the definitions, as functions that do nothing.
ghost use Rattle.std.specs.Prelude.{ℕ};
ghost use Rattle.fpga_types.specs.Problem.{PlacedNetlist};
ghost use Rattle.route_bound.specs.Corners.{Corners};
ghost use Rattle.route_bound.specs.Lying.{Cells};
ghost use Rattle.cell_clauses.specs.Models.{FewNetsHeld, PartsAreModels, RefutedHasNoRouting, RoutingsAreModels};

/// Each placed routing with no more tracks gives values that satisfy the clauses over cells of each
/// window, whatever the switch blocks and the connection boxes.
pub fn routings_are_models()
    ensures { (placed : PlacedNetlist) (corners : Corners) (width : ℕ)
        → RoutingsAreModels placed corners width }
{}

/// Each routing of some nets of a placement by themselves, with no more tracks, gives values that
/// satisfy the clauses over cells of each window that demand nothing of its other nets.
pub fn parts_are_models()
    ensures { (placed : PlacedNetlist) (corners : Corners) (width : ℕ)
        → PartsAreModels placed corners width }
{}

/// Where no values satisfy the clauses over cells of a window, or some of them, no placed routing
/// has so many tracks or fewer.
pub fn refuted_has_no_routing()
    ensures { (placed : PlacedNetlist) (corners : Corners) (width : ℕ)
        → RefutedHasNoRouting placed corners width }
{}

/// In every placed routing with so many tracks, the nets that have a terminal all of whose cells
/// are in a set of cells are at most as many as these cells have wires. One cell is such a set.
pub fn few_nets_held()
    ensures { (placed : PlacedNetlist) (cells : Cells) (width : ℕ) →
        FewNetsHeld placed cells width }
{}
