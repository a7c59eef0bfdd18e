//! What the texts of generated problems read as.
ghost use Rattle.std.specs.Prelude.{ℕ, ◌*◌, ◌≤◌, ◌^◌};
ghost use Rattle.fpga_arch.specs.Value.{ReadsArch};
ghost use Rattle.fpga_net.specs.Value.{ReadsNet};
ghost use Rattle.fpga_place.specs.Value.{Reads as ReadsPlacement};
ghost use Rattle.fpga_route.specs.ReadBack.{ReadsBack};
ghost use Rattle.fpga_text.specs.FirstFault.{first_fault};
ghost use Rattle.fpga_types.specs.Fits.{problem_faults};
ghost use Rattle.fpga_types.specs.Problem.{RoutingProblem};
ghost use Rattle.fpga_types.specs.declared.arch.Arch.{Arch};
ghost use Rattle.fpga_types.specs.declared.limits.TheConstants.{SIDE_LIMIT};
ghost use Rattle.fpga_types.specs.declared.netlist.Netlist.{Netlist};
ghost use Rattle.route_gen.specs.Draws.{sinks_of};
ghost use Rattle.route_gen.specs.Fitting.{AreRead, FitsButForSlots, IsForSlots};
ghost use Rattle.route_gen.specs.Generated.{generated, generated_architecture};
ghost use Rattle.route_gen.specs.Laws.{HasBlocks, HasNets, architecture_of_all, netlist_of_all, placement_of};
ghost use Rattle.route_gen.specs.Netlists.{generated_netlist};
ghost use Rattle.route_gen.specs.Placements.{generated_placement};
ghost use Rattle.route_gen.specs.Routes.{route_to};
ghost use Rattle.route_gen.specs.Texts.{AreShort};

/// The architecture of generated problems has no fault, and reads as one.
pub fn architecture_reads()
    ensures { ReadsArch generated_architecture architecture_of_all }
{}

/// A generated placement has no fault, and reads as the places of its blocks, for any netlist of
/// these blocks.
pub fn placement_reads()
    ensures { (arch : Arch) (netlist : Netlist) (side : ℕ) → 1 ≤ side → side ≤ SIDE_LIMIT
        → HasBlocks side netlist
        → ReadsPlacement arch netlist (generated_placement side) (placement_of side) }
{}

/// A generated route has no fault, and reads as the nets and their elements, whatever lines these
/// stand on.
pub fn route_reads()
    ensures { (seed side nets : ℕ) → 1 ≤ side → side ≤ SIDE_LIMIT → nets ≤ side * side
        → ReadsBack (route_to side (sinks_of seed side nets)) }
{}

/// A generated netlist has no fault, and reads as the netlist of its blocks: each of its nets is
/// driven by the block of its number and ends at the input that was drawn, and there is no other.
pub fn netlist_reads()
    ensures value { (seed side nets : ℕ) → 1 ≤ side → side ≤ SIDE_LIMIT → nets ≤ side * side
        → ReadsNet architecture_of_all (generated_netlist seed side nets)
        (netlist_of_all seed side nets) }
    ensures blocks { (seed side nets : ℕ) → HasBlocks side (netlist_of_all seed side nets) }
    ensures nets { (seed side nets : ℕ) → 1 ≤ side → side ≤ SIDE_LIMIT → nets ≤ side * side
        → HasNets (sinks_of seed side nets) (netlist_of_all seed side nets) }
{}

/// The four texts read as the values of a routing problem, and what they read as fits: at no line
/// a code of the fit holds, but that of the limit on slots. So the first fault, by which values
/// that do not fit are refused, can be no other.
pub fn fits_but_for_slots()
    ensures read { (seed side nets : ℕ) → 1 ≤ side → side ≤ SIDE_LIMIT → nets ≤ side * side
        → (p : RoutingProblem) × AreRead (generated seed side nets) p }
    ensures fits { (seed side nets : ℕ) (p : RoutingProblem) → 1 ≤ side → side ≤ SIDE_LIMIT
        → nets ≤ side * side → AreRead (generated seed side nets) p → FitsButForSlots p }
    ensures first { (seed side nets : ℕ) (p : RoutingProblem) → 1 ≤ side → side ≤ SIDE_LIMIT
        → nets ≤ side * side → AreRead (generated seed side nets) p
        → IsForSlots (first_fault (problem_faults p)) }
{}

/// Each of the four texts has at most 2^26 bytes, as many as a text that is read may have.
pub fn texts_are_short()
    ensures { (seed side nets : ℕ) → 1 ≤ side → side ≤ SIDE_LIMIT → nets ≤ side * side
        → AreShort (2 ^ 26) (generated seed side nets) }
{}
