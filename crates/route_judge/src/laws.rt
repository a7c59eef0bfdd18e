//! Laws over the definitions, as functions that do nothing.
ghost use Rattle.std.specs.Prelude.{◌≡◌, ◌≤◌, ℕ, Bool, false, true, length};
ghost use Rattle.fpga_net.specs.Sound.{IsSoundNetlist};
ghost use Rattle.fpga_net.specs.Value.{ReadsNet};
ghost use Rattle.fpga_text.specs.Bytes.{Bytes};
ghost use Rattle.fpga_types.specs.Fits.{Fits};
ghost use Rattle.fpga_types.specs.Placed.{NetWires};
ghost use Rattle.fpga_types.specs.Placements.{IsSoundPlacement};
ghost use Rattle.fpga_types.specs.Problem.{PlacedNetlist, RoutingProblem, placed_netlist_of};
ghost use Rattle.fpga_types.specs.Slots.{slots};
ghost use Rattle.fpga_types.specs.Sound.{IsSound};
ghost use Rattle.fpga_types.specs.declared.arch.Arch.{Arch};
ghost use Rattle.fpga_types.specs.declared.limits.TheConstants.{SLOT_LIMIT};
ghost use Rattle.fpga_types.specs.declared.netlist.Netlist.{Netlist};
ghost use Rattle.fpga_types.specs.declared.placement.Placement.{Placement};
ghost use Rattle.fpga_types.specs.declared.route.RouteText.{RouteText};
ghost use Rattle.route_judge.specs.Judged.{placed_judged, problem_with};
ghost use Rattle.route_judge.specs.Says.{HasOwnEnds, SaysRouting};
ghost use Rattle.route_verify.specs.Judged.{judged};
ghost use Rattle.route_verify.specs.Reach.{reach_judged};
ghost use Rattle.route_verify.specs.declared.judgement.Judgement.TheVariants.{Legal};

/// A routed file such as is read, which is judged legal, strictly or not, says a routing of the
/// placement, where no two nets of the netlist have one name, and no ordinary one ends twice at one
/// terminal.
pub fn legal_file_says_a_routing()
    ensures { (strict : Bool) (width : ℕ) (placed : PlacedNetlist) (found : RouteText)
        → IsSound found → HasOwnEnds placed → placed_judged strict width placed found ≡ Legal
        → (has : ℕ → NetWires) × SaysRouting placed width found has }
{}

/// What is legal within the cells of a global route that fits, is judged legal, and strictly.
pub fn verified_file_is_judged_legal()
    ensures { (width : ℕ) (problem : RoutingProblem) (found : RouteText)
        → Fits problem → judged width problem found ≡ Legal
        → placed_judged true width (placed_netlist_of problem) found ≡ Legal }
{}

/// What is legal within the cells of a global route that fits, and within a reach, is judged legal.
pub fn file_within_reach_is_judged_legal()
    ensures { (width reach : ℕ) (problem : RoutingProblem) (found : RouteText)
        → Fits problem → reach_judged width reach problem found ≡ Legal
        → placed_judged false width (placed_netlist_of problem) found ≡ Legal }
{}

/// What is judged legal strictly is legal within its own cells; and of a file such as is read, of
/// no more slots than may be, the placed netlist with the file as its global route fits.
pub fn strict_file_is_a_global_route()
    ensures verified { (width : ℕ) (placed : PlacedNetlist) (found : RouteText)
        → placed_judged true width placed found ≡ Legal
        → judged width (problem_with placed found) found ≡ Legal }
    ensures fits { (width : ℕ) (placed : PlacedNetlist) (found : RouteText)
        → IsSound found → length (slots found) ≤ SLOT_LIMIT
        → placed_judged true width placed found ≡ Legal → Fits (problem_with placed found) }
{}

/// The netlist that a text says, with a placement such as is read for it, has own ends.
pub fn read_netlist_has_own_ends()
    ensures { (arch : Arch) (text : Bytes) (netlist : Netlist) (placement : Placement)
        → ReadsNet arch text netlist → IsSoundNetlist arch netlist
        → IsSoundPlacement arch netlist placement
        → HasOwnEnds (record { arch = arch; netlist = netlist; placement = placement }) }
{}
