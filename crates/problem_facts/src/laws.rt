//! Laws over the definitions, as functions that do nothing.
ghost use Rattle.std.specs.Prelude.{◌≡◌, ℕ, List};
ghost use Rattle.fpga_types.specs.Fits.{Fits};
ghost use Rattle.fpga_types.specs.Given.{IsGiven};
ghost use Rattle.fpga_types.specs.Problem.{RoutingProblem};
ghost use Rattle.fpga_types.specs.Slots.{slots};
ghost use Rattle.fpga_types.specs.declared.arch.Pattern.TheVariants.{Subset};
ghost use Rattle.route_encode.specs.Exact.{IsLegalRouting, IsUnroutableAt};
ghost use Rattle.problem_facts.specs.Alone.{IsTrackless};
ghost use Rattle.problem_facts.specs.Crowd.{IsCrowd};
ghost use Rattle.problem_facts.specs.Fullest.{slots_in};
ghost use Rattle.problem_facts.specs.Tracks.{HaveDifferentTracks, HaveOneTrack};

/// Where the switch blocks are subset ones, all slots of a tree have one track in a legal routing.
pub fn trees_have_one_track()
    ensures { (width : ℕ) (problem : RoutingProblem) (tracks : List ℕ)
        → problem.arch.pattern ≡ Subset → IsLegalRouting width problem tracks
        → HaveOneTrack problem tracks }
{}

/// Where the switch blocks are subset ones, the trees of a crowd, whichever it is, have different
/// tracks in a legal routing of a problem that was read.
pub fn crowds_have_different_tracks()
    ensures { (width : ℕ) (problem : RoutingProblem) (crowd tracks : List ℕ) → IsGiven problem
        → problem.arch.pattern ≡ Subset → IsCrowd problem crowd
        → IsLegalRouting width problem tracks → HaveDifferentTracks tracks crowd }
{}

/// The slots of a cell have different tracks in a legal routing of a problem that was read.
pub fn cells_have_different_tracks()
    ensures { (width : ℕ) (problem : RoutingProblem) (tracks : List ℕ) (number : ℕ)
        → IsGiven problem → IsLegalRouting width problem tracks
        → HaveDifferentTracks tracks (slots_in problem.route.grid (slots problem.route) number) }
{}

/// A problem that fits has no legal routing at a width at which no track serves one of its trees.
pub fn trackless_is_unroutable()
    ensures { (width : ℕ) (problem : RoutingProblem) (tree : ℕ) → IsGiven problem → Fits problem
        → IsTrackless width problem tree → IsUnroutableAt width problem }
{}
