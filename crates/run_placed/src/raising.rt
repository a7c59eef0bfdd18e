//! Bounds of a placement above that of its best cut, by refutations over the cells of windows.
ghost use Rattle.std.specs.Prelude.{◌≡◌, ◌≤◌, IfOk, IfSome, None};
ghost use Rattle.cell_bound.specs.Refutations.{IsRefuted};
ghost use Rattle.fpga_problem.specs.Files.{IsSoundPlaced};
ghost use Rattle.fpga_types.specs.declared.limits.TheConstants.{WIDTH_LIMIT};
ghost use Rattle.run_placed.specs.Raised.{IsRaised};

use cell_bound::{Budget, CellRefutation, refute};
use fpga_problem::PlacedFiles;
use patience::Patience;
use std::alloc::{AllocError, Global};

/// How many windows are looked at with a number of tracks, at the most.
const LOOKS: u32 = 20;

/// How many clauses the search through a window learns at the most.
const LEARNED: u64 = 200;

/// A number of tracks than which no routing of a placement has fewer; and where that is not by a
/// cut alone, a refutation over cells with one track fewer.
#[derive(Drop)]
pub struct Raised {
    pub tracks: u32,
    pub why: Option<CellRefutation>,
}

// A refutation over cells, by which no routing of the placement has so many tracks or fewer, if one
// is found.
fn refuted_at<P: Patience>(
    alloc: Global,
    placed: &PlacedFiles,
    width: u32,
    patience: &mut P,
) -> Result<Option<CellRefutation>, AllocError>
    requires placed { IsSoundPlaced placed.now }
    requires some { 1 ≤ width }
    requires most { width ≤ WIDTH_LIMIT }
    ensures { IfOk result (λ found. IfSome found (IsRefuted placed.now width)) }
{
    let budget = Budget {
        looks: LOOKS,
        learned: LEARNED,
    };
    let (arch, netlist, placement) = (&placed.arch, &placed.netlist, &placed.placement);
    refute(alloc, arch, netlist, placement, width, budget, patience)
}

/// The bound of a cut that asks for so many tracks, raised by one as often as a refutation is
/// found, but no further than to `last`. Only the last refutation is kept: it speaks of all lower
/// widths. Where the patience is over none is found.
///
/// # Errors
/// Where memory is short.
pub(crate) fn raise<P: Patience>(
    alloc: Global,
    placed: &PlacedFiles,
    cut: u32,
    last: u32,
    patience: &mut P,
) -> Result<Raised, AllocError>
    requires placed { IsSoundPlaced placed.now }
    requires some { 1 ≤ cut }
    requires within { cut ≤ last }
    requires most { last ≤ WIDTH_LIMIT }
    ensures raised { IfOk result (IsRaised placed.now cut) }
    ensures within { IfOk result (λ raised. raised.tracks ≤ last) }
{
    let mut raised = Raised {
        tracks: cut,
        why: None,
    };
    for width in cut..last {
        let Some(found) = refuted_at(alloc, placed, width, patience)? else {
            return Ok(raised);
        };
        raised = Raised {
            tracks: width + 1,
            why: Some(found),
        };
    }
    Ok(raised)
}
