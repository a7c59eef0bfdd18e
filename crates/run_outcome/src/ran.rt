//! What a run comes to.
ghost use Rattle.std.specs.Prelude.{◌≡◌, None};

use crate::outcome::Outcome;
use cell_bound::CellRefutation;
use fpga_bounds::PlacedProblem;
use fpga_types::Netlist;

/// Why a placement needs more tracks than its cut asks for: the refutation over cells that was
/// written, and the netlist whose nets it blames.
#[derive(Drop)]
pub struct Reason {
    pub netlist: Netlist,
    pub found: CellRefutation,
}

/// What a run comes to; the problem that it worked on, if four files posed one; and why it raised a
/// bound, if it did and wrote that.
#[derive(Drop)]
pub struct Ran {
    pub outcome: Outcome,
    pub problem: Option<PlacedProblem>,
    pub reason: Option<Reason>,
}

/// What a run comes to that works on no problem and raises no bound.
pub fn without_problem(outcome: Outcome) -> Ran
    ensures { result ≡ record { outcome = outcome; problem = None; reason = None } }
{
    Ran {
        outcome,
        problem: None,
        reason: None,
    }
}
