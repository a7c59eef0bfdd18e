//! How many clauses and literals the formula of a problem has.
ghost use Rattle.std.specs.Prelude.{◌≡◌, ◌≤◌, ◌<◌, ◌*◌, ◌^◌, All, flat_map, length};
ghost use Rattle.fpga_types.specs.Boxes.{opens};
ghost use Rattle.fpga_types.specs.Pins.{HasPin};
ghost use Rattle.route_encode.specs.Adding.{lit_count};
ghost use Rattle.route_encode.specs.Encoding.{cnf_of, open_track};

use fpga_bounds::PlacedProblem;
use fpga_fabric::fc;
use fpga_types::{Arch, PinStep, STEP_LIMIT, WIDTH_LIMIT};

/// How many clauses and literals a formula has.
#[derive(Clone, Copy)]
pub(crate) struct FormulaSize {
    /// How many clauses.
    pub clauses: u64,
    /// How many literals they have together.
    pub lits: u64,
}

/// The size of the formula of a problem at a width. The time is that of the pin steps.
pub(crate) fn formula_size(problem: &PlacedProblem, width: u32) -> FormulaSize
    requires width { (1 ≤ width) × (width ≤ WIDTH_LIMIT) }
    ensures clauses { result.clauses ≡ length (cnf_of width problem.now).clauses }
    ensures lits { result.lits ≡ lit_count (cnf_of width problem.now).clauses }
    ensures few { (result.clauses < 2 ^ 63) × (result.lits < 2 ^ 63) }
{
    let tracks = width as u64;
    let slots = problem.slots().len() as u64;
    let steps = problem.steps().len() as u64;
    let closed = closed_count(problem.arch(), width, problem.pin_steps());
    let of_two = slots * (tracks * (tracks - 1) / 2) + steps * tracks + problem.pairs() * tracks;
    FormulaSize {
        clauses: slots + closed + of_two,
        lits: slots * tracks + closed + 2 * of_two,
    }
}

/// How many tracks the pins of these steps do not open, counted anew for each step.
fn closed_count(arch: &Arch, width: u32, pin_steps: &[PinStep]) -> u64
    requires width { (1 ≤ width) × (width ≤ WIDTH_LIMIT) }
    requires pins { All (λ p. HasPin arch.now p.pin) pin_steps.now }
    requires few { length pin_steps.now ≤ STEP_LIMIT }
    ensures count { result
        ≡ length (flat_map (open_track (opens arch.now width) width) pin_steps.now) }
    ensures within { result ≤ STEP_LIMIT * WIDTH_LIMIT }
{
    let mut closed = 0;
    for step in pin_steps {
        closed += (width - fc(arch, width, step.pin)) as u64;
    }
    closed
}
