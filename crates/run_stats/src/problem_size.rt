//! How large a problem is.
ghost use Rattle.std.specs.Prelude.{◌≡◌, ◌≤◌, All, IsTrue, length};
ghost use Rattle.fpga_types.specs.Fabric.{is_cell};
ghost use Rattle.fpga_types.specs.Slots.{pairs, slots, steps};
ghost use Rattle.run_stats.specs.Sizes.{slots_of_cell};

use fpga_bounds::PlacedProblem;
use fpga_types::{Grid, Slot, cell_number};
use problem_facts::Facts;

/// How large a problem is.
#[derive(Clone, Copy)]
pub struct ProblemSize {
    /// How many slots it has.
    pub slots: u64,
    /// How many steps it has.
    pub steps: u64,
    /// How many pairs of slots of different nets are in one cell.
    pub pairs: u64,
    /// How many slots its fullest cell has.
    pub fullest_cell: u64,
    /// How many trees the crowd has that was found.
    pub greatest_crowd: u64,
}

impl ProblemSize {
    /// The size of a problem, of which these facts are known.
    pub fn of(problem: &PlacedProblem, facts: &Facts) -> ProblemSize
        ensures slots { result.slots ≡ length (slots problem.now.route) }
        ensures steps { result.steps ≡ length (steps problem.now.route) }
        ensures pairs { result.pairs ≡ length (pairs (slots problem.now.route)) }
        ensures fullest_cell { result.fullest_cell ≡ length
            (slots_of_cell problem.now.route.grid facts.now.fullest (slots problem.now.route)) }
        ensures greatest_crowd { result.greatest_crowd ≡ length facts.now.crowd }
    {
        let slots = problem.slots();
        ProblemSize {
            slots: slots.len() as u64,
            steps: problem.steps().len() as u64,
            pairs: problem.pairs(),
            fullest_cell: slots_of_cell(problem.route().grid, facts.fullest_cell(), slots),
            greatest_crowd: facts.crowd().len() as u64,
        }
    }
}

// How many slots take the cell with this number.
fn slots_of_cell(grid: Grid, number: u32, slots: &[Slot]) -> u64
    requires there { All (λ slot. IsTrue (is_cell grid slot.cell)) slots.now }
    ensures { result ≡ length (slots_of_cell grid number slots.now) }
{
    let mut count = 0;
    for slot in slots {
        if cell_number(grid, slot.cell) == number {
            count += 1;
        }
    }
    count
}
