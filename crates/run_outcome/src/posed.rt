//! What is so of a problem that was posed.
ghost use Rattle.fpga_types.specs.Fits.{Fits};
ghost use Rattle.fpga_types.specs.Given.{IsGiven};

use fpga_bounds::PlacedProblem;

/// Of a problem that was posed the four values were given as their readers give them. Does nothing.
pub fn was_given(problem: &PlacedProblem)
    ensures { IsGiven problem.now }
{
    let _route = problem.route();
}

/// A problem that was posed fits. Does nothing.
pub fn does_fit(problem: &PlacedProblem)
    ensures { Fits problem.now }
{
    let _route = problem.route();
}
