//! Whether the method of a job suits its problem.
ghost use Rattle.std.specs.Prelude.{◌≡◌, ◌≤◌, ◌↔◌, IfSome, IsNone, option_map, true};
ghost use Rattle.fpga_types.specs.declared.limits.TheConstants.{WIDTH_LIMIT};
ghost use Rattle.run_clauses.specs.Suited.{IsUnsuited, Suits, is_suited, obstacle_to};
ghost use Rattle.run_outcome.specs.declared.outcome.Obstacle.TheVariants.{Order, Pins};

use fpga_bounds::PlacedProblem;
use fpga_types::WIDTH_LIMIT;
use problem_facts::{Asymmetry, why_not_exchangeable, why_not_symmetric};
use router_words::Method;
use run_outcome::{Obstacle, Outcome};

// What keeps the method from the problem at a width, if something does.
fn obstacle(problem: &PlacedProblem, method: Method, width: u32) -> Option<Obstacle>
    requires width { (1 ≤ width) × (width ≤ WIDTH_LIMIT) }
    ensures first { result ≡ obstacle_to method width problem.now }
    ensures none { IsNone result ↔ (is_suited method width problem.now ≡ true) }
{
    match method {
        Method::Strictly | Method::Within(_) => None,
        Method::Pinned => to_pins(why_not_symmetric(problem, width)),
        Method::Ordered => to_order(why_not_exchangeable(problem, width)),
    }
}

// This as an obstacle to pinned tracks.
fn to_pins(why: Option<Asymmetry>) -> Option<Obstacle>
    ensures is { result ≡ option_map Pins why }
    ensures none { IsNone result ↔ IsNone why }
{
    match why {
        Some(why) => Some(Obstacle::Pins(why)),
        None => None,
    }
}

// This as an obstacle to tracks in order.
fn to_order(why: Option<Asymmetry>) -> Option<Obstacle>
    ensures is { result ≡ option_map Order why }
    ensures none { IsNone result ↔ IsNone why }
{
    match why {
        Some(why) => Some(Obstacle::Order(why)),
        None => None,
    }
}

/// What the run comes to where the method does not suit the problem at some of these widths, with
/// the least such width.
pub fn unsuited(problem: &PlacedProblem, method: Method, first: u32, last: u32) -> Option<Outcome>
    requires widths { (1 ≤ first) × (last ≤ WIDTH_LIMIT) }
    ensures unsuited { IfSome result (IsUnsuited method first last problem.now) }
    ensures suits { IsNone result → Suits method first last problem.now }
{
    for width in first..last + 1 {
        if let Some(why) = obstacle(problem, method, width) {
            return Some(Outcome::NotSymmetric { width, why });
        }
    }
    None
}
