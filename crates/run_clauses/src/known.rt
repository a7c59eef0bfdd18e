//! What is known of a problem before the work of a job.
ghost use Rattle.std.specs.Prelude.{◌≡◌, IfOk, OnErr, true};
ghost use Rattle.run_clauses.specs.Known.{IsKnown};
ghost use Rattle.run_clauses.specs.Method.{goes_by_crowd};

use fpga_bounds::PlacedProblem;
use problem_facts::Facts;
use router_words::Method;
use std::alloc::{AllocError, Global};

/// The facts of a problem, found once a job, where its method keeps tracks in the order of a crowd
/// or it counts; nothing for another job.
///
/// # Errors
/// Where memory is short.
pub fn known_of(
    alloc: Global,
    method: Method,
    count: bool,
    problem: &PlacedProblem,
) -> Result<Option<Facts>, AllocError>
    ensures ok { IfOk result (IsKnown method count problem.now) }
    ensures err { OnErr result (goes_by_crowd method count ≡ true) }
{
    if !goes_by_crowd(method, count) {
        return Ok(None);
    }
    let Ok(facts) = Facts::of(alloc, problem) else {
        return Err(AllocError);
    };
    Ok(Some(facts))
}

// Whether tracks are kept in the order of a crowd, or its trees are counted.
fn goes_by_crowd(method: Method, count: bool) -> bool
    ensures { result ≡ goes_by_crowd method count }
{
    match method {
        Method::Ordered => true,
        Method::Strictly | Method::Pinned | Method::Within(_) => count,
    }
}
