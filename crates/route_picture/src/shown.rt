//! What a picture shows: the route of a problem, or a routing of it within a reach.
ghost use Rattle.std.specs.Prelude.{◌≡◌, ◌⊎◌, ◌≤◌, MatchResult, string_bytes};
ghost use Rattle.std.specs.Option.{option_copied};
ghost use Rattle.fpga_types.specs.declared.limits.TheConstants.{WIDTH_LIMIT};
ghost use Rattle.route_draw.specs.Blamed.{blame_of};
ghost use Rattle.route_draw.specs.Cut.{cut_of};
ghost use Rattle.route_draw.specs.Picture.{IsPicture};
ghost use Rattle.route_picture.specs.declared.stop.Stop.TheVariants.{Memory};
ghost use Rattle.route_picture.specs.Printed.{Shows, ShowsRouted, StopsRouted, StopsRoutedIf};
ghost use Rattle.route_picture.specs.Words.{words_said};

use crate::stop::Stop;
use crate::words::Words;
use fpga_bounds::PlacedProblem;
use fpga_route::read_route;
use route_draw::{Emphasis, ShownCut, draw, draw_routed};
use route_verify::{Judgement, verify_reach};
use std::alloc::Global;

/// The picture of the routing that the text says, if the words ask for one and it is there, or else
/// of the problem's own route.
pub(crate) fn shown<'a>(
    alloc: Global,
    problem: &'a PlacedProblem,
    words: Words<'_>,
    text: Option<&[u8]>,
    emphasis: &Emphasis<'a>,
    cut: Option<ShownCut<'_>>,
) -> Result<String, Stop>
    requires { (1 ≤ words.width) × (words.width ≤ WIDTH_LIMIT) }
    ensures { MatchResult result
        (λ picture. Shows (words_said words.entry).routed (option_copied text.entry) problem.now
        words.entry.width (blame_of emphasis.now) (cut_of cut.entry) (string_bytes picture))
        (λ stop. StopsRoutedIf (words_said words.entry).routed (option_copied text.entry)
        problem.now words.entry.width stop ⊎ (stop ≡ Memory)) }
{
    let Some(routed) = words.routed else {
        match route_picture(alloc, problem, words.width, emphasis, cut) {
            Ok(picture) => return Ok(picture),
            Err(stop) => return Err(stop),
        }
    };
    let Some(text) = text else {
        match route_picture(alloc, problem, words.width, emphasis, cut) {
            Ok(picture) => return Ok(picture),
            Err(stop) => return Err(stop),
        }
    };
    match routed_picture(alloc, problem, words.width, routed.reach, text) {
        Ok(picture) => Ok(picture),
        Err(stop) => Err(stop),
    }
}

// The picture of a problem and its route.
fn route_picture<'a>(
    alloc: Global,
    problem: &'a PlacedProblem,
    width: u32,
    emphasis: &Emphasis<'a>,
    cut: Option<ShownCut<'_>>,
) -> Result<String, Stop>
    ensures { MatchResult result
        (λ picture. IsPicture problem.now width (blame_of emphasis.now) (cut_of cut.entry)
        (string_bytes picture))
        (λ stop. stop ≡ Memory) }
{
    let Ok(picture) = draw(alloc, problem, width, emphasis, cut) else {
        return Err(Stop::Memory);
    };
    Ok(picture)
}

// The picture of the routing that a text says, if it is legal within the reach.
fn routed_picture(
    alloc: Global,
    problem: &PlacedProblem,
    width: u32,
    reach: u32,
    text: &[u8],
) -> Result<String, Stop>
    requires { (1 ≤ width) × (width ≤ WIDTH_LIMIT) }
    ensures { MatchResult result
        (λ picture. ShowsRouted problem.now width reach text.now (string_bytes picture))
        (λ stop. StopsRouted problem.now width reach text.now stop ⊎ (stop ≡ Memory)) }
{
    let found = match read_route(alloc, text) {
        Ok(found) => found,
        Err(fault) => return Err(Stop::BadRouted(fault)),
    };
    match verify_reach(alloc, problem, width, reach, &found) {
        Ok(Judgement::Legal) => (),
        Ok(Judgement::NotLegal { line, cause }) => return Err(Stop::Illegal { line, cause }),
        Err(_) => return Err(Stop::Memory),
    }
    let Ok(picture) = draw_routed(alloc, problem, &found, width) else {
        return Err(Stop::Memory);
    };
    Ok(picture)
}
