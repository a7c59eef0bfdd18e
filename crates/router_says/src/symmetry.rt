//! Words for tracks that are to be pinned or kept in order, and are not alike enough.
ghost use Rattle.std.specs.Prelude.{◌≡◌, ◌++◌, OnOk, decimal, string_bytes};
ghost use Rattle.router_says.specs.Said.{lack_said, obstacle_said, option_said, reason_said};
ghost use Rattle.router_says.specs.declared.phrases.TheConstants.{ASYMMETRY_AT, ASYMMETRY_FORBIDS, ASYMMETRY_SO, TRACKS};

use crate::phrases::*;
use problem_facts::Asymmetry;
use run_outcome::Obstacle;
use std::alloc::AllocError;

/// Appends at which width tracks are not alike enough, what keeps them from it, and which option
/// can't be used.
pub(crate) fn append_obstacle(out: &mut String, width: u32, why: Obstacle) -> Result<(), AllocError>
    ensures { OnOk result
        (string_bytes out.new ≡ string_bytes out.old ++ obstacle_said width why) }
{
    append_reason(out, width, reason_said(why), option_said(why))
}

// Appends the same with these words for the reason and the option.
fn append_reason(out: &mut String, width: u32, reason: &str, option: &str) -> Result<(), AllocError>
    ensures { OnOk result (string_bytes out.new ≡ string_bytes out.old
        ++ (ASYMMETRY_AT.now ++ (decimal width ++ (TRACKS.now ++ (reason.now
        ++ (ASYMMETRY_SO.now ++ (option.now ++ ASYMMETRY_FORBIDS.now))))))) }
{
    write!(
        out,
        "{ASYMMETRY_AT}{width}{TRACKS}{reason}{ASYMMETRY_SO}{option}{ASYMMETRY_FORBIDS}"
    )
}

// What keeps tracks from being pinned or kept in order.
fn reason_said(why: Obstacle) -> &'static str
    ensures { result.now ≡ reason_said why }
{
    match why {
        Obstacle::Pins(why) => lack_said(ASYMMETRY_NOT_SUBSET, why),
        Obstacle::Order(why) => lack_said(ASYMMETRY_OTHER_PATTERN, why),
    }
}

// What keeps tracks from being alike enough, with these words for the switch blocks.
fn lack_said(blocks: &'static str, why: Asymmetry) -> &'static str
    ensures { result.now ≡ lack_said blocks.now why }
{
    match why {
        Asymmetry::Pattern => blocks,
        Asymmetry::Outputs => ASYMMETRY_OUTPUTS,
        Asymmetry::Inputs => ASYMMETRY_INPUTS,
        Asymmetry::Pads => ASYMMETRY_PADS,
    }
}

// The option that asks for what can't be.
fn option_said(why: Obstacle) -> &'static str
    ensures { result.now ≡ option_said why }
{
    match why {
        Obstacle::Pins(_) => OPTION_PIN,
        Obstacle::Order(_) => OPTION_SYMMETRY,
    }
}
