//! Why a step of a log is refused.
ghost use Rattle.std.specs.Prelude.{◌≡◌, IfSome, IsTrue, is_some};
ghost use Rattle.std.specs.Option.{option_copied};
ghost use Rattle.code_words.specs.Causes.{refusal_phrase};
ghost use Rattle.code_words.specs.Codes.{is_refusal_cause};
ghost use Rattle.code_words.specs.Phrases.{is_phrase};

use crate::phrases::*;

/// Why a step is refused, by the cause from 1 to 10 that a report tells: a phrase of printable
/// ASCII on one line, with no stop at its end. None of another number.
pub fn refusal(cause: u32) -> Option<&'static str>
    ensures says { option_copied result ≡ refusal_phrase cause }
    ensures there { is_some result ≡ is_refusal_cause cause }
    ensures phrase { IfSome result (λ words. IsTrue (is_phrase words.now)) }
{
    match cause {
        1 => Some(STEP_UNKNOWN_HINT),
        2 => Some(STEP_OPEN_HINT),
        3 => Some(STEP_TRUE_HINT),
        4 => Some(STEP_TOO_FEW_HINTS),
        5 => Some(STEP_HINT_BEHIND_THE_LAST),
        6 => Some(STEP_UNKNOWN_DELETION),
        7 => Some(STEP_NO_EMPTY_CLAUSE),
        8 => Some(STEP_NO_GROUP),
        9 => Some(STEP_STRAY_GROUP),
        10 => Some(STEP_TOO_SHORT_GROUP),
        _ => None,
    }
}
