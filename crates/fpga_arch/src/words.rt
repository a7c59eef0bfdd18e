//! What a single word of an architecture says.
ghost use Rattle.std.specs.Prelude.{◌≡◌, ◌≤◌, Some, true, slice_get, IfSome, IfNone};
ghost use Rattle.fpga_text.specs.Said.{decimal_said};
ghost use Rattle.fpga_arch.specs.Codes.{fraction_of, lacks_share, pattern_of};
ghost use Rattle.fpga_arch.specs.Pins as pins;

use fpga_text::{Line, Word};
use fpga_types::{Pattern, SHARE_LIMIT, SideSet};

/// The pattern that the next word names.
pub fn next_pattern(line: &mut Line<'_>) -> Option<Pattern>
    ensures { result ≡ pattern_of (slice_get line.old.words 0) }
{
    let Some(word) = line.next_word() else {
        return None;
    };
    if word.is(b"subset") {
        return Some(Pattern::Subset);
    }
    if word.is(b"wilton") {
        return Some(Pattern::Wilton);
    }
    if word.is(b"universal") {
        return Some(Pattern::Universal);
    }
    None
}

/// Whether the next word says that pins open a part of the tracks, or that they open a number.
pub fn next_fraction(line: &mut Line<'_>) -> Option<bool>
    ensures { result ≡ fraction_of (slice_get line.old.words 0) }
{
    let Some(word) = line.next_word() else {
        return None;
    };
    if word.is(b"fractional") {
        return Some(true);
    }
    if word.is(b"absolute") {
        return Some(false);
    }
    None
}

/// The share that the next word says, in millionths, or None where it is no decimal up to the
/// limit.
pub fn next_share(line: &mut Line<'_>) -> Option<u64>
    ensures some { IfSome result (λ share. decimal_said (slice_get line.old.words 0) ≡ Some share) }
    ensures within { IfSome result (λ share. share ≤ SHARE_LIMIT) }
    ensures none { IfNone result (lacks_share line.old.words ≡ true) }
{
    let Some(share) = line.next_millionths() else {
        return None;
    };
    if share > SHARE_LIMIT {
        return None;
    }
    Some(share)
}

/// The side that a word names, if it names one.
pub fn side_of(word: Word<'_>) -> SideSet
    ensures { result ≡ pins.side_of word.entry.text.now }
{
    SideSet {
        left: word.is(b"left"),
        right: word.is(b"right"),
        bottom: word.is(b"bottom"),
        top: word.is(b"top"),
    }
}
