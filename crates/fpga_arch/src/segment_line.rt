//! What a segment line says.
ghost use Rattle.std.specs.Prelude.{◌≡◌, ◌==◌, option_map};
ghost use Rattle.std.specs.List.{list_any};
ghost use Rattle.fpga_text.specs.Said.{says_decimal, says_whole};
ghost use Rattle.fpga_arch.specs.Segments.{is_length, is_long, is_sparse, pairs};
ghost use Rattle.fpga_arch.specs.SegmentLines.{with_pair as said_with};

use fpga_text::{Line, Word, millionths_of, whole_number_of};

/// What the pairs of a segment line say.
#[derive(Clone, Copy)]
pub struct SegmentSaid {
    /// Whether a length is said.
    pub has_length: bool,
    /// Whether one is said that is not 1.
    pub is_long: bool,
    /// Whether a part of the connection boxes or switch blocks is left out.
    pub is_sparse: bool,
}

/// What the words behind `segment` say.
pub fn read_segment(line: &mut Line<'_>) -> SegmentSaid
    ensures length { result.has_length ≡ list_any is_length (pairs line.old.words) }
    ensures long { result.is_long ≡ list_any is_long (pairs line.old.words) }
    ensures sparse { result.is_sparse ≡ list_any is_sparse (pairs line.old.words) }
{
    let mut said = SegmentSaid {
        has_length: false,
        is_long: false,
        is_sparse: false,
    };
    while let Some(key) = line.next_word() {
        said = with_pair(said, key, line.next_word());
    }
    said
}

/// The same with one more pair.
fn with_pair(said: SegmentSaid, key: Word<'_>, value: Option<Word<'_>>) -> SegmentSaid
    ensures { result ≡ said_with said (record {
      key = key.entry.text.now;
      value = option_map (λ w. w.text.now) value.entry;
    }) }
{
    let is_length = key.is(b"length:");
    let is_part = key.is(b"Frac_cb:") || key.is(b"Frac_sb:");
    SegmentSaid {
        has_length: said.has_length || is_length,
        is_long: said.is_long || (is_length && !is_one(value)),
        is_sparse: said.is_sparse || (is_part && !is_whole_part(value)),
    }
}

/// Whether the word is there and says the whole number 1.
fn is_one(word: Option<Word<'_>>) -> bool
    ensures { result ≡ says_whole (λ n. n == 1) (option_map (λ w. w.text.now) word.entry) }
{
    let Some(word) = word else {
        return false;
    };
    whole_number_of(word.text) == Some(1)
}

/// Whether the word is there and says a decimal of 1.
fn is_whole_part(word: Option<Word<'_>>) -> bool
    ensures { result ≡ says_decimal (λ d. d == 1000000) (option_map (λ w. w.text.now) word.entry) }
{
    let Some(word) = word else {
        return false;
    };
    millionths_of(word.text) == Some(1_000_000)
}
