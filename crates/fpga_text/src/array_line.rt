//! The line that says the size of an array, which placements and routes share.
ghost use Rattle.std.specs.Prelude.{◌≡◌, map, option_map};
ghost use Rattle.fpga_text.specs.ArrayLine as spec;
ghost use Rattle.fpga_text.specs.SizeLines.{size_said};

use crate::first_words::FirstWords;
use crate::line::Line;
use crate::said::is_text;

/// The words of an array line that say its size: the columns and the rows.
#[derive(Clone, Copy)]
pub struct SizeLine<'a> {
    pub nx: &'a [u8],
    pub ny: &'a [u8],
}

/// The words that say the size in `Array size: nx x ny logic blocks.`, whose point may be absent,
/// of a line of which no word was taken yet.
#[tactic(auto, using(crate::proofs::ArrayLemmas::size_words_take))]
pub fn size_line<'a>(line: &mut Line<'a>) -> Option<SizeLine<'a>>
    ensures { option_map size_said result ≡ spec.size_words line.old.words }
{
    let words = FirstWords::of(line);
    size_among(words.as_slice())
}

/// The words that say the size, where these are the words of an array line.
fn size_among<'a>(words: &[&'a [u8]]) -> Option<SizeLine<'a>>
    ensures { option_map size_said result ≡ spec.size_words (map (λ w. w.now) words.now) }
{
    let [array, size, nx, by, ny, logic, blocks] = words else {
        return None;
    };
    if !is_size_frame(array, size, by, logic, blocks) {
        return None;
    }
    Some(SizeLine { nx, ny })
}

/// Whether these words stand round the size.
fn is_size_frame(array: &[u8], size: &[u8], by: &[u8], logic: &[u8], blocks: &[u8]) -> bool
    ensures { result ≡ spec.is_size_frame array.now size.now by.now logic.now blocks.now }
{
    is_text(array, b"Array")
        && is_text(size, b"size:")
        && is_text(by, b"x")
        && is_text(logic, b"logic")
        && is_blocks(blocks)
}

/// Whether a word is `blocks.` or `blocks`.
fn is_blocks(word: &[u8]) -> bool
    ensures { result ≡ spec.is_blocks word.now }
{
    is_text(word, b"blocks.") || is_text(word, b"blocks")
}
