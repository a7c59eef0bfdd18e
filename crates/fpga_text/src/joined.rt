//! Lines that a backslash joins to those behind them.
ghost use Rattle.std.specs.Prelude.{◌≡◌, ◌++◌, [], IsTrue, if◌then◌else◌};
ghost use Rattle.fpga_text.specs.Joined.{goes_on, said_part, trimmed as trimmed_of};
ghost use Rattle.fpga_text.specs.Joining.{EndsBehind};
ghost use Rattle.fpga_text.specs.Words.{words as words_of, begins_word, words_later};

use crate::cut::{first_byte, from_first_word, is_blank, part_at};

/// A line of a text as a part of a joined line.
#[derive(Clone, Copy)]
pub struct Part<'a> {
    /// The bytes that say words: no comment, and no backslash at the end.
    pub said: &'a [u8],
    /// Whether the line goes on behind it.
    pub goes_on: bool,
}

/// What is left of a line: words of one part, and the text that it goes on in, if it does.
#[derive(Clone, Copy)]
pub struct Rest<'a> {
    pub words: &'a [u8],
    pub later: &'a [u8],
}

/// Where a joined line has ended: the text behind it, and how many lines of the text it took.
#[derive(Clone, Copy)]
pub struct Behind<'a> {
    pub text: &'a [u8],
    pub taken: u64,
}

/// The text without the blanks at its end.
fn trimmed<'a>(text: &'a [u8]) -> &'a [u8]
    ensures { result.now ≡ trimmed_of text.now }
{
    let mut end = text.len();
    while end > 0 {
        if !is_blank(text[end - 1]) {
            return &text[..end];
        }
        end -= 1;
    }
    &[]
}

/// What a line of a text is as a part of a joined line.
pub fn part_of<'a>(raw: &'a [u8]) -> Part<'a>
    ensures said { result.said.now ≡ said_part raw.now }
    ensures goes_on { result.goes_on ≡ goes_on raw.now }
{
    let said = &raw[..first_byte(raw, b'#')];
    let Some((last, before)) = trimmed(said).split_last() else {
        return Part {
            said,
            goes_on: false,
        };
    };
    if *last != b'\\' {
        return Part {
            said,
            goes_on: false,
        };
    }
    Part {
        said: before,
        goes_on: true,
    }
}

/// What is left of a line, from its next word on: without words where there are none.
#[inline(always)]
pub fn front_part<'a>(words: &'a [u8], later: &'a [u8]) -> Rest<'a>
    requires { IsTrue (begins_word words.now) }
    ensures same { words_of result.words.now ++ words_later result.later.now
        ≡ words_of words.now ++ words_later later.now }
    ensures begins { IsTrue (begins_word result.words.now) }
    ensures none { result.words.now ≡ [] → words_of words.now ++ words_later later.now ≡ [] }
{
    if !words.is_empty() {
        return Rest { words, later };
    }
    if later.is_empty() {
        return Rest {
            words: &[],
            later: &[],
        };
    }
    next_part(later)
}

/// The next part with words of a line that goes on in this text: without words where none has any.
fn next_part<'a>(text: &'a [u8]) -> Rest<'a>
    ensures same { words_of result.words.now ++ words_later result.later.now
        ≡ words_later text.now }
    ensures begins { IsTrue (begins_word result.words.now) }
    ensures none { result.words.now ≡ [] → words_later text.now ≡ [] }
{
    let mut later = text;
    while !later.is_empty() {
        let (raw, behind) = part_at(later, first_byte(later, b'\n'));
        let part = part_of(raw);
        let words = from_first_word(part.said);
        later = text_later(part.goes_on, behind);
        if !words.is_empty() {
            return Rest { words, later };
        }
    }
    Rest {
        words: &[],
        later: &[],
    }
}

/// The text that a line goes on in, if it goes on.
fn text_later<'a>(goes_on: bool, behind: &'a [u8]) -> &'a [u8]
    ensures { result.now ≡ (if goes_on then behind.now else []) }
{
    if goes_on { behind } else { &[] }
}

/// Where a line ends that goes on in this text.
pub fn behind_parts<'a>(text: &'a [u8]) -> Behind<'a>
    ensures { EndsBehind text.now result.taken result.text.now }
{
    let mut rest = text;
    let mut taken: u64 = 0;
    while !rest.is_empty() {
        let (raw, behind) = part_at(rest, first_byte(rest, b'\n'));
        rest = behind;
        taken += 1;
        if !part_of(raw).goes_on {
            return Behind { text: rest, taken };
        }
    }
    Behind { text: rest, taken }
}
