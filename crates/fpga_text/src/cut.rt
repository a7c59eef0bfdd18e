//! Where lines, comments and words end.
ghost use Rattle.std.specs.Prelude.{◌≡◌, ◌==◌, ◌+◌, ◌≤◌, IsTrue, length, take, drop};
ghost use Rattle.std.specs.List.{position_or_len};
ghost use Rattle.fpga_text.specs.Bytes as bytes;
ghost use Rattle.fpga_text.specs.Words.{words, begins_word};

use memchr::memchr;

/// Whether a byte stands between words: a space, a tab or a carriage return.
pub fn is_blank(byte: u8) -> bool
    ensures { result ≡ bytes.is_blank byte }
{
    byte == b' ' || byte == b'\t' || byte == b'\r'
}

/// The place of the first such byte, or the length where there is none.
pub fn first_byte(text: &[u8], byte: u8) -> usize
    ensures place { result ≡ position_or_len (λ b. b == byte) text.now }
    ensures within { result ≤ length text.now }
{
    let Some(place) = memchr(byte, text) else {
        return text.len();
    };
    place
}

/// The place of the first blank, or the length where there is none.
#[tactic(auto, using(std::proofs::lemmas::List::Sums::position_or_len_is))]
pub fn first_blank(text: &[u8]) -> usize
    ensures place { result ≡ position_or_len bytes.is_blank text.now }
    ensures within { result ≤ length text.now }
{
    for (i, b) in text.iter().enumerate() {
        if is_blank(*b) {
            return i;
        }
    }
    text.len()
}

/// The text without the blanks before its first word. Mostly that word begins at once.
#[inline(always)]
pub fn from_first_word<'a>(text: &'a [u8]) -> &'a [u8]
    ensures words { words result.now ≡ words text.now }
    ensures begins { IsTrue (begins_word result.now) }
{
    if begins_at_once(text) {
        return text;
    }
    past_blanks(text)
}

/// Whether the first byte of a text is above those that blanks are among.
#[inline(always)]
fn begins_at_once(text: &[u8]) -> bool
    ensures { IsTrue result → IsTrue (begins_word text.now) }
{
    match text {
        [first, ..] => *first > b' ',
        _ => false,
    }
}

/// The same, whatever stands first.
fn past_blanks<'a>(text: &'a [u8]) -> &'a [u8]
    ensures words { words result.now ≡ words text.now }
    ensures begins { IsTrue (begins_word result.now) }
{
    for (i, b) in text.iter().enumerate() {
        if !is_blank(*b) {
            return &text[i..];
        }
    }
    &[]
}

/// What stands before a place and what stands after it.
#[inline(always)]
pub fn part_at<'a>(text: &'a [u8], place: usize) -> (&'a [u8], &'a [u8])
    requires { place ≤ length text.now }
    ensures before { result.0.now ≡ take place text.now }
    ensures after { result.1.now ≡ drop (place + 1) text.now }
{
    let (before, after) = text.split_at(place);
    match after {
        [_, rest @ ..] => (before, rest),
        _ => (before, after),
    }
}
