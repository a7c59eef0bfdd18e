//! Short numbers at the front of a text. Each is read in one pass over its bytes, since texts of
//! many numbers are read no faster than those.
ghost use Rattle.std.specs.Prelude.{◌≡◌, ◌<◌, ◌≤◌, ◌^◌, Some, IfSome, IsTrue, length, nat_abs, neg_ℤ, pos};
ghost use Rattle.std.specs.List.{after_first, before_first};
ghost use Rattle.fpga_text.specs.Bytes.{is_blank};
ghost use Rattle.fpga_text.specs.Numbers.{signed_number_of, whole_number_of};
ghost use Rattle.fpga_text.specs.Words.{begins_word, words};

use crate::cut::from_first_word;
use crate::number::digit_of;

/// How many digits a short number has at the most. So many say a number far below 64 bits, and one
/// more too, so no digit is tested for its room.
const MOST_DIGITS: usize = 17;

/// Among so many bytes most numbers end. They are looked at without a count.
const AT_ONCE: usize = 8;

/// The size of a number, and what stands behind it, from its next word on.
#[derive(Clone, Copy)]
struct FrontDigits<'a> {
    size: u64,
    behind: &'a [u8],
}

/// A number, and what stands behind it, from its next word on.
#[derive(Clone, Copy)]
pub struct FrontNumber<'a> {
    pub value: i64,
    pub behind: &'a [u8],
}

/// The size that the first word says, where that is digits, and a space ends it among so many
/// bytes, or the text does.
#[inline(always)]
fn digits_among<'a>(text: &'a [u8], looked_at: usize) -> Option<FrontDigits<'a>>
    requires within { looked_at ≤ length text.now }
    requires few { looked_at ≤ 18 }
    ensures size { IfSome result (λ front. whole_number_of (before_first is_blank text.now)
        ≡ Some front.size) }
    ensures small { IfSome result (λ front. front.size < 10 ^ 18) }
    ensures behind { IfSome result (λ front. words front.behind.now
        ≡ words (after_first is_blank text.now)) }
    ensures begins { IfSome result (λ front. IsTrue (begins_word front.behind.now)) }
{
    let mut size: u64 = 0;
    for (i, byte) in text[..looked_at].iter().enumerate() {
        let Some(digit) = digit_of(*byte) else {
            if i == 0 || *byte != b' ' {
                return None;
            }
            return Some(FrontDigits {
                size,
                behind: from_first_word(&text[i + 1..]),
            });
        };
        size = size * 10 + digit;
    }
    if text.is_empty() || looked_at > MOST_DIGITS || looked_at < text.len() {
        return None;
    }
    Some(FrontDigits { size, behind: &[] })
}

/// The same of one to 17 digits.
fn many_digits<'a>(text: &'a [u8]) -> Option<FrontDigits<'a>>
    ensures size { IfSome result (λ front. whole_number_of (before_first is_blank text.now)
        ≡ Some front.size) }
    ensures small { IfSome result (λ front. front.size < 10 ^ 18) }
    ensures behind { IfSome result (λ front. words front.behind.now
        ≡ words (after_first is_blank text.now)) }
    ensures begins { IfSome result (λ front. IsTrue (begins_word front.behind.now)) }
{
    digits_among(text, text.len().min(MOST_DIGITS + 1))
}

/// The same, first of fewer digits, in code without a loop.
#[inline(always)]
fn front_digits<'a>(text: &'a [u8]) -> Option<FrontDigits<'a>>
    ensures size { IfSome result (λ front. whole_number_of (before_first is_blank text.now)
        ≡ Some front.size) }
    ensures small { IfSome result (λ front. front.size < 10 ^ 18) }
    ensures behind { IfSome result (λ front. words front.behind.now
        ≡ words (after_first is_blank text.now)) }
    ensures begins { IfSome result (λ front. IsTrue (begins_word front.behind.now)) }
{
    if text.len() < AT_ONCE {
        return digits_among(text, text.len());
    }
    let Some(front) = digits_among(text, AT_ONCE) else {
        return many_digits(text);
    };
    Some(front)
}

/// The number of this size with a minus sign.
fn negated(size: u64) -> i64
    requires { size < 10 ^ 18 }
    ensures value { result ≡ neg_ℤ (pos size) }
    ensures small { nat_abs result < 10 ^ 18 }
{
    -(size as i64)
}

/// The number that the first word says, where it is one to 17 digits behind a minus sign or without
/// one, before a space or the text's end.
#[inline(always)]
pub fn front_number<'a>(text: &'a [u8]) -> Option<FrontNumber<'a>>
    ensures value { IfSome result (λ front. signed_number_of (before_first is_blank text.now)
        ≡ Some front.value) }
    ensures small { IfSome result (λ front. nat_abs front.value < 10 ^ 18) }
    ensures behind { IfSome result (λ front. words front.behind.now
        ≡ words (after_first is_blank text.now)) }
    ensures begins { IfSome result (λ front. IsTrue (begins_word front.behind.now)) }
{
    let Some((first, behind)) = text.split_first() else {
        return None;
    };
    if *first == b'-' {
        let Some(front) = front_digits(behind) else {
            return None;
        };
        return Some(FrontNumber {
            value: negated(front.size),
            behind: front.behind,
        });
    }
    let Some(front) = front_digits(text) else {
        return None;
    };
    Some(FrontNumber {
        value: front.size as i64,
        behind: front.behind,
    })
}
