//! Whole numbers, as the words of a text write them.
ghost use Rattle.std.specs.Prelude.{◌≡◌, ◌+◌, ◌*◌, ◌^◌, ◌<◌, ◌≤◌, true, false, codes, drop, length, IfSome, IfNone};
ghost use Rattle.std.specs.Char.{digit_value, is_ascii_digit};
ghost use Rattle.std.specs.List.{list_all};
ghost use Rattle.fpga_text.specs.Numbers.{millionths_of, negated_number, plain_number, signed_number_of, whole_number_of, with_digits};

use crate::cut::{first_byte, part_at};

/// The size of the least number of 64 bits with a sign.
const LEAST_SIZE: u64 = 1 << 63;

/// The whole number that a word says, or None: exactly where it is not one or more decimal digits
/// or its value passes 64 bits.
pub fn whole_number_of(word: &[u8]) -> Option<u64>
    ensures { result ≡ whole_number_of word.now }
{
    if word.is_empty() {
        return None;
    }
    with_digits(Some(0), word)
}

/// The decimal that a word says, in millionths, or None: exactly where it is not decimal digits
/// with at most one point and at least one digit, or its value passes 64 bits. Digits behind the
/// sixth after the point are cut off.
pub fn millionths_of(word: &[u8]) -> Option<u64>
    ensures { result ≡ millionths_of word.now }
{
    let (whole, part) = part_at(word, first_byte(word, b'.'));
    if whole.is_empty() && part.is_empty() {
        return None;
    }
    if !are_all_digits(part) {
        return None;
    }
    let kept = &part[..part.len().min(6)];
    let number = with_digits(with_digits(Some(0), whole), kept);
    with_digits(number, zeros_behind(kept))
}

/// The zeros that these digits lack to be six.
fn zeros_behind(digits: &[u8]) -> &'static [u8]
    requires { length digits.now ≤ 6 }
    ensures { result.now ≡ drop (length digits.now) (codes "000000") }
{
    let (_, zeros) = b"000000".split_at(digits.len());
    zeros
}

/// Whether each byte is a digit.
fn are_all_digits(bytes: &[u8]) -> bool
    ensures { result ≡ list_all is_ascii_digit bytes.now }
{
    bytes.iter().all(|b| b.is_ascii_digit())
}

/// The number with these digits at its end, or None where there is no number, one of them is no
/// digit or the value passes 64 bits.
fn with_digits(number: Option<u64>, digits: &[u8]) -> Option<u64>
    ensures { result ≡ with_digits number digits.now }
{
    let Some(mut value) = number else {
        return None;
    };
    for byte in digits {
        let Some(digit) = digit_of(*byte) else {
            return None;
        };
        let Some(next) = followed_by(value, digit) else {
            return None;
        };
        value = next;
    }
    Some(value)
}

/// The digit that a byte is, or None where it is none.
#[inline(always)]
pub fn digit_of(byte: u8) -> Option<u64>
    ensures digit { IfSome result (λ d. is_ascii_digit byte ≡ true) }
    ensures value { IfSome result (λ d. d ≡ digit_value byte) }
    ensures small { IfSome result (λ d. d < 10) }
    ensures none { IfNone result (is_ascii_digit byte ≡ false) }
{
    // One comparison, at the width of what the digit is added to.
    let digit = u64::from(byte).wrapping_sub(48);
    if digit > 9 {
        return None;
    }
    Some(digit)
}

/// The number with one more digit at its end, or None where it passes 64 bits.
fn followed_by(value: u64, digit: u64) -> Option<u64>
    requires { digit < 10 }
    ensures value { IfSome result (λ n. n ≡ value * 10 + digit) }
    ensures fits { IfSome result (λ n. n < 2 ^ 64) }
    ensures great { IfNone result (2 ^ 64 ≤ value * 10 + digit) }
{
    value.checked_mul(10)?.checked_add(digit)
}

/// The number that a word says, or None: exactly where it is not one or more decimal digits behind
/// a minus sign or without one, or passes 64 bits with a sign.
pub fn signed_number_of(word: &[u8]) -> Option<i64>
    ensures { result ≡ signed_number_of word.now }
{
    match word {
        [] => None,
        [b'-', digits @ ..] => whole_number_of(digits).and_then(negated_number),
        _ => whole_number_of(word).and_then(plain_number),
    }
}

/// The number, or None where it passes 64 bits with a sign.
fn plain_number(size: u64) -> Option<i64>
    ensures { result ≡ plain_number size }
{
    if size >= LEAST_SIZE {
        return None;
    }
    Some(size as i64)
}

/// The number with a minus sign, or None where it passes 64 bits with a sign.
fn negated_number(size: u64) -> Option<i64>
    ensures { result ≡ negated_number size }
{
    if size > LEAST_SIZE {
        return None;
    }
    if size == LEAST_SIZE {
        return Some(i64::MIN);
    }
    Some(-(size as i64))
}
