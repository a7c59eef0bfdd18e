//! Signed numbers, as the words of CNF and LRAT texts say them.
ghost use Rattle.std.specs.Prelude.{◌≡◌};
ghost use Rattle.sat_text.specs.Numbers.{natural_of, is_zero as is_zero_of};

use fpga_text::signed_number_of;

/// The number that a word says, or None: exactly where it says none or a negative one.
pub fn natural_of(word: &[u8]) -> Option<u64>
    ensures { result ≡ natural_of word.now }
{
    let Some(said) = signed_number_of(word) else {
        return None;
    };
    if said < 0 {
        return None;
    }
    Some(said as u64)
}

/// Whether a number is 0.
pub fn is_zero(number: &i64) -> bool
    ensures { result ≡ is_zero_of number.now }
{
    *number == 0
}
