//! The last three digits of numbers, from a table.
ghost use Rattle.std.specs.Prelude.{◌≡◌, ◌<◌};
ghost use Rattle.sat_text.specs.Triples.{AreTriples};
ghost use Rattle.sat_text.specs.Triples as spec;

/// How many numbers have at most three digits.
const COUNT: usize = 1000;

/// The three digits of each number below 1,000, with zeros in front.
#[derive(Drop)]
pub struct DigitTable {
    rows: [[u8; 3]; COUNT],
    ghost each: { AreTriples rows },
}

impl DigitTable {
    /// The table.
    pub fn new() -> DigitTable {
        let mut rows = [[0; 3]; COUNT];
        for n in 0..COUNT {
            rows[n] = last_three(n as u64);
        }
        DigitTable { rows }
    }

    /// The last three digits of a number, with zeros in front.
    pub fn last_three(&self, number: u64) -> [u8; 3]
        ensures { result ≡ spec.last_three number }
    {
        self.rows[(number % 1000) as usize]
    }
}

/// The last three digits of a number, by division.
fn last_three(number: u64) -> [u8; 3]
    ensures { result ≡ spec.last_three number }
{
    [
        b'0' + (number / 100 % 10) as u8,
        b'0' + (number / 10 % 10) as u8,
        b'0' + (number % 10) as u8,
    ]
}
