//! Where a text has a part.
ghost use Rattle.std.specs.Prelude.{◌≡◌};
ghost use Rattle.rows.specs.Parts.{places_of};

/// At how many places of a text this part of it begins.
pub fn places_of(text: &[u8], part: &[u8]) -> u64
    ensures { result ≡ places_of part.now text.now }
{
    let mut count = 0u64;
    for at in 0..text.len() {
        if text[at..].starts_with(part) {
            count += 1;
        }
    }
    count
}
