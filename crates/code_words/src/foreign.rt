//! What a file is instead of the one that is due.
ghost use Rattle.std.specs.Prelude.{◌≡◌, IfSome, IsTrue};
ghost use Rattle.std.specs.Option.{option_copied};
ghost use Rattle.code_words.specs.Foreign as spec;
ghost use Rattle.code_words.specs.Phrases.{is_phrase};

use crate::phrases::*;

/// What a file is instead of a text of VPR 4.30, DIMACS or LRAT, where its first bytes tell: XML, a
/// placement or a route of VPR 8 or 9, packed by gzip, in UTF-16, or behind a byte order mark. It
/// is a phrase of printable ASCII on one line, with no stop at its end.
pub fn foreign_kind(text: &[u8]) -> Option<&'static str>
    ensures says { option_copied result ≡ spec.foreign_phrase text.now }
    ensures phrase { IfSome result (λ words. IsTrue (is_phrase words.now)) }
{
    if leads(&[0x1f, 0x8b], text) {
        return Some(FOREIGN_PACKED);
    }
    if is_wide(text) {
        return Some(FOREIGN_WIDE);
    }
    if leads(&[0xef, 0xbb, 0xbf], text) {
        return Some(FOREIGN_MARKED);
    }
    if leads(b"<", text) {
        return Some(FOREIGN_XML);
    }
    if is_later(text) {
        return Some(FOREIGN_LATER);
    }
    None
}

// Whether a text begins with the byte order mark of UTF-16, of either order.
fn is_wide(text: &[u8]) -> bool
    ensures { result ≡ spec.is_wide text.now }
{
    leads(&[0xff, 0xfe], text) || leads(&[0xfe, 0xff], text)
}

// Whether a text begins with a first word of placements and routes of VPR 8 and 9.
fn is_later(text: &[u8]) -> bool
    ensures { result ≡ spec.is_later text.now }
{
    leads(b"Netlist_File:", text) || leads(b"Placement_File:", text)
}

// Whether a text begins with these bytes.
fn leads(front: &[u8], text: &[u8]) -> bool
    ensures { result ≡ spec.leads front.now text.now }
{
    text.starts_with(front)
}
