//! What a single word of a route text says.
ghost use Rattle.std.specs.Prelude.{◌≡◌, option_map};
ghost use Rattle.fpga_route.specs.Forms as spec;
ghost use Rattle.fpga_route.specs.Lines.{place_said as said};

use fpga_text::is_text;
use fpga_types::{ElemKind, Label};

/// The parts of a place.
#[derive(Clone, Copy)]
pub struct PlaceWord<'a> {
    pub x: &'a [u8],
    pub y: &'a [u8],
}

/// The kind that a word names.
pub fn kind_named(word: &[u8]) -> Option<ElemKind>
    ensures { result ≡ spec.kind_of word.now }
{
    if is_text(word, b"SOURCE") {
        return Some(ElemKind::Source);
    }
    if is_text(word, b"OPIN") {
        return Some(ElemKind::Opin);
    }
    if is_text(word, b"CHANX") {
        return Some(ElemKind::ChanX);
    }
    if is_text(word, b"CHANY") {
        return Some(ElemKind::ChanY);
    }
    if is_text(word, b"IPIN") {
        return Some(ElemKind::Ipin);
    }
    if is_text(word, b"SINK") {
        return Some(ElemKind::Sink);
    }
    None
}

/// The label that a word names.
pub fn label_named(word: &[u8]) -> Option<Label>
    ensures { result ≡ spec.label_of word.now }
{
    if is_text(word, b"Class:") {
        return Some(Label::Class);
    }
    if is_text(word, b"Pin:") {
        return Some(Label::Pin);
    }
    if is_text(word, b"Pad:") {
        return Some(Label::Pad);
    }
    if is_text(word, b"Track:") {
        return Some(Label::Track);
    }
    None
}

/// What stands between an opening and a closing text at the ends of a word.
pub fn enclosed<'a>(word: &'a [u8], opening: &[u8], closing: &[u8]) -> Option<&'a [u8]>
    ensures { option_map (λ r. r.now) result ≡ spec.enclosed opening.now closing.now word.now }
{
    if !word.starts_with(opening) {
        return None;
    }
    if !word.ends_with(closing) {
        return None;
    }
    if word.len() < opening.len() + closing.len() {
        return None;
    }
    Some(&word[opening.len()..word.len() - closing.len()])
}

/// The parts of a place `(x,y)`.
pub fn place_said<'a>(word: &'a [u8]) -> Option<PlaceWord<'a>>
    ensures { option_map said result ≡ spec.place_words word.now }
{
    let Some(text) = enclosed(word, b"(", b")") else {
        return None;
    };
    parts_at_comma(text)
}

/// The two sides of the first comma, where there is one.
fn parts_at_comma<'a>(text: &'a [u8]) -> Option<PlaceWord<'a>>
    ensures { option_map said result ≡ spec.comma_parts (Some text.now) }
{
    for (i, b) in text.iter().enumerate() {
        if *b == b',' {
            let (x, _) = text.split_at(i);
            let (_, y) = text.split_at(i + 1);
            return Some(PlaceWord { x, y });
        }
    }
    None
}
