//! What the words of a block line say.
ghost use Rattle.std.specs.Prelude.{◌≡◌, None, Some, IfNone, IfSome, drop, option_and_then, slice_get};
ghost use Rattle.fpga_place.specs.Lines.{Block, block_form, form_place, place_said as said, small_number_of};

use fpga_text::{Line, whole_number_of};
use fpga_types::Place;

/// A block line whose numbers are some.
#[derive(Clone, Copy)]
pub struct BlockLine<'a> {
    pub name: &'a [u8],
    pub place: Place,
}

/// The name on a block line and the place behind it, or None where a number is due and is none.
pub fn block_line<'a>(line: &mut Line<'a>) -> Option<BlockLine<'a>>
    ensures some { IfSome result
        (λ said. block_form line.old.words ≡ Block said.name.now (Some said.place)) }
    ensures none { IfNone result (form_place (block_form line.old.words) ≡ None) }
{
    let Some(name) = line.next_word() else {
        return None;
    };
    let Some(place) = place_said(line) else {
        return None;
    };
    Some(BlockLine {
        name: name.text,
        place,
    })
}

/// The place that the next three words say.
fn place_said(line: &mut Line<'_>) -> Option<Place>
    ensures { result ≡ said line.old.words }
{
    let Some(x) = small_number(line) else {
        return None;
    };
    let Some(y) = small_number(line) else {
        return None;
    };
    let Some(sub) = small_number(line) else {
        return None;
    };
    Some(Place { x, y, sub })
}

/// The number of 32 bits that the next word says.
fn small_number(line: &mut Line<'_>) -> Option<u32>
    ensures number { result ≡ option_and_then small_number_of (slice_get line.old.words 0) }
    ensures after { line.new ≡ record line.old { words = drop 1 line.old.words } }
{
    let Some(word) = line.next_word() else {
        return None;
    };
    let Some(n) = whole_number_of(word.text) else {
        return None;
    };
    if n > u64::from(u32::MAX) {
        return None;
    }
    Some(n as u32)
}
