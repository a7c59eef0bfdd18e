//! The cut that a file of names says.
ghost use Rattle.std.specs.Prelude.{◌≡◌, Some, drop, option_map, slice_get};
ghost use Rattle.std.specs.Option.{option_copied};
ghost use Rattle.fpga_route.specs.Forms.{comma_parts, enclosed as between, place_words};
ghost use Rattle.route_draw.specs.Cut.{cut_of};
ghost use Rattle.route_picture.specs.Cut.{corner_at as at, corner_of as corner, corner_said, cut_in, cut_said, side_said};

use fpga_text::{Line, Lines, Style, whole_number_of};
use fpga_types::{SIDE_LIMIT, SwitchAt};
use route_bound::CornerRange;
use route_draw::ShownCut;

/// The first cut that a line of a text says, if there is a text and such a line.
pub(crate) fn shown_cut<'a>(text: Option<&'a [u8]>) -> Option<ShownCut<'a>>
    ensures { cut_of result ≡ cut_said (option_copied text.entry) }
{
    let Some(text) = text else {
        return None;
    };
    first_cut(text)
}

fn first_cut<'a>(text: &'a [u8]) -> Option<ShownCut<'a>>
    ensures { cut_of result ≡ cut_said (Some text.now) }
{
    let mut lines = Lines::new(text, Style::Plain);
    while let Some(mut line) = lines.next_line() {
        if let Some(cut) = line_cut(&mut line) {
            return Some(cut);
        }
    }
    None
}

// The cut that a line says: its first words are `cut` and two corners.
fn line_cut<'a>(line: &mut Line<'a>) -> Option<ShownCut<'a>>
    ensures { cut_of result ≡ cut_in line.old }
{
    if !line.next_is(b"cut") {
        return None;
    }
    let Some(low) = next_corner(line) else {
        return None;
    };
    let Some(high) = next_corner(line) else {
        return None;
    };
    Some(ShownCut {
        range: CornerRange { low, high },
        line: line.raw(),
    })
}

// The corner that the next word says. It is taken, whatever it is.
fn next_corner(line: &mut Line<'_>) -> Option<SwitchAt>
    ensures corner { result ≡ corner_said (slice_get line.old.words 0) }
    ensures after { line.new ≡ record line.old { words = drop 1 line.old.words } }
{
    let Some(word) = line.next_word() else {
        return None;
    };
    corner_of(word.text)
}

// The corner that a word `(I,J)` says.
fn corner_of(word: &[u8]) -> Option<SwitchAt>
    ensures { result ≡ corner word.now }
{
    let Some((i, j)) = place_of(word) else {
        return None;
    };
    corner_at(i, j)
}

fn corner_at(i: &[u8], j: &[u8]) -> Option<SwitchAt>
    ensures { result ≡ at (side_said i.now) (side_said j.now) }
{
    let Some(i) = side_said(i) else {
        return None;
    };
    let Some(j) = side_said(j) else {
        return None;
    };
    Some(SwitchAt { i, j })
}

// The number that a word says, if it is no larger than the side of an array may be.
fn side_said(word: &[u8]) -> Option<u32>
    ensures { result ≡ side_said word.now }
{
    let Some(number) = whole_number_of(word) else {
        return None;
    };
    if number > u64::from(SIDE_LIMIT) {
        return None;
    }
    Some(number as u32)
}

// The parts of a place `(I,J)`.
fn place_of<'a>(word: &'a [u8]) -> Option<(&'a [u8], &'a [u8])>
    ensures { option_map (λ place. (place.0.now, place.1.now)) result ≡ place_words word.now }
{
    let Some(text) = enclosed(word, b"(", b")") else {
        return None;
    };
    comma_sides(text)
}

// What stands between an opening and a closing text at the ends of a word.
fn enclosed<'a>(word: &'a [u8], opening: &[u8], closing: &[u8]) -> Option<&'a [u8]>
    ensures { option_map (λ r. r.now) result ≡ between opening.now closing.now word.now }
{
    if !word.starts_with(opening) {
        return None;
    }
    if !word.ends_with(closing) {
        return None;
    }
    if word.len() < opening.len() + closing.len() {
        return None;
    }
    Some(&word[opening.len()..word.len() - closing.len()])
}

// The two sides of the first comma, where there is one.
fn comma_sides<'a>(text: &'a [u8]) -> Option<(&'a [u8], &'a [u8])>
    ensures { option_map (λ sides. (sides.0.now, sides.1.now)) result
        ≡ comma_parts (Some text.now) }
{
    for (i, b) in text.iter().enumerate() {
        if *b == b',' {
            let (before, _) = text.split_at(i);
            let (_, behind) = text.split_at(i + 1);
            return Some((before, behind));
        }
    }
    None
}
