//! The lines of a text, one after another.
ghost use Rattle.std.specs.Prelude.{◌≡◌, ◌<◌, ◌^◌, [], IfSome, IfNone, slice_get};
ghost use Rattle.fpga_text.specs.Joining.{IsFirstLine};
ghost use Rattle.fpga_text.specs.declared.style.Style.TheVariants.{Joined};

use crate::cut::{first_byte, part_at};
use crate::joined::{behind_parts, part_of};
use crate::line::Line;
use crate::style::Style;
use std::marker::Model;

/// The lines of a text that were not yet taken.
#[derive(Drop)]
pub struct Lines<'a> {
    rest: &'a [u8],
    taken: u64,
    style: Style,
}

impl<'a> Model for Lines<'a> {
    ghost use Rattle.std.specs.Prelude.{◌+◌, ◌<◌, ◌^◌, length};
    ghost use Rattle.fpga_text.specs.Words.{lines_from, line_count};
    ghost use Rattle.fpga_text.specs.Reading.{LinesAhead};

    ghost Value = { LinesAhead };

    ghost view = { λ l. record {
      ahead = lines_from l.style (l.taken + 1) l.rest.now;
      taken = l.taken;
      total = l.taken + line_count l.rest.now;
    } };

    ghost invariant = { λ l. l.taken + length l.rest.now < 2 ^ 63 };
}

impl<'a> Lines<'a> {
    ghost use Rattle.fpga_text.specs.Words.{text_lines, line_count};
    ghost use Rattle.fpga_text.specs.Reading.{after_line, IsAtEnd, TakesLine};

    /// The lines of a text, from its first on.
    pub fn new(bytes: &'a [u8], style: Style) -> Lines<'a>
        ensures { result ≡ record {
          ahead = text_lines style bytes.now;
          taken = 0;
          total = line_count bytes.now;
        } }
    {
        Lines {
            rest: bytes,
            taken: 0,
            style,
        }
    }

    /// The next line that has words, or None after the last one.
    pub fn next_line(&mut self) -> Option<Line<'a>>
        ensures line { result ≡ slice_get self.old.ahead 0 }
        ensures after { self.new ≡ after_line self.old }
    {
        while let Some(line) = self.any_line() {
            if line.has_words() {
                return Some(line);
            }
        }
        None
    }

    /// How many of the text's lines were taken so far, those without words and each part of a
    /// joined line counted.
    pub fn line_count(&self) -> u64
        ensures count { result ≡ self.now.taken }
        ensures within { result < 2 ^ 63 }
    {
        self.taken
    }

    /// The very next line, with words or without, or None after the last one.
    // Inlined, so that a line is not copied from one place in memory to another.
    #[inline(always)]
    fn any_line(&mut self) -> Option<Line<'a>>
        ensures line { IfSome result (TakesLine self.old self.new) }
        ensures end { IfNone result (IsAtEnd self.old self.new) }
    {
        if self.rest.is_empty() {
            return None;
        }
        let (raw, behind) = part_at(self.rest, first_byte(self.rest, b'\n'));
        let first = first_line(raw, behind, self.style);
        let number = self.taken + 1;
        self.rest = first.behind;
        self.taken = number + first.more;
        Some(Line::new(number, self.taken, raw, first.said, first.later))
    }
}

/// The first line of a text.
#[derive(Clone, Copy)]
struct FirstLine<'a> {
    /// The bytes that say the words of its first part.
    said: &'a [u8],
    /// The text that it goes on in, if it does.
    later: &'a [u8],
    /// The text behind it.
    behind: &'a [u8],
    /// How many lines of the text it takes besides its first part.
    more: u64,
}

/// The first line of a text that begins with `raw` and a newline and goes on with `text`.
fn first_line<'a>(raw: &'a [u8], text: &'a [u8], style: Style) -> FirstLine<'a>
    ensures { IsFirstLine style raw.now text.now
        result.said.now result.later.now result.behind.now result.more }
{
    match style {
        Style::Plain => alone(raw, text),
        Style::Hash => alone(&raw[..first_byte(raw, b'#')], text),
        Style::Joined => first_joined(raw, text),
    }
}

/// A line with these words that does not go on, before this text.
fn alone<'a>(said: &'a [u8], text: &'a [u8]) -> FirstLine<'a>
    ensures said { result.said.now ≡ said.now }
    ensures later { result.later.now ≡ [] }
    ensures behind { result.behind.now ≡ text.now }
    ensures more { result.more ≡ 0 }
{
    FirstLine {
        said,
        later: &[],
        behind: text,
        more: 0,
    }
}

/// The first line where a backslash joins lines.
fn first_joined<'a>(raw: &'a [u8], text: &'a [u8]) -> FirstLine<'a>
    ensures { IsFirstLine Joined raw.now text.now
        result.said.now result.later.now result.behind.now result.more }
{
    let part = part_of(raw);
    if !part.goes_on {
        return alone(part.said, text);
    }
    let behind = behind_parts(text);
    FirstLine {
        said: part.said,
        later: text,
        behind: behind.text,
        more: behind.taken,
    }
}
