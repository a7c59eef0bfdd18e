//! A line of a text by its number, and lines by their first word.
ghost use Rattle.std.specs.Prelude.{◌≡◌};
ghost use Rattle.fault_names.specs.LinesBy.{has_line, line_with};

use fpga_text::{Line, Lines, Style, is_text};

/// The line with this number, if it has words.
pub fn line_with<'a>(text: &'a [u8], style: Style, number: u64) -> Option<Line<'a>>
    ensures { result ≡ line_with style text.now number }
{
    let mut lines = Lines::new(text, style);
    while let Some(line) = lines.next_line() {
        if line.number() == number {
            return Some(line);
        }
    }
    None
}

/// Whether a line begins with this word, where a backslash joins lines.
pub fn has_line(text: &[u8], word: &[u8]) -> bool
    ensures { result ≡ has_line text.now word.now }
{
    let mut lines = Lines::new(text, Style::Joined);
    while let Some(mut line) = lines.next_line() {
        if line.next_is(word) {
            return true;
        }
    }
    false
}
