//! The lines of a CNF or an LRAT text that tell something.
ghost use Rattle.std.specs.Prelude.{◌≡◌, IfSome, IfNone};
ghost use Rattle.sat_text.specs.ToldLines.{is_comment as is_comment_of, TakesTold, IsToldOut};

use fpga_text::{Line, Lines};

/// Whether the first byte of a line is `c`.
fn is_comment(line: &[u8]) -> bool
    ensures { result ≡ is_comment_of line.now }
{
    match line {
        [first, ..] => *first == b'c',
        [] => false,
    }
}

/// The next line that has words and is no comment, or None after the last one.
// Inlined, so that a line is not copied from one place in memory to another.
#[inline(always)]
pub fn next_told<'a>(lines: &mut Lines<'a>) -> Option<Line<'a>>
    ensures line { IfSome result (TakesTold lines.old lines.new) }
    ensures end { IfNone result (IsToldOut lines.old lines.new) }
{
    while let Some(line) = lines.next_line() {
        if !is_comment(line.raw()) {
            return Some(line);
        }
    }
    None
}
