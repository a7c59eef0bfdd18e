//! A line of a route, and the line that begins the net in which it stands.
ghost use Rattle.std.specs.Prelude.{◌≡◌, ◌++◌, OnOk, string_bytes};
ghost use Rattle.fault_names.specs.LinesBy as lines;
ghost use Rattle.fault_names.specs.LinesBy.{net_line_at};
ghost use Rattle.fault_names.specs.Quoted.{net_quoted, route_line_quoted};

use crate::line_of::line_with;
use crate::quoted::append_quoted;
use fpga_text::{Line, Lines, Style};
use std::alloc::AllocError;

/// Appends the line with this number of a route, behind a colon, and the line that begins its net.
///
/// # Errors
/// Memory ran out; then a front part may have been appended.
pub fn append_route_line(out: &mut String, text: &[u8], number: u64) -> Result<(), AllocError>
    ensures { OnOk result
        (string_bytes out.new ≡ string_bytes out.old ++ route_line_quoted text.now number) }
{
    let Some(mut line) = line_with(text, Style::Hash, number) else {
        return Ok(());
    };
    out.push_str(":")?;
    append_quoted(out, &mut line)?;
    append_net(out, text, number, net_line_at(text, number))
}

// Appends the line that begins the net of a line, by its number, where it is another one.
fn append_net(out: &mut String, text: &[u8], number: u64, at: u64) -> Result<(), AllocError>
    ensures { OnOk result
        (string_bytes out.new ≡ string_bytes out.old ++ net_quoted text.now number at) }
{
    if at == number {
        return Ok(());
    }
    let Some(mut line) = line_with(text, Style::Hash, at) else {
        return Ok(());
    };
    line.next_word();
    out.push_str(", of Net")?;
    append_quoted(out, &mut line)
}

// The number of the line that begins the net in which a line stands, or 0 where none does.
fn net_line_at(text: &[u8], number: u64) -> u64
    ensures { result ≡ net_line_at text.now number }
{
    let mut lines = Lines::new(text, Style::Hash);
    let mut found = 0;
    while let Some(mut line) = lines.next_line() {
        found = last_net(&mut line, number, found);
    }
    found
}

// The number of a line, of which no word was taken yet, if it begins a net up to there.
fn last_net(line: &mut Line<'_>, number: u64, found: u64) -> u64
    ensures { result ≡ lines.last_net number found line.old }
{
    if line.next_is(b"Net") && line.number() <= number {
        return line.number();
    }
    found
}
