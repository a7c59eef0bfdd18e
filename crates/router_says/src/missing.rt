//! The keywords of an architecture that have no line.
ghost use Rattle.std.specs.Prelude.{◌≡◌, ◌++◌, OnOk, codes, string_bytes};
ghost use Rattle.router_says.specs.AtFault.{keyword_said, missing_said};

use crate::phrases::FAULT_NO_KEYWORD;
use fault_names::has_line;
use std::alloc::AllocError;

/// Appends the keywords of an architecture that have no line in this text.
pub(crate) fn append_missing(out: &mut String, text: &[u8]) -> Result<(), AllocError>
    ensures { OnOk result (string_bytes out.new ≡ string_bytes out.old ++ missing_said text.now) }
{
    append_four(
        out,
        text,
        "io_rat",
        "chan_width_io",
        "chan_width_x",
        "chan_width_y",
    )?;
    append_four(out, text, "inpin", "outpin", "switch_block_type", "Fc_type")?;
    append_four(out, text, "Fc_output", "Fc_input", "Fc_pad", "segment")
}

// Appends those of four keywords that have no line.
fn append_four(
    out: &mut String,
    text: &[u8],
    first: &str,
    second: &str,
    third: &str,
    fourth: &str,
) -> Result<(), AllocError>
    ensures { OnOk result (string_bytes out.new ≡ string_bytes out.old
        ++ (keyword_said text.now first.now ++ (keyword_said text.now second.now
        ++ (keyword_said text.now third.now ++ keyword_said text.now fourth.now)))) }
{
    append_keyword(out, text, first)?;
    append_keyword(out, text, second)?;
    append_keyword(out, text, third)?;
    append_keyword(out, text, fourth)
}

// Appends a keyword, if it has no line.
fn append_keyword(out: &mut String, text: &[u8], keyword: &str) -> Result<(), AllocError>
    ensures { OnOk result
        (string_bytes out.new ≡ string_bytes out.old ++ keyword_said text.now keyword.now) }
{
    if has_line(text, keyword.as_bytes()) {
        return Ok(());
    }
    write!(out, "{FAULT_NO_KEYWORD}{keyword}")
}
