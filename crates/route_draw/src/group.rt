//! Groups of parts that have a name.
ghost use Rattle.std.specs.Prelude.{◌≡◌, ◌++◌, OnOk, string_bytes};
ghost use Rattle.route_draw.specs.Picture.{closing, group, opening};

use crate::escape::append_escaped;
use std::alloc::AllocError;

/// What a group begins with: a mark before its class, which may be empty, its class, a colour
/// behind that, which may be empty, and its name.
#[derive(Clone, Copy)]
pub(crate) struct Label<'a> {
    pub(crate) mark: &'a str,
    pub(crate) class: &'a str,
    pub(crate) colour: &'a str,
    pub(crate) name: &'a [u8],
}

/// Appends a group with this label and with what is drawn.
pub(crate) fn append_group(
    out: &mut String,
    label: Label<'_>,
    drawn: &str,
) -> Result<(), AllocError>
    ensures { OnOk result (string_bytes out.new ≡ string_bytes out.old
        ++ group label.entry.mark.now label.entry.class.now label.entry.colour.now
        label.entry.name.now drawn.now) }
{
    append_opening(out, label.mark, label.class, label.colour)?;
    append_escaped(out, label.name)?;
    append_rest(out, drawn)?;
    Ok(())
}

fn append_opening(out: &mut String, mark: &str, class: &str, colour: &str) -> Result<(), AllocError>
    ensures { OnOk result
        (string_bytes out.new ≡ string_bytes out.old ++ opening mark.now class.now colour.now) }
{
    out.push_str("<g class=\"")?;
    out.push_str(mark)?;
    out.push_str(class)?;
    out.push_str(colour)?;
    out.push_str("\"><title>")?;
    Ok(())
}

fn append_rest(out: &mut String, drawn: &str) -> Result<(), AllocError>
    ensures { OnOk result (string_bytes out.new ≡ string_bytes out.old ++ closing drawn.now) }
{
    out.push_str("</title>")?;
    out.push_str(drawn)?;
    out.push_str("</g>\n")?;
    Ok(())
}
