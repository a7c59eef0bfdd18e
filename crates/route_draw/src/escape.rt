//! Names in a text of XML.
ghost use Rattle.std.specs.Prelude.{◌≡◌, ◌++◌, OnOk, flat_map, string_bytes};
ghost use Rattle.route_draw.specs.Escape.{escaped};

use std::alloc::AllocError;

/// Appends a name so that it is text of XML wherever it stands: what XML gives a meaning of its own
/// is named by an entity, and a byte that is no printable character of ASCII is a question mark.
pub fn append_escaped(out: &mut String, name: &[u8]) -> Result<(), AllocError>
    ensures { OnOk result
        (string_bytes out.new ≡ string_bytes out.old ++ flat_map escaped name.now) }
{
    for byte in name {
        append_byte(out, *byte)?;
    }
    Ok(())
}

/// Appends one byte of a name.
fn append_byte(out: &mut String, byte: u8) -> Result<(), AllocError>
    ensures { OnOk result (string_bytes out.new ≡ string_bytes out.old ++ escaped byte) }
{
    match byte {
        b'<' => out.push_str("&lt;"),
        b'>' => out.push_str("&gt;"),
        b'&' => out.push_str("&amp;"),
        b'"' => out.push_str("&quot;"),
        b' '..=b'~' => out.push(byte as char),
        _ => out.push_str("?"),
    }
}
