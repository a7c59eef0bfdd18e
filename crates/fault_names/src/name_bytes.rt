//! Names that stand in a file, whose bytes may be any.
ghost use Rattle.std.specs.Prelude.{◌≡◌, ◌<◌, ◌/◌, ◌%◌, ◌++◌, OnOk, codes, string_bytes};
ghost use Rattle.fault_names.specs.NameBytes.{byte_said, digit_said, name_said};

use std::alloc::AllocError;

/// Appends a name. A byte that is no printable character of ASCII is said by its number.
pub fn append_name(out: &mut String, name: &[u8]) -> Result<(), AllocError>
    ensures { OnOk result (string_bytes out.new ≡ string_bytes out.old ++ name_said name.now) }
{
    for byte in name {
        append_byte(out, *byte)?;
    }
    Ok(())
}

// Appends one byte of a name.
fn append_byte(out: &mut String, byte: u8) -> Result<(), AllocError>
    ensures { OnOk result (string_bytes out.new ≡ string_bytes out.old ++ byte_said byte) }
{
    match byte {
        b'!'..=b'~' => out.push(byte as char),
        _ => append_number(out, byte),
    }
}

// Appends the number of a byte, in two digits of 16.
fn append_number(out: &mut String, byte: u8) -> Result<(), AllocError>
    ensures { OnOk result (string_bytes out.new ≡ string_bytes out.old
        ++ (codes "\\x" ++ (digit_said (byte / 16) ++ digit_said (byte % 16)))) }
{
    out.push_str("\\x")?;
    append_digit(out, byte / 16)?;
    append_digit(out, byte % 16)
}

// Appends a digit of 16.
fn append_digit(out: &mut String, digit: u8) -> Result<(), AllocError>
    requires { digit < 16 }
    ensures { OnOk result (string_bytes out.new ≡ string_bytes out.old ++ digit_said digit) }
{
    if digit < 10 {
        return out.push((b'0' + digit) as char);
    }
    out.push((b'a' - 10 + digit) as char)
}
