//! Texts of several lines, as the lines of a case give them.
use crate::cases::numbers::number;
use crate::cases::stop::LineFault;
use desk_io::MemShelf;
use itoa::Buffer;
use std::alloc::{AllocError, Global};

/// The texts that have names: the parts, and the files that the run before wrote.
#[derive(Drop)]
pub struct Texts {
    pub parts: Vec<(String, Vec<u8>)>,
    pub written: Option<MemShelf>,
}

impl Texts {
    /// No text yet.
    pub fn new(alloc: Global) -> Texts {
        Texts {
            parts: Vec::new(alloc),
            written: None,
        }
    }

    // The last part of this name.
    fn part(&self, name: &str) -> Result<&[u8], LineFault> {
        for (found, text) in self.parts.iter().rev() {
            if found.as_str() == name {
                return Ok(text);
            }
        }
        Err(LineFault::NotUnderstood)
    }

    // The file of this name that the run before wrote.
    fn file(&self, name: &str) -> Result<&[u8], LineFault> {
        let Some(shelf) = &self.written else {
            return Err(LineFault::NotUnderstood);
        };
        let Some(text) = shelf.file(name) else {
            return Err(LineFault::NotUnderstood);
        };
        Ok(text)
    }

    /// Appends what a line of a text stands for.
    pub fn append_line(&self, text: &mut Vec<u8>, line: &str) -> Result<(), LineFault> {
        let Some((sign, rest)) = line.split_at_checked(1) else {
            return Err(LineFault::NotUnderstood);
        };
        match sign {
            "|" => append_whole_line(text, rest),
            "+" => append_escaped(text, rest, 0),
            "*" => append_repeated(text, rest),
            "&" => Ok(text.extend_from_slice(self.part(rest)?)?),
            "^" => Ok(text.extend_from_slice(self.file(rest)?)?),
            _ => Err(LineFault::NotUnderstood),
        }
    }
}

/// Whether a line is one of a text.
pub fn is_of_text(line: &str) -> bool {
    line.starts_with(['|', '+', '*', '&', '^'])
}

// Appends a line and its newline.
fn append_whole_line(text: &mut Vec<u8>, line: &str) -> Result<(), LineFault> {
    append_escaped(text, line, 0)?;
    text.push(b'\n')?;
    Ok(())
}

// Appends what stands behind two numbers, once for each number from the first up to the second.
fn append_repeated(text: &mut Vec<u8>, rest: &str) -> Result<(), LineFault> {
    let Some((first, rest)) = rest.split_once(' ') else {
        return Err(LineFault::NotUnderstood);
    };
    let Some((end, line)) = rest.split_once(' ') else {
        return Err(LineFault::NotUnderstood);
    };
    for k in number(first)?..number(end)? {
        append_escaped(text, line, k)?;
    }
    Ok(())
}

// Appends a line in which `\n`, `\t`, `\r`, `\0` and `\\` are bytes, and `\k` is a number.
fn append_escaped(text: &mut Vec<u8>, line: &str, k: u64) -> Result<(), LineFault> {
    let mut is_escaped = false;
    for byte in line.bytes() {
        if is_escaped {
            append_escape(text, byte, k)?;
            is_escaped = false;
        } else if byte == b'\\' {
            is_escaped = true;
        } else {
            text.push(byte)?;
        }
    }
    if is_escaped {
        return Err(LineFault::NotUnderstood);
    }
    Ok(())
}

// Appends what a byte behind a `\` stands for.
fn append_escape(text: &mut Vec<u8>, byte: u8, k: u64) -> Result<(), LineFault> {
    let meant = match byte {
        b'n' => b'\n',
        b't' => b'\t',
        b'r' => b'\r',
        b'0' => 0,
        b'\\' => b'\\',
        b'k' => return Ok(append_number(text, k)?),
        _ => return Err(LineFault::NotUnderstood),
    };
    text.push(meant)?;
    Ok(())
}

// Appends a number in digits.
fn append_number(text: &mut Vec<u8>, k: u64) -> Result<(), AllocError> {
    text.extend_from_slice(Buffer::new().format(k).as_bytes())
}
