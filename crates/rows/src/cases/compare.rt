//! What must come of a run, and whether it came.
ghost use Rattle.std.specs.Prelude.{◌≡◌, All, IfOk, IsErr, IsTrue, OnOk};
ghost use Rattle.rows.specs.Wanted.{AreMet, IsMetBy, said_of};

use crate::cases::parts::places_of;
use crate::cases::stop::RowStop;
use desk_io::MemShelf;
use itoa::Buffer;
use run_outcome::{Outcome, report, status};
use std::alloc::{AllocError, Global};

/// How a file must come.
#[derive(Clone, Copy)]
pub enum Wanted {
    /// With this text.
    Whole,
    /// With this text at its front.
    Begins,
    /// With this text in it.
    Holds,
    /// With this text at so many places in it, and no more.
    Counts(u64),
    /// Not at all.
    Lacks,
}

/// A file that must come, or must not.
#[derive(Drop)]
pub struct WantedFile {
    pub how: Wanted,
    pub name: String,
    pub text: Vec<u8>,
}

/// What must come of a run. The outcome as its report line says it, and its status, are asked of
/// every run.
#[derive(Drop)]
pub struct Wants {
    pub outcome: Option<String>,
    pub status: Option<u64>,
    /// What must be said before the report line.
    pub lead: Vec<u8>,
    /// Whether the report line must not be said.
    pub is_silent: bool,
    pub files: Vec<WantedFile>,
}

impl Wants {
    /// Nothing is asked for.
    pub fn new(alloc: Global) -> Wants {
        Wants {
            outcome: None,
            status: None,
            lead: Vec::new(alloc),
            is_silent: false,
            files: Vec::new(alloc),
        }
    }

    /// Whether all came that must.
    pub fn compare(&self, alloc: Global, outcome: &Outcome, shelf: &MemShelf) -> Result<(), RowStop>
        ensures { OnOk result (AreMet self.now outcome.now shelf.now) }
    {
        let Some(expected) = &self.outcome else {
            return Err(RowStop::Lacks("comes"));
        };
        let mut line = report(outcome);
        same_text(alloc, "the outcome", expected.as_bytes(), line.as_bytes())?;
        let Some(expected) = self.status else {
            return Err(RowStop::Lacks("status"));
        };
        same_number(alloc, "the status", expected, u64::from(status(outcome)))?;
        line.push_str("\n");
        let expected = said(alloc, &self.lead, self.is_silent, line.as_bytes())?;
        same_text(alloc, "what was said", &expected, shelf.said())?;
        compare_files(alloc, &self.files, shelf)
    }
}

// What must be said: the lead, and the report line behind it unless that must not be.
fn said(alloc: Global, lead: &[u8], is_silent: bool, line: &[u8]) -> Result<Vec<u8>, AllocError>
    ensures { IfOk result (λ text. text.items ≡ said_of lead.now is_silent line.now) }
{
    let mut text = Vec::from_slice(alloc, lead)?;
    if is_silent {
        return Ok(text);
    }
    text.extend_from_slice(line)?;
    Ok(text)
}

// Whether the files are as they must be.
fn compare_files(alloc: Global, files: &[WantedFile], shelf: &MemShelf) -> Result<(), RowStop>
    ensures { OnOk result (All (IsMetBy (shelf.now).files) files.now) }
{
    for file in files {
        if !is_met(file, shelf) {
            let came = shelf.file(&file.name).unwrap_or(b"no file");
            return differs(alloc, &file.name, &file.text, came);
        }
    }
    Ok(())
}

// Whether a file is as it must be.
fn is_met(file: &WantedFile, shelf: &MemShelf) -> bool
    ensures { IsTrue result → IsMetBy (shelf.now).files file.now }
{
    let text = file.text.as_slice();
    let Some(came) = shelf.file(&file.name) else {
        return matches!(file.how, Wanted::Lacks);
    };
    match file.how {
        Wanted::Whole => came == text,
        Wanted::Begins => came.starts_with(text),
        Wanted::Holds => places_of(came, text) > 0,
        Wanted::Counts(count) => places_of(came, text) == count,
        Wanted::Lacks => false,
    }
}

/// Whether two numbers are the same.
pub fn same_number(alloc: Global, what: &str, expected: u64, came: u64) -> Result<(), RowStop>
    ensures { OnOk result (came ≡ expected) }
{
    if expected == came {
        return Ok(());
    }
    let (mut left, mut right) = (Buffer::new(), Buffer::new());
    let (left, right) = (left.format(expected), right.format(came));
    differs(alloc, what, left.as_bytes(), right.as_bytes())
}

/// Whether two texts are the same.
pub fn same_text(alloc: Global, what: &str, expected: &[u8], came: &[u8]) -> Result<(), RowStop>
    ensures { OnOk result (came.now ≡ expected.now) }
{
    if expected == came {
        return Ok(());
    }
    differs(alloc, what, expected, came)
}

/// Tells two texts that differ.
pub fn differs(alloc: Global, what: &str, expected: &[u8], came: &[u8]) -> Result<(), RowStop>
    ensures { IsErr result }
{
    Err(RowStop::Differs {
        what: String::from_str(alloc, what)?,
        expected: shown(alloc, expected)?,
        came: shown(alloc, came)?,
    })
}

// How many bytes of a text are shown.
const SHOWN: usize = 200;

// The front of a text, on one line.
fn shown(alloc: Global, text: &[u8]) -> Result<String, AllocError> {
    let mut line = String::new(alloc);
    for byte in text.iter().take(SHOWN) {
        match *byte {
            b'\n' => line.push_str("\\n")?,
            b' '..=b'~' => line.push(char::from(*byte))?,
            _ => line.push('?')?,
        }
    }
    Ok(line)
}
