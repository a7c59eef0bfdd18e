//! What must come of a run in which a call fails, and whether it came.
ghost use Rattle.std.specs.Prelude.{◌≡◌, IfOk, IsTrue, OnOk, string_bytes};
ghost use Rattle.std.specs.FinMap.{get};
ghost use Rattle.rows.specs.Cut.{AreGone, AreLeft, AreSame, IsAsCut, IsFront, heard_of};

use crate::cases::compare::{differs, same_number, same_text};
use crate::cases::stop::RowStop;
use desk_io::MemShelf;
use run_outcome::{Outcome, report, status};
use std::alloc::{AllocError, Global};

/// What must be said in a run in which a call fails.
#[derive(Clone, Copy)]
pub enum Heard {
    /// The lead and the report line.
    Both,
    /// The lead alone.
    Lead,
    /// The report line alone.
    Report,
    /// Nothing.
    Nothing,
}

/// How the files of a run must be left in which a call fails.
#[derive(Clone, Copy)]
pub enum Left {
    /// None is there.
    Gone,
    /// So many are whole, the one behind them is a front part or is not there, and later ones are
    /// not there.
    First(usize),
}

/// What must come of a run in which a call fails.
#[derive(Drop)]
pub struct Cut {
    /// The report line of the outcome.
    pub outcome: String,
    pub status: u64,
    pub heard: Heard,
    pub left: Left,
}

impl Cut {
    /// Whether all came that must. The files are named in the order in which they are written, and
    /// the run in which no call fails has left them whole.
    pub fn compare(
        &self,
        alloc: Global,
        lead: &[u8],
        order: &[String],
        whole: &MemShelf,
        outcome: &Outcome,
        shelf: &MemShelf,
    ) -> Result<(), RowStop>
        ensures { OnOk result
            (IsAsCut self.now lead.now order.now whole.now outcome.now shelf.now) }
    {
        let mut line = report(outcome);
        same_text(
            alloc,
            "the outcome",
            self.outcome.as_bytes(),
            line.as_bytes(),
        )?;
        same_number(alloc, "the status", self.status, u64::from(status(outcome)))?;
        line.push_str("\n");
        let expected = heard_text(alloc, self.heard, lead, line.as_bytes())?;
        same_text(alloc, "what was said", &expected, shelf.said())?;
        compare_left(alloc, self.left, order, whole, shelf)
    }
}

// What must be said: the lead, the report line, both or nothing.
fn heard_text(alloc: Global, heard: Heard, lead: &[u8], line: &[u8]) -> Result<Vec<u8>, AllocError>
    ensures { IfOk result (λ text. text.items ≡ heard_of heard lead.now line.now) }
{
    match heard {
        Heard::Both => {
            let mut text = Vec::from_slice(alloc, lead)?;
            text.extend_from_slice(line)?;
            Ok(text)
        }
        Heard::Lead => Vec::from_slice(alloc, lead),
        Heard::Report => Vec::from_slice(alloc, line),
        Heard::Nothing => Ok(Vec::new(alloc)),
    }
}

// Whether the files are left as they must be.
fn compare_left(
    alloc: Global,
    left: Left,
    order: &[String],
    whole: &MemShelf,
    shelf: &MemShelf,
) -> Result<(), RowStop>
    ensures { OnOk result (AreLeft left order.now (whole.now).files (shelf.now).files) }
{
    let Left::First(count) = left else {
        return compare_gone(alloc, order, shelf);
    };
    if count >= order.len() {
        return compare_same(alloc, order, whole, shelf);
    }
    compare_same(alloc, &order[..count], whole, shelf)?;
    compare_front(alloc, &order[count], whole, shelf)?;
    compare_gone(alloc, &order[count + 1..], shelf)
}

/// Whether these files are as in the run in which no call fails.
pub fn compare_same(
    alloc: Global,
    names: &[String],
    whole: &MemShelf,
    shelf: &MemShelf,
) -> Result<(), RowStop>
    ensures { OnOk result (AreSame names.now (whole.now).files (shelf.now).files) }
{
    for name in names {
        if !is_same(name, whole, shelf) {
            let came = shelf.file(name).unwrap_or(b"no file");
            return differs(alloc, name, b"what stands without a fault", came);
        }
    }
    Ok(())
}

// Whether a file is as in the run in which no call fails.
fn is_same(name: &String, whole: &MemShelf, shelf: &MemShelf) -> bool
    ensures { IsTrue result → get (shelf.now).files (string_bytes name.now)
        ≡ get (whole.now).files (string_bytes name.now) }
{
    let Some(expected) = whole.file(name) else {
        return shelf.file(name).is_none();
    };
    let Some(came) = shelf.file(name) else {
        return false;
    };
    came == expected
}

// Whether a file is not there, or holds a front part of what it holds where no call fails.
fn compare_front(
    alloc: Global,
    name: &String,
    whole: &MemShelf,
    shelf: &MemShelf,
) -> Result<(), RowStop>
    ensures { OnOk result (IsFront (get (whole.now).files (string_bytes name.now))
        (get (shelf.now).files (string_bytes name.now))) }
{
    let Some(came) = shelf.file(name) else {
        return Ok(());
    };
    let Some(expected) = whole.file(name) else {
        return differs(alloc, name, b"no file", came);
    };
    if !expected.starts_with(came) {
        return differs(alloc, name, expected, came);
    }
    Ok(())
}

// Whether these files are not there.
fn compare_gone(alloc: Global, names: &[String], shelf: &MemShelf) -> Result<(), RowStop>
    ensures { OnOk result (AreGone names.now (shelf.now).files) }
{
    for name in names {
        if !is_gone(name, shelf) {
            let came = shelf.file(name).unwrap_or(b"no file");
            return differs(alloc, name, b"no file", came);
        }
    }
    Ok(())
}

// Whether a file is not there.
fn is_gone(name: &String, shelf: &MemShelf) -> bool
    ensures { IsTrue result → get (shelf.now).files (string_bytes name.now) ≡ None }
{
    shelf.file(name).is_none()
}
