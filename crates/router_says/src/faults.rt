//! Words for a file that the system refuses.
ghost use Rattle.std.specs.Prelude.{◌≡◌, ◌++◌, OnOk, option_map, string_bytes};
ghost use Rattle.router_says.specs.Names.{asked, prefix_of, prefix_said};
ghost use Rattle.router_says.specs.Said.{
  about_said,
  error_on,
  error_said,
  refused_said,
  slot_said,
  unread_said,
  unwritten_said,
};
ghost use Rattle.run_outcome.specs.SlotNames.{plain_name, slot_name, width_name};

use crate::names::{Written, files_written};
use crate::phrases::{FILE_STANDARD_OUTPUT, FILE_UNREAD, FILE_UNWRITTEN};
use crate::refused::append_file;
use code_words::system_error;
use route_sweep::FileSlot;
use router_words::Job;
use run_outcome::{Slot, TextFile};
use std::alloc::AllocError;
use std::io::ErrorKind;

/// What kind of error the system gave last, where it gave one.
#[derive(Clone, Copy)]
pub struct SystemErrors {
    /// On a file that was read.
    pub reading: Option<ErrorKind>,
    /// On a file that was written.
    pub writing: Option<ErrorKind>,
    /// On standard output.
    pub saying: Option<ErrorKind>,
}

/// Appends that a file can't be read, and why.
pub(crate) fn append_unread(
    out: &mut String,
    job: Option<Job<'_>>,
    file: TextFile,
    error: Option<ErrorKind>,
) -> Result<(), AllocError>
    ensures { OnOk result (string_bytes out.new
        ≡ string_bytes out.old ++ (about_said (asked job.entry) file ++ unread_said error)) }
{
    append_file(out, job, file)?;
    out.push_str(FILE_UNREAD)?;
    append_error(out, error)
}

/// Appends that what a run writes here can't be written, and why.
pub(crate) fn append_unwritten(
    out: &mut String,
    job: Option<Job<'_>>,
    slot: Slot,
    errors: SystemErrors,
) -> Result<(), AllocError>
    ensures { OnOk result (string_bytes out.new
        ≡ string_bytes out.old ++ unwritten_said (prefix_of (asked job.entry)) slot errors) }
{
    append_refused(out, files_written(job), slot, error_on(slot, errors))
}

// Appends the same by the names of the files that are written, and the error.
fn append_refused(
    out: &mut String,
    written: Option<Written<'_>>,
    slot: Slot,
    error: Option<ErrorKind>,
) -> Result<(), AllocError>
    ensures { OnOk result (string_bytes out.new ≡ string_bytes out.old
        ++ refused_said (option_map prefix_said written.entry) slot error) }
{
    append_slot(out, written, slot)?;
    out.push_str(FILE_UNWRITTEN)?;
    append_error(out, error)
}

// Appends why the system refused it, where it told.
fn append_error(out: &mut String, error: Option<ErrorKind>) -> Result<(), AllocError>
    ensures { OnOk result (string_bytes out.new ≡ string_bytes out.old ++ error_said error) }
{
    let Some(kind) = error else {
        return Ok(());
    };
    out.push_str(": ")?;
    out.push_str(system_error(kind))
}

// The last error of the system on what is written here.
fn error_on(slot: Slot, errors: SystemErrors) -> Option<ErrorKind>
    ensures { result ≡ error_on slot errors }
{
    match slot {
        Slot::Said => errors.saying,
        Slot::File(_) | Slot::Architecture | Slot::Netlist | Slot::Placement | Slot::GlobalRoute =>
            { errors.writing }
    }
}

// Appends what is written here, by its name.
fn append_slot(out: &mut String, written: Option<Written<'_>>, slot: Slot) -> Result<(), AllocError>
    ensures { OnOk result (string_bytes out.new
        ≡ string_bytes out.old ++ slot_said (option_map prefix_said written.entry) slot) }
{
    match written {
        Some(written) => append_slot_name(out, written, slot),
        // A job that writes no files says its lines alone.
        None => out.push_str(FILE_STANDARD_OUTPUT),
    }
}

// Appends the same of a job that writes files.
fn append_slot_name(out: &mut String, written: Written<'_>, slot: Slot) -> Result<(), AllocError>
    ensures { OnOk result (string_bytes out.new
        ≡ string_bytes out.old ++ slot_name (prefix_said written.entry) slot) }
{
    match slot {
        Slot::Said => out.push_str(FILE_STANDARD_OUTPUT),
        Slot::File(FileSlot::Clauses { width }) => append_of_width(out, written, width, ".cnf"),
        Slot::File(FileSlot::Log { width }) => append_of_width(out, written, width, ".lrat"),
        Slot::File(FileSlot::Route) | Slot::GlobalRoute => append_plain(out, written, ".route"),
        Slot::Architecture => append_plain(out, written, ".arch"),
        Slot::Netlist => append_plain(out, written, ".net"),
        Slot::Placement => append_plain(out, written, ".place"),
    }
}

// Appends the name of a file that a job writes once.
fn append_plain(out: &mut String, written: Written<'_>, ending: &str) -> Result<(), AllocError>
    ensures { OnOk result (string_bytes out.new
        ≡ string_bytes out.old ++ plain_name (prefix_said written.entry) ending.now) }
{
    match written {
        Written::One(prefix) => write!(out, "{prefix}{ending}"),
        Written::Each(prefix) => write!(out, "{prefix}{ending}"),
    }
}

// Appends the name of a file that a climb writes at each width.
fn append_of_width(
    out: &mut String,
    written: Written<'_>,
    width: u32,
    ending: &str,
) -> Result<(), AllocError>
    ensures { OnOk result (string_bytes out.new
        ≡ string_bytes out.old ++ width_name (prefix_said written.entry) width ending.now) }
{
    match written {
        Written::One(prefix) => write!(out, "{prefix}{ending}"),
        Written::Each(prefix) => write!(out, "{prefix}.w{width}{ending}"),
    }
}
