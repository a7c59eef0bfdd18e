//! Words for what is wrong in a file.
ghost use Rattle.std.specs.Prelude.{◌≡◌, ◌++◌, OnOk, string_bytes};
ghost use Rattle.router_says.specs.Names.{asked, file_said, name_of};
ghost use Rattle.router_says.specs.Said.{limit_place, unmet_said};

use crate::names::given_name;
use crate::phrases::{FAULT_CLAUSE, FAULT_NO_MODEL, FILE};
use router_words::Job;
use run_outcome::TextFile;
use std::alloc::AllocError;

/// Appends the file that holds what passes its limit, if one does.
pub(crate) fn append_limit_place(
    out: &mut String,
    job: Option<Job<'_>>,
    file: Option<TextFile>,
) -> Result<(), AllocError>
    ensures { OnOk result
        (string_bytes out.new ≡ string_bytes out.old ++ limit_place (asked job.entry) file) }
{
    let Some(file) = file else {
        return Ok(());
    };
    append_file(out, job, file)?;
    out.push_str(": ")
}

/// Appends which clause has no literal of a model.
pub(crate) fn append_unmet(out: &mut String, clause: u32) -> Result<(), AllocError>
    ensures { OnOk result (string_bytes out.new ≡ string_bytes out.old ++ unmet_said clause) }
{
    write!(out, "{FAULT_CLAUSE}{clause}{FAULT_NO_MODEL}")
}

/// Appends the kind of a file, and the name that was given for it.
pub(crate) fn append_file(
    out: &mut String,
    job: Option<Job<'_>>,
    file: TextFile,
) -> Result<(), AllocError>
    ensures { OnOk result (string_bytes out.new
        ≡ string_bytes out.old ++ file_said file (name_of (asked job.entry) file)) }
{
    let kind = file.word();
    match given_name(job, file) {
        Some(name) => write!(out, "{kind}{FILE} {name}"),
        None => write!(out, "{kind}{FILE}"),
    }
}
