//! What is said of a fault in a file behind its line and its code: what is at fault, by its name,
//! or the line as it stands.
ghost use Rattle.std.specs.Prelude.{◌≡◌, ◌++◌, IfOk, OnOk, option_map, string_bytes};
ghost use Rattle.std.specs.Option.{option_copied};
ghost use Rattle.router_says.specs.AtFault.{Appends, IsRead, SaidByOne, SaidByTwo, Shows, both_shown, file_shown, said_by_both, sought_of};
ghost use Rattle.router_says.specs.Names.{asked, name_of};
ghost use Rattle.router_says.specs.declared.sought.Sought.TheVariants.{Routed as RoutedLine};
ghost use Rattle.run_outcome.specs.declared.text_file.TextFile.TheVariants.{Routed};

use crate::names::given_name;
use crate::shown::{append_both, append_shown};
use crate::sought::{Sought, sought_of, two_files};
use desk_io::{Desk, ReadStop, read_file};
use fpga_problem::TEXT_BYTES;
use router_words::Job;
use run_outcome::TextFile;
use std::alloc::{AllocError, Global};

/// Appends what is at fault at this line of a file, by its name where the code tells of something
/// that has one, and else as the line stands; or that the file is another one, where its first
/// bytes tell. The files are read once more for it.
pub(crate) fn append_at_fault<D: Desk>(
    alloc: Global,
    desk: &mut D,
    out: &mut String,
    job: Option<Job<'_>>,
    file: TextFile,
    line: u64,
    code: u32,
) -> Result<(), AllocError>
    ensures { OnOk result (Appends (Shows (D.state desk.old) (D.state desk.new)
        (name_of (asked job.entry)) file line (sought_of file code)) (string_bytes out.old)
        (string_bytes out.new)) }
{
    append_sought(alloc, desk, out, job, file, line, sought_of(file, code))
}

/// Appends what is at fault at this line of the routed file, which is judged: the line as it stands
/// and in which net, or a net that has no line.
pub(crate) fn append_judged_line<D: Desk>(
    alloc: Global,
    desk: &mut D,
    out: &mut String,
    job: Option<Job<'_>>,
    line: u64,
) -> Result<(), AllocError>
    ensures { OnOk result (Appends (Shows (D.state desk.old) (D.state desk.new)
        (name_of (asked job.entry)) Routed line RoutedLine) (string_bytes out.old)
        (string_bytes out.new)) }
{
    append_sought(
        alloc,
        desk,
        out,
        job,
        TextFile::Routed,
        line,
        Sought::Routed,
    )
}

// Appends what is sought, at this line of a file.
fn append_sought<D: Desk>(
    alloc: Global,
    desk: &mut D,
    out: &mut String,
    job: Option<Job<'_>>,
    file: TextFile,
    line: u64,
    sought: Sought,
) -> Result<(), AllocError>
    ensures { OnOk result (Appends (Shows (D.state desk.old) (D.state desk.new)
        (name_of (asked job.entry)) file line sought) (string_bytes out.old)
        (string_bytes out.new)) }
{
    match two_files(sought) {
        None => append_of_one(alloc, desk, out, job, file, line, sought),
        Some((first, second)) => {
            append_of_two(alloc, desk, out, job, first, second, line, sought)
        }
    }
}

// ---- of one file

// Appends what the text of a file says, if it is read.
fn append_of_one<D: Desk>(
    alloc: Global,
    desk: &mut D,
    out: &mut String,
    job: Option<Job<'_>>,
    file: TextFile,
    line: u64,
    sought: Sought,
) -> Result<(), AllocError>
    ensures { OnOk result (Appends (SaidByOne (D.state desk.old) (D.state desk.new)
        (name_of (asked job.entry) file) (file_shown file sought line)) (string_bytes out.old)
        (string_bytes out.new)) }
{
    let Some(text) = text_of(alloc, desk, given_name(job, file))? else {
        return Ok(());
    };
    append_shown(out, file, sought, line, &text)
}

// ---- of two files

// Appends what the texts of two files say, if both are read.
fn append_of_two<D: Desk>(
    alloc: Global,
    desk: &mut D,
    out: &mut String,
    job: Option<Job<'_>>,
    first: TextFile,
    second: TextFile,
    line: u64,
    sought: Sought,
) -> Result<(), AllocError>
    ensures { OnOk result (Appends (SaidByTwo (D.state desk.old) (D.state desk.new)
        (name_of (asked job.entry) first) (name_of (asked job.entry) second)
        (both_shown sought line)) (string_bytes out.old) (string_bytes out.new)) }
{
    let one = text_of(alloc, desk, given_name(job, first))?;
    let other = text_of(alloc, desk, given_name(job, second))?;
    append_by_both(alloc, out, one, other, line, sought)?;
    Ok(())
}

// Appends it by both texts, if they were read.
fn append_by_both(
    alloc: Global,
    out: &mut String,
    one: Option<Vec<u8>>,
    other: Option<Vec<u8>>,
    line: u64,
    sought: Sought,
) -> Result<(), AllocError>
    ensures { OnOk result (string_bytes out.new ≡ string_bytes out.old
        ++ said_by_both (both_shown sought line) (option_map (λ bytes. bytes.items) one)
        (option_map (λ bytes. bytes.items) other)) }
{
    let Some(one) = one else {
        return Ok(());
    };
    let Some(other) = other else {
        return Ok(());
    };
    append_both(alloc, out, &one, &other, line, sought)
}

// ---- what is read

// The bytes of a file, if it is read.
fn text_of<D: Desk>(
    alloc: Global,
    desk: &mut D,
    name: Option<&str>,
) -> Result<Option<Vec<u8>>, AllocError>
    ensures read { IfOk result (λ text. IsRead (D.state desk.old) (D.state desk.new)
        (option_copied name.entry) (option_map (λ bytes. bytes.items) text)) }
    ensures files { (D.state desk.new).files ≡ (D.state desk.old).files }
{
    let Some(name) = name else {
        return Ok(None);
    };
    match read_file(alloc, desk, name, TEXT_BYTES) {
        Ok(text) => Ok(Some(text)),
        Err(ReadStop::Fault) => Ok(None),
        Err(ReadStop::TooLong) => Ok(None),
        Err(ReadStop::Memory) => Err(AllocError),
    }
}
