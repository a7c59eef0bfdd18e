//! What is said where no picture is printed: which file is meant, by the name that was given, and
//! what is wrong with it.
ghost use Rattle.std.specs.Prelude.{◌≡◌, ◌++◌, IfOk, OnOk, map, string_bytes, true};
ghost use Rattle.std.specs.Option.{option_copied};
ghost use Rattle.code_words.specs.Refused.{judged_said};
ghost use Rattle.route_picture.specs.Said.{
  IsSaid,
  Means,
  about_said,
  fault_said,
  file_about,
  file_faulty,
  file_said,
  kind_of,
  name_in,
  no_net_said,
};

use crate::given_file::GivenFile;
use crate::stop::Stop;
use crate::words::{page_words, read_words};
use code_words::{append_judged, append_limit, append_line, system_error};
use fpga_problem::TextFile;
use fpga_text::TextFault;
use std::alloc::{AllocError, Global};
use std::io::Read;
use std::rt::Files;
use std::{fs, io};

/// Appends why no picture is printed that the words ask for, in lines that end with a newline:
/// which file is meant, and what is wrong with it.
///
/// After a read fault it asks the system for the file once more, to tell why it is not read.
pub(crate) fn append_stop<R: Files + AllocGlobal>(
    rt: &R,
    out: &mut String,
    words: &[String],
    stop: Stop,
) -> Result<(), AllocError>
    ensures { OnOk result (IsSaid (map string_bytes words.now) stop (string_bytes out.old)
        (string_bytes out.new)) }
{
    let meaning = meaning(rt, words, stop)?;
    append_about(out, words, file_about(stop))?;
    out.push_str(meaning.as_str())?;
    out.push_str("\n")?;
    Ok(())
}

// The file that a stop is about, if it is about one.
fn file_about(stop: Stop) -> Option<GivenFile>
    ensures { result ≡ file_about stop }
{
    match stop {
        Stop::Unread(file) | Stop::TooLong(file) => Some(file),
        Stop::Faulty(refusal) => file_faulty(GivenFile::Text(refusal.file), refusal.fault),
        Stop::NoNet { .. } | Stop::NoNames => Some(GivenFile::Names),
        Stop::BadRouted(fault) => file_faulty(GivenFile::Routed, fault),
        Stop::Illegal { .. } => Some(GivenFile::Routed),
        Stop::Usage | Stop::Memory | Stop::Unprinted => None,
    }
}

fn file_faulty(file: GivenFile, fault: TextFault) -> Option<GivenFile>
    ensures { result ≡ file_faulty file fault }
{
    match fault {
        TextFault::Bad { .. } | TextFault::Limit { .. } => Some(file),
        TextFault::Memory => None,
    }
}

// Appends the file that is meant, if one is.
fn append_about(
    out: &mut String,
    words: &[String],
    file: Option<GivenFile>,
) -> Result<(), AllocError>
    ensures { OnOk result (string_bytes out.new
        ≡ string_bytes out.old ++ about_said (map string_bytes words.now) file) }
{
    let Some(file) = file else {
        return Ok(());
    };
    append_file(out, file, given_name(words, file))?;
    Ok(())
}

// Appends the kind of a file, and the name that was given for it.
fn append_file(out: &mut String, file: GivenFile, name: Option<&str>) -> Result<(), AllocError>
    ensures { OnOk result (string_bytes out.new
        ≡ string_bytes out.old ++ file_said file (option_copied name.entry)) }
{
    let kind = kind_of(file);
    match name {
        Some(name) => write!(out, "{kind} file {name}"),
        None => write!(out, "{kind} file"),
    }
}

fn kind_of(file: GivenFile) -> &'static str
    ensures { result.now ≡ kind_of file }
{
    match file {
        GivenFile::Text(TextFile::Architecture) => "architecture",
        GivenFile::Text(TextFile::Netlist) => "netlist",
        GivenFile::Text(TextFile::Placement) => "placement",
        GivenFile::Text(TextFile::Route) => "route",
        GivenFile::Names => "names",
        GivenFile::Routed => "routed",
    }
}

// The name that words give for a file.
fn given_name(words: &[String], file: GivenFile) -> Option<&str>
    ensures { option_copied result ≡ name_in (map string_bytes words.entry.now) file }
{
    let Ok(words) = read_words(page_words(words).words) else {
        return None;
    };
    words.name(file)
}

// What the stop means, without the file that it is about and without the newline at the end.
fn meaning<R: Files + AllocGlobal>(
    rt: &R,
    words: &[String],
    stop: Stop,
) -> Result<String, AllocError>
    ensures { IfOk result (λ text. Means stop (string_bytes text)) }
{
    match stop {
        Stop::Faulty(refusal) => fault(rt.alloc(), refusal.fault),
        Stop::BadRouted(found) => fault(rt.alloc(), found),
        Stop::NoNet { line } => no_net(rt.alloc(), line),
        Stop::Illegal { line, cause } => illegal(rt.alloc(), line, cause),
        Stop::Unread(file) => unread(rt, given_name(words, file)),
        Stop::TooLong(_) => said(rt.alloc(), TOO_LONG),
        Stop::NoNames => said(rt.alloc(), NO_NAMES),
        Stop::Memory => said(rt.alloc(), MEMORY),
        Stop::Unprinted => said(rt.alloc(), UNPRINTED),
        Stop::Usage => said(rt.alloc(), USAGE),
    }
}

// What is wrong with a text.
fn fault(alloc: Global, fault: TextFault) -> Result<String, AllocError>
    ensures { IfOk result (λ text. string_bytes text ≡ fault_said fault) }
{
    let mut text = String::new(alloc);
    match fault {
        TextFault::Bad { line, code } => append_line(&mut text, line, code)?,
        TextFault::Limit { code, count } => {
            text.push_str(": ")?;
            append_limit(&mut text, code, count)?;
        }
        TextFault::Memory => text.push_str(MEMORY)?,
    }
    Ok(text)
}

// Which line of a routing is against it, and why.
fn illegal(alloc: Global, line: u64, cause: u32) -> Result<String, AllocError>
    ensures { IfOk result (λ text. string_bytes text ≡ judged_said true line cause) }
{
    let mut text = String::new(alloc);
    append_judged(&mut text, true, line, cause)?;
    Ok(text)
}

// That a name of the file of names is no net's.
fn no_net(alloc: Global, line: u64) -> Result<String, AllocError>
    ensures { IfOk result (λ text. string_bytes text ≡ no_net_said line) }
{
    let mut text = String::new(alloc);
    append_no_net(&mut text, line)?;
    Ok(text)
}

fn append_no_net(out: &mut String, line: u64) -> Result<(), AllocError>
    ensures { OnOk result (string_bytes out.new ≡ string_bytes out.old ++ no_net_said line) }
{
    write!(out, ", line {line}: the netlist has no net of this name")
}

// That a file is not read, and what the system says of it where it is asked for the first byte.
fn unread<R: Files + AllocGlobal>(rt: &R, name: Option<&str>) -> Result<String, AllocError> {
    let mut text = String::new(rt.alloc());
    let Some(name) = name else {
        text.push_str(": it can't be read")?;
        return Ok(text);
    };
    match first_byte(rt, name) {
        Ok(()) => text.push_str(": it could not be read to its end")?,
        Err(error) => {
            text.push_str(": it can't be read: ")?;
            text.push_str(system_error(error.kind()))?;
        }
    }
    Ok(text)
}

fn first_byte<R: Files>(rt: &R, name: &str) -> io::Result<()> {
    let mut file = fs::open(rt, name)?;
    let mut byte = [0u8; 1];
    file.read(&mut byte)?;
    Ok(())
}

// A text with these words alone.
fn said(alloc: Global, words: &str) -> Result<String, AllocError>
    ensures { IfOk result (λ text. string_bytes text ≡ words.now) }
{
    let mut text = String::new(alloc);
    text.push_str(words)?;
    Ok(text)
}

const TOO_LONG: &str = ": it has more than 67,108,864 bytes";

const NO_NAMES: &str = ": no line names a net; gafkelam core does, where a width is unroutable";

const UNPRINTED: &str = "Standard output takes no more of the picture.";

const MEMORY: &str = "Memory ran out, so that nothing was drawn.";

const USAGE: &str = "The command does not take these words.\n\
    Usage: gafkelam picture ARCH NET PLACE ROUTE WIDTH [NAMES | ROUTED --reach L] \
    [--html], WIDTH and L from 1 to 64\n\
    As in: gafkelam picture design.arch design.net design.place out.route 9 > out.svg";
