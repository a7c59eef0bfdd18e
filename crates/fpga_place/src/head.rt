//! The head of a placement text: its file line and its array line.
ghost use Rattle.std.specs.Prelude.{◌≡◌, ◌+◌, IfOk, IfErr, map};
ghost use Rattle.fpga_text.specs.ArrayLine.{size_words};
ghost use Rattle.fpga_text.specs.FirstFault.{IsFaultOf, IsRefusal};
ghost use Rattle.fpga_text.specs.declared.fault.TextFault.TheVariants.{Bad};
ghost use Rattle.fpga_place.specs.Causes.{code_of};
ghost use Rattle.fpga_place.specs.Codes.{Setting, lines_faults};
ghost use Rattle.fpga_place.specs.Heads.{IsHead, SaysArray, array_fault};
ghost use Rattle.fpga_place.specs.Lines as spec;
ghost use Rattle.fpga_place.specs.declared.cause.Cause.TheVariants.{HeadForm};

use crate::cause::Cause;
use fpga_text::{Coded, FirstWords, Line, Lines, TextFault, is_text, size_line};
use fpga_types::{Grid, SizeFault};

/// Takes the two head lines, and gives the array that they say.
pub fn read_head(lines: &mut Lines<'_>) -> Result<Grid, TextFault>
    ensures ok { IfOk result (IsHead lines.old lines.new) }
    ensures err { IfErr result (λ fault. (setting : Setting)
        → IsRefusal (lines_faults setting lines.old.ahead lines.old.total) fault) }
{
    let Some(mut first) = lines.next_line() else {
        return Err(missing_line(lines));
    };
    let number = first.number();
    if !says_files(&mut first) {
        return Err(Cause::HeadForm.at(number));
    }
    let Some(mut second) = lines.next_line() else {
        return Err(missing_line(lines));
    };
    read_array(&mut second)
}

/// The fault of a text whose head ends with its last line.
fn missing_line(lines: &Lines<'_>) -> TextFault
    ensures { result ≡ Bad (lines.now.taken + 1) (code_of HeadForm) }
{
    Cause::HeadForm.at(lines.line_count() + 1)
}

/// Whether a line is `Netlist file: F Architecture file: G`.
fn says_files(line: &mut Line<'_>) -> bool
    ensures { result ≡ spec.is_file_line line.old.words }
{
    let words = FirstWords::of(line);
    is_file_line(words.as_slice())
}

/// Whether these are the words of a file line.
fn is_file_line(words: &[&[u8]]) -> bool
    ensures { result ≡ spec.is_file_line (map (λ w. w.now) words.now) }
{
    let [netlist, file, _, architecture, again, _] = words else {
        return false;
    };
    is_file_frame(netlist, file, architecture, again)
}

/// Whether these words stand round the names of the files.
fn is_file_frame(netlist: &[u8], file: &[u8], architecture: &[u8], again: &[u8]) -> bool
    ensures { result ≡ spec.is_file_frame netlist.now file.now architecture.now again.now }
{
    is_text(netlist, b"Netlist")
        && is_text(file, b"file:")
        && is_text(architecture, b"Architecture")
        && is_text(again, b"file:")
}

/// The array that the second line says, or what is wrong with the line.
fn read_array(line: &mut Line<'_>) -> Result<Grid, TextFault>
    ensures ok { IfOk result (SaysArray line.old) }
    ensures err { IfErr result
        (IsFaultOf (array_fault line.old.number (size_words line.old.words))) }
{
    let number = line.number();
    let Some(size) = size_line(line) else {
        return Err(Cause::HeadForm.at(number));
    };
    match Grid::said_by(&size) {
        Ok(grid) => Ok(grid),
        Err(SizeFault::NoNumber) => Err(Cause::NoNumber.at(number)),
        Err(SizeFault::PastLimit { count }) => Err(Cause::PastLimit.past(count)),
    }
}
