//! Reading an architecture text.
ghost use Rattle.std.specs.Prelude.{◌≡◌, ◌<◌, ◌+◌, ◌^◌, length, OnOk, IfOk, IfErr};
ghost use Rattle.fpga_text.specs.Codes.{end_fault};
ghost use Rattle.fpga_text.specs.FirstFault.{Answers, AnswersFault, IsRefusal};
ghost use Rattle.fpga_types.specs.ArchSound.{IsSoundArch};
ghost use Rattle.fpga_arch.specs.Codes.{arch_codes, arch_faults};
ghost use Rattle.fpga_arch.specs.Drafts.{context_at};
ghost use Rattle.fpga_arch.specs.Lines.{ReadsLines, faults_ahead};
ghost use Rattle.fpga_arch.specs.Value.{arch_value};

use crate::cause::Cause;
use crate::draft::Draft;
use fpga_text::{Coded, Lines, Style, TextFault};
use fpga_types::Arch;
use std::alloc::Global;

/// The value of an architecture text, or its first fault.
///
/// # Errors
/// `Bad` has the first bad line, counted from 1, with the least code that holds there:
/// - 101: one of the twelve keywords has no line; this counts as the line after the last;
/// - 102: a number is due, and is none or not in its range;
/// - 103: a pin without `class:`, without a side, or with another word among its sides;
/// - 104: a segment whose length is not 1;
/// - 105: a channel along rows or columns that is not uniform;
/// - 106: a channel whose width differs from an earlier one;
/// - 107: a pattern of switch blocks that is not known;
/// - 108: a pin whose class an earlier pin of the other direction has;
/// - 110: a keyword that may not repeat stands on an earlier line;
/// - 111: a segment that leaves out connection boxes or switch blocks.
///
/// `Limit` has the code 109 and a count: more than 16 pads at a place, more than 64 pins, or a
/// class above 63. `Memory` comes where memory is short.
pub fn read_arch(alloc: Global, bytes: &[u8]) -> Result<Arch, TextFault>
    ensures answers { Answers (arch_faults bytes.now) (λ arch. arch ≡ arch_value bytes.now) result }
    ensures sound { IfOk result IsSoundArch }
{
    let mut lines = Lines::new(bytes, Style::Joined);
    let mut draft = Draft::new(alloc);
    match read_lines(&mut lines, &mut draft) {
        Ok(()) => finished(draft, lines.line_count()),
        Err(fault) => Err(fault),
    }
}

/// The architecture, or the keyword without a line, in a text of so many lines.
fn finished(draft: Draft, count: u64) -> Result<Arch, TextFault>
    requires { count < 2 ^ 63 }
    ensures answers { AnswersFault (end_fault arch_codes (context_at draft) (count + 1))
        (λ arch. arch ≡ draft.arch) result }
    ensures sound { IfOk result IsSoundArch }
{
    if !draft.is_whole() {
        return Err(Cause::MissingLine.at(count + 1));
    }
    Ok(draft.finish())
}

/// Takes the lines that are ahead.
fn read_lines(lines: &mut Lines<'_>, draft: &mut Draft) -> Result<(), TextFault>
    requires { length draft.old.flags ≡ 12 }
    ensures ok { OnOk result (ReadsLines lines.old draft.old lines.new draft.new) }
    ensures err { IfErr result (IsRefusal (faults_ahead draft.old lines.old)) }
{
    while let Some(mut line) = lines.next_line() {
        if let Err(fault) = draft.take_text(&mut line) {
            return Err(fault);
        }
    }
    Ok(())
}
