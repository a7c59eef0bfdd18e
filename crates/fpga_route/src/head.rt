//! The head of a route text: its array line and `Routing:`.
ghost use Rattle.std.specs.Prelude.{◌≡◌, ◌+◌, Some, None, IfOk, IfErr};
ghost use Rattle.fpga_text.specs.FirstFault.{IsFaultOf, IsRefusal};
ghost use Rattle.fpga_text.specs.declared.fault.TextFault.TheVariants.{Bad};
ghost use Rattle.fpga_route.specs.Causes.{code_of};
ghost use Rattle.fpga_route.specs.Codes.{lines_faults};
ghost use Rattle.fpga_route.specs.Forms as spec;
ghost use Rattle.fpga_route.specs.Forms.{array_form};
ghost use Rattle.fpga_route.specs.Heads.{IsHead, array_fault, said_grid};
ghost use Rattle.fpga_route.specs.declared.cause.Cause.TheVariants.{HeadForm};

use crate::cause::Cause;
use crate::forms;
use fpga_text::{Coded, FirstWords, Line, Lines, TextFault, size_line};
use fpga_types::{Grid, SizeFault};

/// What the head says: the array, and the number of the line that says it.
#[derive(Clone, Copy)]
pub struct Head {
    pub grid: Grid,
    pub line: u64,
}

/// Takes the two head lines.
pub fn read_head(lines: &mut Lines<'_>) -> Result<Head, TextFault>
    ensures ok { IfOk result (IsHead lines.old lines.new) }
    ensures err { IfErr result (IsRefusal (lines_faults lines.old.ahead lines.old.total)) }
{
    let Some(mut first) = lines.next_line() else {
        return Err(missing_line(lines));
    };
    let line = first.number();
    let grid = match read_array(&mut first) {
        Ok(grid) => grid,
        Err(fault) => return Err(fault),
    };
    let Some(mut second) = lines.next_line() else {
        return Err(missing_line(lines));
    };
    let second_number = second.number();
    if !is_routing(&mut second) {
        return Err(Cause::HeadForm.at(second_number));
    }
    Ok(Head { grid, line })
}

/// The fault of a text whose head ends with its last line.
fn missing_line(lines: &Lines<'_>) -> TextFault
    ensures { result ≡ Bad (lines.now.taken + 1) (code_of HeadForm) }
{
    Cause::HeadForm.at(lines.line_count() + 1)
}

/// Whether a line is `Routing:`.
fn is_routing(line: &mut Line<'_>) -> bool
    ensures { result ≡ spec.is_routing line.old.words }
{
    let words = FirstWords::of(line);
    forms::is_routing(words.as_slice())
}

/// The array that the first line says, or what is wrong with the line.
fn read_array(line: &mut Line<'_>) -> Result<Grid, TextFault>
    ensures clean { IfOk result
        (λ grid. array_fault line.old.number (array_form line.old.words) ≡ None) }
    ensures grid { IfOk result (λ grid. said_grid (array_form line.old.words) ≡ Some grid) }
    ensures err { IfErr result
        (IsFaultOf (array_fault line.old.number (array_form line.old.words))) }
{
    let number = line.number();
    let Some(size) = size_line(line) else {
        return Err(Cause::HeadForm.at(number));
    };
    match Grid::said_by(&size) {
        Ok(grid) => Ok(grid),
        Err(SizeFault::NoNumber) => Err(Cause::NoNumber.at(number)),
        Err(SizeFault::PastLimit { count }) => Err(Cause::PastLimit.past(count)),
    }
}
