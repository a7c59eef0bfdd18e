//! Whether the four values of a problem fit, and the table of its slots.
ghost use Rattle.std.specs.Prelude.{◌≡◌, ◌<◌, ◌≤◌, ◌-◌, ◌^◌, length};
ghost use Rattle.fpga_text.specs.FirstFault.{Answers};
ghost use Rattle.fpga_bounds.specs.Heads.{line_faults};
ghost use Rattle.fpga_types.specs.Fits as fits;
ghost use Rattle.fpga_types.specs.Fits.{problem_faults};
ghost use Rattle.fpga_types.specs.Slots.{slots};

use crate::design::Design;
use crate::fit_rules::FitRules;
use crate::nets_check::check_nets;
use crate::slot_table::SlotTable;
use fpga_text::{Coded, TextFault};
use fpga_types::{FitCause, Grid, NET_LIMIT};
use std::alloc::Global;

/// The table of the slots of a route, if the four values fit, or their first fault.
pub(crate) fn fitting_problem<'a>(
    alloc: Global,
    design: &'a Design<'a>,
) -> Result<SlotTable, TextFault>
    requires nets { length design.now.route.nets ≤ NET_LIMIT }
    requires lines { design.now.route.lines < 2 ^ 64 - 1 }
    ensures { Answers (problem_faults design.now) (λ table. table ≡ slots design.now.route) result }
{
    let route = design.route;
    if !same_size(design.placement.grid, route.grid) {
        return Err(FitCause::OtherArray.at(route.grid_line));
    }
    check_lines(alloc, design)
}

/// Whether the arrays have one size.
pub fn same_size(a: Grid, b: Grid) -> bool
    ensures { result ≡ fits.same_size a b }
{
    a.nx == b.nx && a.ny == b.ny
}

/// The table of the slots of a route, if its Net and element lines and its end have no fault.
fn check_lines<'a>(alloc: Global, design: &'a Design<'a>) -> Result<SlotTable, TextFault>
    requires nets { length design.now.route.nets ≤ NET_LIMIT }
    requires lines { design.now.route.lines < 2 ^ 64 - 1 }
    ensures { Answers (line_faults design.now) (λ table. table ≡ slots design.now.route) result }
{
    let Ok(rules) = FitRules::of(alloc, design) else {
        return Err(TextFault::Memory);
    };
    let route = design.route;
    let mut table = SlotTable::new(alloc);
    let lacking = match check_nets(alloc, &rules, &mut table, route.nets.as_slice()) {
        Ok(lacking) => lacking,
        Err(fault) => return Err(fault),
    };
    if lacking {
        return Err(FitCause::MissingNet.at(route.lines + 1));
    }
    Ok(table)
}
