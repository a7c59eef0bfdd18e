//! Windows that are refuted.
ghost use Rattle.std.specs.Prelude.{◌≡◌, ◌≤◌, IfOk, IfSome, length};
ghost use Rattle.cell_bound.specs.Refutations.{IsCutRefutation, IsFoundFor, IsRefuted};
ghost use Rattle.cell_bound.specs.declared.refuting.TheConstants.{LEARNED_LIMIT};
ghost use Rattle.cell_clauses.specs.Clauses.{cell_cnf};
ghost use Rattle.cell_clauses.specs.Held.{frame_in};
ghost use Rattle.fpga_types.specs.declared.limits.TheConstants.{NET_LIMIT, PIN_LIMIT, WIDTH_LIMIT};
ghost use Rattle.route_bound.specs.Placed.{placed_netlist};

use crate::blaming::blamed_nets;
use crate::windows::{first_size, last_size, square, stride};
use cell_clauses::PlacedWindow;
use fpga_types::{Arch, Netlist, Placement};
use patience::Patience;
use route_bound::CornerRange;
use route_core::{trim, trimmed_is_its_own};
use sat_clause::{CLAUSE_LIMIT, Formula, Log};
use sat_core::{Answer, Habits, solve};
use std::alloc::{AllocError, Global};

/// How many clauses a search through a window may learn at the most.
pub const LEARNED_LIMIT: u64 = 100_000_000;

/// How much is looked for: how many windows at the most, from 4 on, and how many clauses the search
/// through one learns at the most, from 1 to 100,000,000.
#[derive(Clone, Copy)]
pub struct Budget {
    pub looks: u32,
    pub learned: u64,
    ghost some: { 1 ≤ learned },
    ghost most: { learned ≤ LEARNED_LIMIT },
}

/// Why no routing of a placement has some number of tracks or fewer: the clauses over the cells of
/// the window of a rectangle of corners, a log that refutes them, and the nets of the window that
/// it blames, by their numbers in the netlist.
#[derive(Drop)]
pub struct CellRefutation {
    pub range: CornerRange,
    pub formula: Formula,
    pub log: Log,
    pub nets: Vec<u32>,
}

/// A placed netlist, lent, with a number of tracks, and how much is looked for.
#[derive(Drop)]
struct Looks<'a> {
    arch: &'a Arch,
    netlist: &'a Netlist,
    placement: &'a Placement,
    width: u32,
    budget: Budget,
    ghost few_nets: { length netlist.now.nets ≤ NET_LIMIT },
    ghost few_pins: { length arch.now.pins ≤ PIN_LIMIT },
    ghost some: { 1 ≤ width },
    ghost most: { width ≤ WIDTH_LIMIT },
}

/// A refutation over cells that says that no routing of a placement has `width` tracks, from 1 to
/// 64, or fewer: that of the first window that a search refutes, cut down to what it needs. The
/// nets that it blames have no such routing by themselves, whatever the others would have. Windows
/// are those round squares of two by two to five by five blocks, the smallest squares first, as
/// many of each size, all over the array. The patience is asked before each window, and by its
/// search; where it is over none is refuted. None says nothing.
///
/// # Errors
/// Where memory is short.
pub fn refute<P: Patience>(
    alloc: Global,
    arch: &Arch,
    netlist: &Netlist,
    placement: &Placement,
    width: u32,
    budget: Budget,
    patience: &mut P,
) -> Result<Option<CellRefutation>, AllocError>
    requires nets { length netlist.now.nets ≤ NET_LIMIT }
    requires pins { length arch.now.pins ≤ PIN_LIMIT }
    requires some { 1 ≤ width }
    requires most { width ≤ WIDTH_LIMIT }
    ensures { IfOk result (λ found. IfSome found
        (IsRefuted (placed_netlist arch.now netlist.now placement.now) width)) }
{
    let looks = Looks {
        arch,
        netlist,
        placement,
        width,
        budget,
    };
    for size in first_size()..last_size(placement.grid) + 1 {
        let found = looks.refuted_of_size(alloc, size, patience)?;
        if found.is_some() {
            return Ok(found);
        }
    }
    Ok(None)
}

impl<'a> Looks<'a> {
    /// The first window round squares of so many blocks that is refuted.
    fn refuted_of_size<P: Patience>(
        &self,
        alloc: Global,
        size: u32,
        patience: &mut P,
    ) -> Result<Option<CellRefutation>, AllocError>
        ensures { IfOk result (λ found. IfSome found (IsRefuted
            (placed_netlist self.now.arch.now self.now.netlist.now self.now.placement.now)
            self.now.width)) }
    {
        let placement = self.placement;
        let grid = placement.grid;
        let stride = stride(grid, self.budget.looks);
        for column in 0..grid.nx {
            let left = column.saturating_mul(stride);
            let found = self.refuted_in_column(alloc, size, stride, left, patience)?;
            if found.is_some() {
                return Ok(found);
            }
        }
        Ok(None)
    }

    /// The first one in a column of squares.
    fn refuted_in_column<P: Patience>(
        &self,
        alloc: Global,
        size: u32,
        stride: u32,
        left: u32,
        patience: &mut P,
    ) -> Result<Option<CellRefutation>, AllocError>
        ensures { IfOk result (λ found. IfSome found (IsRefuted
            (placed_netlist self.now.arch.now self.now.netlist.now self.now.placement.now)
            self.now.width)) }
    {
        let placement = self.placement;
        let grid = placement.grid;
        for row in 0..grid.ny {
            let bottom = row.saturating_mul(stride);
            let Some(range) = square(grid, size, left, bottom) else {
                return Ok(None);
            };
            let found = self.refuted_window(alloc, range, patience)?;
            if found.is_some() {
                return Ok(found);
            }
        }
        Ok(None)
    }

    /// What refutes the window of a rectangle, if a search does, which the patience is asked for.
    fn refuted_window<P: Patience>(
        &self,
        alloc: Global,
        range: CornerRange,
        patience: &mut P,
    ) -> Result<Option<CellRefutation>, AllocError>
        ensures { IfOk result (λ found. IfSome found (IsRefuted
            (placed_netlist self.now.arch.now self.now.netlist.now self.now.placement.now)
            self.now.width)) }
    {
        if !patience.goes_on() {
            return Ok(None);
        }
        let window = PlacedWindow::of(
            alloc,
            self.arch,
            self.netlist,
            self.placement,
            range,
            self.width,
        )?;
        let Some(window) = window else {
            return Ok(None);
        };
        // So few nets could all have all cells.
        if window.net_count() <= self.width {
            return Ok(None);
        }
        let formula = window.formula(alloc)?;
        refuted_formula(alloc, &window, range, formula, self.budget, patience)
    }
}

/// What refutes the formula of a rectangle's window, if a log is found that does, and the nets that
/// it blames.
fn refuted_formula<P: Patience>(
    alloc: Global,
    window: &PlacedWindow<'_>,
    range: CornerRange,
    formula: Formula,
    budget: Budget,
    patience: &mut P,
) -> Result<Option<CellRefutation>, AllocError>
    requires { formula.cnf ≡ cell_cnf (frame_in window.now) }
    ensures { IfOk result (λ found. IfSome found
        (IsFoundFor (frame_in window.now) range formula.cnf)) }
{
    let Some(log) = refuting_log(alloc, &formula, budget, patience)? else {
        return Ok(None);
    };
    let nets = blamed_nets(alloc, window, &formula, &log)?;
    Ok(Some(CellRefutation {
        range,
        formula,
        log,
        nets,
    }))
}

/// A log that refutes a formula, cut down to what it needs, if the formula has no more clauses than
/// may be read and a search refutes it.
fn refuting_log<P: Patience>(
    alloc: Global,
    formula: &Formula,
    budget: Budget,
    patience: &mut P,
) -> Result<Option<Log>, AllocError>
    ensures { IfOk result (λ found. IfSome found
        (λ log. IsCutRefutation formula.now.cnf log.steps)) }
{
    if u64::from(formula.len()) > CLAUSE_LIMIT {
        return Ok(None);
    }
    let habits = Habits::usual();
    let mut log = Log::new(alloc);
    let answer = solve(
        alloc,
        formula,
        habits,
        budget.learned,
        true,
        patience,
        &mut log,
    )?;
    match answer {
        Answer::Refuted => {
            trimmed_is_its_own();
            let small = trim(alloc, formula, &log)?;
            Ok(Some(small))
        }
        Answer::Model(_) | Answer::Spent | Answer::Stopped => Ok(None),
    }
}
