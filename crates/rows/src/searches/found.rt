//! What is found of clauses.
ghost use Rattle.std.specs.Prelude.{◌≤◌, ◌+◌, IfOk, length};
ghost use Rattle.sat_turns.specs.Schedule.{IsSchedule};

use crate::questions::Questions;
use sat_clause::{Formula, Log};
use sat_core::{Answer, DecidedValue, FirstOrder, Habits, solve};
use sat_merge::solve_merged;
use sat_turns::{Schedule, TurnsEnd, run_turns};
use std::alloc::{AllocError, Global};

/// How clauses are searched.
#[derive(Clone, Copy)]
pub(crate) enum How {
    /// By one search, which deletes.
    Deleting,
    /// By one search, which keeps all.
    Keeping,
    /// By one search, which deletes, and decides the last variables first, as what they were last.
    Lasting,
    /// By one search, over the representatives where most variables follow, which decides those
    /// first that stand in most clauses.
    Merging,
    /// By so many searches, of which this seed says who has the next turn.
    Drawn { members: u64, seed: u64 },
    /// By two searches that take turns, the second first.
    SecondFirst,
}

// The habits of a search that decides the last variables first, as what they were last.
fn lasting() -> Habits {
    Habits {
        first: FirstOrder::Falling,
        value: DecidedValue::Last,
        ..Habits::usual()
    }
}

// Those of a search that decides the variables first that stand in most clauses.
fn counting() -> Habits {
    Habits {
        first: FirstOrder::MostClauses,
        ..Habits::usual()
    }
}

// What one search finds.
fn alone(
    alloc: Global,
    formula: &Formula,
    habits: Habits,
    budget: u64,
    keep: bool,
    asked: &mut Questions,
) -> Result<(Answer, Log), AllocError>
    requires some { 1 ≤ budget }
    requires few { length formula.now.cnf.clauses + budget ≤ 100000 }
{
    let mut log = Log::new(alloc);
    let answer = solve(alloc, formula, habits, budget, keep, asked, &mut log)?;
    Ok((answer, log))
}

// What one search finds that may go over representatives.
fn merging(
    alloc: Global,
    formula: &Formula,
    budget: u64,
    asked: &mut Questions,
) -> Result<(Answer, Log), AllocError>
    requires some { 1 ≤ budget }
    requires few { length formula.now.cnf.clauses + budget ≤ 100000 }
{
    let mut log = Log::new(alloc);
    let over_representatives = Habits {
        bump_parts: 9,
        many_literals: 20,
        ..counting()
    };
    let answer = solve_merged(
        alloc,
        formula,
        over_representatives,
        counting(),
        budget,
        false,
        asked,
        &mut log,
    )?;
    Ok((answer, log))
}

// What searches find that take turns.
fn by_turns(
    alloc: Global,
    formula: &Formula,
    budget: u64,
    schedule: &Schedule,
    asked: &mut Questions,
) -> Result<(Answer, Log), AllocError>
    requires some { 1 ≤ budget }
    requires few { length formula.now.cnf.clauses + budget ≤ 100000 }
    requires schedule { IsSchedule schedule.now }
{
    let mut log = Log::new(alloc);
    let TurnsEnd { answer, .. } = run_turns(
        alloc,
        formula,
        Habits::usual(),
        schedule,
        budget,
        asked,
        &mut log,
    )?;
    Ok((answer, log))
}

// Turns of two searches, the second first.
fn second_first(alloc: Global) -> Result<Schedule, AllocError>
    ensures { IfOk result IsSchedule }
{
    let mut list = Vec::new(alloc);
    list.push(1)?;
    list.push(0)?;
    Ok(Schedule::Given { members: 2, list })
}

/// What is found, and the log; nothing where the numbers are out of range, or memory ran out.
pub(crate) fn found(
    alloc: Global,
    formula: &Formula,
    how: How,
    budget: u64,
    asked: &mut Questions,
) -> Option<(Answer, Log)> {
    if formula.len() > 2000 || budget < 1 || budget > 50_000 {
        return None;
    }
    match how {
        How::Deleting => alone(alloc, formula, Habits::usual(), budget, false, asked).ok(),
        How::Keeping => alone(alloc, formula, Habits::usual(), budget, true, asked).ok(),
        How::Lasting => alone(alloc, formula, lasting(), budget, false, asked).ok(),
        How::Merging => merging(alloc, formula, budget, asked).ok(),
        How::Drawn { members, seed } => {
            if members < 1 || members > 8 || seed >= 1 << 31 {
                return None;
            }
            let (members, seed) = (members as u32, seed as u32);
            by_turns(
                alloc,
                formula,
                budget,
                &Schedule::Drawn { members, seed },
                asked,
            )
            .ok()
        }
        How::SecondFirst => by_turns(
            alloc,
            formula,
            budget,
            &second_first(alloc).ok()?,
            asked,
        ).ok(),
    }
}
