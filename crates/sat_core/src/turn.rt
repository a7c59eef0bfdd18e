//! One turn of a search: on to the next false clause, and what is learned from it.

ghost use Rattle.std.specs.Prelude.{◌≡◌, ◌≤◌, IfOk, OnErr};
ghost use Rattle.sat_core.specs.SearchStore.{SameKept};
ghost use Rattle.sat_core.specs.Stands.{IsOpenLog, StandsFor, at_end, next_id as next_id_of};
ghost use Rattle.sat_core.specs.Underway.{IsTurn};

use crate::state::SearchState;
use sat_clause::{Formula, ID_LIMIT, Log};
use std::alloc::{AllocError, Global};

/// What one turn of a search comes to.
#[derive(Debug, Drop)]
pub enum Turn {
    /// One more clause is learned and logged, which is not empty.
    Learned,
    /// These values satisfy the formula, that of variable 1 first.
    Model(Vec<bool>),
    /// The empty clause is logged, and the log refutes the formula.
    Refuted,
}

/// Goes back to level 0 where a restart is due. Searches on until a clause is false, and then
/// learns and logs a clause; or until each variable has a value. The search stands for the formula
/// and all steps of the log.
///
/// Memory is taken before anything is logged, so the log is as it was where memory is short.
pub(crate) fn take_turn(
    alloc: Global,
    search: &mut SearchState,
    formula: &Formula,
    log: &mut Log,
) -> Result<Turn, AllocError>
    requires stands { StandsFor search.old formula.now.cnf log.old.steps }
    requires open_log { IsOpenLog formula.now.cnf log.old.steps }
    requires few { next_id_of formula.now.cnf log.old.steps ≤ ID_LIMIT }
    ensures ok { IfOk result (IsTurn (at_end search.new log.new.steps) formula.now.cnf
        log.old.steps log.new.steps) }
    ensures err { OnErr result (log.new.steps ≡ log.old.steps) }
    ensures same { OnErr result (SameKept search.old search.new) }
{
    search.restart_where_due();
    let Some(learned) = search.next_learned(alloc)? else {
        let values = search.model(alloc, formula.vars())?;
        return Ok(Turn::Model(values));
    };
    let numbers = learned.clause.len() as u64 + learned.hints.len() as u64;
    log.reserve(1, numbers)?;
    let id = search.next_id();
    if learned.clause.is_empty() {
        log.add(id, &learned.clause, &learned.hints);
        return Ok(Turn::Refuted);
    }
    search.learn(&learned)?;
    log.add(id, &learned.clause, &learned.hints);
    search.reuse(learned);
    Ok(Turn::Learned)
}
