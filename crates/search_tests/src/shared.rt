//! A search that takes what others have learned.

ghost use Rattle.std.specs.Prelude.{◌≡◌, IfOk};
ghost use Rattle.search_tests.specs.Clash.{clash as clash_of_two, contradiction as contradiction_of_two};

use sat_clause::{Formula, Lit, Log};
use sat_core::{Habits, Search, Turn};
use std::alloc::{AllocError, Global};
use std::test::Fail;

/// A formula that no values satisfy, and none of whose clauses is a unit.
fn contradiction(alloc: Global) -> Result<Formula, AllocError>
    ensures { IfOk result (λ formula. formula.cnf ≡ contradiction_of_two) }
{
    let mut formula = Formula::new(alloc);
    formula.reserve(2, 4, 8)?;
    formula.push(&[Lit { code: 1 }, Lit { code: 2 }]);
    formula.push(&[Lit { code: 1 }, Lit { code: -2 }]);
    formula.push(&[Lit { code: -1 }, Lit { code: 2 }]);
    formula.push(&[Lit { code: -1 }, Lit { code: -2 }]);
    Ok(formula)
}

/// Two steps of other searches: by the first variable 1 is true, and by the second it is false.
fn clash(alloc: Global) -> Result<Log, AllocError>
    ensures { IfOk result (λ log. log.steps ≡ clash_of_two) }
{
    let mut log = Log::new(alloc);
    log.reserve(2, 6)?;
    log.add(5, &[Lit { code: 1 }], &[1, 2]);
    log.add(6, &[Lit { code: -1 }], &[3, 4]);
    Ok(log)
}

/// The first turn of a search behind these steps.
fn turn_behind_clash(alloc: Global, formula: &Formula, log: &mut Log) -> Result<Turn, AllocError>
    requires formula { formula.now.cnf ≡ contradiction_of_two }
    requires steps { log.old.steps ≡ clash_of_two }
{
    let mut search = Search::new(alloc, formula, Habits::usual())?;
    search.turn(formula, log)
}

/// Whether it refutes the formula.
fn refutes_behind_clash(alloc: Global, formula: &Formula, log: &mut Log) -> bool
    requires formula { formula.now.cnf ≡ contradiction_of_two }
    requires steps { log.old.steps ≡ clash_of_two }
{
    matches!(turn_behind_clash(alloc, formula, log), Ok(Turn::Refuted))
}

/// Whether a third step is without literals, by the two before it.
fn ends_without_literals(log: &Log) -> bool {
    if log.len() != 3 {
        return false;
    }
    let step = log.step(2);
    step.id == 7 && step.lits.is_empty() && step.hints == [5, 6].as_slice()
}

/// A clause that is false when it is taken, at level 0, refutes the formula.
#[test]
fn false_step_of_another_search_refutes(rt: HostRuntime) -> Result<(), Fail> {
    let formula = contradiction(rt.alloc())?;
    let mut log = clash(rt.alloc())?;
    assert!(rt; refutes_behind_clash(rt.alloc(), &formula, &mut log));
    assert!(rt; ends_without_literals(&log));
    Ok(())
}
