//! The command `trial`: a sweep of a generated problem.
ghost use Rattle.std.specs.Prelude.{◌≡◌, ◌≤◌, length, IfErr, IfOk};
ghost use Rattle.fpga_types.specs.Slots.{slots};
ghost use Rattle.fpga_types.specs.declared.limits.TheConstants.{SLOT_LIMIT};
ghost use Rattle.router_words.specs.Job.{recipe_said, trial_said};
ghost use Rattle.run_made.specs.Generated.{IsMade, PosesNone};
ghost use Rattle.router_top.specs.Run.{TriesGenerated};
ghost use Rattle.run_outcome.specs.Stopped.{EndsEarly};
ghost use Rattle.router_top.specs.Work.{trial_line};

use crate::sweeping::search_widths;
use arrayvec::ArrayString;
use desk_io::Shelf;
use fpga_bounds::PlacedProblem;
use fpga_problem::{FileFault, FourTexts, read_problem};
use router_words::{Recipe, TrialJob};
use run_clauses::known_of;
use run_made::make_texts;
use run_outcome::{Clock, LINE_ROOM, Outcome, Slot, TextFile, push_count, unread_outcome};
use std::alloc::Global;

// The line that says how large a problem is.
fn trial_line(problem: &PlacedProblem) -> ArrayString<LINE_ROOM>
    ensures line { result.bytes ≡ trial_line problem.now }
    ensures few { length (slots problem.now.route) ≤ SLOT_LIMIT }
{
    let mut line = ArrayString::new();
    push_count(&mut line, "trial: slots ", problem.slots().len() as u64);
    push_count(&mut line, " steps ", problem.steps().len() as u64);
    push_count(&mut line, " pairs ", problem.pairs());
    line.push_str("\n");
    line
}

// The texts of a generated problem, lent.
fn lent(texts: &route_gen::FourTexts) -> FourTexts<'_>
    ensures { result ≡ texts.now }
{
    FourTexts {
        architecture: &texts.architecture,
        netlist: &texts.netlist,
        placement: &texts.placement,
        route: &texts.route,
    }
}

// The problem that a recipe makes. The error is what the run comes to.
fn make_problem(alloc: Global, recipe: Recipe) -> Result<PlacedProblem, Outcome>
    ensures made { IfOk result (IsMade (recipe_said recipe)) }
    ensures none { IfErr result (PosesNone (recipe_said recipe)) }
{
    let texts = match make_texts(alloc, recipe) {
        Ok(texts) => texts,
        Err(outcome) => return Err(outcome),
    };
    match read_problem(alloc, &lent(&texts)) {
        Ok(problem) => Ok(problem),
        Err(refusal) => Err(unread_outcome(
            TextFile::Problem(refusal.file),
            FileFault::Text(refusal.fault),
        )),
    }
}

/// Makes a problem from its recipe, says how large it is, and searches at the widths from 1 on, as
/// a sweep does; writes what a sweep writes.
pub fn trial<S: Shelf, C: Clock>(
    alloc: Global,
    job: &TrialJob<'_>,
    shelf: &mut S,
    clock: &mut C,
) -> Outcome
    ensures leaves { TriesGenerated (trial_said job.now) (S.state shelf.old) (S.state shelf.new)
        result }
    ensures stopped { EndsEarly job.now.search.conflicts result → C.is_over clock.new }
{
    let problem = match make_problem(alloc, job.recipe) {
        Ok(problem) => problem,
        Err(outcome) => return outcome,
    };
    let Ok(known) = known_of(alloc, job.search.method, job.search.count, &problem) else {
        return Outcome::OutOfMemory;
    };
    let Ok(()) = shelf.say(trial_line(&problem).as_bytes()) else {
        return Outcome::WriteFault { slot: Slot::Said };
    };
    search_widths(alloc, &problem, &known, &job.search, None, shelf, clock)
}
