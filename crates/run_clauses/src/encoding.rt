//! The command `encode`: the clauses of a problem.
ghost use Rattle.std.specs.Prelude.{◌≡◌, IfErr, IfOk, OnOk, false};
ghost use Rattle.route_sweep.specs.Found.{IsHeld, IsUnbuilt};
ghost use Rattle.router_words.specs.Job.{encode_said};
ghost use Rattle.run_clauses.specs.Encode.{Encodes, WritesClauses};
ghost use Rattle.run_clauses.specs.Known.{IsKnown, crowd_of};
ghost use Rattle.run_clauses.specs.Method.{clauses_by};
ghost use Rattle.run_clauses.specs.Suited.{LeavesPrepared};
ghost use Rattle.run_outcome.specs.Report.{written_outcome};

use crate::chosen::Chosen;
use crate::known::known_of;
use crate::variable_names::{NamedClauses, NamedText};
use desk_io::{Shelf, write_file};
use fpga_bounds::PlacedProblem;
use problem_facts::Facts;
use route_sweep::{FileSlot, Stop, few_clauses};
use router_words::EncodeJob;
use run_outcome::{Outcome, file_name, stop_outcome};
use sat_clause::Formula;
use std::alloc::Global;

// The clauses that the job asks for, of which there are at most 40,000,000.
fn asked_clauses(
    alloc: Global,
    job: &EncodeJob<'_>,
    known: &Option<Facts>,
    problem: &PlacedProblem,
) -> Result<Formula, Stop>
    requires { IsKnown job.now.method false problem.now known.now }
    ensures formula { IfOk result (λ formula. formula.cnf
        ≡ clauses_by job.now.method (crowd_of known.now) job.now.width problem.now) }
    ensures held { OnOk result
        (IsHeld 1 (clauses_by job.now.method (crowd_of known.now) job.now.width problem.now)) }
    ensures stop { IfErr result
        (IsUnbuilt 1 (clauses_by job.now.method (crowd_of known.now) job.now.width problem.now)) }
{
    let encoder = Chosen::of(job.method, known);
    few_clauses(alloc, 1, &encoder, problem, job.width)
}

// Builds the clauses that the job asks for and writes them, where there are not too many.
fn write_clauses<S: Shelf>(
    alloc: Global,
    job: &EncodeJob<'_>,
    known: &Option<Facts>,
    problem: &PlacedProblem,
    shelf: &mut S,
) -> Result<(), Stop>
    requires { IsKnown job.now.method false problem.now known.now }
    ensures { WritesClauses (encode_said job.now) problem.now
        (clauses_by job.now.method (crowd_of known.now) job.now.width problem.now)
        (S.state shelf.old) (S.state shelf.new) result }
{
    let formula = match asked_clauses(alloc, job, known, problem) {
        Ok(formula) => formula,
        Err(stop) => return Err(stop),
    };
    let Ok(name) = file_name(alloc, job.prefix, ".cnf") else {
        return Err(Stop::Memory);
    };
    let clauses = NamedClauses {
        problem,
        width: job.width,
        names: job.names,
        formula: &formula,
    };
    let Ok(()) = write_file(&NamedText, shelf, name.as_str(), &clauses) else {
        return Err(Stop::Fault {
            slot: FileSlot::Clauses { width: job.width },
        });
    };
    Ok(())
}

// What the run comes to by the writing.
fn written_outcome(came: Result<(), Stop>) -> Outcome
    ensures { result ≡ written_outcome came }
{
    match came {
        Ok(()) => Outcome::Done,
        Err(stop) => stop_outcome(stop),
    }
}

/// Builds the clauses of the job and writes them.
pub fn encode_problem<S: Shelf>(
    alloc: Global,
    job: &EncodeJob<'_>,
    problem: &PlacedProblem,
    shelf: &mut S,
) -> Outcome
    ensures { LeavesPrepared job.now.method false (Encodes (encode_said job.now)) problem.now
        (S.state shelf.old) (S.state shelf.new) result }
{
    let Ok(known) = known_of(alloc, job.method, false, problem) else {
        return Outcome::OutOfMemory;
    };
    written_outcome(write_clauses(alloc, job, &known, problem, shelf))
}
