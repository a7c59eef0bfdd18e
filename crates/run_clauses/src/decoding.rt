//! The command `decode`: the route that a model of the clauses of a problem stands for.
ghost use Rattle.std.specs.Prelude.{◌≡◌, ◌≤◌, ◌⊎◌, List, [], ◌∷◌};
ghost use Rattle.fpga_problem.specs.Files.{names_said};
ghost use Rattle.fpga_problem.specs.Sources.{IsStopped, ReadsTo};
ghost use Rattle.model_text.specs.Assignments.{Gives};
ghost use Rattle.sat_clause.specs.declared.limits.TheConstants.{VARIABLE_LIMIT};
ghost use Rattle.sat_clause.specs.declared.literal.Lit.{Lit};
ghost use Rattle.router_words.specs.Job.{decode_said};
ghost use Rattle.run_clauses.specs.Decode.{DecodeLeaves, IsModelOf, LeavesClauses, LeavesJudged, LeavesModel, SaysModel, decoded_file, model_source};
ghost use Rattle.run_outcome.specs.Report.{IsReadFault};
ghost use Rattle.run_outcome.specs.Scene.{LeavesWork, scene};
ghost use Rattle.run_outcome.specs.Written.{WritesFiles};
ghost use Rattle.run_outcome.specs.declared.outcome.Outcome.TheVariants.{OutOfMemory, Routed};

use crate::chosen::Chosen;
use crate::known::known_of;
use crate::suited::unsuited;
use desk_io::{Desk, Shelf, write_file};
use fpga_bounds::PlacedProblem;
use fpga_problem::{FileFault, read_bytes, read_files};
use fpga_route::WholeRoute;
use fpga_types::RouteText;
use model_text::{Assignment, read_model};
use route_encode::Encoder;
use route_sweep::{FileSlot, few_clauses};
use router_words::DecodeJob;
use run_outcome::{
    Outcome, PROOF_BYTES, Slot, TextFile, file_name, stop_outcome, unread_outcome, was_given,
};
use sat_clause::Formula;
use std::alloc::Global;

// The model of so many variables that a file says.
fn read_model_file<D: Desk>(
    alloc: Global,
    desk: &mut D,
    name: &str,
    vars: u32,
) -> Result<Assignment, FileFault>
    requires { vars ≤ VARIABLE_LIMIT }
    ensures { ReadsTo (D.state desk.old) (D.state desk.new) (model_source name.now vars)
        (SaysModel (D.state desk.old).files name.now vars) result }
{
    let text = match read_bytes(alloc, desk, name, PROOF_BYTES) {
        Ok(text) => text,
        Err(fault) => return Err(fault),
    };
    match read_model(alloc, &text, vars) {
        Ok(model) => Ok(model),
        Err(fault) => Err(FileFault::Text(fault)),
    }
}

// Writes the file of the route of a model.
fn write_decoded<S: Shelf>(
    alloc: Global,
    job: &DecodeJob<'_>,
    found: &RouteText,
    shelf: &mut S,
) -> Outcome
    ensures { ((result ≡ OutOfMemory) × (S.state shelf.new ≡ S.state shelf.old))
        ⊎ WritesFiles (Routed job.now.width) (decoded_file (decode_said job.now) found.now ∷ [])
        (S.state shelf.old) (S.state shelf.new) result }
{
    let Ok(name) = file_name(alloc, job.prefix, ".route") else {
        return Outcome::OutOfMemory;
    };
    let Ok(()) = write_file(&WholeRoute, shelf, name.as_str(), found) else {
        return Outcome::WriteFault {
            slot: Slot::File(FileSlot::Route),
        };
    };
    Outcome::Routed { width: job.width }
}

// Writes the route that a model stands for, or names the first clause that it leaves unsatisfied.
fn judge_model<E: Encoder, S: Shelf>(
    alloc: Global,
    job: &DecodeJob<'_>,
    encoder: &E,
    problem: &PlacedProblem,
    formula: &Formula,
    model: &Assignment,
    shelf: &mut S,
) -> Outcome
    requires formula { formula.now.cnf ≡ E.formula_of encoder.now problem.now job.now.width }
    requires model { IsModelOf formula.now.cnf.vars model.now }
    ensures { (literals : List Lit) → Gives formula.now.cnf.vars literals model.now
        → LeavesJudged (decode_said job.now) (E.formula_of encoder.now problem.now job.now.width)
        (E.is_good encoder.now problem.now job.now.width) literals
        (S.state shelf.old) (S.state shelf.new) result }
{
    if let Some(clause) = model.first_unmet(formula) {
        return Outcome::NotModel { clause };
    }
    let Ok(found) = encoder.decode(alloc, problem, job.width, model.values()) else {
        return Outcome::OutOfMemory;
    };
    write_decoded(alloc, job, &found, shelf)
}

// Reads the model of these clauses, and writes the route that it stands for.
fn decode_model<E: Encoder, D: Desk, S: Shelf>(
    alloc: Global,
    job: &DecodeJob<'_>,
    encoder: &E,
    problem: &PlacedProblem,
    formula: &Formula,
    desk: &mut D,
    shelf: &mut S,
) -> Outcome
    requires { formula.now.cnf ≡ E.formula_of encoder.now problem.now job.now.width }
    ensures leaves { LeavesModel (IsStopped (D.state desk.old) (D.state desk.new))
        (D.state desk.old).files (decode_said job.now)
        (E.formula_of encoder.now problem.now job.now.width)
        (E.is_good encoder.now problem.now job.now.width)
        (S.state shelf.old) (S.state shelf.new) result }
    ensures files { (D.state desk.new).files ≡ (D.state desk.old).files }
    ensures quiet { ¬ IsReadFault result → (D.state desk.new).faults ≡ (D.state desk.old).faults }
{
    let model = match read_model_file(alloc, desk, job.model, formula.vars()) {
        Ok(model) => model,
        Err(fault) => return unread_outcome(TextFile::Model, fault),
    };
    judge_model(alloc, job, encoder, problem, formula, &model, shelf)
}

// Builds the clauses of an encoder, where there are not too many, and reads a model of them.
fn decode_clauses<E: Encoder, D: Desk, S: Shelf>(
    alloc: Global,
    job: &DecodeJob<'_>,
    encoder: &E,
    problem: &PlacedProblem,
    desk: &mut D,
    shelf: &mut S,
) -> Outcome
    ensures leaves { LeavesClauses (IsStopped (D.state desk.old) (D.state desk.new))
        (D.state desk.old).files (decode_said job.now)
        (E.formula_of encoder.now problem.now job.now.width)
        (E.is_good encoder.now problem.now job.now.width)
        (S.state shelf.old) (S.state shelf.new) result }
    ensures files { (D.state desk.new).files ≡ (D.state desk.old).files }
    ensures quiet { ¬ IsReadFault result → (D.state desk.new).faults ≡ (D.state desk.old).faults }
{
    let formula = match few_clauses(alloc, 1, encoder, problem, job.width) {
        Ok(formula) => formula,
        Err(stop) => return stop_outcome(stop),
    };
    decode_model(alloc, job, encoder, problem, &formula, desk, shelf)
}

// Does the work on a problem, where the method of the job suits it.
fn decode_problem<D: Desk, S: Shelf>(
    alloc: Global,
    job: &DecodeJob<'_>,
    problem: &PlacedProblem,
    desk: &mut D,
    shelf: &mut S,
) -> Outcome
    ensures leaves { DecodeLeaves (IsStopped (D.state desk.old) (D.state desk.new))
        (D.state desk.old).files (decode_said job.now) problem.now
        (S.state shelf.old) (S.state shelf.new) result }
    ensures files { (D.state desk.new).files ≡ (D.state desk.old).files }
    ensures quiet { ¬ IsReadFault result → (D.state desk.new).faults ≡ (D.state desk.old).faults }
{
    was_given(problem);
    if let Some(outcome) = unsuited(problem, job.method, job.width, job.width) {
        return outcome;
    }
    let Ok(known) = known_of(alloc, job.method, false, problem) else {
        return Outcome::OutOfMemory;
    };
    let encoder = Chosen::of(job.method, &known);
    decode_clauses(alloc, job, &encoder, problem, desk, shelf)
}

/// Reads the four files, and once they pose a problem builds its clauses, reads the model and
/// judges it by them. Where each clause has a literal of the model, the route that it stands for is
/// written.
pub fn decode_files<D: Desk, S: Shelf>(
    alloc: Global,
    job: &DecodeJob<'_>,
    desk: &mut D,
    shelf: &mut S,
) -> Outcome
    ensures leaves { LeavesWork (names_said job.now.files)
        (DecodeLeaves (IsStopped (D.state desk.old) (D.state desk.new))
        (D.state desk.old).files (decode_said job.now))
        (scene (D.state desk.old) (D.state desk.new) (S.state shelf.old) (S.state shelf.new))
        result }
    ensures files { (D.state desk.new).files ≡ (D.state desk.old).files }
    ensures quiet { ¬ IsReadFault result → (D.state desk.new).faults ≡ (D.state desk.old).faults }
{
    let problem = match read_files(alloc, desk, &job.files) {
        Ok(problem) => problem,
        Err(stop) => return unread_outcome(TextFile::Problem(stop.file), stop.fault),
    };
    decode_problem(alloc, job, &problem, desk, shelf)
}
