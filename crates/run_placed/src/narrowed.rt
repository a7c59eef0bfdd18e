//! What the command `least` writes: the route that was found, and what raised the bound, if a cut
//! alone asks for fewer tracks.
ghost use Rattle.std.specs.Prelude.{◌≡◌, ◌⊎◌, ◌≤◌, IfOk};
ghost use Rattle.run_placed.specs.Raised.{least_names, narrowed_files, reason_files};
ghost use Rattle.run_outcome.specs.Written.{WritesFiles};
ghost use Rattle.run_outcome.specs.declared.outcome.Outcome.TheVariants.{Narrowed, OutOfMemory};

use crate::narrowing::FoundAt;
use crate::raising::Raised;
use desk_io::{Shelf, write_file};
use fpga_route::WholeRoute;
use route_sweep::FileSlot;
use run_outcome::{Outcome, Slot, file_name};
use sat_text::{CnfText, LratText};
use std::alloc::{AllocError, Global};
use std::marker::Model;

// The names of the files, all made before the first is written.
#[derive(Drop)]
struct ResultNames {
    route: String,
    clauses: String,
    log: String,
}

impl Model for ResultNames {
    ghost use Rattle.std.specs.Prelude.{string_bytes};
    ghost use Rattle.run_placed.specs.Raised.{LeastNames};

    ghost Value = { LeastNames };

    ghost view = { λ n. record {
      route = string_bytes n.route;
      clauses = string_bytes n.clauses;
      log = string_bytes n.log;
    } };
}

impl ResultNames {
    // The names behind a prefix.
    fn behind(alloc: Global, prefix: &str) -> Result<ResultNames, AllocError>
        ensures { IfOk result (λ names. names ≡ least_names prefix.now) }
    {
        Ok(ResultNames {
            route: file_name(alloc, prefix, ".route")?,
            clauses: file_name(alloc, prefix, ".cnf")?,
            log: file_name(alloc, prefix, ".lrat")?,
        })
    }
}

// Writes the clauses that raised the bound and the log that refutes them, where there are some.
fn write_reason<S: Shelf>(
    names: &ResultNames,
    raised: &Raised,
    done: Outcome,
    shelf: &mut S,
) -> Outcome
    requires { 1 ≤ raised.now.tracks }
    ensures { WritesFiles done (reason_files names.now raised.now.tracks raised.now.why)
        (S.state shelf.old) (S.state shelf.new) result }
{
    let Some(found) = &raised.why else {
        return done;
    };
    let width = raised.tracks - 1;
    let name = names.clauses.as_str();
    let Ok(()) = write_file(&CnfText, shelf, name, &found.formula) else {
        return Outcome::WriteFault {
            slot: Slot::File(FileSlot::Clauses { width }),
        };
    };
    let name = names.log.as_str();
    let Ok(()) = write_file(&LratText, shelf, name, &found.log) else {
        return Outcome::WriteFault {
            slot: Slot::File(FileSlot::Log { width }),
        };
    };
    done
}

/// Writes the file of a route that was found, where a cut asks for so many tracks, and behind it
/// what raised that bound.
pub(crate) fn write_narrowed<S: Shelf>(
    alloc: Global,
    prefix: &str,
    cut: u32,
    raised: &Raised,
    at: &FoundAt,
    shelf: &mut S,
) -> Outcome
    requires { 1 ≤ raised.now.tracks }
    ensures { ((result ≡ OutOfMemory) × (S.state shelf.new ≡ S.state shelf.old))
        ⊎ WritesFiles (Narrowed raised.now.tracks at.now.width cut)
        (narrowed_files (least_names prefix.now) at.now.found raised.now.tracks raised.now.why)
        (S.state shelf.old) (S.state shelf.new) result }
{
    let Ok(names) = ResultNames::behind(alloc, prefix) else {
        return Outcome::OutOfMemory;
    };
    write_under(&names, cut, raised, at, shelf)
}

// Writes the files under these names.
fn write_under<S: Shelf>(
    names: &ResultNames,
    cut: u32,
    raised: &Raised,
    at: &FoundAt,
    shelf: &mut S,
) -> Outcome
    requires { 1 ≤ raised.now.tracks }
    ensures { WritesFiles (Narrowed raised.now.tracks at.now.width cut)
        (narrowed_files names.now at.now.found raised.now.tracks raised.now.why)
        (S.state shelf.old) (S.state shelf.new) result }
{
    let name = names.route.as_str();
    let Ok(()) = write_file(&WholeRoute, shelf, name, &at.found) else {
        return Outcome::WriteFault {
            slot: Slot::File(FileSlot::Route),
        };
    };
    let done = Outcome::Narrowed {
        tracks: raised.tracks,
        width: at.width,
        cut,
    };
    write_reason(names, raised, done, shelf)
}
