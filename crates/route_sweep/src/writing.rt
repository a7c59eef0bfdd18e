//! What a search writes: the routing, or the clauses and the log.
ghost use Rattle.std.specs.Prelude.{◌≤◌, length};
ghost use Rattle.route_sweep.specs.Asked.{asked};
ghost use Rattle.route_sweep.specs.Written.{WritesProof, WritesRoute};

use crate::asking::Ask;
use crate::found::{FileSlot, Stop};
use crate::names::{file_name, name_prefix};
use desk_io::{Shelf, write_file};
use fpga_route::WholeRoute;
use fpga_types::RouteText;
use sat_clause::{CLAUSE_LIMIT, Formula, Log};
use sat_text::{CnfText, LratText};
use std::alloc::Global;

/// Writes a routing, and no other file. It reads back if it can be printed.
///
/// # Errors
/// `Fault` names the routing where the shelf failed on it, and `Memory` comes where memory is
/// short: nothing was written then.
pub fn write_routing<S: Shelf>(
    alloc: Global,
    found: &RouteText,
    ask: &Ask<'_>,
    shelf: &mut S,
) -> Result<(), Stop>
    ensures { WritesRoute (asked ask.now) found.now (S.state shelf.old) (S.state shelf.new) result }
{
    let Ok(name) = file_name(alloc, ask.prefix, ".route") else {
        return Err(Stop::Memory);
    };
    let Ok(()) = write_file(&WholeRoute, shelf, name.as_str(), found) else {
        return Err(Stop::Fault {
            slot: FileSlot::Route,
        });
    };
    Ok(())
}

/// Writes the clauses, of which there are at most 40,000,000, and then the log of a search through
/// them, and no other file. The clauses read back; the log does where its numbers may be read.
///
/// # Errors
/// `Fault` names the file on which the shelf failed; the clauses stand where it is the log.
/// `Memory` comes where memory is short: nothing was written then.
pub fn write_proof<S: Shelf>(
    alloc: Global,
    formula: &Formula,
    log: &Log,
    width: u32,
    ask: &Ask<'_>,
    shelf: &mut S,
) -> Result<(), Stop>
    requires { length formula.now.cnf.clauses ≤ CLAUSE_LIMIT }
    ensures { WritesProof (asked ask.now) width formula.now.cnf log.now.steps
        (S.state shelf.old) (S.state shelf.new) result }
{
    let Ok(prefix) = name_prefix(alloc, ask, width) else {
        return Err(Stop::Memory);
    };
    let Ok(cnf_name) = file_name(alloc, prefix.as_str(), ".cnf") else {
        return Err(Stop::Memory);
    };
    let Ok(lrat_name) = file_name(alloc, prefix.as_str(), ".lrat") else {
        return Err(Stop::Memory);
    };
    let Ok(()) = write_file(&CnfText, shelf, cnf_name.as_str(), formula) else {
        return Err(Stop::Fault {
            slot: FileSlot::Clauses { width },
        });
    };
    let Ok(()) = write_file(&LratText, shelf, lrat_name.as_str(), log) else {
        return Err(Stop::Fault {
            slot: FileSlot::Log { width },
        });
    };
    Ok(())
}
