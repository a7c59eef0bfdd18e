//! The nets of a window that a refutation of its clauses blames.
ghost use Rattle.std.specs.Prelude.{◌≡◌, ◌<◌, All, IfOk, length};
ghost use Rattle.std.specs.List.{list_any};
ghost use Rattle.cell_bound.specs.Blamed.{blamed_nets, demands_at, number_at};
ghost use Rattle.cell_clauses.specs.Held.{frame_in};

use cell_clauses::PlacedWindow;
use route_core::used_clauses;
use sat_clause::{Formula, Log};
use std::alloc::{AllocError, Global};

/// The numbers in the netlist, in the order of the window, of its nets of which a clause demands
/// something that a log uses.
///
/// # Errors
/// Where memory is short.
pub(crate) fn blamed_nets(
    alloc: Global,
    window: &PlacedWindow<'_>,
    formula: &Formula,
    log: &Log,
) -> Result<Vec<u32>, AllocError>
    ensures { IfOk result (λ nets. nets.items
        ≡ blamed_nets (frame_in window.now) formula.now.cnf log.now.steps) }
{
    let used = used_clauses(alloc, formula.len(), log)?;
    let mut nets = Vec::new(alloc);
    for place in 0..window.net_count() {
        if !has_demand(window, formula, used.as_slice(), place) {
            continue;
        }
        nets.push(net_number(window, place))?;
    }
    Ok(nets)
}

/// Whether one of the clauses at these positions demands something of the net at a place.
fn has_demand(window: &PlacedWindow<'_>, formula: &Formula, used: &[u32], place: u32) -> bool
    requires there { All (λ at. at < length formula.now.cnf.clauses) used.now }
    requires place { place < length (frame_in window.now).nets }
    ensures { result
        ≡ list_any (demands_at (frame_in window.now) formula.now.cnf.clauses place) used.now }
{
    used.iter()
        .any(|at| demands_at(window, formula, place, *at))
}

/// Whether the clause at a position demands something of the net at a place.
fn demands_at(window: &PlacedWindow<'_>, formula: &Formula, place: u32, at: u32) -> bool
    requires there { at < length formula.now.cnf.clauses }
    requires place { place < length (frame_in window.now).nets }
    ensures { result ≡ demands_at (frame_in window.now) formula.now.cnf.clauses place at }
{
    window.demands(place, formula.clause(at))
}

/// The number in the netlist of the net at a place.
fn net_number(window: &PlacedWindow<'_>, place: u32) -> u32
    requires { place < length (frame_in window.now).nets }
    ensures { result ≡ number_at (frame_in window.now) place }
{
    window.net(place).number
}
