//! The clauses of a problem for a reach.
ghost use Rattle.std.specs.Prelude.{◌≡◌, ◌+◌, ◌*◌, ◌≤◌, length, map, IfOk};
ghost use Rattle.fpga_types.specs.Slots.{slots};
ghost use Rattle.fpga_types.specs.declared.limits.TheConstants.{REACH_LIMIT, WIDTH_LIMIT};
ghost use Rattle.route_encode.specs.Added.{graph_of};
ghost use Rattle.route_encode.specs.Adding.{Adds, HasRoom, lit_count};
ghost use Rattle.route_encode.specs.Encoding.{below};
ghost use Rattle.route_reach.specs.Encoding.{frame_of, reach_cnf, reach_encoding};
ghost use Rattle.route_reach.specs.Near.{near_of, rows_of};
ghost use Rattle.route_reach.specs.WireClauses.{HasWires};

use crate::count::tally;
use crate::each_wire::{WireRule, add_each_wire};
use crate::near_table::{near_count, near_table};
use crate::nearby::add_nearby;
use crate::numbers::SlotNumbers;
use crate::rising::MOST_NEAR;
use crate::sinks::SinkReach;
use crate::starts::add_starts;
use crate::variables::WireVariables;
use arrayvec::ArrayVec;
use fpga_bounds::PlacedProblem;
use fpga_graph::Graph;
use route_encode::{RivalChains, Variables, add_apart_tracks};
use sat_clause::{CLAUSE_LIMIT, Formula};
use std::alloc::{AllocError, Global};

/// The clauses of a problem at a width of 1 to 64 tracks, for a reach from 1 to 64. There are at
/// most 40,000,000 of them.
///
/// Takes the memory of the clauses, and some 64 bytes for each slot. The time is that of what is
/// written, and `n log n` in the slots.
///
/// # Errors
/// Where memory is short.
pub fn reach_build(
    alloc: Global,
    problem: &PlacedProblem,
    width: u32,
    reach: u32,
) -> Result<Formula, AllocError>
    requires width { (1 ≤ width) × (width ≤ WIDTH_LIMIT) }
    requires reach { (1 ≤ reach) × (reach ≤ REACH_LIMIT) }
    requires few { length (reach_cnf width reach problem.now).clauses ≤ CLAUSE_LIMIT }
    ensures { IfOk result (λ formula. formula.cnf ≡ reach_cnf width reach problem.now) }
{
    let graph = Graph::new(problem.arch(), problem.route().grid, width);
    let slots = problem.slots();
    let chains = RivalChains::new(alloc, slots)?;
    let numbers = SlotNumbers::new(alloc, problem.route().grid, slots, &chains)?;
    let table = near_table(alloc, problem, &graph, &numbers)?;
    let size = tally(problem, &graph, width);
    let variables = WireVariables {
        wires: slots.len() as u32 * width,
        reach,
    };
    let sinks = SinkReach {
        variables,
        width,
        graph: &graph,
        numbers: &numbers,
    };
    let mut formula = Formula::new(alloc);
    let lits = size.lits(width, reach, near_count(&table));
    formula.reserve(variables.count(), size.clauses(reach) as u32, lits)?;
    add_clauses(&mut formula, &sinks, problem, &table, &chains);
    Ok(formula)
}

/// Adds the clauses of a problem, of which these are the slots near each slot, and the chains of
/// slots of one cell.
fn add_clauses(
    formula: &mut Formula,
    sinks: &SinkReach<'_>,
    problem: &PlacedProblem,
    table: &[ArrayVec<u32, MOST_NEAR>],
    chains: &RivalChains<'_>,
)
    requires graph { sinks.now.graph.now ≡ graph_of sinks.now.width problem.now }
    requires numbers { sinks.now.numbers.now ≡ slots problem.now.route }
    requires chains { chains.now ≡ slots problem.now.route }
    requires table { rows_of table.now
        ≡ map (near_of problem.now.route) (below (length (slots problem.now.route))) }
    requires vars { HasWires sinks.now.variables.wires sinks.now.variables.reach formula.old }
    requires room { HasRoom formula.old (reach_encoding
        (frame_of sinks.now.width sinks.now.variables.reach problem.now) problem.now.route) }
    ensures { Adds formula.old (reach_encoding
        (frame_of sinks.now.width sinks.now.variables.reach problem.now) problem.now.route)
        formula.new }
{
    let variables = sinks.variables;
    sinks.add_sinks(formula, problem);
    add_starts(formula, variables, problem, sinks.graph, sinks.width);
    add_each_wire(formula, variables, WireRule::Used);
    add_each_wire(formula, variables, WireRule::Stays);
    add_nearby(formula, variables, problem, sinks.graph, sinks.width, table);
    let tracks = Variables {
        slots: problem.slots().len() as u32,
        width: sinks.width,
    };
    add_apart_tracks(formula, tracks, chains);
}
