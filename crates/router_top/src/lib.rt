//! Routes a placed and globally routed design: reads its architecture, its netlist, its placement
//! and its global route, searches for a track for each cell of each net, at one width or at the
//! least that has a routing, and writes the detailed route, or a refutation; writes the clauses
//! that say what a routing is; makes a route of a model of such clauses; names the nets that a
//! refutation blames; checks a refutation of such clauses; judges a routed file, whoever wrote it,
//! within the cells of a global route or as a routing of the placement alone; says how many tracks
//! a placement needs at the least; or makes a design from a number, and writes or routes it.
#![tactic(auto)]

mod coring;
mod encoding;
mod problem_work;
mod routing;
mod running;
mod suited;
mod sweeping;
mod trying;
mod ways;

pub use running::run;
