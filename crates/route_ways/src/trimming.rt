//! Another way whose refutations are cut down to what they need, and the nets that they blame.
ghost use Rattle.std.specs.Prelude.{◌≡◌, ◌≤◌, ◌++◌, ℕ, List, IfOk, OnOk, length};
ghost use Rattle.desk_io.specs.Files.{Bytes};
ghost use Rattle.fpga_types.specs.declared.limits.TheConstants.{WIDTH_LIMIT};
ghost use Rattle.fpga_types.specs.Problem.{RoutingProblem};
ghost use Rattle.route_core.specs.Blamed.{blamed};
ghost use Rattle.route_core.specs.Core.{AreUnroutable};
ghost use Rattle.route_core.specs.Fair.{IsFair};
ghost use Rattle.route_core.specs.Trimmed.{IsTrimmed};
ghost use Rattle.route_sweep.specs.NetNames.{name_at};
ghost use Rattle.route_ways.specs.Trimming.{IsLearned, net_line, net_lines};
ghost use Rattle.sat_clause.specs.Formula.{Cnf};
ghost use Rattle.sat_clause.specs.Step.{Step};
ghost use Rattle.sat_text.specs.LratText.{ReadsLrat};
ghost use Rattle.sat_text.specs.Printed.{log_text};

use fpga_bounds::PlacedProblem;
use fpga_types::RouteText;
use route_core::{blame_in, trim, trimmed_is_its_own};
use route_sweep::{Ended, Searcher, Watch};
use sat_clause::{Formula, Log};
use std::alloc::{AllocError, Global};

/// A way whose refutations can be cut down.
pub trait Learner: Searcher {
    /// Each of them is one that a judge of plain steps accepts. Does nothing.
    fn is_learned(&self)
        ensures { (p : RoutingProblem) (width : ℕ) (formula : Cnf) (log : List Step) (lead : Bytes)
            → Self.refutes self.now p width formula log lead → IsLearned formula log };
}

// The name of a net by its position among those of a route; empty where there is none.
fn net_name(route: &RouteText, position: u32) -> &[u8]
    ensures { result.now ≡ name_at route.now position }
{
    let Some(net) = route.nets.as_slice().get(position as usize) else {
        return b"";
    };
    net.name.bytes.as_slice()
}

// Appends the line that names a net.
fn append_net(lines: &mut Vec<u8>, route: &RouteText, position: u32) -> Result<(), AllocError>
    ensures { OnOk result (lines.new.items ≡ lines.old.items ++ net_line route.now position) }
{
    lines.extend_from_slice(b"net ")?;
    lines.extend_from_slice(net_name(route, position))?;
    lines.extend_from_slice(b"\n")?;
    Ok(())
}

// The lines that name these nets, in order.
fn net_lines(alloc: Global, route: &RouteText, nets: &[u32]) -> Result<Vec<u8>, AllocError>
    ensures { IfOk result (λ lines. lines.items ≡ net_lines route.now nets.now) }
{
    let mut lines = Vec::new(alloc);
    for position in nets {
        append_net(&mut lines, route, *position)?;
    }
    Ok(lines)
}

// A refutation without what it does not need, and the lines that name the nets that it blames.
#[derive(Drop)]
struct Core {
    log: Log,
    lines: Vec<u8>,
}

// Cuts a refutation down to what it needs, and finds the nets that it blames. Lets go of the log of
// the search in between.
fn cut_down(
    alloc: Global,
    problem: &PlacedProblem,
    width: u32,
    formula: &Formula,
    log: Log,
) -> Result<Core, AllocError>
    requires width { (1 ≤ width) × (width ≤ WIDTH_LIMIT) }
    requires fair { IsFair width problem.now formula.now.cnf }
    requires learned { IsLearned formula.now.cnf log.steps }
    ensures trimmed { IfOk result
        (λ core. IsTrimmed formula.now.cnf core.log.steps core.log.steps) }
    ensures reads_back { IfOk result (λ core. ReadsLrat (length formula.now.cnf.clauses)
        (log_text core.log.steps) core.log.steps) }
    ensures lines { IfOk result (λ core. core.lines.items
        ≡ net_lines problem.now.route
        (blamed width problem.now formula.now.cnf core.log.steps)) }
    ensures just { IfOk result (λ core. AreUnroutable width problem.now
        (blamed width problem.now formula.now.cnf core.log.steps)) }
{
    trimmed_is_its_own();
    let small = trim(alloc, formula, &log)?;
    drop(log);
    let nets = blame_in(alloc, problem, width, formula, &small)?;
    let lines = net_lines(alloc, problem.route(), &nets)?;
    Ok(Core { log: small, lines })
}

/// Another way, whose refutations are cut down, with the nets to blame said before the report.
#[derive(Clone, Copy)]
pub struct Trimming<R: Learner> {
    /// The other way.
    pub rest: R,
}

impl<R: Learner> Searcher for Trimming<R> {
    ghost use Rattle.route_ways.specs.Trimming.{IsCutDown};

    ghost copies = { λ way. R.copies way.rest };

    ghost budget = { λ way. R.budget way.rest };

    ghost serves = { λ way p width formula. IsFair width p formula
        × R.serves way.rest p width formula };

    ghost refutes = { λ way p width formula log lead. IsCutDown p width formula log lead };

    ghost leaves_open = { λ way p width formula log. R.leaves_open way.rest p width formula log };

    fn copy_count(&self) -> u32 {
        self.rest.copy_count()
    }

    fn search<P: Watch>(
        &self,
        alloc: Global,
        problem: &PlacedProblem,
        width: u32,
        formula: &Formula,
        patience: &mut P,
    ) -> Result<Ended, AllocError> {
        self.rest.is_learned();
        match self.rest.search(alloc, problem, width, formula, patience) {
            Ok(Ended::Model { values }) => Ok(Ended::Model { values }),
            Ok(Ended::Refuted { log, .. }) => {
                let Ok(core) = cut_down(alloc, problem, width, formula, log) else {
                    return Err(AllocError);
                };
                let Core { log, lines } = core;
                Ok(Ended::Refuted { log, lead: lines })
            }
            Ok(Ended::Open { log, learned }) => Ok(Ended::Open { log, learned }),
            Err(_) => Err(AllocError),
        }
    }
}
