//! The routing within a reach that truth values stand for.
ghost use Rattle.std.specs.Prelude.{◌≡◌, ◌≤◌, length, IfOk};
ghost use Rattle.fpga_types.specs.declared.limits.TheConstants.{REACH_LIMIT, WIDTH_LIMIT};
ghost use Rattle.sat_clause.specs.Formula.{Satisfies};
ghost use Rattle.route_reach.specs.Decoding.{AreDecoded, IsDecodedNet};
ghost use Rattle.route_reach.specs.Encoding.{reach_cnf};
ghost use Rattle.route_reach.specs.Good.{IsReachRoute};
ghost use Rattle.route_reach.specs.Modelled.{slots_in_model};

use crate::growing::ModelNet;
use crate::near_table::near_table;
use crate::numbers::SlotNumbers;
use crate::printer::NetPrinter;
use crate::printing::copied_name;
use crate::reach_model::ReachModel;
use fpga_bounds::PlacedProblem;
use fpga_graph::Graph;
use fpga_types::{Items, Name, RouteNet, RouteText};
use route_encode::RivalChains;
use std::alloc::{AllocError, Global};

/// The route that values stand for which satisfy the clauses of a problem at a width of 1 to 64
/// tracks, for a reach from 1 to 64.
///
/// The time is `n log n` in the wires and in the lines that are written.
///
/// # Errors
/// Where memory is short.
pub(crate) fn decoded_route(
    alloc: Global,
    problem: &PlacedProblem,
    width: u32,
    reach: u32,
    values: &[bool],
) -> Result<RouteText, AllocError>
    requires width { (1 ≤ width) × (width ≤ WIDTH_LIMIT) }
    requires reach { reach ≤ REACH_LIMIT }
    requires model { Satisfies values.now (reach_cnf width reach problem.now) }
    ensures { IfOk result (IsReachRoute width reach problem.now) }
{
    let graph = Graph::new(problem.arch(), problem.route().grid, width);
    let slots = problem.slots();
    let chains = RivalChains::new(alloc, slots)?;
    let numbers = SlotNumbers::new(alloc, problem.route().grid, slots, &chains)?;
    let table = near_table(alloc, problem, &graph, &numbers)?;
    let model = ReachModel::new(problem, table.as_slice(), values, width, reach);
    let nets = decoded_nets(alloc, &model, &numbers)?;
    let route = problem.route();
    Ok(RouteText {
        grid: route.grid,
        grid_line: route.grid_line,
        lines: route.lines,
        nets: Items::of(nets),
    })
}

/// The nets of a model, each as it is routed.
fn decoded_nets(
    alloc: Global,
    model: &ReachModel<'_>,
    numbers: &SlotNumbers<'_>,
) -> Result<Vec<RouteNet>, AllocError>
    requires { numbers.now ≡ slots_in_model model.now }
    ensures { IfOk result
        (λ nets. AreDecoded model.now (length model.now.problem.route.nets) nets.items) }
{
    let count = model.problem().route().nets.as_slice().len();
    let mut nets = Vec::with_capacity(alloc, count)?;
    let mut first = 0;
    for number in 0..count {
        let net = ModelNet::at(model, number as u32, first);
        first = net.end;
        nets.push(decoded_net(alloc, &net, numbers)?)?;
    }
    Ok(nets)
}

/// A net of a model as it is routed: as it stands where it is global, and else by its tree.
fn decoded_net(
    alloc: Global,
    net: &ModelNet<'_>,
    numbers: &SlotNumbers<'_>,
) -> Result<RouteNet, AllocError>
    requires { numbers.now ≡ slots_in_model net.now.model.now }
    ensures { IfOk result (IsDecodedNet net.now.model.now net.now.number net.now.net.now) }
{
    let problem = net.model.problem();
    if net.net.global {
        let copy = copied_net(alloc, net.net)?;
        return Ok(copy);
    }
    let tree = net.tree(alloc)?;
    let printer = NetPrinter {
        problem,
        graph: net.model.graph(),
        numbers,
        net: net.net,
        number: net.number,
        tree: &tree,
        reach: net.model.reach(),
    };
    let printed = printer.print_net(alloc)?;
    Ok(printed)
}

/// A net that is equal to this one.
fn copied_net(alloc: Global, net: &RouteNet) -> Result<RouteNet, AllocError>
    ensures { IfOk result (λ copy. copy ≡ net.now) }
{
    let name = copied_name(alloc, &net.name)?;
    let elems = Vec::from_slice(alloc, net.elems.as_slice())?;
    let kept = copied_names(alloc, net.kept.as_slice())?;
    Ok(RouteNet {
        k: net.k,
        name,
        global: net.global,
        line: net.line,
        elems: Items::of(elems),
        kept: Items::of(kept),
    })
}

/// Names that are equal to these.
fn copied_names(alloc: Global, names: &[Name]) -> Result<Vec<Name>, AllocError>
    ensures { IfOk result (λ copy. copy.items ≡ names.now) }
{
    let mut copy = Vec::with_capacity(alloc, names.len())?;
    for name in names {
        copy.push(copied_name(alloc, name)?)?;
    }
    Ok(copy)
}
