//! A search for wires of all nets.
ghost use Rattle.std.specs.Prelude.{◌≡◌, ◌≤◌, IfOk, IfSome, length, true};
ghost use Rattle.fpga_types.specs.declared.limits.TheConstants.{WIDTH_LIMIT};
ghost use Rattle.route_negotiate.specs.Routings.{AreWithin};

use crate::board::Board;
use crate::options::Options;
use crate::progress::End;
use crate::rounds::Search;
use crate::routing::{NetPaths, all_paths};
use crate::tree::Tree;
use fpga_types::{Arch, Netlist, Placement, RouteText, WIDTH_LIMIT};
use patience::Patience;
use std::alloc::{AllocError, Global};

/// What a search came to: how many rounds it made, whether its caller's patience ended them, and
/// the paths of each net by its number in the netlist, of which global nets have none, if it found
/// some.
#[derive(Drop)]
pub struct Sought {
    pub rounds: u32,
    pub stopped: bool,
    pub nets: Option<Vec<NetPaths>>,
}

/// Looks for wires of all ordinary nets of a placed netlist, in channels of so many tracks from 1
/// to 64, so that each net has a path from a pin of its driver's class to a pin of the class of
/// each sink, and no two nets share a wire or a pin. Where none are found, there may be some all
/// the same.
///
/// In each round nets are routed anew, one after another, those with most sinks first: each by the
/// cheapest paths, where a wire costs more the more nets take it, and more from round to round.
/// Where a route is given, its nets keep its cells in the beginning, each on the track on which it
/// shares least with the nets before it. Where rounds bring no gain any more, the search begins
/// anew, and tries the tracks of each net in another order; or it gives up, if many nets have
/// shared something in each round so far. The patience is asked before each round: where it is over
/// no more are made, and nothing is found. Where it never is the answer is the same wherever and
/// whenever it is asked.
///
/// No law says which wires are found: whoever relies on them has them judged. A round takes the
/// time of the waves that nets send out, and of the wires; memory is 20 bytes a wire, some 40 a pin
/// and 4 for each wire of each net.
///
/// # Errors
/// Where memory is short.
pub fn negotiate<P: Patience>(
    alloc: Global,
    arch: &Arch,
    netlist: &Netlist,
    placement: &Placement,
    width: u32,
    options: Options,
    given: Option<&RouteText>,
    patience: &mut P,
) -> Result<Sought, AllocError>
    requires { (1 ≤ width) × (width ≤ WIDTH_LIMIT) }
    ensures rounds { IfOk result (λ sought. sought.rounds ≤ options.rounds) }
    ensures stopped { IfOk result
        (λ sought. sought.stopped ≡ true → P.is_over patience.new) }
    ensures each { IfOk result (λ sought. IfSome sought.nets
        (λ nets. length nets.items ≡ length netlist.now.nets)) }
    ensures within { IfOk result (λ sought. IfSome sought.nets
        (λ nets. AreWithin placement.now.grid width nets.items)) }
{
    let board = Board::new(alloc, arch, netlist, placement, width)?;
    search_on(alloc, &board, width, options, given, patience)
}

/// The same on a board.
fn search_on<P: Patience>(
    alloc: Global,
    board: &Board<'_>,
    width: u32,
    options: Options,
    given: Option<&RouteText>,
    patience: &mut P,
) -> Result<Sought, AllocError>
    ensures rounds { IfOk result (λ sought. sought.rounds ≤ options.rounds) }
    ensures stopped { IfOk result
        (λ sought. sought.stopped ≡ true → P.is_over patience.new) }
    ensures each { IfOk result (λ sought. IfSome sought.nets
        (λ nets. length nets.items ≡ length board.now.netlist.now.nets)) }
    ensures within { IfOk result (λ sought. IfSome sought.nets
        (λ nets. AreWithin board.now.placement.now.grid width nets.items)) }
{
    let mut search = Search::new(alloc, board, options.wires)?;
    if let Some(route) = given {
        search.take_given(alloc, route)?;
    }
    let made = search.run(options.seed, options.rounds, patience)?;
    let trees = search.into_trees();
    let nets = nets_of(alloc, board, width, made.end, &trees)?;
    Ok(Sought {
        rounds: made.rounds,
        stopped: made.end.is_stopped(),
        nets,
    })
}

/// The paths of the trees, where no two of them share anything.
fn nets_of(
    alloc: Global,
    board: &Board<'_>,
    width: u32,
    end: End,
    trees: &[Tree],
) -> Result<Option<Vec<NetPaths>>, AllocError>
    ensures each { IfOk result (λ found. IfSome found
        (λ nets. length nets.items ≡ length board.now.netlist.now.nets)) }
    ensures within { IfOk result (λ found. IfSome found
        (λ nets. AreWithin board.now.placement.now.grid width nets.items)) }
{
    if !matches!(end, End::Routed) {
        return Ok(None);
    }
    let nets = all_paths(alloc, board, width, trees)?;
    Ok(Some(nets))
}
