//! Rounds of routing, until no wire or pin is taken by two nets.

ghost use Rattle.std.specs.Prelude.{◌≡◌, ◌≤◌, IfOk};
ghost use Rattle.route_negotiate.specs.declared.progress.End.TheVariants.{Stopped};

use crate::board::Board;
use crate::costs::{FAR, PRESENT_FIRST, present_after};
use crate::field::Field;
use crate::front::Front;
use crate::given::{follow, given_places};
use crate::growth::Attempt;
use crate::options::CellWires;
use crate::progress::{End, Progress};
use crate::row::{at, short};
use crate::sites::has_track;
use crate::start::first_start;
use crate::tree::Tree;
use fpga_types::{Elem, RouteText};
use patience::Patience;
use std::alloc::{AllocError, Global};
use std::mem::swap;

/// How many rounds there are in which each net is routed again.
const WHOLE_ROUNDS: u32 = 5;
/// How many blocks round its pins a net is looked for, one after the other.
const SLACKS: [u32; 3] = [3, 8, 10_000];

/// A search: the nets' trees so far, and what they take.
#[derive(Drop)]
pub(crate) struct Search<'a> {
    board: &'a Board<'a>,
    field: Field,
    front: Front,
    trees: Vec<Tree>,
    best: Tree,
    tried: Tree,
    /// From this round on only nets that share something are routed again.
    whole_rounds: u32,
}

/// How many rounds were made, and how they ended.
#[derive(Clone, Copy)]
pub(crate) struct Made {
    pub rounds: u32,
    pub end: End,
}

impl<'a> Search<'a> {
    /// A search in which no net has a tree yet.
    pub(crate) fn new(
        alloc: Global,
        board: &'a Board<'a>,
        wires: CellWires,
    ) -> Result<Search<'a>, AllocError> {
        let mut trees = Vec::with_capacity(alloc, board.nets.count())?;
        for _ in 0..board.nets.count() {
            trees.push(Tree::new(alloc))?;
        }
        Ok(Search {
            board,
            field: Field::new(alloc, board, PRESENT_FIRST)?,
            front: Front::new(alloc, wires),
            trees,
            best: Tree::new(alloc),
            tried: Tree::new(alloc),
            whole_rounds: WHOLE_ROUNDS,
        })
    }

    /// The nets' trees. All else is given back.
    pub(crate) fn into_trees(self) -> Vec<Tree> {
        self.trees
    }

    /// Gives nets trees along the cells of a route, each on the start track on which it shares
    /// least with those before it.
    pub(crate) fn take_given(
        &mut self,
        alloc: Global,
        route: &RouteText,
    ) -> Result<(), AllocError> {
        let places = given_places(alloc, self.board, route)?;
        for (k, net) in route.nets.as_slice().iter().enumerate() {
            let place = at(&places, k) as usize;
            if place < self.trees.len() && self.trees[place].is_empty() {
                self.take_net(place, net.elems.as_slice())?;
            }
        }
        self.whole_rounds = 0;
        Ok(())
    }

    /// Gives a net the tree along its elements that shares least with those of other nets.
    fn take_net(&mut self, net: usize, elems: &[Elem]) -> Result<(), AllocError> {
        let mut least = u64::MAX;
        for start in 0..self.board.fabric.width {
            self.tried.restart(start);
            let shared = follow(self.board, &mut self.field, &mut self.tried, net, elems)?;
            if let Some(shared) = shared
                && shared < least
            {
                least = shared;
                swap(&mut self.tried, &mut self.best);
            }
        }
        if least < u64::MAX {
            self.keep_best(net)?;
            self.take_tree(net);
        }
        Ok(())
    }

    /// Goes on from round to round, and begins anew with another order of start tracks where that
    /// may lead further: how many rounds were made, and how they ended. A net that may have several
    /// wires of a cell is routed from all start tracks at once, so that there is no other order.
    pub(crate) fn run<P: Patience>(
        &mut self,
        seed: u32,
        most: u32,
        patience: &mut P,
    ) -> Result<Made, AllocError>
        ensures rounds { IfOk result (λ made. made.rounds ≤ most) }
        ensures stopped { IfOk result (λ made. made.end ≡ Stopped → P.is_over patience.new) }
    {
        let mut left = most;
        for turn in 0..most {
            if left == 0 {
                break;
            }
            let made = self.try_seed(seed.wrapping_add(turn), left, patience)?;
            left = left.saturating_sub(made.rounds);
            let goes_on = matches!(made.end, End::Stalled) && self.front.is_strict;
            if !goes_on {
                return Ok(Made {
                    rounds: most - left,
                    end: made.end,
                });
            }
            self.begin_anew();
        }
        Ok(Made {
            rounds: most,
            end: End::Spent,
        })
    }

    /// Forgets all trees and fights.
    fn begin_anew(&mut self) {
        self.field.clear(PRESENT_FIRST);
        for tree in self.trees.iter_mut() {
            tree.restart(0);
        }
        self.whole_rounds = WHOLE_ROUNDS;
    }

    /// Goes through rounds until they end, or there were so many, or the patience is over, which is
    /// asked before each.
    fn try_seed<P: Patience>(
        &mut self,
        seed: u32,
        most: u32,
        patience: &mut P,
    ) -> Result<Made, AllocError>
        ensures { IfOk result (λ made. made.end ≡ Stopped → P.is_over patience.new) }
    {
        let mut progress = Progress::new(self.trees.len());
        for round in 0..most {
            if !patience.goes_on() {
                return Ok(Made {
                    rounds: round,
                    end: End::Stopped,
                });
            }
            let excess = self.round(seed, round)?;
            progress = progress.after(excess);
            if let Some(end) = progress.end(excess) {
                let rounds = round.saturating_add(1);
                return Ok(Made { rounds, end });
            }
            let present = present_after(round, self.field.present());
            self.field.end_round(present);
        }
        Ok(Made {
            rounds: most,
            end: End::Spent,
        })
    }

    /// Routes nets in turn: how many nets are too many behind it, over all wires and pins, with
    /// those that have no tree.
    fn round(&mut self, seed: u32, round: u32) -> Result<u64, AllocError> {
        let mut lacking: u64 = 0;
        for net in 0..self.trees.len() {
            self.again(net, seed, round)?;
            if net < self.trees.len() && self.trees[net].is_empty() {
                lacking = lacking.saturating_add(1);
            }
        }
        Ok(self.field.excess().saturating_add(lacking))
    }

    /// Routes a net in a round, where it is one to be routed again.
    fn again(&mut self, net: usize, seed: u32, round: u32) -> Result<(), AllocError> {
        if net >= self.trees.len() {
            return Ok(());
        }
        let tree = &self.trees[net];
        let is_kept = round >= self.whole_rounds
            && !tree.is_empty()
            && !self.field.is_contested(tree);
        if is_kept {
            return Ok(());
        }
        let was = if tree.is_empty() {
            None
        } else {
            Some(tree.start)
        };
        self.field.give(tree);
        let first = first_start(short(net), round, seed, self.board.fabric.width);
        if self.find(net, first, was)? {
            self.keep_best(net)?;
        }
        self.take_tree(net);
        Ok(())
    }

    /// Makes the tree of a net equal to `best`.
    fn keep_best(&mut self, net: usize) -> Result<(), AllocError> {
        if net < self.trees.len() {
            self.trees[net].become_copy(&self.best)?;
        }
        Ok(())
    }

    /// Lets a net take what its tree has.
    fn take_tree(&mut self, net: usize) {
        if net < self.trees.len() {
            self.field.take(&self.trees[net]);
        }
    }

    /// Makes `best` the cheapest tree of a net over all start tracks, in the least rectangle in
    /// which there is one: whether there is one.
    fn find(&mut self, net: usize, first: u32, was: Option<u32>) -> Result<bool, AllocError> {
        for slack in SLACKS {
            let found = if self.front.is_strict {
                self.cheapest(net, slack, first, was)?
            } else {
                self.attempt(net, 0, u64::MAX, slack, FAR)? < FAR
            };
            if found {
                return Ok(true);
            }
        }
        Ok(false)
    }

    /// Makes `best` the cheapest tree of a net over all start tracks: whether there is one. The
    /// last start track is tried first, since its cost is mostly a good bound for the others.
    fn cheapest(
        &mut self,
        net: usize,
        slack: u32,
        first: u32,
        was: Option<u32>,
    ) -> Result<bool, AllocError> {
        let width = self.board.fabric.width;
        let opened = self.opened(net);
        let mut least = FAR;
        if let Some(start) = was {
            least = self.attempt(net, start, 1 << (start % 64), slack, least)?;
        }
        for k in 0..width {
            let start = after(first, k, width);
            if has_track(opened, start) && was != Some(start) {
                least = self.attempt(net, start, 1 << (start % 64), slack, least)?;
            }
        }
        Ok(least < FAR)
    }

    /// The tracks that some pin of the net's driver opens.
    fn opened(&self, net: usize) -> u64 {
        let mut tracks = 0;
        for start in self.board.nets.starts_of(net) {
            tracks |= start.opened;
        }
        tracks
    }

    /// Routes a net from a start track, or from these, and keeps the tree where it costs less than
    /// the least so far.
    fn attempt(
        &mut self,
        net: usize,
        start: u32,
        tracks: u64,
        slack: u32,
        least: u64,
    ) -> Result<u64, AllocError> {
        let attempt = Attempt {
            net,
            tracks,
            slack,
            bound: least,
        };
        self.tried.restart(start);
        let cost = self
            .front
            .route(self.board, &mut self.field, &mut self.tried, attempt)?;
        let Some(cost) = cost else {
            return Ok(least);
        };
        swap(&mut self.tried, &mut self.best);
        Ok(cost)
    }
}

/// The track so many behind another, and behind the last the first.
fn after(track: u32, k: u32, width: u32) -> u32 {
    if width == 0 {
        0
    } else {
        track.wrapping_add(k) % width
    }
}
