//! The trees that are gathered from a cell on.
ghost use Rattle.std.specs.Prelude.{◌≡◌, ◌≤◌, ◌<◌, ◌++◌, All, IfOk, [], false, filter, length, map, slice_index};
ghost use Rattle.fpga_types.specs.CellNumbers.{cell_count, number_of_cell};
ghost use Rattle.fpga_types.specs.Slots.{slot_at, slots};
ghost use Rattle.problem_facts.specs.Crowd.{gathered, tree_of};
ghost use Rattle.problem_facts.specs.Gathering.{AreHeld, AreMarked, AreWhole, is_kept};
ghost use Rattle.problem_facts.specs.Trees.{AreRooted, meet};

use crate::limits::CROWD_LIMIT;
use crate::trees::Trees;
use arrayvec::ArrayVec;
use fpga_bounds::PlacedProblem;
use fpga_types::{Grid, Slot, cell_number};

/// The slots of an array, with the slot that stands for the tree of each.
#[derive(Clone, Copy)]
pub(crate) struct TreeSlots<'a> {
    pub grid: Grid,
    pub slots: &'a [Slot],
    pub roots: &'a [u32],
    ghost are_rooted: { AreRooted grid slots.now roots.now },
}

impl<'a> TreeSlots<'a> {
    /// The slots of a problem, of which these are the trees.
    pub fn of_problem(problem: &'a PlacedProblem, trees: &'a Trees) -> TreeSlots<'a>
        requires trees { trees.now.roots ≡ tree_of problem.now }
        ensures grid { result.grid ≡ problem.now.route.grid }
        ensures slots { result.slots.now ≡ slots problem.now.route }
        ensures roots { result.roots.now ≡ tree_of problem.now }
    {
        TreeSlots {
            grid: problem.route().grid,
            slots: problem.slots(),
            roots: trees.roots(),
        }
    }

    /// The number of the slot's cell.
    pub fn cell(&self, slot: u32) -> usize
        requires { slot < length self.now.slots.now }
        ensures number { result
            ≡ number_of_cell self.now.grid (slot_at self.now.slots.now slot).cell }
        ensures within { result < cell_count self.now.grid }
    {
        cell_number(self.grid, self.slots[slot as usize].cell) as usize
    }
}

/// Gathers trees: the tree of the first slot that is left is taken, and the slots of the trees that
/// it meets stay.
pub(crate) fn gather(
    trees: &TreeSlots<'_>,
    rest: &mut Vec<u32>,
    held: &mut [bool],
    marked: &mut [bool],
) -> ArrayVec<u32, CROWD_LIMIT>
    requires whole { AreWhole trees.now.roots.now rest.old.items }
    requires held { length held.old ≡ cell_count trees.now.grid }
    requires marked { length marked.old ≡ length trees.now.slots.now }
    ensures taken { result.items ≡ gathered
        (meet trees.now.grid trees.now.slots.now trees.now.roots.now) []
        (map (slice_index trees.now.roots.now) rest.old.items) }
    ensures held { length held.new ≡ length held.old }
    ensures marked { length marked.new ≡ length marked.old }
{
    let mut taken = ArrayVec::new();
    while taken.len() < CROWD_LIMIT {
        if rest.is_empty() {
            return taken;
        }
        let tree = trees.roots[rest[0] as usize];
        taken.push(tree);
        narrow(trees, rest, held, marked, tree);
    }
    taken
}

/// Keeps the slots of trees that meet this one, which is that of the first slot.
fn narrow(
    trees: &TreeSlots<'_>,
    rest: &mut Vec<u32>,
    held: &mut [bool],
    marked: &mut [bool],
    tree: u32,
)
    requires whole { AreWhole trees.now.roots.now rest.old.items }
    requires first { 0 < length rest.old.items }
    requires tree { tree ≡ slice_index trees.now.roots.now (slice_index rest.old.items 0) }
    requires held { length held.old ≡ cell_count trees.now.grid }
    requires marked { length marked.old ≡ length trees.now.slots.now }
    ensures left { rest.new.items ≡ filter
        (λ s. meet trees.now.grid trees.now.slots.now trees.now.roots.now
        (slice_index trees.now.roots.now s) tree) rest.old.items }
    ensures fewer { length rest.new.items < length rest.old.items }
    ensures whole { AreWhole trees.now.roots.now rest.new.items }
    ensures held { length held.new ≡ length held.old }
    ensures marked { length marked.new ≡ length marked.old }
{
    clear(held);
    hold(trees, rest, tree, held);
    clear(marked);
    mark(trees, rest, held, marked);
    keep(trees, rest, marked, tree);
}

/// Says of no place that it holds.
fn clear(row: &mut [bool])
    ensures size { length row.new ≡ length row.old }
    ensures none { All (λ b. b ≡ false) row.new }
{
    for b in row.iter_mut() {
        *b = false;
    }
}

/// Holds the cells that slots of the tree take.
fn hold(trees: &TreeSlots<'_>, rest: &[u32], tree: u32, held: &mut [bool])
    requires within { All (λ s. s < length trees.now.slots.now) rest.now }
    requires room { length held.old ≡ cell_count trees.now.grid }
    requires none { All (λ b. b ≡ false) held.old }
    ensures size { length held.new ≡ length held.old }
    ensures held { AreHeld trees.now.grid trees.now.slots.now trees.now.roots.now tree
        rest.now held.new }
{
    for s in rest {
        if trees.roots[*s as usize] == tree {
            let cell = trees.cell(*s);
            held[cell] = true;
        }
    }
}

/// Marks the trees with slots that take a cell that is held.
fn mark(trees: &TreeSlots<'_>, rest: &[u32], held: &[bool], marked: &mut [bool])
    requires within { All (λ s. s < length trees.now.slots.now) rest.now }
    requires room { length held.now ≡ cell_count trees.now.grid }
    requires size { length marked.old ≡ length trees.now.slots.now }
    requires none { All (λ b. b ≡ false) marked.old }
    ensures size { length marked.new ≡ length marked.old }
    ensures marked { AreMarked trees.now.grid trees.now.slots.now trees.now.roots.now
        held.now rest.now marked.new }
{
    for s in rest {
        let root = trees.roots[*s as usize] as usize;
        if held[trees.cell(*s)] {
            marked[root] = true;
        }
    }
}

/// Keeps the slots whose tree is marked, and is of another net than this one.
fn keep(trees: &TreeSlots<'_>, rest: &mut Vec<u32>, marked: &[bool], tree: u32)
    requires within { All (λ s. s < length trees.now.slots.now) rest.old.items }
    requires tree { tree < length trees.now.slots.now }
    requires size { length marked.now ≡ length trees.now.slots.now }
    ensures { rest.new.items ≡ filter
        (is_kept trees.now.slots.now trees.now.roots.now marked.now
        (slot_at trees.now.slots.now tree).net) rest.old.items }
{
    let net = trees.slots[tree as usize].net;
    let mut kept = 0;
    for i in 0..rest.len() {
        let s = rest[i];
        if is_kept(trees, marked, net, s) {
            rest[kept] = s;
            kept += 1;
        }
    }
    rest.truncate(kept);
}

/// Whether the slot's tree is marked, and is of another net than this one.
fn is_kept(trees: &TreeSlots<'_>, marked: &[bool], net: u32, s: u32) -> bool
    requires slot { s < length trees.now.slots.now }
    requires size { length marked.now ≡ length trees.now.slots.now }
    ensures { result ≡ is_kept trees.now.slots.now trees.now.roots.now marked.now net s }
{
    let root = trees.roots[s as usize] as usize;
    trees.slots[root].net != net && marked[root]
}
