//! A tree that no track serves.
ghost use Rattle.std.specs.Prelude.{◌≡◌, ◌≤◌, ◌<◌, All, IfOk, IfSome, IsNone, filter, length};
ghost use Rattle.fpga_types.specs.declared.arch.Pattern.TheVariants.{Subset};
ghost use Rattle.fpga_types.specs.declared.limits.TheConstants.{WIDTH_LIMIT};
ghost use Rattle.problem_facts.specs.Alone.{HasTrackless, IsTracklessTree, is_of_tree};
ghost use Rattle.problem_facts.specs.Crowd.{tree_of};
ghost use Rattle.problem_facts.specs.Facts.{AreFactsOf};

use crate::facts::Facts;
use crate::tracks::{closed_tracks, first_full};
use fpga_bounds::PlacedProblem;
use fpga_graph::Graph;
use fpga_types::{Pattern, PinStep, WIDTH_LIMIT};
use std::alloc::{AllocError, Global};

/// A tree, by its first slot, and the pin steps of its slots.
#[derive(Drop)]
pub struct ClosedTree {
    pub tree: u32,
    pub pins: Vec<PinStep>,
}

/// A tree that no track serves at a width from 1 to 64, whatever the other nets do: where the
/// switch blocks are subset ones, its slots have one track, and each is closed to one of its pins.
/// The time is that of the slots and the pin steps, the memory 64 bytes a slot.
///
/// # Errors
/// Where memory is short.
pub fn trackless(
    alloc: Global,
    problem: &PlacedProblem,
    facts: &Facts,
    width: u32,
) -> Result<Option<ClosedTree>, AllocError>
    requires width { (1 ≤ width) × (width ≤ WIDTH_LIMIT) }
    requires facts { AreFactsOf problem.now facts.now }
    ensures some { IfOk result (λ found. IfSome found (IsTracklessTree width problem.now)) }
    ensures none { IfOk result (λ found. IsNone found → ¬ HasTrackless width problem.now) }
{
    if problem.arch().pattern != Pattern::Subset {
        return Ok(None);
    }
    closed_tree(alloc, problem, facts.trees().roots(), width)
}

/// The same, where the switch blocks are subset ones, by the slots that stand for the trees.
fn closed_tree(
    alloc: Global,
    problem: &PlacedProblem,
    roots: &[u32],
    width: u32,
) -> Result<Option<ClosedTree>, AllocError>
    requires width { (1 ≤ width) × (width ≤ WIDTH_LIMIT) }
    requires keeps { problem.now.arch.pattern ≡ Subset }
    requires roots { roots.now ≡ tree_of problem.now }
    ensures some { IfOk result (λ found. IfSome found (IsTracklessTree width problem.now)) }
    ensures none { IfOk result (λ found. IsNone found → ¬ HasTrackless width problem.now) }
{
    let _few = problem.slots();
    let graph = Graph::new(problem.arch(), problem.route().grid, width);
    let rows = closed_tracks(alloc, &graph, roots, problem.pin_steps())?;
    let Some(tree) = first_full(&rows, width) else {
        return Ok(None);
    };
    let pins = pins_of(alloc, roots, problem.pin_steps(), tree)?;
    Ok(Some(ClosedTree { tree, pins }))
}

/// The pin steps of a tree.
fn pins_of(
    alloc: Global,
    roots: &[u32],
    steps: &[PinStep],
    tree: u32,
) -> Result<Vec<PinStep>, AllocError>
    requires within { All (λ step. step.slot < length roots.now) steps.now }
    ensures { IfOk result (λ pins. pins.items
        ≡ filter (is_of_tree roots.now tree) steps.now) }
{
    let mut pins = Vec::new(alloc);
    for step in steps {
        if roots[step.slot as usize] == tree {
            pins.push(*step)?;
        }
    }
    Ok(pins)
}
