//! Trees: slots that steps join, and the step that leads to each.
ghost use Rattle.std.specs.Prelude.{◌≡◌, ◌+◌, ◌≤◌, ◌<◌, [], All, IfOk, None, length, slice_index_or};
ghost use Rattle.fpga_types.specs.declared.limits.TheConstants.{SLOT_LIMIT, STEP_LIMIT};
ghost use Rattle.problem_facts.specs.Trees.{AreWithin, reached_from, roots_of as roots_by};
ghost use Rattle.problem_facts.specs.Leads.{AreLeads, AreTrees, IsLead, lead_at, root_at};

use fpga_types::{RouteStep, SLOT_LIMIT, STEP_LIMIT};
use std::alloc::{AllocError, Global};
use std::marker::Model;

/// How a slot is come to: from an earlier one, by the step with this number among those of the
/// route.
#[derive(Clone, Copy)]
pub struct Lead {
    pub from: u32,
    pub step: u64,
}

/// For each slot the one that stands for its tree, and how it is come to, unless it is that one.
#[derive(Drop)]
pub struct Trees {
    roots: Vec<u32>,
    leads: Vec<Option<Lead>>,
}

impl Model for Trees {
    ghost use Rattle.problem_facts.specs.Leads.{AreTrees, TreesState};

    ghost Value = { TreesState };

    ghost view = { λ t. record { roots = t.roots.items; leads = t.leads.items } };

    ghost invariant = { λ t.
        AreTrees (record { roots = t.roots.items; leads = t.leads.items }) };
}

impl Trees {
    /// Slots each of which is a tree by itself.
    ///
    /// # Errors
    /// Where memory is short.
    pub fn apart(alloc: Global, count: u32) -> Result<Trees, AllocError>
        requires { count ≤ SLOT_LIMIT }
        ensures roots { IfOk result (λ trees. trees.roots ≡ roots_by [] count) }
        ensures leads { IfOk result (λ trees. AreLeads [] 0 trees.leads) }
        ensures each { IfOk result (λ trees. length trees.leads ≡ count) }
        ensures trees { IfOk result AreTrees }
    {
        Trees::of_steps(alloc, count, &[])
    }

    /// The trees of so many slots that these steps make.
    ///
    /// # Errors
    /// Where memory is short.
    pub fn of_steps(alloc: Global, count: u32, steps: &[RouteStep]) -> Result<Trees, AllocError>
        requires few { count ≤ SLOT_LIMIT }
        requires few_steps { length steps.now ≤ STEP_LIMIT }
        requires within { AreWithin count steps.now }
        ensures roots { IfOk result (λ trees. trees.roots ≡ roots_by steps.now count) }
        ensures leads { IfOk result (λ trees. AreLeads steps.now 0 trees.leads) }
        ensures each { IfOk result (λ trees. length trees.leads ≡ count) }
        ensures trees { IfOk result AreTrees }
    {
        let leads = leads_of(alloc, count, steps)?;
        let roots = roots_of(alloc, steps, &leads)?;
        Ok(Trees { roots, leads })
    }

    /// For each slot the one that stands for its tree.
    pub fn roots(&self) -> &[u32]
        ensures { result.now ≡ self.now.roots }
    {
        &self.roots
    }

    /// The slot that stands for the tree of a slot.
    pub fn root(&self, slot: u32) -> u32
        requires { slot < length self.now.roots }
        ensures value { result ≡ root_at self.now slot }
        ensures within { result < length self.now.roots }
    {
        self.roots[slot as usize]
    }

    /// How a slot is come to.
    pub fn lead(&self, slot: u32) -> Option<Lead>
        requires { slot < length self.now.roots }
        ensures { result ≡ lead_at self.now slot }
    {
        self.leads[slot as usize]
    }
}

/// For each of so many slots the first step that leads to it from an earlier one.
fn leads_of(alloc: Global, count: u32, steps: &[RouteStep]) -> Result<Vec<Option<Lead>>, AllocError>
    requires few { count ≤ SLOT_LIMIT }
    requires few_steps { length steps.now ≤ STEP_LIMIT }
    requires within { AreWithin count steps.now }
    ensures each { IfOk result (λ leads. length leads.items ≡ count) }
    ensures leads { IfOk result (λ leads. AreLeads steps.now 0 leads.items) }
{
    let mut leads = vec![in alloc; None; count as usize]?;
    note_leads(&mut leads, steps);
    Ok(leads)
}

/// Notes for each slot the first step that leads to it: the earlier ones take the place of later
/// ones.
fn note_leads(leads: &mut [Option<Lead>], steps: &[RouteStep])
    requires few_steps { length steps.now ≤ STEP_LIMIT }
    requires within { AreWithin (length leads.old) steps.now }
    requires none { All (λ lead. lead ≡ None) leads.old }
    ensures each { length leads.new ≡ length leads.old }
    ensures leads { AreLeads steps.now 0 leads.new }
{
    for number in (0..steps.len()).rev() {
        note_lead(leads, steps, number);
    }
}

/// Notes to which slot a step leads, if it does, in place of later steps.
fn note_lead(leads: &mut [Option<Lead>], steps: &[RouteStep], number: usize)
    requires few_steps { length steps.now ≤ STEP_LIMIT }
    requires within { AreWithin (length leads.old) steps.now }
    requires number { number < length steps.now }
    requires leads { AreLeads steps.now (number + 1) leads.old }
    ensures each { length leads.new ≡ length leads.old }
    ensures leads { AreLeads steps.now number leads.new }
{
    let step = steps[number];
    let from = step.from.min(step.to);
    let to = step.from.max(step.to);
    if from == to {
        return;
    }
    leads[to as usize] = Some(Lead {
        from,
        step: number as u64,
    });
}

/// For each slot the one that stands for its tree: that of the slot from which it is come to by
/// these steps.
fn roots_of(
    alloc: Global,
    steps: &[RouteStep],
    leads: &[Option<Lead>],
) -> Result<Vec<u32>, AllocError>
    requires few { length leads.now ≤ SLOT_LIMIT }
    requires leads { AreLeads steps.now 0 leads.now }
    ensures { IfOk result (λ roots. roots.items ≡ roots_by steps.now (length leads.now)) }
{
    let mut roots = Vec::with_capacity(alloc, leads.len())?;
    for s in 0..leads.len() {
        let root = root_by(steps, &roots, leads[s], s as u32);
        roots.push(root)?;
    }
    Ok(roots)
}

/// The slot that stands for the tree of a slot, by those of the slots before.
fn root_by(steps: &[RouteStep], roots: &[u32], lead: Option<Lead>, slot: u32) -> u32
    requires roots { roots.now ≡ roots_by steps.now slot }
    requires lead { IsLead steps.now 0 slot lead }
    ensures { result
        ≡ slice_index_or (roots_by steps.now slot) (reached_from steps.now slot) slot }
{
    let Some(lead) = lead else {
        return slot;
    };
    roots[lead.from as usize]
}
