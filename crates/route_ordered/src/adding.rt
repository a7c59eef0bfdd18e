//! The clauses that keep the groups of tracks in the order of a row of slots.
ghost use Rattle.std.specs.Prelude.{◌≡◌, ◌≤◌, ◌<◌, ◌++◌, All, IfOk, OnOk, drop, length, map};
ghost use Rattle.route_encode.specs.Adding.{Adds, HasRoom, HasVariables};
ghost use Rattle.route_encode.specs.Encoding.{has};
ghost use Rattle.problem_facts.specs.Groups.{group_count, track_group};
ghost use Rattle.route_ordered.specs.Ordered.{group_clauses, only_behind, precedence, slot_clauses};

use fpga_types::Pattern;
use problem_facts::{group_count, track_group};
use route_encode::{Variables, add_clause};
use sat_clause::{Formula, Lit};
use std::alloc::{AllocError, Global};

/// Adds the clauses of a row of slots.
///
/// # Errors
/// Where memory is short.
pub(crate) fn add_precedence(
    alloc: Global,
    formula: &mut Formula,
    variables: Variables,
    pattern: Pattern,
    row: &[u32],
) -> Result<(), AllocError>
    requires slots { All (λ s. s < variables.slots) row.now }
    requires vars { HasVariables variables formula.old }
    requires room { HasRoom formula.old (precedence pattern variables.width row.now) }
    ensures { OnOk result
        (Adds formula.old (precedence pattern variables.width row.now) formula.new) }
{
    for at in 0..row.len() {
        add_slot(alloc, formula, variables, pattern, &row[..at], row[at])?;
    }
    Ok(())
}

/// Adds the clauses of a slot behind earlier ones.
fn add_slot(
    alloc: Global,
    formula: &mut Formula,
    variables: Variables,
    pattern: Pattern,
    earlier: &[u32],
    slot: u32,
) -> Result<(), AllocError>
    requires slots { All (λ s. s < variables.slots) earlier.now }
    requires slot { slot < variables.slots }
    requires vars { HasVariables variables formula.old }
    requires room { HasRoom formula.old
        (slot_clauses pattern variables.width earlier.now slot) }
    ensures { OnOk result
        (Adds formula.old (slot_clauses pattern variables.width earlier.now slot) formula.new) }
{
    for group in 0..group_count(pattern, variables.width) {
        add_group(alloc, formula, variables, pattern, earlier, slot, group)?;
    }
    Ok(())
}

/// Adds the clauses of a slot and a group of tracks: of its tracks behind the group before, and of
/// all but the first behind the same group.
fn add_group(
    alloc: Global,
    formula: &mut Formula,
    variables: Variables,
    pattern: Pattern,
    earlier: &[u32],
    slot: u32,
    group: u32,
) -> Result<(), AllocError>
    requires slots { All (λ s. s < variables.slots) earlier.now }
    requires slot { slot < variables.slots }
    requires group { group < group_count pattern variables.width }
    requires vars { HasVariables variables formula.old }
    requires room { HasRoom formula.old
        (group_clauses pattern variables.width earlier.now slot group) }
    ensures { OnOk result (Adds formula.old
        (group_clauses pattern variables.width earlier.now slot group) formula.new) }
{
    let tracks = track_group(pattern, variables.width, group);
    if group > 0 {
        let before = track_group(pattern, variables.width, group - 1);
        add_behind(alloc, formula, variables, earlier, &before, slot, &tracks)?;
    }
    add_behind(
        alloc,
        formula,
        variables,
        earlier,
        &tracks,
        slot,
        later(&tracks),
    )
}

/// All but the first.
fn later(tracks: &[u32]) -> &[u32]
    ensures { result.now ≡ drop 1 tracks.now }
{
    if tracks.is_empty() {
        return tracks;
    }
    &tracks[1..]
}

/// Adds for each of these tracks that the slot has it only behind a track of the group.
fn add_behind(
    alloc: Global,
    formula: &mut Formula,
    variables: Variables,
    earlier: &[u32],
    group: &[u32],
    slot: u32,
    tracks: &[u32],
) -> Result<(), AllocError>
    requires slots { All (λ s. s < variables.slots) earlier.now }
    requires group { All (λ t. t < variables.width) group.now }
    requires slot { slot < variables.slots }
    requires tracks { All (λ t. t < variables.width) tracks.now }
    requires vars { HasVariables variables formula.old }
    requires room { HasRoom formula.old
        (map (only_behind variables.width earlier.now group.now slot) tracks.now) }
    ensures { OnOk result (Adds formula.old
        (map (only_behind variables.width earlier.now group.now slot) tracks.now) formula.new) }
{
    for track in tracks {
        let clause = only_behind(alloc, variables, earlier, group, slot, *track)?;
        add_clause(formula, &clause);
    }
    Ok(())
}

/// The clause that the slot has the track only where an earlier one has a track of the group.
fn only_behind(
    alloc: Global,
    variables: Variables,
    earlier: &[u32],
    group: &[u32],
    slot: u32,
    track: u32,
) -> Result<Vec<Lit>, AllocError>
    requires slots { All (λ s. s < variables.slots) earlier.now }
    requires group { All (λ t. t < variables.width) group.now }
    requires slot { slot < variables.slots }
    requires track { track < variables.width }
    ensures { IfOk result (λ clause. clause.items
        ≡ only_behind variables.width earlier.now group.now slot track) }
{
    let mut clause = Vec::new(alloc);
    clause.push(variables.lacks(slot, track))?;
    for e in earlier {
        push_group(&mut clause, variables, group, *e)?;
    }
    Ok(clause)
}

/// Pushes for each track of the group the literal that the slot has it.
fn push_group(
    clause: &mut Vec<Lit>,
    variables: Variables,
    group: &[u32],
    slot: u32,
) -> Result<(), AllocError>
    requires group { All (λ t. t < variables.width) group.now }
    requires slot { slot < variables.slots }
    ensures { OnOk result
        (clause.new.items ≡ clause.old.items ++ map (has variables.width slot) group.now) }
{
    for track in group {
        clause.push(variables.has(slot, *track))?;
    }
    Ok(())
}
