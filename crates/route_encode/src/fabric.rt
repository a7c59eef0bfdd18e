//! The clauses that keep nets to the tracks that pins open and switch blocks join.
ghost use Rattle.std.specs.Prelude.{◌≡◌, ◌<◌, All, false, flat_map, length, slice_index_or};
ghost use Rattle.fpga_bounds.specs.Problem.{IsStepMeeting, IsStepWithin};
ghost use Rattle.fpga_types.specs.Pins.{HasPin};
ghost use Rattle.route_encode.specs.Added.{crossed_clauses, pin_clauses, step_clauses};
ghost use Rattle.route_encode.specs.Adding.{Adds, HasRoom, HasVariables};
ghost use Rattle.route_encode.specs.Encoding.{open_track};

use crate::clauses::add_clause;
use crate::variables::Variables;
use fpga_graph::{Crossing, Graph, MOST_TRACKS};
use fpga_types::{PinStep, RouteStep, Slot};
use sat_clause::Formula;

/// Adds for each pin step that its slot has no track that the pin does not open. The time is that
/// of so many tracks for each.
pub(crate) fn add_open_tracks(
    formula: &mut Formula,
    variables: Variables,
    graph: &Graph<'_>,
    pin_steps: &[PinStep],
)
    requires width { graph.now.width ≡ variables.width }
    requires within { All (λ p. p.slot < variables.slots) pin_steps.now }
    requires pins { All (λ p. HasPin graph.now.arch p.pin) pin_steps.now }
    requires vars { HasVariables variables formula.old }
    requires room { HasRoom formula.old (pin_clauses graph.now pin_steps.now) }
    ensures { Adds formula.old (pin_clauses graph.now pin_steps.now) formula.new }
{
    for step in pin_steps {
        let opened = graph.opened(step.pin);
        add_open_track(formula, variables, *step, &opened);
    }
}

/// Adds that the slot of a pin step has no track that is not marked as open.
fn add_open_track(
    formula: &mut Formula,
    variables: Variables,
    step: PinStep,
    opened: &[bool; MOST_TRACKS],
)
    requires within { step.slot < variables.slots }
    requires vars { HasVariables variables formula.old }
    requires room { HasRoom formula.old
        (open_track (λ _ t. slice_index_or opened.now t false) variables.width step) }
    ensures { Adds formula.old
        (open_track (λ _ t. slice_index_or opened.now t false) variables.width step) formula.new }
{
    for track in 0..variables.width {
        if !opened[track as usize] {
            add_clause(formula, &[variables.lacks(step.slot, track)]);
        }
    }
}

/// Adds for each step that, where its first slot has a track, the second has the one that this is
/// joined to.
pub(crate) fn add_joined_tracks(
    formula: &mut Formula,
    variables: Variables,
    graph: &Graph<'_>,
    slots: &[Slot],
    steps: &[RouteStep],
)
    requires width { graph.now.width ≡ variables.width }
    requires each { variables.slots ≡ length slots.now }
    requires within { All (IsStepWithin slots.now) steps.now }
    requires meet { All (IsStepMeeting graph.now.grid slots.now) steps.now }
    requires vars { HasVariables variables formula.old }
    requires room { HasRoom formula.old (flat_map (step_clauses graph.now slots.now) steps.now) }
    ensures { Adds formula.old (flat_map (step_clauses graph.now slots.now) steps.now) formula.new }
{
    for step in steps {
        add_joined_track(formula, variables, graph, slots, *step);
    }
}

/// Adds that, where the first slot of a step has a track, the second has the one that this is
/// joined to.
fn add_joined_track(
    formula: &mut Formula,
    variables: Variables,
    graph: &Graph<'_>,
    slots: &[Slot],
    step: RouteStep,
)
    requires width { graph.now.width ≡ variables.width }
    requires each { variables.slots ≡ length slots.now }
    requires within { IsStepWithin slots.now step }
    requires meet { IsStepMeeting graph.now.grid slots.now step }
    requires vars { HasVariables variables formula.old }
    requires room { HasRoom formula.old (step_clauses graph.now slots.now step) }
    ensures { Adds formula.old (step_clauses graph.now slots.now step) formula.new }
{
    let from = slots[step.from as usize].cell;
    let to = slots[step.to as usize].cell;
    let Some(crossing) = graph.crossing(from, to) else {
        unreachable!()
    };
    add_crossed_tracks(formula, variables, step, crossing);
}

/// Adds that, where the first slot of a step has a track, the second has the one across.
fn add_crossed_tracks(
    formula: &mut Formula,
    variables: Variables,
    step: RouteStep,
    crossing: Crossing,
)
    requires width { crossing.width ≡ variables.width }
    requires within { (step.from < variables.slots) × (step.to < variables.slots) }
    requires vars { HasVariables variables formula.old }
    requires room { HasRoom formula.old (crossed_clauses variables.width step crossing) }
    ensures { Adds formula.old (crossed_clauses variables.width step crossing) formula.new }
{
    for track in 0..variables.width {
        let first = variables.lacks(step.from, track);
        add_clause(
            formula,
            &[first, variables.has(step.to, crossing.track(track))],
        );
    }
}
