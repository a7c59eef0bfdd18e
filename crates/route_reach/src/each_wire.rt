//! The clauses about each wire for itself.
ghost use Rattle.std.specs.Prelude.{◌≡◌, ◌+◌, ◌<◌, ◌≤◌, flat_map, length};
ghost use Rattle.route_encode.specs.Adding.{Adds, HasRoom};
ghost use Rattle.route_encode.specs.Encoding.{below};
ghost use Rattle.route_reach.specs.WireClauses.{HasWires, rule_clauses, stays_clauses, used_clauses};

use crate::variables::WireVariables;
use route_encode::add_clause;
use sat_clause::Formula;

/// What the clauses about each wire for itself say.
#[derive(Clone, Copy)]
pub(crate) enum WireRule {
    /// It is used where it is reached.
    Used,
    /// It stays reached within more joins.
    Stays,
}

/// Adds for each wire what the rule says.
pub(crate) fn add_each_wire(formula: &mut Formula, variables: WireVariables, rule: WireRule)
    requires vars { HasWires variables.wires variables.reach formula.old }
    requires room { HasRoom formula.old (flat_map
        (rule_clauses variables.wires variables.reach rule) (below variables.wires)) }
    ensures { Adds formula.old (flat_map
        (rule_clauses variables.wires variables.reach rule) (below variables.wires)) formula.new }
{
    for wire in 0..variables.wires {
        add_wire(formula, variables, rule, wire);
    }
}

/// Adds what the rule says of a wire.
fn add_wire(formula: &mut Formula, variables: WireVariables, rule: WireRule, wire: u32)
    requires wire { wire < variables.wires }
    requires vars { HasWires variables.wires variables.reach formula.old }
    requires room { HasRoom formula.old
        (rule_clauses variables.wires variables.reach rule wire) }
    ensures { Adds formula.old (rule_clauses variables.wires variables.reach rule wire)
        formula.new }
{
    match rule {
        WireRule::Used => add_wire_used(formula, variables, wire),
        WireRule::Stays => add_wire_stays(formula, variables, wire),
    }
}

/// Adds that the wire is used where it is reached.
fn add_wire_used(formula: &mut Formula, variables: WireVariables, wire: u32)
    requires wire { wire < variables.wires }
    requires vars { HasWires variables.wires variables.reach formula.old }
    requires room { HasRoom formula.old (used_clauses variables.wires variables.reach wire) }
    ensures { Adds formula.old (used_clauses variables.wires variables.reach wire) formula.new }
{
    let used = variables.used(wire);
    for joins in 0..variables.reach + 1 {
        add_clause(formula, &[variables.unreached(wire, joins), used]);
    }
}

/// Adds that the wire stays reached within more joins.
fn add_wire_stays(formula: &mut Formula, variables: WireVariables, wire: u32)
    requires wire { wire < variables.wires }
    requires vars { HasWires variables.wires variables.reach formula.old }
    requires room { HasRoom formula.old (stays_clauses variables.wires variables.reach wire) }
    ensures { Adds formula.old (stays_clauses variables.wires variables.reach wire) formula.new }
{
    for joins in 0..variables.reach {
        let later = variables.reached(wire, joins + 1);
        add_clause(formula, &[variables.unreached(wire, joins), later]);
    }
}
