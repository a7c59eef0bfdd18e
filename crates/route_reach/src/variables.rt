//! The variables of the clauses for a reach, and their literals.
ghost use Rattle.std.specs.Prelude.{◌≡◌, ◌+◌, ◌*◌, ◌<◌, ◌≤◌};
ghost use Rattle.fpga_types.specs.declared.limits.TheConstants.{REACH_LIMIT};
ghost use Rattle.route_reach.specs.WireClauses.{wire_reached, wire_unreached, wire_used};
ghost use Rattle.sat_clause.specs.Literal.{IsWithin};
ghost use Rattle.sat_clause.specs.declared.limits.TheConstants.{VARIABLE_LIMIT};

use sat_clause::Lit;

/// The variables of so many wires for a reach: one for each wire, that it is used, and then, wire
/// by wire, that it is reached within 0 joins, within 1 and so on.
#[derive(Clone, Copy)]
pub(crate) struct WireVariables {
    /// How many wires there are.
    pub wires: u32,
    /// The greatest number of joins.
    pub reach: u32,
    ghost few_joins: { reach ≤ REACH_LIMIT },
    ghost few: { wires * (reach + 2) ≤ VARIABLE_LIMIT },
}

impl WireVariables {
    /// How many there are.
    pub(crate) fn count(self) -> u32
        ensures { result ≡ self.wires * (self.reach + 2) }
    {
        self.wires * (self.reach + 2)
    }

    /// The literal that says that a wire is used.
    pub(crate) fn used(self, wire: u32) -> Lit
        requires { wire < self.wires }
        ensures value { result ≡ wire_used wire }
        ensures within { IsWithin (self.wires * (self.reach + 2)) result }
    {
        Lit {
            code: (wire + 1) as i32,
        }
    }

    /// The literal that says that a wire is reached within so many joins.
    pub(crate) fn reached(self, wire: u32, joins: u32) -> Lit
        requires wire { wire < self.wires }
        requires joins { joins ≤ self.reach }
        ensures value { result ≡ wire_reached self.wires self.reach wire joins }
        ensures within { IsWithin (self.wires * (self.reach + 2)) result }
    {
        Lit {
            code: self.number(wire, joins) as i32,
        }
    }

    /// The literal that says that a wire is not reached within so many joins.
    pub(crate) fn unreached(self, wire: u32, joins: u32) -> Lit
        requires wire { wire < self.wires }
        requires joins { joins ≤ self.reach }
        ensures value { result ≡ wire_unreached self.wires self.reach wire joins }
        ensures within { IsWithin (self.wires * (self.reach + 2)) result }
    {
        Lit {
            code: -(self.number(wire, joins) as i32),
        }
    }

    /// The number of the variable that says that a wire is reached within so many joins.
    fn number(self, wire: u32, joins: u32) -> u32
        requires wire { wire < self.wires }
        requires joins { joins ≤ self.reach }
        ensures value { result ≡ self.wires + wire * (self.reach + 1) + joins + 1 }
        ensures within { result ≤ self.wires * (self.reach + 2) }
    {
        self.wires + wire * (self.reach + 1) + joins + 1
    }
}
