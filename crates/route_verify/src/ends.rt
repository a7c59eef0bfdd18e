//! What a netlist and its placement say of a net by its name, whether the netlist has it or not.
ghost use Rattle.std.specs.Prelude.{◌≡◌, IfOk};
ghost use Rattle.fpga_bounds.specs.NetEnds.{lacks_one};
ghost use Rattle.fpga_bounds.specs.ProblemContext.{context_by};
ghost use Rattle.fpga_types.specs.Terminals.{sinks_named};
ghost use Rattle.route_verify.specs.Ends.{HasEnds};

use fpga_bounds::{Design, ElemContext, ElemKey, NetEnds, NetTable, ProblemContext};
use std::alloc::{AllocError, Global};
use std::collections::BTreeSet;
use std::marker::Model;

/// A name, with the terminals at which the net of this name begins and ends, if there is one.
#[derive(Drop)]
pub(crate) struct NameEnds<'a> {
    design: &'a Design<'a>,
    name: &'a [u8],
    ends: Option<NetEnds<'a>>,
}

impl<'a> Model for NameEnds<'a> {
    ghost use Rattle.fpga_bounds.specs.NetEnds.{NamedNet};
    ghost use Rattle.route_verify.specs.Ends.{HasEnds};

    ghost Value = { NamedNet };

    ghost view = { λ e. record { problem = e.design.now; name = e.name.now } };

    ghost invariant = { λ e. HasEnds (record { problem = e.design.now; name = e.name.now })
        e.ends };
}

impl<'a> NameEnds<'a> {
    /// Those of this name; the names are those of the netlist.
    pub(crate) fn of(
        alloc: Global,
        design: &'a Design<'a>,
        names: &NetTable<'a>,
        name: &'a [u8],
    ) -> Result<NameEnds<'a>, AllocError>
        requires { names.now ≡ design.now.netlist.nets }
        ensures { IfOk result (λ ends. ends ≡ record { problem = design.now; name = name.now }) }
    {
        let ends = ends_of(alloc, design, names, name)?;
        Ok(NameEnds { design, name, ends })
    }

    /// What the codes of the fit look at, of a line of the net; the set has the elements of the net
    /// up to it.
    pub(crate) fn context(&self, at: ElemContext, seen: &BTreeSet<ElemKey>) -> ProblemContext
        ensures { result ≡ context_by self.now at seen.now }
    {
        let Some(ends) = &self.ends else {
            return ProblemContext {
                route: at,
                driver: None,
                ends: false,
                takes_in: self.design.is_input(at.elem),
                lacking: false,
            };
        };
        ends.context(at, seen)
    }

    /// Whether a sink of the net has no SINK line among these lines.
    pub(crate) fn lacks(&self, seen: &BTreeSet<ElemKey>) -> bool
        ensures { result ≡ lacks_one seen.now (sinks_named self.now.problem self.now.name) }
    {
        let Some(ends) = &self.ends else {
            return false;
        };
        ends.lacks(seen)
    }
}

/// The ends of the net with this name, if there is one; the names are those of the netlist.
fn ends_of<'a>(
    alloc: Global,
    design: &'a Design<'a>,
    names: &NetTable<'a>,
    name: &'a [u8],
) -> Result<Option<NetEnds<'a>>, AllocError>
    requires { names.now ≡ design.now.netlist.nets }
    ensures { IfOk result (HasEnds (record { problem = design.now; name = name.now })) }
{
    let Some(number) = names.number_of(name) else {
        return Ok(None);
    };
    let ends = NetEnds::of(alloc, design, name, &names.as_slice()[number])?;
    Ok(Some(ends))
}
