//! The nets of a route by their names.
ghost use Rattle.std.specs.Prelude.{◌≡◌, ◌<◌, IfOk, IfSome, OnOk, length};
ghost use Rattle.route_verify.specs.Lines.{trace_named};
ghost use Rattle.route_verify.specs.Traces.{GainsElems, HasElems, trace_number};

use fpga_bounds::{ElemKey, see};
use fpga_types::{Elem, RouteNet, number_name};
use std::alloc::{AllocError, Global};
use std::collections::{BTreeMap, BTreeSet};
use std::marker::Model;

/// The nets of a route, which are found by name. Of two with one name the first is found.
#[derive(Drop)]
pub(crate) struct Traces<'a> {
    nets: &'a [RouteNet],
    numbers: BTreeMap<&'a [u8], usize>,
}

impl<'a> Model for Traces<'a> {
    ghost use Rattle.std.specs.Prelude.{List};
    ghost use Rattle.fpga_types.specs.declared.route.RouteNet.{RouteNet};
    ghost use Rattle.route_verify.specs.Traces.{AreTraced};

    ghost Value = { List RouteNet };

    ghost view = { λ t. t.nets.now };

    ghost invariant = { λ t. AreTraced t.nets.now t.numbers };
}

impl<'a> Traces<'a> {
    /// These nets.
    pub(crate) fn of(alloc: Global, nets: &'a [RouteNet]) -> Result<Traces<'a>, AllocError>
        ensures { IfOk result (λ traces. traces ≡ nets.now) }
    {
        let mut numbers = BTreeMap::new(alloc);
        for (i, net) in nets.iter().enumerate() {
            number_name(&mut numbers, net.name.bytes.as_slice(), i)?;
        }
        Ok(Traces { nets, numbers })
    }

    /// The nets, by position.
    pub(crate) fn as_slice(&self) -> &'a [RouteNet]
        ensures { result.now ≡ self.now }
    {
        self.nets
    }

    /// The position of the first net with this name.
    pub(crate) fn number_of(&self, name: &'a [u8]) -> Option<usize>
        ensures number { result ≡ trace_number self.now name.now }
        ensures within { IfSome result (λ number. number < length self.now) }
    {
        self.numbers.get(&name).copied()
    }

    /// The elements of the first net with this name, as a set.
    pub(crate) fn elems_named(
        &self,
        alloc: Global,
        name: &'a [u8],
    ) -> Result<BTreeSet<ElemKey>, AllocError>
        ensures { IfOk result (λ set. HasElems set (trace_named self.now name.now)) }
    {
        let mut set = BTreeSet::new(alloc);
        let Some(number) = self.number_of(name) else {
            return Ok(set);
        };
        see_all(&mut set, self.as_slice()[number].elems.as_slice())?;
        Ok(set)
    }
}

/// Puts the elements into the set.
fn see_all(set: &mut BTreeSet<ElemKey>, elems: &[Elem]) -> Result<(), AllocError>
    ensures { OnOk result (GainsElems set.old elems.now set.new) }
{
    for e in elems {
        see(set, *e)?;
    }
    Ok(())
}
