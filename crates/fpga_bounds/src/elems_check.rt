//! The first fault of the element lines of one net of a route, behind the nets before it.
ghost use Rattle.std.specs.Prelude.{◌≡◌, ◌<◌, [], length, OnOk, IfErr};
ghost use Rattle.fpga_text.specs.FirstFault.{IsFaultless, IsRefusal};
ghost use Rattle.fpga_bounds.specs.Keys.{has_pin};
ghost use Rattle.fpga_bounds.specs.NetFit.{elems_faults};
ghost use Rattle.fpga_types.specs.Fit.{is_pin_of};
ghost use Rattle.fpga_types.specs.declared.route.Elem.{Elem};

use crate::elem_context::ElemContext;
use crate::keys::{ElemKey, has_pin, see_again};
use crate::line_rules::{ElemAt, LineRules};
use fpga_text::TextFault;
use fpga_types::{Elem, NET_LIMIT, RouteNet};
use std::alloc::Global;
use std::collections::BTreeSet;

/// Checks the elements of the net that stands behind these, whose pins these are.
pub(crate) fn check_elems<'a, R: LineRules<'a>>(
    alloc: Global,
    rules: &R,
    of: &R::Net,
    kept: &mut R::Kept,
    earlier: &[RouteNet],
    net: &RouteNet,
    pins: &BTreeSet<ElemKey>,
) -> Result<(), TextFault>
    requires net { R.is_net rules.now of.now net.now }
    requires nets { length earlier.now < NET_LIMIT }
    requires pins { (e : Elem) → has_pin pins.now e ≡ is_pin_of earlier.now e }
    requires kept { R.has_kept kept.old earlier.now net.now [] }
    ensures good { OnOk result (IsFaultless
        (elems_faults (R.fault rules.now) earlier.now net.now 0)) }
    ensures kept { OnOk result (R.has_kept kept.new earlier.now net.now net.now.elems) }
    ensures refused { IfErr result (IsRefusal
        (elems_faults (R.fault rules.now) earlier.now net.now 0)) }
{
    let elems = net.elems.as_slice();
    let mut seen = BTreeSet::new(alloc);
    let mut previous: Option<Elem> = None;
    for (i, e) in elems.iter().enumerate() {
        let Ok(again) = see_again(&mut seen, *e) else {
            return Err(TextFault::Memory);
        };
        let context = ElemContext {
            elem: *e,
            previous,
            again,
            taken: has_pin(pins, *e),
            full: false,
            last: i + 1 == elems.len(),
            global: net.global,
        };
        let at = ElemAt {
            earlier,
            net,
            position: i,
            seen: &seen,
            context,
        };
        if let Err(fault) = rules.check_elem(of, kept, at) {
            return Err(fault);
        }
        previous = Some(*e);
    }
    Ok(())
}
