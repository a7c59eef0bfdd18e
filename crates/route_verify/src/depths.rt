//! How many joins lead to each channel line of a net.
ghost use Rattle.std.specs.Prelude.{◌≡◌, ◌-◌, ◌^◌, ◌<◌, ◌++◌, ◌∷◌, [], ℕ, List, OnOk, Some, length};
ghost use Rattle.fpga_types.specs.declared.route.Elem.{Elem};
ghost use Rattle.route_verify.specs.Depths.{DeepLine, depth_behind};
ghost use Rattle.route_verify.specs.LineDepths as spec;
ghost use Rattle.route_verify.specs.LineDepths.{AreFirsts, HasTaken, deep_of, depth_at_last, same_by};
ghost use Rattle.route_verify.specs.Reach.{depth_at_pin};

use fpga_bounds::ElemKey;
use fpga_types::{Elem, ElemKind};
use std::alloc::{AllocError, Global};
use std::collections::BTreeMap;

/// The lines of a net that were taken, one behind the other, with the depth of its channel lines:
/// behind an OPIN 0, behind a channel line one more than its own, and behind a SINK that of the
/// first line that it equals. A channel line behind another line has none, nor has one behind it.
#[derive(Drop)]
pub struct LineDepths {
    tracked: bool,
    // The depth of the first of each equal channel lines.
    firsts: BTreeMap<ElemKey, Option<u64>>,
    previous: Option<ElemKind>,
    last: Option<u64>,
    last_but_one: Option<u64>,
}

impl LineDepths {
    /// Of no lines. Channel lines are equal in one cell; where they are `tracked`, on one wire.
    /// Takes no memory.
    pub fn new(alloc: Global, tracked: bool) -> LineDepths
        ensures tracked { result.tracked ≡ tracked }
        ensures taken { HasTaken result [] }
    {
        LineDepths {
            tracked,
            firsts: BTreeMap::new(alloc),
            previous: None,
            last: None,
            last_but_one: None,
        }
    }

    /// The depth of the last line, if it has one.
    pub fn last(&self) -> Option<u64>
        ensures { (elems : List Elem) → HasTaken self.now elems
            → result ≡ depth_at_last (deep_of self.now elems) }
    {
        self.last
    }

    /// The depth of the line before the last, if it has one.
    pub fn last_but_one(&self) -> Option<u64>
        ensures { (elems : List Elem) → HasTaken self.now elems
            → result ≡ depth_at_pin (deep_of self.now elems) }
    {
        self.last_but_one
    }

    /// Takes the next line of the net.
    ///
    /// # Errors
    /// Where memory is short.
    pub fn take(&mut self, line: Elem) -> Result<(), AllocError>
        requires { (elems : List Elem) × (HasTaken self.old elems
            × (length elems < 2 ^ 64 - 1)) }
        ensures tracked { OnOk result (self.new.tracked ≡ self.old.tracked) }
        ensures taken { (elems : List Elem) → HasTaken self.old elems
            → OnOk result (HasTaken self.new (elems ++ line ∷ [])) }
    {
        let depth = self.depth_of(line);
        keep_first(&mut self.firsts, self.tracked, line, depth)?;
        self.previous = Some(line.kind);
        self.last_but_one = self.last;
        self.last = depth;
        Ok(())
    }

    // The depth of the next line.
    fn depth_of(&self, line: Elem) -> Option<u64>
        requires { (d : ℕ) → self.now.last ≡ Some d → d < 2 ^ 64 - 1 }
        ensures { (elems : List Elem) → HasTaken self.now elems
            → result ≡ depth_behind (same_by self.now.tracked) (deep_of self.now elems) line }
    {
        if !line.kind.is_channel() {
            return None;
        }
        let first = first_of(&self.firsts, line_key(self.tracked, line));
        depth_by(self.previous, first, self.last)
    }
}

// The depth of a channel line, by the kind of the line before it, the depth of the first line that
// it equals, and that of the line before it.
fn depth_by(previous: Option<ElemKind>, first: Option<u64>, last: Option<u64>) -> Option<u64>
    requires { (d : ℕ) → last ≡ Some d → d < 2 ^ 64 - 1 }
    ensures { result ≡ spec.depth_by previous first last }
{
    match previous? {
        ElemKind::Sink => first,
        ElemKind::Opin => Some(0),
        _ => Some(last? + 1),
    }
}

// What equal channel lines have in common.
fn line_key(tracked: bool, line: Elem) -> ElemKey
    ensures { result ≡ spec.line_key tracked line }
{
    ElemKey {
        kind: line.kind,
        x: line.x,
        y: line.y,
        label: line.label,
        number: if tracked { line.number } else { 0 },
    }
}

// The depth under this key, if there is one.
fn first_of(firsts: &BTreeMap<ElemKey, Option<u64>>, key: ElemKey) -> Option<u64>
    ensures { result ≡ spec.first_depth firsts.now key }
{
    match firsts.get(&key) {
        Some(depth) => *depth,
        None => None,
    }
}

// Keeps the depth of a channel line, unless an equal one came before it.
fn keep_first(
    firsts: &mut BTreeMap<ElemKey, Option<u64>>,
    tracked: bool,
    line: Elem,
    depth: Option<u64>,
) -> Result<(), AllocError>
    ensures { (lines : List DeepLine) → AreFirsts tracked firsts.old lines
        → OnOk result (AreFirsts tracked firsts.new
        (lines ++ record { elem = line; depth = depth } ∷ [])) }
{
    if !line.kind.is_channel() {
        return Ok(());
    }
    let key = line_key(tracked, line);
    if firsts.contains_key(&key) {
        return Ok(());
    }
    firsts.insert(key, depth)?;
    Ok(())
}
