//! The hints of one clause over the formula.

ghost use Rattle.std.specs.Prelude.{◌≡◌, ◌≤◌, [], IfOk, IsTrue, All};
ghost use Rattle.sat_check.specs.Finder.{Finds};
ghost use Rattle.sat_check.specs.LiveStore.{live_at};
ghost use Rattle.sat_clause.specs.Literal.{IsWithin};
ghost use Rattle.sat_clause.specs.Live.{Live};
ghost use Rattle.sat_merge.specs.Rewritten.{IsJustified};

use crate::expanding::expand;
use crate::needed::are_needed;
use crate::representatives::Representatives;
use sat_check::{FalseSet, LiveClauses};
use sat_clause::{LITERAL_LIMIT, Lit};
use std::alloc::{AllocError, Global};
use std::marker::Model;

/// Writes the hints of one clause after the other.
#[derive(Drop)]
pub(crate) struct HintWriter {
    falses: FalseSet,
    met: FalseSet,
    units: Vec<Lit>,
    hints: Vec<i64>,
}

impl Model for HintWriter {
    ghost use Rattle.sat_merge.specs.Hints.{AreReady, HintState};

    ghost Value = { HintState };

    ghost view = { λ w. record { vars = w.falses.size; hints = w.hints.items } };

    ghost invariant = { λ w. AreReady w.falses w.met };
}

impl HintWriter {
    /// One that has written none, for clauses of so many variables.
    pub(crate) fn new(alloc: Global, vars: u32) -> Result<HintWriter, AllocError>
        requires { vars ≤ LITERAL_LIMIT }
        ensures { IfOk result (λ w. w ≡ record { vars = vars; hints = [] }) }
    {
        Ok(HintWriter {
            falses: FalseSet::new(alloc, vars)?,
            met: FalseSet::new(alloc, vars)?,
            units: Vec::new(alloc),
            hints: Vec::new(alloc),
        })
    }

    /// The hints that were written last.
    pub(crate) fn hints(&self) -> &[i64]
        ensures { result.now ≡ self.now.hints }
    {
        &self.hints
    }

    /// Writes hints of a clause over the formula for its hints over the representatives, and says
    /// whether they justify it and are all needed.
    pub(crate) fn write(
        &mut self,
        representatives: &Representatives,
        live: &LiveClauses<'_>,
        clause: &[Lit],
        old: &[i64],
    ) -> Result<bool, AllocError>
        requires vars { live.now.vars ≡ self.old.vars }
        requires within { All (IsWithin self.old.vars) clause.now }
        ensures vars { self.new.vars ≡ self.old.vars }
        ensures written { IfOk result (λ are. IsTrue are → (clauses : Live)
            → Finds (live_at live.now) clauses
            → IsJustified clauses clause.now self.new.hints) }
    {
        let expanded = expand(
            representatives,
            live,
            clause,
            old,
            &mut self.falses,
            &mut self.hints,
        );
        self.falses.clear();
        let Ok(()) = expanded else {
            return Err(AllocError);
        };
        are_needed(
            live,
            &mut self.falses,
            &mut self.met,
            &mut self.units,
            clause,
            &self.hints,
        )
    }
}
