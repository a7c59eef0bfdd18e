//! The hints that a step needs.
ghost use Rattle.std.specs.Prelude.{◌≡◌, ◌≤◌, ◌++◌, [], List, All, IfOk, OnOk, length};
ghost use Rattle.sat_clause.specs.declared.literal.Lit.{Lit as LitOf};
ghost use Rattle.sat_clause.specs.Literal.{Clause, IsWithin};
ghost use Rattle.route_core.specs.Needed.{Kept, kept_if};
ghost use Rattle.route_core.specs.Ready.{IsReady};
ghost use Rattle.route_core.specs.Sources.{said_under};
ghost use Rattle.route_core.specs.Walking.{HasKept, clause_of, kept_back, serves};
ghost use Rattle.route_core.specs.Wanting.{Tells};

use crate::sources::Sources;
use crate::wanted::Wanted;
use sat_clause::{LITERAL_LIMIT, Lit};
use std::alloc::{AllocError, Global};

/// What is at hand to find the needed hints of one step after another.
#[derive(Drop)]
pub(crate) struct NeededHints {
    /// What the kept hints of a step want.
    wanted: Wanted,
    /// The needed hints of the last step, in order.
    hints: Vec<i64>,
}

/// The literals of the clause that a hint names are wanted.
fn want(sources: &Sources<'_>, wanted: &mut Wanted, hint: i64)
    requires size { wanted.old.size ≡ sources.now.size }
    ensures size { wanted.new.size ≡ wanted.old.size }
    ensures wanted { (own : Clause) (before : List LitOf) → Tells own before wanted.old
        → Tells own
        (clause_of (said_under sources.now.formula sources.now.log) hint ++ before)
        wanted.new }
{
    let Some(clause) = sources.clause(hint) else {
        return;
    };
    wanted.want(clause);
}

/// Keeps a hint if its clause serves those that were kept.
// It made one of its literals true, and all its others were false. What is false stays so, and no
// clause behind wants its negation, unless the step's own has that. So it is known without a walk
// along the hints which of them the one is.
#[inline(always)]
fn keep_if_needed(
    sources: &Sources<'_>,
    wanted: &mut Wanted,
    hint: i64,
    kept: &mut Vec<i64>,
) -> Result<(), AllocError>
    requires size { wanted.old.size ≡ sources.now.size }
    ensures size { wanted.new.size ≡ wanted.old.size }
    ensures ok { OnOk result ((own : Clause) (rest : Kept)
        → HasKept own rest kept.old.items wanted.old
        → (let clause : Clause = clause_of (said_under sources.now.formula sources.now.log) hint in
        HasKept own (kept_if (serves own rest.wanted clause) hint clause rest) kept.new.items
        wanted.new)) }
{
    let Some(clause) = sources.clause(hint) else {
        return Ok(());
    };
    if !wanted.wants_opposite(clause) {
        return Ok(());
    }
    wanted.want(clause);
    kept.push(hint)?;
    Ok(())
}

/// Goes back from the last hint of a step that adds these literals, and keeps it and each hint that
/// serves those behind it: from the last to the first.
fn go_back(
    sources: &Sources<'_>,
    wanted: &mut Wanted,
    lits: &[Lit],
    hints: &[i64],
    kept: &mut Vec<i64>,
) -> Result<(), AllocError>
    requires size { wanted.old.size ≡ sources.now.size }
    requires within { All (IsWithin sources.now.size) lits.now }
    requires some { 1 ≤ length hints.now }
    requires empty { kept.old.items ≡ [] }
    ensures size { wanted.new.size ≡ wanted.old.size }
    ensures ok { OnOk result (HasKept lits.now
        (kept_back (said_under sources.now.formula sources.now.log) lits.now hints.now)
        kept.new.items wanted.new) }
{
    wanted.begin(lits);
    let last = hints.len() - 1;
    want(sources, wanted, hints[last]);
    kept.push(hints[last])?;
    for at in (0..last).rev() {
        keep_if_needed(sources, wanted, hints[at], kept)?;
    }
    Ok(())
}

impl NeededHints {
    /// For clauses whose variables are up to a size. There are no hints yet.
    pub(crate) fn new(alloc: Global, size: u32) -> Result<NeededHints, AllocError>
        requires { size ≤ LITERAL_LIMIT }
        ensures { IfOk result (IsReady size) }
    {
        Ok(NeededHints {
            wanted: Wanted::new(alloc, size)?,
            hints: Vec::new(alloc),
        })
    }

    /// Finds the needed hints of a good step that adds these literals by these hints.
    pub(crate) fn find(
        &mut self,
        sources: &Sources<'_>,
        lits: &[Lit],
        hints: &[i64],
    ) -> Result<(), AllocError>
        requires ready { IsReady sources.now.size self.old }
        requires within { All (IsWithin sources.now.size) lits.now }
        requires some { 1 ≤ length hints.now }
        ensures ready { OnOk result (IsReady sources.now.size self.new) }
        ensures hints { OnOk result (let said = said_under sources.now.formula sources.now.log in
            self.new.hints.items ≡ (kept_back said lits.now hints.now).hints) }
    {
        self.hints.clear();
        go_back(sources, &mut self.wanted, lits, hints, &mut self.hints)?;
        self.hints.reverse();
        Ok(())
    }

    /// The hints that were found, in order.
    pub(crate) fn hints(&self) -> &[i64]
        ensures { result.now ≡ self.now.hints.items }
    {
        &self.hints
    }
}
