//! The steps that link clauses in an arena into chains.

ghost use Rattle.std.specs.Prelude.{◌≡◌, ◌+◌, ◌*◌, ◌^◌, ◌<◌, ◌≤◌, length, map, true, All, IfSome};
ghost use Rattle.sat_clause.specs.Literal.{IsWithin};
ghost use Rattle.sat_arena.specs.declared.clause_ref.ClauseRef.{ClauseRef};
ghost use Rattle.sat_arena.specs.Store.{ArePlaced, IsLinkTo, changed, is_held, new_clause, ref, size_all, with_link, with_swap};
ghost use Rattle.sat_watch.specs.Chains.{HasHead, IsChained, IsLast, MayBePlaceOf, head_at, literals, unlinked, unlinked_heads, with_head, with_order};
ghost use Rattle.sat_watch.specs.Relinking.{AreNear, AreRefsOf, AreUnlinked, heads_with, linked, marked};
ghost use Rattle.sat_watch.specs.Watches.{attached};

use crate::maybe_clause::MaybeClause;
use crate::place::Place;
use crate::trail::place;
use sat_arena::{Arena, ClauseRef, Moves};
use sat_clause::{LITERAL_LIMIT, Lit, VARIABLE_LIMIT};

/// Links what stands before a clause in a literal's chain to what stands after it.
pub(crate) fn unlink(
    arena: &mut Arena,
    heads: &mut Vec<MaybeClause>,
    vars: u32,
    f: Lit,
    before: Option<Place>,
    after: Option<ClauseRef>,
)
    requires few { vars ≤ VARIABLE_LIMIT }
    requires wide { length heads.old.items ≡ vars * 2 + 1 }
    requires within { IsWithin vars f }
    requires place { MayBePlaceOf arena.old.clauses f before }
    requires after { IsLinkTo arena.old.clauses after }
    requires near { IfSome after (λ c. c.word < 2 ^ 63) }
    ensures clauses { arena.new.clauses ≡ unlinked before after arena.old.clauses }
    ensures spare { arena.new.spare ≡ arena.old.spare }
    ensures heads { heads.new.items ≡ unlinked_heads vars f before after heads.old.items }
{
    let Some(p) = before else {
        heads[place(vars, f)] = MaybeClause::of(after);
        return;
    };
    arena.set_link(p.clause, p.which, after);
}

/// Swaps the literal at a position of a clause to the place, and puts the clause in front of that
/// literal's chain.
pub(crate) fn put_first(
    arena: &mut Arena,
    heads: &mut Vec<MaybeClause>,
    vars: u32,
    at: Place,
    k: u32,
)
    requires few { vars ≤ VARIABLE_LIMIT }
    requires wide { length heads.old.items ≡ vars * 2 + 1 }
    requires held { is_held arena.old.clauses at.clause ≡ true }
    requires which { at.which < 2 }
    requires low { 2 ≤ k }
    requires high { k < length (literals arena.old.clauses at.clause) }
    requires head { HasHead vars arena.old.clauses heads.old.items at.clause k }
    ensures clauses { arena.new.clauses
        ≡ changed (with_link at.which (head_at vars arena.old.clauses heads.old.items at.clause k))
        at.clause (changed (with_swap at.which k) at.clause arena.old.clauses) }
    ensures spare { arena.new.spare ≡ arena.old.spare }
    ensures heads { heads.new.items ≡ with_head vars arena.old.clauses heads.old.items at.clause k }
{
    let heads: &mut [MaybeClause] = heads;
    let lits = arena.lits(at.clause);
    let first = place(vars, lits[k as usize]);
    let next = heads[first].clause();
    arena.swap(at.clause, at.which, k);
    arena.set_link(at.clause, at.which, next);
    heads[first] = MaybeClause::of(Some(at.clause));
}

/// Puts a clause behind the others, with the literal at position `i` first, and then the one that
/// stands at position `j` second.
pub(crate) fn push_ordered(arena: &mut Arena, lits: &[Lit], id: u32, i: u32, j: u32) -> ClauseRef
    requires placed { ArePlaced 0 arena.old.clauses }
    requires few { length lits.now ≤ LITERAL_LIMIT }
    requires room { length lits.now + 6 ≤ arena.old.spare }
    requires i { i < length lits.now }
    requires j { j < length lits.now }
    requires two { 2 ≤ length lits.now }
    ensures last { IsLast arena.old.clauses arena.new.clauses
        (with_order i j (new_clause (ref (size_all arena.old.clauses)) id lits.now)) result }
    ensures place { result ≡ ref (size_all arena.old.clauses) }
{
    let c = arena.push(lits, id);
    arena.swap(c, 0, i);
    arena.swap(c, 1, j);
    c
}

/// Puts a clause in front of the chains of its first two literals.
pub(crate) fn link_first(arena: &mut Arena, heads: &mut Vec<MaybeClause>, vars: u32, c: ClauseRef)
    requires few { vars ≤ VARIABLE_LIMIT }
    requires wide { length heads.old.items ≡ vars * 2 + 1 }
    requires held { is_held arena.old.clauses c ≡ true }
    requires two { 2 ≤ length (literals arena.old.clauses c) }
    requires first { HasHead vars arena.old.clauses heads.old.items c 0 }
    requires second { HasHead vars arena.old.clauses heads.old.items c 1 }
    ensures clauses { arena.new.clauses
        ≡ changed (with_link 1 (head_at vars arena.old.clauses heads.old.items c 1)) c
        (changed (with_link 0 (head_at vars arena.old.clauses heads.old.items c 0)) c
        arena.old.clauses) }
    ensures spare { arena.new.spare ≡ arena.old.spare }
    ensures heads { heads.new.items
        ≡ with_head vars arena.old.clauses
        (with_head vars arena.old.clauses heads.old.items c 0) c 1 }
{
    let lits = arena.lits(c);
    let first = place(vars, lits[0]);
    let second = place(vars, lits[1]);
    let (to_first, to_second) = (heads[first].clause(), heads[second].clause());
    arena.set_link(c, 0, to_first);
    arena.set_link(c, 1, to_second);
    heads[first] = MaybeClause::of(Some(c));
    heads[second] = MaybeClause::of(Some(c));
}

/// Marks these clauses, or takes their marks away.
pub(crate) fn mark_all(arena: &mut Arena, clauses: &[ClauseRef], on: bool)
    requires held { All (λ c. is_held arena.old.clauses c ≡ true) clauses.now }
    ensures clauses { arena.new.clauses ≡ marked on clauses.now arena.old.clauses }
    ensures spare { arena.new.spare ≡ arena.old.spare }
{
    for c in clauses {
        arena.mark(*c, on);
    }
}

/// Puts a clause in front of the chains of its first two literals, if it has two.
fn relink(arena: &mut Arena, heads: &mut Vec<MaybeClause>, vars: u32, c: ClauseRef)
    requires few { vars ≤ VARIABLE_LIMIT }
    requires wide { length heads.old.items ≡ vars * 2 + 1 }
    requires held { is_held arena.old.clauses c ≡ true }
    requires first { 2 ≤ length (literals arena.old.clauses c)
        → HasHead vars arena.old.clauses heads.old.items c 0 }
    requires second { 2 ≤ length (literals arena.old.clauses c)
        → HasHead vars arena.old.clauses heads.old.items c 1 }
    ensures clauses { arena.new.clauses
        ≡ changed (linked vars (literals arena.old.clauses c) heads.old.items) c arena.old.clauses }
    ensures spare { arena.new.spare ≡ arena.old.spare }
    ensures heads { heads.new.items
        ≡ heads_with vars (literals arena.old.clauses c) c heads.old.items }
    ensures near { c.word < 2 ^ 63 }
{
    if arena.lits(c).len() >= 2 {
        link_first(arena, heads, vars, c);
    }
}

/// Links all clauses, whose chains are still empty. The moves tell their references.
pub(crate) fn link_all(arena: &mut Arena, heads: &mut Vec<MaybeClause>, vars: u32, moves: &Moves)
    requires unlinked { AreUnlinked vars arena.old.clauses heads.old.items }
    requires references { AreRefsOf arena.old.clauses moves.now }
    ensures clauses { map attached arena.new.clauses ≡ map attached arena.old.clauses }
    ensures chained { IsChained vars arena.new.clauses heads.new.items }
    ensures near { AreNear moves.now }
{
    for pair in &moves.pairs {
        relink(arena, heads, vars, pair.after);
    }
}
