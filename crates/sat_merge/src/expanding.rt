//! The hints of a step over the representatives, made to hints over the formula.

ghost use Rattle.std.specs.Prelude.{◌≡◌, ◌≤◌, All, IfSome};
ghost use Rattle.sat_clause.specs.Literal.{IsWithin};

use crate::representatives::Representatives;
use sat_check::{FalseSet, LiveClauses};
use sat_clause::{FalseLiterals, LITERAL_LIMIT, Lit};
use std::alloc::{AllocError, Global};

/// Whether the variable has this value: the literal that says the opposite is false.
fn has_value(falses: &FalseSet, variable: u32, value: bool) -> bool
    requires { falses.now.size ≤ LITERAL_LIMIT }
{
    if variable == 0 || variable > falses.size() {
        return false;
    }
    let l = Lit::positive(variable);
    falses.is_false(if value { l.negation() } else { l })
}

/// Gives the variable this value.
fn set_value(falses: &mut FalseSet, variable: u32, value: bool) -> Result<(), AllocError>
    requires { falses.old.size ≤ LITERAL_LIMIT }
    ensures { falses.new.size ≡ falses.old.size }
{
    if variable == 0 || variable > falses.size() {
        return Ok(());
    }
    let l = Lit::positive(variable);
    falses.put(if value { l.negation() } else { l })
}

/// The hints that make an implied variable true whose representative is true, from that one on.
fn go_down(
    representatives: &Representatives,
    variable: u32,
    falses: &mut FalseSet,
    hints: &mut Vec<i64>,
) -> Result<(), AllocError>
    requires { falses.old.size ≤ LITERAL_LIMIT }
    ensures { falses.new.size ≡ falses.old.size }
{
    let first = hints.len();
    let mut at = variable;
    for _ in 0..representatives.steps(variable) {
        if has_value(falses, at, true) {
            break;
        }
        let Some(implied) = representatives.get(at) else {
            break;
        };
        hints.push(implied.by as i64)?;
        set_value(falses, at, true)?;
        at = implied.before;
    }
    // they were found from the last one back
    let hints: &mut [i64] = hints;
    hints[first..].reverse();
    Ok(())
}

/// The hints that make what implies a false variable false, up to its representative.
fn go_up(
    representatives: &Representatives,
    variable: u32,
    falses: &mut FalseSet,
    hints: &mut Vec<i64>,
) -> Result<(), AllocError>
    requires { falses.old.size ≤ LITERAL_LIMIT }
    ensures { falses.new.size ≡ falses.old.size }
{
    let mut at = variable;
    for _ in 0..representatives.steps(variable) {
        let Some(implied) = representatives.get(at) else {
            break;
        };
        at = implied.before;
        if has_value(falses, at, false) {
            break;
        }
        hints.push(implied.by as i64)?;
        set_value(falses, at, false)?;
    }
    Ok(())
}

/// Makes the negation of an implied variable false where its representative is true.
fn reach(
    representatives: &Representatives,
    l: Lit,
    falses: &mut FalseSet,
    hints: &mut Vec<i64>,
) -> Result<(), AllocError>
    requires { falses.old.size ≤ LITERAL_LIMIT }
    ensures { falses.new.size ≡ falses.old.size }
{
    let variable = l.variable();
    if l.is_positive()
        || representatives.is_representative(variable)
        || has_value(falses, variable, true)
    {
        return Ok(());
    }
    let Some(representative) = representatives.representative(variable) else {
        return Ok(());
    };
    if has_value(falses, representative, true) {
        return go_down(representatives, variable, falses, hints);
    }
    Ok(())
}

/// The first literal of a clause that is not false.
fn open_literal(falses: &FalseSet, clause: &[Lit]) -> Option<Lit>
    requires { All (IsWithin falses.now.size) clause.now }
    ensures { IfSome result (IsWithin falses.now.size) }
{
    for l in clause {
        if !falses.is_false(*l) {
            return Some(*l);
        }
    }
    None
}

/// Makes the first literal of a clause that is not false true, and what follows from that.
fn make_open_true(
    representatives: &Representatives,
    clause: &[Lit],
    falses: &mut FalseSet,
    hints: &mut Vec<i64>,
) -> Result<(), AllocError>
    requires small { falses.old.size ≤ LITERAL_LIMIT }
    requires within { All (IsWithin falses.old.size) clause.now }
    ensures { falses.new.size ≡ falses.old.size }
{
    let Some(l) = open_literal(falses, clause) else {
        return Ok(());
    };
    falses.put(l.negation())?;
    if l.is_positive() {
        return Ok(());
    }
    go_up(representatives, l.variable(), falses, hints)
}

/// One hint more, behind those that make the negations of implied variables in its clause false.
fn expand_hint(
    representatives: &Representatives,
    clause: &[Lit],
    hint: i64,
    falses: &mut FalseSet,
    hints: &mut Vec<i64>,
) -> Result<(), AllocError>
    requires small { falses.old.size ≤ LITERAL_LIMIT }
    requires within { All (IsWithin falses.old.size) clause.now }
    ensures { falses.new.size ≡ falses.old.size }
{
    for l in clause {
        reach(representatives, *l, falses, hints)?;
    }
    hints.push(hint)?;
    make_open_true(representatives, clause, falses, hints)
}

/// The hints over the formula that lead where these lead over the representatives, from the
/// literals of a clause as the false ones. Nothing is promised of them: they are judged behind.
pub(crate) fn expand(
    representatives: &Representatives,
    live: &LiveClauses<'_>,
    clause: &[Lit],
    old: &[i64],
    falses: &mut FalseSet,
    hints: &mut Vec<i64>,
) -> Result<(), AllocError>
    requires small { falses.old.size ≤ LITERAL_LIMIT }
    requires size { falses.old.size ≡ live.now.vars }
    requires within { All (IsWithin falses.old.size) clause.now }
    ensures { falses.new.size ≡ falses.old.size }
{
    falses.clear();
    falses.put_all(clause)?;
    hints.clear();
    for hint in old {
        let Some(named) = live.named(*hint) else {
            continue;
        };
        expand_hint(representatives, named, *hint, falses, hints)?;
    }
    Ok(())
}
