//! Which variables follow from another one.

ghost use Rattle.std.specs.Prelude.{◌≡◌, ◌↔◌, ◌+◌, ◌<◌, ◌≤◌, ℕ, IfOk, IfSome, IsTrue, All, length};
ghost use Rattle.sat_clause.specs.Literal.{IsLiteral, IsWithin};
ghost use Rattle.sat_merge.specs.Representatives.{keeps, is_representative};
ghost use Rattle.sat_merge.specs.Rewritten.{AreKept};

use sat_clause::{Formula, Lit};
use std::alloc::{AllocError, Global};
use std::marker::Model;

/// A formula of fewer variables is searched as it is: its clauses lie close together anyway, and on
/// rings more were learned over representatives.
const FEW_VARIABLES: usize = 1000;

/// A variable, and what implies it.
#[derive(Clone, Copy)]
pub(crate) struct ImpliedVariable {
    /// The variable at the head of its row: where that one is true, so is it. Itself, where it
    /// follows from none.
    pub(crate) representative: u32,
    /// The variable before it in the row; itself where it represents others, else 0.
    pub(crate) before: u32,
    /// The id of the clause by which it follows from that one, 0 where it is a representative.
    pub(crate) by: u32,
    /// How many such clauses lead to it from its representative.
    pub(crate) steps: u32,
    /// The id of the first clause of three or more literals in which it stands without a negation,
    /// 0 where there is none.
    pub(crate) choice: u32,
}

/// The variables of a formula, from 0 on, of which some follow from another one by clauses of two
/// literals, the one negated: where the one variable is true, so is the other.
#[derive(Drop)]
pub(crate) struct Representatives {
    implied: Vec<ImpliedVariable>,
    many: u32,
}

impl Model for Representatives {
    ghost use Rattle.std.specs.Prelude.{List};
    ghost use Rattle.sat_merge.specs.declared.representatives.ImpliedVariable.{ImpliedVariable};

    ghost Value = { List ImpliedVariable };

    ghost view = { λ l. l.implied.items };
}

/// The variable that is to be true, and the one that is true then, where the clause says just that.
fn step_of(clause: &[Lit]) -> Option<(u32, u32)> {
    if clause.len() != 2 {
        return None;
    }
    let first = clause[0];
    let second = clause[1];
    if first.is_positive() == second.is_positive() || first.variable() == second.variable() {
        return None;
    }
    if first.is_positive() {
        return Some((second.variable(), first.variable()));
    }
    Some((first.variable(), second.variable()))
}

impl Representatives {
    /// The variables 0 to a number, none of which follows from another one.
    fn alone(alloc: Global, vars: u32) -> Result<Representatives, AllocError>
        requires { vars < 4294967295 }
        ensures { IfOk result (λ l. length l ≡ vars + 1) }
    {
        let mut implied = Vec::new(alloc);
        for variable in 0..vars + 1 {
            implied.push(ImpliedVariable {
                representative: variable,
                before: 0,
                by: 0,
                steps: 0,
                choice: 0,
            })?;
        }
        Ok(Representatives { implied, many: 0 })
    }

    /// What is known of a variable, where there is such a one.
    pub(crate) fn get(&self, variable: u32) -> Option<ImpliedVariable> {
        let at = variable as usize;
        if at < self.implied.len() {
            return Some(self.implied[at]);
        }
        None
    }

    /// How many clauses lead to a variable from its representative.
    pub(crate) fn steps(&self, variable: u32) -> u32 {
        match self.get(variable) {
            Some(implied) => implied.steps,
            None => 0,
        }
    }

    /// Whether the variable is a representative, if only of itself.
    pub(crate) fn is_representative(&self, variable: u32) -> bool
        ensures value { result ≡ is_representative self.now variable }
        ensures within { IsTrue result → variable < length self.now }
    {
        let at = variable as usize;
        at < self.implied.len() && self.implied[at].by == 0
    }

    /// The representative of a variable.
    pub(crate) fn representative(&self, variable: u32) -> Option<u32>
        ensures { IfSome result
            (λ representative. (1 ≤ representative) × (representative < length self.now)) }
    {
        let Some(implied) = self.get(variable) else {
            return None;
        };
        let representative = implied.representative;
        if representative == 0 || representative as usize >= self.implied.len() {
            return None;
        }
        Some(representative)
    }

    /// Whether all literals of a clause are of representatives.
    pub(crate) fn are_kept(&self, clause: &[Lit]) -> bool
        requires { All IsLiteral clause.now }
        ensures kept { IsTrue result ↔ AreKept (keeps self.now) clause.now }
        ensures within { IsTrue result → (vars : ℕ) → length self.now ≡ vars + 1
            → All (IsWithin vars) clause.now }
    {
        for l in clause {
            if !self.is_representative(l.variable()) {
                return false;
            }
        }
        true
    }

    /// Lets a variable follow from another one by a clause, unless it follows from one already, or
    /// others follow from it.
    fn imply(&mut self, first: u32, next: u32, id: u32)
        ensures { length self.new ≡ length self.old }
    {
        let (head, last) = (first as usize, next as usize);
        let count = self.implied.len();
        if head >= count || last >= count || self.implied[last].before != 0 {
            return;
        }
        if self.implied[head].before == 0 {
            self.implied[head].before = first;
        }
        let before = self.implied[head];
        self.implied[last].representative = before.representative;
        self.implied[last].before = first;
        self.implied[last].by = id;
        self.implied[last].steps = before.steps.saturating_add(1);
        self.many = self.many.saturating_add(1);
    }

    /// Notes for the literals of a clause that are not negated that they stand in it, unless they
    /// stand in an earlier one.
    fn choose(&mut self, clause: &[Lit], id: u32)
        ensures { length self.new ≡ length self.old }
    {
        for l in clause {
            let at = l.variable() as usize;
            if l.is_positive() && at < self.implied.len() && self.implied[at].choice == 0 {
                self.implied[at].choice = id;
            }
        }
    }

    /// Those of a formula. A variable follows from the first one that the clauses name, in their
    /// order.
    pub(crate) fn of(alloc: Global, formula: &Formula) -> Result<Representatives, AllocError>
        ensures { IfOk result (λ l. length l ≡ formula.now.cnf.vars + 1) }
    {
        let mut representatives = Representatives::alone(alloc, formula.vars())?;
        for at in 0..formula.len() {
            let clause = formula.clause(at);
            if let Some((first, next)) = step_of(clause) {
                representatives.imply(first, next, at + 1);
            } else if clause.len() > 2 {
                representatives.choose(clause, at + 1);
            }
        }
        Ok(representatives)
    }

    /// Whether there are enough variables, and most of them follow from another one. The list has
    /// one for variable 0 too, which no formula has.
    pub(crate) fn are_most(&self) -> bool {
        let count = self.implied.len();
        count > FEW_VARIABLES && self.many as usize >= count / 2
    }
}
