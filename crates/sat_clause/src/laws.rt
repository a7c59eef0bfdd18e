//! Laws over the definitions, as functions that do nothing: each contract is the law.

ghost use Rattle.std.specs.Prelude.{◌≡◌, ℕ, suc, ◌*◌, ◌<◌, ◌≤◌, ◌^◌, false, All, List, length};
ghost use Rattle.sat_clause.specs.Formula.{Cnf, IsUnsat};
ghost use Rattle.sat_clause.specs.Judge.{Accepts, is_empty_clause};
ghost use Rattle.sat_clause.specs.Learned.{AreAddedFrom, AreDifferent, LearnedNew, Sparse, added_count, deletions};
ghost use Rattle.sat_clause.specs.Literal.{Clause};
ghost use Rattle.sat_clause.specs.Step.{Step};

/// Where the judge accepts a log, no list of truth values satisfies the formula.
#[tactic(auto, using(crate::proofs::Refutes::refutes))]
pub fn accepted_is_unsat()
    ensures { (formula : Cnf) (log : List Step) → Accepts formula log → IsUnsat formula }
{}

/// Of `n` variables there are fewer than `3 ^ n` clauses that are not empty, have no variable
/// twice, and of which no two have the same literals.
#[tactic(auto, using(crate::proofs::Counting::few_different))]
pub fn different_clauses_are_few()
    ensures { (n : ℕ) (clauses : List Clause) → AreDifferent n clauses
        → length clauses < 3 ^ n }
{}

/// Of a log that adds new clauses, none of them empty, and deletes seldom: for a formula of `n`
/// variables fewer than `3 ^ n` are added before the first deletion, between two, and behind the
/// last, and there are at most `3 ^ n / 1000` deletions.
pub fn new_clauses_are_few()
    ensures { (formula : Cnf) (log : List Step) (id : ℕ) → LearnedNew formula log
        → AreAddedFrom id log → All (λ step. is_empty_clause step ≡ false) log → Sparse log
        → (added_count log < 3 ^ formula.vars * suc (deletions log))
        × (1000 * deletions log ≤ 3 ^ formula.vars) }
{}
