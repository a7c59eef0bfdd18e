//! Laws over the definitions, as functions that do nothing.
ghost use Rattle.std.specs.Prelude.{ℕ, List};
ghost use Rattle.sat_clause.specs.Formula.{Cnf};
ghost use Rattle.sat_clause.specs.Step.{Step};
ghost use Rattle.sat_text.specs.CnfText.{ReadsCnf};
ghost use Rattle.sat_text.specs.LratText.{ReadsLrat};
ghost use Rattle.sat_text.specs.Printed.{cnf_text, log_text};
ghost use Rattle.sat_text.specs.ReadBack.{IsPrintable, IsPrintableLog};

/// A formula that has as many variables and clauses as may be read, and literals of its variables
/// alone, is read as it is printed.
pub fn printed_formulas_read_back()
    ensures { (cnf : Cnf) → IsPrintable cnf → ReadsCnf (cnf_text cnf) cnf }
{}

/// A log whose numbers may be read, and whose added clauses have ids above the number of input
/// clauses and all earlier ones, is read as it is printed.
pub fn printed_logs_read_back()
    ensures { (inputs : ℕ) (log : List Step) → IsPrintableLog inputs log → ReadsLrat inputs
        (log_text log) log }
{}
