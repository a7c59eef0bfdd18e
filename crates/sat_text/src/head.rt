//! The head line of a CNF text.
ghost use Rattle.std.specs.Prelude.{◌≡◌, Some, option_map};
ghost use Rattle.fpga_text.specs.FirstFault.{AnswersFault};
ghost use Rattle.sat_text.specs.Bodies.{head_fault};
ghost use Rattle.sat_text.specs.CnfText.{head_words, head_of};

use crate::cause::Cause;
use crate::number::natural_of;
use fpga_text::{Coded, Line, TextFault};
use sat_clause::{CLAUSE_LIMIT, VARIABLE_LIMIT};

/// How many variables a CNF text may have.
pub const MOST_VARIABLES: u64 = VARIABLE_LIMIT as u64;

/// How many clauses a CNF text may have.
pub const MOST_CLAUSES: u64 = CLAUSE_LIMIT;

/// The numbers of variables and of clauses that a head line says.
#[derive(Clone, Copy)]
pub struct Head {
    pub vars: u32,
    pub clauses: u32,
}

/// The words of a head line where its numbers are due.
#[derive(Clone, Copy)]
struct HeadLine<'a> {
    vars: &'a [u8],
    clauses: &'a [u8],
}

/// These words, where the line has the form of a head line.
fn head_line<'a>(line: &mut Line<'a>) -> Option<HeadLine<'a>>
    ensures { option_map (λ l. record { vars = l.vars.now; clauses = l.clauses.now }) result
        ≡ head_words line.old.words }
{
    let (Some(p), Some(cnf)) = (line.next_word(), line.next_word()) else {
        return None;
    };
    let (Some(vars), Some(clauses)) = (line.next_word(), line.next_word()) else {
        return None;
    };
    if line.has_words() || p.text != b"p".as_slice() || cnf.text != b"cnf".as_slice() {
        return None;
    }
    Some(HeadLine {
        vars: vars.text,
        clauses: clauses.text,
    })
}

/// What a head line says, or why it is refused.
pub fn read_head(line: &mut Line<'_>) -> Result<Head, TextFault>
    ensures { AnswersFault (head_fault line.old)
        (λ head. head_of line.old.words ≡ Some head) result }
{
    let number = line.number();
    let Some(words) = head_line(line) else {
        return Err(Cause::HeadForm.at(number));
    };
    let (Some(vars), Some(clauses)) = (natural_of(words.vars), natural_of(words.clauses)) else {
        return Err(Cause::CnfNumber.at(number));
    };
    if vars > MOST_VARIABLES {
        return Err(Cause::SizeLimit.past(vars));
    }
    if clauses > MOST_CLAUSES {
        return Err(Cause::SizeLimit.past(clauses));
    }
    Ok(Head {
        vars: vars as u32,
        clauses: clauses as u32,
    })
}
