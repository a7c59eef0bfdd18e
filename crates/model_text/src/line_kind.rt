//! What the lines of a model text are for.
ghost use Rattle.std.specs.Prelude.{◌≡◌};
ghost use Rattle.model_text.specs.LineKinds as spec;
ghost use Rattle.model_text.specs.LineKinds.{begins_with_c, behind_v};

use fpga_text::{Line, is_text};

/// What a line of a model text is for.
#[derive(Clone, Copy)]
pub enum LineKind {
    /// It is a comment, or says that there is a model.
    Passed,
    /// It says that none was found.
    Denial,
    /// It has literals.
    Values,
}

/// What a line is for, of which no word was taken yet.
pub fn kind_of(line: &Line<'_>) -> LineKind
    ensures { result ≡ spec.kind_of line.now.words }
{
    if is_comment(line) || claims_model(line) {
        return LineKind::Passed;
    }
    if claims_none(line) {
        return LineKind::Denial;
    }
    LineKind::Values
}

/// Whether the first word begins with a `c`.
fn is_comment(line: &Line<'_>) -> bool
    ensures { result ≡ spec.is_comment line.now.words }
{
    let mut words = line.again();
    match words.next_word() {
        Some(first) => begins_with_c(first.text),
        None => false,
    }
}

/// Whether the first byte of a word is `c`.
fn begins_with_c(word: &[u8]) -> bool
    ensures { result ≡ begins_with_c word.now }
{
    match word {
        [first, ..] => *first == b'c',
        [] => false,
    }
}

/// Whether the line is `SAT` or `s SATISFIABLE`.
fn claims_model(line: &Line<'_>) -> bool
    ensures { result ≡ spec.claims_model line.now.words }
{
    let mut words = line.again();
    let Some(first) = words.next_word() else {
        return false;
    };
    let Some(second) = words.next_word() else {
        return is_text(first.text, b"SAT");
    };
    if words.has_words() {
        return false;
    }
    is_text(first.text, b"s") && is_text(second.text, b"SATISFIABLE")
}

/// Whether the first word is one by which solvers say what they have found.
fn claims_none(line: &Line<'_>) -> bool
    ensures { result ≡ spec.claims_none line.now.words }
{
    let mut words = line.again();
    match words.next_word() {
        Some(first) => is_claim(first.text),
        None => false,
    }
}

/// Whether a word is `s`, `UNSAT` or `INDET`.
fn is_claim(word: &[u8]) -> bool
    ensures { result ≡ spec.is_claim word.now }
{
    if is_text(word, b"s") || is_text(word, b"UNSAT") {
        return true;
    }
    is_text(word, b"INDET")
}

/// Takes the `v` that a line may begin with.
pub fn skip_v(line: &mut Line<'_>)
    ensures { line.new ≡ record line.old { words = behind_v line.old.words } }
{
    let mut ahead = line.again();
    if ahead.next_is(b"v") {
        let _v = line.next_word();
    }
}
