//! What is wrong with a line, or with a whole text, for each code of a fault or a limit.
ghost use Rattle.std.specs.Prelude.{◌≡◌, IfSome, IsTrue, is_some};
ghost use Rattle.std.specs.Option.{option_copied};
ghost use Rattle.code_words.specs.Causes.{
  architecture_phrase,
  cause_phrase,
  clause_phrase,
  fit_phrase,
  judge_phrase,
  log_phrase,
  model_phrase,
  netlist_phrase,
  placement_phrase,
  route_phrase,
  size_phrase,
  within_reach_phrase,
};
ghost use Rattle.code_words.specs.Codes.{
  is_architecture_code,
  is_clause_code,
  is_code,
  is_fit_code,
  is_judge_code,
  is_log_code,
  is_model_code,
  is_netlist_code,
  is_placement_code,
  is_route_code,
  is_size_code,
};
ghost use Rattle.code_words.specs.Phrases.{is_phrase};

use crate::phrases::*;

/// What a code says of the line that is told with it, or of the number that passes a limit. It is a
/// phrase of printable ASCII on one line, with no stop at its end, and None of any other number.
pub fn cause(code: u32) -> Option<&'static str>
    ensures says { option_copied result ≡ cause_phrase code }
    ensures there { is_some result ≡ is_code code }
    ensures phrase { IfSome result (λ words. IsTrue (is_phrase words.now)) }
{
    match code / 100 {
        1 => architecture_cause(code),
        2 => netlist_cause(code),
        3 => placement_cause(code),
        4 => route_cause(code),
        5 => fit_cause(code),
        6 => clause_cause(code),
        7 => log_cause(code),
        8 => judge_cause(code),
        10 => model_cause(code),
        _ => size_cause(code),
    }
}

fn architecture_cause(code: u32) -> Option<&'static str>
    ensures says { option_copied result ≡ architecture_phrase code }
    ensures there { is_some result ≡ is_architecture_code code }
    ensures phrase { IfSome result (λ words. IsTrue (is_phrase words.now)) }
{
    match code {
        101 => Some(ARCHITECTURE_MISSING_LINE),
        102 => Some(ARCHITECTURE_NO_NUMBER),
        103 => Some(ARCHITECTURE_PIN_FORM),
        104 => Some(ARCHITECTURE_SEGMENT_LENGTH),
        105 => Some(ARCHITECTURE_NOT_UNIFORM),
        106 => Some(ARCHITECTURE_OTHER_WIDTH),
        107 => Some(ARCHITECTURE_NO_PATTERN),
        108 => Some(ARCHITECTURE_MIXED_CLASS),
        109 => Some(ARCHITECTURE_PAST_LIMIT),
        110 => Some(ARCHITECTURE_REPEATED),
        111 => Some(ARCHITECTURE_SPARSE_SEGMENT),
        _ => None,
    }
}

fn netlist_cause(code: u32) -> Option<&'static str>
    ensures says { option_copied result ≡ netlist_phrase code }
    ensures there { is_some result ≡ is_netlist_code code }
    ensures phrase { IfSome result (λ words. IsTrue (is_phrase words.now)) }
{
    match code {
        201 => Some(NETLIST_LINE_FORM),
        202 => Some(NETLIST_PIN_COUNT),
        203 => Some(NETLIST_SAME_NAME),
        204 => Some(NETLIST_DRIVERS),
        205 => Some(NETLIST_NO_SINK),
        206 => Some(NETLIST_GLOBAL_PIN),
        207 => Some(NETLIST_SHARED_CLASS),
        208 => Some(NETLIST_NO_PINLIST),
        209 => Some(NETLIST_PAST_LIMIT),
        _ => None,
    }
}

fn placement_cause(code: u32) -> Option<&'static str>
    ensures says { option_copied result ≡ placement_phrase code }
    ensures there { is_some result ≡ is_placement_code code }
    ensures phrase { IfSome result (λ words. IsTrue (is_phrase words.now)) }
{
    match code {
        301 => Some(PLACEMENT_HEAD_FORM),
        302 => Some(PLACEMENT_NO_NUMBER),
        303 => Some(PLACEMENT_UNKNOWN_BLOCK),
        304 => Some(PLACEMENT_REPEATED_BLOCK),
        305 => Some(PLACEMENT_MISSING_BLOCK),
        306 => Some(PLACEMENT_UNLAWFUL_PLACE),
        307 => Some(PLACEMENT_SHARED_SPOT),
        308 => Some(PLACEMENT_PAST_LIMIT),
        _ => None,
    }
}

fn route_cause(code: u32) -> Option<&'static str>
    ensures says { option_copied result ≡ route_phrase code }
    ensures there { is_some result ≡ is_route_code code }
    ensures phrase { IfSome result (λ words. IsTrue (is_phrase words.now)) }
{
    match code {
        401 => Some(ROUTE_HEAD_FORM),
        402 => Some(ROUTE_LINE_FORM),
        403 => Some(ROUTE_NO_NUMBER),
        404 => Some(ROUTE_SPANNED_CHANNEL),
        405 => Some(ROUTE_STRAY_ELEMENT),
        406 => Some(ROUTE_NO_PLACE),
        407 => Some(ROUTE_PAST_LIMIT),
        _ => None,
    }
}

fn fit_cause(code: u32) -> Option<&'static str>
    ensures says { option_copied result ≡ fit_phrase code }
    ensures there { is_some result ≡ is_fit_code code }
    ensures phrase { IfSome result (λ words. IsTrue (is_phrase words.now)) }
{
    match code {
        501 => Some(FIT_OTHER_ARRAY),
        502 => Some(FIT_MISSING_NET),
        503 => Some(FIT_UNKNOWN_NET),
        504 => Some(FIT_REPEATED_NET),
        505 => Some(FIT_OTHER_SOURCE),
        506 => Some(FIT_OTHER_SINK),
        507 => Some(FIT_SINK_NOT_ONCE),
        508 => Some(FIT_OTHER_PIN),
        509 => Some(FIT_PIN_APART),
        510 => Some(FIT_CELLS_APART),
        511 => Some(FIT_REPEATED_ELEMENT),
        512 => Some(FIT_LOOSE_BRANCH),
        513 => Some(FIT_SHARED_PIN),
        514 => Some(FIT_OUT_OF_ORDER),
        515 => Some(FIT_PAST_LIMIT),
        _ => None,
    }
}

fn clause_cause(code: u32) -> Option<&'static str>
    ensures says { option_copied result ≡ clause_phrase code }
    ensures there { is_some result ≡ is_clause_code code }
    ensures phrase { IfSome result (λ words. IsTrue (is_phrase words.now)) }
{
    match code {
        601 => Some(CLAUSE_HEAD_FORM),
        602 => Some(CLAUSE_CNF_NUMBER),
        603 => Some(CLAUSE_VARIABLE),
        604 => Some(CLAUSE_CLAUSE_COUNT),
        605 => Some(CLAUSE_SIZE_LIMIT),
        _ => None,
    }
}

fn log_cause(code: u32) -> Option<&'static str>
    ensures says { option_copied result ≡ log_phrase code }
    ensures there { is_some result ≡ is_log_code code }
    ensures phrase { IfSome result (λ words. IsTrue (is_phrase words.now)) }
{
    match code {
        701 => Some(LOG_STEP_NUMBER),
        702 => Some(LOG_STEP_FORM),
        703 => Some(LOG_ID_ORDER),
        704 => Some(LOG_HINT_SIGN),
        705 => Some(LOG_NUMBER_LIMIT),
        _ => None,
    }
}

fn judge_cause(code: u32) -> Option<&'static str>
    ensures says { option_copied result ≡ judge_phrase code }
    ensures there { is_some result ≡ is_judge_code code }
    ensures phrase { IfSome result (λ words. IsTrue (is_phrase words.now)) }
{
    match code {
        801 => Some(JUDGE_NOT_CONNECTED),
        802 => Some(JUDGE_PAST_WIDTH),
        803 => Some(JUDGE_SHARED_WIRE),
        804 => Some(JUDGE_OFF_TRACE),
        805 => Some(JUDGE_REPEATED_CELL),
        806 => Some(JUDGE_MISSING_SINK),
        807 => Some(JUDGE_UNFIT),
        808 => Some(JUDGE_PAST_REACH),
        _ => None,
    }
}

/// What a code says of the line of a routed file that is judged within a reach: what `cause` says,
/// but of a code that then holds elsewhere.
pub fn cause_within_reach(code: u32) -> Option<&'static str>
    ensures says { option_copied result ≡ within_reach_phrase code }
    ensures there { is_some result ≡ is_code code }
    ensures phrase { IfSome result (λ words. IsTrue (is_phrase words.now)) }
{
    match code {
        805 => Some(JUDGE_REPEATED_WIRE),
        _ => cause(code),
    }
}

fn model_cause(code: u32) -> Option<&'static str>
    ensures says { option_copied result ≡ model_phrase code }
    ensures there { is_some result ≡ is_model_code code }
    ensures phrase { IfSome result (λ words. IsTrue (is_phrase words.now)) }
{
    match code {
        1001 => Some(MODEL_NONE_FOUND),
        1002 => Some(MODEL_NUMBER),
        1003 => Some(MODEL_BEHIND_END),
        1004 => Some(MODEL_VARIABLE),
        1005 => Some(MODEL_BOTH_WAYS),
        1006 => Some(MODEL_NO_END),
        _ => None,
    }
}

fn size_cause(code: u32) -> Option<&'static str>
    ensures says { option_copied result ≡ size_phrase code }
    ensures there { is_some result ≡ is_size_code code }
    ensures phrase { IfSome result (λ words. IsTrue (is_phrase words.now)) }
{
    match code {
        901 => Some(SIZE_FORMULA_CLAUSES),
        903 => Some(SIZE_GENERATED_NETS),
        904 => Some(SIZE_CLAUSES_OF_TURNS),
        911..=918 => Some(FILE_SIZE),
        _ => None,
    }
}
