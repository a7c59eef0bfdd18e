//! The line of JSON.
ghost use Rattle.std.specs.Prelude.{◌≡◌, IfOk, string_bytes};
ghost use Rattle.serde_json.specs.View.{view};
ghost use Rattle.run_stats.specs.Data.{formula_data, log_data, number_data, problem_data, route_data, stages_data, stats_data, stats_line};

use crate::problem_size::ProblemSize;
use crate::sizes::{FormulaSize, LogSize, RouteSize};
use crate::stats::{Stages, Stats};
use serde_json::{Value, json};
use std::alloc::{AllocError, Global};

/// The line of JSON that has the numbers of a run, with the newline at its end: an object, whose
/// members stand in the order of their names. What is not known is null.
///
/// # Errors
/// Where memory is short.
pub fn stats_line(alloc: Global, stats: &Stats) -> Result<String, AllocError>
    ensures { IfOk result (λ line. string_bytes line ≡ stats_line stats.now) }
{
    let value = stats_value(alloc, stats)?;
    let mut line = value.to_string(alloc)?;
    line.push_str("\n")?;
    Ok(line)
}

// All numbers.
fn stats_value(alloc: Global, stats: &Stats) -> Result<Value, AllocError>
    ensures { IfOk result (λ value. view value ≡ stats_data stats.now) }
{
    let formula = formula_value(alloc, stats.formula)?;
    let kibibytes = stages_value(alloc, stats.kibibytes)?;
    let log = log_value(alloc, stats.log)?;
    let milliseconds = stages_value(alloc, stats.milliseconds)?;
    let problem = problem_value(alloc, stats.problem)?;
    let restarts = number_value(stats.restarts);
    let rounds = number_value(stats.rounds);
    let route = route_value(alloc, stats.route)?;
    let width = number_value(stats.width);
    json!(in alloc; {
        "formula": formula,
        "kibibytes": kibibytes,
        "log": log,
        "milliseconds": milliseconds,
        "problem": problem,
        "restarts": restarts,
        "rounds": rounds,
        "route": route,
        "width": width
    })
}

// A number, or null where it is not known.
fn number_value(number: Option<u64>) -> Value
    ensures { view result ≡ number_data number }
{
    match number {
        Some(number) => Value::from(number),
        None => Value::Null,
    }
}

// How large the problem is.
fn problem_value(alloc: Global, size: Option<ProblemSize>) -> Result<Value, AllocError>
    ensures { IfOk result (λ value. view value ≡ problem_data size) }
{
    let Some(size) = size else {
        return Ok(Value::Null);
    };
    json!(in alloc; {
        "fullest_cell": size.fullest_cell,
        "greatest_crowd": size.greatest_crowd,
        "pairs": size.pairs,
        "slots": size.slots,
        "steps": size.steps
    })
}

// How large the clauses are.
fn formula_value(alloc: Global, size: Option<FormulaSize>) -> Result<Value, AllocError>
    ensures { IfOk result (λ value. view value ≡ formula_data size) }
{
    let Some(size) = size else {
        return Ok(Value::Null);
    };
    json!(in alloc; {"clauses": size.clauses, "variables": size.variables})
}

// How large the log is.
fn log_value(alloc: Global, size: Option<LogSize>) -> Result<Value, AllocError>
    ensures { IfOk result (λ value. view value ≡ log_data size) }
{
    let Some(size) = size else {
        return Ok(Value::Null);
    };
    json!(in alloc; {"deleted": size.deleted, "hints": size.hints, "learned": size.learned})
}

// How large the route is.
fn route_value(alloc: Global, size: Option<RouteSize>) -> Result<Value, AllocError>
    ensures { IfOk result (λ value. view value ≡ route_data size) }
{
    let Some(size) = size else {
        return Ok(Value::Null);
    };
    json!(in alloc; {"tracks_used": size.tracks_used, "wire_length": size.wire_length})
}

// The number of each stage.
fn stages_value(alloc: Global, stages: Stages) -> Result<Value, AllocError>
    ensures { IfOk result (λ value. view value ≡ stages_data stages) }
{
    let clauses = number_value(stages.clauses);
    let reading = number_value(stages.reading);
    let run = number_value(stages.run);
    let search = number_value(stages.search);
    json!(in alloc; {"clauses": clauses, "reading": reading, "run": run, "search": search})
}
