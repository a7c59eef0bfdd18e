//! Runs of the router over tables in memory, as cases say what must come of them.
mod compare;
mod cut;
mod judge;
mod numbers;
mod parts;
mod row;
mod sections;
mod series;
mod stop;
mod texts;

use self::judge::judge_file;
use self::texts::Texts;
use crate::stop::RowsError;
use crate::text::text;
use desk_io::Desk;
use std::alloc::Global;

// The files of cases. The first says how they are written.
const FILES: [&str; 20] = [
    "cases/worked.rows",
    "cases/pinned.rows",
    "cases/symmetry.rows",
    "cases/count.rows",
    "cases/reach.rows",
    "cases/within.rows",
    "cases/failing_calls.rows",
    "cases/route_texts.rows",
    "cases/limits.rows",
    "cases/proof_texts.rows",
    "cases/resolution_logs.rows",
    "cases/routed_texts.rows",
    "cases/judged_texts.rows",
    "cases/members.rows",
    "cases/core.rows",
    "cases/bound.rows",
    "cases/global.rows",
    "cases/least.rows",
    "cases/decode.rows",
    "cases/limited.rows",
];

/// Prints each case that comes otherwise than its lines say, and last how many come as they say.
pub(crate) fn print_cases<D: Desk>(
    rt: &impl Print,
    alloc: Global,
    desk: &mut D,
) -> Result<(), RowsError> {
    let mut holding = 0u64;
    let mut others = 0u64;
    let mut cut = 0u64;
    let mut texts = Texts::new(alloc);
    for name in FILES {
        let cases = text(alloc, desk, name)?;
        let tally = judge_file(rt, alloc, &mut texts, cases.as_str())?;
        holding = holding.saturating_add(tally.holding);
        others = others.saturating_add(tally.others);
        cut = cut.saturating_add(tally.cut);
    }
    if others > 0 {
        println!(rt; "{others} rows differ")?;
    }
    println!(rt; "{holding} rows hold, and {cut} runs in which calls fail one after the other")?;
    Ok(())
}
