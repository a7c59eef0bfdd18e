//! What is printed of a search.
use desk_io::{MemShelf, Shelf};
use sat_clause::Log;
use sat_core::Answer;
use sat_text::write_lrat;
use std::alloc::Global;
use std::io;

// A longer log is summed up.
const PRINTED: u64 = 8;

/// Prints what was answered, and the log.
pub(crate) fn print_found(
    rt: &impl Print,
    alloc: Global,
    answer: &Answer,
    log: &Log,
) -> io::Result<()> {
    print_answer(rt, answer)?;
    if log.len() <= PRINTED {
        return print_log(rt, alloc, log);
    }
    let steps = log.len();
    let sum = sum_of(log);
    println!(rt; "{steps} steps, sum {sum}")
}

// Prints the values that were found, that of variable 1 first, or that there are none.
fn print_answer(rt: &impl Print, answer: &Answer) -> io::Result<()> {
    match answer {
        Answer::Model(values) => print_values(rt, values),
        Answer::Refuted => println!(rt; "refuted"),
        Answer::Spent => println!(rt; "spent"),
        Answer::Stopped => println!(rt; "stopped"),
    }
}

// Prints values as ones and zeros.
fn print_values(rt: &impl Print, values: &[bool]) -> io::Result<()> {
    for value in values {
        rt.write_all(if *value { b"1" } else { b"0" })?;
    }
    println!(rt; "")
}

// Prints the text of a log.
fn print_log(rt: &impl Print, alloc: Global, log: &Log) -> io::Result<()> {
    let mut shelf = MemShelf::new(alloc, Vec::new(alloc));
    let Ok(()) = shelf.create("log") else {
        return println!(rt; "no log");
    };
    let Ok(()) = write_lrat(log, &mut shelf) else {
        return println!(rt; "no log");
    };
    rt.write_all(shelf.file("log").unwrap_or(b"no log"))
}

// A sum to which one more number comes.
fn with(sum: i64, number: i64) -> i64 {
    (sum ^ number).wrapping_mul(0x100000001b3)
}

// A sum over all numbers of a log's text, in order.
fn sum_of(log: &Log) -> i64 {
    let mut sum = 0x6bf29ce484222325;
    for k in 0..log.len() {
        let step = log.step(k);
        sum = with(sum, i64::from(step.id));
        for l in step.lits {
            sum = with(sum, i64::from(l.code));
        }
        if !step.erase {
            sum = with(sum, 0);
        }
        for hint in step.hints {
            sum = with(sum, *hint);
        }
        sum = with(sum, 0);
    }
    sum
}
