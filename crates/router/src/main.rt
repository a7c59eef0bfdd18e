//! The program: runs the router on the words that it is given, over real files, and says on
//! standard error what it came to where that was not what was asked for, and why a bound is one.
#![tactic(auto)]

mod memory;
mod meter;
mod progress;
mod stopwatch;

use crate::progress::ProgressShelf;
use crate::stopwatch::Stopwatch;
use desk_io::{FileDesk, FileShelf};
use router_says::{SystemErrors, append_words};
use router_top::run;
use router_words::asks_stats;
use run_outcome::{Ran, status};
use run_stats::stats_line;
use std::io::IsTerminal;
use std::process::ExitCode;
use std::rt::{Clock, Env, Files};
use std::{env, io};

// The status where the system does not give the words.
const NO_WORDS: u8 = 8;

// The words after the program's name.
fn given_words(rt: &(impl Env + AllocGlobal)) -> io::Result<Vec<String>> {
    let mut words = Vec::new(rt.alloc());
    for word in env::args(rt)?.skip(1) {
        words.push(word)?;
    }
    Ok(words)
}

// Whether the files of each width are told as they are written: to who looks at a terminal, or
// where the environment asks for it.
fn tells_progress(rt: &HostRuntime) -> bool {
    if let Ok(word) = env::var(rt, "GAFKELAM_PROGRESS") {
        return word.as_str() == "1";
    }
    rt.stderr().is_terminal()
}

// Says what the run came to, if there is memory for that and someone to take it.
fn say<R: Files + AllocGlobal + Eprint>(
    rt: &R,
    desk: &mut FileDesk<'_, R>,
    words: &[String],
    ran: &Ran,
    errors: SystemErrors,
) {
    let mut text = String::new(rt.alloc());
    let said = append_words(rt.alloc(), desk, &mut text, words, ran, errors);
    if said.is_ok() && !text.is_empty() {
        let _ = eprint!(rt; "{text}");
    }
}

// Says the numbers of the run behind all else, if they are asked for, and there is memory for that
// and someone to take them.
fn say_stats<R: AllocGlobal + Clock + Files + Eprint>(
    rt: &R,
    clock: &mut Stopwatch<'_, R>,
    ran: &Ran,
) {
    let Some(stats) = clock.end(rt.alloc(), &ran.problem) else {
        return;
    };
    if let Ok(line) = stats_line(rt.alloc(), &stats) {
        let _ = eprint!(rt; "{line}");
    }
}

// Runs the words, says what there is to say of that, and gives the status.
fn answer(rt: &HostRuntime, words: &[String]) -> ExitCode {
    let mut clock = Stopwatch::new(rt);
    if let Ok(true) = asks_stats(rt.alloc(), words) {
        clock.measure();
    }
    let mut desk = FileDesk::new(rt);
    let mut shelf = ProgressShelf::new(rt, FileShelf::new(rt), tells_progress(rt));
    let ran = run(rt.alloc(), words, &mut desk, &mut shelf, &mut clock);
    let errors = SystemErrors {
        reading: desk.last_error(),
        writing: shelf.shelf().file_error(),
        saying: shelf.shelf().say_error(),
    };
    say(rt, &mut desk, words, &ran, errors);
    say_stats(rt, &mut clock, &ran);
    ExitCode::from(status(&ran.outcome))
}

fn main(rt: HostRuntime) -> ExitCode {
    match given_words(&rt) {
        Ok(words) => answer(&rt, &words),
        Err(_) => ExitCode::from(NO_WORDS),
    }
}
