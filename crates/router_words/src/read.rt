//! The words of a command, read.
ghost use Rattle.std.specs.Prelude.{◌≡◌, IfOk, IfSome};
ghost use Rattle.router_words.specs.Command.{Answers, AreThere, HasItsWords, command_named, job_behind, job_of, unless_overwriting, words_ask_stats};
ghost use Rattle.router_words.specs.Job.{job_said};
ghost use Rattle.router_words.specs.Word.{words_of};

use crate::command_name::CommandName;
use crate::fault::{Refusal, WordsFault};
use crate::job::Job;
use crate::matched::take;
use crate::overwriting::overwrites;
use std::alloc::{AllocError, Global};

// Reads the words behind the name of a command.
fn read_command<'a>(alloc: Global, name: &str, words: &'a [String]) -> Result<Job<'a>, WordsFault>
    ensures answers { Answers (job_behind name.now (words_of words.entry.now)) result }
    ensures there { IfOk result (λ _. IfSome (command_named name.now) (λ command.
        HasItsWords command (words_of words.entry.now))) }
{
    let Some(command) = CommandName::of_word(name) else {
        return Err(WordsFault::Refused(Refusal::Command));
    };
    let Ok(form) = command.form(alloc) else {
        return Err(WordsFault::Memory);
    };
    let matches = match take(form, words) {
        Ok(matches) => matches,
        Err(fault) => return Err(fault),
    };
    match command.job(&matches) {
        Ok(job) => kept_apart(alloc, job),
        Err(refusal) => Err(WordsFault::Refused(refusal)),
    }
}

// The job, unless a file that it may write is one that it reads.
fn kept_apart<'a>(alloc: Global, job: Job<'a>) -> Result<Job<'a>, WordsFault>
    ensures { Answers (unless_overwriting (job_said job.entry)) result }
{
    match overwrites(alloc, &job) {
        Ok(false) => Ok(job),
        Ok(true) => Err(WordsFault::Refused(Refusal::Overwriting)),
        Err(_) => Err(WordsFault::Memory),
    }
}

/// Reads the words of a command, those after the program's name. `Refused` has the least cause that
/// holds, and `Memory` comes where memory is short.
pub fn read_words<'a>(alloc: Global, words: &'a [String]) -> Result<Job<'a>, WordsFault>
    ensures answers { Answers (job_of (words_of words.entry.now)) result }

    // No word of the job is made up: each name that the form requires has one.
    ensures there { IfOk result (λ _. AreThere (words_of words.entry.now)) }
{
    let [name, others @ ..] = words else {
        return Err(WordsFault::Refused(Refusal::Command));
    };
    read_command(alloc, name.as_str(), others)
}

/// Whether the words of a command ask for the numbers of the run.
///
/// # Errors
/// Where memory is short.
pub fn asks_stats(alloc: Global, words: &[String]) -> Result<bool, AllocError>
    ensures { IfOk result (λ asks. asks ≡ words_ask_stats (words_of words.now)) }
{
    match read_words(alloc, words) {
        Ok(job) => Ok(job.asks_stats()),
        Err(WordsFault::Refused(_)) => Ok(false),
        Err(WordsFault::Memory) => Err(AllocError),
    }
}
