//! The commands: how each is named, its form, and the job that its words say.
ghost use Rattle.std.specs.Prelude.{◌≡◌, IfOk, option_map};
ghost use Rattle.clap.specs.Words.{app_of, found_of, rows_of};
ghost use Rattle.router_words.specs.Command.{command_named, row_of};
ghost use Rattle.router_words.specs.Job.{job_said};
ghost use Rattle.router_words.specs.Results.{map_ok};
ghost use Rattle.router_words.specs.Taken.{HasRequired};

use crate::fault::Refusal;
use crate::form::{
    bound_command, check_command, core_command, decode_command, encode_command, gen_command,
    global_command, judge_command, least_command, search_command, trial_command, verify_command,
};
use crate::from_matches::{
    bound_job, check_job, core_job, decode_job, encode_job, gen_job, global_job, judge_job,
    least_job, route_job, sweep_job, trial_job, verify_job,
};
use crate::job::Job;
use clap::{ArgMatches, Command};
use std::alloc::{AllocError, Global};

/// A command.
#[derive(Clone, Copy)]
pub enum CommandName {
    Route,
    Sweep,
    Encode,
    Decode,
    Core,
    Check,
    Verify,
    Judge,
    Bound,
    Global,
    Least,
    Gen,
    Trial,
}

impl CommandName {
    /// The command that a word names.
    pub fn of_word(word: &str) -> Option<CommandName>
        ensures { option_map row_of result ≡ command_named word.now }
    {
        if word == "route" {
            return Some(CommandName::Route);
        }
        if word == "sweep" {
            return Some(CommandName::Sweep);
        }
        if word == "encode" {
            return Some(CommandName::Encode);
        }
        if word == "decode" {
            return Some(CommandName::Decode);
        }
        if word == "core" {
            return Some(CommandName::Core);
        }
        if word == "check" {
            return Some(CommandName::Check);
        }
        if word == "verify" {
            return Some(CommandName::Verify);
        }
        if word == "judge" {
            return Some(CommandName::Judge);
        }
        if word == "bound" {
            return Some(CommandName::Bound);
        }
        if word == "global" {
            return Some(CommandName::Global);
        }
        if word == "least" {
            return Some(CommandName::Least);
        }
        if word == "gen" {
            return Some(CommandName::Gen);
        }
        if word == "trial" {
            return Some(CommandName::Trial);
        }
        None
    }

    /// Its form.
    pub fn form<'a>(self, alloc: Global) -> Result<Command<'a>, AllocError>
        ensures { IfOk result (λ c. app_of c ≡ (row_of self).form) }
    {
        match self {
            CommandName::Route => search_command(alloc, "route"),
            CommandName::Sweep => search_command(alloc, "sweep"),
            CommandName::Encode => encode_command(alloc),
            CommandName::Decode => decode_command(alloc),
            CommandName::Core => core_command(alloc),
            CommandName::Check => check_command(alloc),
            CommandName::Verify => verify_command(alloc),
            CommandName::Judge => judge_command(alloc),
            CommandName::Bound => bound_command(alloc),
            CommandName::Global => global_command(alloc),
            CommandName::Least => least_command(alloc),
            CommandName::Gen => gen_command(alloc),
            CommandName::Trial => trial_command(alloc),
        }
    }

    /// The job that the matches of its form say, or why they say none.
    pub fn job<'a>(self, matches: &ArgMatches<'a>) -> Result<Job<'a>, Refusal>
        requires { HasRequired (row_of self).form (rows_of (found_of matches.now)) }
        ensures { map_ok job_said result ≡ (row_of self).job (rows_of (found_of matches.now)) }
    {
        match self {
            CommandName::Route => route_job(matches),
            CommandName::Sweep => sweep_job(matches),
            CommandName::Encode => encode_job(matches),
            CommandName::Decode => decode_job(matches),
            CommandName::Core => core_job(matches),
            CommandName::Check => check_job(matches),
            CommandName::Verify => verify_job(matches),
            CommandName::Judge => judge_job(matches),
            CommandName::Bound => bound_job(matches),
            CommandName::Global => global_job(matches),
            CommandName::Least => least_job(matches),
            CommandName::Gen => gen_job(matches),
            CommandName::Trial => trial_job(matches),
        }
    }
}
