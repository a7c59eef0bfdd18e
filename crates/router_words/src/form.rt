//! The forms of the commands, as `clap` has them.
ghost use Rattle.std.specs.Prelude.{◌≡◌, IfOk, codes};
ghost use Rattle.clap.specs.Words.{app_of, rule_of};
ghost use Rattle.router_words.specs.Form.{bound_form, check_form, core_form, decode_form, empty_form, encode_form, gen_form, global_form, judge_form, least_form, search_form, trial_form, verify_form, with_effort, with_files, with_flag, with_members, with_negotiation, with_option, with_placed, with_recipe, with_search, with_symmetry, with_width_and_prefix, with_word};

use clap::{Arg, ArgAction, Command};
use std::alloc::{AllocError, Global};

// A command with no arguments yet. Its words begin behind its name.
fn named<'a>(alloc: Global, name: &'a str) -> Command<'a>
    ensures { app_of result ≡ empty_form name.entry.now }
{
    Command::new(alloc, name).no_binary_name(true)
}

// With one more word that has to be there.
fn add_word<'a>(
    alloc: Global,
    command: Command<'a>,
    name: &'a str,
) -> Result<Command<'a>, AllocError>
    ensures { IfOk result (λ c. app_of c ≡ with_word name.entry.now (app_of command.entry)) }
{
    let word = Arg::new(alloc, name).required(true).action(ArgAction::Set);
    command.arg(word)
}

// With one more option that has a value.
fn add_option<'a>(
    alloc: Global,
    command: Command<'a>,
    name: &'a str,
) -> Result<Command<'a>, AllocError>
    ensures { IfOk result (λ c. app_of c ≡ with_option name.entry.now (app_of command.entry)) }
{
    command.arg(Arg::new(alloc, name).long(name))
}

// With one more option that has none.
fn add_flag<'a>(
    alloc: Global,
    command: Command<'a>,
    name: &'a str,
) -> Result<Command<'a>, AllocError>
    ensures { IfOk result (λ c. app_of c ≡ with_flag name.entry.now (app_of command.entry)) }
{
    let flag = Arg::new(alloc, name).long(name).action(ArgAction::SetTrue);
    command.arg(flag)
}

// With the names of the files of a placed netlist.
fn add_placed<'a>(alloc: Global, command: Command<'a>) -> Result<Command<'a>, AllocError>
    ensures { IfOk result (λ c. app_of c ≡ with_placed (app_of command.entry)) }
{
    let command = add_word(alloc, command, "architecture")?;
    let command = add_word(alloc, command, "netlist")?;
    add_word(alloc, command, "placement")
}

// With the names of the files of a problem.
fn add_files<'a>(alloc: Global, command: Command<'a>) -> Result<Command<'a>, AllocError>
    ensures { IfOk result (λ c. app_of c ≡ with_files (app_of command.entry)) }
{
    let command = add_placed(alloc, command)?;
    add_word(alloc, command, "route")
}

// With the width, or the greatest one, and what the names of written files begin with.
fn add_width_and_prefix<'a>(alloc: Global, command: Command<'a>) -> Result<Command<'a>, AllocError>
    ensures { IfOk result (λ c. app_of c ≡ with_width_and_prefix (app_of command.entry)) }
{
    let command = add_word(alloc, command, "width")?;
    add_word(alloc, command, "prefix")
}

// With what a search is to do: how many clauses it learns, after how long it is stopped, whether it
// keeps all clauses, and whether it counts first.
fn add_effort<'a>(alloc: Global, command: Command<'a>) -> Result<Command<'a>, AllocError>
    ensures { IfOk result (λ c. app_of c ≡ with_effort (app_of command.entry)) }
{
    let command = add_option(alloc, command, "conflicts")?;
    let command = add_option(alloc, command, "seconds")?;
    let command = add_flag(alloc, command, "keep")?;
    add_flag(alloc, command, "count")
}

// With the width and the prefix, and what each search may be told.
fn add_search<'a>(alloc: Global, command: Command<'a>) -> Result<Command<'a>, AllocError>
    ensures { IfOk result (λ c. app_of c ≡ with_search (app_of command.entry)) }
{
    let command = add_width_and_prefix(alloc, command)?;
    let command = add_effort(alloc, command)?;
    let command = add_option(alloc, command, "reach")?;
    add_flag(alloc, command, "stats")
}

// With what a generated problem is made from.
fn add_recipe<'a>(alloc: Global, command: Command<'a>) -> Result<Command<'a>, AllocError>
    ensures { IfOk result (λ c. app_of c ≡ with_recipe (app_of command.entry)) }
{
    let command = add_word(alloc, command, "seed")?;
    let command = add_word(alloc, command, "side")?;
    add_word(alloc, command, "nets")
}

// With the ways to break the symmetry of tracks.
fn add_symmetry<'a>(alloc: Global, command: Command<'a>) -> Result<Command<'a>, AllocError>
    ensures { IfOk result (λ c. app_of c ≡ with_symmetry (app_of command.entry)) }
{
    let command = add_flag(alloc, command, "pin")?;
    add_flag(alloc, command, "symmetry")
}

// With how many searches take turns, and in which order.
fn add_members<'a>(alloc: Global, command: Command<'a>) -> Result<Command<'a>, AllocError>
    ensures { IfOk result (λ c. app_of c ≡ with_members (app_of command.entry)) }
{
    let command = add_option(alloc, command, "members")?;
    add_option(alloc, command, "seed")
}

/// ARCH NET PLACE ROUTE WIDTH PREFIX [--conflicts N] [--seconds T] [--keep] [--count] [--reach L]
/// [--stats] [--pin] [--symmetry] [--members K] [--seed S], behind this name of a command.
pub fn search_command<'a>(alloc: Global, name: &'a str) -> Result<Command<'a>, AllocError>
    ensures { IfOk result (λ c. app_of c ≡ search_form name.entry.now) }
{
    let command = add_files(alloc, named(alloc, name))?;
    let command = add_search(alloc, command)?;
    let command = add_symmetry(alloc, command)?;
    add_members(alloc, command)
}

/// ARCH NET PLACE ROUTE WIDTH PREFIX [--pin] [--symmetry] [--reach L] [--names]
pub fn encode_command<'a>(alloc: Global) -> Result<Command<'a>, AllocError>
    ensures { IfOk result (λ c. app_of c ≡ encode_form) }
{
    let command = add_files(alloc, named(alloc, "encode"))?;
    let command = add_width_and_prefix(alloc, command)?;
    let command = add_symmetry(alloc, command)?;
    let command = add_option(alloc, command, "reach")?;
    add_flag(alloc, command, "names")
}

/// ARCH NET PLACE ROUTE WIDTH MODEL PREFIX [--pin] [--symmetry] [--reach L]
pub fn decode_command<'a>(alloc: Global) -> Result<Command<'a>, AllocError>
    ensures { IfOk result (λ c. app_of c ≡ decode_form) }
{
    let problem = add_files(alloc, named(alloc, "decode"))?;
    let command = add_word(alloc, problem, "width")?;
    let command = add_word(alloc, command, "model")?;
    let command = add_word(alloc, command, "prefix")?;
    let command = add_symmetry(alloc, command)?;
    add_option(alloc, command, "reach")
}

/// ARCH NET PLACE ROUTE WIDTH PREFIX [--conflicts N] [--seconds T] [--pin] [--symmetry] [--stats]
pub fn core_command<'a>(alloc: Global) -> Result<Command<'a>, AllocError>
    ensures { IfOk result (λ c. app_of c ≡ core_form) }
{
    let command = add_files(alloc, named(alloc, "core"))?;
    let command = add_width_and_prefix(alloc, command)?;
    let command = add_option(alloc, command, "conflicts")?;
    let command = add_option(alloc, command, "seconds")?;
    let command = add_symmetry(alloc, command)?;
    add_flag(alloc, command, "stats")
}

/// CNF LRAT
pub fn check_command<'a>(alloc: Global) -> Result<Command<'a>, AllocError>
    ensures { IfOk result (λ c. app_of c ≡ check_form) }
{
    let command = add_word(alloc, named(alloc, "check"), "cnf")?;
    add_word(alloc, command, "lrat")
}

/// ARCH NET PLACE ROUTE WIDTH ROUTED [--reach L] [--all]
pub fn verify_command<'a>(alloc: Global) -> Result<Command<'a>, AllocError>
    ensures { IfOk result (λ c. app_of c ≡ verify_form) }
{
    let problem = add_files(alloc, named(alloc, "verify"))?;
    let command = add_word(alloc, problem, "width")?;
    let command = add_word(alloc, command, "routed")?;
    let command = add_option(alloc, command, "reach")?;
    add_flag(alloc, command, "all")
}

/// ARCH NET PLACE WIDTH ROUTED [--strict]
pub fn judge_command<'a>(alloc: Global) -> Result<Command<'a>, AllocError>
    ensures { IfOk result (λ c. app_of c ≡ judge_form) }
{
    let placed = add_placed(alloc, named(alloc, "judge"))?;
    let command = add_word(alloc, placed, "width")?;
    let command = add_word(alloc, command, "routed")?;
    add_flag(alloc, command, "strict")
}

/// ARCH NET PLACE
pub fn bound_command<'a>(alloc: Global) -> Result<Command<'a>, AllocError>
    ensures { IfOk result (λ c. app_of c ≡ bound_form) }
{
    add_placed(alloc, named(alloc, "bound"))
}

// With what a search for a route of a placement is told.
fn add_negotiation<'a>(alloc: Global, command: Command<'a>) -> Result<Command<'a>, AllocError>
    ensures { IfOk result (λ c. app_of c ≡ with_negotiation (app_of command.entry)) }
{
    let placed = add_placed(alloc, command)?;
    let command = add_width_and_prefix(alloc, placed)?;
    let command = add_flag(alloc, command, "free")?;
    let command = add_option(alloc, command, "from")?;
    let command = add_option(alloc, command, "rounds")?;
    let command = add_option(alloc, command, "seconds")?;
    add_flag(alloc, command, "stats")
}

/// ARCH NET PLACE WIDTH PREFIX [--free] [--from ROUTE] [--rounds N] [--seconds T] [--stats]
pub fn global_command<'a>(alloc: Global) -> Result<Command<'a>, AllocError>
    ensures { IfOk result (λ c. app_of c ≡ global_form) }
{
    add_negotiation(alloc, named(alloc, "global"))
}

/// ARCH NET PLACE MAX PREFIX [--free] [--from ROUTE] [--rounds N] [--seconds T] [--stats]
pub fn least_command<'a>(alloc: Global) -> Result<Command<'a>, AllocError>
    ensures { IfOk result (λ c. app_of c ≡ least_form) }
{
    add_negotiation(alloc, named(alloc, "least"))
}

/// SEED NX NETS PREFIX
pub fn gen_command<'a>(alloc: Global) -> Result<Command<'a>, AllocError>
    ensures { IfOk result (λ c. app_of c ≡ gen_form) }
{
    let command = add_recipe(alloc, named(alloc, "gen"))?;
    add_word(alloc, command, "prefix")
}

/// SEED NX NETS MAX PREFIX [--conflicts N] [--seconds T] [--keep] [--count] [--reach L] [--stats]
pub fn trial_command<'a>(alloc: Global) -> Result<Command<'a>, AllocError>
    ensures { IfOk result (λ c. app_of c ≡ trial_form) }
{
    let command = add_recipe(alloc, named(alloc, "trial"))?;
    add_search(alloc, command)
}
