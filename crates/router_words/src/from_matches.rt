//! The job that the matches of a command's form say.
ghost use Rattle.std.specs.Prelude.{◌≡◌, ◌≤◌, IfOk, IfSome, IsNone, codes, is_some, option_map, true};
ghost use Rattle.clap.specs.Words.{first_of, found_of, rows_of};
ghost use Rattle.fpga_problem.specs.Files.{names_said, placed_names_said};
ghost use Rattle.fpga_types.specs.declared.limits.TheConstants.{REACH_LIMIT, WIDTH_LIMIT};
ghost use Rattle.router_words.specs.Command.{bound_asked, check_asked, conflicts_asked, core_asked, decode_asked, encode_asked, files_asked, gen_asked, global_asked, judge_asked, members_asked, members_with, method_asked, method_within, number_if_any, number_within, has_clash, has_two_methods, least_asked, placed_asked, reach_asked, recipe_asked, rounds_asked, route_asked, search_asked, search_by_method, seconds_asked, sweep_asked, trial_asked, turns_asked, verify_asked, width_asked, word_in};
ghost use Rattle.router_words.specs.Form.{bound_form, check_form, core_form, decode_form, encode_form, gen_form, global_form, judge_form, least_form, route_form, sweep_form, trial_form, verify_form};
ghost use Rattle.router_words.specs.Job.{job_said, members_said, recipe_said, search_said, turns_said};
ghost use Rattle.router_words.specs.Near.{IsNear, has_one_track};
ghost use Rattle.router_words.specs.Results.{map_ok};
ghost use Rattle.router_words.specs.Taken.{HasFiles, HasPlaced, HasRecipe, HasRequired};
ghost use Rattle.router_words.specs.declared.limits.TheConstants.{BUDGET_LIMIT, MEMBER_LIMIT, ROUND_LIMIT, SECOND_LIMIT, SEED_LIMIT};

use crate::fault::Refusal;
use crate::job::{
    BoundJob, CheckJob, CoreJob, DecodeJob, EncodeJob, GenJob, GlobalJob, Job, JudgeJob, LeastJob,
    Members, Recipe, RouteJob, SearchJob, SweepJob, TrialJob, VerifyJob,
};
use crate::limits::{
    BUDGET_DEFAULT, BUDGET_LIMIT, GENERATED_NETS_LIMIT, MEMBER_LIMIT, ROUND_DEFAULT, ROUND_LIMIT,
    SECOND_LIMIT, SEED_DEFAULT, SEED_LIMIT,
};
use crate::matched::{first_word, has_flag, number_within, required_word};
use crate::method::Method;
use clap::ArgMatches;
use fpga_problem::{FourNames, ThreeNames};
use fpga_types::{REACH_LIMIT, SIDE_LIMIT, WIDTH_LIMIT};

// The names of the files of a problem.
fn file_names<'a>(matches: &ArgMatches<'a>) -> FourNames<'a>
    requires { HasFiles (rows_of (found_of matches.now)) }
    ensures { names_said result ≡ files_asked (rows_of (found_of matches.now)) }
{
    FourNames {
        architecture: required_word(matches, "architecture"),
        netlist: required_word(matches, "netlist"),
        placement: required_word(matches, "placement"),
        route: required_word(matches, "route"),
    }
}

// The names of the files of a placed netlist.
fn placed_names<'a>(matches: &ArgMatches<'a>) -> ThreeNames<'a>
    requires { HasPlaced (rows_of (found_of matches.now)) }
    ensures { placed_names_said result ≡ placed_asked (rows_of (found_of matches.now)) }
{
    ThreeNames {
        architecture: required_word(matches, "architecture"),
        netlist: required_word(matches, "netlist"),
        placement: required_word(matches, "placement"),
    }
}

// The number that the word for a name says, or that it is none in this range.
fn number_for(matches: &ArgMatches, name: &str, least: u32, greatest: u32) -> Result<u32, Refusal>
    requires { is_some (first_of name.now (rows_of (found_of matches.now))) ≡ true }
    ensures number { result
        ≡ number_within least greatest (word_in name.now (rows_of (found_of matches.now))) }
    ensures within { IfOk result (λ number. (least ≤ number) × (number ≤ greatest)) }
{
    let word = required_word(matches, name);
    let number = number_within(word, u64::from(least), u64::from(greatest))?;
    Ok(number as u32)
}

// How many tracks each channel has, or the most of them that are tried; or that the word is no
// number in range.
fn width(matches: &ArgMatches) -> Result<u32, Refusal>
    requires { is_some (first_of (codes "width") (rows_of (found_of matches.now))) ≡ true }
    ensures number { result ≡ width_asked (rows_of (found_of matches.now)) }
    ensures within { IfOk result (λ number. (1 ≤ number) × (number ≤ WIDTH_LIMIT)) }
{
    number_for(matches, "width", 1, WIDTH_LIMIT)
}

// How many clauses the search may learn, or that the word is no number in range.
fn conflicts(matches: &ArgMatches) -> Result<u64, Refusal>
    ensures number { result ≡ conflicts_asked (rows_of (found_of matches.now)) }
    ensures within { IfOk result (λ number. (1 ≤ number) × (number ≤ BUDGET_LIMIT)) }
{
    let Some(word) = first_word(matches, "conflicts") else {
        return Ok(BUDGET_DEFAULT);
    };
    number_within(word, 1, BUDGET_LIMIT)
}

// The number that the word for a name says, where there is one; or that it is none in this range.
fn number_if_any(
    matches: &ArgMatches,
    name: &str,
    least: u32,
    greatest: u32,
) -> Result<Option<u32>, Refusal>
    ensures number { result
        ≡ number_if_any least greatest name.now (rows_of (found_of matches.now)) }
    ensures within { IfOk result (λ found. IfSome found
        (λ number. (least ≤ number) × (number ≤ greatest))) }
{
    let Some(word) = first_word(matches, name) else {
        return Ok(None);
    };
    let number = number_within(word, u64::from(least), u64::from(greatest))?;
    Ok(Some(number as u32))
}

// After how many seconds searches are stopped, where the words say it; or that the word is no
// number in range.
fn seconds(matches: &ArgMatches) -> Result<Option<u32>, Refusal>
    ensures number { result ≡ seconds_asked (rows_of (found_of matches.now)) }
    ensures within { IfOk result (λ found. IfSome found
        (λ number. (1 ≤ number) × (number ≤ SECOND_LIMIT))) }
{
    number_if_any(matches, "seconds", 1, SECOND_LIMIT)
}

// After how many rounds a search gives up, or that the word is no number in range.
fn rounds(matches: &ArgMatches) -> Result<u32, Refusal>
    ensures number { result ≡ rounds_asked (rows_of (found_of matches.now)) }
    ensures within { IfOk result (λ number. (1 ≤ number) × (number ≤ ROUND_LIMIT)) }
{
    let Some(word) = first_word(matches, "rounds") else {
        return Ok(ROUND_DEFAULT);
    };
    let number = number_within(word, 1, u64::from(ROUND_LIMIT))?;
    Ok(number as u32)
}

// What a generated problem is made from, or that a number is none in its range.
fn recipe(matches: &ArgMatches) -> Result<Recipe, Refusal>
    requires { HasRecipe (rows_of (found_of matches.now)) }
    ensures { map_ok recipe_said result ≡ recipe_asked (rows_of (found_of matches.now)) }
{
    let seed = number_for(matches, "seed", 0, SEED_LIMIT)?;
    let side = number_for(matches, "side", 1, SIDE_LIMIT)?;
    let nets = number_for(matches, "nets", 1, GENERATED_NETS_LIMIT)?;
    Ok(Recipe { seed, side, nets })
}

// The method of words without `--pin` and `--symmetry`, which have this reach, if any.
fn method_within(reach: Option<u32>) -> Method
    requires { IfSome reach (λ n. (1 ≤ n) × (n ≤ REACH_LIMIT)) }
    ensures method { result ≡ method_within reach }
    ensures near { IsNear result }
    ensures one_track { IsNone reach → has_one_track result ≡ true }
{
    match reach {
        Some(reach) => Method::Within(reach),
        None => Method::Strictly,
    }
}

// The method that the words choose, which have this reach, if any.
fn method(matches: &ArgMatches, reach: Option<u32>) -> Method
    requires { IfSome reach (λ n. (1 ≤ n) × (n ≤ REACH_LIMIT)) }
    ensures method { result ≡ method_asked reach (rows_of (found_of matches.now)) }
    ensures near { IsNear result }
    ensures one_track { IsNone reach → has_one_track result ≡ true }
{
    if has_flag(matches, "pin") {
        return Method::Pinned;
    }
    if has_flag(matches, "symmetry") {
        return Method::Ordered;
    }
    method_within(reach)
}

// Whether each net has one track in each cell of its global route.
fn has_one_track(method: Method) -> bool
    ensures { result ≡ has_one_track method }
{
    match method {
        Method::Within(_) => false,
        Method::Strictly | Method::Pinned | Method::Ordered => true,
    }
}

// What a search by a method is told, or that a number is none in its range. Within a reach nothing
// is counted.
fn search<'a>(matches: &ArgMatches<'a>, method: Method) -> Result<SearchJob<'a>, Refusal>
    requires near { IsNear method }
    requires width { is_some (first_of (codes "width") (rows_of (found_of matches.now))) ≡ true }
    requires prefix { is_some (first_of (codes "prefix") (rows_of (found_of matches.now))) ≡ true }
    ensures { map_ok search_said result ≡ search_asked method (rows_of (found_of matches.now)) }
{
    let width = width(matches)?;
    let conflicts = conflicts(matches)?;
    let seconds = seconds(matches)?;
    let stats = has_flag(matches, "stats");
    Ok(SearchJob {
        width,
        prefix: required_word(matches, "prefix"),
        conflicts,
        seconds,
        keep: has_flag(matches, "keep"),
        count: has_flag(matches, "count") && has_one_track(method),
        method,
        stats,
    })
}

// The searches that take turns, where there is not one alone; or that a number is none in its
// range, or that there is a seed and no number of searches.
fn members(matches: &ArgMatches) -> Result<Option<Members>, Refusal>
    ensures { map_ok (option_map members_said) result
        ≡ members_asked (rows_of (found_of matches.now)) }
{
    let count = number_if_any(matches, "members", 1, MEMBER_LIMIT)?;
    let seed = number_if_any(matches, "seed", 0, SEED_LIMIT)?;
    match (count, seed) {
        (Some(count), Some(seed)) => Ok(Some(Members { count, seed })),
        (Some(count), None) => Ok(Some(Members {
            count,
            seed: SEED_DEFAULT,
        })),
        (None, Some(_)) => Err(Refusal::Clash),
        (None, None) => Ok(None),
    }
}

// Within how many joins a net is to reach its sinks, where the words say it; or that the word is no
// number in range.
fn reach(matches: &ArgMatches) -> Result<Option<u32>, Refusal>
    ensures number { result ≡ reach_asked (rows_of (found_of matches.now)) }
    ensures within { IfOk result (λ found. IfSome found
        (λ number. (1 ≤ number) × (number ≤ REACH_LIMIT))) }
{
    number_if_any(matches, "reach", 1, REACH_LIMIT)
}

// Whether two of pinned tracks, tracks in order and a reach are asked for.
fn has_two_methods(matches: &ArgMatches) -> bool
    ensures { result ≡ has_two_methods (rows_of (found_of matches.now)) }
{
    let pins = has_flag(matches, "pin");
    let orders = has_flag(matches, "symmetry");
    (pins && orders) || ((pins || orders) && first_word(matches, "reach").is_some())
}

// Whether options of a search are given of which one excludes another.
fn has_clash(matches: &ArgMatches) -> bool
    ensures { result ≡ has_clash (rows_of (found_of matches.now)) }
{
    let counts = has_flag(matches, "count");
    has_two_methods(matches) || (counts && first_word(matches, "reach").is_some())
}

// What a search is told by words that choose its method, or that a number is none in its range.
fn search_by_method<'a>(matches: &ArgMatches<'a>) -> Result<SearchJob<'a>, Refusal>
    requires width { is_some (first_of (codes "width") (rows_of (found_of matches.now))) ≡ true }
    requires prefix { is_some (first_of (codes "prefix") (rows_of (found_of matches.now))) ≡ true }
    ensures { map_ok search_said result ≡ search_by_method (rows_of (found_of matches.now)) }
{
    let reach = reach(matches)?;
    search(matches, method(matches, reach))
}

// What a search is told, and the searches that take turns, where there is not one alone; or that a
// number is none in its range, or that options exclude each other.
fn turns<'a>(matches: &ArgMatches<'a>) -> Result<(SearchJob<'a>, Option<Members>), Refusal>
    requires width { is_some (first_of (codes "width") (rows_of (found_of matches.now))) ≡ true }
    requires prefix { is_some (first_of (codes "prefix") (rows_of (found_of matches.now))) ≡ true }
    ensures { map_ok turns_said result ≡ turns_asked (rows_of (found_of matches.now)) }
{
    let search = search_by_method(matches)?;
    let members = members(matches)?;
    if has_clash(matches) {
        return Err(Refusal::Clash);
    }
    Ok((search, members))
}

/// What `route` is asked for, or why its words ask for nothing.
pub fn route_job<'a>(matches: &ArgMatches<'a>) -> Result<Job<'a>, Refusal>
    requires { HasRequired route_form (rows_of (found_of matches.now)) }
    ensures { map_ok job_said result ≡ route_asked (rows_of (found_of matches.now)) }
{
    let (search, members) = turns(matches)?;
    Ok(Job::Route(RouteJob {
        files: file_names(matches),
        search,
        members,
    }))
}

/// What `sweep` is asked for, or why its words ask for nothing.
pub fn sweep_job<'a>(matches: &ArgMatches<'a>) -> Result<Job<'a>, Refusal>
    requires { HasRequired sweep_form (rows_of (found_of matches.now)) }
    ensures { map_ok job_said result ≡ sweep_asked (rows_of (found_of matches.now)) }
{
    let (search, members) = turns(matches)?;
    Ok(Job::Sweep(SweepJob {
        files: file_names(matches),
        search,
        members,
    }))
}

/// What `encode` is asked for, or why its words ask for nothing.
pub fn encode_job<'a>(matches: &ArgMatches<'a>) -> Result<Job<'a>, Refusal>
    requires { HasRequired encode_form (rows_of (found_of matches.now)) }
    ensures { map_ok job_said result ≡ encode_asked (rows_of (found_of matches.now)) }
{
    let width = width(matches)?;
    let reach = reach(matches)?;
    if has_two_methods(matches) {
        return Err(Refusal::Clash);
    }
    Ok(Job::Encode(EncodeJob {
        files: file_names(matches),
        width,
        prefix: required_word(matches, "prefix"),
        method: method(matches, reach),
        names: has_flag(matches, "names"),
    }))
}

/// What `decode` is asked for, or why its words ask for nothing.
pub fn decode_job<'a>(matches: &ArgMatches<'a>) -> Result<Job<'a>, Refusal>
    requires { HasRequired decode_form (rows_of (found_of matches.now)) }
    ensures { map_ok job_said result ≡ decode_asked (rows_of (found_of matches.now)) }
{
    let width = width(matches)?;
    let reach = reach(matches)?;
    if has_two_methods(matches) {
        return Err(Refusal::Clash);
    }
    Ok(Job::Decode(DecodeJob {
        files: file_names(matches),
        width,
        model: required_word(matches, "model"),
        prefix: required_word(matches, "prefix"),
        method: method(matches, reach),
    }))
}

/// What `core` is asked for, or why its words ask for nothing.
pub fn core_job<'a>(matches: &ArgMatches<'a>) -> Result<Job<'a>, Refusal>
    requires { HasRequired core_form (rows_of (found_of matches.now)) }
    ensures { map_ok job_said result ≡ core_asked (rows_of (found_of matches.now)) }
{
    let width = width(matches)?;
    let conflicts = conflicts(matches)?;
    let seconds = seconds(matches)?;
    if has_two_methods(matches) {
        return Err(Refusal::Clash);
    }
    Ok(Job::Core(CoreJob {
        files: file_names(matches),
        width,
        prefix: required_word(matches, "prefix"),
        conflicts,
        seconds,
        method: method(matches, None),
        stats: has_flag(matches, "stats"),
    }))
}

/// What `check` is asked for.
pub fn check_job<'a>(matches: &ArgMatches<'a>) -> Result<Job<'a>, Refusal>
    requires { HasRequired check_form (rows_of (found_of matches.now)) }
    ensures { map_ok job_said result ≡ check_asked (rows_of (found_of matches.now)) }
{
    Ok(Job::Check(CheckJob {
        cnf: required_word(matches, "cnf"),
        lrat: required_word(matches, "lrat"),
    }))
}

/// What `verify` is asked for, or why its words ask for nothing.
pub fn verify_job<'a>(matches: &ArgMatches<'a>) -> Result<Job<'a>, Refusal>
    requires { HasRequired verify_form (rows_of (found_of matches.now)) }
    ensures { map_ok job_said result ≡ verify_asked (rows_of (found_of matches.now)) }
{
    let width = width(matches)?;
    let reach = reach(matches)?;
    Ok(Job::Verify(VerifyJob {
        files: file_names(matches),
        width,
        routed: required_word(matches, "routed"),
        reach,
        all: has_flag(matches, "all"),
    }))
}

/// What `judge` is asked for, or why its words ask for nothing.
pub fn judge_job<'a>(matches: &ArgMatches<'a>) -> Result<Job<'a>, Refusal>
    requires { HasRequired judge_form (rows_of (found_of matches.now)) }
    ensures { map_ok job_said result ≡ judge_asked (rows_of (found_of matches.now)) }
{
    let width = width(matches)?;
    Ok(Job::Judge(JudgeJob {
        files: placed_names(matches),
        width,
        routed: required_word(matches, "routed"),
        strict: has_flag(matches, "strict"),
    }))
}

/// What `bound` is asked for.
pub fn bound_job<'a>(matches: &ArgMatches<'a>) -> Result<Job<'a>, Refusal>
    requires { HasRequired bound_form (rows_of (found_of matches.now)) }
    ensures { map_ok job_said result ≡ bound_asked (rows_of (found_of matches.now)) }
{
    Ok(Job::Bound(BoundJob {
        files: placed_names(matches),
    }))
}

/// What `global` is asked for, or why its words ask for nothing.
pub fn global_job<'a>(matches: &ArgMatches<'a>) -> Result<Job<'a>, Refusal>
    requires { HasRequired global_form (rows_of (found_of matches.now)) }
    ensures { map_ok job_said result ≡ global_asked (rows_of (found_of matches.now)) }
{
    let width = width(matches)?;
    let rounds = rounds(matches)?;
    let seconds = seconds(matches)?;
    Ok(Job::Global(GlobalJob {
        files: placed_names(matches),
        width,
        prefix: required_word(matches, "prefix"),
        free: has_flag(matches, "free"),
        from: first_word(matches, "from"),
        rounds,
        seconds,
        stats: has_flag(matches, "stats"),
    }))
}

/// What `least` is asked for, or why its words ask for nothing.
pub fn least_job<'a>(matches: &ArgMatches<'a>) -> Result<Job<'a>, Refusal>
    requires { HasRequired least_form (rows_of (found_of matches.now)) }
    ensures { map_ok job_said result ≡ least_asked (rows_of (found_of matches.now)) }
{
    let last = width(matches)?;
    let rounds = rounds(matches)?;
    let seconds = seconds(matches)?;
    Ok(Job::Least(LeastJob {
        files: placed_names(matches),
        last,
        prefix: required_word(matches, "prefix"),
        free: has_flag(matches, "free"),
        from: first_word(matches, "from"),
        rounds,
        seconds,
        stats: has_flag(matches, "stats"),
    }))
}

/// What `gen` is asked for, or why its words ask for nothing.
pub fn gen_job<'a>(matches: &ArgMatches<'a>) -> Result<Job<'a>, Refusal>
    requires { HasRequired gen_form (rows_of (found_of matches.now)) }
    ensures { map_ok job_said result ≡ gen_asked (rows_of (found_of matches.now)) }
{
    let recipe = recipe(matches)?;
    Ok(Job::Gen(GenJob {
        recipe,
        prefix: required_word(matches, "prefix"),
    }))
}

/// What `trial` is asked for, or why its words ask for nothing.
pub fn trial_job<'a>(matches: &ArgMatches<'a>) -> Result<Job<'a>, Refusal>
    requires { HasRequired trial_form (rows_of (found_of matches.now)) }
    ensures { map_ok job_said result ≡ trial_asked (rows_of (found_of matches.now)) }
{
    let recipe = recipe(matches)?;
    let reach = reach(matches)?;
    let search = search(matches, method_within(reach))?;
    if has_clash(matches) {
        return Err(Refusal::Clash);
    }
    Ok(Job::Trial(TrialJob { recipe, search }))
}
