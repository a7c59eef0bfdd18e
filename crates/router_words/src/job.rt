//! What the words of a command ask for.
ghost use Rattle.std.proofs.Props.{props};
ghost use Rattle.std.specs.Prelude.{◌≡◌, ◌≤◌, IfSome, IsTrue, true};
ghost use Rattle.fpga_types.specs.declared.limits.TheConstants.{REACH_LIMIT, SIDE_LIMIT, WIDTH_LIMIT};
ghost use Rattle.router_words.specs.Near.{IsNear, has_one_track};
ghost use Rattle.router_words.specs.declared.limits.TheConstants.{BUDGET_LIMIT, GENERATED_NETS_LIMIT, MEMBER_LIMIT, ROUND_LIMIT, SECOND_LIMIT, SEED_LIMIT};

use crate::method::Method;
use fpga_problem::{FourNames, ThreeNames};

/// What a search is told, whatever its problem.
#[derive(Clone, Copy)]
pub struct SearchJob<'a> {
    /// How many tracks each channel has, or the most of them that are tried, from 1 to 64.
    pub width: u32,
    /// What the names of the files that are written begin with.
    pub prefix: &'a str,
    /// How many clauses the search at each width may learn, from 1 to 100,000,000.
    pub conflicts: u64,
    /// After how many seconds of the run its searches are stopped, from 1 to 1,000,000, if they
    /// are.
    pub seconds: Option<u32>,
    /// Whether no learned clause is deleted.
    pub keep: bool,
    /// Whether a width that numbers alone forbid is refuted by counting, without a search.
    pub count: bool,
    /// How routings are said by clauses.
    pub method: Method,
    /// Whether the numbers of the run are told.
    pub stats: bool,
    ghost in_range: { (1 ≤ width) × (width ≤ WIDTH_LIMIT) },
    ghost affordable: { (1 ≤ conflicts) × (conflicts ≤ BUDGET_LIMIT) },
    ghost timed: { IfSome seconds (λ n. (1 ≤ n) × (n ≤ SECOND_LIMIT)) } by { Prim.hlevel props },
    ghost near: { IsNear method } by { Prim.hlevel props },
    ghost countable: { IsTrue count → has_one_track method ≡ true },
}

/// Searches that take turns over one log, in an order that is drawn.
#[derive(Clone, Copy)]
pub struct Members {
    /// How many searches there are, from 1 to 8.
    pub count: u32,
    /// What the order is drawn by, and the seed of the first search, at most 2,147,483,647.
    pub seed: u32,
    ghost some: { (1 ≤ count) × (count ≤ MEMBER_LIMIT) },
    ghost drawable: { seed ≤ SEED_LIMIT },
}

/// To look for a routing.
#[derive(Clone, Copy)]
pub struct RouteJob<'a> {
    /// The files of the problem.
    pub files: FourNames<'a>,
    /// The width, and what else the search is told.
    pub search: SearchJob<'a>,
    /// The searches that take turns, where there is not one alone.
    pub members: Option<Members>,
}

/// To look for the least width that has a routing.
#[derive(Clone, Copy)]
pub struct SweepJob<'a> {
    /// The files of the problem.
    pub files: FourNames<'a>,
    /// The greatest width that is tried, and what else the searches are told.
    pub search: SearchJob<'a>,
    /// The searches that take turns at each width, where there is not one alone.
    pub members: Option<Members>,
}

/// To write the clauses of a routing.
#[derive(Clone, Copy)]
pub struct EncodeJob<'a> {
    /// The files of the problem.
    pub files: FourNames<'a>,
    /// How many tracks each channel has, from 1 to 64.
    pub width: u32,
    /// What the name of the file that is written begins with.
    pub prefix: &'a str,
    /// How routings are said by clauses.
    pub method: Method,
    /// Whether lines before the clauses say which variable is which net's cell and track.
    pub names: bool,
    ghost in_range: { (1 ≤ width) × (width ≤ WIDTH_LIMIT) },
    ghost near: { IsNear method } by { Prim.hlevel props },
}

/// To make a route of a model of the clauses of a routing.
#[derive(Clone, Copy)]
pub struct DecodeJob<'a> {
    /// The files of the problem.
    pub files: FourNames<'a>,
    /// How many tracks each channel has, from 1 to 64.
    pub width: u32,
    /// The name of the file with the model.
    pub model: &'a str,
    /// What the name of the file that is written begins with.
    pub prefix: &'a str,
    /// How routings are said by the clauses that the model satisfies.
    pub method: Method,
    ghost in_range: { (1 ≤ width) × (width ≤ WIDTH_LIMIT) },
    ghost near: { IsNear method } by { Prim.hlevel props },
}

/// To look for a routing, or else for the nets that stand against each other.
#[derive(Clone, Copy)]
pub struct CoreJob<'a> {
    /// The files of the problem.
    pub files: FourNames<'a>,
    /// How many tracks each channel has, from 1 to 64.
    pub width: u32,
    /// What the names of the files that are written begin with.
    pub prefix: &'a str,
    /// How many clauses the search may learn, from 1 to 100,000,000.
    pub conflicts: u64,
    /// After how many seconds of the run its search is stopped, from 1 to 1,000,000, if it is.
    pub seconds: Option<u32>,
    /// How routings are said by clauses: with one track of each cell for a net.
    pub method: Method,
    /// Whether the numbers of the run are told.
    pub stats: bool,
    ghost in_range: { (1 ≤ width) × (width ≤ WIDTH_LIMIT) },
    ghost affordable: { (1 ≤ conflicts) × (conflicts ≤ BUDGET_LIMIT) },
    ghost timed: { IfSome seconds (λ n. (1 ≤ n) × (n ≤ SECOND_LIMIT)) } by { Prim.hlevel props },
    ghost near: { IsNear method } by { Prim.hlevel props },
    ghost one_track: { has_one_track method ≡ true },
}

/// To check a refutation.
#[derive(Clone, Copy)]
pub struct CheckJob<'a> {
    /// The name of the CNF file.
    pub cnf: &'a str,
    /// The name of the LRAT file.
    pub lrat: &'a str,
}

/// To judge a routed file.
#[derive(Clone, Copy)]
pub struct VerifyJob<'a> {
    /// The files of the problem.
    pub files: FourNames<'a>,
    /// How many tracks each channel has, from 1 to 64.
    pub width: u32,
    /// The name of the routed file.
    pub routed: &'a str,
    /// Within how many joins of wires a net is to reach its sinks, from 1 to 64, where it may have
    /// several wires of a cell.
    pub reach: Option<u32>,
    /// Whether each line against which there is a cause is told, and not the first alone.
    pub all: bool,
    ghost in_range: { (1 ≤ width) × (width ≤ WIDTH_LIMIT) },
    ghost near: { IfSome reach (λ n. (1 ≤ n) × (n ≤ REACH_LIMIT)) } by { Prim.hlevel props },
}

/// To judge a routed file as a routing of a placement, with no global route.
#[derive(Clone, Copy)]
pub struct JudgeJob<'a> {
    /// The files of the placed netlist.
    pub files: ThreeNames<'a>,
    /// How many tracks each channel has, from 1 to 64.
    pub width: u32,
    /// The name of the routed file.
    pub routed: &'a str,
    /// Whether each net may have one wire of a cell alone.
    pub strict: bool,
    ghost in_range: { (1 ≤ width) × (width ≤ WIDTH_LIMIT) },
}

/// To say how many tracks a placement needs at least, whatever its route.
#[derive(Clone, Copy)]
pub struct BoundJob<'a> {
    /// The files of the placed netlist.
    pub files: ThreeNames<'a>,
}

/// To look for a route of a placement together with its tracks.
#[derive(Clone, Copy)]
pub struct GlobalJob<'a> {
    /// The files of the placed netlist.
    pub files: ThreeNames<'a>,
    /// How many tracks each channel has, from 1 to 64.
    pub width: u32,
    /// What the name of the file that is written begins with.
    pub prefix: &'a str,
    /// Whether a net may have several wires of a cell.
    pub free: bool,
    /// The name of the file with the route that the search begins with, if it is to begin with one.
    pub from: Option<&'a str>,
    /// After how many rounds the search gives up, from 1 to 100,000.
    pub rounds: u32,
    /// After how many seconds of the run the search is stopped, from 1 to 1,000,000, if it is.
    pub seconds: Option<u32>,
    /// Whether the numbers of the run are told.
    pub stats: bool,
    ghost in_range: { (1 ≤ width) × (width ≤ WIDTH_LIMIT) },
    ghost patient: { (1 ≤ rounds) × (rounds ≤ ROUND_LIMIT) },
    ghost timed: { IfSome seconds (λ n. (1 ≤ n) × (n ≤ SECOND_LIMIT)) } by { Prim.hlevel props },
}

/// To look for the least width that has a route of a placement.
#[derive(Clone, Copy)]
pub struct LeastJob<'a> {
    /// The files of the placed netlist.
    pub files: ThreeNames<'a>,
    /// The greatest width that is tried, from 1 to 64.
    pub last: u32,
    /// What the name of the file that is written begins with.
    pub prefix: &'a str,
    /// Whether a net may have several wires of a cell.
    pub free: bool,
    /// The name of the file with the route that each search begins with, if it is to begin with
    /// one.
    pub from: Option<&'a str>,
    /// After how many rounds the search at a width gives up, from 1 to 100,000.
    pub rounds: u32,
    /// After how many seconds of the run its searches are stopped, from 1 to 1,000,000, if they
    /// are.
    pub seconds: Option<u32>,
    /// Whether the numbers of the run are told.
    pub stats: bool,
    ghost in_range: { (1 ≤ last) × (last ≤ WIDTH_LIMIT) },
    ghost patient: { (1 ≤ rounds) × (rounds ≤ ROUND_LIMIT) },
    ghost timed: { IfSome seconds (λ n. (1 ≤ n) × (n ≤ SECOND_LIMIT)) } by { Prim.hlevel props },
}

/// What a generated problem is made from.
#[derive(Clone, Copy)]
pub struct Recipe {
    /// The number that its nets are drawn by, at most 2,147,483,647.
    pub seed: u32,
    /// How many logic blocks each side of its array has, from 1 to 100.
    pub side: u32,
    /// How many nets it has, from 1 to 10,000.
    pub nets: u32,
    ghost drawable: { seed ≤ SEED_LIMIT },
    ghost in_range: { (1 ≤ side) × (side ≤ SIDE_LIMIT) },
    ghost few: { (1 ≤ nets) × (nets ≤ GENERATED_NETS_LIMIT) },
}

/// To write a generated problem.
#[derive(Clone, Copy)]
pub struct GenJob<'a> {
    /// What the problem is made from.
    pub recipe: Recipe,
    /// What the names of its four files begin with.
    pub prefix: &'a str,
}

/// To look for the least width that has a routing of a generated problem.
#[derive(Clone, Copy)]
pub struct TrialJob<'a> {
    /// What the problem is made from.
    pub recipe: Recipe,
    /// The greatest width that is tried, and what else the searches are told.
    pub search: SearchJob<'a>,
}

/// What the words ask for. It lends them.
#[derive(Clone, Copy)]
pub enum Job<'a> {
    /// A routing.
    Route(RouteJob<'a>),
    /// The least width that has a routing.
    Sweep(SweepJob<'a>),
    /// The clauses of a routing.
    Encode(EncodeJob<'a>),
    /// The route that a model of such clauses stands for.
    Decode(DecodeJob<'a>),
    /// A routing, or else the nets that stand against each other.
    Core(CoreJob<'a>),
    /// Whether a log refutes the clauses of a file.
    Check(CheckJob<'a>),
    /// Whether a routed file is a legal routing.
    Verify(VerifyJob<'a>),
    /// Whether a routed file is a routing of a placement.
    Judge(JudgeJob<'a>),
    /// How many tracks a placement needs at least.
    Bound(BoundJob<'a>),
    /// A route of a placement together with its tracks.
    Global(GlobalJob<'a>),
    /// The least width that has a route of a placement.
    Least(LeastJob<'a>),
    /// The files of a generated problem.
    Gen(GenJob<'a>),
    /// The least width that has a routing of a generated problem.
    Trial(TrialJob<'a>),
}

impl<'a> Job<'a> {
    ghost use Rattle.router_words.specs.Job.{asks_stats, job_said};

    /// Whether the numbers of the run are told.
    pub fn asks_stats(&self) -> bool
        ensures { result ≡ asks_stats (job_said self.now) }
    {
        match self {
            Job::Route(job) => job.search.stats,
            Job::Sweep(job) => job.search.stats,
            Job::Core(job) => job.stats,
            Job::Global(job) => job.stats,
            Job::Least(job) => job.stats,
            Job::Trial(job) => job.search.stats,
            Job::Encode(_)
            | Job::Decode(_)
            | Job::Check(_)
            | Job::Verify(_)
            | Job::Judge(_)
            | Job::Bound(_)
            | Job::Gen(_) => false,
        }
    }
}
