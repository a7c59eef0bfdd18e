//! The names of the files that a job reads and writes.
ghost use Rattle.std.specs.Prelude.{◌≡◌, IfOk, option_map};
ghost use Rattle.std.specs.Option.{option_copied};
ghost use Rattle.fpga_problem.specs.Files.{names_said, placed_names_said};
ghost use Rattle.router_says.specs.Names.{
  asked,
  asked_in,
  may_have_several,
  name_of,
  name_of_begun,
  name_of_decoded,
  name_of_five,
  name_of_four,
  name_of_judged,
  name_of_three,
  name_of_two,
  prefix_of,
  prefix_said,
  reach_by,
  reach_of as reach_of_job,
};
ghost use Rattle.run_outcome.specs.declared.text_file.TextFile.TheVariants.{Problem};
ghost use Rattle.router_words.specs.Job.{check_said, decode_said, judge_said, verify_said};
ghost use Rattle.router_words.specs.Word.{words_of};

use fpga_problem::{FourNames, TextFile as ProblemFile, ThreeNames};
use router_words::{CheckJob, DecodeJob, Job, JudgeJob, Method, VerifyJob, WordsFault, read_words};
use run_outcome::TextFile;
use std::alloc::{AllocError, Global};

/// The job that the words ask for, if they ask for one.
pub(crate) fn job_in<'a>(alloc: Global, words: &'a [String]) -> Result<Option<Job<'a>>, AllocError>
    ensures { IfOk result (λ job. asked job ≡ asked_in (words_of words.entry.now)) }
{
    match read_words(alloc, words) {
        Ok(job) => Ok(Some(job)),
        Err(WordsFault::Refused(_)) => Ok(None),
        Err(WordsFault::Memory) => Err(AllocError),
    }
}

/// The name that was given for a file, if the job reads it.
pub(crate) fn given_name<'a>(job: Option<Job<'a>>, file: TextFile) -> Option<&'a str>
    ensures { option_copied result ≡ name_of (asked job.entry) file }
{
    let Some(job) = job else {
        return None;
    };
    match job {
        Job::Route(job) => name_of_four(job.files, file),
        Job::Sweep(job) => name_of_four(job.files, file),
        Job::Encode(job) => name_of_four(job.files, file),
        Job::Decode(job) => name_of_decoded(job, file),
        Job::Core(job) => name_of_four(job.files, file),
        Job::Check(job) => name_of_two(job, file),
        Job::Verify(job) => name_of_five(job, file),
        Job::Judge(job) => name_of_judged(job, file),
        Job::Bound(job) => name_of_three(job.files, file),
        Job::Global(job) => name_of_begun(job.files, job.from, file),
        Job::Least(job) => name_of_begun(job.files, job.from, file),
        Job::Gen(_) | Job::Trial(_) => None,
    }
}

/// The name that was given for a file of the problem, if the job reads it.
pub(crate) fn problem_name<'a>(job: Option<Job<'a>>, file: ProblemFile) -> Option<&'a str>
    ensures { option_copied result ≡ name_of (asked job.entry) (Problem file) }
{
    given_name(job, TextFile::Problem(file))
}

fn name_of_four<'a>(files: FourNames<'a>, file: TextFile) -> Option<&'a str>
    ensures { option_copied result ≡ name_of_four (names_said files.entry) file }
{
    match file {
        TextFile::Problem(ProblemFile::Architecture) => Some(files.architecture),
        TextFile::Problem(ProblemFile::Netlist) => Some(files.netlist),
        TextFile::Problem(ProblemFile::Placement) => Some(files.placement),
        TextFile::Problem(ProblemFile::Route) => Some(files.route),
        TextFile::Cnf | TextFile::Lrat | TextFile::Routed | TextFile::Model => None,
    }
}

fn name_of_two<'a>(job: CheckJob<'a>, file: TextFile) -> Option<&'a str>
    ensures { option_copied result ≡ name_of_two (check_said job.entry) file }
{
    match file {
        TextFile::Cnf => Some(job.cnf),
        TextFile::Lrat => Some(job.lrat),
        TextFile::Problem(_) | TextFile::Routed | TextFile::Model => None,
    }
}

fn name_of_five<'a>(job: VerifyJob<'a>, file: TextFile) -> Option<&'a str>
    ensures { option_copied result ≡ name_of_five (verify_said job.entry) file }
{
    match file {
        TextFile::Routed => Some(job.routed),
        TextFile::Problem(_) | TextFile::Cnf | TextFile::Lrat | TextFile::Model => {
            name_of_four(job.files, file)
        }
    }
}

fn name_of_decoded<'a>(job: DecodeJob<'a>, file: TextFile) -> Option<&'a str>
    ensures { option_copied result ≡ name_of_decoded (decode_said job.entry) file }
{
    match file {
        TextFile::Model => Some(job.model),
        TextFile::Problem(_) | TextFile::Cnf | TextFile::Lrat | TextFile::Routed => {
            name_of_four(job.files, file)
        }
    }
}

fn name_of_three<'a>(files: ThreeNames<'a>, file: TextFile) -> Option<&'a str>
    ensures { option_copied result ≡ name_of_three (placed_names_said files.entry) file }
{
    match file {
        TextFile::Problem(ProblemFile::Architecture) => Some(files.architecture),
        TextFile::Problem(ProblemFile::Netlist) => Some(files.netlist),
        TextFile::Problem(ProblemFile::Placement) => Some(files.placement),
        TextFile::Problem(ProblemFile::Route)
        | TextFile::Cnf
        | TextFile::Lrat
        | TextFile::Routed
        | TextFile::Model => None,
    }
}

fn name_of_judged<'a>(job: JudgeJob<'a>, file: TextFile) -> Option<&'a str>
    ensures { option_copied result ≡ name_of_judged (judge_said job.entry) file }
{
    match file {
        TextFile::Routed => Some(job.routed),
        TextFile::Problem(_) | TextFile::Cnf | TextFile::Lrat | TextFile::Model => {
            name_of_three(job.files, file)
        }
    }
}

fn name_of_begun<'a>(
    files: ThreeNames<'a>,
    from: Option<&'a str>,
    file: TextFile,
) -> Option<&'a str>
    ensures { option_copied result
        ≡ name_of_begun (placed_names_said files.entry) (option_copied from.entry) file }
{
    match file {
        TextFile::Problem(ProblemFile::Route) => from,
        _ => name_of_three(files, file),
    }
}

/// What a job begins the names of the files with that it writes.
#[derive(Clone, Copy)]
pub(crate) enum Written<'a> {
    /// One set of files.
    One(&'a str),
    /// A climb, with files for each width.
    Each(&'a str),
}

/// The files of a job that writes some.
pub(crate) fn files_written(job: Option<Job<'_>>) -> Option<Written<'_>>
    ensures { option_map prefix_said result ≡ prefix_of (asked job.entry) }
{
    let Some(job) = job else {
        return None;
    };
    match job {
        Job::Route(job) => Some(Written::One(job.search.prefix)),
        Job::Core(job) => Some(Written::One(job.prefix)),
        Job::Encode(job) => Some(Written::One(job.prefix)),
        Job::Decode(job) => Some(Written::One(job.prefix)),
        Job::Global(job) => Some(Written::One(job.prefix)),
        Job::Least(job) => Some(Written::One(job.prefix)),
        Job::Gen(job) => Some(Written::One(job.prefix)),
        Job::Sweep(job) => Some(Written::Each(job.search.prefix)),
        Job::Trial(job) => Some(Written::Each(job.search.prefix)),
        Job::Check(_) | Job::Verify(_) | Job::Judge(_) | Job::Bound(_) => None,
    }
}

/// Within how many joins of wires a job has nets reach their sinks, where it says so.
pub(crate) fn reach_asked(job: Option<Job<'_>>) -> Option<u32>
    ensures { result ≡ reach_of_job (asked job.entry) }
{
    let Some(job) = job else {
        return None;
    };
    match job {
        Job::Route(job) => reach_by(job.search.method),
        Job::Sweep(job) => reach_by(job.search.method),
        Job::Encode(job) => reach_by(job.method),
        Job::Decode(job) => reach_by(job.method),
        Job::Verify(job) => job.reach,
        Job::Trial(job) => reach_by(job.search.method),
        Job::Core(_)
        | Job::Check(_)
        | Job::Judge(_)
        | Job::Bound(_)
        | Job::Global(_)
        | Job::Least(_)
        | Job::Gen(_) => None,
    }
}

/// Whether a job judges a routed file in which nets may have several wires of a cell.
pub(crate) fn may_have_several(job: Option<Job<'_>>) -> bool
    ensures { result ≡ may_have_several (asked job.entry) }
{
    let Some(job) = job else {
        return false;
    };
    match job {
        Job::Verify(job) => job.reach.is_some(),
        Job::Judge(job) => !job.strict,
        _ => false,
    }
}

fn reach_by(method: Method) -> Option<u32>
    ensures { result ≡ reach_by method }
{
    match method {
        Method::Within(reach) => Some(reach),
        Method::Strictly | Method::Pinned | Method::Ordered => None,
    }
}
