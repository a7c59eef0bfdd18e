//! Jobs that would write over a file that they read.
ghost use Rattle.std.specs.Prelude.{◌≡◌, ◌≤◌, IfOk, map, option_map};
ghost use Rattle.fpga_problem.specs.Files.{names_said, placed_names_said};
ghost use Rattle.fpga_types.specs.declared.limits.TheConstants.{WIDTH_LIMIT};
ghost use Rattle.router_words.specs.Job.{job_said};
ghost use Rattle.router_words.specs.Overwriting as spec;
ghost use Rattle.router_words.specs.Overwriting.{four_names, has_name, is_named, three_names};

use crate::job::Job;
use fpga_problem::{FourNames, ThreeNames};
use std::alloc::{AllocError, Global};

/// Whether a file that a job may write has the name of one that it reads, letter by letter.
pub fn overwrites(alloc: Global, job: &Job<'_>) -> Result<bool, AllocError>
    ensures { IfOk result (λ is. is ≡ spec.overwrites (job_said job.now)) }
{
    match *job {
        Job::Route(job) => { search_overwrites(alloc, &four_names(job.files), job.search.prefix) }
        Job::Sweep(job) => climb_overwrites(
            alloc,
            &four_names(job.files),
            job.search.prefix,
            job.search.width,
        ),
        Job::Encode(job) => is_named(alloc, &four_names(job.files), job.prefix, ".cnf"),
        Job::Decode(job) => model_overwrites(alloc, job.files, job.model, job.prefix),
        Job::Core(job) => search_overwrites(alloc, &four_names(job.files), job.prefix),
        Job::Global(job) => route_overwrites(alloc, job.files, job.from, job.prefix),
        Job::Least(job) => least_overwrites(alloc, job.files, job.from, job.prefix),
        Job::Check(_)
        | Job::Verify(_)
        | Job::Judge(_)
        | Job::Bound(_)
        | Job::Gen(_)
        | Job::Trial(_) => Ok(false),
    }
}

// The names of the files of a problem.
fn four_names<'a>(files: FourNames<'a>) -> [&'a str; 4]
    ensures { map (λ name. name.now) result ≡ four_names (names_said files.entry) }
{
    [
        files.architecture,
        files.netlist,
        files.placement,
        files.route,
    ]
}

// The names of the files of a placed netlist.
fn three_names<'a>(files: ThreeNames<'a>) -> [&'a str; 3]
    ensures { map (λ name. name.now) result ≡ three_names (placed_names_said files.entry) }
{
    [files.architecture, files.netlist, files.placement]
}

// Whether the prefix with this ending behind it is one of these names.
fn is_named(alloc: Global, names: &[&str], prefix: &str, ending: &str) -> Result<bool, AllocError>
    ensures { IfOk result
        (λ is. is ≡ is_named (map (λ name. name.now) names.now) prefix.now ending.now) }
{
    let written = format!(in alloc; "{prefix}{ending}")?;
    Ok(has_name(names, written.as_str()))
}

// Whether this name is among these.
fn has_name(names: &[&str], sought: &str) -> bool
    ensures { result ≡ has_name (map (λ name. name.now) names.now) sought.now }
{
    for name in names {
        if *name == sought {
            return true;
        }
    }
    false
}

// Whether a file that a search may write has one of these names.
fn search_overwrites(alloc: Global, names: &[&str], prefix: &str) -> Result<bool, AllocError>
    ensures { IfOk result
        (λ is. is ≡ spec.search_overwrites (map (λ name. name.now) names.now) prefix.now) }
{
    Ok(
        is_named(alloc, names, prefix, ".route")?
            || is_named(alloc, names, prefix, ".cnf")?
            || is_named(alloc, names, prefix, ".lrat")?,
    )
}

// Whether one that a climb may write at a width has.
fn width_overwrites(
    alloc: Global,
    names: &[&str],
    prefix: &str,
    width: u32,
) -> Result<bool, AllocError>
    ensures { IfOk result (λ is. is
        ≡ spec.width_overwrites (map (λ name. name.now) names.now) prefix.now width) }
{
    let cnf = format!(in alloc; ".w{width}.cnf")?;
    let lrat = format!(in alloc; ".w{width}.lrat")?;
    Ok(
        is_named(alloc, names, prefix, cnf.as_str())?
            || is_named(alloc, names, prefix, lrat.as_str())?,
    )
}

// Whether one that a climb may write up to its last width has.
fn climb_overwrites(
    alloc: Global,
    names: &[&str],
    prefix: &str,
    last: u32,
) -> Result<bool, AllocError>
    requires { last ≤ WIDTH_LIMIT }
    ensures { IfOk result (λ is. is
        ≡ spec.climb_overwrites (map (λ name. name.now) names.now) prefix.now last) }
{
    if is_named(alloc, names, prefix, ".route")? {
        return Ok(true);
    }
    for width in 1..last + 1 {
        if width_overwrites(alloc, names, prefix, width)? {
            return Ok(true);
        }
    }
    Ok(false)
}

// Whether the route that is made of a model would be written over a file of its problem, or over
// the model.
fn model_overwrites(
    alloc: Global,
    files: FourNames<'_>,
    model: &str,
    prefix: &str,
) -> Result<bool, AllocError>
    ensures { IfOk result (λ is. is
        ≡ spec.model_overwrites (names_said files.entry) model.now prefix.now) }
{
    Ok(
        is_named(alloc, &four_names(files), prefix, ".route")?
            || is_named(alloc, &[model], prefix, ".route")?,
    )
}

// Whether the route of a placement that is looked for would be written over one of its files, or
// over the route that the search begins with.
fn route_overwrites(
    alloc: Global,
    files: ThreeNames<'_>,
    from: Option<&str>,
    prefix: &str,
) -> Result<bool, AllocError>
    ensures { IfOk result (λ is. is ≡ spec.route_overwrites (placed_names_said files.entry)
        (option_map (λ word. word.now) from.entry) prefix.now) }
{
    if is_named(alloc, &three_names(files), prefix, ".route")? {
        return Ok(true);
    }
    let Some(from) = from else {
        return Ok(false);
    };
    is_named(alloc, &[from], prefix, ".route")
}

// Whether a file of a search for the least width would be written over one of its files, or over
// the route that it begins with.
fn least_overwrites(
    alloc: Global,
    files: ThreeNames<'_>,
    from: Option<&str>,
    prefix: &str,
) -> Result<bool, AllocError>
    ensures { IfOk result (λ is. is ≡ spec.least_overwrites (placed_names_said files.entry)
        (option_map (λ word. word.now) from.entry) prefix.now) }
{
    if search_overwrites(alloc, &three_names(files), prefix)? {
        return Ok(true);
    }
    let Some(from) = from else {
        return Ok(false);
    };
    search_overwrites(alloc, &[from], prefix)
}
