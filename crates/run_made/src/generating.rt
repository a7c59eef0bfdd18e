//! The command `gen`: the four files of a generated problem.
ghost use Rattle.std.specs.Prelude.{◌≡◌, IfErr, IfOk, OnOk};
ghost use Rattle.fpga_problem.specs.Files.{names_behind};
ghost use Rattle.router_words.specs.Job.{gen_said, recipe_said};
ghost use Rattle.run_outcome.specs.Written.{WritesFiles};
ghost use Rattle.run_made.specs.Generated.{HasRoom, MakesNone, problem_files, texts_of, WritesGenerated};
ghost use Rattle.run_outcome.specs.declared.outcome.Outcome.TheVariants.{Done};

use desk_io::{BlockWriter, Failed, Prints, Shelf, write_file};
use route_gen::{FourTexts, GenStop, generate};
use router_words::{GenJob, Recipe};
use run_outcome::{Outcome, SizeCause, Slot, file_name};
use std::alloc::{AllocError, Global};
use std::marker::Model;

/// The texts of a generated problem. The error is what the run comes to.
pub fn make_texts(alloc: Global, recipe: Recipe) -> Result<FourTexts, Outcome>
    ensures texts { IfOk result (λ texts. texts ≡ texts_of (recipe_said recipe)) }
    ensures room { OnOk result (HasRoom (recipe_said recipe)) }
    ensures none { IfErr result (MakesNone (recipe_said recipe)) }
{
    match generate(alloc, recipe.seed, recipe.side, recipe.nets) {
        Ok(texts) => Ok(texts),
        Err(GenStop::Room) => Err(Outcome::Limit {
            file: None,
            code: SizeCause::GeneratedNets.code(),
            count: u64::from(recipe.nets),
        }),
        Err(GenStop::Memory) => Err(Outcome::OutOfMemory),
    }
}

// The names of the four files of a problem. Contracts see their bytes.
#[derive(Drop)]
struct ProblemNames {
    architecture: String,
    netlist: String,
    placement: String,
    route: String,
}

impl Model for ProblemNames {
    ghost use Rattle.std.specs.Prelude.{string_bytes};
    ghost use Rattle.fpga_problem.specs.Files.{FileNames};

    ghost Value = { FileNames };

    ghost view = { λ n. record {
      architecture = string_bytes n.architecture;
      netlist = string_bytes n.netlist;
      placement = string_bytes n.placement;
      route = string_bytes n.route;
    } };
}

impl ProblemNames {
    // The names behind a prefix.
    fn behind(alloc: Global, prefix: &str) -> Result<ProblemNames, AllocError>
        ensures { IfOk result (λ names. names ≡ names_behind prefix.now) }
    {
        Ok(ProblemNames {
            architecture: file_name(alloc, prefix, ".arch")?,
            netlist: file_name(alloc, prefix, ".net")?,
            placement: file_name(alloc, prefix, ".place")?,
            route: file_name(alloc, prefix, ".route")?,
        })
    }
}

// Prints a text as it is.
struct WholeText;

impl Prints<Vec<u8>> for WholeText {
    ghost text = { λ text. text.items };

    fn print<S: Shelf>(
        &self,
        writer: &mut BlockWriter,
        shelf: &mut S,
        item: &Vec<u8>,
    ) -> Result<(), Failed> {
        writer.write(shelf, item.as_slice())
    }
}

// Writes four texts, each under its name.
fn write_texts<S: Shelf>(shelf: &mut S, names: &ProblemNames, texts: &FourTexts) -> Outcome
    ensures { WritesFiles Done (problem_files names.now texts.now) (S.state shelf.old)
        (S.state shelf.new) result }
{
    let name = names.architecture.as_str();
    let Ok(()) = write_file(&WholeText, shelf, name, &texts.architecture) else {
        return Outcome::WriteFault {
            slot: Slot::Architecture,
        };
    };
    let name = names.netlist.as_str();
    let Ok(()) = write_file(&WholeText, shelf, name, &texts.netlist) else {
        return Outcome::WriteFault {
            slot: Slot::Netlist,
        };
    };
    let name = names.placement.as_str();
    let Ok(()) = write_file(&WholeText, shelf, name, &texts.placement) else {
        return Outcome::WriteFault {
            slot: Slot::Placement,
        };
    };
    let name = names.route.as_str();
    let Ok(()) = write_file(&WholeText, shelf, name, &texts.route) else {
        return Outcome::WriteFault {
            slot: Slot::GlobalRoute,
        };
    };
    Outcome::Done
}

/// Makes a problem from its recipe and writes its four files.
pub fn generate_files<S: Shelf>(alloc: Global, job: &GenJob<'_>, shelf: &mut S) -> Outcome
    ensures { WritesGenerated (gen_said job.now) (S.state shelf.old) (S.state shelf.new)
        result }
{
    let texts = match make_texts(alloc, job.recipe) {
        Ok(texts) => texts,
        Err(outcome) => return outcome,
    };
    let Ok(names) = ProblemNames::behind(alloc, job.prefix) else {
        return Outcome::OutOfMemory;
    };
    write_texts(shelf, &names, &texts)
}
