//! From words to a picture on standard output.
ghost use Rattle.std.specs.Prelude.{◌≡◌, ◌≤◌, IfErr, IfOk, MatchResult, OnOk, Option as OptionOf, map, option_map, string_bytes};
ghost use Rattle.std.specs.Option.{option_copied};
ghost use Rattle.desk_io.specs.DeskState.{DeskState};
ghost use Rattle.desk_io.specs.Files.{FileMap};
ghost use Rattle.fpga_problem.specs.Texts.{AreFaultless, problem_said};
ghost use Rattle.fpga_problem.specs.declared.source.TheConstants.{TEXT_BYTES};
ghost use Rattle.fpga_types.specs.declared.limits.TheConstants.{WIDTH_LIMIT};
ghost use Rattle.route_picture.specs.Files.{AreRead, AreTexts, IsText, IsTextIf, IsUnread, StopsAt, StopsAtIf};
ghost use Rattle.route_picture.specs.Printed.{IsDrawn, IsPrinted, IsStopped, IsUndrawn};
ghost use Rattle.route_picture.specs.Words.{words_said};

use crate::blame::emphasis;
use crate::cut::shown_cut;
use crate::file_texts::FileTexts;
use crate::given_file::GivenFile;
use crate::page::printed;
use crate::shown::shown;
use crate::stop::Stop;
use crate::words::{FourNames, PageWords, Words, page_words, read_words};
use desk_io::{Desk, ReadStop, Shelf, read_file};
use fpga_bounds::PlacedProblem;
use fpga_problem::{TEXT_BYTES, TextFile, read_problem};
use std::alloc::Global;

/// Prints the picture that the words ask for: reads their files at the desk, and says the picture
/// to the shelf.
///
/// Where it gives no picture it says why, and the shelf is as it was, but where that failed.
pub(crate) fn print_picture<D: Desk, S: Shelf>(
    alloc: Global,
    desk: &mut D,
    shelf: &mut S,
    words: &[String],
) -> Result<(), Stop>
    ensures printed { OnOk result (IsPrinted (map string_bytes words.entry.now) TEXT_BYTES
        (D.state desk.old).files (S.state shelf.old) (S.state shelf.new)) }
    ensures stopped { IfErr result (IsStopped (map string_bytes words.entry.now) TEXT_BYTES
        (D.state desk.old) (D.state desk.new) (S.state shelf.old) (S.state shelf.new)) }
{
    let PageWords { words, page } = page_words(words);
    let words = match read_words(words) {
        Ok(words) => words,
        Err(stop) => return Err(stop),
    };
    let picture = match picture(alloc, desk, words) {
        Ok(picture) => picture,
        Err(stop) => return Err(stop),
    };
    let text = match printed(alloc, page, picture) {
        Ok(text) => text,
        Err(stop) => return Err(stop),
    };
    let Ok(()) = shelf.say(text.as_bytes()) else {
        return Err(Stop::Unprinted);
    };
    Ok(())
}

// The picture of the files that the words name.
fn picture<D: Desk>(alloc: Global, desk: &mut D, words: Words<'_>) -> Result<String, Stop>
    requires { (1 ≤ words.width) × (words.width ≤ WIDTH_LIMIT) }
    ensures { MatchResult result
        (λ picture. IsDrawn (words_said words.entry) TEXT_BYTES (D.state desk.old).files
        (string_bytes picture))
        (IsUndrawn (words_said words.entry) TEXT_BYTES (D.state desk.old) (D.state desk.new)) }
{
    let texts = match read_texts(alloc, desk, words) {
        Ok(texts) => texts,
        Err(stop) => return Err(stop),
    };
    picture_of_texts(alloc, words, &texts)
}

// The picture of what the texts say.
fn picture_of_texts(alloc: Global, words: Words<'_>, texts: &FileTexts) -> Result<String, Stop>
    requires { (1 ≤ words.width) × (words.width ≤ WIDTH_LIMIT) }
    ensures { MatchResult result
        (λ picture. (files : OptionOf FileMap)
        → AreTexts (words_said words.entry) TEXT_BYTES files texts.now
        → IsDrawn (words_said words.entry) TEXT_BYTES files (string_bytes picture))
        (λ stop. (before now : DeskState)
        → AreTexts (words_said words.entry) TEXT_BYTES before.files texts.now
        → IsUndrawn (words_said words.entry) TEXT_BYTES before now stop) }
{
    let problem = match read_problem(alloc, &texts.four()) {
        Ok(problem) => problem,
        Err(refusal) => return Err(Stop::Faulty(refusal)),
    };
    picture_of_problem(alloc, words, texts, &problem)
}

// The picture of the problem that the texts say.
fn picture_of_problem<'a>(
    alloc: Global,
    words: Words<'_>,
    texts: &'a FileTexts,
    problem: &'a PlacedProblem,
) -> Result<String, Stop>
    requires { (1 ≤ words.width) × (words.width ≤ WIDTH_LIMIT) }
    ensures { MatchResult result
        (λ picture. (files : OptionOf FileMap)
        → AreTexts (words_said words.entry) TEXT_BYTES files texts.now
        → AreFaultless (texts.now).four → problem.now ≡ problem_said (texts.now).four
        → IsDrawn (words_said words.entry) TEXT_BYTES files (string_bytes picture))
        (λ stop. (before now : DeskState)
        → AreTexts (words_said words.entry) TEXT_BYTES before.files texts.now
        → AreFaultless (texts.now).four → problem.now ≡ problem_said (texts.now).four
        → IsUndrawn (words_said words.entry) TEXT_BYTES before now stop) }
{
    let nets = problem.netlist().nets.as_slice();
    let names = texts.names();
    let emphasis = match emphasis(alloc, nets, names) {
        Ok(emphasis) => emphasis,
        Err(stop) => return Err(stop),
    };
    let cut = shown_cut(names);
    shown(alloc, problem, words, texts.routed(), &emphasis, cut)
}

// The bytes of the files that the words name.
fn read_texts<D: Desk>(alloc: Global, desk: &mut D, words: Words<'_>) -> Result<FileTexts, Stop>
    ensures { MatchResult result
        (λ texts. AreRead (words_said words.entry) TEXT_BYTES (D.state desk.old) texts
        (D.state desk.new))
        (IsUnread (words_said words.entry) TEXT_BYTES (D.state desk.old) (D.state desk.new)) }
{
    let FourNames {
        arch,
        net,
        place,
        route,
    } = words.files;
    let architecture = match bytes(alloc, desk, arch, GivenFile::Text(TextFile::Architecture)) {
        Ok(bytes) => bytes,
        Err(stop) => return Err(stop),
    };
    let netlist = match bytes(alloc, desk, net, GivenFile::Text(TextFile::Netlist)) {
        Ok(bytes) => bytes,
        Err(stop) => return Err(stop),
    };
    let placement = match bytes(alloc, desk, place, GivenFile::Text(TextFile::Placement)) {
        Ok(bytes) => bytes,
        Err(stop) => return Err(stop),
    };
    let route = match bytes(alloc, desk, route, GivenFile::Text(TextFile::Route)) {
        Ok(bytes) => bytes,
        Err(stop) => return Err(stop),
    };
    let names = match bytes_if(alloc, desk, words.names, GivenFile::Names) {
        Ok(names) => names,
        Err(stop) => return Err(stop),
    };
    let routed = match bytes_if(alloc, desk, words.routed_name(), GivenFile::Routed) {
        Ok(routed) => routed,
        Err(stop) => return Err(stop),
    };
    Ok(FileTexts {
        architecture,
        netlist,
        placement,
        route,
        names,
        routed,
    })
}

// The bytes of a file that may be not asked for.
fn bytes_if<D: Desk>(
    alloc: Global,
    desk: &mut D,
    name: Option<&str>,
    file: GivenFile,
) -> Result<Option<Vec<u8>>, Stop>
    ensures files { (D.state desk.new).files ≡ (D.state desk.old).files }
    ensures bytes { IfOk result (λ bytes. IsTextIf (D.state desk.old).files
        (option_copied name.entry) TEXT_BYTES (option_map (λ bytes. bytes.items) bytes)) }
    ensures faults { IfOk result (λ _. (D.state desk.new).faults ≡ (D.state desk.old).faults) }
    ensures stop { IfErr result (λ stop. StopsAtIf file (option_copied name.entry) TEXT_BYTES
        (D.state desk.old).files (D.state desk.old).faults (D.state desk.new) stop) }
{
    let Some(name) = name else {
        return Ok(None);
    };
    match bytes(alloc, desk, name, file) {
        Ok(bytes) => Ok(Some(bytes)),
        Err(stop) => Err(stop),
    }
}

// The bytes of one of the files, which has this name.
fn bytes<D: Desk>(alloc: Global, desk: &mut D, name: &str, file: GivenFile) -> Result<Vec<u8>, Stop>
    ensures files { (D.state desk.new).files ≡ (D.state desk.old).files }
    ensures bytes { IfOk result
        (λ bytes. IsText (D.state desk.old).files name.now TEXT_BYTES bytes.items) }
    ensures faults { IfOk result (λ _. (D.state desk.new).faults ≡ (D.state desk.old).faults) }
    ensures stop { IfErr result (StopsAt file name.now TEXT_BYTES
        (D.state desk.old).files (D.state desk.old).faults (D.state desk.new)) }
{
    match read_file(alloc, desk, name, TEXT_BYTES) {
        Ok(bytes) => Ok(bytes),
        Err(ReadStop::Fault) => Err(Stop::Unread(file)),
        Err(ReadStop::TooLong) => Err(Stop::TooLong(file)),
        Err(ReadStop::Memory) => Err(Stop::Memory),
    }
}
