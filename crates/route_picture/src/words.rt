//! The words of the command.
ghost use Rattle.std.specs.Prelude.{◌≡◌, ◌≤◌, IfOk, IfSome, map, option_map, string_bytes};
ghost use Rattle.std.specs.Option.{option_copied};
ghost use Rattle.route_picture.specs.Files.{name_of};
ghost use Rattle.route_picture.specs.Page.{asks_page, is_html, picture_words};
ghost use Rattle.route_picture.specs.Words.{AnswersWords, RoutedAsked, asked, asked_of, number_said, routed_of, routed_said, words_said};

use crate::given_file::GivenFile;
use crate::stop::Stop;
use fpga_problem::TextFile;
use fpga_text::whole_number_of;
use fpga_types::{REACH_LIMIT, WIDTH_LIMIT};
use std::rt::Env;
use std::{env, io};

/// The names of the four files.
#[derive(Clone, Copy)]
pub(crate) struct FourNames<'a> {
    pub(crate) arch: &'a str,
    pub(crate) net: &'a str,
    pub(crate) place: &'a str,
    pub(crate) route: &'a str,
}

/// A file with a routing, and the reach within which it is to be legal.
#[derive(Clone, Copy)]
pub(crate) struct RoutedFile<'a> {
    pub(crate) file: &'a str,
    pub(crate) reach: u32,
}

/// The names of the four files, the width, the name of a file of names and what is said of a
/// routing, each if there is one.
#[derive(Clone, Copy)]
pub(crate) struct Words<'a> {
    pub(crate) files: FourNames<'a>,
    pub(crate) width: u32,
    pub(crate) names: Option<&'a str>,
    pub(crate) routed: Option<RoutedFile<'a>>,
}

impl<'a> Words<'a> {
    /// The name of a file, if the words give one.
    pub(crate) fn name(self, file: GivenFile) -> Option<&'a str>
        ensures { option_copied result ≡ name_of (words_said self.entry) file }
    {
        match file {
            GivenFile::Text(TextFile::Architecture) => Some(self.files.arch),
            GivenFile::Text(TextFile::Netlist) => Some(self.files.net),
            GivenFile::Text(TextFile::Placement) => Some(self.files.place),
            GivenFile::Text(TextFile::Route) => Some(self.files.route),
            GivenFile::Names => self.names,
            GivenFile::Routed => self.routed_name(),
        }
    }

    /// The name of the file with a routing, if the words give one.
    pub(crate) fn routed_name(self) -> Option<&'a str>
        ensures { option_copied result
            ≡ option_map (λ (r : RoutedAsked). r.file) (words_said self.entry).routed }
    {
        match self.routed {
            Some(routed) => Some(routed.file),
            None => None,
        }
    }
}

/// The words after the program's name.
pub(crate) fn given_words(rt: &(impl Env + AllocGlobal)) -> io::Result<Vec<String>> {
    let mut words = Vec::new(rt.alloc());
    for word in env::args(rt)?.skip(1) {
        words.push(word)?;
    }
    Ok(words)
}

/// The words that ask for a picture, and whether it is to stand in a page.
#[derive(Clone, Copy)]
pub(crate) struct PageWords<'a> {
    pub(crate) words: &'a [String],
    pub(crate) page: bool,
}

/// Takes `--html` from the end of the words, if it is there.
pub(crate) fn page_words(words: &[String]) -> PageWords<'_>
    ensures words { map string_bytes result.words.now
        ≡ picture_words (map string_bytes words.entry.now) }
    ensures page { result.page ≡ asks_page (map string_bytes words.entry.now) }
{
    let plain = PageWords { words, page: false };
    let Some((last, front)) = words.split_last() else {
        return plain;
    };
    if !is_html(last) {
        return plain;
    }
    PageWords {
        words: front,
        page: true,
    }
}

fn is_html(word: &String) -> bool
    ensures { result ≡ is_html (string_bytes word.now) }
{
    word.as_bytes() == b"--html".as_slice()
}

/// What the words ask for, without `--html` at their end.
pub(crate) fn read_words(words: &[String]) -> Result<Words<'_>, Stop>
    ensures asked { AnswersWords (asked (map string_bytes words.entry.now)) result }
    ensures width { IfOk result (λ words. (1 ≤ words.width) × (words.width ≤ WIDTH_LIMIT)) }
{
    if let [arch, net, place, route, word] = words {
        let files = four_names(arch, net, place, route);
        return at_width(files, word.as_str(), None, None);
    }
    if let [arch, net, place, route, word, names] = words {
        let files = four_names(arch, net, place, route);
        return at_width(files, word.as_str(), Some(names.as_str()), None);
    }
    let [arch, net, place, route, word, file, option, reach] = words else {
        return Err(Stop::Usage);
    };
    let Some(routed) = routed_file(file.as_str(), option.as_str(), reach.as_str()) else {
        return Err(Stop::Usage);
    };
    let files = four_names(arch, net, place, route);
    at_width(files, word.as_str(), None, Some(routed))
}

fn four_names<'a>(
    arch: &'a String,
    net: &'a String,
    place: &'a String,
    route: &'a String,
) -> FourNames<'a>
    ensures arch { result.arch.now ≡ string_bytes arch.now }
    ensures net { result.net.now ≡ string_bytes net.now }
    ensures place { result.place.now ≡ string_bytes place.now }
    ensures route { result.route.now ≡ string_bytes route.now }
{
    FourNames {
        arch: arch.as_str(),
        net: net.as_str(),
        place: place.as_str(),
        route: route.as_str(),
    }
}

// The file with a routing that these words say: its name, the option, and the reach.
fn routed_file<'a>(file: &'a str, option: &str, reach: &str) -> Option<RoutedFile<'a>>
    ensures { routed_of result ≡ routed_said file.entry.now option.now reach.now }
{
    if option.as_bytes() != b"--reach".as_slice() {
        return None;
    }
    let Some(reach) = number_said(reach, REACH_LIMIT) else {
        return None;
    };
    Some(RoutedFile { file, reach })
}

// What words with these names ask for, and with this word for the width.
fn at_width<'a>(
    files: FourNames<'a>,
    word: &str,
    names: Option<&'a str>,
    routed: Option<RoutedFile<'a>>,
) -> Result<Words<'a>, Stop>
    ensures asked { AnswersWords (asked_of files.entry word.now (option_copied names.entry)
        (routed_of routed.entry)) result }
    ensures width { IfOk result (λ words. (1 ≤ words.width) × (words.width ≤ WIDTH_LIMIT)) }
{
    let Some(width) = number_said(word, WIDTH_LIMIT) else {
        return Err(Stop::Usage);
    };
    Ok(Words {
        files,
        width,
        names,
        routed,
    })
}

// The number that a word says, if it is from 1 to a limit.
fn number_said(word: &str, limit: u32) -> Option<u32>
    ensures number { result ≡ number_said limit word.now }
    ensures range { IfSome result (λ number. (1 ≤ number) × (number ≤ limit)) }
{
    let number = whole_number_of(word.as_bytes())?;
    if number < 1 || number > limit as u64 {
        return None;
    }
    Some(number as u32)
}
