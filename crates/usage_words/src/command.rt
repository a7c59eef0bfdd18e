//! The commands, and what each takes behind its name.
ghost use Rattle.std.specs.Prelude.{◌≡◌, ◌≤◌, IfSome};
ghost use Rattle.usage_words.specs.Command as spec;
ghost use Rattle.usage_words.specs.Word.{words_of};

use crate::item::Item;

/// A command, by its first word.
#[derive(Clone, Copy)]
pub(crate) enum Command {
    Route,
    Sweep,
    Encode,
    Decode,
    Core,
    Check,
    Verify,
    Judge,
    Bound,
    Global,
    Least,
    Gen,
    Trial,
}

/// The command that a word names, if it names one.
pub(crate) fn command_of(name: &str) -> Option<Command>
    ensures { result ≡ spec.command_of name.now }
{
    if name == "route" {
        return Some(Command::Route);
    }
    if name == "sweep" {
        return Some(Command::Sweep);
    }
    if name == "encode" {
        return Some(Command::Encode);
    }
    if name == "decode" {
        return Some(Command::Decode);
    }
    if name == "core" {
        return Some(Command::Core);
    }
    if name == "check" {
        return Some(Command::Check);
    }
    if name == "verify" {
        return Some(Command::Verify);
    }
    if name == "judge" {
        return Some(Command::Judge);
    }
    if name == "bound" {
        return Some(Command::Bound);
    }
    if name == "global" {
        return Some(Command::Global);
    }
    if name == "least" {
        return Some(Command::Least);
    }
    if name == "gen" {
        return Some(Command::Gen);
    }
    if name == "trial" {
        return Some(Command::Trial);
    }
    None
}

impl Command {
    /// Its name.
    pub(crate) fn name(self) -> &'static str
        ensures { result.now ≡ spec.name_of self }
    {
        match self {
            Command::Route => "route",
            Command::Sweep => "sweep",
            Command::Encode => "encode",
            Command::Decode => "decode",
            Command::Core => "core",
            Command::Check => "check",
            Command::Verify => "verify",
            Command::Judge => "judge",
            Command::Bound => "bound",
            Command::Global => "global",
            Command::Least => "least",
            Command::Gen => "gen",
            Command::Trial => "trial",
        }
    }

    /// What the word with this number behind its name says, counted from 0 and without options.
    pub(crate) fn word(self, number: u32) -> Option<Item>
        ensures is { result ≡ spec.word_of self number }
        ensures few { IfSome result (λ _. number ≤ 6) }
    {
        match self {
            Command::Route | Command::Encode | Command::Core => on_problem(number, Item::Width),
            Command::Sweep => on_problem(number, Item::Max),
            Command::Decode => match number {
                5 => Some(Item::Model),
                6 => Some(Item::Prefix),
                _ => on_problem(number, Item::Width),
            },
            Command::Verify => match number {
                5 => Some(Item::Routed),
                _ => on_problem(number, Item::Width),
            },
            Command::Check => match number {
                0 => Some(Item::Cnf),
                1 => Some(Item::Lrat),
                _ => None,
            },
            Command::Judge => match number {
                4 => Some(Item::Routed),
                _ => on_placement(number, Item::Width),
            },
            Command::Bound => placed(number),
            Command::Global => on_placement(number, Item::Width),
            Command::Least => on_placement(number, Item::Max),
            Command::Gen => match number {
                3 => Some(Item::Prefix),
                _ => recipe(number),
            },
            Command::Trial => match number {
                3 => Some(Item::Max),
                4 => Some(Item::Prefix),
                _ => recipe(number),
            },
        }
    }

    /// The option with a value that a word names, if the command has it.
    pub(crate) fn option(self, word: &str) -> Option<Item>
        ensures { result ≡ spec.option_of self word.now }
    {
        let item = Item::option(word)?;
        if self.has_option(item) {
            return Some(item);
        }
        None
    }

    fn has_option(self, item: Item) -> bool
        ensures { result ≡ spec.has_option self item }
    {
        match item {
            Item::Conflicts => {
                matches!(
                    self,
                    Command::Route | Command::Sweep | Command::Core | Command::Trial
                )
            }
            Item::Seconds => matches!(
                self,
                Command::Route
                    | Command::Sweep
                    | Command::Core
                    | Command::Global
                    | Command::Least
                    | Command::Trial
            ),
            Item::Reach => matches!(
                self,
                Command::Route
                    | Command::Sweep
                    | Command::Encode
                    | Command::Decode
                    | Command::Verify
                    | Command::Trial
            ),
            Item::Members | Item::MemberSeed => matches!(self, Command::Route | Command::Sweep),
            Item::From | Item::Rounds => matches!(self, Command::Global | Command::Least),
            _ => false,
        }
    }

    /// Whether a word is an option of the command that has no value.
    pub(crate) fn has_flag(self, word: &str) -> bool
        ensures { result ≡ spec.has_flag self word.now }
    {
        match self {
            Command::Route | Command::Sweep => is_symmetry(word) || is_effort(word),
            Command::Encode => is_symmetry(word) || word == "--names",
            Command::Decode => is_symmetry(word),
            Command::Core => is_symmetry(word) || word == "--stats",
            Command::Trial => is_effort(word),
            Command::Verify => word == "--all",
            Command::Judge => word == "--strict",
            Command::Global | Command::Least => word == "--free" || word == "--stats",
            Command::Check | Command::Bound | Command::Gen => false,
        }
    }
}

// What a search may be told without a value.
fn is_effort(word: &str) -> bool
    ensures { result ≡ spec.is_effort word.now }
{
    word == "--keep" || word == "--count" || word == "--stats"
}

// A way to break the symmetry of tracks.
fn is_symmetry(word: &str) -> bool
    ensures { result ≡ spec.is_symmetry word.now }
{
    word == "--pin" || word == "--symmetry"
}

// ARCH NET PLACE
fn placed(number: u32) -> Option<Item>
    ensures is { result ≡ spec.placed number }
    ensures few { IfSome result (λ _. number ≤ 6) }
{
    match number {
        0 => Some(Item::Arch),
        1 => Some(Item::Net),
        2 => Some(Item::Place),
        _ => None,
    }
}

// ARCH NET PLACE WIDTH PREFIX, or with MAX
fn on_placement(number: u32, width: Item) -> Option<Item>
    ensures is { result ≡ spec.on_placement number width }
    ensures few { IfSome result (λ _. number ≤ 6) }
{
    match number {
        3 => Some(width),
        4 => Some(Item::Prefix),
        _ => placed(number),
    }
}

// ARCH NET PLACE ROUTE WIDTH PREFIX, or with MAX
fn on_problem(number: u32, width: Item) -> Option<Item>
    ensures is { result ≡ spec.on_problem number width }
    ensures few { IfSome result (λ _. number ≤ 6) }
{
    match number {
        3 => Some(Item::Route),
        4 => Some(width),
        5 => Some(Item::Prefix),
        _ => placed(number),
    }
}

// SEED NX NETS
fn recipe(number: u32) -> Option<Item>
    ensures is { result ≡ spec.recipe number }
    ensures few { IfSome result (λ _. number ≤ 6) }
{
    match number {
        0 => Some(Item::Seed),
        1 => Some(Item::Nx),
        2 => Some(Item::Nets),
        _ => None,
    }
}
