//! What words and the values of options say.
ghost use Rattle.std.specs.Prelude.{◌≡◌};
ghost use Rattle.usage_words.specs.Item as spec;

use fpga_text::whole_number_of;

/// What a word, or the value of an option, says.
#[derive(Clone, Copy)]
pub(crate) enum Item {
    Arch,
    Net,
    Place,
    Route,
    Width,
    Max,
    Prefix,
    Routed,
    Cnf,
    Lrat,
    Model,
    Seed,
    Nx,
    Nets,
    Conflicts,
    Reach,
    Members,
    MemberSeed,
    From,
    Rounds,
    Seconds,
}

/// The numbers that an item may be.
#[derive(Clone, Copy)]
pub(crate) struct Range {
    pub least: u64,
    pub greatest: u64,
}

impl Item {
    /// The option with a value that a word names.
    pub(crate) fn option(word: &str) -> Option<Item>
        ensures { result ≡ spec.option_named word.now }
    {
        if word == "--conflicts" {
            return Some(Item::Conflicts);
        }
        if word == "--reach" {
            return Some(Item::Reach);
        }
        if word == "--members" {
            return Some(Item::Members);
        }
        if word == "--seed" {
            return Some(Item::MemberSeed);
        }
        if word == "--from" {
            return Some(Item::From);
        }
        if word == "--rounds" {
            return Some(Item::Rounds);
        }
        if word == "--seconds" {
            return Some(Item::Seconds);
        }
        None
    }

    /// How it is called: as in the line of what a command takes, or by its option.
    pub(crate) fn name(self) -> &'static str
        ensures { result.now ≡ spec.name_of self }
    {
        match self {
            Item::Arch => "ARCH",
            Item::Net => "NET",
            Item::Place => "PLACE",
            Item::Route => "ROUTE",
            Item::Width => "WIDTH",
            Item::Max => "MAX",
            Item::Prefix => "PREFIX",
            Item::Routed => "ROUTED",
            Item::Cnf => "CNF",
            Item::Lrat => "LRAT",
            Item::Model => "MODEL",
            Item::Seed => "SEED",
            Item::Nx => "NX",
            Item::Nets => "NETS",
            Item::Conflicts => "--conflicts",
            Item::Reach => "--reach",
            Item::Members => "--members",
            Item::MemberSeed => "--seed",
            Item::From => "--from",
            Item::Rounds => "--rounds",
            Item::Seconds => "--seconds",
        }
    }

    /// The numbers that it may be, if it is to be one.
    pub(crate) fn range(self) -> Option<Range>
        ensures { result ≡ spec.range_of self }
    {
        match self {
            Item::Width | Item::Max | Item::Reach => from_to(1, 64),
            Item::Seed | Item::MemberSeed => from_to(0, 2_147_483_647),
            Item::Nx => from_to(1, 100),
            Item::Nets => from_to(1, 10_000),
            Item::Conflicts => from_to(1, 100_000_000),
            Item::Members => from_to(1, 8),
            Item::Rounds => from_to(1, 100_000),
            Item::Seconds => from_to(1, 1_000_000),
            Item::Arch
            | Item::Net
            | Item::Place
            | Item::Route
            | Item::Prefix
            | Item::Routed
            | Item::Cnf
            | Item::Lrat
            | Item::Model
            | Item::From => None,
        }
    }

    /// Whether a word says it: a number in its range, where it is to be one.
    pub(crate) fn takes(self, word: &str) -> bool
        ensures { result ≡ spec.takes self word.now }
    {
        let Some(range) = self.range() else {
            return true;
        };
        let Some(number) = whole_number_of(word.as_bytes()) else {
            return false;
        };
        range.least <= number && number <= range.greatest
    }
}

fn from_to(least: u64, greatest: u64) -> Option<Range>
    ensures { result ≡ spec.from_to least greatest }
{
    Some(Range { least, greatest })
}
