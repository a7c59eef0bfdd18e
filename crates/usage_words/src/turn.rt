//! What a word of a command is, behind those before it.
ghost use Rattle.std.specs.Prelude.{◌≡◌};
ghost use Rattle.usage_words.specs.Turn as spec;

use crate::command::Command;
use crate::item::Item;

/// What the words so far have come to.
#[derive(Clone, Copy)]
pub(crate) struct Standing {
    /// How many words without a dash there were.
    pub words: u32,
    /// The option whose value is to come.
    pub option: Option<Item>,
}

/// What a word is behind those.
#[derive(Clone, Copy)]
pub(crate) enum Turn {
    /// It may stand here, and this is what the words have come to.
    Goes(Standing),
    /// It names no option that the command has.
    NoOption,
    /// The option before it has no value.
    NoValue(Item),
    /// The command takes no more words.
    TooMany,
    /// It is not in the range of what it is to say.
    OutOfRange(Item),
    /// What comes behind it is not told by its form.
    Open,
}

/// What the word is, behind words that have come to this.
pub(crate) fn turn_of(command: Command, standing: Standing, word: &str) -> Turn
    ensures { result ≡ spec.turn_of command standing word.now }
{
    match standing.option {
        Some(item) => value(standing, item, word),
        None if has_dash(word) => option(command, standing, word),
        None => plain(command, standing, word),
    }
}

// As the value of an option.
fn value(standing: Standing, item: Item, word: &str) -> Turn
    ensures { result ≡ spec.value standing item word.now }
{
    if has_dash(word) {
        return Turn::NoValue(item);
    }
    if !item.takes(word) {
        return Turn::OutOfRange(item);
    }
    Turn::Goes(Standing {
        words: standing.words,
        option: None,
    })
}

// As an option.
fn option(command: Command, standing: Standing, word: &str) -> Turn
    ensures { result ≡ spec.option command standing word.now }
{
    if command.has_flag(word) {
        return Turn::Goes(standing);
    }
    if let Some(item) = command.option(word) {
        return Turn::Goes(Standing {
            words: standing.words,
            option: Some(item),
        });
    }
    if word == "--" || has_equals(word) {
        return Turn::Open;
    }
    Turn::NoOption
}

// As a word without a dash.
fn plain(command: Command, standing: Standing, word: &str) -> Turn
    ensures { result ≡ spec.plain command standing word.now }
{
    let Some(item) = command.word(standing.words) else {
        return Turn::TooMany;
    };
    if !item.takes(word) {
        return Turn::OutOfRange(item);
    }
    Turn::Goes(Standing {
        words: standing.words + 1,
        option: None,
    })
}

// Whether a word begins with a dash, and has more.
fn has_dash(word: &str) -> bool
    ensures { result ≡ spec.has_dash word.now }
{
    let [first, _, ..] = word.as_bytes() else {
        return false;
    };
    *first == b'-'
}

// Whether there is an equals sign in it.
fn has_equals(word: &str) -> bool
    ensures { result ≡ spec.has_equals word.now }
{
    word.as_bytes().contains(&b'=')
}
