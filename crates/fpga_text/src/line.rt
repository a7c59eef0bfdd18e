//! A line of a text, and its words.
ghost use Rattle.std.specs.Prelude.{◌≡◌, not, drop, slice_get, option_map, option_and_then, IfSome, IfNone};
ghost use Rattle.fpga_text.specs.Bytes.{is_empty};
ghost use Rattle.fpga_text.specs.Numbers.{signed_number_of};
ghost use Rattle.fpga_text.specs.Said.{decimal_said, is_text, whole_said};

use crate::cut::{first_blank, from_first_word, part_at};
use crate::front::front_number;
use crate::joined::front_part;
use crate::number::{millionths_of, signed_number_of, whole_number_of};
use std::marker::Model;

/// A word, and the number of its line.
#[derive(Clone, Copy)]
pub struct Word<'a> {
    pub line: u64,
    pub text: &'a [u8],
}

impl<'a> Word<'a> {
    ghost use Rattle.std.specs.Prelude.{bytes_eq};

    /// Whether the word is this text.
    pub fn is(self, text: &[u8]) -> bool
        ensures { result ≡ bytes_eq self.entry.text.now text.now }
    {
        self.text == text
    }
}

/// A line: its number, its bytes without the newline, and its words that were not yet taken.
#[derive(Drop)]
pub struct Line<'a> {
    number: u64,
    last: u64,
    raw: &'a [u8],
    rest: &'a [u8],
    /// The text that the line goes on in, if it does.
    later: &'a [u8],
}

impl<'a> Model for Line<'a> {
    ghost use Rattle.std.specs.Prelude.{IsTrue, ◌++◌};
    ghost use Rattle.fpga_text.specs.Words.{TextLine, words, begins_word, words_later};

    ghost Value = { TextLine };

    ghost view = { λ l. record {
      number = l.number;
      last = l.last;
      raw = l.raw.now;
      words = words l.rest.now ++ words_later l.later.now;
    } };

    ghost invariant = { λ l. IsTrue (begins_word l.rest.now) };
}

impl<'a> Line<'a> {
    ghost use Rattle.std.specs.Prelude.{◌++◌};
    ghost use Rattle.fpga_text.specs.Words.{words, words_later};

    /// The line with these bytes, whose words are those of `said`, and of the parts of a line that
    /// goes on in `later`; its last part has the number `last`.
    pub(crate) fn new(
        number: u64,
        last: u64,
        raw: &'a [u8],
        said: &'a [u8],
        later: &'a [u8],
    ) -> Line<'a>
        ensures { result ≡ record {
          number = number;
          last = last;
          raw = raw.now;
          words = words said.now ++ words_later later.now;
        } }
    {
        Line {
            number,
            last,
            raw,
            rest: from_first_word(said),
            later,
        }
    }

    /// The number of the line in its text, from 1 on: of a joined line that of its first part.
    pub fn number(&self) -> u64
        ensures { result ≡ self.now.number }
    {
        self.number
    }

    /// The bytes of the line, its comment too, without the newline: of a joined line those of its
    /// first part.
    pub fn raw(&self) -> &'a [u8]
        ensures { result.now ≡ self.now.raw }
    {
        self.raw
    }

    /// Whether there are words that were not yet taken.
    #[inline(always)]
    pub fn has_words(&self) -> bool
        ensures { result ≡ not (is_empty self.now.words) }
    {
        !front_part(self.rest, self.later).words.is_empty()
    }

    /// The next word, or None after the last one.
    pub fn next_word(&mut self) -> Option<Word<'a>>
        ensures word { option_map (λ w. w.text.now) result ≡ slice_get self.old.words 0 }
        ensures line { IfSome result (λ w. w.line ≡ self.old.number) }
        ensures after { self.new ≡ record self.old { words = drop 1 self.old.words } }
    {
        let front = front_part(self.rest, self.later);
        if front.words.is_empty() {
            return None;
        }
        let (text, rest) = part_at(front.words, first_blank(front.words));
        self.rest = from_first_word(rest);
        self.later = front.later;
        Some(Word {
            line: self.number,
            text,
        })
    }

    /// Whether there is a next word that is this text. It is taken, whatever it is.
    pub fn next_is(&mut self, text: &[u8]) -> bool
        ensures is { result ≡ is_text text.now (slice_get self.old.words 0) }
        ensures after { self.new ≡ record self.old { words = drop 1 self.old.words } }
    {
        let Some(word) = self.next_word() else {
            return false;
        };
        word.is(text)
    }

    /// The whole number that the next word says, or None where there is no such word or it says
    /// none. It is taken, whatever it is.
    pub fn next_whole(&mut self) -> Option<u64>
        ensures number { result ≡ whole_said (slice_get self.old.words 0) }
        ensures after { self.new ≡ record self.old { words = drop 1 self.old.words } }
    {
        let Some(word) = self.next_word() else {
            return None;
        };
        whole_number_of(word.text)
    }

    /// The decimal that the next word says, in millionths, or None where there is no such word or
    /// it says none. It is taken, whatever it is.
    pub fn next_millionths(&mut self) -> Option<u64>
        ensures number { result ≡ decimal_said (slice_get self.old.words 0) }
        ensures after { self.new ≡ record self.old { words = drop 1 self.old.words } }
    {
        let Some(word) = self.next_word() else {
            return None;
        };
        millionths_of(word.text)
    }

    /// The number that the next word says, or None: exactly where there is no next word, or it says
    /// no number of 64 bits with its sign. That word is then not taken.
    // Inlined, so that what is left of the line stays in registers from one number to the next.
    #[inline(always)]
    pub fn next_number(&mut self) -> Option<i64>
        ensures number { result ≡ option_and_then signed_number_of (slice_get self.old.words 0) }
        ensures after { IfSome result
            (λ _. self.new ≡ record self.old { words = drop 1 self.old.words }) }
        ensures kept { IfNone result (self.new ≡ self.old) }
    {
        let Some(front) = front_number(self.rest) else {
            return self.next_long_number();
        };
        self.rest = front.behind;
        Some(front.value)
    }

    /// The same, by the whole word.
    fn next_long_number(&mut self) -> Option<i64>
        ensures number { result ≡ option_and_then signed_number_of (slice_get self.old.words 0) }
        ensures after { IfSome result
            (λ _. self.new ≡ record self.old { words = drop 1 self.old.words }) }
        ensures kept { IfNone result (self.new ≡ self.old) }
    {
        if !self.has_words() {
            return None;
        }
        let mut behind = self.again();
        let Some(word) = behind.next_word() else {
            return None;
        };
        let Some(number) = signed_number_of(word.text) else {
            return None;
        };
        self.rest = behind.rest;
        self.later = behind.later;
        Some(number)
    }

    /// The same line, with the same words ahead.
    pub fn again(&self) -> Line<'a>
        ensures { result ≡ self.now }
    {
        Line {
            number: self.number,
            last: self.last,
            raw: self.raw,
            rest: self.rest,
            later: self.later,
        }
    }
}
