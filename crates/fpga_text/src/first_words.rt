//! The first words of a line, as many as any form has.
ghost use Rattle.std.specs.Prelude.{◌≡◌, ◌<◌, [], ◌∷◌, ◌++◌, length, map, take};

use crate::line::Line;
use std::marker::Model;

/// How many words of a line are looked at. No form has more than seven.
const LIMIT: usize = 8;

/// The first words of a line.
#[derive(Drop)]
pub struct FirstWords<'a> {
    words: [&'a [u8]; 8],
    count: usize,
}

impl<'a> Model for FirstWords<'a> {
    ghost use Rattle.std.specs.Prelude.{List, ℕ, ◌≤◌, map, take};

    ghost Value = { List (List ℕ) };

    ghost view = { λ w. take w.count (map (λ x. x.now) w.words) };

    ghost invariant = { λ w. w.count ≤ 8 };
}

impl<'a> FirstWords<'a> {
    /// The first eight words of a line, or all that it has.
    pub fn of(line: &mut Line<'a>) -> FirstWords<'a>
        ensures { result ≡ take 8 line.old.words }
    {
        let mut words = FirstWords::empty();
        while words.len() < LIMIT {
            let Some(word) = line.next_word() else {
                return words;
            };
            words.push(word.text);
        }
        words
    }

    /// The words.
    pub fn as_slice(&self) -> &[&'a [u8]]
        ensures { map (λ w. w.now) result.now ≡ self.now }
    {
        &self.words[..self.count]
    }

    fn empty() -> FirstWords<'a>
        ensures { result ≡ [] }
    {
        FirstWords {
            words: [&[]; 8],
            count: 0,
        }
    }

    fn len(&self) -> usize
        ensures { result ≡ length self.now }
    {
        self.count
    }

    fn push(&mut self, word: &'a [u8])
        requires { length self.old < 8 }
        ensures { self.new ≡ self.old ++ word.now ∷ [] }
    {
        self.words[self.count] = word;
        self.count += 1;
    }
}
