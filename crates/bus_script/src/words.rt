//! The words of a line.

ghost use Rattle.std.specs.Prelude.{◌≡◌, ◌∷◌, [], IfSome, IfNone};
ghost use Rattle.bus_script.specs.Grammar.{words_of, arguments_of};

use super::pieces::split_at_first;
use std::marker::Model;

/// The words of a line that are left to look at. A space too many makes a word of no byte.
#[derive(Drop)]
pub struct Words<'a> {
    rest: Option<&'a [u8]>,
}

impl<'a> Model for Words<'a> {
    ghost use Rattle.std.specs.Prelude.{ℕ, List};
    ghost use Rattle.std.specs.Option.{option_copied};
    ghost use Rattle.bus_script.specs.Grammar.{words_left};

    ghost Value = { List (List ℕ) };

    ghost view = { λ a. words_left (option_copied a.rest) };
}

impl<'a> Words<'a> {
    /// All words of a line.
    pub fn new(line: &'a [u8]) -> Words<'a>
        ensures { result ≡ words_of line.entry.now }
    {
        Words { rest: Some(line) }
    }

    /// Takes the next word.
    pub fn next_word(&mut self) -> Option<&'a [u8]>
        ensures some { IfSome result (λ word. self.old ≡ word.now ∷ self.new) }
        ensures none { IfNone result (self.old ≡ []) }
    {
        let line = self.rest?;
        let (word, rest) = split_at_first(line, b' ');
        self.rest = rest;
        Some(word)
    }
}

/// The words behind the first one of a line, where the first one is the keyword.
pub fn words_behind<'a>(line: &'a [u8], keyword: &[u8]) -> Option<Words<'a>>
    ensures { result ≡ arguments_of keyword.now line.entry.now }
{
    let mut words = Words::new(line);
    let first = words.next_word()?;
    if first == keyword { Some(words) } else { None }
}
