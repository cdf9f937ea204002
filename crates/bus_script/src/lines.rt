//! The lines of a script that say something.

ghost use Rattle.std.specs.Prelude.{◌≡◌, ◌∷◌, [], ◌<◌, length, IfSome, IfNone};
ghost use Rattle.bus_script.specs.Grammar.{lines_of, is_passed_over, script_lines};

use super::pieces::split_at_first;
use std::marker::Model;

/// A line of a script.
#[derive(Clone, Copy)]
pub struct Line<'a> {
    /// The first line of a script has number 1.
    pub number: u64,
    /// Without the line feed.
    pub bytes: &'a [u8],
}

/// The lines of a script that are left to look at, without those that are passed over.
#[derive(Drop)]
pub struct Lines<'a> {
    rest: &'a [u8],
    passed: u64,
}

impl<'a> Model for Lines<'a> {
    ghost use Rattle.std.specs.Prelude.{ℕ, List, ◌+◌, ◌<◌, ◌^◌, length};
    ghost use Rattle.bus_script.specs.Grammar.{lines_from};

    ghost Value = { List (ℕ × List ℕ) };

    ghost view = { λ a. lines_from (a.passed + 1) a.rest.now };

    ghost invariant = { λ a. a.passed + length a.rest.now < 2 ^ 64 };
}

impl<'a> Lines<'a> {
    /// All lines of a script that are not passed over.
    pub fn new(script: &'a [u8]) -> Lines<'a>
        ensures { result ≡ script_lines script.entry.now }
    {
        Lines {
            rest: script,
            passed: 0,
        }
    }

    /// Takes the next line.
    pub fn next_line(&mut self) -> Option<Line<'a>>
        ensures some { IfSome result
            (λ line. self.old ≡ (line.number, line.bytes.now) ∷ self.new) }
        ensures none { IfNone result (self.old ≡ []) }
    {
        while !self.rest.is_empty() {
            let (bytes, rest) = first_line(self.rest);
            self.rest = rest;
            self.passed += 1;
            if !is_passed_over(bytes) {
                return Some(Line {
                    number: self.passed,
                    bytes,
                });
            }
        }
        None
    }
}

/// The first line, and the text behind it.
fn first_line(text: &[u8]) -> (&[u8], &[u8])
    requires { 0 < length text.now }
    ensures lines { lines_of text.now ≡ result.0.now ∷ lines_of result.1.now }
    ensures shorter { length result.1.now < length text.now }
{
    let (line, rest) = split_at_first(text, b'\n');
    (line, rest.unwrap_or(&[]))
}

/// Whether a line says nothing: it is empty, or a comment.
fn is_passed_over(line: &[u8]) -> bool
    ensures { result ≡ is_passed_over line.now }
{
    match line {
        [] => true,
        [first, ..] => *first == b'#',
    }
}
