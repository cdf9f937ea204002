//! What breaks the form of a line, whichever command reads it.

use crate::reasons::{Reason, Word};
use bus_script::{Words, number_of};

/// What is wrong with the bytes between the words of a line.
pub fn spacing_of(line: &[u8]) -> Option<Reason<'static>> {
    if line.ends_with(b"\r") {
        return Some(Reason::Note(
            "it ends with a carriage return; lines end with a line feed alone, and not as CRLF",
        ));
    }
    if line.contains(&b'\t') {
        return Some(Reason::Note("it has a tab; words are separated by one space"));
    }
    let mut words = Words::new(line);
    while let Some(word) = words.next_word() {
        if word.is_empty() {
            return Some(Reason::Note(
                "it has a space too many; one stands between words, none before or behind them",
            ));
        }
    }
    None
}

/// Of what other input a line is, by its first word.
pub fn other_input(first: &[u8]) -> Option<Reason<'static>> {
    if first == b"inputs".as_slice() || first == b"steps".as_slice() {
        return Some(Reason::Note("it is a line of a script for 'bus ratify'"));
    }
    if is_of_replay(first) {
        return Some(Reason::Note("it is a line of a script for 'bus replay' or 'bus trace'"));
    }
    if first.len() == 16 && are_digits(first) {
        return Some(Reason::Note("it is a word of a log, for 'bus log'"));
    }
    None
}

/// Whether lines of a script of `replay` begin with this word.
fn is_of_replay(first: &[u8]) -> bool {
    matches!(
        str::from_utf8(first),
        Ok("shape" | "cycle" | "ring" | "put" | "close" | "turn" | "recv" | "stop")
            | Ok("leave" | "gone" | "fork")
    )
}

/// Whether all bytes are hexadecimal digits, in either case.
pub fn are_digits(word: &[u8]) -> bool {
    word.iter().all(|byte| byte.is_ascii_hexdigit())
}

/// What is wrong with the words behind the first one, where numbers in this form are wanted.
pub fn numbers_of<'a>(mut words: Words<'a>, wanted: u64, form: &'static str) -> Option<Reason<'a>> {
    let mut found = 0u64;
    let mut wrong = None;
    while let Some(word) = words.next_word() {
        found = found.saturating_add(1);
        if wrong.is_none() && number_of(word).is_none() {
            wrong = Some(word);
        }
    }
    if found != wanted {
        return Some(Reason::Count { form, found });
    }
    Some(no_number(wrong?))
}

/// That a word is no number.
pub fn no_number(word: &[u8]) -> Reason<'_> {
    Reason::Wrong(
        Word(word),
        "is no number: digits without a sign or leading zeros, below 2^64",
    )
}

/// A word of a line, of which the first has place 0.
pub fn word_at(line: &[u8], place: u64) -> Option<&[u8]> {
    let mut words = Words::new(line);
    for _ in 0..place {
        words.next_word()?;
    }
    words.next_word()
}

/// The number that a word of a line is, of which the first has place 0.
pub fn number_at(line: &[u8], place: u64) -> Option<u64> {
    number_of(word_at(line, place)?)
}

/// That a number is outside of its range, if it is.
pub fn outside(what: &'static str, found: u64, low: u64, high: u64) -> Option<Reason<'static>> {
    if found >= low && found <= high {
        return None;
    }
    Some(Reason::Outside {
        what,
        found,
        low,
        high,
    })
}
