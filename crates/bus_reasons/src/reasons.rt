//! Reasons, and how they are written.

use std::fmt;

/// Why a line is refused.
#[derive(Clone, Copy, Debug, PartialEq, Eq)]
pub enum Reason<'a> {
    /// What is wrong, in words that stand fast.
    Note(&'static str),
    /// A word, and what is wrong with it.
    Wrong(Word<'a>, &'static str),
    /// So many words behind the first, where the form has another number of them.
    Count {
        form: &'static str,
        found: u64,
    },
    /// A number that is not served.
    Outside {
        what: &'static str,
        found: u64,
        low: u64,
        high: u64,
    },
    /// The owner of a frame, where there are so many senders.
    Owner {
        owner: u64,
        senders: u64,
    },
    /// A process that there is not; so many there are.
    NoneSuch {
        what: &'static str,
        found: u64,
        count: u64,
    },
}

/// A word of a line.
#[derive(Clone, Copy, Debug, PartialEq, Eq)]
pub struct Word<'a>(pub &'a [u8]);

/// Bytes of a word that is shown as it is.
const MOST_SHOWN: usize = 40;

impl fmt::Display for Word<'_> {
    fn fmt<W: fmt::Write>(&self, f: &mut fmt::Formatter<W>) -> fmt::Result {
        let is_plain = self.0.len() <= MOST_SHOWN && self.0.iter().all(|b| b.is_ascii_graphic());
        match str::from_utf8(self.0) {
            Ok(word) if is_plain => write!(f, "'{word}'"),
            _ => write!(f, "a word of length {}", self.0.len()),
        }
    }
}

impl fmt::Display for Reason<'_> {
    fn fmt<W: fmt::Write>(&self, f: &mut fmt::Formatter<W>) -> fmt::Result {
        match self {
            Reason::Note(note) => f.write_str(note),
            Reason::Wrong(word, note) => write!(f, "{word} {note}"),
            Reason::Count { form, found } => {
                write!(f, "words behind the first: {found}; its form is '{form}'")
            }
            Reason::Outside {
                what,
                found,
                low,
                high,
            } => write!(f, "{what} is {found}, and may be {low} to {high}"),
            Reason::Owner { owner, senders } => write!(
                f,
                "its owner is sender {owner}, and by --senders there are {senders}, counted from 0"
            ),
            Reason::NoneSuch { what, found, count } => {
                write!(
                    f,
                    "there is no {what} {found}: there are {count}, counted from 0"
                )
            }
        }
    }
}
