//! What the line of a refusal says.

use crate::reasons::Reason;
use bus_script::{Line, Lines, Words, number_of};
use std::alloc::{AllocError, Global};

/// Where an input was refused.
#[derive(Clone, Copy, Debug, PartialEq, Eq)]
pub enum Spot {
    /// At a line, the first being line 1.
    Line(u64),
    /// At a word of a log, the first being word 0.
    Word(u64),
    /// Behind the last line.
    End,
}

/// Where an input was refused, and the name of that.
#[derive(Clone, Copy, Debug, PartialEq, Eq)]
pub struct Refusal<'a> {
    pub spot: Spot,
    pub name: &'a [u8],
}

/// What a line says, as `line 3: BadLine`, if it is that of a refusal.
pub fn refusal_of(line: &[u8]) -> Option<Refusal<'_>> {
    let mut words = Words::new(line);
    let first = words.next_word()?;
    let second = words.next_word()?;
    if first == b"end:".as_slice() {
        return Some(Refusal {
            spot: Spot::End,
            name: second,
        });
    }
    let [digits @ .., b':'] = second else {
        return None;
    };
    let number = number_of(digits)?;
    let name = words.next_word()?;
    let spot = if first == b"word".as_slice() {
        Spot::Word(number)
    } else {
        Spot::Line(number)
    };
    Some(Refusal { spot, name })
}

/// The line of this number, among those that are left.
pub fn line_at<'a>(mut lines: Lines<'a>, number: u64) -> Option<Line<'a>> {
    while let Some(line) = lines.next_line() {
        if line.number == number {
            return Some(line);
        }
    }
    None
}

/// A reason behind the place that it is of.
pub fn text_at(alloc: Global, spot: Spot, reason: Reason<'_>) -> Result<String, AllocError> {
    match spot {
        Spot::Line(number) => format!(in alloc; "line {number}: {reason}"),
        Spot::Word(number) => format!(in alloc; "word {number}: {reason}"),
        Spot::End => format!(in alloc; "end: {reason}"),
    }
}
