//! Words of a log, one a line.

ghost use Rattle.std.specs.Prelude.{◌≡◌, ◌≤◌, ◌++◌, ◌∷◌, [], length, Ok, IfOk, OnOk};
ghost use Rattle.std.specs.Prelude.{MatchResult, string_bytes};
ghost use Rattle.bus_register.specs.declared.limits.TheConstants.{MOST_LOG_WORDS};
ghost use Rattle.bus_logtext.specs.Words.{word_of, word_text, words_text, words_of, FailsWith};

use crate::faults::{LineFault, Refusal, WordsFault};
use bus_register::limits::MOST_LOG_WORDS;
use bus_script::{Line, Lines};
use hex::{FromHex, ToHex};
use std::alloc::{AllocError, Global};

/// The word that a line is.
fn word_of(line: &[u8]) -> Option<u64>
    ensures { result ≡ word_of line.now }
{
    let bytes = <[u8; 8] as FromHex>::from_hex(line).ok()?;
    Some(u64::from_be_bytes(bytes))
}

/// A fault of a line.
fn fault_at(line: Line<'_>, fault: LineFault) -> WordsFault
    ensures { result ≡ WordsFault.Refused (record { line = line.entry.number; fault = fault }) }
{
    WordsFault::Refused(Refusal {
        line: line.number,
        fault,
    })
}

/// The words that lines spell, or the first fault of the lines.
pub fn words_of(alloc: Global, input: &[u8]) -> Result<Vec<u64>, WordsFault>
    ensures { MatchResult result (λ words. words_of input.now ≡ Ok words.items)
        (λ fault. FailsWith fault (words_of input.now)) }
{
    let mut lines = Lines::new(input);
    let mut words = Vec::new(alloc);
    while let Some(line) = lines.next_line() {
        let Some(word) = word_of(line.bytes) else {
            return Err(fault_at(line, LineFault::BadLine));
        };
        if words.len() as u64 >= MOST_LOG_WORDS {
            return Err(fault_at(line, LineFault::TooManyWords));
        }
        words.push(word)?;
    }
    Ok(words)
}

/// Puts the line of a word at the end of a text.
fn push_word(alloc: Global, text: &mut String, word: u64) -> Result<(), AllocError>
    ensures { OnOk result
        (string_bytes text.new ≡ string_bytes text.old ++ word_text word ++ 10 ∷ []) }
{
    let digits = word.to_be_bytes().encode_hex(alloc)?;
    text.push_str(&digits)?;
    text.push_str("\n")
}

/// A line for each word. Of at most 65,536 words they can be read again.
pub fn print_words(alloc: Global, words: &[u64]) -> Result<String, AllocError>
    ensures text { IfOk result (λ text. string_bytes text ≡ words_text words.now) }
    ensures read { length words.now ≤ MOST_LOG_WORDS
        → IfOk result (λ text. words_of (string_bytes text) ≡ Ok words.now) }
{
    let mut text = String::new(alloc);
    for word in words {
        push_word(alloc, &mut text, *word)?;
    }
    Ok(text)
}
