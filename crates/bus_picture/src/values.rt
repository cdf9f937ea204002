//! How what stands in a word is written beside a step.

ghost use Rattle.std.specs.Prelude.{◌≡◌, ◌++◌, OnOk, string_bytes};
ghost use Rattle.bus_picture.specs.Values.{is_counter, is_log_word, counter_text, log_word_text};
ghost use Rattle.bus_picture.specs.Values.{value_text};

use bus_script::number_of;
use hex::ToHex;
use std::alloc::{AllocError, Global};

/// Whether a word of this name is the counter of a coin.
fn is_counter(word: &str) -> bool
    ensures { result ≡ is_counter word.now }
{
    word.as_bytes().ends_with(b" counter")
}

/// Whether a word of this name is one of the log.
fn is_log_word(word: &str) -> bool
    ensures { result ≡ is_log_word word.now }
{
    word.as_bytes().starts_with(b"log ")
}

/// Puts the heads and tails of a counter at the end of a text.
fn push_counter(text: &mut String, number: u64) -> Result<(), AllocError>
    ensures { OnOk result
        (string_bytes text.new ≡ string_bytes text.old ++ counter_text number) }
{
    let heads = number / 0x0001_0000_0000;
    let tails = number % 0x0001_0000_0000;
    write!(text, "{heads} heads {tails} tails")
}

/// Puts a word of the log at the end of a text, in hexadecimal digits.
fn push_log_word(alloc: Global, text: &mut String, number: u64) -> Result<(), AllocError>
    ensures { OnOk result
        (string_bytes text.new ≡ string_bytes text.old ++ log_word_text number) }
{
    let digits = number.to_be_bytes().encode_hex(alloc)?;
    text.push_str(&digits)
}

/// Puts what stands in a word of this name at the end of a text, of which a trace has the number.
pub fn push_value(
    alloc: Global,
    text: &mut String,
    word: &str,
    number: &str,
) -> Result<(), AllocError>
    ensures { OnOk result
        (string_bytes text.new ≡ string_bytes text.old ++ value_text word.now number.now) }
{
    match number_of(number.as_bytes()) {
        Some(n) if is_counter(word) => push_counter(text, n),
        Some(n) if is_log_word(word) => push_log_word(alloc, text, n),
        _ => text.push_str(number),
    }
}
