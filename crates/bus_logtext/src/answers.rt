//! What the lines of a log are answered with.

ghost use Rattle.std.specs.Prelude.{◌≤◌, IfOk, string_bytes};
ghost use Rattle.bus_register.specs.declared.limits.TheConstants.{MOST_MESSAGES};
ghost use Rattle.bus_logtext.specs.Answers.{IsLogAnswer, IsAnswer};

use crate::faults::WordsFault;
use crate::text::{bad_word_text, log_text, refusal_text};
use crate::words::words_of;
use bus_deliverylog::LogFault;
use bus_register::NoMemory;
use bus_script::{Answer, LineNumber, Outcome, refusal_line};
use std::alloc::Global;

/// What is written for words: what they spell to so many senders, with so many messages in a frame
/// at most, or why they are no such log.
fn log_answer(alloc: Global, words: &[u64], senders: u64, most: u64) -> Result<Answer, NoMemory>
    requires most { (1 ≤ most) × (most ≤ MOST_MESSAGES) }
    ensures { IfOk result (λ answer. IsLogAnswer most senders words.now answer.outcome
        (string_bytes answer.text)) }
{
    match log_text(alloc, words, senders, most) {
        Ok(text) => Ok(Answer {
            outcome: Outcome::Done,
            text,
        }),
        Err(LogFault::BadWord { place }) => Ok(Answer {
            outcome: Outcome::Refused,
            text: bad_word_text(alloc, place)?,
        }),
        Err(LogFault::Torn) => Ok(Answer {
            outcome: Outcome::Refused,
            text: refusal_line(alloc, LineNumber::AtEnd, "Torn")?,
        }),
        Err(LogFault::NoMemory) => Err(NoMemory),
    }
}

/// What is written for an input: what the words of its lines spell to so many senders, with so many
/// messages in a frame at most, 1 to 64, or the first refusal.
pub fn read_log_text(
    alloc: Global,
    input: &[u8],
    senders: u64,
    most: u64,
) -> Result<Answer, NoMemory>
    requires most { (1 ≤ most) × (most ≤ MOST_MESSAGES) }
    ensures { IfOk result
        (λ answer. IsAnswer most senders input.now answer.outcome (string_bytes answer.text)) }
{
    match words_of(alloc, input) {
        Ok(words) => log_answer(alloc, &words, senders, most),
        Err(WordsFault::Refused(refusal)) => Ok(Answer {
            outcome: Outcome::Refused,
            text: refusal_text(alloc, refusal)?,
        }),
        Err(WordsFault::NoMemory) => Err(NoMemory),
    }
}
