//! What is printed of a log, in the order of its words.

ghost use Rattle.std.specs.Prelude.{◌≡◌, ◌≤◌, ◌++◌, Err, IfOk, OnOk, string_bytes};
ghost use Rattle.bus_register.specs.declared.limits.TheConstants.{MOST_MESSAGES};
ghost use Rattle.bus_deliverylog.specs.Logs.{IsFirstBadOf, IsTornOf};
ghost use Rattle.bus_logtext.specs.Text.{piece_line, bad_word_text, word_fault_name, refusal_text};
ghost use Rattle.bus_logtext.specs.Answers.{TellsLog};

use crate::faults::{LineFault, Refusal};
use bus_batch::{BadWord, FrameReader, Piece};
use bus_deliverylog::LogFault;
use bus_deliverylog::texts::ItemText;
use bus_script::{LineNumber, refusal_line};
use std::alloc::{AllocError, Global};

/// Puts the line of what a word says at the end of a text.
fn push_piece(text: &mut String, found: Option<Piece>) -> Result<(), AllocError>
    ensures { OnOk result (string_bytes text.new ≡ string_bytes text.old ++ piece_line found) }
{
    match found {
        None => Ok(()),
        Some(Piece::Head { tenure, owner }) => writeln!(text, "frame {tenure} {}", owner.0),
        Some(Piece::Item(item)) => {
            let item = ItemText(&item);
            writeln!(text, "item {item}")
        }
        Some(Piece::End) => text.push_str("end\n"),
        Some(Piece::Leave(sender)) => writeln!(text, "leave {}", sender.0),
    }
}

/// What the words of a log of so many senders, with so many messages in a frame at most, 1 to 64,
/// spell: each frame, and behind it its items, the end, or that its sender has left.
pub fn log_text(alloc: Global, words: &[u64], senders: u64, most: u64) -> Result<String, LogFault>
    requires most { (1 ≤ most) × (most ≤ MOST_MESSAGES) }
    ensures told { IfOk result (λ text. TellsLog most senders words.now (string_bytes text)) }
    ensures bad { (place : _) → result ≡ Err (LogFault.BadWord place)
        → IsFirstBadOf most senders words.now place }
    ensures torn { result ≡ Err LogFault.Torn → IsTornOf most senders words.now }
{
    let mut reader = FrameReader::within(senders, most);
    let mut text = String::new(alloc);
    for (place, word) in words.iter().enumerate() {
        match reader.feed(*word) {
            Ok(found) => {
                if push_piece(&mut text, found).is_err() {
                    return Err(LogFault::NoMemory);
                }
            }
            Err(BadWord) => return Err(LogFault::BadWord {
                place: place as u64,
            }),
        }
    }
    if reader.inside() {
        return Err(LogFault::Torn);
    }
    Ok(text)
}

/// The line that names the place of a bad word.
pub fn bad_word_text(alloc: Global, place: u64) -> Result<String, AllocError>
    ensures { IfOk result (λ text. string_bytes text ≡ bad_word_text place) }
{
    format!(in alloc; "word {place}: BadWord\n")
}

fn word_fault_name(fault: LineFault) -> &'static str
    ensures { result.now ≡ word_fault_name fault }
{
    match fault {
        LineFault::BadLine => "BadLine",
        LineFault::TooManyWords => "TooManyWords",
    }
}

/// The one line of lines that were refused.
pub fn refusal_text(alloc: Global, refusal: Refusal) -> Result<String, AllocError>
    ensures { IfOk result (λ text. string_bytes text ≡ refusal_text refusal) }
{
    refusal_line(
        alloc,
        LineNumber::AtLine(refusal.line),
        word_fault_name(refusal.fault),
    )
}
