//! What is printed of a journal, and which part of it is left where its tail is cut off.

ghost use Rattle.std.specs.Prelude.{◌≡◌, ◌≢◌, ◌++◌, ℕ, List, Ok, Err, IfOk, OnOk, string_bytes};
ghost use Rattle.std.specs.Prelude.{IfSome, IfNone, flat_map, ◌≤◌, length};
ghost use Rattle.bus_batch.specs.Frames.{Frame, AreFrames, log_words};
ghost use Rattle.bus_replay.specs.Text.{behind};
ghost use Rattle.bus_journal.specs.Reading.{heading_of};
ghost use Rattle.bus_journal.specs.declared.headers.JournalFault.TheVariants as fault;
ghost use Rattle.bus_logtext.specs.Text.{log_text};
ghost use Rattle.bus_logtext.specs.Journals.{header_line, end_name, journal_text, fault_line};
ghost use Rattle.bus_logtext.specs.Journals.{outcome_of, IsJournalAnswer, Mends, IsBeyondRepair};

use crate::text::log_text;
use bus_journal::{Header, JournalEnd, JournalFault, JournalRead, read_journal};
use bus_register::NoMemory;
use bus_register::limits::MOST_MESSAGES;
use bus_script::{Answer, Outcome};
use std::alloc::{AllocError, Global};

/// Puts numbers at the end of a text, each behind a space.
fn push_numbers(text: &mut String, numbers: &[u64]) -> Result<(), AllocError>
    ensures { OnOk result
        (string_bytes text.new ≡ string_bytes text.old ++ flat_map behind numbers.now) }
{
    for number in numbers {
        write!(text, " {number}")?;
    }
    Ok(())
}

/// The line of a header.
fn header_text(alloc: Global, header: &Header) -> Result<String, AllocError>
    ensures { IfOk result (λ text. string_bytes text ≡ header_line (heading_of header.now)) }
{
    let mut text = format!(in alloc;
        "journal {} {} {}",
        header.senders, header.most, header.place
    )?;
    push_numbers(&mut text, &header.first)?;
    text.push_str("\n")?;
    Ok(text)
}

/// What an end is called.
fn end_name(end: JournalEnd) -> &'static str
    ensures { result.now ≡ end_name end }
{
    match end {
        JournalEnd::Whole => "whole",
        JournalEnd::Torn => "torn",
        JournalEnd::Damaged => "damaged",
    }
}

/// All that a journal says.
fn journal_text(alloc: Global, read: &JournalRead) -> Result<String, NoMemory>
    ensures { IfOk result (λ text. (frames : List Frame) → AreFrames read.now.header.senders frames
        → read.now.words.items ≡ log_words frames → string_bytes text
        ≡ journal_text (heading_of read.now.header) frames read.now.end read.now.whole) }
{
    let Ok(lines) = log_text(
        alloc,
        &read.words,
        read.header.senders,
        MOST_MESSAGES as u64,
    ) else {
        return Err(NoMemory);
    };
    let mut text = header_text(alloc, &read.header)?;
    text.push_str(lines.as_str())?;
    writeln!(text, "{} {}", end_name(read.end), read.whole)?;
    Ok(text)
}

/// The one line of bytes that are not read as a journal.
fn fault_text(alloc: Global, fault: JournalFault) -> Result<String, AllocError>
    ensures { IfOk result (λ text. string_bytes text ≡ fault_line fault) }
{
    match fault {
        JournalFault::OtherMagic => format!(in alloc; "header: OtherMagic\n"),
        JournalFault::OtherVersion { version } => {
            format!(in alloc; "header: OtherVersion {version}\n")
        }
        JournalFault::TornHeader => format!(in alloc; "header: TornHeader\n"),
        JournalFault::DamagedHeader => format!(in alloc; "header: DamagedHeader\n"),
        JournalFault::NoMemory => format!(in alloc; "header: NoMemory\n"),
    }
}

/// Only what is whole is done.
fn outcome_of(end: JournalEnd) -> Outcome
    ensures { result ≡ outcome_of end }
{
    match end {
        JournalEnd::Whole => Outcome::Done,
        JournalEnd::Torn | JournalEnd::Damaged => Outcome::Refused,
    }
}

/// What is written for the bytes of a journal: its header, the lines of its log, and how it ends
/// behind how many bytes; or why they are none. It is done where the journal is whole.
pub fn read_journal_text(alloc: Global, input: &[u8]) -> Result<Answer, NoMemory>
    ensures { IfOk result
        (λ answer. IsJournalAnswer input.now answer.outcome (string_bytes answer.text)) }
{
    match read_journal(alloc, input) {
        Ok(read) => Ok(Answer {
            outcome: outcome_of(read.end),
            text: journal_text(alloc, &read)?,
        }),
        Err(JournalFault::NoMemory) => Err(NoMemory),
        Err(fault) => Ok(Answer {
            outcome: Outcome::Refused,
            text: fault_text(alloc, fault)?,
        }),
    }
}

/// How many bytes of a journal are left where a torn tail is cut off; none of one that is damaged,
/// also where that looks torn and hides whole records, nor of bytes that are no journal.
pub fn mended_len(alloc: Global, input: &[u8]) -> Result<Option<usize>, NoMemory>
    ensures some { IfOk result (λ found. IfSome found (Mends input.now)) }
    ensures within { IfOk result (λ found. IfSome found (λ size. size ≤ length input.now)) }
    ensures none { IfOk result (λ found. IfNone found (IsBeyondRepair input.now)) }
{
    match read_journal(alloc, input) {
        Ok(read) if read.hides || read.end == JournalEnd::Damaged => Ok(None),
        Ok(read) => Ok(Some(read.whole as usize)),
        Err(JournalFault::NoMemory) => Err(NoMemory),
        Err(_) => Ok(None),
    }
}
