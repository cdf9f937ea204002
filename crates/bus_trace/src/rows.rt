//! The lines of a trace.

ghost use Rattle.std.specs.Prelude.{◌≡◌, ◌++◌, ◌+◌, OnOk, IfOk, string_bytes, decimal};
ghost use Rattle.bus_world.specs.Playing.{event_told};
ghost use Rattle.bus_trace.specs.Rows.{header, column, tenure_text, no_step, who_text};
ghost use Rattle.bus_trace.specs.Words.{sizes_told};
ghost use Rattle.bus_trace.specs.Obeying.{IsCounted};
ghost use Rattle.bus_trace.specs.Told.{name_told, seen_columns, row_told, numbered_row};
ghost use Rattle.bus_trace.specs.Told.{word_columns, fork_told};

use crate::memory_maps::MemoryMap;
use crate::seen::{Seen, SeenWord, register_of};
use crate::sheets::Sheet;
use crate::words::push_word;
use bus_replay::text::{fork_text, push_answer};
use bus_world::{Answer, Event};
use std::alloc::{AllocError, Global};

/// A sheet with the names of the columns, and no line yet.
pub fn new_sheet(alloc: Global) -> Result<Sheet, AllocError>
    ensures text { IfOk result (λ sheet. string_bytes sheet.text ≡ header) }
    ensures lines { IfOk result (λ sheet. sheet.lines ≡ 0) }
{
    let mut text = String::new(alloc);
    text.push_str("number\tline\twho\ttenure\tkind\tword\tfound\tafter\tanswer\n")?;
    Ok(Sheet { text, lines: 0 })
}

/// Puts a text and a tab at the end of a text.
fn push_column(text: &mut String, name: &str) -> Result<(), AllocError>
    ensures { OnOk result (string_bytes text.new ≡ string_bytes text.old ++ column name.now) }
{
    text.push_str(name)?;
    text.push_str("\t")
}

/// Puts a number and a tab at the end of a text.
fn push_number(text: &mut String, number: u64) -> Result<(), AllocError>
    ensures { OnOk result
        (string_bytes text.new ≡ string_bytes text.old ++ column (decimal number)) }
{
    write!(text, "{number}\t")
}

/// Puts who is asked at the end of a text.
fn push_who(text: &mut String, event: &Event) -> Result<(), AllocError>
    ensures { OnOk result
        (string_bytes text.new ≡ string_bytes text.old ++ who_text (event_told event.now)) }
{
    match event {
        Event::Put { sender, bytes: _ } => write!(text, "sender {sender}\t"),
        Event::Close(sender) => write!(text, "sender {sender}\t"),
        Event::Leave(sender) => write!(text, "sender {sender}\t"),
        Event::Turn { sender, word: _ } => write!(text, "sender {sender}\t"),
        Event::Recv(receiver) => write!(text, "receiver {receiver}\t"),
        Event::Stop(sender) => write!(text, "sender {sender}\t"),
        Event::Gone(receiver) => write!(text, "receiver {receiver}\t"),
    }
}

fn push_tenure(text: &mut String, tenure: Option<u64>) -> Result<(), AllocError>
    ensures { OnOk result
        (string_bytes text.new ≡ string_bytes text.old ++ column (tenure_text tenure)) }
{
    match tenure {
        None => text.push_str("-\t"),
        Some(tenure) => write!(text, "{tenure}\t"),
    }
}

/// Puts the columns of a step at the end of a text.
fn push_seen(text: &mut String, memory_map: MemoryMap, seen: Seen) -> Result<(), AllocError>
    ensures { OnOk result
        (string_bytes text.new ≡ string_bytes text.old
        ++ seen_columns (sizes_told memory_map) seen) }
{
    push_tenure(text, seen.step.tenure)?;
    push_column(text, seen.step.kind.name())?;
    push_word(text, memory_map, register_of(seen.step.op).0)?;
    text.push_str("\t")?;
    push_number(text, seen.found)?;
    push_number(text, seen.left)
}

/// Puts the columns of an event that took no step at the end of a text.
fn push_no_step(text: &mut String, event: &Event) -> Result<(), AllocError>
    ensures { OnOk result
        (string_bytes text.new ≡ string_bytes text.old
        ++ no_step (name_told (event_told event.now))) }
{
    match event {
        Event::Put { .. } => text.push_str("-\tput\t-\t-\t-\t"),
        Event::Close(_) => text.push_str("-\tclose\t-\t-\t-\t"),
        Event::Leave(_) => text.push_str("-\tleave\t-\t-\t-\t"),
        Event::Stop(_) => text.push_str("-\tstop\t-\t-\t-\t"),
        Event::Gone(_) => text.push_str("-\tgone\t-\t-\t-\t"),
        Event::Turn { .. } | Event::Recv(_) => text.push_str("-\t-\t-\t-\t-\t"),
    }
}

/// Puts all columns but the number at the end of a text.
fn push_columns(
    text: &mut String,
    memory_map: MemoryMap,
    line: u64,
    event: &Event,
    seen: Option<Seen>,
    answer: &Answer,
) -> Result<(), AllocError>
    ensures { OnOk result
        (string_bytes text.new ≡ string_bytes text.old
        ++ row_told (sizes_told memory_map) line (event_told event.now) seen answer.now) }
{
    write!(text, "{line}\t")?;
    push_who(text, event)?;
    match seen {
        Some(seen) => push_seen(text, memory_map, seen)?,
        None => push_no_step(text, event)?,
    }
    push_answer(text, answer)
}

/// Puts the next line on a sheet.
pub fn push_row(
    sheet: &mut Sheet,
    memory_map: MemoryMap,
    line: u64,
    event: &Event,
    seen: Option<Seen>,
    answer: &Answer,
) -> Result<(), AllocError>
    requires { IsCounted (string_bytes sheet.old.text) sheet.old.lines }
    ensures text { OnOk result
        (string_bytes sheet.new.text ≡ string_bytes sheet.old.text
        ++ numbered_row (sheet.old.lines + 1)
        (row_told (sizes_told memory_map) line (event_told event.now) seen answer.now)) }
    ensures lines { OnOk result (sheet.new.lines ≡ sheet.old.lines + 1) }
    ensures counted { OnOk result (IsCounted (string_bytes sheet.new.text) sheet.new.lines) }
{
    let number = sheet.lines + 1;
    write!(sheet.text, "{number}\t")?;
    push_columns(&mut sheet.text, memory_map, line, event, seen, answer)?;
    sheet.text.push_str("\n")?;
    sheet.lines = number;
    Ok(())
}

/// Puts the columns of a fork at the end of a text. Without a word it took no step.
fn push_word_columns(
    text: &mut String,
    memory_map: MemoryMap,
    word: Option<SeenWord>,
) -> Result<(), AllocError>
    ensures { OnOk result
        (string_bytes text.new ≡ string_bytes text.old
        ++ word_columns (sizes_told memory_map) word) }
{
    let Some(word) = word else {
        return text.push_str("-\tfork\t-\t-\t-\t");
    };
    text.push_str("-\tFork\t")?;
    push_word(text, memory_map, word.at.0)?;
    text.push_str("\t")?;
    push_number(text, word.found)?;
    push_number(text, word.left)
}

/// Puts all columns of a fork but the number at the end of a text.
fn push_fork_columns(
    text: &mut String,
    memory_map: MemoryMap,
    line: u64,
    receiver: u64,
    word: Option<SeenWord>,
    did: bool,
) -> Result<(), AllocError>
    ensures { OnOk result
        (string_bytes text.new ≡ string_bytes text.old
        ++ fork_told (sizes_told memory_map) line receiver word did) }
{
    write!(text, "{line}\treceiver {receiver}\t")?;
    push_word_columns(text, memory_map, word)?;
    text.push_str(fork_text(did))
}

/// Puts the line of a fork on a sheet.
pub fn push_fork_row(
    sheet: &mut Sheet,
    memory_map: MemoryMap,
    line: u64,
    receiver: u64,
    word: Option<SeenWord>,
    did: bool,
) -> Result<(), AllocError>
    requires { IsCounted (string_bytes sheet.old.text) sheet.old.lines }
    ensures text { OnOk result
        (string_bytes sheet.new.text ≡ string_bytes sheet.old.text
        ++ numbered_row (sheet.old.lines + 1)
        (fork_told (sizes_told memory_map) line receiver word did)) }
    ensures lines { OnOk result (sheet.new.lines ≡ sheet.old.lines + 1) }
    ensures counted { OnOk result (IsCounted (string_bytes sheet.new.text) sheet.new.lines) }
{
    let next = sheet.lines + 1;
    write!(sheet.text, "{next}\t")?;
    push_fork_columns(&mut sheet.text, memory_map, line, receiver, word, did)?;
    sheet.text.push_str("\n")?;
    sheet.lines = next;
    Ok(())
}
