//! How the lines of a script move the bus, and what is put on a sheet of each step.

ghost use Rattle.std.specs.Prelude.{◌≡◌, ◌-◌, ◌<◌, ℕ, None, IfOk, string_bytes};
ghost use Rattle.bus_tenure.specs.Elections.{election_of};
ghost use Rattle.bus_world.specs.Playing.{event_told};
ghost use Rattle.bus_replay.specs.Lines.{Plays};
ghost use Rattle.bus_replay.specs.Told.{command_told};
ghost use Rattle.bus_trace.specs.Words.{sizes_told};
ghost use Rattle.bus_trace.specs.Obeying.{IsCounted, IsRepeated, IsForked, IsDone, IsObeyed};
ghost use Rattle.bus_trace.specs.Obeying.{ArePlayed};

use crate::memory_maps::MemoryMap;
use crate::rows::{push_fork_row, push_row};
use crate::sheets::Sheet;
use crate::steps::{fork_shown, step_shown};
use bus_adoptcommit::Ratifier;
use bus_machine::World;
use bus_register::NoMemory;
use bus_replay::commands::Command;
use bus_replay::lines::command_of;
use bus_replay::names::step_fault_name;
use bus_replay::playing::{goes_on, push_refusal};
use bus_script::{Line, Lines, Outcome};
use bus_world::{Event, StepFault};
use std::alloc::{AllocError, Global};

/// An event once, and more while it goes on, up to so many times. Each has its line.
fn trace_event<Q: Ratifier + Drop>(
    bus: &mut World<Q>,
    sheet: &mut Sheet,
    memory_map: MemoryMap,
    line: u64,
    event: &Event,
    times: u64,
) -> Result<Option<StepFault>, AllocError>
    requires some { 0 < times }
    requires counted { IsCounted (string_bytes sheet.old.text) sheet.old.lines }
    ensures repeated { let X = election_of Q.Ratifier in
        IfOk result (λ fault. IsRepeated X Q.protocol (sizes_told memory_map) line
        bus.old (event_told event.now) (times - 1) (string_bytes sheet.old.text) sheet.old.lines
        (string_bytes sheet.new.text) sheet.new.lines fault bus.new) }
    ensures counts { IfOk result (λ fault. fault ≡ None
        → IsCounted (string_bytes sheet.new.text) sheet.new.lines) }
{
    let (seen, mut last) = match step_shown(bus, event) {
        Ok(told) => told,
        Err(fault) => return Ok(Some(fault)),
    };
    push_row(sheet, memory_map, line, event, seen, &last)?;
    let mut more = times - 1;
    while more > 0 && goes_on(&last) {
        let (seen, next) = match step_shown(bus, event) {
            Ok(told) => told,
            Err(fault) => return Ok(Some(fault)),
        };
        push_row(sheet, memory_map, line, event, seen, &next)?;
        last = next;
        more -= 1;
    }
    Ok(None)
}

/// A receiver forks to a higher number, where that is free. It has one line.
fn trace_fork<Q: Ratifier + Drop>(
    bus: &mut World<Q>,
    sheet: &mut Sheet,
    memory_map: MemoryMap,
    line: u64,
    receiver: u64,
    number: u64,
) -> Result<Option<StepFault>, AllocError>
    requires { IsCounted (string_bytes sheet.old.text) sheet.old.lines }
    ensures forked { let X = election_of Q.Ratifier in
        IfOk result (λ fault. IsForked X Q.protocol (sizes_told memory_map) line bus.old receiver
        number (string_bytes sheet.old.text) sheet.old.lines (string_bytes sheet.new.text)
        sheet.new.lines fault bus.new) }
    ensures counts { IfOk result (λ fault. fault ≡ None
        → IsCounted (string_bytes sheet.new.text) sheet.new.lines) }
{
    let (word, did) = match fork_shown(bus, receiver, number) {
        Ok(told) => told,
        Err(fault) => return Ok(Some(fault)),
    };
    push_fork_row(sheet, memory_map, line, receiver, word, did)?;
    Ok(None)
}

/// Does what a command asks for, and puts a line for each event of it, or for its fork, on a sheet.
fn trace_command<Q: Ratifier + Drop>(
    bus: &mut World<Q>,
    sheet: &mut Sheet,
    memory_map: MemoryMap,
    line: u64,
    command: &Command,
) -> Result<Option<StepFault>, AllocError>
    requires some { (event : _) (times : ℕ) → command_told command.now ≡ Plays event times
        → 0 < times }
    requires counted { IsCounted (string_bytes sheet.old.text) sheet.old.lines }
    ensures done { let X = election_of Q.Ratifier in
        IfOk result (λ fault. IsDone X Q.protocol (sizes_told memory_map) line bus.old
        (command_told command.now) (string_bytes sheet.old.text) sheet.old.lines
        (string_bytes sheet.new.text) sheet.new.lines fault bus.new) }
    ensures counts { IfOk result (λ fault. fault ≡ None
        → IsCounted (string_bytes sheet.new.text) sheet.new.lines) }
{
    match command {
        Command::Play { event, times } => {
            trace_event(bus, sheet, memory_map, line, event, *times)
        }
        Command::Fork { receiver, number } => {
            trace_fork(bus, sheet, memory_map, line, *receiver, *number)
        }
    }
}

/// Does what a line asks for, and puts a line for each event of it, or its refusal, on a sheet.
fn trace_line<Q: Ratifier + Drop>(
    alloc: Global,
    bus: &mut World<Q>,
    sheet: &mut Sheet,
    memory_map: MemoryMap,
    line: Line<'_>,
) -> Result<Outcome, NoMemory>
    requires { IsCounted (string_bytes sheet.old.text) sheet.old.lines }
    ensures obeyed { let X = election_of Q.Ratifier in
        IfOk result (λ outcome. IsObeyed X Q.protocol (sizes_told memory_map) bus.old
        (line.entry.number, line.entry.bytes.now) (string_bytes sheet.old.text) sheet.old.lines
        (string_bytes sheet.new.text) sheet.new.lines outcome bus.new) }
    ensures counts { IfOk result (λ outcome. outcome ≡ Outcome.Done
        → IsCounted (string_bytes sheet.new.text) sheet.new.lines) }
{
    let Some(command) = command_of(alloc, line.bytes)? else {
        push_refusal(alloc, line.number, "BadLine", &mut sheet.text)?;
        return Ok(Outcome::Refused);
    };
    match trace_command(bus, sheet, memory_map, line.number, &command)? {
        None => Ok(Outcome::Done),
        Some(fault) => {
            let name = step_fault_name(fault);
            push_refusal(alloc, line.number, name, &mut sheet.text)?;
            Ok(Outcome::Refused)
        }
    }
}

/// Obeys lines up to the first that is refused.
pub fn trace_lines<Q: Ratifier + Drop>(
    alloc: Global,
    bus: &mut World<Q>,
    sheet: &mut Sheet,
    memory_map: MemoryMap,
    mut lines: Lines<'_>,
) -> Result<Outcome, NoMemory>
    requires { IsCounted (string_bytes sheet.old.text) sheet.old.lines }
    ensures { let X = election_of Q.Ratifier in
        IfOk result (λ outcome. ArePlayed X Q.protocol (sizes_told memory_map) bus.old
        lines.entry (string_bytes sheet.old.text) sheet.old.lines (string_bytes sheet.new.text)
        outcome bus.new) }
{
    while let Some(line) = lines.next_line() {
        match trace_line(alloc, bus, sheet, memory_map, line)? {
            Outcome::Done => {}
            Outcome::Refused => return Ok(Outcome::Refused),
        }
    }
    Ok(Outcome::Done)
}
