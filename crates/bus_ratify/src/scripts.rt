//! Scripts of `ratify`: the inputs of the processes, and the order of their steps.

ghost use Rattle.std.specs.Prelude.{◌≡◌, ◌≤◌, Ok, length, ok_or};
ghost use Rattle.bus_ratify.specs.Scripts.{RatifyScript, bit_of, inputs_of, steps_of, refused_at};
ghost use Rattle.bus_ratify.specs.Scripts.{steps_among, schedule_of, ratify_script, Gives};
ghost use Rattle.bus_ratify.specs.Scripts.{GivesSteps};
ghost use Rattle.bus_ratify.specs.declared.refusals.LineFault.TheVariants.{BadLine};

use crate::limits::MOST_INPUTS;
use crate::refusals::{LineFault, ReadingFault, Refusal};
use bus_script::{Line, LineNumber, Lines, Words, number_of, words_behind};
use std::alloc::Global;

/// What a script says.
#[derive(Debug, Drop)]
pub struct Script {
    /// By process: 1 to `MOST_INPUTS` of them.
    pub inputs: Vec<bool>,
    /// The process of each step, in order.
    pub schedule: Vec<u8>,
}

/// The fault of a line that breaks its form.
fn bad_line(line: Line<'_>) -> ReadingFault
    ensures { result ≡ ReadingFault.Refused (refused_at line.entry.number BadLine) }
{
    fault_at(line, LineFault::BadLine)
}

/// A fault of a line.
fn fault_at(line: Line<'_>, fault: LineFault) -> ReadingFault
    ensures { result ≡ ReadingFault.Refused (refused_at line.entry.number fault) }
{
    ReadingFault::Refused(Refusal {
        line_number: LineNumber::AtLine(line.number),
        fault,
    })
}

fn bit_of(word: &[u8]) -> Option<bool>
    ensures { result ≡ bit_of word.now }
{
    if word == b"0".as_slice() {
        Some(false)
    } else if word == b"1".as_slice() {
        Some(true)
    } else {
        None
    }
}

/// The inputs that the line of inputs gives.
fn inputs_of(alloc: Global, line: Line<'_>) -> Result<Vec<bool>, ReadingFault>
    ensures { Gives (λ inputs. inputs.items) result
        (ok_or (inputs_of line.entry.bytes.now) (refused_at line.entry.number BadLine)) }
{
    let Some(mut words) = words_behind(line.bytes, b"inputs") else {
        return Err(bad_line(line));
    };
    let mut inputs = Vec::new(alloc);
    while let Some(word) = words.next_word() {
        match bit_of(word) {
            Some(input) => inputs.push(input)?,
            None => return Err(bad_line(line)),
        }
    }
    if inputs.is_empty() || inputs.len() > MOST_INPUTS {
        return Err(bad_line(line));
    }
    Ok(inputs)
}

/// Puts the steps of a line at the end of the schedule.
fn push_steps(line: Line<'_>, processes: usize, schedule: &mut Vec<u8>) -> Result<(), ReadingFault>
    requires { processes ≤ MOST_INPUTS }
    ensures { GivesSteps result schedule.old.items schedule.new.items
        (steps_among processes line.entry.number (steps_of line.entry.bytes.now)) }
{
    let Some(mut words) = words_behind(line.bytes, b"steps") else {
        return Err(bad_line(line));
    };
    let mut is_empty = true;
    let mut are_known = true;
    while let Some(word) = words.next_word() {
        let Some(process) = number_of(word) else {
            return Err(bad_line(line));
        };
        is_empty = false;
        if process < processes as u64 {
            schedule.push(process as u8)?;
        } else {
            are_known = false;
        }
    }
    if is_empty {
        Err(bad_line(line))
    } else if are_known {
        Ok(())
    } else {
        Err(fault_at(line, LineFault::NoSuchProcess))
    }
}

/// The steps of the lines behind the inputs.
fn schedule_of(
    alloc: Global,
    mut lines: Lines<'_>,
    processes: usize,
) -> Result<Vec<u8>, ReadingFault>
    requires { processes ≤ MOST_INPUTS }
    ensures { Gives (λ schedule. schedule.items) result (schedule_of processes lines.entry) }
{
    let mut schedule = Vec::new(alloc);
    while let Some(line) = lines.next_line() {
        push_steps(line, processes, &mut schedule)?;
    }
    Ok(schedule)
}

/// What a script says, or its first fault.
pub fn read_script(alloc: Global, script: &[u8]) -> Result<Script, ReadingFault>
    ensures { Gives (λ said. record {
      inputs = said.inputs.items;
      schedule = said.schedule.items;
    }) result (ratify_script script.now) }
{
    let mut lines = Lines::new(script);
    let Some(first) = lines.next_line() else {
        return Err(ReadingFault::Refused(Refusal {
            line_number: LineNumber::AtEnd,
            fault: LineFault::BadLine,
        }));
    };
    let inputs = inputs_of(alloc, first)?;
    let schedule = schedule_of(alloc, lines, inputs.len())?;
    Ok(Script { inputs, schedule })
}
