//! What a script is answered with where its steps are traced.

ghost use Rattle.std.specs.Prelude.{◌≡◌, ◌++◌, Some, IfOk, string_bytes};
ghost use Rattle.bus_tenure.specs.Elections.{election_of};
ghost use Rattle.bus_script.specs.LineNumbers.{refusal_line};
ghost use Rattle.bus_script.specs.declared.answers.Outcome.TheVariants.{Refused};
ghost use Rattle.bus_trace.specs.Rows.{header};
ghost use Rattle.bus_trace.specs.Words.{sizes_told};
ghost use Rattle.bus_trace.specs.Traces.{ArePrinted, Begins, IsTrace};

use crate::memory_maps::MemoryMap;
use crate::playing::trace_lines;
use crate::rows::new_sheet;
use crate::words::memory_map_of;
use bus_adoptcommit::Ratifier;
use bus_machine::World;
use bus_register::NoMemory;
use bus_replay::answers::new_bus;
use bus_replay::lines::{FirstFault, FirstLine, first_of};
use bus_replay::names::first_fault_name;
use bus_script::{Answer, LineNumber, Lines, Outcome, refusal_line};
use bus_world::MakeFault;
use std::alloc::Global;

/// The answer to a script that was refused before there was a bus.
fn trace_refused(alloc: Global, line_number: LineNumber, name: &str) -> Result<Answer, NoMemory>
    ensures outcome { IfOk result (λ answer. answer.outcome ≡ Refused) }
    ensures text { IfOk result
        (λ answer. string_bytes answer.text ≡ header ++ refusal_line line_number name.now) }
{
    let mut sheet = new_sheet(alloc)?;
    let line = refusal_line(alloc, line_number, name)?;
    sheet.text.push_str(&line)?;
    Ok(Answer {
        outcome: Outcome::Refused,
        text: sheet.text,
    })
}

/// What is written of the lines behind the first one, which move a new bus.
fn trace_from<Q: Ratifier + Drop>(
    alloc: Global,
    mut bus: World<Q>,
    memory_map: MemoryMap,
    lines: Lines<'_>,
) -> Result<Answer, NoMemory>
    ensures { let X = election_of Q.Ratifier in
        IfOk result (λ answer. ArePrinted X Q.protocol (sizes_told memory_map) bus lines.entry
        answer.outcome (string_bytes answer.text)) }
{
    let mut sheet = new_sheet(alloc)?;
    let outcome = trace_lines(alloc, &mut bus, &mut sheet, memory_map, lines)?;
    Ok(Answer {
        outcome,
        text: sheet.text,
    })
}

/// What is written behind a first line that asks for a bus.
fn trace_behind<Q: Ratifier + Drop>(
    alloc: Global,
    first: FirstLine,
    number: u64,
    lines: Lines<'_>,
) -> Result<Answer, NoMemory>
    ensures { let X = election_of Q.Ratifier in
        IfOk result (λ answer. Begins X Q.protocol number (Some first) lines.entry answer.outcome
        (string_bytes answer.text)) }
{
    match new_bus::<Q>(alloc, first) {
        Ok(bus) => trace_from(alloc, bus, memory_map_of::<Q>(first), lines),
        Err(FirstFault::Make(MakeFault::NoMemory)) => Err(NoMemory),
        Err(fault) => trace_refused(alloc, LineNumber::AtLine(number), first_fault_name(fault)),
    }
}

/// What is written for an input: the names of the columns, and a line for each event and each fork
/// that `replay` plays of it, with ratifiers of this kind, up to the first refusal, which ends it.
/// It is no error that a script is refused: the only one is that memory was refused.
pub fn trace_of<Q: Ratifier + Drop>(alloc: Global, input: &[u8]) -> Result<Answer, NoMemory>
    ensures { let X = election_of Q.Ratifier in
        IfOk result (λ answer. IsTrace X Q.protocol input.now answer.outcome
        (string_bytes answer.text)) }
{
    let mut lines = Lines::new(input);
    let Some(first) = lines.next_line() else {
        return trace_refused(alloc, LineNumber::AtEnd, "BadLine");
    };
    match first_of(first.bytes) {
        Some(bus) => trace_behind::<Q>(alloc, bus, first.number, lines),
        None => trace_refused(alloc, LineNumber::AtLine(first.number), "BadLine"),
    }
}
