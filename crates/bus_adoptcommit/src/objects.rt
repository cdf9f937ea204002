//! One object, played by a schedule: each entry is the next step of that process.

ghost use Rattle.std.specs.Prelude.{◌≡◌, ℕ, ◌<◌, ◌≤◌, ◌^◌, length, slice_get};
ghost use Rattle.std.specs.Prelude.{slice_index, All, IfOk, map};
ghost use Rattle.bus_register.specs.Protocol.{Protocol, Laws};
ghost use Rattle.bus_adoptcommit.specs.Plays.{AtStarts, IsMove, Verdicts, moment};

use super::ratifiers::Ratifier;
use super::verdicts::Verdict;
use bus_register::limits::MOST_PROCESSES;
use bus_register::{Cells, Machine, NoMemory, Reg, SenderNo};
use std::alloc::Global;

/// Process `p` takes its next step, if it has one.
pub fn step<Q: Ratifier>(cells: &mut Cells, processes: &mut [Q], p: usize)
    requires known { p < length processes.old }
    requires room { Q.protocol.width (length processes.old) ≤ length cells.old }
    requires keeps { Q.protocol.Keeps (length processes.old) 0 (slice_index cells.old)
        (slice_get processes.old) }
    ensures cells { length cells.new ≡ length cells.old }
    ensures keeps { Q.protocol.Keeps (length processes.new) 0 (slice_index cells.new)
        (slice_get processes.new) }
    ensures moves { IsMove Q.op Q.fed p (moment cells.old processes.old)
        (moment cells.new processes.new) }
{
    if let Some(op) = processes[p].next(0) {
        let got = cells.apply(op);
        processes[p].feed(got, 0);
    }
}

/// A process for each input, at its start.
fn start_all<Q: Ratifier + Drop>(alloc: Global, inputs: &[bool]) -> Result<Vec<Q>, NoMemory>
    requires few { length inputs.now ≤ MOST_PROCESSES }
    requires room { Q.protocol.width (length inputs.now) ≤ 2 ^ 64 }
    ensures { IfOk result
        (λ processes. AtStarts Q.protocol
        (length inputs.now) (length inputs.now) inputs.now processes.items) }
{
    let mut processes = Vec::new(alloc);
    for (i, input) in inputs.iter().enumerate() {
        let process = Q::start(inputs.len() as u64, SenderNo(i as u8), *input, Reg(0));
        processes.push(process)?;
    }
    Ok(processes)
}

/// The outputs, by process.
fn outputs_of<Q: Ratifier>(alloc: Global, processes: &[Q]) -> Result<Vec<Option<Verdict>>, NoMemory>
    ensures { IfOk result (λ outs. outs.items ≡ map Q.protocol.output processes.now) }
{
    let outputs = processes.iter().map(|process| process.output());
    Ok(outputs.collect(alloc)?)
}

/// Plays one object from its inputs by a schedule, and gives the verdict of each process that has
/// one. An entry of a process that takes no further step changes nothing. Memory is its only
/// refusal.
pub fn verdicts<Q: Ratifier + Drop>(
    alloc: Global,
    inputs: &[bool],
    schedule: &[u8],
) -> Result<Vec<Option<Verdict>>, NoMemory>
    requires few { length inputs.now ≤ MOST_PROCESSES }
    requires known { All (λ p. p < length inputs.now) schedule.now }
    ensures { IfOk result
        (λ outs. Verdicts Q.op Q.fed Q.protocol inputs.now schedule.now outs.items) }
{
    let mut cells = Cells::new(alloc, Q::width(inputs.len() as u64))?;
    let mut processes = start_all::<Q>(alloc, inputs)?;
    for p in schedule {
        step(&mut cells, &mut processes, usize::from(*p));
    }
    outputs_of(alloc, &processes)
}
