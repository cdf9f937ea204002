//! `bus trace`: a bus, moved line by line by a script, with a line for each step.

ghost use Rattle.std.specs.Prelude.{ℕ, ◌+◌, List, IfOk, OnOk, IfErr};
ghost use Rattle.std.specs.Io.KnownBytes.{Appends, IsAtEnd};
ghost use Rattle.bus_tenure.specs.Elections.{election_of};
ghost use Rattle.bus_script.specs.declared.answers.Outcome.{Outcome};
ghost use Rattle.bus_trace.specs.Traces.{IsTrace};
ghost use Rattle.bus_commands.specs.Streams.{ReadsWhole, ReadsAtMost, IsScriptFault};

use crate::streams::{SCRIPT_LIMIT, read_whole, write_whole};
use bus_adoptcommit::Ratifier;
use bus_run::RunFault;
use bus_script::Outcome;
use bus_trace::trace_of;
use std::alloc::Global;
use std::io::{Read, Write};

/// Reads a script to its end, moves a new bus by it, and writes the trace of that and nothing else.
pub fn trace<Q: Ratifier + Drop, R: Read, W: Write>(
    alloc: Global,
    reader: &mut R,
    writer: &mut W,
) -> Result<Outcome, RunFault>
    // All of the input was read, and all of its answer was written.
    ensures ok { let X = election_of Q.Ratifier in
        IfOk result (λ outcome. (input text : List ℕ)
        × ReadsWhole SCRIPT_LIMIT (R.remaining reader.old) input
        × IsTrace X Q.protocol input outcome text
        × Appends (W.contents writer.old) (W.contents writer.new) text) }

    // Which faults there are. But for a front of the answer, where a write failed, nothing was
    // written.
    ensures fault { let X = election_of Q.Ratifier in
        IfErr result (IsScriptFault SCRIPT_LIMIT (λ input text. (outcome : Outcome)
        × IsTrace X Q.protocol input outcome text)
        (R.remaining reader.old) (R.remaining reader.new) (W.contents writer.old)
        (W.contents writer.new)) }

    // The reader is at its end, or it gave no more than shows that the input is too long.
    ensures end { OnOk result (IsAtEnd (R.remaining reader.new)) }
    ensures taken { ReadsAtMost (R.remaining reader.old) (R.remaining reader.new)
        (SCRIPT_LIMIT + 1) }
{
    let input = read_whole(alloc, reader, SCRIPT_LIMIT)?;
    let answer = trace_of::<Q>(alloc, input.as_slice())?;
    write_whole(writer, answer.text.as_bytes())?;
    Ok(answer.outcome)
}
