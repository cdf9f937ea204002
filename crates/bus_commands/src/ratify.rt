//! `bus ratify`: one adopt-commit object, played by the schedule of a script.

ghost use Rattle.std.specs.Prelude.{◌+◌, ℕ, List, IfOk, OnOk, IfErr};
ghost use Rattle.std.specs.Io.KnownBytes.{Appends, IsAtEnd};
ghost use Rattle.bus_script.specs.declared.answers.Outcome.{Outcome};
ghost use Rattle.bus_ratify.specs.Answers.{IsAnswer};
ghost use Rattle.bus_commands.specs.Streams.{ReadsWhole, ReadsAtMost, IsScriptFault};

use crate::streams::{SCRIPT_LIMIT, read_whole, write_whole};
use bus_ratify::answer_to;
use bus_run::RunFault;
use bus_script::Outcome;
use std::alloc::Global;
use std::io::{Read, Write};

/// Reads a script to its end, plays it, and writes the answer and nothing else.
pub fn ratify<R: Read, W: Write>(
    alloc: Global,
    reader: &mut R,
    writer: &mut W,
) -> Result<Outcome, RunFault>
    // All of the input was read, and all of its answer was written.
    ensures ok { IfOk result (λ outcome. (input text : List ℕ)
        × ReadsWhole SCRIPT_LIMIT (R.remaining reader.old) input × IsAnswer input outcome text
        × Appends (W.contents writer.old) (W.contents writer.new) text) }

    // Which faults there are. But for a front of the answer, where a write failed, nothing was
    // written.
    ensures fault { IfErr result (IsScriptFault SCRIPT_LIMIT (λ input text. (outcome : Outcome)
        × IsAnswer input outcome text)
        (R.remaining reader.old) (R.remaining reader.new) (W.contents writer.old)
        (W.contents writer.new)) }

    // The reader is at its end, or it gave no more than shows that the input is too long.
    ensures end { OnOk result (IsAtEnd (R.remaining reader.new)) }
    ensures taken { ReadsAtMost (R.remaining reader.old) (R.remaining reader.new)
        (SCRIPT_LIMIT + 1) }
{
    let input = read_whole(alloc, reader, SCRIPT_LIMIT)?;
    let answer = answer_to(alloc, input.as_slice())?;
    write_whole(writer, answer.text.as_bytes())?;
    Ok(answer.outcome)
}
