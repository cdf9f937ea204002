//! `bus log`: the words of a log, told.

ghost use Rattle.std.specs.Prelude.{◌≡◌, ◌≤◌, ◌+◌, ℕ, List, IfOk, OnOk, IfErr};
ghost use Rattle.std.specs.Io.KnownBytes.{Appends, IsAtEnd};
ghost use Rattle.bus_register.specs.declared.limits.TheConstants.{MOST_MESSAGES};
ghost use Rattle.bus_script.specs.declared.answers.Outcome.{Outcome};
ghost use Rattle.bus_logtext.specs.Answers.{IsAnswer};
ghost use Rattle.bus_commands.specs.Tasks.{most_of as spec_most_of};
ghost use Rattle.bus_commands.specs.Streams.{ReadsWhole, ReadsAtMost, IsScriptFault};

use crate::streams::{LOG_LIMIT, read_whole, write_whole};
use bus_logtext::read_log_text;
use bus_register::limits::MOST_MESSAGES;
use bus_run::RunFault;
use bus_script::Outcome;
use std::alloc::Global;
use std::io::{Read, Write};

/// So many messages has a frame of a log at most where so many are asked for: 1 where none are, and
/// 64 where they are more.
pub fn most_of(batch: u64) -> u64
    ensures is { result ≡ spec_most_of batch }
    ensures range { (1 ≤ result) × (result ≤ MOST_MESSAGES) }
{
    batch.min(MOST_MESSAGES as u64).max(1)
}

/// Reads the lines of a log to their end, and writes what its words spell to so many senders, with
/// so many messages in a frame at most, and nothing else.
pub fn log<R: Read, W: Write>(
    alloc: Global,
    senders: u64,
    batch: u64,
    reader: &mut R,
    writer: &mut W,
) -> Result<Outcome, RunFault>
    // All of the input was read, and all of its answer was written.
    ensures ok { IfOk result (λ outcome. (input text : List ℕ)
        × ReadsWhole LOG_LIMIT (R.remaining reader.old) input
        × IsAnswer (spec_most_of batch) senders input outcome text
        × Appends (W.contents writer.old) (W.contents writer.new) text) }

    // Which faults there are. But for a front of the answer, where a write failed, nothing was
    // written.
    ensures fault { IfErr result (IsScriptFault LOG_LIMIT (λ input text. (outcome : Outcome)
        × IsAnswer (spec_most_of batch) senders input outcome text)
        (R.remaining reader.old) (R.remaining reader.new) (W.contents writer.old)
        (W.contents writer.new)) }

    // The reader is at its end, or it gave no more than shows that the input is too long.
    ensures end { OnOk result (IsAtEnd (R.remaining reader.new)) }
    ensures taken { ReadsAtMost (R.remaining reader.old) (R.remaining reader.new)
        (LOG_LIMIT + 1) }
{
    let input = read_whole(alloc, reader, LOG_LIMIT)?;
    let answer = read_log_text(alloc, input.as_slice(), senders, most_of(batch))?;
    write_whole(writer, answer.text.as_bytes())?;
    Ok(answer.outcome)
}
