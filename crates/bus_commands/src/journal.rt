//! `bus journal`: the bytes of a journal, told, or what is left of them where a torn tail is cut
//! off.

ghost use Rattle.std.specs.Prelude.{◌+◌, ◌≤◌, ℕ, List, IfOk, OnOk, IfErr, length, take};
ghost use Rattle.std.specs.Io.KnownBytes.{Appends, IsAtEnd};
ghost use Rattle.bus_script.specs.declared.answers.Outcome.{Outcome};
ghost use Rattle.bus_logtext.specs.Journals.{IsJournalAnswer, IsRepaired};
ghost use Rattle.bus_commands.specs.Streams.{ReadsWhole, ReadsAtMost, IsScriptFault};

use crate::streams::{JOURNAL_LIMIT, read_whole, write_whole};
use bus_logtext::{mended_len, read_journal_text};
use bus_register::NoMemory;
use bus_run::RunFault;
use bus_script::Outcome;
use std::alloc::Global;
use std::io::{Read, Write};

/// Reads the bytes of a journal to their end, and writes what they say and how they end, and
/// nothing else.
pub fn journal<R: Read, W: Write>(
    alloc: Global,
    reader: &mut R,
    writer: &mut W,
) -> Result<Outcome, RunFault>
    // All of the input was read, and all of its answer was written.
    ensures ok { IfOk result (λ outcome. (input text : List ℕ)
        × ReadsWhole JOURNAL_LIMIT (R.remaining reader.old) input
        × IsJournalAnswer input outcome text
        × Appends (W.contents writer.old) (W.contents writer.new) text) }

    // Which faults there are. But for a front of the answer, where a write failed, nothing was
    // written.
    ensures fault { IfErr result (IsScriptFault JOURNAL_LIMIT (λ input text. (outcome : Outcome)
        × IsJournalAnswer input outcome text)
        (R.remaining reader.old) (R.remaining reader.new) (W.contents writer.old)
        (W.contents writer.new)) }

    // The reader is at its end, or it gave no more than shows that the input is too long.
    ensures end { OnOk result (IsAtEnd (R.remaining reader.new)) }
    ensures taken { ReadsAtMost (R.remaining reader.old) (R.remaining reader.new)
        (JOURNAL_LIMIT + 1) }
{
    let input = read_whole(alloc, reader, JOURNAL_LIMIT)?;
    let answer = read_journal_text(alloc, input.as_slice())?;
    write_whole(writer, answer.text.as_bytes())?;
    Ok(answer.outcome)
}

/// Reads the bytes of a journal to their end, and writes those that are left where a torn tail is
/// cut off; of a damaged one, or of what is no journal, none.
pub fn repair<R: Read, W: Write>(
    alloc: Global,
    reader: &mut R,
    writer: &mut W,
) -> Result<Outcome, RunFault>
    // All of the input was read, and all that is left of it was written.
    ensures ok { IfOk result (λ outcome. (input left : List ℕ)
        × ReadsWhole JOURNAL_LIMIT (R.remaining reader.old) input
        × IsRepaired input outcome left
        × Appends (W.contents writer.old) (W.contents writer.new) left) }

    // Which faults there are. But for a front of what is left, where a write failed, nothing was
    // written.
    ensures fault { IfErr result (IsScriptFault JOURNAL_LIMIT (λ input left. (outcome : Outcome)
        × IsRepaired input outcome left)
        (R.remaining reader.old) (R.remaining reader.new) (W.contents writer.old)
        (W.contents writer.new)) }

    // The reader is at its end, or it gave no more than shows that the input is too long.
    ensures end { OnOk result (IsAtEnd (R.remaining reader.new)) }
    ensures taken { ReadsAtMost (R.remaining reader.old) (R.remaining reader.new)
        (JOURNAL_LIMIT + 1) }
{
    let input = read_whole(alloc, reader, JOURNAL_LIMIT)?;
    let (outcome, size) = repaired(alloc, input.as_slice())?;
    write_whole(writer, &input[..size])?;
    Ok(outcome)
}

/// How a repair ends, and how many of the bytes it leaves.
fn repaired(alloc: Global, input: &[u8]) -> Result<(Outcome, usize), NoMemory>
    ensures left { IfOk result (λ found. IsRepaired input.now found.0 (take found.1 input.now)) }
    ensures within { IfOk result (λ found. found.1 ≤ length input.now) }
{
    match mended_len(alloc, input)? {
        Some(size) => Ok((Outcome::Done, size)),
        None => Ok((Outcome::Refused, 0)),
    }
}
