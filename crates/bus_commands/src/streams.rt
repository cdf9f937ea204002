//! An input that is read whole, and a text that is written whole.

ghost use Rattle.std.specs.Prelude.{◌≡◌, ◌≤◌, ◌^◌, ◌+◌, IfOk, OnOk, IfErr};
ghost use Rattle.std.specs.Io.KnownBytes.{Appends, IsAtEnd};
ghost use Rattle.bus_commands.specs.Streams.{ReadsWhole, ReadsAtMost, WritesPart};
ghost use Rattle.bus_commands.specs.Streams.{IsReadFault};

use bus_run::RunFault;
use std::alloc::Global;
use std::io::{Read, Write};

/// How many bytes a script has at most.
pub const SCRIPT_LIMIT: usize = 1_048_576;

/// How many bytes the lines of a log have at most.
pub const LOG_LIMIT: usize = 2_097_152;

/// How many bytes of a journal are read at most: 64 MiB.
pub const JOURNAL_LIMIT: usize = 67_108_864;

/// How many bytes are read at once.
const CHUNK: usize = 16_384;

/// Reads to the end, and gives up where more than so many bytes come. Each error of the reader
/// counts, an interrupted read too.
pub fn read_whole<R: Read>(alloc: Global, reader: &mut R, limit: usize) -> Result<Vec<u8>, RunFault>
    requires { limit ≤ 2 ^ 32 }
    ensures ok { IfOk result (λ input. ReadsWhole limit (R.remaining reader.old) input.items) }
    ensures end { OnOk result (IsAtEnd (R.remaining reader.new)) }
    ensures fault { IfErr result
        (IsReadFault limit (R.remaining reader.old) (R.remaining reader.new)) }
    ensures taken { ReadsAtMost (R.remaining reader.old) (R.remaining reader.new)
        (limit + 1) }
{
    let mut input = Vec::new(alloc);
    let mut chunk = [0u8; CHUNK];
    while input.len() <= limit {
        let room = CHUNK.min(limit + 1 - input.len());
        let Ok(count) = reader.read(&mut chunk[..room]) else {
            return Err(RunFault::Read);
        };
        if count == 0 {
            return Ok(input);
        }
        input.extend_from_slice(&chunk[..count])?;
    }
    Err(RunFault::TooMuch)
}

/// Writes all of a text. Each error of the writer counts, and so does a write that takes no byte.
pub fn write_whole<W: Write>(writer: &mut W, text: &[u8]) -> Result<(), RunFault>
    ensures ok { OnOk result (Appends (W.contents writer.old) (W.contents writer.new) text.now) }
    ensures err { IfErr result (λ fault. fault ≡ RunFault.Write) }
    ensures part { WritesPart (W.contents writer.old) (W.contents writer.new) text.now }
{
    let mut rest = text;
    while !rest.is_empty() {
        match writer.write(rest) {
            Ok(count) if count > 0 => rest = &rest[count..],
            _ => return Err(RunFault::Write),
        }
    }
    match writer.flush() {
        Ok(()) => Ok(()),
        Err(_) => Err(RunFault::Write),
    }
}
