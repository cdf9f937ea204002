//! `bus trace --html` and `bus trace --play`: the web page that steps through what a script has a
//! bus do, and the one on which one also plays on.

ghost use Rattle.std.specs.Prelude.{◌≡◌, ℕ, ◌+◌, List, IfOk, OnOk, IfErr, string_bytes};
ghost use Rattle.std.specs.Io.KnownBytes.{Appends, IsAtEnd};
ghost use Rattle.bus_tenure.specs.Elections.{election_of};
ghost use Rattle.bus_script.specs.declared.answers.Outcome.{Outcome};
ghost use Rattle.bus_trace.specs.Traces.{IsTrace};
ghost use Rattle.bus_webpage.specs.Webpages.{script_of, webpage};
ghost use Rattle.bus_commands.specs.Streams.{ReadsWhole, ReadsAtMost, IsScriptFault};

use crate::streams::{SCRIPT_LIMIT, read_whole, write_whole};
use bus_adoptcommit::Ratifier;
use bus_run::RunFault;
use bus_script::Answer;
use bus_trace::trace_of;
use bus_webpage::{Purpose, script_of, webpage_of};
use std::alloc::Global;
use std::io::{Read, Write};

/// Reads a script to its end, moves a new bus by it, writes the web page of the script and of the
/// trace of that, for this purpose, and nothing else, and gives that trace. Where one plays and the
/// input is empty, the script is the first opening.
pub fn webpage<Q: Ratifier + Drop, R: Read, W: Write>(
    alloc: Global,
    purpose: Purpose,
    reader: &mut R,
    writer: &mut W,
) -> Result<Answer, RunFault>
    // All of the input was read, and the whole web page of the script and of its trace was written.
    ensures ok { let X = election_of Q.Ratifier in
        IfOk result (λ answer. (input : List ℕ)
        × ReadsWhole SCRIPT_LIMIT (R.remaining reader.old) input
        × IsTrace X Q.protocol (script_of purpose input) answer.outcome (string_bytes answer.text)
        × Appends (W.contents writer.old) (W.contents writer.new)
        (webpage purpose (script_of purpose input) (string_bytes answer.text))) }

    // Which faults there are. But for a front of it, where a write failed, nothing was written.
    ensures fault { let X = election_of Q.Ratifier in
        IfErr result (IsScriptFault SCRIPT_LIMIT (λ input text. (outcome : Outcome)
        × (trace : List ℕ) × IsTrace X Q.protocol (script_of purpose input) outcome trace
        × (text ≡ webpage purpose (script_of purpose input) trace))
        (R.remaining reader.old) (R.remaining reader.new) (W.contents writer.old)
        (W.contents writer.new)) }

    // The reader is at its end, or it gave no more than shows that the input is too long.
    ensures end { OnOk result (IsAtEnd (R.remaining reader.new)) }
    ensures taken { ReadsAtMost (R.remaining reader.old) (R.remaining reader.new)
        (SCRIPT_LIMIT + 1) }
{
    let input = read_whole(alloc, reader, SCRIPT_LIMIT)?;
    let script = script_of(purpose, input.as_slice());
    let answer = trace_of::<Q>(alloc, script)?;
    let shown = webpage_of(alloc, purpose, script, &answer.text)?;
    write_whole(writer, shown.as_bytes())?;
    Ok(answer)
}
