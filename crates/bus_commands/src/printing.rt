//! What `bus run` prints of a run: its summary, its log, or a journal of that.

ghost use Rattle.std.specs.Prelude.{◌≡◌, ◌≤◌, ◌<◌, ◌^◌, ◌⊎◌, ℕ, List, IfOk, OnOk, IfErr, IsErrOf};
ghost use Rattle.std.specs.Prelude.{length, min};
ghost use Rattle.std.specs.Io.KnownBytes.{Appends, Keeps};
ghost use Rattle.bus_batch.specs.Frames.{Frame, AreFrames, log_words};
ghost use Rattle.bus_journal.specs.Format.{journal_bytes};
ghost use Rattle.bus_register.specs.declared.limits.TheConstants.{MOST_SENDERS};
ghost use Rattle.bus_commands.specs.RunLog.{IsRunLog, IsRunJournal, run_heading};
ghost use Rattle.bus_run.specs.Audit.{shape_of_run};
ghost use Rattle.bus_run.specs.Left.{RunServes};
ghost use Rattle.bus_run.specs.Reports.{IsRunReport};
ghost use Rattle.bus_run.specs.RunText.{IsRunText};
ghost use Rattle.bus_run.specs.Stops.{IsRunFault};
ghost use Rattle.bus_commands.specs.Streams.{WritesPart};

use crate::streams::write_whole;
use bus_journal::{Header, push_frames, push_header};
use bus_logtext::print_words;
use bus_register::limits::LOG_MESSAGES;
use bus_run::limits::MOST_MESSAGES_EACH;
use bus_run::{OpenGate, Report, RunFault, report_text, run};
use bus_script::Outcome;
use std::alloc::{AllocError, Global};
use std::io::Write;
use std::sync::Wait;
use std::thread::Threads;

/// A run that is asked for.
#[derive(Clone, Copy, Debug, PartialEq, Eq)]
pub struct Request {
    pub senders: u64,
    pub receivers: u64,
    /// Of each sender. More than `MOST_MESSAGES_EACH` count as so many.
    pub messages: u64,
    pub seed: u64,
}

/// Runs the bus that is asked for.
fn run_of<R: Threads + Wait + Sync>(
    rt: &R,
    alloc: Global,
    request: Request,
) -> Result<Report, RunFault>
    ensures served { OnOk result (RunServes (shape_of_run request.senders request.receivers)) }
    ensures report { IfOk result
        (λ report. IsRunReport (shape_of_run request.senders request.receivers)
        (min request.messages MOST_MESSAGES_EACH) report.ended report.heards.items) }
    ensures fault { IfErr result (IsRunFault request.senders request.receivers) }
{
    let messages = request.messages.min(MOST_MESSAGES_EACH);
    run(
        rt,
        alloc,
        request.senders,
        request.receivers,
        messages,
        request.seed,
        &OpenGate,
    )
}

/// Runs a bus and writes what came of it.
pub fn print_run<R: Threads + Wait + Sync, W: Write>(
    rt: &R,
    alloc: Global,
    request: Request,
    writer: &mut W,
) -> Result<Outcome, RunFault>
    // The shape is one that is served.
    ensures served { OnOk result (RunServes (shape_of_run request.senders request.receivers)) }

    // The run ended well, and all of its text was written.
    ensures ok { IfOk result (λ outcome. (outcome ≡ Outcome.Done) × (text : List ℕ)
        × IsRunText request.senders request.receivers
        (min request.messages MOST_MESSAGES_EACH) text
        × Appends (W.contents writer.old) (W.contents writer.new) text) }

    // The run ended well, and a part of its text was written.
    ensures write { IsErrOf result RunFault.Write
        → RunServes (shape_of_run request.senders request.receivers) × (text : List ℕ)
        × IsRunText request.senders request.receivers
        (min request.messages MOST_MESSAGES_EACH) text
        × WritesPart (W.contents writer.old) (W.contents writer.new) text }

    // Else the run did not end well, or there was no memory for the text, and nothing was written.
    ensures fault { IfErr result (λ fault. (fault ≡ RunFault.Write)
        ⊎ IsRunFault request.senders request.receivers fault) }
    ensures unwritten { IfErr result (λ fault. (fault ≡ RunFault.Write → ⊥)
        → Keeps (W.contents writer.old) (W.contents writer.new)) }
{
    let report = run_of(rt, alloc, request)?;
    let text = report_text(alloc, &report, request.senders)?;
    write_whole(writer, text.as_bytes())?;
    Ok(Outcome::Done)
}

/// Runs a bus and writes the words of its log, a line for each.
pub fn print_log<R: Threads + Wait + Sync, W: Write>(
    rt: &R,
    alloc: Global,
    request: Request,
    writer: &mut W,
) -> Result<Outcome, RunFault>
    // The shape is one that is served.
    ensures served { OnOk result (RunServes (shape_of_run request.senders request.receivers)) }

    // The run ended well, and all of its log was written.
    ensures ok { IfOk result (λ outcome. (outcome ≡ Outcome.Done) × (text : List ℕ)
        × IsRunLog request.senders request.receivers
        (min request.messages MOST_MESSAGES_EACH) text
        × Appends (W.contents writer.old) (W.contents writer.new) text) }

    // The run ended well, and a part of its log was written.
    ensures write { IsErrOf result RunFault.Write
        → RunServes (shape_of_run request.senders request.receivers) × (text : List ℕ)
        × IsRunLog request.senders request.receivers
        (min request.messages MOST_MESSAGES_EACH) text
        × WritesPart (W.contents writer.old) (W.contents writer.new) text }

    // Else the run did not end well, or there was no memory for the text, and nothing was written.
    ensures fault { IfErr result (λ fault. (fault ≡ RunFault.Write)
        ⊎ IsRunFault request.senders request.receivers fault) }
    ensures unwritten { IfErr result (λ fault. (fault ≡ RunFault.Write → ⊥)
        → Keeps (W.contents writer.old) (W.contents writer.new)) }
{
    let report = run_of(rt, alloc, request)?;
    let text = print_words(alloc, report.ended.log())?;
    write_whole(writer, text.as_bytes())?;
    Ok(Outcome::Done)
}

/// The bytes of a journal of a run's log.
fn run_journal(alloc: Global, words: &[u64], senders: u64) -> Result<Vec<u8>, AllocError>
    requires some { 1 ≤ senders }
    requires few { senders ≤ MOST_SENDERS }
    ensures { IfOk result (λ bytes. (frames : List Frame) → AreFrames senders frames
        → log_words frames ≡ words.now
        → bytes.items ≡ journal_bytes (run_heading senders) frames) }
{
    let header = Header {
        senders,
        most: LOG_MESSAGES as u64,
        place: 0,
        first: vec![in alloc; 0u64; senders as usize]?,
    };
    let mut bytes = Vec::new(alloc);
    push_header(&mut bytes, &header)?;
    push_frames(&mut bytes, 0, words)?;
    Ok(bytes)
}

/// Runs a bus and writes the bytes of a journal of its log.
pub fn print_journal<R: Threads + Wait + Sync, W: Write>(
    rt: &R,
    alloc: Global,
    request: Request,
    writer: &mut W,
) -> Result<Outcome, RunFault>
    // The shape is one that is served.
    ensures served { OnOk result (RunServes (shape_of_run request.senders request.receivers)) }

    // The run ended well, and all of its journal was written.
    ensures ok { IfOk result (λ outcome. (outcome ≡ Outcome.Done) × (text : List ℕ)
        × IsRunJournal request.senders request.receivers
        (min request.messages MOST_MESSAGES_EACH) text
        × Appends (W.contents writer.old) (W.contents writer.new) text) }

    // The run ended well, and a part of its journal was written.
    ensures write { IsErrOf result RunFault.Write
        → RunServes (shape_of_run request.senders request.receivers) × (text : List ℕ)
        × IsRunJournal request.senders request.receivers
        (min request.messages MOST_MESSAGES_EACH) text
        × WritesPart (W.contents writer.old) (W.contents writer.new) text }

    // Else the run did not end well, or there was no memory for the bytes, and nothing was written.
    ensures fault { IfErr result (λ fault. (fault ≡ RunFault.Write)
        ⊎ IsRunFault request.senders request.receivers fault) }
    ensures unwritten { IfErr result (λ fault. (fault ≡ RunFault.Write → ⊥)
        → Keeps (W.contents writer.old) (W.contents writer.new)) }
{
    let report = run_of(rt, alloc, request)?;
    let bytes = run_journal(alloc, report.ended.log(), request.senders)?;
    write_whole(writer, bytes.as_slice())?;
    Ok(Outcome::Done)
}
