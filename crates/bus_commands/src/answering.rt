//! Which command a task names, and by which ratifier it goes.

ghost use Rattle.std.specs.Prelude.{◌≡◌, ◌⊎◌, ℕ, List, IfOk, IfErr, IsErrOf, Ok, Err};
ghost use Rattle.std.specs.Io.KnownBytes.{Appends, Keeps};
ghost use Rattle.bus_script.specs.declared.answers.Outcome.{Outcome};
ghost use Rattle.bus_commands.specs.Streams.{ReadsWhole, IsScriptFault, WritesPart};
ghost use Rattle.bus_commands.specs.Tasks.{AnswersTask, PrintsTask, FailsTask, ReadsInput};
ghost use Rattle.bus_commands.specs.Tasks.{limit_of};

use crate::command_line::Task;
use crate::journal::{journal, repair};
use crate::log::log;
use crate::picture::picture;
use crate::printing::{print_journal, print_log, print_run};
use crate::ratify::ratify;
use crate::replay::replay;
use crate::trace::trace;
use crate::webpage::webpage;
use bus_adoptcommit::ThreeWord;
use bus_run::RunFault;
use bus_script::{Answer, Outcome};
use std::alloc::Global;
use std::io::{Read, Write};
use std::sync::Wait;
use std::thread::Threads;

/// Does the command of a task that reads, over all of its input: a replay and a trace by the
/// ratifier of three words. With the outcome it gives the trace, where a picture or a web page of
/// one was written.
pub fn answer<R: Read, W: Write>(
    alloc: Global,
    task: Task,
    reader: &mut R,
    writer: &mut W,
) -> Result<Answer, RunFault>
    requires { ReadsInput task }
    // All of the input was read, and all that the task answers to it was written.
    ensures ok { IfOk result (λ answer. (input text : List ℕ)
        × ReadsWhole (limit_of task) (R.remaining reader.old) input
        × AnswersTask task input answer.outcome text
        × Appends (W.contents writer.old) (W.contents writer.new) text) }
    // Which faults there are, as of the command.
    ensures fault { IfErr result (IsScriptFault (limit_of task) (λ input text. (outcome : Outcome)
        × AnswersTask task input outcome text)
        (R.remaining reader.old) (R.remaining reader.new) (W.contents writer.old)
        (W.contents writer.new)) }
{
    match task {
        Task::Ratify => without_trace(alloc, ratify(alloc, reader, writer)),
        Task::Replay => without_trace(alloc, replay::<ThreeWord, _, _>(alloc, reader, writer)),
        Task::Trace => without_trace(alloc, trace::<ThreeWord, _, _>(alloc, reader, writer)),
        Task::Picture => picture::<ThreeWord, _, _>(alloc, reader, writer),
        Task::Webpage(purpose) => webpage::<ThreeWord, _, _>(alloc, purpose, reader, writer),
        Task::Log { senders, batch } => {
            without_trace(alloc, log(alloc, senders, batch, reader, writer))
        }
        Task::Journal => without_trace(alloc, journal(alloc, reader, writer)),
        Task::Repair => without_trace(alloc, repair(alloc, reader, writer)),
        Task::Run(_) | Task::RunLog(_) | Task::RunJournal(_) => unreachable!(),
    }
}

/// Runs the bus that a task asks for, and writes its summary, its log or its journal.
pub fn print<T: Threads + Wait + Sync, W: Write>(
    rt: &T,
    alloc: Global,
    task: Task,
    writer: &mut W,
) -> Result<Outcome, RunFault>
    requires { ¬ ReadsInput task }
    ensures ok { IfOk result (λ outcome. (outcome ≡ Outcome.Done) × (text : List ℕ)
        × PrintsTask task text × Appends (W.contents writer.old) (W.contents writer.new) text) }
    // A front of it, where a write failed; with another fault nothing was written.
    ensures write { IsErrOf result RunFault.Write → (text : List ℕ)
        × PrintsTask task text × WritesPart (W.contents writer.old) (W.contents writer.new) text }
    ensures fault { IfErr result (λ fault. (fault ≡ RunFault.Write) ⊎ FailsTask task fault) }
    ensures unwritten { IfErr result (λ fault. (fault ≡ RunFault.Write → ⊥)
        → Keeps (W.contents writer.old) (W.contents writer.new)) }
{
    match task {
        Task::Run(request) => print_run(rt, alloc, request, writer),
        Task::RunLog(request) => print_log(rt, alloc, request, writer),
        Task::RunJournal(request) => print_journal(rt, alloc, request, writer),
        _ => unreachable!(),
    }
}

/// An outcome with no trace.
fn without_trace(alloc: Global, ended: Result<Outcome, RunFault>) -> Result<Answer, RunFault>
    ensures ok { IfOk result (λ answer. ended ≡ Ok answer.outcome) }
    ensures err { IfErr result (λ fault. ended ≡ Err fault) }
{
    match ended {
        Ok(outcome) => Ok(Answer {
            outcome,
            text: String::new(alloc),
        }),
        Err(fault) => Err(fault),
    }
}
