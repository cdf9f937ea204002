//! The program `bus`. `bus ratify`, `bus replay` and `bus trace` read a script from standard input
//! and write its answer to standard output, `bus trace --svg` a picture of it, `bus trace --html` a
//! web page that steps through it, `bus trace --play` one on which one also plays, and `bus log`
//! the words of a log. `bus journal` tells the bytes of a journal, and `bus journal --repair`
//! writes what is left of them where a torn tail is cut off. `bus run` lets threads share a bus,
//! and writes what came of it.
//!
//! Where a script, a log or a journal was refused, standard error says why, as a hint.
//!
//! Exit status: 0 where the script was played, the log was told, the journal is whole or was
//! repaired, the bus was run or the version was asked for; 1 where a script, a log or a journal was
//! refused, or the program could not do its work, which standard error then says; 2 where the
//! command line was refused, or asked for help.
#![tactic(auto)]

ghost use Rattle.std.specs.Prelude.{◌≤◌, ◌^◌};
ghost use Rattle.bus_commands.specs.Tasks.{ReadsInput};

use bus_adoptcommit::ThreeWord;
use bus_commands::answering::{answer, print};
use bus_commands::command_line::{Task, parse};
use bus_commands::log::most_of;
use bus_commands::streams::{JOURNAL_LIMIT, LOG_LIMIT, SCRIPT_LIMIT, read_whole};
use bus_journal::{JournalEnd, JournalFault, read_journal};
use bus_reasons::{Reads, reason_of};
use bus_register::NoMemory;
use bus_run::RunFault;
use bus_script::{Answer, Outcome};
use clap::error::ErrorKind;
use std::alloc::Global;
use std::process::ExitCode;
use std::rt::Env;
use std::sync::Wait;
use std::thread::Threads;
use std::{env, io};

fn main(rt: HostRuntime) -> ExitCode {
    bus(&rt)
}

/// The whole program.
fn bus<R: AllocGlobal + Env + Input + Print + Eprint + Threads + Wait + Sync>(rt: &R) -> ExitCode {
    let words = match given_words(rt) {
        Ok(words) => words,
        Err(error) if error.kind() == io::ErrorKind::OutOfMemory => {
            return end(rt, Err(RunFault::NoMemory));
        }
        Err(_) => {
            let _ = eprintln!(rt; "error: an argument is not text");
            return ExitCode::from(2);
        }
    };
    match parse(rt.alloc(), words.as_slice()) {
        Ok(task) => do_task(rt, task),
        Err(error) if error.kind() == ErrorKind::OutOfMemory => end(rt, Err(RunFault::NoMemory)),
        Err(error) if error.kind() == ErrorKind::DisplayVersion => {
            let _ = rt.print(&error);
            ExitCode::SUCCESS
        }
        Err(error) => {
            let _ = rt.eprint(&error);
            ExitCode::from(2)
        }
    }
}

/// Does what the command line asks for, and gives the exit status.
fn do_task<R: AllocGlobal + Input + Print + Eprint + Threads + Wait + Sync>(
    rt: &R,
    task: Task,
) -> ExitCode {
    match task {
        Task::Ratify => do_reading(rt, task, Some(Reads::Ratify), SCRIPT_LIMIT),
        Task::Replay => do_reading(rt, task, Some(Reads::Replay), SCRIPT_LIMIT),
        Task::Trace => do_reading(rt, task, Some(Reads::Replay), SCRIPT_LIMIT),
        Task::Picture => do_reading(rt, task, Some(Reads::Replay), SCRIPT_LIMIT),
        Task::Webpage(_) => do_reading(rt, task, Some(Reads::Replay), SCRIPT_LIMIT),
        Task::Log { senders, batch } => {
            do_reading(rt, task, Some(Reads::Log { senders, batch }), LOG_LIMIT)
        }
        Task::Journal | Task::Repair => do_reading(rt, task, None, JOURNAL_LIMIT),
        Task::RunLog(_) => end(rt, print(rt, rt.alloc(), task, &mut io::writer(rt))),
        Task::RunJournal(_) => end(rt, print(rt, rt.alloc(), task, &mut io::writer(rt))),
        Task::Run(_) => end(rt, print(rt, rt.alloc(), task, &mut io::writer(rt))),
    }
}

/// Does a command that reads, over all of its input, says why that was refused where it was, and
/// gives the exit status. What reads lines is named; a journal has none.
fn do_reading<R: AllocGlobal + Input + Print + Eprint>(
    rt: &R,
    task: Task,
    reads: Option<Reads>,
    limit: usize,
) -> ExitCode
    requires task { ReadsInput task }
    requires limit { limit ≤ 2 ^ 32 }
{
    let input = match read_whole(rt.alloc(), &mut rt.reader(), limit) {
        Ok(input) => input,
        Err(fault) => return end(rt, Err(fault)),
    };
    let ended = answer_to_input(rt, task, input.as_slice());
    if ended == Ok(Outcome::Refused) {
        match reads {
            Some(reads) => say_why(rt, reads, input.as_slice()),
            None => say_of_journal(rt, input.as_slice()),
        }
    }
    end(rt, ended)
}

/// Says why an input was refused. It is played once more, for the line that says where.
fn say_why<R: AllocGlobal + Eprint>(rt: &R, reads: Reads, input: &[u8]) {
    if let Ok(answer) = answer_again(rt.alloc(), reads, input)
        && let Some(line) = answer.text.lines().last()
        && let Ok(Some(reason)) = reason_of(rt.alloc(), reads, input, line.as_bytes())
    {
        let _ = eprintln!(rt; "bus: {reason}");
    }
}

/// Says why bytes are no whole journal.
fn say_of_journal<R: AllocGlobal + Eprint>(rt: &R, input: &[u8]) {
    let _ = match read_journal(rt.alloc(), input) {
        Ok(read) if read.hides => {
            eprintln!(rt;
                "bus: behind byte {} a head is damaged, before whole records",
                read.whole
            )
        }
        Ok(read) if read.end == JournalEnd::Torn => {
            eprintln!(rt; "bus: behind byte {} stands less than a record", read.whole)
        }
        Ok(read) => eprintln!(rt;
            "bus: behind byte {} stands no record that goes on",
            read.whole
        ),
        Err(JournalFault::NoMemory) => return,
        Err(fault) => eprintln!(rt; "bus: {fault}"),
    };
}

/// What a command answers to an input; of a trace, what `replay` does.
fn answer_again(alloc: Global, reads: Reads, input: &[u8]) -> Result<Answer, NoMemory> {
    match reads {
        Reads::Ratify => bus_ratify::answer_to(alloc, input),
        Reads::Replay => bus_replay::answer_to::<ThreeWord>(alloc, input),
        Reads::Log { senders, batch } => {
            bus_logtext::read_log_text(alloc, input, senders, most_of(batch))
        }
    }
}

/// Writes what a command that reads answers to its input, and says where a script was refused of
/// which a picture or a web page was written.
fn answer_to_input<R: AllocGlobal + Print + Eprint>(
    rt: &R,
    task: Task,
    mut input: &[u8],
) -> Result<Outcome, RunFault>
    requires { ReadsInput task }
{
    let given = answer(rt.alloc(), task, &mut input, &mut io::writer(rt))?;
    match task {
        Task::Picture | Task::Webpage(_) => say_where(rt, &given),
        _ => {}
    }
    Ok(given.outcome)
}

/// The words of the command line, of which the first is the program's name.
fn given_words<R: AllocGlobal + Env>(rt: &R) -> io::Result<Vec<String>> {
    Ok(env::args(rt)?.collect(rt.alloc())?)
}

/// Says where a script was refused of which a picture or a web page was written.
fn say_where<R: Eprint>(rt: &R, answer: &Answer) {
    if answer.outcome == Outcome::Refused
        && let Some(line) = answer.text.lines().last()
    {
        let _ = eprintln!(rt; "bus: {line}");
    }
}

/// Says what kept a command from its work, and gives the exit status.
fn end<R: Eprint>(rt: &R, ended: Result<Outcome, RunFault>) -> ExitCode {
    match ended {
        Ok(Outcome::Done) => ExitCode::SUCCESS,
        Ok(Outcome::Refused) => ExitCode::FAILURE,
        Err(fault) => {
            let _ = eprintln!(rt; "bus: {fault}");
            ExitCode::FAILURE
        }
    }
}
