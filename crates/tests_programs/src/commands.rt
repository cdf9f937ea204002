//! What no clause says: the longest script, streams that fail, and command lines.

mod log;
mod replay;
mod run;
mod streams;
mod webpages;

use self::streams::{FailingReader, FullWriter, StuckWriter};
use crate::same::same;
use bus_commands::command_line::{Task, parse};
use bus_commands::printing::Request;
use bus_commands::ratify::ratify;
use bus_run::RunFault;
use bus_script::Outcome;
use bus_webpage::Purpose;
use clap::error::ErrorKind;
use std::io;
use std::io::{Read, Write};
use std::process::Abort;

/// What `ratify` answers.
fn ratifies<R: Abort + AllocGlobal, I: Read, W: Write>(
    rt: &R,
    reader: &mut I,
    writer: &mut W,
) -> Result<Outcome, RunFault> {
    ratify(rt.alloc(), reader, writer)
}

/// A script whose first line is this, and whose second line is a comment of this many bytes.
fn with_comment<R: Abort + AllocGlobal>(rt: &R, first: &[u8], length: usize) -> Vec<u8> {
    let mut script = vec![in rt.alloc(); b'#'; length].expect(rt, "memory");
    let mut all = Vec::from_slice(rt.alloc(), first).expect(rt, "memory");
    all.append(&mut script).expect(rt, "memory");
    all
}

#[test]
fn oversized_scripts(rt: HostRuntime) {
    let longest = with_comment(&rt, b"inputs 1\n", 1_048_567);
    same(&rt, &longest.len(), &1_048_576);
    let mut reader = longest.as_slice();
    let mut written = Vec::new(rt.alloc());
    let result = ratifies(&rt, &mut reader, &mut written);
    same(&rt, &result, &Ok(Outcome::Done));
    same(&rt, &written.as_slice(), &b"0 open\n".as_slice());

    let longer = with_comment(&rt, b"inputs 1\n", 1_048_568);
    let mut reader = longer.as_slice();
    let mut written = Vec::new(rt.alloc());
    let result = ratifies(&rt, &mut reader, &mut written);
    same(&rt, &result, &Err(RunFault::TooMuch));
    assert!(rt; written.is_empty());
}

const SCRIPT: &[u8] = b"inputs 1\nsteps 0 0 0 0\n";

#[test]
fn failing_reader(rt: HostRuntime) {
    for fails_at in 0..SCRIPT.len() + 1 {
        for kind in [io::ErrorKind::Other, io::ErrorKind::Interrupted] {
            let mut reader = FailingReader::new(SCRIPT, fails_at, kind);
            let mut written = Vec::new(rt.alloc());
            let result = ratifies(&rt, &mut reader, &mut written);
            assert!(rt; result == Err(RunFault::Read), "at call {fails_at}");
            assert!(rt; written.is_empty(), "at call {fails_at}");
        }
    }
    let mut reader = FailingReader::new(SCRIPT, SCRIPT.len() + 1, io::ErrorKind::Other);
    let mut written = Vec::new(rt.alloc());
    let result = ratifies(&rt, &mut reader, &mut written);
    same(&rt, &result, &Ok(Outcome::Done));
    same(&rt, &written.as_slice(), &b"0 commit 1\n".as_slice());
}

#[test]
fn failing_writer(rt: HostRuntime) {
    let text = b"0 commit 1\n";
    for fails in [false, true] {
        for room in 0..text.len() {
            let mut reader = SCRIPT;
            let mut writer = FullWriter::new(rt.alloc(), room, fails);
            let result = ratifies(&rt, &mut reader, &mut writer);
            assert!(rt; result == Err(RunFault::Write), "with room for {room}");
            assert!(rt;
                writer.written.as_slice() == &text[..room],
                "with room for {room}"
            );
        }
        let mut reader = SCRIPT;
        let mut writer = FullWriter::new(rt.alloc(), text.len(), fails);
        let result = ratifies(&rt, &mut reader, &mut writer);
        same(&rt, &result, &Ok(Outcome::Done));
        same(&rt, &writer.written.as_slice(), &text.as_slice());
    }
}

#[test]
fn stuck_writer(rt: HostRuntime) {
    let mut reader = SCRIPT;
    let mut writer = StuckWriter::new(rt.alloc());
    let result = ratifies(&rt, &mut reader, &mut writer);
    same(&rt, &result, &Err(RunFault::Write));
    same(&rt, &writer.written.as_slice(), &b"0 commit 1\n".as_slice());
}

/// The words of a command line, behind the program's name.
fn words_of<R: Abort + AllocGlobal>(rt: &R, rest: &[&str]) -> Vec<String> {
    let mut words = Vec::new(rt.alloc());
    words
        .push("bus".to_string(rt.alloc()).expect(rt, "memory"))
        .expect(rt, "memory");
    for word in rest {
        words
            .push(word.to_string(rt.alloc()).expect(rt, "memory"))
            .expect(rt, "memory");
    }
    words
}

/// Wants that the words behind the program's name name this task.
fn names_task<R: Abort + AllocGlobal>(rt: &R, rest: &[&str], task: Task) {
    let words = words_of(rt, rest);
    match parse(rt.alloc(), words.as_slice()) {
        Ok(named) => assert!(rt; named == task, "of {rest:?}"),
        Err(_) => panic!(rt; "of {rest:?}"),
    }
}

/// Wants that these words name `log` with these numbers.
fn names_log<R: Abort + AllocGlobal>(rt: &R, rest: &[&str], senders: u64, batch: u64) {
    names_task(rt, rest, Task::Log { senders, batch });
}

#[test]
fn tasks(rt: HostRuntime) {
    let run = Request {
        senders: 3,
        receivers: 2,
        messages: 100,
        seed: 7,
    };
    names_task(&rt, &["ratify"], Task::Ratify);
    names_task(&rt, &["replay"], Task::Replay);
    names_task(&rt, &["trace"], Task::Trace);
    names_task(&rt, &["trace", "--svg"], Task::Picture);
    names_task(&rt, &["trace", "--html"], Task::Webpage(Purpose::Step));
    names_task(&rt, &["trace", "--play"], Task::Webpage(Purpose::Play));
    names_task(&rt, &["run"], Task::Run(run));
    names_task(&rt, &["run", "--log"], Task::RunLog(run));
    names_task(&rt, &["run", "--journal"], Task::RunJournal(run));
    names_log(&rt, &["log"], 3, 16);
    names_log(&rt, &["log", "--senders", "2"], 2, 16);
    names_log(&rt, &["log", "--batch", "64"], 3, 64);
    names_task(&rt, &["journal"], Task::Journal);
    names_task(&rt, &["journal", "--repair"], Task::Repair);
}

/// Wants that `run` with these options is this run.
fn asks_for<R: Abort + AllocGlobal>(rt: &R, options: [&str; 4], run: [u64; 4]) {
    let [first, second, third, fourth] = options;
    let [senders, receivers, messages, seed] = run;
    let request = Request {
        senders,
        receivers,
        messages,
        seed,
    };
    names_task(
        rt,
        &["run", first, second, third, fourth],
        Task::Run(request),
    );
}

#[test]
fn ends_of_ranges(rt: HostRuntime) {
    let least = ["--senders=1", "--receivers=1", "--messages=0", "--seed=0"];
    asks_for(&rt, least, [1, 1, 0, 0]);
    let seed = "--seed=18446744073709551615";
    let most = ["--senders=8", "--receivers=8", "--messages=400", seed];
    asks_for(&rt, most, [8, 8, 400, u64::MAX]);
    names_log(&rt, &["log", "--senders=1", "--batch=1"], 1, 1);
    names_log(&rt, &["log", "--senders=64", "--batch=64"], 64, 64);
}

/// Wants that the words behind the program's name are refused so.
fn refuses_words<R: Abort + AllocGlobal>(rt: &R, rest: &[&str], kind: ErrorKind) {
    let words = words_of(rt, rest);
    match parse(rt.alloc(), words.as_slice()) {
        Ok(_) => panic!(rt; "of {rest:?}"),
        Err(error) => assert!(rt; error.kind() == kind, "of {rest:?}"),
    }
}

#[test]
fn command_lines(rt: HostRuntime) {
    refuses_words(
        &rt,
        &[],
        ErrorKind::DisplayHelpOnMissingArgumentOrSubcommand,
    );
    refuses_words(&rt, &["x"], ErrorKind::InvalidSubcommand);
    refuses_words(&rt, &["help"], ErrorKind::InvalidSubcommand);
    refuses_words(&rt, &["ratify", "x"], ErrorKind::UnknownArgument);
    refuses_words(&rt, &["replay", "x"], ErrorKind::UnknownArgument);
    for rest in [["trace", "--svg", "--html"], ["trace", "--html", "--svg"]] {
        refuses_words(&rt, &rest, ErrorKind::ArgumentConflict);
    }
    let both = ["run", "--log", "--journal"];
    refuses_words(&rt, &both, ErrorKind::ArgumentConflict);
    for rest in [
        ["run", "--senders", "0"],
        ["run", "--senders", "9"],
        ["run", "--receivers", "0"],
        ["run", "--receivers", "9"],
        ["run", "--messages", "401"],
        ["run", "--seed", "18446744073709551616"],
        ["run", "--seed", "x"],
        ["log", "--senders", "0"],
        ["log", "--senders", "65"],
    ] {
        refuses_words(&rt, &rest, ErrorKind::ValueValidation);
    }
    refuses_words(&rt, &["--help"], ErrorKind::DisplayHelp);
    refuses_words(&rt, &["ratify", "-h"], ErrorKind::DisplayHelp);
    refuses_words(&rt, &["--version"], ErrorKind::DisplayVersion);
    refuses_words(&rt, &["run", "--version"], ErrorKind::UnknownArgument);
}

#[test]
fn batches_of_a_log(rt: HostRuntime) {
    for rest in [["log", "--batch", "0"], ["log", "--batch", "65"]] {
        refuses_words(&rt, &rest, ErrorKind::ValueValidation);
    }
}
