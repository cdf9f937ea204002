//! The longest script of `replay`, and streams that fail under one.

use super::streams::{FailingReader, FullWriter, StuckWriter};
use super::with_comment;
use crate::same::same;
use bus_adoptcommit::ThreeWord;
use bus_commands::replay::replay;
use bus_run::RunFault;
use bus_script::Outcome;
use std::io;
use std::io::{Read, Write};
use std::process::Abort;

/// What `replay` answers.
fn replays<R: Abort + AllocGlobal, I: Read, W: Write>(
    rt: &R,
    reader: &mut I,
    writer: &mut W,
) -> Result<Outcome, RunFault> {
    replay::<ThreeWord, _, _>(rt.alloc(), reader, writer)
}

#[test]
fn oversized_replay(rt: HostRuntime) {
    let longest = with_comment(&rt, b"shape 1 1 1 1 16\n", 1_048_559);
    same(&rt, &longest.len(), &1_048_576);
    let mut reader = longest.as_slice();
    let mut written = Vec::new(rt.alloc());
    let result = replays(&rt, &mut reader, &mut written);
    same(&rt, &result, &Ok(Outcome::Done));
    same(&rt, &written.as_slice(), &b"owners\ngiven 0 0\n".as_slice());

    let longer = with_comment(&rt, b"shape 1 1 1 1 16\n", 1_048_560);
    let mut reader = longer.as_slice();
    let mut written = Vec::new(rt.alloc());
    let result = replays(&rt, &mut reader, &mut written);
    same(&rt, &result, &Err(RunFault::TooMuch));
    assert!(rt; written.is_empty());
}

const SCRIPT: &[u8] = b"shape 1 1 1 1 16\nput 0 61\nturn 0 0 99\n";

const TEXT: &str = "put 0: number 0\nturn 0: own 0\nowners 0\ngiven 0 0\n";

#[test]
fn failing_reader(rt: HostRuntime) {
    for fails_at in 0..SCRIPT.len() + 1 {
        for kind in [io::ErrorKind::Other, io::ErrorKind::Interrupted] {
            let mut reader = FailingReader::new(SCRIPT, fails_at, kind);
            let mut written = Vec::new(rt.alloc());
            let result = replays(&rt, &mut reader, &mut written);
            assert!(rt; result == Err(RunFault::Read), "at call {fails_at}");
            assert!(rt; written.is_empty(), "at call {fails_at}");
        }
    }
    let mut reader = FailingReader::new(SCRIPT, SCRIPT.len() + 1, io::ErrorKind::Other);
    let mut written = Vec::new(rt.alloc());
    let result = replays(&rt, &mut reader, &mut written);
    same(&rt, &result, &Ok(Outcome::Done));
    same(&rt, &written.as_slice(), &TEXT.as_bytes());
}

#[test]
fn failing_writer(rt: HostRuntime) {
    for fails in [false, true] {
        for room in 0..TEXT.len() {
            let mut reader = SCRIPT;
            let mut writer = FullWriter::new(rt.alloc(), room, fails);
            let result = replays(&rt, &mut reader, &mut writer);
            assert!(rt; result == Err(RunFault::Write), "with room for {room}");
            assert!(rt;
                writer.written.as_slice() == &TEXT.as_bytes()[..room],
                "with room for {room}"
            );
        }
        let mut reader = SCRIPT;
        let mut writer = FullWriter::new(rt.alloc(), TEXT.len(), fails);
        let result = replays(&rt, &mut reader, &mut writer);
        same(&rt, &result, &Ok(Outcome::Done));
        same(&rt, &writer.written.as_slice(), &TEXT.as_bytes());
    }
}

#[test]
fn stuck_writer(rt: HostRuntime) {
    let mut reader = SCRIPT;
    let mut writer = StuckWriter::new(rt.alloc());
    let result = replays(&rt, &mut reader, &mut writer);
    same(&rt, &result, &Err(RunFault::Write));
    same(&rt, &writer.written.as_slice(), &TEXT.as_bytes());
}
