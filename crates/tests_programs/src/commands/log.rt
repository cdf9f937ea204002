//! What is told of a log.

use crate::same::same;
use bus_commands::log::log;
use bus_commands::printing::{Request, print_log};
use bus_script::Outcome;
use std::process::Abort;
use std::sync::Wait;
use std::thread::Threads;

/// The log of a run, as it is printed.
fn printed<R: Threads + Wait + Abort + Sync + AllocGlobal>(rt: &R, request: Request) -> Vec<u8> {
    let mut lines = Vec::new(rt.alloc());
    let result = print_log(rt, rt.alloc(), request, &mut lines);
    assert!(rt; result == Ok(Outcome::Done));
    lines
}

/// What is told of the log of three senders.
fn told_of<R: Abort + AllocGlobal>(rt: &R, lines: &[u8]) -> Vec<u8> {
    let mut reader = lines;
    let mut told = Vec::new(rt.alloc());
    let result = log(rt.alloc(), 3, 16, &mut reader, &mut told);
    assert!(rt; result == Ok(Outcome::Done));
    told
}

#[test]
fn log_of_a_run(rt: HostRuntime) {
    let request = Request {
        senders: 3,
        receivers: 1,
        messages: 5,
        seed: 7,
    };
    let lines = printed(&rt, request);
    let told = told_of(&rt, &lines);
    let mut items = 0u32;
    for line in told.split(|byte| *byte == b'\n') {
        if line.starts_with(b"item ") {
            items = items.saturating_add(1);
        }
    }
    same(&rt, &items, &15);
    assert!(rt; told.ends_with(b"end\n"));
}

/// A log of one frame with 17 empty messages.
const SEVENTEEN: &[u8] = b"\
      4000110000000000\n8000000000000000\n8000000000000001\n\
      8000000000000002\n8000000000000003\n8000000000000004\n\
      8000000000000005\n8000000000000006\n8000000000000007\n\
      8000000000000008\n8000000000000009\n800000000000000a\n\
      800000000000000b\n800000000000000c\n800000000000000d\n\
      800000000000000e\n800000000000000f\n8000000000000010\n";

/// Wants that a log is answered so where a frame has so many messages at most.
fn answers<R: Abort + AllocGlobal>(rt: &R, lines: &[u8], batch: u64, want: Outcome) {
    let mut reader = lines;
    let mut told = Vec::new(rt.alloc());
    same(
        rt,
        &log(rt.alloc(), 1, batch, &mut reader, &mut told),
        &Ok(want),
    );
}

#[test]
fn frames_of_a_batch(rt: HostRuntime) {
    answers(&rt, SEVENTEEN, 17, Outcome::Done);
    answers(&rt, SEVENTEEN, 64, Outcome::Done);
    answers(&rt, SEVENTEEN, 16, Outcome::Refused);
    answers(&rt, SEVENTEEN, 1, Outcome::Refused);
}
