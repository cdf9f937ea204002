//! What a run prints.

use super::streams::{FullWriter, StuckWriter};
use crate::same::same;
use bus_commands::printing::{Request, print_run};
use bus_run::RunFault;
use bus_script::Outcome;
use std::io::Write;
use std::sync::Wait;
use std::thread::Threads;

/// What `print_run` answers.
fn prints<R: Threads + Wait + Sync + AllocGlobal, W: Write>(
    rt: &R,
    request: Request,
    writer: &mut W,
) -> Result<Outcome, RunFault> {
    print_run(rt, rt.alloc(), request, writer)
}

#[test]
fn run_default(rt: HostRuntime) {
    let request = Request {
        senders: 3,
        receivers: 2,
        messages: 100,
        seed: 7,
    };
    let mut written = Vec::new(rt.alloc());
    let result = prints(&rt, request, &mut written);
    same(&rt, &result, &Ok(Outcome::Done));
    let text = "sender 0: 100\nsender 1: 100\nsender 2: 100\nreceiver 0: 300 end\n\
        receiver 1: 300 end\ntenures 22\nwords 623\naudit ok\n";
    same(&rt, &written.as_slice(), &text.as_bytes());
}

/// The smallest run.
const SMALLEST: Request = Request {
    senders: 1,
    receivers: 1,
    messages: 0,
    seed: 7,
};

/// The end mark has a tenure, and a head and a word.
const TEXT: &str = "sender 0: 0\nreceiver 0: 0 end\ntenures 1\nwords 2\naudit ok\n";

#[test]
fn failing_writer(rt: HostRuntime) {
    for fails in [false, true] {
        for room in 0..TEXT.len() {
            let mut writer = FullWriter::new(rt.alloc(), room, fails);
            let result = prints(&rt, SMALLEST, &mut writer);
            assert!(rt; result == Err(RunFault::Write), "with room for {room}");
            assert!(rt;
                writer.written.as_slice() == &TEXT.as_bytes()[..room],
                "with room for {room}"
            );
        }
        let mut writer = FullWriter::new(rt.alloc(), TEXT.len(), fails);
        let result = prints(&rt, SMALLEST, &mut writer);
        same(&rt, &result, &Ok(Outcome::Done));
        same(&rt, &writer.written.as_slice(), &TEXT.as_bytes());
    }
}

#[test]
fn stuck_writer(rt: HostRuntime) {
    let mut writer = StuckWriter::new(rt.alloc());
    let result = prints(&rt, SMALLEST, &mut writer);
    same(&rt, &result, &Err(RunFault::Write));
    same(&rt, &writer.written.as_slice(), &TEXT.as_bytes());
}
