//! `bus_bench` times a bus: a thread for each sender and each receiver shares a new bus, once for
//! each repetition, and each receiver takes all items. What the receivers were given is checked.
//!
//! Exit status: 0 where all rounds passed; 1 where the messages do not fit a bus or a round failed,
//! which standard error then says; 2 where the command line was refused.
#![tactic(auto)]

use bench_rounds::faults::Fault;
use bench_rounds::report::{bench, serve};
use bench_rounds::request::{Refusal, USAGE, parse, parse_ring};
use std::io::Input;
use std::process::ExitCode;
use std::rt::Env;
use std::sync::Wait;
use std::thread::Threads;
use std::time::Clock;
use std::{env, io};

fn main(rt: HostRuntime) -> ExitCode {
    bus_bench(&rt)
}

/// The whole program.
fn bus_bench<R: AllocGlobal + Env + Input + Print + Eprint + Threads + Wait + Clock + Sync>(
    rt: &R,
) -> ExitCode {
    let words = match bench_words(rt) {
        Ok(words) => words,
        Err(error) if error.kind() == io::ErrorKind::OutOfMemory => {
            let _ = eprintln!(rt; "bus_bench: no memory");
            return ExitCode::FAILURE;
        }
        Err(_) => return refuse(rt, Refusal::NotText),
    };
    if let Some(word) = words.get(1)
        && word.as_str() == "lines"
    {
        return match parse_ring(words.as_slice()) {
            Ok(ring) => end(rt, serve(rt, rt.alloc(), ring)),
            Err(refusal) => refuse(rt, refusal),
        };
    }
    match parse(words.as_slice()) {
        Ok(request) => match request.load() {
            Ok(load) => end(rt, bench(rt, rt.alloc(), load)),
            Err(shortage) => {
                let _ = eprintln!(rt; "bus_bench: {shortage}");
                ExitCode::FAILURE
            }
        },
        Err(refusal) => refuse(rt, refusal),
    }
}

/// The words of the command line, of which the first is the program's name.
fn bench_words<R: AllocGlobal + Env>(rt: &R) -> io::Result<Vec<String>> {
    Ok(env::args(rt)?.collect(rt.alloc())?)
}

/// Says why the command line was refused and how it is written, and gives the exit status.
fn refuse<R: Eprint>(rt: &R, refusal: Refusal) -> ExitCode {
    let _ = eprintln!(rt; "bus_bench: {refusal}");
    let _ = rt.eprint(USAGE);
    ExitCode::from(2)
}

/// Says what failed, and gives the exit status.
fn end<R: Eprint>(rt: &R, ended: Result<(), Fault>) -> ExitCode {
    match ended {
        Ok(()) => ExitCode::SUCCESS,
        Err(fault) => {
            let _ = eprintln!(rt; "bus_bench: {fault}");
            ExitCode::FAILURE
        }
    }
}
