//! `bench_turns turns` prints nanoseconds a turn for each kind of step, with 1, 3 and 8 senders.
//! `bench_turns kinds` takes few of these turns, and prints the kind of each in their order, for a
//! program that counts the instructions between readings of the clock.
//! `bench_turns storm` runs buses whose workers yield, sleep, fork or stop for good at random
//! turns, in one thread for each processor and then in eight: 10,000 each, or as many as a further
//! argument says. `bench_turns elections` prints own steps of elections, with 1 to 8, 16, 32 and 64
//! senders and either ratifier. `bench_turns reader` prints how long a plain sum, `read_log` and a
//! receiver take for each word of a log of 65,505 words, the best of 50 rounds. With another
//! argument it tries a little of turns, storms and readers, and prints what is the same each time.
//!
//! Exit status: 1 where a run failed, where a reader does not find all messages, or where of many
//! runs none had a holder behind another sender to the last, none was a chain of sittings, none
//! forked, or none was of a ring in which a receiver left, stopped, forked or found no number for a
//! fork, and a sender was answered Full.
#![tactic(auto)]

mod chains;
mod elections;
mod figures;
mod hearers;
mod orders;
mod readers;
mod rings;
mod send_workers;
mod settling;
mod storms;
mod turn_receivers;
mod turns;
mod workers;

use self::elections::print_elections;
use self::figures::storm;
use self::readers::{print_readers, read_once};
use self::turns::{FEW_TURNS, print_kinds, print_turns, turns_of};
use std::alloc::Global;
use std::env;
use std::process::ExitCode;
use std::thread::{Threads, available_parallelism};
use std::time::Clock;

/// Runs of a storm where no argument says how many.
const MOST_RUNS: u64 = 10_000;

/// In so many runs some holder is behind another sender to the last, some sender leaves, some are
/// chains, and some are rings, with all that may come of them.
const MANY_RUNS: u64 = 256;

/// Storms in one thread for each processor and in eight. On false a run has failed, or many did not
/// show all of these.
fn two_storms<R: Threads + Clock + Print + Sync>(
    rt: &R,
    alloc: Global,
    runs: u64,
) -> anyhow::Result<bool> {
    let processors = available_parallelism(rt)?.get() as u64;
    let mut passed = true;
    for threads in [processors, processors.saturating_mul(8)] {
        println!(rt; "{threads} threads")?;
        let figures = storm(rt, alloc, runs, threads)?;
        figures.print(rt)?;
        let shows_all = figures.shows_all() && figures.rings.show_all();
        passed &= figures.failed == 0 && (runs < MANY_RUNS || shows_all);
    }
    Ok(passed)
}

/// A log read once, some turns, three runs in four threads, and nine in one, which are the same
/// each time. On false a run has failed, or the nine did not show all of these.
fn few_runs<R: Threads + Clock + Print + Sync>(rt: &R, alloc: Global) -> anyhow::Result<bool> {
    read_once(rt, alloc)?;
    turns_of(rt, alloc, 3, 1, FEW_TURNS)?;
    let some = storm(rt, alloc, 3, 4)?;
    println!(rt; "{} runs, {} failed", some.runs, some.failed)?;
    let alone = storm(rt, alloc, 9, 1)?;
    println!(rt;
        "{} runs in one thread, {} failed",
        alone.runs, alone.failed
    )?;
    Ok(some.failed == 0 && alone.failed == 0 && alone.shows_all())
}

fn main(rt: HostRuntime) -> anyhow::Result<ExitCode> {
    let alloc = rt.alloc();
    let mut args = env::args(&rt)?.skip(1);
    let mode = args.next();
    let runs = match args.next() {
        Some(runs) => runs.as_str().parse()?,
        None => MOST_RUNS,
    };
    let passed = match mode.as_ref().map(|mode| mode.as_str()) {
        Some("turns") => {
            for senders in [1, 3, 8] {
                print_turns(&rt, alloc, senders, 60)?;
            }
            true
        }
        Some("kinds") => {
            for senders in [1, 3, 8] {
                print_kinds(&rt, alloc, senders)?;
            }
            true
        }
        Some("storm") => two_storms(&rt, alloc, runs)?,
        Some("elections") => {
            print_elections(&rt, alloc)?;
            true
        }
        Some("reader") => {
            print_readers(&rt, alloc)?;
            true
        }
        _ => few_runs(&rt, alloc)?,
    };
    Ok(if passed {
        ExitCode::SUCCESS
    } else {
        ExitCode::FAILURE
    })
}
