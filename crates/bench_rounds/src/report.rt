//! What is printed.

ghost use Rattle.std.specs.Prelude.{◌≡◌, ◌+◌, ◌-◌, ◌/◌, ◌<◌, ◌≤◌};
ghost use Rattle.std.specs.Prelude.{length, slice_index, IfSome, MatchOption, Contains, EachIndex};

use crate::faults::Fault;
use crate::needs::Load;
use crate::request::{MOST_REPETITIONS, Ring, parse_line};
use crate::rounds::{Times, round};
use std::alloc::Global;
use std::io::Input;
use std::sync::Wait;
use std::thread::Threads;
use std::time::Clock;
use std::{fmt, io};

/// Runs all rounds that are asked for and prints how long each took; none of them with no
/// repetition, where one round is run all the same.
pub fn bench<R: Print + Threads + Wait + Clock + Sync>(
    rt: &R,
    alloc: Global,
    load: Load,
) -> Result<(), Fault> {
    let mut times = Vec::with_capacity(alloc, load.repetitions as usize)?;
    printed(print_load(rt, load))?;
    if load.repetitions == 0 {
        round(rt, alloc, load, 0)?;
    }
    for repetition in 0..load.repetitions {
        let took = round(rt, alloc, load, repetition)?;
        printed(print_times(rt, repetition, took))?;
        times.push(took.from_gate)?;
    }
    let least = least_of(times.as_slice());
    times.sort_unstable();
    match (least, middle(times.as_slice())) {
        (Some(least), Some(median)) => printed(print_summary(rt, load, least, median)),
        _ => Ok(()),
    }
}

/// Runs a round for each line of the input, over this ring where there is to be one, and prints its
/// nanoseconds from the gate's opening.
pub fn serve<R: Input + Print + Threads + Wait + Clock + Sync>(
    rt: &R,
    alloc: Global,
    ring: Option<Ring>,
) -> Result<(), Fault> {
    let mut seed: u64 = 0;
    for line in rt.lines(alloc) {
        let Ok(line) = line else {
            return Err(Fault::Read);
        };
        let load = load_of(line.as_str())?.over(ring);
        let nanoseconds = round(rt, alloc, load, seed)?.from_gate;
        printed(println!(rt; "{nanoseconds}"))?;
        seed = seed.wrapping_add(1);
    }
    Ok(())
}

/// The measurement that a line asks for.
fn load_of(line: &str) -> Result<Load, Fault> {
    match parse_line(line) {
        Ok(request) => request.load().map_err(Fault::Short),
        Err(refusal) => Err(Fault::Line(refusal)),
    }
}

/// A result that could not be printed is a fault.
fn printed(outcome: io::Result<()>) -> Result<(), Fault> {
    match outcome {
        Ok(()) => Ok(()),
        Err(_) => Err(Fault::Print),
    }
}

/// A number of things, as `1 sender` and `2 senders`.
#[derive(Clone, Copy)]
struct Many<'a>(u64, &'a str);

impl fmt::Display for Many<'_> {
    fn fmt<W: fmt::Write>(&self, f: &mut fmt::Formatter<W>) -> fmt::Result {
        let plural = if self.0 == 1 { "" } else { "s" };
        write!(f, "{} {}{plural}", self.0, self.1)
    }
}

/// Prints what is measured.
fn print_load<R: Print>(rt: &R, load: Load) -> io::Result<()> {
    let senders = Many(load.senders, "sender");
    let receivers = Many(load.receivers, "receiver");
    let messages = Many(load.messages, "message");
    let bytes = load.size.bytes();
    let items = Many(load.items(), "item");
    println!(rt; "{senders}, {receivers}, {messages} of {bytes} bytes each: {items}")
}

/// Prints how long a repetition took.
fn print_times<R: Print>(rt: &R, repetition: u64, took: Times) -> io::Result<()>
    requires { repetition < MOST_REPETITIONS }
{
    let number = repetition + 1;
    let (from_gate, with_start) = (took.from_gate, took.with_start);
    println!(rt; "{number}: {from_gate} ns, {with_start} ns with thread start")
}

/// Prints the least and the median time.
fn print_summary<R: Print>(rt: &R, load: Load, least: u64, median: u64) -> io::Result<()> {
    let tenths = u128::from(median) * 10 / u128::from(load.items().max(1));
    let (whole, tenth) = (tenths / 10, tenths % 10);
    println!(rt; "least {least} ns, median {median} ns, {whole}.{tenth} ns per item")
}

/// The least of the times; none of none.
pub fn least_of(times: &[u64]) -> Option<u64>
    ensures least { MatchOption result (length times.now ≡ 0)
        (λ least. EachIndex times.now (λ k. least ≤ slice_index times.now k)) }
    ensures among { IfSome result (Contains times.now) }
{
    times.iter().copied().min()
}

/// The middle of numbers in order: of an even count, half the sum of the two in the middle.
pub fn middle(sorted: &[u64]) -> Option<u64>
    ensures { MatchOption result (length sorted.now ≡ 0)
        (λ middle. middle
        ≡ (slice_index sorted.now ((length sorted.now - 1) / 2) + slice_index sorted.now
        (length sorted.now / 2)) / 2) }
{
    if sorted.is_empty() {
        return None;
    }
    let low = u128::from(sorted[(sorted.len() - 1) / 2]);
    let high = u128::from(sorted[sorted.len() / 2]);
    Some(((low + high) / 2) as u64)
}
