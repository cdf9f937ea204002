//! Own steps of elections whose senders are next at random.

ghost use Rattle.std.specs.Prelude.{◌≡◌, ◌≤◌};
ghost use Rattle.bus_register.specs.Words.{register};

use anyhow::{Context, bail, ensure};
use bus_adoptcommit::{Ratifier, ThreeWord, TwoCollect};
use bus_ownerbits::{Election, bound};
use bus_register::limits::MOST_SENDERS;
use bus_register::{Cells, Machine, Op, Reg, SenderNo};
use rand_core::Rng;
use rand_pcg::Pcg32;
use std::alloc::Global;

/// Senders of which each number is tried; of more than these 16, 32 and 64.
const FEW_SENDERS: u64 = 8;

/// Elections of each number of senders over each ratifier.
const ELECTIONS: u64 = 2_000;

/// Rounds of each bit.
const ROUNDS: u64 = 4;

/// More steps than an election has.
const MOST_STEPS: u64 = 1_000_000;

/// A sender that has no owner yet.
#[derive(Drop)]
struct Seat<Q: Ratifier> {
    me: SenderNo,
    election: Election<Q>,
    steps: u64,
}

/// The place of the word that a step touches.
fn place(op: Op) -> Reg
    ensures { result.0 ≡ register op }
{
    match op {
        Op::Load(at) | Op::Store(at, _) | Op::Add(at, _) | Op::Cas(at, _, _) => at,
    }
}

/// Takes the next step, if there is one, on a word that is there and has room for it.
fn step<M: Machine>(cells: &mut Cells, machine: &mut M, word: u32) -> Option<()> {
    let op = machine.next(word)?;
    let found = *cells.as_slice().get(place(op).0 as usize)?;
    if let Op::Add(_, votes) = op {
        found.checked_add(votes)?;
    }
    machine.feed(cells.apply(op), word);
    Some(())
}

/// Of `n` senders any that has no owner yet is next, until all have the same. Notes how many own
/// steps each took, with the one by which an owner takes the page.
fn elect<Q: Ratifier + Drop>(
    alloc: Global,
    n: u64,
    dice: &mut Pcg32,
    taken: &mut Vec<u64>,
) -> anyhow::Result<()>
    requires { (1 ≤ n) × (n ≤ MOST_SENDERS) }
{
    let mut cells = Cells::new(alloc, Election::<Q>::width(n, ROUNDS))?;
    let mut seats = Vec::new(alloc);
    for me in 0..n {
        seats.push(Seat {
            me: SenderNo(me as u8),
            election: Election::<Q>::start(n, SenderNo(me as u8), ROUNDS, Reg(0)),
            steps: 0,
        })?;
    }
    let mut owner = None;
    for _ in 0..MOST_STEPS {
        if seats.is_empty() {
            return Ok(());
        }
        let next = dice.next_u32() as usize % seats.len();
        let seat = &mut seats[next];
        step(&mut cells, &mut seat.election, dice.next_u32()).context("a step is wrong")?;
        seat.steps = seat.steps.saturating_add(1);
        if let Some(found) = seat.election.owner() {
            ensure!(found == *owner.get_or_insert(found), "two owners");
            taken.push(seat.steps.saturating_add(u64::from(found == seat.me)))?;
            seats.swap_remove(next);
        }
    }
    bail!("an election of {n} senders does not end")
}

/// Prints mean, worst and bound of the own steps of `n` senders.
fn print_steps<Q: Ratifier + Drop, R: Print>(rt: &R, alloc: Global, n: u64) -> anyhow::Result<()>
    requires { (1 ≤ n) × (n ≤ MOST_SENDERS) }
{
    let mut dice = Pcg32::new(n, ROUNDS);
    let mut taken = Vec::new(alloc);
    for _ in 0..ELECTIONS {
        elect::<Q>(alloc, n, &mut dice, &mut taken)?;
    }
    let sum = taken
        .iter()
        .fold(0u64, |sum, steps| sum.saturating_add(*steps));
    let worst = taken.iter().copied().max().unwrap_or(0);
    let tenths = u128::from(sum) * 10 / (taken.len() as u128).max(1);
    let bound = bound::<Q>(n, ROUNDS);
    print!(rt; " | {:>15}.{}", tenths / 10, tenths % 10)?;
    print!(rt; " {worst:>5} {bound:>5}")?;
    ensure!(worst <= bound, "one of {n} senders has passed its bound");
    Ok(())
}

/// Prints a line for each number of senders.
pub fn print_elections<R: Print>(rt: &R, alloc: Global) -> anyhow::Result<()> {
    println!(rt; " n | TwoCollect   mean worst bound | ThreeWord    mean worst bound")?;
    for n in 1..MOST_SENDERS as u64 + 1 {
        if n <= FEW_SENDERS || n.is_power_of_two() {
            print!(rt; "{n:>2}")?;
            print_steps::<TwoCollect, R>(rt, alloc, n)?;
            print_steps::<ThreeWord, R>(rt, alloc, n)?;
            println!(rt; "")?;
        }
    }
    Ok(())
}
