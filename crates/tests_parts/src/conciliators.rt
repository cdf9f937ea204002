//! Steps of coins and conciliators with known answers, and a table against a plain model.

ghost use Rattle.std.specs.Prelude.{◌<◌};

use crate::steps::{next_random, same, step, words};
use bus_coinconc::Conciliator;
use bus_register::{Cells, Kind, Machine, Op, Reg, SenderNo};
use bus_walkcoin::{Tally, WalkCoin, total};
use std::alloc::Global;
use std::process::Abort;

/// A machine of either sort.
#[derive(Drop)]
enum Process {
    Coin(WalkCoin),
    Conciliator(Conciliator),
}

/// Takes the next step of a process, and gives it.
fn take(rt: &impl Abort, cells: &mut Cells, process: &mut Process, word: u32) -> Option<Op> {
    match process {
        Process::Coin(coin) => step(rt, cells, coin, word),
        Process::Conciliator(conciliator) => step(rt, cells, conciliator, word),
    }
}

fn output(process: &Process) -> Option<bool> {
    match process {
        Process::Coin(coin) => coin.answer(),
        Process::Conciliator(conciliator) => conciliator.output(),
    }
}

fn wants_word(process: &Process) -> bool {
    match process {
        Process::Coin(coin) => coin.wants_word(),
        Process::Conciliator(conciliator) => conciliator.wants_word(),
    }
}

fn kind(process: &Process) -> Option<Kind> {
    match process {
        Process::Coin(coin) => coin.kind(),
        Process::Conciliator(conciliator) => conciliator.kind(),
    }
}

/// A process of a coin of so many, whose counter is this word.
fn coin(rt: &impl Abort, n: u64, at: u64) -> Process {
    assert!(rt; n <= 8);
    Process::Coin(WalkCoin::start(n, SenderNo(0), Reg(at)))
}

/// A process of a conciliator of so many with this input, whose words begin with this one.
fn conciliator(rt: &impl Abort, n: u64, me: u8, input: bool, at: u64) -> Process {
    assert!(rt; n <= 8 && at < 8);
    Process::Conciliator(Conciliator::start(n, SenderNo(me), input, Reg(at)))
}

/// Steps to the end, with these two random words by turns, one for each vote. Gives how many steps
/// were taken.
fn run(rt: &impl Abort, cells: &mut Cells, process: &mut Process, random: [u32; 2]) -> u64 {
    let mut taken: u64 = 0;
    let mut first = true;
    for _ in 0..1000 {
        let word = if first { random[0] } else { random[1] };
        if wants_word(process) {
            first = !first;
        }
        if take(rt, cells, process, word).is_some() {
            taken = taken.wrapping_add(1);
        }
    }
    taken
}

/// A process that steps alone, with these random words by turns, ends after so many steps with
/// this output.
fn ends(
    rt: &impl Abort,
    cells: &mut Cells,
    mut process: Process,
    random: [u32; 2],
    steps: u64,
    wanted: bool,
) {
    same(rt, &run(rt, cells, &mut process, random), &steps);
    same(rt, &output(&process), &Some(wanted));
}

#[test]
fn tallies_are_words(rt: HostRuntime) {
    assert!(rt; Tally::of_word(0x0000_0003_0000_0002) == Tally { heads: 3, tails: 2 });
    assert!(rt; Tally { heads: 3, tails: 2 }.word() == 0x0000_0003_0000_0002);
    assert!(rt; Tally::add_word(true) == 0x0000_0001_0000_0000);
    assert!(rt; Tally::add_word(false) == 1);
}

#[test]
fn tallies_are_added(rt: HostRuntime) {
    let tally = Tally { heads: 3, tails: 2 };
    assert!(rt; tally.vote(true) == Tally { heads: 4, tails: 2 });
    assert!(rt; total(&[tally, Tally { heads: 0, tails: 4 }]) == -3);
}

#[test]
fn coin_steps(rt: HostRuntime) {
    same(&rt, &WalkCoin::width(2), &1);
    ends(&rt, &mut words(&rt, 1), coin(&rt, 1, 0), [1, 1], 4, true);
    ends(&rt, &mut words(&rt, 1), coin(&rt, 1, 0), [1, 0], 128, false);
    let mut cells = words(&rt, 1);
    ends(&rt, &mut cells, coin(&rt, 2, 0), [1, 1], 8, true);
    ends(&rt, &mut cells, coin(&rt, 2, 0), [0, 0], 16, false);
}

#[test]
fn conciliator_steps(rt: HostRuntime) {
    same(&rt, &Conciliator::width(2), &3);
    let mut cells = words(&rt, 3);
    for me in 0..2 {
        ends(
            &rt,
            &mut cells,
            conciliator(&rt, 2, me, true, 0),
            [0, 0],
            2,
            true,
        );
    }
    let mut cells = words(&rt, 3);
    ends(
        &rt,
        &mut cells,
        conciliator(&rt, 2, 0, false, 0),
        [1, 1],
        2,
        false,
    );
    ends(
        &rt,
        &mut cells,
        conciliator(&rt, 2, 1, true, 0),
        [0, 0],
        10,
        false,
    );
}

/// What a process of the plain model does next.
#[derive(Clone, Copy, PartialEq, Eq)]
enum Act {
    SetMark,
    ReadOtherMark,
    Vote,
    Read,
    Done,
}

/// A process of the plain model.
#[derive(Clone, Copy)]
struct Plain {
    input: bool,
    act: Act,
    votes: u64,
    output: Option<bool>,
}

/// The words of the plain model: the marks, and all heads and tails.
#[derive(Clone, Copy)]
struct Board {
    marks: [bool; 2],
    heads: i64,
    tails: i64,
}

fn bit(value: bool) -> usize
    ensures small { result < 2 }
{
    if value { 1 } else { 0 }
}

/// The answer of the plain model's coin.
fn plain_answer(n: u64, votes: u64, seen: i64) -> Option<bool> {
    let barrier = i64::try_from(n).unwrap_or(0).wrapping_mul(2);
    if seen >= barrier {
        Some(true)
    } else if seen.wrapping_add(barrier) <= 0 {
        Some(false)
    } else if votes >= 64 {
        Some(seen > 0)
    } else {
        None
    }
}

/// The step that a process of the plain model takes next, over this counter.
fn plain_op(counter: u64, plain: Plain, word: u32) -> Option<Op> {
    let marks = counter.wrapping_sub(2);
    match plain.act {
        Act::SetMark => Some(Op::Store(Reg(marks.wrapping_add(bit(plain.input) as u64)), 1)),
        Act::ReadOtherMark => Some(Op::Load(Reg(marks.wrapping_add(bit(!plain.input) as u64)))),
        Act::Vote if word & 1 == 1 => Some(Op::Add(Reg(counter), 0x1_0000_0000)),
        Act::Vote => Some(Op::Add(Reg(counter), 1)),
        Act::Read => Some(Op::Load(Reg(counter))),
        Act::Done => None,
    }
}

fn plain_kind(plain: Plain) -> Option<Kind> {
    match plain.act {
        Act::SetMark => Some(Kind::SetMark),
        Act::ReadOtherMark => Some(Kind::ReadOtherMark),
        Act::Vote => Some(Kind::Vote),
        Act::Read => Some(Kind::ReadVotes),
        Act::Done => None,
    }
}

/// The board after a step of the plain model.
fn plain_board(plain: Plain, mut board: Board, word: u32) -> Board {
    match plain.act {
        Act::SetMark => board.marks[bit(plain.input)] = true,
        Act::Vote => {
            if word & 1 == 1 {
                board.heads = board.heads.wrapping_add(1);
            } else {
                board.tails = board.tails.wrapping_add(1);
            }
        }
        _ => {}
    }
    board
}

/// The process after a step of the plain model, on the board before it.
fn plain_step(n: u64, mut plain: Plain, board: Board) -> Plain {
    match plain.act {
        Act::SetMark => plain.act = Act::ReadOtherMark,
        Act::ReadOtherMark => {
            if board.marks[bit(!plain.input)] {
                plain.act = Act::Vote;
            } else {
                plain.act = Act::Done;
                plain.output = Some(plain.input);
            }
        }
        Act::Vote => {
            plain.votes = plain.votes.wrapping_add(1);
            plain.act = Act::Read;
        }
        Act::Read => {
            plain.output = plain_answer(n, plain.votes, board.heads.wrapping_sub(board.tails));
            plain.act = if plain.output.is_some() {
                Act::Done
            } else {
                Act::Vote
            };
        }
        Act::Done => {}
    }
    plain
}

/// The counter of the processes that play beside the plain model.
const COUNTER: u64 = 5;

/// A process, and beside it that of the plain model.
#[derive(Drop)]
struct Seat {
    process: Process,
    plain: Plain,
}

impl Seat {
    /// A process of a coin or of a conciliator of so many, before its first step.
    fn new(rt: &impl Abort, n: u64, me: u8, input: bool, is_coin: bool) -> Seat {
        let (process, act) = if is_coin {
            (coin(rt, n, COUNTER), Act::Vote)
        } else {
            (conciliator(rt, n, me, input, COUNTER - 2), Act::SetMark)
        };
        let plain = Plain {
            input,
            act,
            votes: 0,
            output: None,
        };
        Seat { process, plain }
    }

    /// What the process tells of itself is what the model has.
    fn compare(&self, rt: &impl Abort) {
        assert!(rt; wants_word(&self.process) == (self.plain.act == Act::Vote));
        assert!(rt; kind(&self.process) == plain_kind(self.plain));
        assert!(rt; output(&self.process) == self.plain.output);
    }

    /// Takes a step of the process on the words, and of the model on the board.
    fn step(&mut self, rt: &impl Abort, n: u64, cells: &mut Cells, board: &mut Board, word: u32) {
        let op = take(rt, cells, &mut self.process, word);
        assert!(rt; op == plain_op(COUNTER, self.plain, word));
        let before = self.plain;
        self.plain = plain_step(n, before, *board);
        *board = plain_board(before, *board, word);
    }
}

/// Steps by random turns and random words, with the plain model beside.
fn play(rt: &impl Abort, cells: &mut Cells, seats: &mut [Seat], seed: u64) {
    let n = seats.len() as u64;
    let mut board = Board {
        marks: [false, false],
        heads: 0,
        tails: 0,
    };
    let mut state = seed;
    for _ in 0..3000 {
        state = next_random(state);
        let eighth = ((state >> 33) % 8) as usize;
        let turn = if seed % 2 == 0 { eighth } else { eighth / 3 };
        let word = ((state >> 20) % 0x1_0000_0000) as u32;
        if turn < seats.len() {
            seats[turn].compare(rt);
            seats[turn].step(rt, n, cells, &mut board, word);
            seats[turn].compare(rt);
        }
    }
}

/// Processes of one coin or conciliator, with inputs by these bits.
fn seats<R: Abort + AllocGlobal>(rt: &R, n: u64, bits: u64, is_coin: bool) -> Vec<Seat> {
    let mut seats = Vec::new(rt.alloc());
    for me in 0..8u8 {
        if u64::from(me) < n {
            let input = (bits >> (50 + me)) & 1 == 1;
            let seat = Seat::new(rt, n, me, input, is_coin);
            seats.push(seat).expect(rt, "memory");
        }
    }
    seats
}

#[test]
fn random_schedules(rt: HostRuntime) {
    let mut state: u64 = 1;
    let mut ended: usize = 0;
    let mut used_up: usize = 0;
    for round in 0..200u64 {
        state = next_random(state);
        let mut seats = seats(&rt, 1 + (state >> 40) % 8, state, round % 2 == 0);
        play(&rt, &mut words(&rt, 16), &mut seats, state);
        for seat in &seats {
            if seat.plain.output.is_some() {
                ended = ended.wrapping_add(1);
                if seat.plain.votes == 64 {
                    used_up = used_up.wrapping_add(1);
                }
            }
        }
    }
    assert!(rt; ended > 400, "the schedules are long enough: {ended}");
    assert!(rt; used_up > 0, "some answers come after all votes: {used_up}");
}
