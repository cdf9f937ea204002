//! Worked rows, and random schedules of elections beside a plain model.

mod model;

ghost use Rattle.std.specs.Prelude.{◌≤◌, ◌<◌};

use crate::steps::{next_random, same, step, words};
use bus_adoptcommit::{Ratifier, ThreeWord, TwoCollect};
use bus_binconsensus::Decide;
use bus_ownerbits::{Election, bits, bound};
use bus_register::{Cells, Kind, Machine, Op, Reg, SenderNo};
use model::{Act, Board, Row, Sender, empty_board};
use std::process::Abort;

/// Steps to the end, and gives how many steps were taken.
fn run<M: Machine>(rt: &impl Abort, cells: &mut Cells, machine: &mut M) -> u64 {
    let mut taken: u64 = 0;
    for _ in 0..1000 {
        if step(rt, cells, machine, 0).is_some() {
            taken = taken.wrapping_add(1);
        }
    }
    taken
}

/// So many senders have so many bits.
fn has_bits(rt: &impl Abort, n: u64, wanted: u64) {
    assert!(rt; 1 <= n && n <= 64);
    same(rt, &bits(n), &wanted);
}

/// An election of so many senders and rounds takes at most so many turns.
fn is_bounded<Q: Ratifier>(rt: &impl Abort, n: u64, rounds: u64, wanted: u64) {
    assert!(rt; 1 <= n && n <= 64 && 1 <= rounds && rounds <= 8);
    same(rt, &bound::<Q>(n, rounds), &wanted);
}

#[test]
fn bounds(rt: HostRuntime) {
    for (n, wanted) in [(1, 0), (2, 1), (3, 2), (5, 3), (8, 3), (9, 4), (64, 6)] {
        has_bits(&rt, n, wanted);
    }
    let two_collect = [
        (1, 1, 2),
        (1, 8, 2),
        (2, 1, 11),
        (2, 2, 147),
        (5, 1, 56),
        (8, 8, 3191),
        (64, 8, 12092),
    ];
    for (n, rounds, wanted) in two_collect {
        is_bounded::<TwoCollect>(&rt, n, rounds, wanted);
    }
    let three_word = [
        (1, 1, 2),
        (1, 8, 2),
        (2, 1, 9),
        (2, 2, 143),
        (5, 1, 32),
        (8, 8, 2855),
        (9, 1, 58),
        (64, 1, 416),
        (64, 8, 6044),
    ];
    for (n, rounds, wanted) in three_word {
        is_bounded::<ThreeWord>(&rt, n, rounds, wanted);
    }
}

/// A process of a decision of two, with this input, decides 0. Gives in how many steps.
fn decides<Q: Ratifier + Drop>(rt: &impl Abort, cells: &mut Cells, me: u8, input: bool) -> u64 {
    assert!(rt; me < 2);
    assert!(rt; Decide::<Q>::width(2, 1) <= cells.len());
    let mut process = Decide::<Q>::start(2, SenderNo(me), input, 1, Reg(0));
    let steps = run(rt, cells, &mut process);
    assert!(rt; process.decided() == Some(false));
    steps
}

/// Two processes decide, one after the other: how many words the decision has, and how many steps
/// each takes.
fn decision_takes<Q: Ratifier + Drop>(
    rt: &(impl Abort + AllocGlobal),
    width: u64,
    alone: u64,
    late: u64,
) {
    same(rt, &Decide::<Q>::width(2, 1), &width);
    let mut cells = words(rt, width);
    same(rt, &decides::<Q>(rt, &mut cells, 0, false), &alone);
    same(rt, &decides::<Q>(rt, &mut cells, 1, true), &late);
}

/// A process of a decision of two, before its first step.
fn begins<Q: Ratifier + Drop>(rt: &impl Abort) {
    assert!(rt; Decide::<Q>::width(2, 1) <= 16);
    let process = Decide::<Q>::start(2, SenderNo(0), false, 1, Reg(0));
    assert!(rt; process.kind() == Some(Kind::WriteFirst));
    assert!(rt; !process.wants_word());
}

/// How many words an election of so many has.
fn width_of<Q: Ratifier + Drop>(rt: &impl Abort, n: u8) -> u64 {
    assert!(rt; 1 <= n && n <= 64);
    Election::<Q>::width(u64::from(n), 1)
}

/// The last of so many processes steps to the end alone, elects itself, and tells how many turns
/// are left. Gives how many steps it took and how many turns are left.
fn elects<Q: Ratifier + Drop>(rt: &impl Abort, cells: &mut Cells, n: u8) -> (u64, u64) {
    assert!(rt; 1 <= n && n <= 64);
    let senders = u64::from(n);
    assert!(rt; Election::<Q>::width(senders, 1) <= cells.len());
    let mut last = Election::<Q>::start(senders, SenderNo(n - 1), 1, Reg(0));
    let steps = run(rt, cells, &mut last);
    assert!(rt; last.owner() == Some(SenderNo(n - 1)));
    (steps, last.turns_left())
}

/// An election of so many has so many words, and its last process, alone, takes so many steps to
/// elect itself, of so many turns at most.
fn election_takes<Q: Ratifier + Drop>(
    rt: &(impl Abort + AllocGlobal),
    n: u8,
    width: u64,
    steps: u64,
    turns: u64,
) {
    same(rt, &width_of::<Q>(rt, n), &width);
    let (taken, left) = elects::<Q>(rt, &mut words(rt, width), n);
    same(rt, &taken, &steps);
    same(rt, &taken.wrapping_add(left), &turns);
}

#[test]
fn decision_and_election_steps(rt: HostRuntime) {
    begins::<TwoCollect>(&rt);
    decision_takes::<TwoCollect>(&rt, 5, 6, 7);
    election_takes::<TwoCollect>(&rt, 1, 1, 1, 2);
    election_takes::<TwoCollect>(&rt, 5, 38, 37, 56);
    decision_takes::<ThreeWord>(&rt, 4, 4, 4);
    election_takes::<ThreeWord>(&rt, 1, 1, 1, 2);
    election_takes::<ThreeWord>(&rt, 5, 17, 13, 32);
}

/// How often the schedules came to what they are to come to.
#[derive(Clone, Copy, Debug, Default)]
struct Reached {
    /// Processes that have an owner in the end.
    ended: u64,
    /// Processes that stopped for good before.
    stopped: u64,
    /// Processes that stopped before their first step.
    absent: u64,
    /// Steps on a fallback word.
    fallbacks: u64,
    /// Steps on a fallback word where the other value stood.
    overruled: u64,
    /// Votes in coins.
    votes: u64,
    /// Answers of coins before the last vote.
    answers: u64,
    /// Answers of coins after the last vote.
    late_answers: u64,
    /// Loads of announcements that were not there.
    unset: u64,
    /// Loads of announcements that gave a new candidate.
    candidates: u64,
}

/// Counts one more.
fn add_one(count: &mut u64) {
    *count = count.wrapping_add(1);
}

impl Reached {
    /// The schedules came to all that they are to come to.
    fn is_enough(&self) -> bool {
        self.ended > 500
            && self.stopped > 100
            && self.absent > 20
            && self.fallbacks > 300
            && self.overruled > 100
            && self.votes > 10000
            && self.answers > 100
            && self.late_answers > 100
            && self.unset > 0
            && self.candidates > 300
    }

    /// Counts a step of the model.
    fn count_step(&mut self, before: &Sender, after: &Sender) {
        match before.act {
            Act::Vote => add_one(&mut self.votes),
            Act::ReadVotes if after.act == Act::WriteFirst => {
                if after.votes < 64 {
                    add_one(&mut self.answers);
                } else {
                    add_one(&mut self.late_answers);
                }
            }
            Act::Fallback => {
                add_one(&mut self.fallbacks);
                if after.decided[before.bit % 3] != Some(before.value) {
                    add_one(&mut self.overruled);
                }
            }
            Act::ReadAnnouncement(_) => {
                if after.candidate == before.candidate {
                    add_one(&mut self.unset);
                } else {
                    add_one(&mut self.candidates);
                }
            }
            _ => {}
        }
    }
}

/// A process of an election, and beside it the sender of the plain model.
#[derive(Drop)]
struct Seat {
    election: Election<TwoCollect>,
    sender: Sender,
    /// How many steps both have taken.
    taken: u64,
    /// After how many steps they stop for good.
    stop: Option<u64>,
}

/// A process of an election that has taken no step.
fn election_of(rt: &impl Abort, row: Row, me: u8) -> Election<TwoCollect> {
    let n = row.n as u64;
    let rounds = row.rounds as u64;
    let at = row.at as u64;
    assert!(rt; u64::from(me) < n && n <= 8 && 1 <= rounds && rounds <= 3 && at < 100);
    assert!(rt; Election::<TwoCollect>::width(n, rounds) < 1000);
    Election::start(n, SenderNo(me), rounds, Reg(at))
}

impl Seat {
    /// A process that has taken no step, and its sender.
    fn new(rt: &impl Abort, row: Row, me: u8, stop: Option<u64>) -> Seat {
        Seat {
            election: election_of(rt, row, me),
            sender: Sender::new(usize::from(me)),
            taken: 0,
            stop,
        }
    }

    /// The process takes further steps.
    fn goes_on(&self) -> bool {
        self.sender.act != Act::Done && self.stop != Some(self.taken)
    }

    /// Checks what the process tells of itself against the model.
    fn compare(&self, rt: &impl Abort, row: Row) {
        assert!(rt; self.election.kind() == self.sender.kind());
        assert!(rt; self.election.wants_word() == (self.sender.act == Act::Vote));
        assert!(rt; self.election.owner() == self.sender.owner());
        assert!(rt; self.election.turns_left() == row.turns().wrapping_sub(self.taken));
        assert!(rt; self.taken < row.turns());
    }

    /// Takes a step of the process on the words.
    fn take(&mut self, rt: &impl Abort, cells: &mut Cells, word: u32) -> Option<Op> {
        self.taken = self.taken.wrapping_add(1);
        step(rt, cells, &mut self.election, word)
    }

    /// An election that has ended has no step.
    fn has_ended(&self, rt: &impl Abort) {
        assert!(rt; self.election.next(0) == None);
    }
}

/// Elections on words, and the plain model of them on a board.
#[derive(Drop)]
struct Schedule {
    row: Row,
    cells: Cells,
    board: Board,
    seats: Vec<Seat>,
}

/// How turns and random words are handed out.
#[derive(Clone, Copy, PartialEq, Eq)]
enum Pace {
    /// Any process is next, and any word.
    Random,
    /// Each process takes some turns in a row.
    Bursts,
    /// High processes are next more often, so that low ones announce themselves late.
    HighFirst,
    /// One process after the other, and heads as often as tails, so that coins last long.
    InTurn,
}

impl Pace {
    /// The process of a turn, by the one before.
    fn process(self, turn: u64, random: u64, before: usize) -> usize {
        let first = ((random >> 33) % 8) as usize;
        let second = ((random >> 37) % 8) as usize;
        match self {
            Pace::InTurn => (turn % 8) as usize,
            _ if turn > 8000 => (turn % 8) as usize,
            Pace::Random => first,
            Pace::Bursts if second != 0 => before,
            Pace::Bursts => first,
            Pace::HighFirst => first.max(second),
        }
    }

    /// The random word of a turn.
    fn word(self, random: u64, sender: &Sender) -> u32 {
        let word = ((random >> 20) % 0x1_0000_0000) as u32;
        if self == Pace::InTurn {
            let vote = sender.votes.wrapping_add(sender.me as u64) % 2;
            (word - word % 2).wrapping_add(vote as u32)
        } else {
            word
        }
    }
}

impl Schedule {
    /// Elections of senders that have taken no step.
    fn new<R: Abort + AllocGlobal>(rt: &R, row: Row, stops: [Option<u64>; 8]) -> Schedule {
        let mut seats: Vec<Seat> = Vec::new(rt.alloc());
        for me in 0..8u8 {
            if usize::from(me) < row.n {
                let seat = Seat::new(rt, row, me, stops[usize::from(me)]);
                seats.push(seat).expect(rt, "memory");
            }
        }
        Schedule {
            row,
            cells: words(rt, 1000),
            board: empty_board(),
            seats,
        }
    }

    /// Takes a turn of a process that goes on, on the words and on the board. Gives whether it
    /// still goes on.
    fn take_turn(&mut self, rt: &impl Abort, p: usize, word: u32, reached: &mut Reached) -> bool {
        assert!(rt; p < self.seats.len());
        let seat = &mut self.seats[p];
        seat.compare(rt, self.row);
        let before = seat.sender;
        let expected = before.op(self.row, word);
        let op = seat.take(rt, &mut self.cells, word);
        assert!(rt;
            op.is_some() && op == expected,
            "{op:?}, by the model {expected:?}"
        );
        seat.sender.step(self.row, &mut self.board, word);
        reached.count_step(&before, &seat.sender);
        seat.goes_on()
    }

    /// Takes turns until no process goes on.
    fn play(&mut self, rt: &impl Abort, pace: Pace, seed: u64, reached: &mut Reached) {
        let mut random = seed;
        let mut p = 0;
        let mut going = self.seats.iter().filter(|seat| seat.goes_on()).count();
        for turn in 0..60000u64 {
            random = next_random(random);
            p = pace.process(turn, random, p);
            if p < self.seats.len() && self.seats[p].goes_on() {
                let word = pace.word(random, &self.seats[p].sender);
                if !self.take_turn(rt, p, word, reached) {
                    going = going.wrapping_sub(1);
                }
            }
            if going == 0 {
                return;
            }
        }
    }

    /// Checks a process that has this owner in the end.
    fn check_owner(&self, rt: &impl Abort, seat: &Seat, owner: usize) {
        assert!(rt; owner < self.seats.len());
        assert!(rt;
            self.seats[owner].taken > 0,
            "the owner has announced itself"
        );
        seat.has_ended(rt);
    }

    /// Checks the owners of elections that were played to their end.
    fn check(&self, rt: &impl Abort, reached: &mut Reached) {
        let mut owner = None;
        for seat in &self.seats {
            seat.compare(rt, self.row);
            if let Some(SenderNo(number)) = seat.sender.owner() {
                assert!(rt; owner.is_none() || owner == Some(number), "one owner");
                self.check_owner(rt, seat, usize::from(number));
                owner = Some(number);
                add_one(&mut reached.ended);
            } else {
                assert!(rt;
                    seat.stop == Some(seat.taken),
                    "only a process that stopped has no owner"
                );
                add_one(&mut reached.stopped);
                if seat.taken == 0 {
                    add_one(&mut reached.absent);
                }
            }
        }
    }
}

/// After how many steps processes stop for good. About one in four does, and some of these take no
/// step at all.
fn random_stops(state: &mut u64) -> [Option<u64>; 8] {
    let mut stops: [Option<u64>; 8] = [None; 8];
    for p in 0..8usize {
        *state = next_random(*state);
        let reach = match (*state >> 50) % 4 {
            0 => 1,
            1 => 20,
            2 => 80,
            _ => 400,
        };
        if (*state >> 60) % 4 == 0 {
            stops[p] = Some((*state >> 30) % reach);
        }
    }
    stops
}

/// How turns are handed out in a schedule.
fn pace_of(schedule: u64) -> Pace {
    match schedule % 4 {
        0 => Pace::Random,
        1 => Pace::Bursts,
        2 => Pace::HighFirst,
        _ => Pace::InTurn,
    }
}

#[test]
fn random_elections(rt: HostRuntime) {
    let mut state: u64 = 1;
    let mut reached = Reached::default();
    for schedule in 0..200u64 {
        state = next_random(state);
        let row = Row {
            n: 2 + ((state >> 40) % 7) as usize,
            rounds: 1 + ((state >> 50) % 3) as usize,
            at: 5,
        };
        let stops = random_stops(&mut state);
        let mut elections = Schedule::new(&rt, row, stops);
        let seed = state.wrapping_add(schedule);
        elections.play(&rt, pace_of(schedule), seed, &mut reached);
        elections.check(&rt, &mut reached);
    }
    assert!(rt; reached.is_enough(), "{reached:?}");
}
