//! A plain model of elections among at most 8 senders in at most 3 rounds for each bit. It is
//! written from the rules alone, and asks no coin, conciliator, ratifier, decision or election. Its
//! ratifier is `TwoCollect`; `ThreeWord` is compared by `bench/replay`.

ghost use Rattle.std.specs.Prelude.{◌<◌, ◌≤◌};

use bus_adoptcommit::Verdict;
use bus_register::{Kind, Op, Reg, SenderNo};

/// The words of one election, from `at` on: the announcements of `n` senders, and then the bits'
/// decisions, that of the lowest bit first. The words of a decision are a ratifier, then a
/// conciliator and a ratifier for each further round, and then the fallback word.
#[derive(Clone, Copy)]
pub struct Row {
    pub n: usize,
    pub rounds: usize,
    pub at: usize,
    ghost few: { n ≤ 8 },
}

impl Row {
    /// How many bits an owner's number has.
    pub fn bits(self) -> usize {
        match self.n {
            0 | 1 => 0,
            2 => 1,
            3 | 4 => 2,
            _ => 3,
        }
    }

    /// How many turns an election takes at most, with one more for its owner.
    pub fn turns(self) -> u64 {
        let n = self.n as u64;
        let mut each = 1 + n;
        for round in 0..self.rounds {
            each = each.wrapping_add(2 * n + 2);
            if round > 0 {
                each = each.wrapping_add(2 + 64 * 2);
            }
        }
        each.wrapping_mul(self.bits() as u64).wrapping_add(2)
    }

    /// How many words a decision has before the ratifier of this round, counted from 0.
    fn before(self, round: usize) -> usize {
        round.wrapping_mul(2 * self.n + 3)
    }

    /// The first word of a bit's decision.
    fn decision(self, bit: usize) -> usize {
        let last = self.before(self.rounds.wrapping_sub(1));
        let width = last.wrapping_add(2 * self.n + 1);
        let skipped = bit.wrapping_mul(width);
        self.at.wrapping_add(self.n).wrapping_add(skipped)
    }

    /// The first word of a ratifier: n proposals, and then n verdicts.
    fn ratifier(self, bit: usize, round: usize) -> usize {
        self.decision(bit).wrapping_add(self.before(round))
    }

    /// The first word of the conciliator before that ratifier: 2 marks, and then the counter.
    fn conciliator(self, bit: usize, round: usize) -> usize {
        self.ratifier(bit, round).wrapping_sub(3)
    }

    /// The fallback word of a bit's decision, after its last ratifier.
    fn fallback(self, bit: usize) -> usize {
        self.ratifier(bit, self.rounds.wrapping_sub(1))
            .wrapping_add(2 * self.n)
    }
}

/// The votes of all senders in one coin.
#[derive(Clone, Copy)]
struct Counter {
    heads: u32,
    tails: u32,
}

impl Counter {
    /// The votes after one more, a head where the random word is odd.
    fn vote(self, word: u32) -> Counter {
        if word % 2 == 1 {
            Counter {
                heads: self.heads.wrapping_add(1),
                tails: self.tails,
            }
        } else {
            Counter {
                heads: self.heads,
                tails: self.tails.wrapping_add(1),
            }
        }
    }

    /// Heads minus tails.
    fn lead(self) -> i64 {
        i64::from(self.heads) - i64::from(self.tails)
    }
}

/// What stands in one round of a bit's decision.
#[derive(Clone, Copy)]
struct Round {
    marks: [bool; 2],
    counter: Counter,
    proposals: [Option<bool>; 8],
    verdicts: [Option<Verdict>; 8],
}

/// What stands in the words of one election: the rounds of each bit, the lowest bit first.
#[derive(Clone, Copy)]
pub struct Board {
    announced: [bool; 8],
    rounds: [[Round; 3]; 3],
    fallbacks: [Option<bool>; 3],
}

/// A board on which nothing has been written.
pub fn empty_board() -> Board {
    let counter = Counter { heads: 0, tails: 0 };
    let round = Round {
        marks: [false; 2],
        counter,
        proposals: [None; 8],
        verdicts: [None; 8],
    };
    Board {
        announced: [false; 8],
        rounds: [[round; 3]; 3],
        fallbacks: [None; 3],
    }
}

/// What a sender does next.
#[derive(Clone, Copy, PartialEq, Eq)]
pub enum Act {
    Announce,
    WriteFirst,
    ReadFirst(usize),
    WriteSecond,
    ReadSecond(usize),
    SetMark,
    ReadOtherMark,
    Vote,
    ReadVotes,
    Fallback,
    ReadAnnouncement(usize),
    Done,
}

/// One sender of an election.
#[derive(Clone, Copy)]
pub struct Sender {
    pub me: usize,
    pub act: Act,
    pub candidate: usize,
    /// The bits that are decided, the lowest bit first.
    pub decided: [Option<bool>; 3],
    /// The bit at whose decision it is.
    pub bit: usize,
    /// The round of that decision, counted from 0.
    round: usize,
    /// The value that it brought to the object where it is.
    pub value: bool,
    /// How often it has voted in the coin where it is.
    pub votes: u64,
    /// The proposals that it has loaded in the ratifier where it is.
    proposals: [Option<bool>; 8],
    /// The verdicts that it has loaded there.
    verdicts: [Option<Verdict>; 8],
}

/// The bit of a number below 8.
fn bit_of(number: usize, bit: usize) -> bool {
    match bit {
        0 => number % 2 == 1,
        1 => number / 2 % 2 == 1,
        _ => number / 4 % 2 == 1,
    }
}

/// The place of a mark.
fn mark_of(value: bool) -> usize
    ensures small { result < 2 }
{
    if value { 1 } else { 0 }
}

/// The number of a proposal, or of a value in a fallback word; 0 is none.
fn number_of(value: bool) -> u64 {
    if value { 2 } else { 1 }
}

/// The number of a verdict; 0 is none.
fn verdict_number(verdict: Verdict) -> u64 {
    match verdict {
        Verdict::Adopt(false) => 1,
        Verdict::Adopt(true) => 2,
        Verdict::Commit(false) => 3,
        Verdict::Commit(true) => 4,
    }
}

/// The number that a vote adds to the counter: a head where the random word is odd.
fn vote_number(word: u32) -> u64 {
    if word % 2 == 1 { 0x1_0000_0000 } else { 1 }
}

/// What the coin answers after so many own votes, where the total is so much.
fn coin_answer(row: Row, votes: u64, total: i64) -> Option<bool> {
    let barrier = 2 * row.n as i64;
    if total >= barrier {
        Some(true)
    } else if total <= -barrier {
        Some(false)
    } else if votes >= 64 {
        Some(total > 0)
    } else {
        None
    }
}

impl Sender {
    /// A sender that has taken no step.
    pub fn new(me: usize) -> Sender {
        Sender {
            me,
            act: Act::Announce,
            candidate: me,
            decided: [None; 3],
            bit: 0,
            round: 0,
            value: false,
            votes: 0,
            proposals: [None; 8],
            verdicts: [None; 8],
        }
    }

    /// The owner, once there is nothing more to do: the number that the bits spell.
    pub fn owner(&self) -> Option<SenderNo> {
        if self.act != Act::Done {
            return None;
        }
        let [low, middle, high] = self.decided;
        let mut owner = 0u8;
        if high == Some(true) {
            owner = 4;
        }
        if middle == Some(true) {
            owner = owner.wrapping_add(2);
        }
        if low == Some(true) {
            owner = owner.wrapping_add(1);
        }
        Some(SenderNo(owner))
    }

    /// The number of a sender fits all bits that are decided.
    fn fits(&self, number: usize) -> bool {
        for bit in 0..3usize {
            if let Some(value) = self.decided[bit] {
                if value != bit_of(number, bit) {
                    return false;
                }
            }
        }
        true
    }

    /// Goes on to the decision of this bit with the candidate's bit.
    fn propose(&mut self, bit: usize) {
        self.bit = bit;
        self.round = 0;
        self.value = bit_of(self.candidate, bit);
        self.act = Act::WriteFirst;
    }

    /// Goes on to load the first announcement, from this sender's on, that is one of a sender that
    /// fits.
    fn search(&mut self, row: Row, from: usize) {
        for number in from..row.n {
            if self.fits(number) {
                self.act = Act::ReadAnnouncement(number);
                return;
            }
        }
        self.propose(self.bit.wrapping_sub(1));
    }

    /// The bit where it is has this value.
    fn decide(&mut self, row: Row, value: bool) {
        self.decided[self.bit % 3] = Some(value);
        if self.bit == 0 {
            self.act = Act::Done;
        } else if self.fits(self.candidate) {
            self.propose(self.bit.wrapping_sub(1));
        } else {
            self.search(row, 0);
        }
    }

    /// The verdict that it stores, by the proposals that it has loaded.
    fn verdict(&self) -> Verdict {
        for seen in self.proposals {
            if seen == Some(!self.value) {
                return Verdict::Adopt(self.value);
            }
        }
        Verdict::Commit(self.value)
    }

    /// The output of the ratifier, by the verdicts that it has loaded.
    fn output(&self) -> Verdict {
        let mut committed = None;
        let mut all = true;
        for seen in self.verdicts {
            match seen {
                Some(Verdict::Commit(value)) => committed = Some(value),
                Some(Verdict::Adopt(_)) => all = false,
                None => {}
            }
        }
        match committed {
            Some(value) if all => Verdict::Commit(value),
            Some(value) => Verdict::Adopt(value),
            None => Verdict::Adopt(self.value),
        }
    }

    /// Leaves a ratifier.
    fn leave_ratifier(&mut self, row: Row) {
        match self.output() {
            Verdict::Commit(value) => self.decide(row, value),
            Verdict::Adopt(value) => {
                self.value = value;
                self.round = self.round.wrapping_add(1);
                self.act = if self.round < row.rounds {
                    Act::SetMark
                } else {
                    Act::Fallback
                };
            }
        }
    }

    /// Leaves a conciliator.
    fn leave_conciliator(&mut self, value: bool) {
        self.value = value;
        self.act = Act::WriteFirst;
    }

    /// The kind of its next step.
    pub fn kind(&self) -> Option<Kind> {
        match self.act {
            Act::Announce => Some(Kind::Announce),
            Act::WriteFirst => Some(Kind::WriteFirst),
            Act::ReadFirst(_) => Some(Kind::ReadFirst),
            Act::WriteSecond => Some(Kind::WriteSecond),
            Act::ReadSecond(_) => Some(Kind::ReadSecond),
            Act::SetMark => Some(Kind::SetMark),
            Act::ReadOtherMark => Some(Kind::ReadOtherMark),
            Act::Vote => Some(Kind::Vote),
            Act::ReadVotes => Some(Kind::ReadVotes),
            Act::Fallback => Some(Kind::Fallback),
            Act::ReadAnnouncement(_) => Some(Kind::ReadAnnouncement),
            Act::Done => None,
        }
    }

    /// Its next step.
    pub fn op(&self, row: Row, word: u32) -> Option<Op> {
        let ratifier = row.ratifier(self.bit, self.round);
        let verdicts = ratifier.wrapping_add(row.n);
        let conciliator = row.conciliator(self.bit, self.round);
        match self.act {
            Act::Announce => store(row.at, self.me, 1),
            Act::WriteFirst => store(ratifier, self.me, number_of(self.value)),
            Act::ReadFirst(of) => load(ratifier, of),
            Act::WriteSecond => store(verdicts, self.me, verdict_number(self.verdict())),
            Act::ReadSecond(of) => load(verdicts, of),
            Act::SetMark => store(conciliator, mark_of(self.value), 1),
            Act::ReadOtherMark => load(conciliator, mark_of(!self.value)),
            Act::Vote => add(conciliator, 2, vote_number(word)),
            Act::ReadVotes => load(conciliator, 2),
            Act::Fallback => Some(Op::Cas(
                Reg(row.fallback(self.bit) as u64),
                0,
                number_of(self.value),
            )),
            Act::ReadAnnouncement(of) => load(row.at, of),
            Act::Done => None,
        }
    }

    /// Takes its next step.
    pub fn step(&mut self, row: Row, board: &mut Board, word: u32) {
        let round = &mut board.rounds[self.bit % 3][self.round % 3];
        match self.act {
            Act::Announce => {
                board.announced[self.me % 8] = true;
                if row.bits() == 0 {
                    self.act = Act::Done;
                } else {
                    self.propose(row.bits().wrapping_sub(1));
                }
            }
            Act::Fallback => {
                let bit = self.bit % 3;
                let value = board.fallbacks[bit].unwrap_or(self.value);
                board.fallbacks[bit] = Some(value);
                self.decide(row, value);
            }
            Act::ReadAnnouncement(of) => {
                if board.announced[of % 8] {
                    self.candidate = of;
                    self.propose(self.bit.wrapping_sub(1));
                } else {
                    self.search(row, of.wrapping_add(1));
                }
            }
            Act::SetMark | Act::ReadOtherMark | Act::Vote | Act::ReadVotes => {
                self.step_conciliator(row, round, word)
            }
            Act::Done => {}
            _ => self.step_ratifier(row, round),
        }
    }

    /// Takes its next step in a ratifier.
    fn step_ratifier(&mut self, row: Row, round: &mut Round) {
        match self.act {
            Act::WriteFirst => {
                round.proposals[self.me % 8] = Some(self.value);
                self.proposals = [None; 8];
                self.act = Act::ReadFirst(0);
            }
            Act::ReadFirst(of) => {
                self.proposals[of % 8] = round.proposals[of % 8];
                let next = of.wrapping_add(1);
                self.act = if next < row.n {
                    Act::ReadFirst(next)
                } else {
                    Act::WriteSecond
                };
            }
            Act::WriteSecond => {
                round.verdicts[self.me % 8] = Some(self.verdict());
                self.verdicts = [None; 8];
                self.act = Act::ReadSecond(0);
            }
            Act::ReadSecond(of) => {
                self.verdicts[of % 8] = round.verdicts[of % 8];
                let next = of.wrapping_add(1);
                if next < row.n {
                    self.act = Act::ReadSecond(next);
                } else {
                    self.leave_ratifier(row);
                }
            }
            _ => {}
        }
    }

    /// Takes its next step in a conciliator.
    fn step_conciliator(&mut self, row: Row, round: &mut Round, word: u32) {
        match self.act {
            Act::SetMark => {
                round.marks[mark_of(self.value)] = true;
                self.act = Act::ReadOtherMark;
            }
            Act::ReadOtherMark => {
                if round.marks[mark_of(!self.value)] {
                    self.votes = 0;
                    self.act = Act::Vote;
                } else {
                    self.leave_conciliator(self.value);
                }
            }
            Act::Vote => {
                round.counter = round.counter.vote(word);
                self.votes = self.votes.wrapping_add(1);
                self.act = Act::ReadVotes;
            }
            Act::ReadVotes => match coin_answer(row, self.votes, round.counter.lead()) {
                Some(answer) => self.leave_conciliator(answer),
                None => self.act = Act::Vote,
            },
            _ => {}
        }
    }
}

/// A load of the word so far after this place.
fn load(place: usize, further: usize) -> Option<Op> {
    Some(Op::Load(Reg(place.wrapping_add(further) as u64)))
}

/// An addition to the word so far after this place.
fn add(place: usize, further: usize, value: u64) -> Option<Op> {
    Some(Op::Add(Reg(place.wrapping_add(further) as u64), value))
}

/// A store to the word so far after this place.
fn store(place: usize, further: usize, value: u64) -> Option<Op> {
    Some(Op::Store(Reg(place.wrapping_add(further) as u64), value))
}
