//! Elections of one owner.

ghost use Rattle.std.specs.Prelude.{◌≡◌, ℕ, ◌+◌, ◌*◌, ◌-◌, ◌<◌, ◌≤◌};
ghost use Rattle.std.specs.Prelude.{◌^◌, IsTrue, true};
ghost use Rattle.bus_binconsensus.specs.Objects.{object_calls, object_kind, decide_op, decide_fed};
ghost use Rattle.bus_binconsensus.specs.Decisions.{decisions};
ghost use Rattle.bus_ownerbits.specs.Electors.{elections};
ghost use Rattle.bus_coinconc.specs.Conciliator.{conciliator_kind, conciliator_op, conciliator_fed};
ghost use Rattle.bus_coinconc.specs.ConciliatorProtocol.{conciliator_protocol};
ghost use Rattle.bus_ownerbits.specs.Election.{election_kind, election_op, election_fed, owner_of};
ghost use Rattle.bus_ownerbits.specs.Election.{going, seeking, with_bit, fits_bits};
ghost use Rattle.bus_ownerbits.specs.ElectionKeeps.{election_protocol};
ghost use Rattle.bus_ownerbits.specs.ElectionNames.{sender, calls_of};
ghost use Rattle.bus_ownerbits.specs.Private.ElectionNamed.{election_named};
ghost use Rattle.bus_ownerbits.specs.Sizes.{bits_of, decision_cost};
ghost use Rattle.bus_binconsensus.specs.Private.ObjectNames.{objects_named};
ghost use Rattle.bus_coinconc.specs.Private.ConciliatorSteps.{conciliator_names_each_step};

use super::sizes::{bits, bound};
use super::stages::Stage;
use bus_adoptcommit::Ratifier;
use bus_binconsensus::Decide;
use bus_register::limits::{MOST_PROCESSES, MOST_ROUNDS};
use bus_register::{Kind, Machine, Op, Reg, SenderNo};
use std::marker::Model;

/// One process of an election of one owner among at most 64 senders. It announces itself; its
/// candidate is itself. From the highest bit on it proposes its candidate's bit to that bit's
/// binary decision. After a bit that does not fit its candidate it looks for another announced
/// sender that fits. The owner is the number that the bits spell. The words are an announcement for
/// each sender, and then the decisions, that of the lowest bit first.
#[derive(Drop)]
pub struct Election<Q: Ratifier> {
    n: u64,
    me: SenderNo,
    rounds: u64,
    at: Reg,
    /// How many bits are not decided yet.
    left: u64,
    /// What the decided bits spell.
    spelled: u64,
    candidate: u64,
    /// How many turns are left, at most.
    turns: u64,
    stage: Stage<Decide<Q>>,
}

impl<Q: Ratifier> Model for Election<Q> {
    ghost use Rattle.bus_binconsensus.specs.Objects.{Decider};
    ghost use Rattle.bus_binconsensus.specs.Decisions.{decisions};
    ghost use Rattle.bus_coinconc.specs.Conciliator.{ConciliatorState};
    ghost use Rattle.bus_coinconc.specs.ConciliatorProtocol.{conciliator_protocol};
    ghost use Rattle.bus_ownerbits.specs.Election.{Electing};
    ghost use Rattle.bus_ownerbits.specs.ElectionSized.{Sized};

    ghost Value = { Electing (Decider Q ConciliatorState) };

    ghost view = { λ e. record {
      n = e.n;
      me = e.me.0;
      rounds = e.rounds;
      at = e.at.0;
      left = e.left;
      spelled = e.spelled;
      candidate = e.candidate;
      turns = e.turns;
      stage = e.stage;
    } };

    ghost invariant = { λ e. Sized (decisions Q.protocol) e.n e.me.0 e.rounds e.at.0 e.left
        e.spelled e.stage };
}

impl<Q: Ratifier + Drop> Election<Q> {
    /// How many words an election of `n` senders has, in so many rounds for each bit.
    pub fn width(n: u64, rounds: u64) -> u64
        requires some { 1 ≤ n }
        requires few { n ≤ MOST_PROCESSES }
        requires rounds_some { 1 ≤ rounds }
        requires rounds_few { rounds ≤ MOST_ROUNDS }
        ensures words { result
            ≡ n + bits_of n * (rounds * Q.protocol.width n + (rounds - 1) * 3 + 1) }
        ensures protocol { result ≡ (elections Q.protocol rounds).width n }
    {
        n + bits(n) * Decide::<Q>::width(n, rounds)
    }

    /// Sender `me` of `n`, over the words from `at` on, which are zero before the first step.
    pub fn start(n: u64, me: SenderNo, rounds: u64, at: Reg) -> Election<Q>
        requires me_below { me.0 < n }
        requires few { n ≤ MOST_PROCESSES }
        requires rounds_some { 1 ≤ rounds }
        requires rounds_few { rounds ≤ MOST_ROUNDS }
        requires room { at.0 + (elections Q.protocol rounds).width n ≤ 2 ^ 64 }
        ensures { result ≡ (elections Q.protocol rounds).started n me.0 tt at.0 }
    {
        Election {
            n,
            me,
            rounds,
            at,
            left: bits(n),
            spelled: 0,
            candidate: u64::from(me.0),
            turns: bound::<Q>(n, rounds),
            stage: Stage::Announce,
        }
    }

    /// The owner, once the process takes no further step.
    pub fn owner(&self) -> Option<SenderNo>
        ensures { result ≡ sender (owner_of (decisions Q.protocol) self.now) }
    {
        match &self.stage {
            Stage::Announce | Stage::Search(_) => None,
            Stage::Propose(decision) => match decision.decided() {
                Some(bit) => Some(SenderNo((2 * self.spelled + u64::from(bit)) as u8)),
                None => None,
            },
            Stage::Alone => Some(SenderNo(self.spelled as u8)),
        }
    }

    /// How many turns are left, at most: one more than steps, for an owner's next step.
    pub fn turns_left(&self) -> u64
        ensures { result ≡ self.now.turns }
    {
        self.turns
    }

    /// The next step asks for a random word.
    pub fn wants_word(&self) -> bool
        ensures { result ≡ calls_of conciliator_protocol self.now }
    {
        match &self.stage {
            Stage::Propose(decision) => decision.wants_word(),
            _ => false,
        }
    }

    /// The number fits the bits that are decided.
    fn fits(&self, number: u64) -> bool
        ensures { result ≡ fits_bits self.now number }
    {
        number >> self.left == self.spelled
    }

    /// Proposes the candidate's next bit.
    fn go_on(&mut self)
        ensures { self.new ≡ going (decisions Q.protocol) self.old }
    {
        if self.left == 0 {
            self.stage = Stage::Alone;
        } else {
            let bit = (self.candidate >> (self.left - 1)) % 2 == 1;
            let skipped = (self.left - 1) * Decide::<Q>::width(self.n, self.rounds);
            let at = Reg(self.at.0 + self.n + skipped);
            let decision = Decide::start(self.n, self.me, bit, self.rounds, at);
            self.stage = Stage::Propose(decision);
        }
    }

    /// Goes on where the candidate fits, and else begins to search.
    fn seek(&mut self)
        ensures { self.new ≡ seeking (decisions Q.protocol) self.old }
    {
        if self.fits(self.candidate) {
            self.go_on();
        } else {
            let lowest = self.spelled << self.left;
            if lowest < self.n {
                self.stage = Stage::Search(lowest);
            } else {
                self.go_on();
            }
        }
    }

    /// Takes in one more decided bit.
    fn take_bit(&mut self, bit: bool)
        requires { 1 < self.old.left }
        ensures { self.new ≡ with_bit self.old bit }
    {
        self.left -= 1;
        self.spelled = 2 * self.spelled + u64::from(bit);
    }
}

impl<Q: Ratifier + Drop> Machine for Election<Q> {
    ghost kind_of = { election_kind (λ d. object_kind Q.kind_of conciliator_kind d.object) };

    ghost op = { election_op (decide_op Q.op conciliator_op) };

    ghost fed = { election_fed (decisions Q.protocol)
        (decide_fed Q.protocol conciliator_protocol Q.fed conciliator_fed) };

    ghost names_each_step = { election_named (λ d. object_kind Q.kind_of conciliator_kind d.object)
        (decide_op Q.op conciliator_op)
        (λ d word. objects_named Q.kind_of Q.op Q.names_each_step conciliator_kind conciliator_op
        conciliator_names_each_step d.object word) };

    fn kind(&self) -> Option<Kind> {
        match &self.stage {
            Stage::Announce => Some(Kind::Announce),
            Stage::Propose(decision) => decision.kind(),
            Stage::Search(_) => Some(Kind::ReadAnnouncement),
            Stage::Alone => None,
        }
    }

    fn next(&self, word: u32) -> Option<Op> {
        match &self.stage {
            Stage::Announce => Some(Op::Store(Reg(self.at.0 + u64::from(self.me.0)), 1)),
            Stage::Propose(decision) => decision.next(word),
            Stage::Search(number) => Some(Op::Load(Reg(self.at.0 + *number))),
            Stage::Alone => None,
        }
    }

    fn feed(&mut self, got: u64, word: u32) {
        self.turns = self.turns.saturating_sub(1);
        match &mut self.stage {
            Stage::Announce => self.go_on(),
            Stage::Propose(decision) => {
                decision.feed(got, word);
                if let Some(bit) = decision.decided() {
                    if self.left > 1 {
                        self.take_bit(bit);
                        self.seek();
                    }
                }
            }
            Stage::Search(number) => {
                let number = *number;
                if got == 0 && number + 1 < self.n && self.fits(number + 1) {
                    self.stage = Stage::Search(number + 1);
                } else {
                    self.candidate = number;
                    self.go_on();
                }
            }
            Stage::Alone => {}
        }
    }
}
