//! One process in one coin.

ghost use Rattle.std.specs.Prelude.{◌≡◌, ℕ, ◌≤◌};
ghost use Rattle.bus_walkcoin.specs.CoinRule.{settled_bit};
ghost use Rattle.bus_walkcoin.specs.Coin.{after_settled, answer_of, wants_of, coin_started};

use crate::tallies::{MOST_VOTES, Tally, total};
use bus_register::limits::MOST_PROCESSES;
use bus_register::{Kind, Machine, Op, Reg, SenderNo};
use std::marker::Model;

/// Where a process stands in a coin.
#[derive(Clone, Copy, Debug, PartialEq, Eq)]
pub enum Phase {
    /// It adds a vote to the counter word next.
    Vote,
    /// It loads the counter word next.
    ReadVotes,
    /// It has the answer.
    Answered(bool),
}

/// A process that votes at random until the total is far from zero, or until its own votes are
/// used up. All votes of all processes stand in one counter, the word at `at`.
#[derive(Drop)]
pub struct WalkCoin {
    n: u64,
    at: Reg,
    own: Tally,
    phase: Phase,
}

impl Model for WalkCoin {
    ghost use Rattle.bus_walkcoin.specs.Coin.{CoinState, Sized};

    ghost Value = { CoinState };

    ghost view = { λ c. record {
      n = c.n;
      at = c.at.0;
      own = c.own;
      phase = c.phase;
    } };

    ghost invariant = { λ c. Sized c.n c.own c.phase };
}

/// What the total says after so many own votes.
fn settle(n: u64, votes: u32, lead: i64) -> Option<bool>
    requires { n ≤ MOST_PROCESSES }
    ensures { result ≡ settled_bit n votes lead }
{
    let barrier = 2 * n as i64;
    if barrier <= lead {
        Some(true)
    } else if lead <= -barrier {
        Some(false)
    } else if votes == MOST_VOTES {
        Some(0 < lead)
    } else {
        None
    }
}

/// Where a process stands that has loaded the counter and found this total in it.
fn go_on(n: u64, votes: u32, lead: i64) -> Phase
    requires { n ≤ MOST_PROCESSES }
    ensures { result ≡ after_settled (settled_bit n votes lead) }
{
    match settle(n, votes, lead) {
        Some(answer) => Phase::Answered(answer),
        None => Phase::Vote,
    }
}

impl WalkCoin {
    /// A process of `n`, over the word at `at`, which is zero before the first step. Its number
    /// makes no difference.
    pub fn start(n: u64, _me: SenderNo, at: Reg) -> WalkCoin
        requires { n ≤ MOST_PROCESSES }
        ensures { result ≡ coin_started n at.0 }
    {
        WalkCoin {
            n,
            at,
            own: Tally { heads: 0, tails: 0 },
            phase: Phase::Vote,
        }
    }

    /// How many words a coin has, for any number of processes.
    pub fn width(_n: u64) -> u64
        ensures { result ≡ 1 }
    {
        1
    }

    /// The answer, once there is one.
    pub fn answer(&self) -> Option<bool>
        ensures { result ≡ answer_of self.now }
    {
        match self.phase {
            Phase::Answered(answer) => Some(answer),
            _ => None,
        }
    }

    /// The next step is a vote, which asks for a random word.
    pub fn wants_word(&self) -> bool
        ensures { result ≡ wants_of self.now }
    {
        match self.phase {
            Phase::Vote => true,
            _ => false,
        }
    }
}

impl Machine for WalkCoin {
    ghost use Rattle.bus_walkcoin.specs.Coin.{coin_kind, coin_op, coin_fed};
    ghost use Rattle.bus_walkcoin.specs.Private.CoinLaws.{coin_names_each_step};

    ghost kind_of = { coin_kind };

    ghost op = { coin_op };

    ghost fed = { coin_fed };

    ghost names_each_step = { coin_names_each_step };

    fn kind(&self) -> Option<Kind> {
        match self.phase {
            Phase::Vote => Some(Kind::Vote),
            Phase::ReadVotes => Some(Kind::ReadVotes),
            Phase::Answered(_) => None,
        }
    }

    fn next(&self, word: u32) -> Option<Op> {
        match self.phase {
            Phase::Vote => Some(Op::Add(self.at, Tally::add_word(word % 2 == 1))),
            Phase::ReadVotes => Some(Op::Load(self.at)),
            Phase::Answered(_) => None,
        }
    }

    fn feed(&mut self, got: u64, word: u32) {
        match self.phase {
            Phase::Vote => {
                self.own = self.own.vote(word % 2 == 1);
                self.phase = Phase::ReadVotes;
            }
            Phase::ReadVotes => {
                let lead = total(&[Tally::of_word(got)]);
                self.phase = go_on(self.n, self.own.heads + self.own.tails, lead);
            }
            Phase::Answered(_) => {}
        }
    }
}
