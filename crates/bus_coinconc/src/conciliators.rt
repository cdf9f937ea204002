//! One process in one conciliator.

ghost use Rattle.std.specs.Prelude.{◌≡◌, ℕ, ◌+◌, ◌≤◌, ◌^◌};
ghost use Rattle.bus_register.specs.Digits.{digit as digit_of};
ghost use Rattle.bus_coinconc.specs.Conciliator.{conciliator_started, output_of, wants_of};

use bus_register::limits::MOST_PROCESSES;
use bus_register::{Kind, Machine, Op, Reg, SenderNo};
use bus_walkcoin::WalkCoin;
use std::marker::Model;

/// Where a process stands in a conciliator.
#[derive(Drop)]
pub enum Stage {
    /// It sets the mark of its own input next.
    SetMark,
    /// It loads the mark of the other value next.
    ReadOtherMark,
    /// The other mark was not set, so that its output is its own input.
    Alone,
    /// The other mark was set: its output is the answer of the coin.
    AskCoin(WalkCoin),
}

/// A process that keeps its own input where it sees no other, and else asks a coin. The words are
/// the marks of 0 and of 1 at `at` and `at + 1`, and the coin's counter at `at + 2`.
#[derive(Drop)]
pub struct Conciliator {
    n: u64,
    at: Reg,
    input: bool,
    stage: Stage,
}

impl Model for Conciliator {
    ghost use Rattle.bus_coinconc.specs.Conciliator.{ConciliatorState, Sized};

    ghost Value = { ConciliatorState };

    ghost view = { λ c. record {
      n = c.n;
      at = c.at.0;
      input = c.input;
      stage = c.stage;
    } };

    ghost invariant = { λ c. Sized c.n c.at.0 };
}

/// 1 for true.
fn digit(value: bool) -> u64
    ensures { result ≡ digit_of value }
{
    if value { 1 } else { 0 }
}

impl Conciliator {
    /// A process of `n` with its input, over the words from `at` on, which are zero before the
    /// first step. Its number makes no difference.
    pub fn start(n: u64, _me: SenderNo, input: bool, at: Reg) -> Conciliator
        requires few { n ≤ MOST_PROCESSES }
        requires room { at.0 + 3 ≤ 2 ^ 64 }
        ensures { result ≡ conciliator_started n input at.0 }
    {
        Conciliator {
            n,
            at,
            input,
            stage: Stage::SetMark,
        }
    }

    /// How many words a conciliator has, for any number of processes: two marks and the coin's.
    pub fn width(n: u64) -> u64
        ensures { result ≡ 3 }
    {
        2 + WalkCoin::width(n)
    }

    /// The output, once there is one.
    pub fn output(&self) -> Option<bool>
        ensures { result ≡ output_of self.now }
    {
        match &self.stage {
            Stage::SetMark | Stage::ReadOtherMark => None,
            Stage::Alone => Some(self.input),
            Stage::AskCoin(coin) => coin.answer(),
        }
    }

    /// The next step asks for a random word.
    pub fn wants_word(&self) -> bool
        ensures { result ≡ wants_of self.now }
    {
        match &self.stage {
            Stage::AskCoin(coin) => coin.wants_word(),
            _ => false,
        }
    }
}

impl Machine for Conciliator {
    ghost use Rattle.bus_coinconc.specs.Conciliator.{conciliator_kind, conciliator_op};
    ghost use Rattle.bus_coinconc.specs.Conciliator.{conciliator_fed};
    ghost use Rattle.bus_coinconc.specs.Private.ConciliatorSteps.{conciliator_names_each_step};

    ghost kind_of = { conciliator_kind };

    ghost op = { conciliator_op };

    ghost fed = { conciliator_fed };

    ghost names_each_step = { conciliator_names_each_step };

    fn kind(&self) -> Option<Kind> {
        match &self.stage {
            Stage::SetMark => Some(Kind::SetMark),
            Stage::ReadOtherMark => Some(Kind::ReadOtherMark),
            Stage::Alone => None,
            Stage::AskCoin(coin) => coin.kind(),
        }
    }

    fn next(&self, word: u32) -> Option<Op> {
        match &self.stage {
            Stage::SetMark => Some(Op::Store(Reg(self.at.0 + digit(self.input)), 1)),
            Stage::ReadOtherMark => Some(Op::Load(Reg(self.at.0 + digit(!self.input)))),
            Stage::Alone => None,
            Stage::AskCoin(coin) => coin.next(word),
        }
    }

    fn feed(&mut self, got: u64, word: u32) {
        match &mut self.stage {
            Stage::SetMark => self.stage = Stage::ReadOtherMark,
            Stage::ReadOtherMark => {
                self.stage = if got == 0 {
                    Stage::Alone
                } else {
                    Stage::AskCoin(WalkCoin::start(self.n, SenderNo::default(), Reg(self.at.0 + 2)))
                };
            }
            Stage::Alone => {}
            Stage::AskCoin(coin) => coin.feed(got, word),
        }
    }
}
