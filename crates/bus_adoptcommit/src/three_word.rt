//! An adopt-commit object of three words: which values were brought, and a proposal.

ghost use Rattle.std.specs.Prelude.{◌≡◌, ℕ, ◌+◌, ◌≤◌, ◌^◌};
ghost use Rattle.bus_register.specs.Protocol.{Protocol};
ghost use Rattle.bus_adoptcommit.specs.ThreeWord.{Local, kind_at, op_of, fed_of};
ghost use Rattle.bus_adoptcommit.specs.ThreeWordKeeps.{three_word};
ghost use Rattle.bus_adoptcommit.specs.Private.ThreeWordLaws.{three_word_legal, wordless};
ghost use Rattle.bus_adoptcommit.specs.Private.ThreeWordLaws.{quick, narrow};
ghost use Rattle.bus_adoptcommit.specs.Private.ThreeWordStepLaws.{named_at, own_kinds};
ghost use Rattle.bus_adoptcommit.specs.Private.ThreeWordStepLaws.{named_for_at};
ghost use Rattle.bus_adoptcommit.specs.Private.ThreeWordStepLaws.{in_order_at};

use super::progress::Progress;
use super::ratifiers::Ratifier;
use super::verdicts::Verdict;
use bus_register::{Kind, Machine, Op, Reg, SenderNo};
use std::marker::Model;

/// One process. Two words say which values were brought, and the third holds a proposal. The
/// process sets the word of its input and loads the proposal. Where there is none, it proposes its
/// input; else it prefers the value that is proposed. Then it loads the word of the other value.
/// Where nobody has brought that, it commits the value that it prefers, and else it adopts it. So
/// it takes three or four steps, and the words are three, however many of at most 64 processes
/// there are.
#[derive(Drop)]
pub struct ThreeWord {
    at: Reg,
    input: bool,
    /// The own input, until another's proposal is found.
    preference: bool,
    /// Nobody had brought the value that is not preferred.
    unopposed: bool,
    progress: Progress,
}

impl Model for ThreeWord {
    ghost Value = { Local };

    ghost view = { λ s. record {
      at = s.at.0;
      input = s.input;
      preference = s.preference;
      unopposed = s.unopposed;
      progress = s.progress;
    } };

    ghost invariant = { λ s. s.at.0 + 3 ≤ 2 ^ 64 };
}

impl Machine for ThreeWord {
    ghost kind_of = { λ s. kind_at s.progress };

    ghost op = { λ s word. op_of s };

    ghost fed = { λ s got word. fed_of s got };

    fn kind(&self) -> Option<Kind> {
        match self.progress {
            Progress::Bring => Some(Kind::WriteFirst),
            Progress::ReadFirst => Some(Kind::ReadFirst),
            Progress::Propose => Some(Kind::WriteSecond),
            Progress::ReadOther => Some(Kind::ReadSecond),
            Progress::Ended => None,
        }
    }

    fn next(&self, _word: u32) -> Option<Op> {
        let first = self.at.0;
        match self.progress {
            Progress::Bring => Some(Op::Store(Reg(first + u64::from(self.input)), 1)),
            Progress::ReadFirst => Some(Op::Load(Reg(first + 2))),
            Progress::Propose => { Some(Op::Store(Reg(first + 2), 1 + u64::from(self.preference))) }
            Progress::ReadOther => Some(Op::Load(Reg(first + u64::from(!self.preference)))),
            Progress::Ended => None,
        }
    }

    fn feed(&mut self, got: u64, _word: u32) {
        match self.progress {
            Progress::Bring => self.progress = Progress::ReadFirst,
            Progress::ReadFirst => {
                if got == 0 {
                    self.progress = Progress::Propose;
                } else {
                    self.preference = got == 2;
                    self.progress = Progress::ReadOther;
                }
            }
            Progress::Propose => self.progress = Progress::ReadOther,
            Progress::ReadOther => {
                self.unopposed = got == 0;
                self.progress = Progress::Ended;
            }
            Progress::Ended => {}
        }
    }

    ghost names_each_step = { λ s word. named_at s.progress s };
}

impl Ratifier for ThreeWord {
    ghost protocol = { three_word };

    fn width(_n: u64) -> u64 {
        3
    }

    fn steps(_n: u64) -> u64 {
        4
    }

    fn start(_n: u64, _me: SenderNo, input: bool, at: Reg) -> ThreeWord {
        ThreeWord {
            at,
            input,
            preference: input,
            unopposed: false,
            progress: Progress::Bring,
        }
    }

    fn output(&self) -> Option<Verdict> {
        match self.progress {
            Progress::Ended if self.unopposed => Some(Verdict::Commit(self.preference)),
            Progress::Ended => Some(Verdict::Adopt(self.preference)),
            _ => None,
        }
    }

    ghost laws = { three_word_legal };

    ghost own_kinds = { own_kinds };

    ghost named_for = { λ s k word o e q. named_for_at s.progress s k o e q };

    ghost in_order = { λ s got word k next e f. in_order_at s.progress s got k next e f };

    ghost wordless = { wordless };

    ghost quick = { quick };

    ghost narrow = { narrow };
}

/// A process of three words takes at most four steps, whatever the number of processes, and the
/// object has three words.
pub fn three_word_is_short()
    ensures steps { (n : ℕ) → Protocol.steps ⟦<ThreeWord as Ratifier>⟧.protocol n ≡ 4 }
    ensures width { (n : ℕ) → Protocol.width ⟦<ThreeWord as Ratifier>⟧.protocol n ≡ 3 }
{}
