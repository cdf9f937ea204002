//! Gafni's adopt-commit object of two words per process, each read by all in turn.

ghost use Rattle.std.specs.Prelude.{◌≡◌, ℕ, ◌+◌, ◌*◌, ◌<◌, ◌≤◌, ◌^◌};
ghost use Rattle.bus_register.specs.Protocol.{Protocol};
ghost use Rattle.bus_adoptcommit.specs.Plays.{IsExact};
ghost use Rattle.bus_adoptcommit.specs.TwoCollect.{Local, Sized, proposal_code, verdict_code};
ghost use Rattle.bus_adoptcommit.specs.TwoCollect.{verdict_in, kind_at, op_of, fed_of};
ghost use Rattle.bus_adoptcommit.specs.TwoCollectKeeps.{two_collect};
ghost use Rattle.bus_adoptcommit.specs.Private.TwoCollectLaws.{two_collect_legal};
ghost use Rattle.bus_adoptcommit.specs.Private.TwoCollectLaws.{two_collect_exact};
ghost use Rattle.bus_adoptcommit.specs.Private.TwoCollectLaws.{named_at, own_kinds, named_for_at};
ghost use Rattle.bus_adoptcommit.specs.Private.TwoCollectLaws.{in_order_at};
ghost use Rattle.bus_adoptcommit.specs.Private.TwoCollectLaws.{wordless};
ghost use Rattle.bus_adoptcommit.specs.Private.TwoCollectLaws.{quick, narrow};

use super::phases::Phase;
use super::ratifiers::Ratifier;
use super::verdicts::Verdict;
use bus_register::{Kind, Machine, Op, Reg, SenderNo};
use std::marker::Model;

/// One process (Gafni 1998). The words are a proposal for each process, then a verdict for each:
/// the process stores its proposal and loads all proposals, stores its verdict and loads all
/// verdicts, in rising order. So it takes 2n + 2 steps.
#[derive(Drop)]
pub struct TwoCollect {
    n: u64,
    me: SenderNo,
    at: Reg,
    input: bool,
    /// Every proposal that was seen is the own one.
    agreed: bool,
    /// The value of a commit that was seen among the verdicts.
    commit: Option<bool>,
    /// Every verdict that was seen is a commit.
    only_commits: bool,
    phase: Phase,
}

impl Model for TwoCollect {
    ghost Value = { Local };

    ghost view = { λ s. record {
      n = s.n;
      me = s.me.0;
      at = s.at.0;
      input = s.input;
      agreed = s.agreed;
      commit = s.commit;
      only_commits = s.only_commits;
      phase = s.phase;
    } };

    ghost invariant = { λ s. Sized s.n s.me.0 s.at.0 s.phase };
}

/// The word of a proposal. No proposal is 0.
fn proposal_word(input: bool) -> u64
    ensures { result ≡ proposal_code input }
{
    if input { 2 } else { 1 }
}

/// The word of a verdict. No verdict is 0.
fn verdict_word(verdict: Verdict) -> u64
    ensures { result ≡ verdict_code verdict }
{
    match verdict {
        Verdict::Adopt(false) => 1,
        Verdict::Adopt(true) => 2,
        Verdict::Commit(false) => 3,
        Verdict::Commit(true) => 4,
    }
}

/// The verdict in a word, if one was stored.
fn verdict_at(word: u64) -> Option<Verdict>
    ensures { result ≡ verdict_in word }
{
    match word {
        1 => Some(Verdict::Adopt(false)),
        2 => Some(Verdict::Adopt(true)),
        3 => Some(Verdict::Commit(false)),
        4 => Some(Verdict::Commit(true)),
        _ => None,
    }
}

impl Machine for TwoCollect {
    ghost kind_of = { λ s. kind_at s.phase };

    ghost op = { λ s word. op_of s };

    ghost fed = { λ s got word. fed_of s got };

    fn kind(&self) -> Option<Kind> {
        match self.phase {
            Phase::WriteFirst => Some(Kind::WriteFirst),
            Phase::ReadFirst(_) => Some(Kind::ReadFirst),
            Phase::WriteSecond => Some(Kind::WriteSecond),
            Phase::ReadSecond(_) => Some(Kind::ReadSecond),
            Phase::Ended => None,
        }
    }

    fn next(&self, _word: u32) -> Option<Op> {
        match self.phase {
            Phase::WriteFirst => {
                let proposals = self.at.0;
                Some(Op::Store(
                    Reg(proposals + u64::from(self.me.0)),
                    proposal_word(self.input),
                ))
            }
            Phase::ReadFirst(of) => Some(Op::Load(Reg(self.at.0 + of))),
            Phase::WriteSecond => {
                let verdicts = self.at.0 + self.n;
                let verdict = if self.agreed {
                    Verdict::Commit(self.input)
                } else {
                    Verdict::Adopt(self.input)
                };
                Some(Op::Store(Reg(verdicts + u64::from(self.me.0)), verdict_word(verdict)))
            }
            Phase::ReadSecond(of) => Some(Op::Load(Reg(self.at.0 + self.n + of))),
            Phase::Ended => None,
        }
    }

    fn feed(&mut self, got: u64, _word: u32) {
        match self.phase {
            Phase::WriteFirst => self.phase = Phase::ReadFirst(0),
            Phase::ReadFirst(of) => {
                if got != 0 && got != proposal_word(self.input) {
                    self.agreed = false;
                }
                self.phase = if of + 1 < self.n {
                    Phase::ReadFirst(of + 1)
                } else {
                    Phase::WriteSecond
                };
            }
            Phase::WriteSecond => self.phase = Phase::ReadSecond(0),
            Phase::ReadSecond(of) => {
                match verdict_at(got) {
                    Some(Verdict::Adopt(_)) => self.only_commits = false,
                    Some(Verdict::Commit(value)) => self.commit = Some(value),
                    None => {}
                }
                self.phase = if of + 1 < self.n {
                    Phase::ReadSecond(of + 1)
                } else {
                    Phase::Ended
                };
            }
            Phase::Ended => {}
        }
    }

    ghost names_each_step = { λ s word. named_at s.phase s };
}

impl Ratifier for TwoCollect {
    ghost protocol = { two_collect };

    fn width(n: u64) -> u64 {
        2 * n
    }

    fn steps(n: u64) -> u64 {
        2 + 2 * n
    }

    fn start(n: u64, me: SenderNo, input: bool, at: Reg) -> TwoCollect {
        TwoCollect {
            n,
            me,
            at,
            input,
            agreed: true,
            commit: None,
            only_commits: true,
            phase: Phase::WriteFirst,
        }
    }

    fn output(&self) -> Option<Verdict> {
        match self.phase {
            Phase::Ended => Some(match self.commit {
                Some(value) if self.only_commits => Verdict::Commit(value),
                Some(value) => Verdict::Adopt(value),
                None => Verdict::Adopt(self.input),
            }),
            _ => None,
        }
    }

    ghost laws = { two_collect_legal };

    ghost own_kinds = { own_kinds };

    ghost named_for = { λ s k word o e q. named_for_at s.phase s.n s k o e q };

    ghost in_order = { λ s got word k next e f. in_order_at s.phase s got k next e f };

    ghost wordless = { wordless };

    ghost quick = { quick };

    ghost narrow = { narrow };
}

/// A process of two collects takes all its steps, and has no output before.
pub fn two_collect_is_exact()
    ensures exact { IsExact ⟦<TwoCollect as Machine>⟧.op ⟦<TwoCollect as Machine>⟧.fed
        ⟦<TwoCollect as Ratifier>⟧.protocol }
    ensures steps { (n : ℕ)
        → Protocol.steps ⟦<TwoCollect as Ratifier>⟧.protocol n ≡ 2 * n + 2 }
{}
