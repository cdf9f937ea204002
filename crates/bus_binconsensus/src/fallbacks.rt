//! One word that decides where no ratifier did.

ghost use Rattle.std.specs.Prelude.{◌≡◌};
ghost use Rattle.std.proofs.Common.{rules};
ghost use Rattle.bus_binconsensus.specs.Deciding.{Decides};
ghost use Rattle.bus_binconsensus.specs.Fallback.{op_of, fed_of, kind_of, fallback_protocol};
ghost use Rattle.bus_register.specs.Protocol.{Laws};

use bus_register::{Kind, Machine, Op, Reg};

/// One process at a fallback word, which is 0 until the first process puts 1 more than its value
/// there. Each process takes one step, and decides the value that then stands there.
#[derive(Clone, Copy, Debug, PartialEq, Eq)]
pub struct Fallback {
    /// The fallback word.
    pub at: Reg,
    /// What the process puts where the word is empty.
    pub value: bool,
    /// What it decided by its step.
    pub decided: Option<bool>,
}

impl Machine for Fallback {
    ghost kind_of = { kind_of };

    ghost op = { λ s word. op_of s };

    ghost fed = { λ s got word. fed_of s got };

    fn kind(&self) -> Option<Kind> {
        match self.decided {
            None => Some(Kind::Fallback),
            Some(_) => None,
        }
    }

    fn next(&self, _word: u32) -> Option<Op> {
        match self.decided {
            None => Some(Op::Cas(self.at, 0, 1 + u64::from(self.value))),
            Some(_) => None,
        }
    }

    fn feed(&mut self, got: u64, _word: u32) {
        let decided = match got {
            0 => self.value,
            1 => false,
            _ => true,
        };
        self.decided = Some(decided);
    }

    ghost names_each_step = { λ s word. Prim.search rules };
}
