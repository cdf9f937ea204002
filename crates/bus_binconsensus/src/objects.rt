//! The objects that a decision goes through.

ghost use Rattle.std.specs.Prelude.{◌≡◌, ℕ, ◌+◌, ◌<◌, ◌≤◌, ◌^◌};
ghost use Rattle.bus_binconsensus.specs.Objects.{objects_of, object_kind, object_op, object_fed};
ghost use Rattle.bus_binconsensus.specs.Objects.{object_output, object_calls};
ghost use Rattle.bus_binconsensus.specs.Private.ObjectNames.{objects_named};
ghost use Rattle.bus_coinconc.specs.Conciliator.{conciliator_kind, conciliator_op, conciliator_fed};
ghost use Rattle.bus_coinconc.specs.ConciliatorProtocol.{conciliator_protocol};
ghost use Rattle.bus_coinconc.specs.Private.ConciliatorSteps.{conciliator_names_each_step};

use super::fallbacks::Fallback;
use bus_adoptcommit::{Ratifier, Verdict};
use bus_coinconc::Conciliator;
use bus_register::limits::MOST_PROCESSES;
use bus_register::{Kind, Machine, Op, Reg, SenderNo};

/// One process in one object of a decision. The objects are numbered by how many come after: the
/// last is the fallback word, with number 0, and before it ratifiers, with odd numbers, alternate
/// with conciliators, with even ones.
#[derive(Drop)]
pub enum Object<Q, C> {
    /// In a ratifier, which commits or adopts a value.
    Ratify(Q),
    /// In a conciliator, which adopts a value.
    Concile(C),
    /// At the fallback word, which commits a value.
    Fall(Fallback),
}

impl<Q: Ratifier> Object<Q, Conciliator> {
    /// How many words the object with this number has.
    pub fn width(n: u64, after: u64) -> u64
        requires { n ≤ MOST_PROCESSES }
        ensures { result ≡ (objects_of Q.protocol conciliator_protocol after).width n }
    {
        if after == 0 {
            1
        } else if after % 2 == 1 {
            Q::width(n)
        } else {
            Conciliator::width(n)
        }
    }

    /// Process `me` of `n` in the object with this number, over the words from `at` on.
    pub fn start(n: u64, me: SenderNo, input: bool, at: Reg, after: u64) -> Object<Q, Conciliator>
        requires me_below { me.0 < n }
        requires few { n ≤ MOST_PROCESSES }
        requires room { at.0 + (objects_of Q.protocol conciliator_protocol after).width n
            ≤ 2 ^ 64 }
        ensures { result
            ≡ (objects_of Q.protocol conciliator_protocol after).started n me.0 input at.0 }
    {
        if after == 0 {
            Object::Fall(Fallback {
                at,
                value: input,
                decided: None,
            })
        } else if after % 2 == 1 {
            Object::Ratify(Q::start(n, me, input, at))
        } else {
            Object::Concile(Conciliator::start(n, me, input, at))
        }
    }

    /// What the process got, once it takes no further step there.
    pub fn output(&self) -> Option<Verdict>
        ensures { result ≡ object_output Q.protocol conciliator_protocol self.now }
    {
        match self {
            Object::Ratify(ratifier) => ratifier.output(),
            Object::Concile(conciliator) => match conciliator.output() {
                Some(value) => Some(Verdict::Adopt(value)),
                None => None,
            },
            Object::Fall(fallback) => match fallback.decided {
                Some(value) => Some(Verdict::Commit(value)),
                None => None,
            },
        }
    }

    /// The next step asks for a random word: only a conciliator does.
    pub fn wants_word(&self) -> bool
        ensures { result ≡ object_calls conciliator_protocol self.now }
    {
        match self {
            Object::Concile(conciliator) => conciliator.wants_word(),
            _ => false,
        }
    }
}

impl<Q: Ratifier> Machine for Object<Q, Conciliator> {
    ghost kind_of = { object_kind Q.kind_of conciliator_kind };

    ghost op = { object_op Q.op conciliator_op };

    ghost fed = { object_fed Q.fed conciliator_fed };

    ghost names_each_step = { objects_named Q.kind_of Q.op Q.names_each_step conciliator_kind
        conciliator_op conciliator_names_each_step };

    fn kind(&self) -> Option<Kind> {
        match self {
            Object::Ratify(ratifier) => ratifier.kind(),
            Object::Concile(conciliator) => conciliator.kind(),
            Object::Fall(fallback) => fallback.kind(),
        }
    }

    fn next(&self, word: u32) -> Option<Op> {
        match self {
            Object::Ratify(ratifier) => ratifier.next(word),
            Object::Concile(conciliator) => conciliator.next(word),
            Object::Fall(fallback) => fallback.next(word),
        }
    }

    fn feed(&mut self, got: u64, word: u32) {
        match self {
            Object::Ratify(ratifier) => ratifier.feed(got, word),
            Object::Concile(conciliator) => conciliator.feed(got, word),
            Object::Fall(fallback) => fallback.feed(got, word),
        }
    }
}
