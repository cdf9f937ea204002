//! A binary decision: ratifiers and conciliators in turn, and a fallback word.

ghost use Rattle.std.specs.Prelude.{◌≡◌, ◌≢◌, ℕ, ◌+◌, ◌*◌, ◌-◌, ◌<◌};
ghost use Rattle.std.specs.Prelude.{◌≤◌, ◌^◌};
ghost use Rattle.bus_binconsensus.specs.Chain.{span, link_entered};
ghost use Rattle.bus_binconsensus.specs.Private.ObjectNames.{objects_named};
ghost use Rattle.bus_binconsensus.specs.Objects.{objects_of, object_kind, object_calls, decide_op};
ghost use Rattle.bus_binconsensus.specs.Objects.{decide_fed};
ghost use Rattle.bus_binconsensus.specs.Decisions.{decisions};
ghost use Rattle.bus_coinconc.specs.Conciliator.{conciliator_kind, conciliator_op, conciliator_fed};
ghost use Rattle.bus_coinconc.specs.ConciliatorProtocol.{conciliator_protocol};
ghost use Rattle.bus_coinconc.specs.Private.ConciliatorSteps.{conciliator_names_each_step};

use super::objects::Object;
use bus_adoptcommit::{Ratifier, Verdict};
use bus_coinconc::Conciliator;
use bus_register::limits::{MOST_PROCESSES, MOST_ROUNDS};
use bus_register::{Kind, Machine, Op, Reg, SenderNo};
use std::marker::Model;

/// One process of a binary decision of at most 64 processes (Aspnes 2010), in 1 to 8 rounds. The
/// first round is a ratifier, each further one a conciliator and then a ratifier. Each object is
/// given the value of the one before, and a commit decides at once. After the last round a fallback
/// word decides. The words are those of the objects in their order.
#[derive(Drop)]
pub struct Decide<Q: Ratifier> {
    n: u64,
    me: SenderNo,
    input: bool,
    /// How many objects come after the one where the process stands.
    after: u64,
    /// The first word of that object.
    at: Reg,
    object: Object<Q, Conciliator>,
}

impl<Q: Ratifier> Model for Decide<Q> {
    ghost use Rattle.std.specs.Prelude.{◌+◌, ◌<◌, ◌≤◌, ◌^◌};
    ghost use Rattle.bus_binconsensus.specs.Chain.{Link, span};
    ghost use Rattle.bus_binconsensus.specs.declared.objects.Object.{Object};
    ghost use Rattle.bus_binconsensus.specs.Objects.{objects_of};
    ghost use Rattle.bus_coinconc.specs.Conciliator.{ConciliatorState};
    ghost use Rattle.bus_register.specs.declared.limits.TheConstants.{MOST_PROCESSES};
    ghost use Rattle.bus_coinconc.specs.ConciliatorProtocol.{conciliator_protocol};

    ghost Value = { Link (Object Q ConciliatorState) };

    ghost view = { λ d. record {
      n = d.n;
      me = d.me.0;
      at = d.at.0;
      input = d.input;
      after = d.after;
      object = d.object;
    } };

    ghost invariant = { λ d. (d.me.0 < d.n) × (d.n ≤ MOST_PROCESSES)
        × (d.at.0 + span (objects_of Q.protocol conciliator_protocol) d.n d.after ≤ 2 ^ 64) };
}

impl<Q: Ratifier + Drop> Decide<Q> {
    /// How many words a decision of `n` processes in so many rounds has.
    pub fn width(n: u64, rounds: u64) -> u64
        requires few { n ≤ MOST_PROCESSES }
        requires some { 1 ≤ rounds }
        requires not_many { rounds ≤ MOST_ROUNDS }
        ensures words { result ≡ rounds * Q.protocol.width n + (rounds - 1) * 3 + 1 }
        ensures protocol { result ≡ (decisions Q.protocol rounds).width n }
    {
        rounds * Q::width(n) + (rounds - 1) * Conciliator::width(n) + 1
    }

    /// Process `me` of `n` with its input, over the words from `at` on, which are zero before the
    /// first step.
    pub fn start(n: u64, me: SenderNo, input: bool, rounds: u64, at: Reg) -> Decide<Q>
        requires me_below { me.0 < n }
        requires few { n ≤ MOST_PROCESSES }
        requires some { 1 ≤ rounds }
        requires not_many { rounds ≤ MOST_ROUNDS }
        requires room { at.0 + (decisions Q.protocol rounds).width n ≤ 2 ^ 64 }
        ensures { result ≡ (decisions Q.protocol rounds).started n me.0 input at.0 }
    {
        let after = 2 * rounds - 1;
        Decide {
            n,
            me,
            input,
            after,
            at,
            object: Object::start(n, me, input, at, after),
        }
    }

    /// The decision, once the process takes no further step.
    pub fn decided(&self) -> Option<bool>
        ensures { (rounds : ℕ) → result ≡ (decisions Q.protocol rounds).output self.now }
    {
        match self.object.output() {
            Some(Verdict::Commit(value)) | Some(Verdict::Adopt(value)) => Some(value),
            None => None,
        }
    }

    /// The next step asks for a random word.
    pub fn wants_word(&self) -> bool
        ensures { result ≡ object_calls conciliator_protocol self.now.object }
    {
        self.object.wants_word()
    }

    /// Goes on to the next object with the value of this one.
    fn enter_next(&mut self, value: bool)
        requires { self.old.after ≢ 0 }
        ensures { self.new
            ≡ link_entered (objects_of Q.protocol conciliator_protocol) self.old value }
    {
        self.at = Reg(self.at.0 + Object::<Q, Conciliator>::width(self.n, self.after));
        self.after -= 1;
        self.object = Object::start(self.n, self.me, value, self.at, self.after);
    }
}

impl<Q: Ratifier + Drop> Machine for Decide<Q> {
    ghost kind_of = { λ d. object_kind Q.kind_of conciliator_kind d.object };

    ghost op = { decide_op Q.op conciliator_op };

    ghost fed = { decide_fed Q.protocol conciliator_protocol Q.fed conciliator_fed };

    ghost names_each_step = { λ d word. objects_named Q.kind_of Q.op Q.names_each_step
        conciliator_kind conciliator_op conciliator_names_each_step d.object word };

    fn kind(&self) -> Option<Kind> {
        self.object.kind()
    }

    fn next(&self, word: u32) -> Option<Op> {
        self.object.next(word)
    }

    fn feed(&mut self, got: u64, word: u32) {
        self.object.feed(got, word);
        if let Some(Verdict::Adopt(value)) = self.object.output() {
            if self.after != 0 {
                self.enter_next(value);
            }
        }
    }
}
