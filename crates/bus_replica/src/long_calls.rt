//! Long operations of a replica.

ghost use Rattle.std.specs.Prelude.{◌≡◌, ℕ, ◌<◌, IfOk, IfErr, OnErr, None, Option, length};
ghost use Rattle.bus_automaton.specs.ThreeWordBuses.{process};
ghost use Rattle.bus_core.specs.Seen.{tenure_begun};
ghost use Rattle.bus_long.specs.Pieces.{pieces};
ghost use Rattle.bus_long.specs.declared.pieces.TheConstants.{MOST_LONG_BYTES};
ghost use Rattle.bus_replica.specs.Causes.{tells, IsCause, RefusesLong, SaysStop};
ghost use Rattle.bus_replica.specs.Longs.{AppliesLong, IsFirstLong};
ghost use Rattle.bus_replica.specs.Replicas.{StandsLast, PutsAll, PutsAllOrNone, PutsStay};
ghost use Rattle.bus_replica.specs.Replicas.{GoesOn, LeadTo};

use crate::faults::Fault;
use crate::longs::Long;
use crate::replicas::Replica;
use crate::states::State;
use bus_long::cut;
use std::sync::Wait;

impl<S: State> Replica<Long<S>> {
    /// As `submit`, of an operation of at most 880 bytes. It is put whole or not at all: all its
    /// pieces, at most 16 of 55 bytes, go into one batch, and the number is that of the last one.
    /// A batch has room for 64; it is sent before where they do not fit.
    pub fn submit_long<W: Wait>(&mut self, wait: &W, op: &[u8]) -> Result<u64, Fault>
        ensures bus { self.new.bus ≡ self.old.bus }
        ensures on { GoesOn self.old.me self.new.me }
        ensures put { IfOk result (λ number. PutsAll process tells self.old.sender
            self.new.sender number (pieces op.now)) }
        ensures refused { OnErr result (PutsStay process tells self.old.sender self.new.sender) }
        ensures long { MOST_LONG_BYTES < length op.now
            → RefusesLong process tells self.old result self.new }
        ensures cause { IfErr result (IsCause process tells (MOST_LONG_BYTES < length op.now) ⊥
            self.old self.new) }
        ensures free { tenure_begun self.new.sender.core ≡ None }
    {
        self.submit_long_while(wait, || true, op)
    }

    /// As `submit_long`, and it can be told to stop, as `submit_while`.
    pub fn submit_long_while<W: Wait, F: FnMut() -> bool>(
        &mut self,
        wait: &W,
        go_on: F,
        op: &[u8],
    ) -> Result<u64, Fault>
        requires callable { F.IsAlwaysCallable go_on }
        ensures bus { self.new.bus ≡ self.old.bus }
        ensures on { GoesOn self.old.me self.new.me }
        ensures put { IfOk result (λ number. PutsAll process tells self.old.sender
            self.new.sender number (pieces op.now)) }
        ensures refused { OnErr result (PutsStay process tells self.old.sender self.new.sender) }
        ensures long { MOST_LONG_BYTES < length op.now
            → RefusesLong process tells self.old result self.new }
        ensures cause { IfErr result (IsCause process tells (MOST_LONG_BYTES < length op.now)
            (SaysStop F.step go_on) self.old self.new) }
        ensures free { tenure_begun self.new.sender.core ≡ None }
    {
        let Some(parts) = cut(op) else {
            return Err(self.refuse(wait));
        };
        self.submit_all(wait, go_on, parts.before.as_slice(), parts.last.as_slice())
    }

    /// As `execute`, of an operation of at most 880 bytes. The answer is Some where this worker has
    /// put its operations by these calls alone (`long_operations_are_linearizable`).
    pub fn execute_long<W: Wait>(&mut self, wait: &W, op: &[u8]) -> Result<Option<S::Answer>, Fault>
        ensures bus { self.new.bus ≡ self.old.bus }
        ensures on { GoesOn self.old.me self.new.me }
        ensures executed { IfOk result (λ answer. (number : ℕ)
            × PutsAll process tells self.old.sender self.new.sender number (pieces op.now)
            × StandsLast (LeadTo (IsFirstLong S.is_first) (AppliesLong S.applies)
            self.new.bus.replayed) (AppliesLong S.applies) self.new.me.0 self.new.state
            (process.me self.old.sender.core) number answer) }
        ensures refused { OnErr result
            (PutsAllOrNone process tells self.old.sender self.new.sender (pieces op.now)) }
        ensures long { MOST_LONG_BYTES < length op.now
            → RefusesLong process tells self.old result self.new }
        ensures cause { IfErr result (IsCause process tells (MOST_LONG_BYTES < length op.now) ⊥
            self.old self.new) }
        ensures free { tenure_begun self.new.sender.core ≡ None }
    {
        self.execute_long_while(wait, || true, op)
    }

    /// As `execute_long`, and it can be told to stop, as `execute_while`.
    pub fn execute_long_while<W: Wait, F: FnMut() -> bool>(
        &mut self,
        wait: &W,
        go_on: F,
        op: &[u8],
    ) -> Result<Option<S::Answer>, Fault>
        requires callable { F.IsAlwaysCallable go_on }
        ensures bus { self.new.bus ≡ self.old.bus }
        ensures on { GoesOn self.old.me self.new.me }
        ensures executed { IfOk result (λ answer. (number : ℕ)
            × PutsAll process tells self.old.sender self.new.sender number (pieces op.now)
            × StandsLast (LeadTo (IsFirstLong S.is_first) (AppliesLong S.applies)
            self.new.bus.replayed) (AppliesLong S.applies) self.new.me.0 self.new.state
            (process.me self.old.sender.core) number answer) }
        ensures refused { OnErr result
            (PutsAllOrNone process tells self.old.sender self.new.sender (pieces op.now)) }
        ensures long { MOST_LONG_BYTES < length op.now
            → RefusesLong process tells self.old result self.new }
        ensures cause { IfErr result (IsCause process tells (MOST_LONG_BYTES < length op.now)
            (SaysStop F.step go_on) self.old self.new) }
        ensures free { tenure_begun self.new.sender.core ≡ None }
    {
        let Some(parts) = cut(op) else {
            return Err(self.refuse(wait));
        };
        self.execute_all(wait, go_on, parts.before.as_slice(), parts.last.as_slice())
    }
}
