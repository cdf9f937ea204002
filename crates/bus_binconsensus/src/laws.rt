//! What holds of every binary decision, over any ratifier.

ghost use Rattle.std.specs.Prelude.{◌≡◌, ℕ, ◌+◌, ◌*◌, ◌-◌, ◌<◌, ◌≤◌};
ghost use Rattle.std.specs.Prelude.{◌^◌};
ghost use Rattle.bus_binconsensus.specs.DecideLaw.{DecideLaw};
ghost use Rattle.bus_binconsensus.specs.DecideRefuses.{RefusesShortcuts};
ghost use Rattle.bus_coinconc.specs.Conciliator.{conciliator_op, conciliator_fed};
ghost use Rattle.bus_coinconc.specs.ConciliatorProtocol.{conciliator_protocol};

use bus_adoptcommit::Ratifier;

/// A binary decision of any number of rounds keeps its law, over any ratifier.
pub fn decide_is_lawful<Q: Ratifier>()
    ensures { DecideLaw Q.op Q.fed Q.protocol conciliator_op conciliator_fed conciliator_protocol }
{}

/// In any number of rounds, no process stands past an object that adopted no value for it. In two
/// rounds, none stands at the fallback word that was not in the second ratifier, nor there that was
/// not in the conciliator, nor in the conciliator past a commit of the first ratifier or with a
/// value other than that gave it, nor in the first ratifier with a value other than its own input.
pub fn decision_refuses<Q: Ratifier>()
    ensures { RefusesShortcuts Q.protocol conciliator_protocol }
{}
