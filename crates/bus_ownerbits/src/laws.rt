//! What holds of every election, over any ratifier.

ghost use Rattle.std.specs.Prelude.{◌≡◌, ℕ};
ghost use Rattle.bus_binconsensus.specs.Objects.{decide_op, decide_fed};
ghost use Rattle.bus_binconsensus.specs.Decisions.{decisions};
ghost use Rattle.bus_coinconc.specs.Conciliator.{conciliator_op, conciliator_fed};
ghost use Rattle.bus_coinconc.specs.ConciliatorProtocol.{conciliator_protocol};
ghost use Rattle.bus_ownerbits.specs.ElectionAsks.{AsksAsTold};
ghost use Rattle.bus_ownerbits.specs.ElectionLaw.{ElectionLaw};
ghost use Rattle.bus_ownerbits.specs.Sizes.{decision_cost};

use bus_adoptcommit::Ratifier;

/// An election keeps its law, over any ratifier and any number of rounds.
pub fn election_is_lawful<Q: Ratifier>()
    ensures lawful { ElectionLaw (decide_op Q.op conciliator_op)
        (decide_fed Q.protocol conciliator_protocol Q.fed conciliator_fed)
        (decisions Q.protocol) (decision_cost Q.protocol.steps) }
    ensures asks { AsksAsTold Q.protocol conciliator_protocol }
{}
