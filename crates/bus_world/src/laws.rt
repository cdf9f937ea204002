//! What the page of promises does not allow.

ghost use Rattle.std.specs.Prelude.{ℕ, ◌≤◌, List};
ghost use Rattle.bus_register.specs.declared.registers.SenderNo.{SenderNo};
ghost use Rattle.bus_batch.specs.Frames.{Order};
ghost use Rattle.bus_deliverylog.specs.declared.receiving.RecvTurn.{RecvTurn};
ghost use Rattle.bus_world.specs.Headline.{Action};
ghost use Rattle.bus_presence.specs.Reclamation.{Trails};
ghost use Rattle.bus_tenure.specs.Elections.{Elector, election_of, layout_with};
ghost use Rattle.bus_world.specs.Refusals.{FromZero, ItemsAlone, PromiseRefuses};
ghost use Rattle.bus_world.specs.World.{IsLayout};
ghost use Rattle.bus_world.specs.Private.CyclicProtocols.{CyclicProtocol};
ghost use Rattle.bus_world.specs.RingRefusals.{RingRefuses};

use bus_adoptcommit::Ratifier;
use bus_ownerbits::laws::election_is_lawful;

/// The promise is false of each of these wrong behaviours, whatever else senders did and receivers
/// were answered, whatever the order and the owners, and in each sitting.
pub fn promise_refuses()
    ensures { (base : ℕ → ℕ) (actions : ℕ → List Action) (heard : ℕ → List RecvTurn) (order : Order)
        (owners : List (ℕ × SenderNo)) → PromiseRefuses base actions heard order owners }
{}

/// Of a bus of which no sitting was before, the promise says that each sender's numbers count from
/// 0.
pub fn first_sittings_count_from_zero()
    ensures { FromZero }
{}

/// Where nobody has asked to leave, the promise says that the order is of items alone.
pub fn nobody_leaves_unasked()
    ensures { ItemsAlone }
{}

/// On a bus whose rows are used again, whatever passed places it has, nothing leads to a receiver
/// that has not left and loads another word than was published at its place, one that was not
/// published yet, or another length, or of which a word is lost that it has still to hear; to a
/// word that is lost from the floor of a page on, at home or out; to a length past what was
/// published, or short of it; to a page whose floor is past the length, or past the place of a
/// receiver that has not left; or to a passed place that is ahead of its receiver or within a
/// frame.
pub fn ring_refuses<Q: Ratifier>()
    ensures { let X = election_of Q.Ratifier in
        (senders rounds rows again capacity passers batch : ℕ)
        → IsLayout (layout_with Q.protocol senders rounds rows capacity passers batch) → 2 ≤ again
        → (y : CyclicProtocol (Elector Q)) (pins : Trails) (actions : ℕ → List Action)
        (heard : ℕ → List RecvTurn) (log : List ℕ)
        → RingRefuses X (layout_with Q.protocol senders rounds rows capacity passers batch) again y
        pins actions heard log }
{
    election_is_lawful::<Q>();
}
