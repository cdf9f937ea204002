//! What holds of closing lines.

ghost use Rattle.std.specs.Prelude.{◌≡◌, ℕ, Bool, List};
ghost use Rattle.bus_tenure.specs.Elections.{Elector, election_of, layout_with};
ghost use Rattle.bus_world.specs.World.{IsLayout};
ghost use Rattle.bus_machine.specs.Machine.{Machine, Trails, Reached};
ghost use Rattle.bus_machine.specs.Promise.{HasRows};
ghost use Rattle.bus_replay.specs.Answers.{Closes};

use bus_adoptcommit::Ratifier;
use bus_ownerbits::laws::election_is_lawful;

/// The closing lines of a bus without passed places, where no word of the log is used again, are
/// the same by whatever trails led to it: it is the bus that they tell of, and the seats that have
/// or had a receiver.
pub fn closing_lines_are_of_the_bus<Q: Ratifier>()
    ensures { let X = election_of Q.Ratifier in
        (senders rounds rows capacity batch : ℕ)
        → IsLayout (layout_with Q.protocol senders rounds rows capacity 0 batch)
        → (bus : Machine (Elector Q)) (trails other : Trails) (taken : ℕ → Bool) (text : List ℕ)
        → bus.layout ≡ layout_with Q.protocol senders rounds rows capacity 0 batch
        → HasRows bus.reuse → Closes X Q.protocol bus trails taken text → Reached X bus other
        → Closes X Q.protocol bus other taken text }
{
    election_is_lawful::<Q>();
}
