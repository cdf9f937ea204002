//! A sender that goes through what is left of the tenure that it has begun.

ghost use Rattle.std.specs.Prelude.{◌≡◌, false, IfSome, IfNone};
ghost use Rattle.bus_automaton.specs.Buses.{process_by};
ghost use Rattle.bus_core.specs.Seen.{tenure_begun};
ghost use Rattle.bus_pageslot.specs.Finishing.{Finishes, HasFinished, is_sent};
ghost use Rattle.bus_pageslot.specs.Seats.{table_of, actions_of};
ghost use Rattle.bus_pageslot.specs.Sendings.{KeptAfter};
ghost use Rattle.bus_pageslot.specs.Turns.{tells_by};
ghost use Rattle.bus_tenure.specs.Elections.{election_of};
ghost use Rattle.bus_world.specs.Headline.{puts};

use crate::senders::SenderHandle;
use bus_adoptcommit::Ratifier;
use bus_pageslot::Bus;
use bus_tenure::Turn;
use rand_core::Rng;

impl<Q: Ratifier + Drop, R: Rng + Drop> SenderHandle<Q, R> {
    /// The tenure that it has begun, or whose page it has: from the turn on that looked at the
    /// stage and found a tenure that it may enter. Others may wait for it as long as there is one.
    pub fn tenure(&self) -> Option<u64>
        ensures { result ≡ tenure_begun self.now.core }
    {
        self.sender.tenure()
    }

    /// The turns that are left of the tenure that it has begun, so that no other sender waits for
    /// it any more: call it before the handle is let go, also where an error is on its way up. None
    /// where it has begun none: no turn is taken then, and no tenure is begun.
    ///
    /// Else it gives the answer of the last of these turns, with which the tenure has ended for
    /// it: Delivered, Left, Lost, Full, Closed, or, where rows are used again and it came too late
    /// for the tenure, Waiting. A batch that is not in the order is kept, and another `send` goes
    /// on with it; after Full of a ring, once the receivers have heard. Or it is Behind, where
    /// another sender's pin is in the way: then it holds the page still, and may be asked again.
    ///
    /// It waits for nobody: it takes at most the words of a frame, of a row and of its election,
    /// the presences, the passed places of a ring, and a few turns more.
    pub fn finish(&mut self) -> Option<Turn>
        ensures table { table_of self.new ≡ table_of self.old }
        ensures none { IfNone result
            ((self.new ≡ self.old) × HasFinished (process_by Q.Ratifier) self.old) }
        ensures finishes { IfSome result (λ turn. Finishes (election_of Q.Ratifier)
            (process_by Q.Ratifier) (tells_by Q.Ratifier) self.old turn self.new) }
        ensures keeps { IfSome result (λ turn. is_sent turn ≡ false
            → KeptAfter (process_by Q.Ratifier) self.old turn self.new) }
        ensures puts { let P = process_by Q.Ratifier in
            puts (actions_of P self.new) ≡ puts (actions_of P self.old) }
    {
        let bus: &Bus<Q> = &self.bus;
        self.sender.finish(bus, &mut self.rng)
    }
}
