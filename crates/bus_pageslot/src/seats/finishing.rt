//! A sender that goes through what is left of the tenure that it has begun, and begins no other.

ghost use Rattle.std.specs.Prelude.{◌≡◌, ◌⊎◌, ◌<◌, true, false, IfSome, IfNone, IsSome};
ghost use Rattle.std.specs.Prelude.{is_some};
ghost use Rattle.bus_automaton.specs.Buses.{process_by};
ghost use Rattle.bus_core.specs.Places.{LiesAt};
ghost use Rattle.bus_core.specs.Seen.{tenure_begun};
ghost use Rattle.bus_core.specs.Senders.{situation};
ghost use Rattle.bus_core.specs.Table.{line_now};
ghost use Rattle.bus_pageslot.specs.Finishing.{turns_to_finish, StaysOrEnds, Finishes, HasFinished};
ghost use Rattle.bus_pageslot.specs.Finishing.{is_behind, is_sent};
ghost use Rattle.bus_pageslot.specs.Seats.{table_of, actions_of};
ghost use Rattle.bus_pageslot.specs.Sendings.{KeptAfter};
ghost use Rattle.bus_pageslot.specs.Turns.{tells_by, Turned, DrawsOn};
ghost use Rattle.bus_register.specs.Words.{register};
ghost use Rattle.bus_tenure.specs.Elections.{election_of};
ghost use Rattle.bus_world.specs.Headline.{puts};

use crate::buses::Bus;
use crate::seats::Sender;
use bus_adoptcommit::Ratifier;
use bus_automaton::laws::threads_may_go_by;
use bus_register::Op;
use bus_tenure::Turn;
use bus_tenure::laws::elections_are_bounded;
use rand_core::Rng;

impl<Q: Ratifier + Drop> Sender<Q> {
    /// The turns that are left of the tenure that it has begun, so that no other sender waits for
    /// it any more. None where it has begun none: no turn is taken then, and no tenure is begun.
    ///
    /// Else it gives the answer of the last of these turns, with which the tenure has ended for
    /// it: Delivered, Left, Lost, Full, Closed, or, where rows are used again and it came too late
    /// for the tenure, Waiting. A batch that is not in the order is kept, and another `send` goes
    /// on with it. Or it is Behind, where another sender's pin is in the way: then it holds the
    /// page still, and may be asked again.
    ///
    /// It waits for nobody: it takes at most the words of a frame, of a row and of its election,
    /// the presences, the passed places, and a few turns more. Each vote takes one word of `rng`,
    /// any one will do, and nothing else takes one.
    pub fn finish<R: Rng>(&mut self, bus: &Bus<Q>, rng: &mut R) -> Option<Turn>
        requires { table_of self.old ≡ bus.now.table }
        ensures table { table_of self.new ≡ table_of self.old }
        ensures none { IfNone result
            ((self.new ≡ self.old) × HasFinished (process_by Q.Ratifier) self.old) }
        ensures finishes { IfSome result (λ turn. Finishes (election_of Q.Ratifier)
            (process_by Q.Ratifier) (tells_by Q.Ratifier) self.old turn self.new) }
        ensures keeps { IfSome result (λ turn. is_sent turn ≡ false
            → KeptAfter (process_by Q.Ratifier) self.old turn self.new) }
        ensures puts { let P = process_by Q.Ratifier in
            puts (actions_of P self.new) ≡ puts (actions_of P self.old) }
        ensures draws { DrawsOn (process_by Q.Ratifier) (tells_by Q.Ratifier) self.old
            (R.stream rng.old) self.new (R.stream rng.new) }
    {
        threads_may_go_by::<Q>();
        if !self.has_begun() {
            return None;
        }
        'turns: loop {
            let word = self.next_word(rng);
            let turn = self.turn_begun(bus, word);
            if self.stops(turn) {
                return Some(turn);
            }
        }
    }

    /// After a turn that was answered so another sender is in its way, or its tenure has ended.
    fn stops(&self, turn: Turn) -> bool
        ensures over { result ≡ true
            → (is_behind turn ≡ true) ⊎ (is_some (tenure_begun self.now.core) ≡ false) }
        ensures goes { result ≡ false
            → (is_behind turn ≡ false) × (is_some (tenure_begun self.now.core) ≡ true) }
    {
        if is_behind(turn) {
            return true;
        }
        if self.has_begun() {
            return false;
        }
        true
    }

    /// A turn of the tenure that it has begun. Fewer are left then, but after Behind.
    fn turn_begun(&mut self, bus: &Bus<Q>, word: u32) -> Turn
        requires table { table_of self.old ≡ bus.now.table }
        requires begun { IsSome (tenure_begun self.old.core) }
        ensures table { table_of self.new ≡ table_of self.old }
        ensures turned { Turned (process_by Q.Ratifier) (tells_by Q.Ratifier) self.old word result
            self.new }
        ensures some { 0 < turns_to_finish (election_of Q.Ratifier) self.old.core }
        ensures falls { let X = election_of Q.Ratifier in is_behind result ≡ false
            → turns_to_finish X self.new.core < turns_to_finish X self.old.core }
        ensures goes { StaysOrEnds self.old.core result self.new.core }
    {
        elections_are_bounded::<Q>();
        let _ = &self.core;
        let _left = self.turns_left();
        let _due = self.kind();
        let _step = self.due(word);
        self.turn(bus, word)
    }

    /// Its next step, which lies where its situation has it; none where none is due.
    fn due(&self, word: u32) -> Option<Op>
        ensures step { let X = election_of Q.Ratifier in
            result ≡ (line_now X self.now.core).op word }
        ensures lies { let X = election_of Q.Ratifier in IfSome result
            (λ o. LiesAt self.now.core (situation X self.now.core) (register o)) }
    {
        self.core.next(word)
    }
}

/// Another sender's pin is in the way.
fn is_behind(turn: Turn) -> bool
    ensures { result ≡ is_behind turn }
{
    matches!(turn, Turn::Behind { .. })
}
