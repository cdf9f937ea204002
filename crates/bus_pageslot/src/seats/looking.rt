//! A sender that looks whether there is room, beside its turns.

ghost use Rattle.std.specs.Prelude.{◌≡◌, ◌<◌, false, IsTrue};
ghost use Rattle.bus_automaton.specs.Buses.{process_by, automaton_by};
ghost use Rattle.bus_pageslot.specs.Looks.{LooksForRoom, batch_len};
ghost use Rattle.bus_pageslot.specs.Room.{Fits};
ghost use Rattle.bus_pageslot.specs.Seats.{table_of};

use crate::buses::Bus;
use crate::seats::Sender;
use bus_adoptcommit::Ratifier;
use bus_automaton::laws::threads_may_go_by;

impl<Q: Ratifier + Drop> Sender<Q> {
    /// A look whether the frame of its batch fits the log: one load of the length, and then one of
    /// each passed place, in rising order of receivers. It is no turn. The sender is as it was, but
    /// that its seat shows these looks, each with the word that it was on and the number found. The
    /// answer goes by just these numbers.
    ///
    /// A sender that was answered Full may look until this says yes, and only then take turns:
    /// each turn towards a page that ends with Full costs a tenure. A no was right when the least
    /// of the passed places was loaded, if the length was no less by then (`a_no_was_right`), and
    /// may be a yes by now. A yes is no promise, since another sender may take the room first. Of a
    /// frame that is longer than the log it is never yes. Where no word of the log is used again
    /// the passed places are none.
    pub fn has_room(&mut self, bus: &Bus<Q>) -> bool
        requires table { table_of self.old ≡ bus.now.table }
        ensures table { table_of self.new ≡ table_of self.old }
        ensures looked { LooksForRoom (process_by Q.Ratifier)
            (automaton_by Q.Ratifier bus.now.plan) self.old result self.new }
        ensures fits { IsTrue result → Fits (process_by Q.Ratifier) self.old.core }
        ensures never { (automaton_by Q.Ratifier bus.now.plan).table_layout.capacity
            < batch_len (process_by Q.Ratifier) self.old.core → result ≡ false }
    {
        threads_may_go_by::<Q>();
        let many = self.batch_len();
        bus.has_room(&mut self.seat, many)
    }

    /// How many words the frame of its batch has; 1 where nothing waits.
    pub(super) fn batch_len(&self) -> u64
        ensures { result ≡ batch_len (process_by Q.Ratifier) self.now.core }
    {
        threads_may_go_by::<Q>();
        if self.core.is_closing() || self.core.is_leaving() {
            return 2;
        }
        if self.core.pending() == 0 {
            return 1;
        }
        self.core.frame_len()
    }
}
