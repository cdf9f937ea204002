//! A sender that waits until its batch finds room in the log.

ghost use Rattle.std.specs.Prelude.{◌≡◌, ◌≢◌, ◌↔◌, true, false, IsTrue, IfSome, IfNone, IfOk};
ghost use Rattle.std.specs.Prelude.{OnOk, OnErr, Some, codes};
ghost use Rattle.bus_automaton.specs.Buses.{process_by, automaton_by};
ghost use Rattle.bus_pageslot.specs.Room.{Fits, GoesForRoom, SendsForRoom, StopsForRoom};
ghost use Rattle.bus_pageslot.specs.Room.{DrawsForRoom};
ghost use Rattle.bus_pageslot.specs.Room.{StopsLooking, Turning, Looking};
ghost use Rattle.bus_pageslot.specs.Seats.{table_of, actions_of};
ghost use Rattle.bus_pageslot.specs.Sendings.{waiting_of, KeptAfter};
ghost use Rattle.bus_pageslot.specs.Turns.{tells_by};
ghost use Rattle.bus_tenure.specs.Classes.{is_refusal};
ghost use Rattle.bus_world.specs.Headline.{puts};
ghost use Rattle.rand_core.specs.Stream.{Stream};

use crate::buses::Bus;
use crate::seats::{MOST_PLAIN_TURNS, Sender, ends_sending, is_waiting, rest_after};
use bus_adoptcommit::Ratifier;
use bus_automaton::laws::threads_may_go_by;
use bus_tenure::Turn;
use bus_waiting::Waiter;
use rand_core::Rng;
use std::error::Error;
use std::fmt;
use std::sync::Wait;

/// After so many looks that found no room it takes a turn all the same: a look does not see that
/// the order has ended, and a turn answers Closed then. Each such turn may take a tenure.
const MOST_LOOKS: u64 = 64;

/// The batch is longer than the log, so it never fits.
#[derive(Clone, Copy, Debug, PartialEq, Eq)]
pub struct NeverFits;

impl Error for NeverFits {}

impl fmt::Display for NeverFits {
    ghost output = { λ _. Some (codes "the batch is longer than the log") };

    fn fmt<W: fmt::Write>(&self, f: &mut fmt::Formatter<W>) -> fmt::Result {
        f.write_str("the batch is longer than the log")
    }
}

impl<Q: Ratifier + Drop> Sender<Q> {
    /// The frame of its batch is no longer than the log of its bus. Else it is Full for good. Takes
    /// no step.
    pub fn fits(&self) -> bool
        ensures { IsTrue result ↔ Fits (process_by Q.Ratifier) self.now.core }
    {
        self.batch_len() <= self.log_words()
    }

    /// How many words the log of its bus has.
    fn log_words(&self) -> u64
        ensures { result ≡ ((process_by Q.Ratifier).table_layout self.now.core).capacity }
    {
        self.core.log_words()
    }

    /// As `send_while`, but that it goes on after Full, once there is room. A batch that is longer
    /// than the log is told before the first turn, and nothing changes.
    ///
    /// After Full it looks for room (`has_room`), and takes turns again once a look finds some; and
    /// now and then takes a turn all the same, since the order may have ended. It asks `go_on` once
    /// before each look, and once each time a turn answers Waiting or Behind. It asks nowhere else,
    /// goes on where that says yes, and gives None where it says no. The batch is kept then.
    /// Between looks it rests, and it rings before the first one.
    ///
    /// Of a bus whose log is no ring no room comes: it waits as long as `go_on` says yes.
    pub fn send_when_room<W: Wait, R: Rng, F: FnMut() -> bool>(
        &mut self,
        waiter: &Waiter<'_, W>,
        bus: &Bus<Q>,
        rng: &mut R,
        mut go_on: F,
    ) -> Result<Option<Turn>, NeverFits>
        requires table { table_of self.old ≡ bus.now.table }
        requires callable { F.IsAlwaysCallable go_on }
        ensures table { table_of self.new ≡ table_of self.old }
        ensures fits { OnOk result (Fits (process_by Q.Ratifier) self.old.core) }
        ensures never { OnErr result (¬ Fits (process_by Q.Ratifier) self.old.core) }
        ensures same { OnErr result
            ((self.new ≡ self.old) × (R.stream rng.new ≡ R.stream rng.old)) }
        ensures sends { let A = automaton_by Q.Ratifier bus.now.plan in
            IfOk result (λ answered. IfSome answered
            (λ turn. SendsForRoom (process_by Q.Ratifier) A (tells_by Q.Ratifier) F.step self.old
            go_on turn self.new)) }
        ensures stops { let A = automaton_by Q.Ratifier bus.now.plan in
            IfOk result (λ answered. IfNone answered
            (StopsForRoom (process_by Q.Ratifier) A (tells_by Q.Ratifier) F.step self.old go_on
            self.new)) }
        ensures keeps { let P = process_by Q.Ratifier in IfOk result (λ answered. IfSome answered
            (λ turn. is_refusal turn ≡ true → KeptAfter P self.old turn self.new)) }
        ensures waits { let P = process_by Q.Ratifier in IfOk result (λ answered. IfNone answered
            (waiting_of P self.new ≡ waiting_of P self.old)) }
        ensures puts { let P = process_by Q.Ratifier in
            puts (actions_of P self.new) ≡ puts (actions_of P self.old) }
        ensures draws { DrawsForRoom (process_by Q.Ratifier)
            (automaton_by Q.Ratifier bus.now.plan) (tells_by Q.Ratifier) self.old
            (R.stream rng.old) self.new (R.stream rng.new) }
    {
        threads_may_go_by::<Q>();
        if !self.fits() {
            return Err(NeverFits);
        }
        waiter.reset();
        for _ in waiter.forever() {
            if self.plain_turns(bus, MOST_PLAIN_TURNS) > 0 {
                waiter.carry_on();
                continue;
            }
            let turn = self.next_turns(bus, rng);
            if is_full(turn) {
                if !self.finds_room(waiter, bus, &mut go_on) {
                    return Ok(None);
                }
                continue;
            }
            if ends_sending(turn) {
                waiter.ring();
                return Ok(Some(turn));
            }
            if !is_waiting(turn) {
                waiter.carry_on();
                continue;
            }
            if !go_on() {
                waiter.ring();
                return Ok(None);
            }
            rest_after(turn, waiter);
        }
        unreachable!()
    }

    /// After Full: it rings, and looks until there is room, at most `MOST_LOOKS` times. It asks
    /// before each look, and gives false where it is told to stop.
    fn finds_room<W: Wait, F: FnMut() -> bool>(
        &mut self,
        waiter: &Waiter<'_, W>,
        bus: &Bus<Q>,
        go_on: &mut F,
    ) -> bool
        requires table { table_of self.old ≡ bus.now.table }
        requires callable { F.IsAlwaysCallable go_on.old }
        ensures callable { F.IsAlwaysCallable go_on.new }
        ensures table { table_of self.new ≡ table_of self.old }
        ensures finds { let P = process_by Q.Ratifier in
            let A = automaton_by Q.Ratifier bus.now.plan in let T = tells_by Q.Ratifier in
            IsTrue result → (first : _) (given : F)
            → GoesForRoom P A T F.step first given (Looking 0) self.old go_on.old
            → GoesForRoom P A T F.step first given Turning self.new go_on.new }
        ensures stops { let P = process_by Q.Ratifier in
            let A = automaton_by Q.Ratifier bus.now.plan in let T = tells_by Q.Ratifier in
            result ≡ false → (first : _) (given : F)
            → GoesForRoom P A T F.step first given (Looking 0) self.old go_on.old
            → StopsLooking P A T F.step first given self.new }
        ensures draws { let P = process_by Q.Ratifier in
            let A = automaton_by Q.Ratifier bus.now.plan in let T = tells_by Q.Ratifier in
            (first : _) (given words : Stream)
            → DrawsForRoom P A T first given self.old words
            → DrawsForRoom P A T first given self.new words }
    {
        waiter.ring();
        waiter.reset();
        for _ in 0..MOST_LOOKS {
            if !go_on() {
                return false;
            }
            if self.has_room(bus) {
                waiter.reset();
                return true;
            }
            waiter.rest();
        }
        waiter.reset();
        true
    }
}

/// There was no room.
fn is_full(turn: Turn) -> bool
    ensures full { IsTrue result → turn ≡ Turn.Full }
    ensures other { result ≡ false → turn ≢ Turn.Full }
{
    matches!(turn, Turn::Full)
}
