//! Senders of a storm, on the bus B: each takes one turn a call, and rests for good after a number
//! of turns.

use crate::send_workers::TurnSender;
use crate::storms::Load;
use bus_pageslot::OfBus;
use bus_receiver::{SenderNo, Turn};
use bus_register::Kind;
use bus_run::buses::TheBus;
use rand_core::Rng;
use rand_pcg::Pcg32;

/// A worker takes no more turns than these.
pub const MOST_TURNS: u64 = 100_000;

/// Nor more one after another that find nothing to do.
const MOST_IDLE: u64 = 2_000;

/// Of so many looks for room one is left out, and a turn taken.
const LOOKS: u32 = 32;

/// Why a worker takes no more turns.
#[derive(Clone, Copy, Debug, PartialEq, Eq)]
pub enum Rest {
    /// It has no more to do.
    Done,
    /// It was refused what it had to do.
    Refused,
    /// It stopped for good, as the dice fell.
    Stopped,
    /// It is a receiver that has left.
    Left,
    /// Its turns were spent.
    GaveUp,
}

/// How many more turns a worker takes.
#[derive(Clone, Copy)]
pub struct Patience {
    /// None where it does not stop.
    stops_in: Option<u64>,
    turns: u64,
    idle: u64,
}

impl Patience {
    /// As many as may be.
    pub fn all() -> Patience {
        Patience {
            stops_in: None,
            turns: MOST_TURNS,
            idle: MOST_IDLE,
        }
    }

    /// As many; but where workers are to stop, one in four stops.
    pub fn cast(dice: &mut Pcg32, is_calm: bool) -> Patience {
        if !is_calm && dice.next_u32() % 4 == 0 {
            Patience::short(dice)
        } else {
            Patience::all()
        }
    }

    /// It stops after some number of turns below 2,048, more often a small one.
    pub fn short(dice: &mut Pcg32) -> Patience {
        let most = 1u32 << (dice.next_u32() % 12);
        Patience {
            stops_in: Some(u64::from(dice.next_u32() % most)),
            ..Patience::all()
        }
    }

    /// Takes a turn off, or says why none is left.
    pub fn spend(&mut self) -> Option<Rest> {
        if self.stops_in == Some(0) {
            return Some(Rest::Stopped);
        }
        if self.turns == 0 || self.idle == 0 {
            return Some(Rest::GaveUp);
        }
        self.stops_in = self.stops_in.map(|turns| turns.saturating_sub(1));
        self.turns -= 1;
        None
    }

    /// The turn has found something to do, or nothing.
    pub fn note(&mut self, is_idle: bool) {
        self.idle = if is_idle {
            self.idle.saturating_sub(1)
        } else {
            MOST_IDLE
        };
    }
}

/// The step of a sender whose presence names a tenure: it has entered one, and has not withdrawn.
fn is_of_pin(kind: Kind) -> bool {
    match kind {
        Kind::LoadStageAgain
        | Kind::Announce
        | Kind::WriteFirst
        | Kind::ReadFirst
        | Kind::WriteSecond
        | Kind::ReadSecond
        | Kind::SetMark
        | Kind::ReadOtherMark
        | Kind::Vote
        | Kind::ReadVotes
        | Kind::Fallback
        | Kind::ReadAnnouncement
        | Kind::TakePage
        | Kind::Withdraw => true,
        Kind::LoadStage
        | Kind::Enter
        | Kind::StoreLogWord
        | Kind::StoreLength
        | Kind::ReadPresence
        | Kind::ClearRow
        | Kind::ReadPassed
        | Kind::GivePageBack
        | Kind::LoadLength
        | Kind::LoadLogWord
        | Kind::StorePassed => false,
    }
}

/// A sender with messages to send.
#[derive(Drop)]
pub struct Teller<B: OfBus> {
    pub send_worker: TurnSender<B>,
    pub rest: Option<Rest>,
    /// It has taken the page and not given it back.
    pub has_page: bool,
    /// Its messages below this number stand in the order, by what it was answered.
    pub delivered: u64,
    /// What its last turn was answered.
    pub last: Option<Turn>,
    /// So many turns were answered Behind.
    pub behinds: u64,
    /// It asked to leave.
    pub has_asked: bool,
    /// It has left, by what it was answered.
    pub has_left: bool,
    /// So many turns were answered Full, of a ring.
    pub fulls: u64,
    /// Of a ring: it was answered Full, and its batch was not sent since.
    pub lacks_room: bool,
    /// Of a ring: it looks for room, and takes no turn.
    is_looking: bool,
    is_ring: bool,
    messages: u64,
    /// It leaves once no more of its messages are left; None where it stays.
    leaves_at: Option<u64>,
    /// It puts no more at once.
    batch: u32,
    patience: Patience,
}

impl<B: OfBus> Teller<B> {
    /// A sender of this load that has not begun. It leaves once no more of its messages are left
    /// than `leaves_at`, if it leaves.
    pub fn new(
        send_worker: TurnSender<B>,
        load: &Load,
        leaves_at: Option<u64>,
        patience: Patience,
    ) -> Teller<B> {
        let delivered = send_worker.sender.next_number();
        Teller {
            send_worker,
            rest: None,
            has_page: false,
            delivered,
            last: None,
            behinds: 0,
            has_asked: false,
            has_left: false,
            fulls: 0,
            lacks_room: false,
            is_looking: false,
            is_ring: load.ring.is_some(),
            messages: load.messages,
            leaves_at,
            batch: load.batch.max(1),
            patience,
        }
    }

    /// All its messages stand in the order.
    pub fn has_sent(&self) -> bool {
        self.messages == 0 && self.delivered == self.send_worker.sender.next_number()
    }

    /// It gave up since it only waited, for as many turns as it may.
    pub fn waited_too_long(&self) -> bool {
        self.rest == Some(Rest::GaveUp) && self.patience.idle == 0
    }

    /// It stopped for good, and its presence names a tenure.
    pub fn stopped_while_pinned(&self) -> bool {
        self.rest == Some(Rest::Stopped) && self.send_worker.sender.kind().is_some_and(is_of_pin)
    }

    /// One turn, unless it rests. Says whether there was nothing to do.
    pub fn turn(&mut self, the: &TheBus<B>, dice: &mut Pcg32) -> bool {
        self.rest = self.patience.spend();
        if self.rest.is_some() {
            return false;
        }
        if self.is_looking && !self.finds_room(the, dice) {
            self.patience.note(true);
            return true;
        }
        if self.send_worker.sender.pending() == 0 {
            self.go_on(dice);
        }
        let turn = self.send_worker.sender.turn(&the.bus, dice.next_u32());
        self.take_in(turn);
        let waits = matches!(turn, Turn::Waiting | Turn::Behind { .. });
        if waits || !self.lacks_room {
            self.patience.note(waits);
        }
        waits
    }

    /// A look finds room, or is left out.
    fn finds_room(&mut self, the: &TheBus<B>, dice: &mut Pcg32) -> bool {
        self.is_looking = dice.next_u32() % LOOKS != 0 && !self.has_room(the);
        !self.is_looking
    }

    /// A look for room.
    pub fn has_room(&mut self, the: &TheBus<B>) -> bool {
        self.send_worker.sender.has_room(&the.bus)
    }

    /// How many words the frame has that is to be sent: each message has two.
    pub fn frame_words(&self) -> u64 {
        let pending = self.send_worker.sender.pending();
        if pending == 0 {
            return 2;
        }
        pending.saturating_mul(2).saturating_add(1)
    }

    /// Asks to leave where it is to, and else puts what it has.
    fn go_on(&mut self, dice: &mut Pcg32) {
        if self.leaves_at.is_some_and(|few| self.messages <= few) {
            self.has_asked |= self.send_worker.sender.leave().is_ok();
        } else {
            self.fill(dice);
        }
    }

    /// Puts one to a batch of the messages that are left.
    fn fill(&mut self, dice: &mut Pcg32) {
        for _ in 0..1 + dice.next_u32() % self.batch.max(1) {
            if self.messages > 0 && self.send_worker.put() {
                self.messages -= 1;
            }
        }
    }

    /// Goes by the answer of a turn.
    fn take_in(&mut self, turn: Turn) {
        self.last = Some(turn);
        match turn {
            Turn::Own { .. } => self.has_page = true,
            Turn::Delivered { last, .. } => {
                self.has_page = false;
                self.lacks_room = false;
                self.delivered = last.saturating_add(1);
            }
            Turn::Left { .. } => {
                self.has_page = false;
                self.lacks_room = false;
                self.has_left = true;
                self.rest = Some(Rest::Done);
            }
            Turn::Full if self.is_ring => {
                self.has_page = false;
                self.lacks_room = true;
                self.is_looking = true;
                self.fulls = self.fulls.saturating_add(1);
            }
            Turn::Full | Turn::Closed | Turn::Spent => {
                self.has_page = false;
                self.rest = Some(Rest::Refused);
            }
            Turn::Idle => self.rest = Some(Rest::Done),
            Turn::Behind { .. } => self.behinds = self.behinds.saturating_add(1),
            Turn::Waiting | Turn::Going | Turn::Lost { .. } => {}
        }
    }

    /// Where it has done all, it closes the bus if it can. Says whether the close was taken.
    pub fn close(&mut self, the: &TheBus<B>, dice: &mut Pcg32) -> bool {
        if self.rest != Some(Rest::Done) || self.send_worker.sender.close().is_err() {
            return false;
        }
        self.patience = Patience::all();
        self.rest = None;
        for _ in 0..=MOST_TURNS {
            if self.rest.is_none() {
                self.turn(the, dice);
            }
        }
        true
    }
}
