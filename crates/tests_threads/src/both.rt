//! A bus, and a machine that plays events: whatever happens to both, both answer the same. In the
//! machine's place a list of answers would say less: what the machine answers is proved, and
//! `examples/` has its answers as texts.

ghost use Rattle.std.specs.Prelude.{◌≡◌};
ghost use Rattle.bus_pageslot.specs.Seats.{table_of};
ghost use Rattle.bus_receiver.specs.Listening.{bus_of};

mod calls;

use crate::games::Seats;
use bus_adoptcommit::ThreeWord;
use bus_core::SenderCore;
use bus_deliverylog::RecvTurn;
use bus_machine::World;
use bus_pageslot::{Bus, EndFault, Ended, Sender, Tap};
use bus_receiver::Receiver;
use bus_register::SenderNo;
use bus_replay::answers::new_bus;
use bus_replay::lines::FirstLine;
use bus_replay::playing::goes_on;
use bus_tenure::Turn;
use bus_world::{Answer, Event, StepFault};
use std::alloc::Global;
use std::marker::Model;
use std::process::Abort;

/// A sender, beside its bus.
#[derive(Drop)]
pub struct BusSender<'b> {
    bus: &'b Bus<ThreeWord>,
    sender: Sender<ThreeWord>,
}

impl<'b> Model for BusSender<'b> {
    ghost use Rattle.std.specs.Prelude.{◌≡◌};
    ghost use Rattle.atomic_table.specs.Seated.{TableId};
    ghost use Rattle.bus_pageslot.specs.Seats.{table_of};

    ghost Value = { TableId };

    ghost view = { λ d. table_of d.sender };

    ghost invariant = { λ d. table_of d.sender ≡ d.bus.now.table };
}

impl<'b> BusSender<'b> {
    pub fn new(bus: &'b Bus<ThreeWord>, sender: Sender<ThreeWord>) -> BusSender<'b>
        requires { table_of sender ≡ bus.now.table }
    {
        BusSender { bus, sender }
    }

    pub fn put(&mut self, bytes: &[u8]) -> Result<Answer, StepFault> {
        match self.sender.put(bytes) {
            Ok(number) => Ok(Answer::Number(number)),
            Err(fault) => Err(StepFault::Put(fault)),
        }
    }

    pub fn close(&mut self) -> Result<Answer, StepFault> {
        match self.sender.close() {
            Ok(()) => Ok(Answer::Closing),
            Err(fault) => Err(StepFault::Close(fault)),
        }
    }

    pub fn leave(&mut self) -> Result<Answer, StepFault> {
        match self.sender.leave() {
            Ok(()) => Ok(Answer::Leaving),
            Err(fault) => Err(StepFault::Close(fault)),
        }
    }

    pub fn turn(&mut self, word: u32) -> Turn {
        let bus = self.bus;
        self.sender.turn(bus, word)
    }

    /// It tells what this sender of a machine does.
    fn tells(&self, rt: &impl Abort, core: &SenderCore<ThreeWord>) {
        tells_steps(rt, &self.sender, core);
        tells_numbers(rt, &self.sender, core);
        tells_marks(rt, &self.sender, core);
    }
}

/// Both tell the same of the next step.
fn tells_steps(rt: &impl Abort, sender: &Sender<ThreeWord>, core: &SenderCore<ThreeWord>) {
    assert!(rt; sender.kind() == core.kind());
    assert!(rt; sender.turns_left() == core.turns_left());
    assert!(rt; sender.wants_word() == core.wants_word());
}

/// Both tell the same of numbers and messages.
fn tells_numbers(rt: &impl Abort, sender: &Sender<ThreeWord>, core: &SenderCore<ThreeWord>) {
    assert!(rt; sender.number() == core.number());
    assert!(rt; sender.pending() == core.pending());
    assert!(rt; sender.next_number() == core.next_number());
}

/// Both tell the same of a close and of a leave.
fn tells_marks(rt: &impl Abort, sender: &Sender<ThreeWord>, core: &SenderCore<ThreeWord>) {
    assert!(rt; sender.is_closed() == core.is_closed());
    assert!(rt; sender.is_leaving() == core.is_leaving());
}

/// A receiver, beside its bus.
#[derive(Drop)]
pub struct BusReceiver<'b> {
    bus: &'b Bus<ThreeWord>,
    receiver: Receiver<ThreeWord>,
}

impl<'b> Model for BusReceiver<'b> {
    ghost use Rattle.std.specs.Prelude.{◌≡◌};
    ghost use Rattle.atomic_table.specs.Seated.{TableId};
    ghost use Rattle.bus_receiver.specs.Listening.{bus_of};

    ghost Value = { TableId };

    ghost view = { λ e. bus_of e.receiver };

    ghost invariant = { λ e. bus_of e.receiver ≡ e.bus.now.table };
}

impl<'b> BusReceiver<'b> {
    pub fn new(bus: &'b Bus<ThreeWord>, tap: Tap<ThreeWord>) -> BusReceiver<'b>
        requires { tap.table_id ≡ bus.now.table }
    {
        BusReceiver {
            bus,
            receiver: Receiver::new(tap),
        }
    }

    pub fn turn(&mut self) -> RecvTurn {
        let bus = self.bus;
        self.receiver.turn(bus)
    }

    /// Leaves for good.
    fn leave(self) {
        let BusReceiver { bus, receiver } = self;
        let _ = receiver.leave(bus);
    }
}

/// What turns of senders were answered.
#[derive(Clone, Copy, Default, Drop)]
pub struct Answered {
    /// How often tenures were lost.
    pub lost: u64,
    /// How often a batch had no room.
    pub full: u64,
    /// The most messages that were delivered at once.
    pub most: u64,
}

impl Answered {
    /// Takes an answer in.
    fn note(&mut self, turn: &Turn) {
        match turn {
            Turn::Lost { .. } => self.lost = self.lost.saturating_add(1),
            Turn::Full => self.full = self.full.saturating_add(1),
            Turn::Delivered { first, last, .. } => {
                let many = last.saturating_sub(*first).saturating_add(1);
                self.most = self.most.max(many);
            }
            _ => {}
        }
    }
}

/// The seats of a bus and a machine of one shape, and what turns were answered.
#[derive(Drop)]
pub struct Both<'b> {
    /// None where a sender has stopped: it is dropped.
    senders: Vec<Option<BusSender<'b>>>,
    /// None where a receiver has left for good.
    receivers: Vec<Option<BusReceiver<'b>>>,
    pub world: World<ThreeWord>,
    answered: Answered,
}

impl<'b> Both<'b> {
    /// These seats of the bus that a first line asks for, and the machine that it asks for.
    pub fn new<R: Abort + AllocGlobal>(rt: &R, first: FirstLine, seats: Seats<'b>) -> Both<'b> {
        let Seats { senders, receivers } = seats;
        let mut both = Both {
            senders: Vec::new(rt.alloc()),
            receivers: Vec::new(rt.alloc()),
            world: machine(rt, rt.alloc(), first),
            answered: Answered::default(),
        };
        for sender in senders {
            both.senders.push(Some(sender)).expect(rt, "memory");
        }
        for receiver in receivers {
            both.receivers.push(Some(receiver)).expect(rt, "memory");
        }
        both
    }

    /// The machine, and what turns were answered. The seats are dropped.
    pub fn into_world(self) -> (World<ThreeWord>, Answered) {
        let Both {
            world,
            answered,
            ..
        } = self;
        (world, answered)
    }

    /// How many senders there are.
    pub fn many(&self) -> u64 {
        self.senders.len() as u64
    }

    /// How many receivers take turns.
    pub fn hearing(&self) -> u64 {
        self.receivers.len() as u64
    }

    /// What the bus answers.
    fn answer(&mut self, event: &Event) -> Result<Answer, StepFault> {
        match event {
            Event::Put { sender, .. }
            | Event::Close(sender)
            | Event::Leave(sender)
            | Event::Turn { sender, .. }
            | Event::Stop(sender) => match self.senders.get_mut(*sender as usize) {
                Some(found) => answer_of(found, event),
                None => Err(StepFault::NoSuchSender),
            },
            Event::Recv(receiver) | Event::Gone(receiver) => {
                match self.receivers.get_mut(*receiver as usize) {
                    Some(found) => heard_by(found, event),
                    None => Err(StepFault::NoSuchReceiver),
                }
            }
        }
    }

    /// The event happens to both, which answer the same and tell the same of the sender. Says
    /// whether the answer goes on.
    pub fn take(&mut self, rt: &impl Abort, event: &Event) -> bool {
        let want = self.world.step(event);
        let got = self.answer(event);
        assert!(rt; is_same(&got, &want), "{event:?}: {got:?}, not {want:?}");
        if let Event::Put { sender, .. } | Event::Turn { sender, .. } = event {
            self.see(rt, *sender);
        }
        if let Ok(Answer::Turn(turn)) = &got {
            self.answered.note(turn);
        }
        match got {
            Ok(answer) => goes_on(&answer),
            Err(_) => false,
        }
    }

    /// What a sender tells between its turns is what the machine tells of it.
    fn see(&self, rt: &impl Abort, sender: u64) {
        let core = self.world.sender(SenderNo((sender % 256) as u8));
        if let Some(Some(found)) = self.senders.get(sender as usize) {
            found.tells(rt, core.expect(rt, "a sender of the machine"));
        }
    }

    /// The next step of this sender is for nothing: it has none.
    pub fn rests(&self, sender: u8) -> bool {
        match self.world.sender(SenderNo(sender)) {
            Some(core) => core.kind().is_none(),
            None => true,
        }
    }
}

/// What a sender answers, which is none once it has stopped.
fn answer_of(found: &mut Option<BusSender<'_>>, event: &Event) -> Result<Answer, StepFault> {
    let Some(sender) = found else {
        return Err(StepFault::Stopped);
    };
    match event {
        Event::Put { bytes, .. } => sender.put(bytes),
        Event::Close(_) => sender.close(),
        Event::Leave(_) => sender.leave(),
        Event::Turn { word, .. } => Ok(Answer::Turn(sender.turn(*word))),
        _ => {
            *found = None;
            Ok(Answer::Stopped)
        }
    }
}

/// What a receiver answers, which is none once it has left.
fn heard_by(found: &mut Option<BusReceiver<'_>>, event: &Event) -> Result<Answer, StepFault> {
    if matches!(event, Event::Gone(_)) {
        let Some(receiver) = found.take() else {
            return Err(StepFault::Gone);
        };
        receiver.leave();
        return Ok(Answer::Gone);
    }
    match found {
        Some(receiver) => Ok(Answer::Recv(receiver.turn())),
        None => Err(StepFault::Gone),
    }
}

/// The bus answers what the machine does.
fn is_same(got: &Result<Answer, StepFault>, want: &Result<Answer, StepFault>) -> bool {
    match (got, want) {
        (Ok(Answer::Number(got)), Ok(Answer::Number(want))) => got == want,
        (Ok(Answer::Closing), Ok(Answer::Closing)) => true,
        (Ok(Answer::Leaving), Ok(Answer::Leaving)) => true,
        (Ok(Answer::Stopped), Ok(Answer::Stopped)) => true,
        (Ok(Answer::Turn(got)), Ok(Answer::Turn(want))) => got == want,
        (Ok(Answer::Recv(got)), Ok(Answer::Recv(want))) => got == want,
        (Ok(Answer::Gone), Ok(Answer::Gone)) => true,
        (Err(got), Err(want)) => got == want,
        _ => false,
    }
}

/// The machine that a first line asks for.
fn machine(rt: &impl Abort, alloc: Global, first: FirstLine) -> World<ThreeWord> {
    let Ok(world) = new_bus::<ThreeWord>(alloc, first) else {
        panic!(rt; "memory");
    };
    world
}

/// What the bus leaves is what the machine has: its log and its page, and no page where one is out.
/// Says whether it is at home.
pub fn leave_the_same<R: Abort + AllocGlobal>(
    rt: &R,
    left: &Result<Ended, EndFault>,
    world: &World<ThreeWord>,
) -> bool {
    match (left, world.page()) {
        (Ok(ended), Some(page)) => {
            let log = world.log(rt.alloc()).expect(rt, "memory");
            assert!(rt; ended.log() == log.as_slice());
            assert!(rt; ended.page() == page);
            true
        }
        (left, page) => {
            assert!(rt;
                left.is_err() && page.is_none(),
                "the page is out of one alone"
            );
            false
        }
    }
}
