//! Workers of a storm that hear, on the bus B. Each begins with one receiver. Now and then it forks
//! one that it holds, and one of several leaves. All that it holds take turns, until it rests.

ghost use Rattle.std.specs.Prelude.{◌≡◌, All, Some};

use crate::storms::Load;
use crate::turn_receivers::{Notes, Pace, Passed, TurnReceiver};
use crate::workers::{Patience, Rest};
use bus_pageslot::OfBus;
use bus_run::buses::{Tap, TheBus};
use rand_core::Rng;
use rand_pcg::Pcg32;
use std::alloc::{AllocError, Global};

/// A worker holds no more receivers at once.
const MOST_HELD: usize = 8;

/// Of so many turns that find nothing one may fork, or have one leave.
const IDLE: u32 = 8;

/// The place of the one that leaves is drawn below this, and behind the last it is the last.
const PLACES: usize = 32;

/// How a worker goes.
#[derive(Clone, Copy)]
struct Gait {
    patience: Patience,
    /// Where it would stop it leaves, with all that it holds.
    leaves: bool,
    /// Of so many turns it forks at one.
    fork_pace: u32,
    /// Of so many turns one of several receivers leaves at one.
    leave_pace: u32,
}

impl Gait {
    /// One in four stops, where workers are to stop. Of a ring one in four leaves, at any moment,
    /// if it may.
    fn cast(dice: &mut Pcg32, load: &Load, may_leave: bool) -> Gait {
        let leaves = load.ring.is_some() && may_leave && dice.next_u32() % 4 == 0;
        let patience = if leaves {
            Patience::short(dice)
        } else {
            Patience::cast(dice, load.is_calm)
        };
        Gait {
            patience,
            leaves,
            fork_pace: seldom(dice),
            leave_pace: seldom(dice),
        }
    }
}

/// Of how many turns something happens at one: 8 to 256.
fn seldom(dice: &mut Pcg32) -> u32 {
    1u32 << (3 + dice.next_u32() % 6)
}

/// A worker with the receivers that it holds, and all that these were given.
#[derive(Drop)]
pub struct Hearer<B: OfBus> {
    /// None of these has left, unless the worker has.
    pub receivers: Vec<TurnReceiver<B>>,
    pub notes: Notes,
    pub rest: Option<Rest>,
    /// So many of its receivers have left.
    pub gone: u64,
    /// So many were forked off others.
    pub forks: u64,
    /// So many forks found each number taken.
    pub refused: u64,
    gait: Gait,
}

impl<B: OfBus> Hearer<B> {
    /// A worker of this receiver, that has not begun.
    fn new(alloc: Global, receiver: TurnReceiver<B>, gait: Gait) -> Result<Hearer<B>, AllocError> {
        let mut receivers = Vec::with_capacity(alloc, MOST_HELD)?;
        receivers.push(receiver)?;
        Ok(Hearer {
            receivers,
            notes: Notes::new(alloc)?,
            rest: None,
            gone: 0,
            forks: 0,
            refused: 0,
            gait,
        })
    }

    /// A turn of each of its receivers that draws one, unless it rests. Says whether there was
    /// nothing to do.
    pub fn turn(&mut self, the: &TheBus<B>, dice: &mut Pcg32) -> bool {
        let mut is_due = false;
        for receiver in self.receivers.iter_mut() {
            is_due |= receiver.draw(dice);
        }
        if !is_due {
            return false;
        }
        self.rest = self.gait.patience.spend();
        if self.rest == Some(Rest::Stopped) && self.gait.leaves {
            self.leave(the);
        }
        if self.rest.is_some() {
            return false;
        }
        let is_idle = all_hear(the, &mut self.receivers, &mut self.notes);
        self.gait.patience.note(is_idle);
        if !is_idle || dice.next_u32() % IDLE == 0 {
            self.change(the, dice);
        }
        self.rest_if_ended();
        is_idle
    }

    /// Forks one of its receivers, and has one of several leave, as the dice fall.
    fn change(&mut self, the: &TheBus<B>, dice: &mut Pcg32) {
        if dice.next_u32() % self.gait.fork_pace.max(1) == 0 {
            self.fork(the, dice);
        }
        if dice.next_u32() % self.gait.leave_pace.max(1) == 0 {
            self.leave_by_one(the, dice);
        }
    }

    /// Forks one of its receivers, unless it holds as many as it may.
    fn fork(&mut self, the: &TheBus<B>, dice: &mut Pcg32) {
        let held = self.receivers.len();
        if held >= MOST_HELD {
            return;
        }
        let place = dice.next_u32() as usize % held.max(1);
        let Some(receiver) = self.receivers.get_mut(place) else {
            return;
        };
        let made = receiver.fork(the, Pace::cast_of_fork(dice));
        match made {
            Some(made) => {
                self.forks = self.forks.saturating_add(1);
                self.notes.is_sound &= self.receivers.push(made).is_ok();
            }
            None => self.refused = self.refused.saturating_add(1),
        }
    }

    /// One of several receivers leaves, unless that one was given the end. Mostly it is the last:
    /// others have lower numbers, so that their forks may take the one that it had.
    fn leave_by_one(&mut self, the: &TheBus<B>, dice: &mut Pcg32) {
        let held = self.receivers.len();
        if held < 2 {
            return;
        }
        let place = (dice.next_u32() as usize % PLACES).min(held - 1);
        let one = self.receivers.get(place);
        if one.is_some_and(|receiver| receiver.hears_on()) {
            let receiver = self.receivers.swap_remove(place);
            let_go(the, receiver);
            self.gone = self.gone.saturating_add(1);
        }
    }

    /// Leaves for good, with all its receivers.
    fn leave(&mut self, the: &TheBus<B>) {
        for receiver in self.receivers.iter_mut() {
            receiver.leave(the);
            self.gone = self.gone.saturating_add(1);
        }
        self.rest = Some(Rest::Left);
    }

    /// It has done all where each of its receivers was given the end.
    fn rest_if_ended(&mut self) {
        if !self.receivers.iter().any(|receiver| receiver.hears_on()) {
            self.rest = Some(Rest::Done);
        }
    }

    /// Unless it stopped or has left, its receivers go on to the end of the log.
    pub fn catch_up(&mut self, the: &TheBus<B>) {
        if !matches!(self.rest, Some(Rest::Stopped | Rest::Left)) {
            all_catch_up(the, &mut self.receivers, &mut self.notes);
            self.rest_if_ended();
        }
    }

    /// Where the first of its receivers stands that have passed least; none where it has left.
    pub fn floor(&self) -> Option<Passed> {
        let mut least: Option<Passed> = None;
        for receiver in self.receivers.iter() {
            let before = match least {
                Some(floor) => floor.words,
                None => u64::MAX,
            };
            match receiver.floor() {
                Some(floor) if floor.words < before => least = Some(floor),
                _ => {}
            }
        }
        least
    }

    /// The words of the log from this place on, loaded by one of its receivers that has passed it.
    pub fn words(
        &mut self,
        alloc: Global,
        the: &TheBus<B>,
        floor: u64,
    ) -> Result<Vec<u64>, AllocError> {
        for receiver in self.receivers.iter_mut() {
            if receiver.floor().is_some_and(|own| own.words == floor) {
                return receiver.words(alloc, the, floor);
            }
        }
        Ok(Vec::new(alloc))
    }

    /// The tap of the first of its receivers, unless it has left.
    pub fn take_tap(&mut self) -> Option<Tap>
        ensures { (held : _) → result ≡ Some held → held.table_id ≡ B.table }
    {
        for receiver in self.receivers.iter_mut() {
            if let Some(tap) = receiver.take_tap() {
                return Some(tap);
            }
        }
        None
    }
}

/// A turn of each of these receivers that is due. Says whether none found anything.
fn all_hear<B: OfBus>(
    the: &TheBus<B>,
    receivers: &mut Vec<TurnReceiver<B>>,
    notes: &mut Notes,
) -> bool {
    let mut is_idle = true;
    for receiver in receivers.iter_mut() {
        is_idle &= receiver.hear_if_due(the, notes);
    }
    is_idle
}

/// These receivers go on to the end of the log.
fn all_catch_up<B: OfBus>(
    the: &TheBus<B>,
    receivers: &mut Vec<TurnReceiver<B>>,
    notes: &mut Notes,
) {
    for receiver in receivers.iter_mut() {
        receiver.catch_up(the, notes);
    }
}

/// A worker for each receiver of a sitting, in order, but for the spare ones, which leave at once:
/// so their numbers are free. The first worker does not leave.
pub fn hearers_of<B: OfBus>(
    alloc: Global,
    the: &TheBus<B>,
    taps: Vec<Tap>,
    dice: &mut Pcg32,
    load: &Load,
) -> Result<Vec<Hearer<B>>, AllocError>
    requires { All (λ tap. tap.table_id ≡ B.table) taps.items }
{
    let mut hearers = Vec::with_capacity(alloc, taps.len())?;
    let mut rest = taps.len() as u64;
    let mut spares = load.spares;
    for tap in taps {
        let is_spare = u64::from(dice.next_u32()) % rest.max(1) < spares;
        let pace = if load.ring.is_some() {
            Pace::cast(dice)
        } else {
            Pace::full()
        };
        let receiver = TurnReceiver::new(tap, pace, load.after.as_ref());
        rest = rest.saturating_sub(1);
        if is_spare {
            let_go(the, receiver);
            spares = spares.saturating_sub(1);
        } else {
            let gait = Gait::cast(dice, load, !hearers.is_empty());
            hearers.push(Hearer::new(alloc, receiver, gait)?)?;
        }
    }
    Ok(hearers)
}

/// This receiver leaves.
fn let_go<B: OfBus>(the: &TheBus<B>, mut receiver: TurnReceiver<B>) {
    receiver.leave(the);
}
