//! A sitting whose workers yield, sleep a random while, fork, leave, or stop for good.

ghost use Rattle.std.specs.Prelude.{◌≡◌, All};
ghost use Rattle.bus_pageslot.specs.Seats.{table_of};

use crate::hearers::{Hearer, hearers_of};
use crate::rings::Rings;
use crate::send_workers::turn_senders_of;
use crate::settling::settle;
use crate::workers::{MOST_TURNS, Patience, Teller};
use bus_pageslot::OfBus;
use bus_receiver::{Page, SenderNo};
use bus_register::limits::{MOST_RECEIVERS, MOST_SENDERS};
use bus_run::buses::{Bus, Sender, Tap, TheBus};
use rand_core::Rng;
use rand_pcg::Pcg32;
use std::alloc::{AllocError, Global};
use std::thread;
use std::thread::Threads;
use std::time::{Clock, Duration};

/// Runs in a row that have all shapes: 1 to 8 senders with 1 to 8 receivers, and 9, 16, 17, 33 and
/// 64 senders, each with another number of receivers.
pub const SHAPES: u64 = 69;

/// What is asked of a sitting.
#[derive(Clone, Copy)]
pub struct Load {
    pub senders: u64,
    /// So many workers hear.
    pub receivers: u64,
    pub messages: u64,
    /// So many threads at most, each of which plays its workers by turns.
    pub hands: u64,
    /// Nobody stops, and there are words for all.
    pub is_calm: bool,
    /// So many of the senders leave, the last ones: in a calm sitting once all their messages are
    /// sent, and else at any moment.
    pub leavers: u64,
    /// A sender puts no more at once.
    pub batch: u32,
    /// So many words of the log, where it is a ring.
    pub ring: Option<u64>,
    /// Of a ring: so many receivers more leave at the start.
    pub spares: u64,
    /// The page with whose numbers the sitting goes on.
    pub after: Option<Page>,
}

impl Load {
    /// The number of each sender's first message.
    pub fn bases(&self) -> [u64; MOST_SENDERS] {
        match self.after {
            Some(page) => page.next,
            None => [0; MOST_SENDERS],
        }
    }

    /// With how many messages left this sender leaves; None where it stays.
    fn leaves_at(&self, sender: SenderNo, dice: &mut Pcg32) -> Option<u64> {
        if u64::from(sender.0).saturating_add(self.leavers) < self.senders {
            None
        } else if self.is_calm {
            Some(0)
        } else {
            Some(u64::from(dice.next_u32()) % self.messages.saturating_add(1).max(1))
        }
    }
}

/// A sitting that is over.
#[derive(Clone, Copy)]
pub struct Sitting {
    pub tale: Tale,
    /// The page that its bus left, where its order has ended: the next sitting goes on with it.
    pub page: Option<Page>,
}

/// What came of a run: of a sitting, or of several in a row.
#[derive(Clone, Copy)]
pub struct Tale {
    pub sittings: u64,
    /// How many workers stopped for good.
    pub stops: u64,
    /// How many of these are senders whose presence names a tenure.
    pub stops_while_pinned: u64,
    /// How many turns were answered Behind.
    pub behinds: u64,
    /// How many workers spent their turns in vain.
    pub gave_up: u64,
    /// How many of these are senders that were behind another to the last.
    pub stuck: u64,
    /// How many senders have left.
    pub left: u64,
    /// How many receivers were forked off others.
    pub forks: u64,
    /// The page was out at its end.
    pub is_out: bool,
    /// Nobody was to stop.
    pub is_calm: bool,
    /// Nobody was to stop, and all was sent and heard, and audited where nobody left.
    pub is_whole: bool,
    /// How many items its order has.
    pub items: u64,
    /// The tenure of the last frame of its longest log, from 1 on; 0 where there is none.
    pub last_tenure: u64,
    /// Those of its sittings whose log is a ring.
    pub rings: Rings,
}

impl Tale {
    /// With the sitting that went on after it.
    pub fn and(self, next: Tale) -> Tale {
        Tale {
            sittings: self.sittings.saturating_add(next.sittings),
            stops: self.stops.saturating_add(next.stops),
            stops_while_pinned: self
                .stops_while_pinned
                .saturating_add(next.stops_while_pinned),
            behinds: self.behinds.saturating_add(next.behinds),
            gave_up: self.gave_up.saturating_add(next.gave_up),
            stuck: self.stuck.saturating_add(next.stuck),
            left: self.left.saturating_add(next.left),
            forks: self.forks.saturating_add(next.forks),
            is_out: self.is_out || next.is_out,
            is_calm: self.is_calm && next.is_calm,
            is_whole: self.is_whole && next.is_whole,
            items: self.items.saturating_add(next.items),
            last_tenure: self.last_tenure.max(next.last_tenure),
            rings: self.rings.and(next.rings),
        }
    }
}

/// Workers that one thread plays by turns.
#[derive(Drop)]
struct Hand<B: OfBus> {
    tellers: Vec<Teller<B>>,
    hearers: Vec<Hearer<B>>,
    dice: Pcg32,
    /// No other thread plays workers of this sitting.
    is_alone: bool,
}

/// The senders of the run under this seed.
pub fn senders_of(seed: u64) -> u64 {
    match seed % SHAPES {
        64 => 9,
        65 => 16,
        66 => 17,
        67 => 33,
        68 => 64,
        shape => 1 + shape % 8,
    }
}

/// The receivers of the run under this seed. Of many senders they are 12, 25, 38, 51 and 64 in the
/// first runs of all shapes, and one fewer in the next.
pub fn receivers_of(seed: u64) -> u64 {
    match seed % SHAPES {
        shape @ 64.. => {
            MOST_RECEIVERS - (13 * (SHAPES - 1 - shape) + seed / SHAPES) % MOST_RECEIVERS
        }
        shape => 1 + shape / 8,
    }
}

/// The sitting on this bus, which is B.
pub fn sit_on<B: OfBus + Send + Sync, R: Threads + Clock + Sync>(
    rt: &R,
    alloc: Global,
    made: (Bus, Vec<Sender>, Vec<Tap>),
    load: Load,
    dice: &mut Pcg32,
) -> anyhow::Result<Sitting>
    requires bus { made.0.table ≡ B.table }
    requires senders { All (λ sender. table_of sender ≡ B.table) made.1.items }
    requires taps { All (λ tap. tap.table_id ≡ B.table) made.2.items }
{
    let (bus, senders, taps) = made;
    let the = TheBus::<B>::new(bus);
    let mut tellers = Vec::with_capacity(alloc, senders.len())?;
    for send_worker in turn_senders_of::<B>(alloc, senders)? {
        let patience = Patience::cast(dice, load.is_calm);
        let leaves_at = load.leaves_at(send_worker.sender.number(), dice);
        tellers.push(Teller::new(send_worker, &load, leaves_at, patience))?;
    }
    let hearers = hearers_of::<B>(alloc, &the, taps, dice, &load)?;
    let hands = deal(alloc, load, tellers, hearers, dice)?;
    let hands = thread::map_vec(rt, hands, &|hand| play(rt, &the, hand))?;
    let (mut tellers, mut hearers) = gather(alloc, hands)?;
    all_catch_up(&the, &mut hearers);
    for teller in tellers.iter_mut() {
        if teller.close(&the, dice) {
            break;
        }
    }
    all_catch_up(&the, &mut hearers);
    settle(alloc, the, tellers, hearers, load)
}

/// All receivers go on to the end of the log, but for those that stopped or have left.
fn all_catch_up<B: OfBus>(the: &TheBus<B>, hearers: &mut [Hearer<B>]) {
    for hearer in hearers.iter_mut() {
        hearer.catch_up(the);
    }
}

/// Deals the workers to so many hands, those that send from the first hand on, and those that hear
/// from the last.
fn deal<B: OfBus>(
    alloc: Global,
    load: Load,
    tellers: Vec<Teller<B>>,
    hearers: Vec<Hearer<B>>,
    dice: &mut Pcg32,
) -> Result<Vec<Hand<B>>, AllocError> {
    let mut hands = Vec::new(alloc);
    for stream in 0..load.hands {
        hands.push(Hand {
            tellers: Vec::new(alloc),
            hearers: Vec::new(alloc),
            dice: Pcg32::new(u64::from(dice.next_u32()), stream),
            is_alone: load.hands == 1,
        })?;
    }
    let many = hands.len().max(1);
    for (place, teller) in tellers.into_iter().enumerate() {
        if let Some(hand) = hands.get_mut(place % many) {
            hand.tellers.push(teller)?;
        }
    }
    for (place, hearer) in hearers.into_iter().enumerate() {
        if let Some(hand) = hands.get_mut(many - 1 - place % many) {
            hand.hearers.push(hearer)?;
        }
    }
    Ok(hands)
}

/// Turns of the workers of a hand as the dice fall, until all rest.
fn play<B: OfBus, R: Clock>(rt: &R, the: &TheBus<B>, mut hand: Hand<B>) -> Hand<B> {
    let is_alone = hand.is_alone;
    for _ in 0..4 * MOST_TURNS {
        let mut is_at_work = false;
        for teller in hand.tellers.iter_mut() {
            if teller.rest.is_none() {
                is_at_work = true;
                let is_due = pause(rt, &mut hand.dice, is_alone);
                let is_idle = is_due && teller.turn(the, &mut hand.dice);
                yield_if(is_idle && !is_alone);
            }
        }
        for hearer in hand.hearers.iter_mut() {
            if hearer.rest.is_none() {
                is_at_work = true;
                let is_due = pause(rt, &mut hand.dice, is_alone);
                let is_idle = is_due && hearer.turn(the, &mut hand.dice);
                yield_if(is_idle && !is_alone);
            }
        }
        if !is_at_work {
            return hand;
        }
    }
    hand
}

/// At one call in eight lets others run, and at one in 64 sleeps up to 100 microseconds, unless it
/// is alone. Says, for one call in two, that a turn is due.
fn pause<R: Clock>(rt: &R, dice: &mut Pcg32, is_alone: bool) -> bool {
    match dice.next_u32() % 64 {
        _ if is_alone => {}
        0 => thread::sleep(rt, Duration::from_micros(u64::from(dice.next_u32() % 101))),
        1..9 => thread::yield_now(),
        _ => {}
    }
    dice.next_u32() % 2 == 0
}

/// Lets others run.
fn yield_if(is_idle: bool) {
    if is_idle {
        thread::yield_now();
    }
}

/// The workers of all hands.
fn gather<B: OfBus>(
    alloc: Global,
    hands: Vec<Hand<B>>,
) -> Result<(Vec<Teller<B>>, Vec<Hearer<B>>), AllocError> {
    let mut tellers = Vec::new(alloc);
    let mut hearers = Vec::new(alloc);
    for hand in hands {
        let Hand {
            tellers: some,
            hearers: others,
            ..
        } = hand;
        for teller in some {
            tellers.push(teller)?;
        }
        for hearer in others {
            hearers.push(hearer)?;
        }
    }
    Ok((tellers, hearers))
}
