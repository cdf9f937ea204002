//! Random schedules of a bus and a machine.

use crate::both::{Answered, Both, leave_the_same};
use crate::games::{Game, Seats, play_on, play_ring};
use bus_adoptcommit::ThreeWord;
use bus_machine::World;
use bus_replay::lines::FirstLine;
use bus_world::{Event, Shape};
use rand_core::Rng;
use rand_pcg::Pcg32;
use std::process::Abort;
use std::sync::Wait;
use std::thread::Threads;

/// More turns than three senders of one message each need.
const MOST_TURNS: u32 = 10_000;

/// So many turns of two senders in a row do not go on where both wait or have no more to do.
const MOST_IDLE: u32 = 24;

/// A random number below this one.
fn below(dice: &mut Pcg32, most: u32) -> u32 {
    dice.next_u32() % most.max(1)
}

/// Something happens: a put or several, up to so many, a close, a leave, some turns of a sender, or
/// some of a receiver. In one time of 200 a sender stops, and in one a receiver leaves for good.
/// Where there may be several puts there may be as many more turns, up to one that does not go on:
/// of a receiver always, and of a sender in one time of two.
fn happens<R: Abort + AllocGlobal>(rt: &R, both: &mut Both<'_>, dice: &mut Pcg32, puts: u32) {
    let sender = u64::from(below(dice, 8)) % both.many().max(1);
    let receiver = u64::from(below(dice, 4)) % both.hearing().max(1);
    match below(dice, 200) {
        0..60 => {
            let more = if puts > 1 { below(dice, puts) } else { 0 };
            for _ in 0..=more {
                let bytes = bytes(rt, dice);
                both.take(rt, &Event::Put { sender, bytes });
            }
        }
        60..64 => {
            both.take(rt, &Event::Close(sender));
        }
        64..70 => {
            both.take(rt, &Event::Leave(sender));
        }
        70 => {
            both.take(rt, &Event::Stop(sender));
        }
        71 => {
            both.take(rt, &Event::Gone(receiver));
        }
        72..170 => turns(rt, both, dice, sender, puts),
        _ => {
            for _ in 0..below(dice, 12u32.saturating_mul(puts)) {
                let goes_on = both.take(rt, &Event::Recv(receiver));
                if puts > 1 && !goes_on {
                    return;
                }
            }
        }
    }
}

/// Some turns of a sender.
fn turns(rt: &impl Abort, both: &mut Both<'_>, dice: &mut Pcg32, sender: u64, puts: u32) {
    let is_long = puts > 1 && below(dice, 2) == 0;
    let more = if is_long { puts } else { 1 };
    for _ in 0..below(dice, 24u32.saturating_mul(more)) {
        let word = dice.next_u32();
        let goes_on = both.take(rt, &Event::Turn { sender, word });
        if is_long && !goes_on {
            return;
        }
    }
}

/// At most 60 random bytes, which may be more than a message has.
fn bytes<R: Abort + AllocGlobal>(rt: &R, dice: &mut Pcg32) -> Vec<u8> {
    let mut bytes = Vec::new(rt.alloc());
    for _ in 0..below(dice, 61) {
        let byte = (dice.next_u32() % 256) as u8;
        bytes.push(byte).expect(rt, "memory");
    }
    bytes
}

/// All senders take turns until the page is at home, or until no turn goes on.
fn come_home(rt: &impl Abort, both: &mut Both<'_>, dice: &mut Pcg32) {
    let mut idle = 0u64;
    for _ in 0..400 {
        for sender in 0..both.many() {
            if both.world.page().is_some() || idle / 4 > both.many() {
                return;
            }
            let word = dice.next_u32();
            let goes_on = both.take(rt, &Event::Turn { sender, word });
            idle = if goes_on { 0 } else { idle.saturating_add(1) };
        }
    }
}

/// A shape of few tenures and a log that may fill up.
fn shape(dice: &mut Pcg32) -> Shape {
    Shape {
        senders: 1 + u64::from(below(dice, 8)),
        receivers: 1 + u64::from(below(dice, 3)),
        rounds: 1 + u64::from(below(dice, 3)),
        rows: 2 + u64::from(below(dice, 7)),
        log_words: 16 + u64::from(below(dice, 150)),
        batch: 16,
    }
}

/// The shape of a ring of 1 to 64 messages a batch, of which the longest may never fit.
fn ring_shape(dice: &mut Pcg32) -> Shape {
    Shape {
        log_words: 16 + u64::from(below(dice, 600)),
        batch: 1 + u64::from(below(dice, 64)),
        ..shape(dice)
    }
}

/// What all schedules came to, so that it is seen that enough happened.
#[derive(Default, Drop)]
struct Sum {
    items: u64,
    left: u64,
    ended: u64,
    lost: u64,
    out: u64,
}

/// A bus and a machine to which random events happen.
#[derive(Drop)]
struct Random {
    first: FirstLine,
    dice: Pcg32,
    /// So many puts happen at once, at most.
    puts: u32,
    world: Option<World<ThreeWord>>,
    answered: Answered,
}

impl Random {
    /// The game of a bus that a first line asks for.
    fn new(first: FirstLine, dice: Pcg32, puts: u32) -> Random {
        Random {
            first,
            dice,
            puts,
            world: None,
            answered: Answered::default(),
        }
    }
}

impl Game for Random {
    fn play<R: Threads + Wait + Abort + AllocGlobal + Sync>(&mut self, rt: &R, seats: Seats<'_>) {
        let mut both = Both::new(rt, self.first, seats);
        for _ in 0..100 {
            happens(rt, &mut both, &mut self.dice, self.puts);
        }
        come_home(rt, &mut both, &mut self.dice);
        let (world, answered) = both.into_world();
        self.world = Some(world);
        self.answered = answered;
    }
}

/// The game of this seed, with a row for each tenure or with rows that are used again.
fn game_of(seed: u64) -> Random {
    let mut dice = Pcg32::new(seed, 1);
    let shape = shape(&mut dice);
    let first = if seed % 2 == 0 {
        FirstLine::Shape(shape)
    } else {
        FirstLine::Cycle(shape)
    };
    Random::new(first, dice, 1)
}

/// Adds what a schedule came to.
fn add<R: Abort + AllocGlobal>(rt: &R, sum: &mut Sum, world: &World<ThreeWord>, is_home: bool) {
    let order = world.order(rt.alloc()).expect(rt, "memory");
    sum.left = sum.left.saturating_add(order.left.len() as u64);
    sum.items = sum.items.saturating_add(order.items.len() as u64);
    sum.ended = sum.ended.saturating_add(u64::from(order.ended));
    sum.out = sum.out.saturating_add(u64::from(!is_home));
}

/// A bus and a machine of a random shape leave the same behind.
fn schedule<R: Threads + Wait + Abort + AllocGlobal + Sync>(rt: &R, seed: u64, sum: &mut Sum) {
    let mut game = game_of(seed);
    let left = play_on(rt, game.first, &mut game);
    sum.lost = sum.lost.saturating_add(game.answered.lost);
    let world = game.world.expect(rt, "a machine");
    let is_home = leave_the_same(rt, &left, &world);
    add(rt, sum, &world, is_home);
}

/// A thousand random schedules of up to eight senders and three receivers.
#[test]
fn bus_like_world(rt: HostRuntime) {
    let mut sum = Sum::default();
    for seed in 0..1000 {
        schedule(&rt, seed, &mut sum);
    }
    assert!(rt; sum.items > 1000, "{} items", sum.items);
    assert!(rt; sum.left > 100, "{} leave marks", sum.left);
    assert!(rt; sum.ended > 100, "{} orders that ended", sum.ended);
    assert!(rt; sum.lost > 100, "{} tenures lost", sum.lost);
    assert!(rt; sum.out > 10, "{} pages out", sum.out);
}

/// What all schedules of rings came to.
#[derive(Default, Drop)]
struct RingSum {
    /// Rings whose words were used again.
    over: u64,
    /// Rings of which a tenure delivered as many messages as a batch may have.
    filled: u64,
    /// The same, where these are more than 16.
    long: u64,
    full: u64,
    lost: u64,
}

/// A ring and a machine of a random shape answer the same.
fn ring_schedule<R: Threads + Wait + Abort + AllocGlobal + Sync>(
    rt: &R,
    seed: u64,
    sum: &mut RingSum,
) {
    let mut dice = Pcg32::new(seed, 2);
    let shape = ring_shape(&mut dice);
    let seats = shape.receivers;
    let mut game = Random::new(FirstLine::Ring { shape, seats }, dice, 40);
    play_ring(rt, shape, &mut game);
    let Answered { lost, full, most } = game.answered;
    let world = game.world.expect(rt, "a machine");
    let words = world.page().map_or(0, |page| page.words);
    let is_filled = most == shape.batch;
    sum.over = sum.over.saturating_add(u64::from(words > shape.log_words));
    sum.filled = sum.filled.saturating_add(u64::from(is_filled));
    sum.long = sum.long.saturating_add(u64::from(is_filled && most > 16));
    sum.full = sum.full.saturating_add(full);
    sum.lost = sum.lost.saturating_add(lost);
}

/// Random schedules of rings, of up to eight senders and three receivers.
#[test]
fn ring_like_world(rt: HostRuntime) {
    let mut sum = RingSum::default();
    for seed in 0..100 {
        ring_schedule(&rt, seed, &mut sum);
    }
    assert!(rt; sum.over > 10, "{} rings used over", sum.over);
    assert!(rt; sum.filled > 10, "{} rings with a full batch", sum.filled);
    assert!(rt; sum.long > 5, "{} of these longer than 16", sum.long);
    assert!(rt; sum.full > 10, "{} answers of no room", sum.full);
    assert!(rt; sum.lost > 10, "{} tenures lost", sum.lost);
}

/// Three senders, of which the first stops after so many turns, while dice say who is next. Says
/// whether it has: else no step was left for it.
fn zero_stops(rt: &impl Abort, both: &mut Both<'_>, dice: &mut Pcg32, steps: u32) -> bool {
    let mut left = steps;
    for _ in 0..MOST_TURNS {
        if left == 0 {
            both.take(rt, &Event::Stop(0));
            return true;
        }
        if both.rests(0) {
            return false;
        }
        let sender = u64::from(below(dice, 3));
        let word = dice.next_u32();
        both.take(rt, &Event::Turn { sender, word });
        if sender == 0 {
            left -= 1;
        }
    }
    panic!(rt; "a sender has too many steps")
}

/// The other two go on until no turn does, and the receiver hears all that there is.
fn two_go_on(rt: &impl Abort, both: &mut Both<'_>, dice: &mut Pcg32) {
    let mut idle = 0u32;
    for _ in 0..400 {
        let sender = 1 + u64::from(below(dice, 2));
        let word = dice.next_u32();
        let goes_on = both.take(rt, &Event::Turn { sender, word });
        idle = if goes_on { 0 } else { idle.saturating_add(1) };
        if idle == MOST_IDLE {
            break;
        }
    }
    for _ in 0..99 {
        if !both.take(rt, &Event::Recv(0)) {
            return;
        }
    }
}

/// Three senders with a message each, of which the first stops after so many steps.
#[derive(Drop)]
struct Stopping {
    first: FirstLine,
    dice: Pcg32,
    steps: u32,
    /// None where it never took so many.
    world: Option<World<ThreeWord>>,
}

impl Game for Stopping {
    fn play<R: Threads + Wait + Abort + AllocGlobal + Sync>(&mut self, rt: &R, seats: Seats<'_>) {
        let mut both = Both::new(rt, self.first, seats);
        for sender in 0..3 {
            let bytes = Vec::from_slice(rt.alloc(), b"a").expect(rt, "memory");
            both.take(rt, &Event::Put { sender, bytes });
        }
        if !zero_stops(rt, &mut both, &mut self.dice, self.steps) {
            return;
        }
        two_go_on(rt, &mut both, &mut self.dice);
        let (world, _) = both.into_world();
        self.world = Some(world);
    }
}

/// Under this schedule sender 0 of three stops after so many steps. Says whether the page is at
/// home then; none where it never takes so many.
fn stops_after<R: Threads + Wait + Abort + AllocGlobal + Sync>(
    rt: &R,
    seed: u64,
    steps: u32,
) -> Option<bool> {
    let mut game = Stopping {
        first: FirstLine::Shape(THREE),
        dice: Pcg32::new(seed, 0),
        steps,
        world: None,
    };
    let left = play_on(rt, game.first, &mut game);
    let world = game.world?;
    Some(leave_the_same(rt, &left, &world))
}

/// Three senders and a receiver.
const THREE: Shape = Shape {
    senders: 3,
    receivers: 1,
    rounds: 2,
    rows: 4,
    log_words: 64,
    batch: 16,
};

#[test]
fn one_of_three_stops_after_each_step(rt: HostRuntime) {
    let (mut out, mut home) = (0u32, 0u32);
    for seed in 0..100 {
        for steps in 1..MOST_TURNS {
            match stops_after(&rt, seed, steps) {
                Some(true) => home = home.saturating_add(1),
                Some(false) => out = out.saturating_add(1),
                None => break,
            }
        }
    }
    assert!(&rt; out > 0 && home > 0, "{out} pages out, {home} home");
}
