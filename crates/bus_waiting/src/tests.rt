//! No wake-up is lost, in whichever order a sleeper and a ringer take their steps.

use crate::waiters::LOOKS_AWAKE;
use crate::{Bell, Waiter, Waiting};
use std::process::Abort;
use std::sync::Wait;
use std::sync::atomic::AtomicU64;
use std::sync::atomic::Ordering::SeqCst;
use std::thread::{Threads, join, sleep, yield_now};
use std::time::{Clock, Duration, Instant};

/// No thread takes a step so late.
const LAST: u64 = 8;

/// Whoever lost a wake-up sleeps so long, in seconds.
const LOST: u64 = 20;

/// What two threads share, of which one at a time takes a step. The tick says whose is next.
#[derive(Drop)]
struct Stage {
    bell: Bell,
    flag: AtomicU64,
    tick: AtomicU64,
}

/// Waits until the next step is one of these. Behind the last step nobody waits.
fn stop<R: Wait>(rt: &R, stage: &Stage, mine: u64) {
    for _ in rt.forever() {
        let tick = stage.tick.load(SeqCst);
        if tick >= LAST || (mine >> tick) & 1 == 1 {
            return;
        }
        yield_now();
    }
}

/// This step is taken.
fn go_on(stage: &Stage) {
    stage.tick.fetch_add(1, SeqCst);
}

/// Signs on, reads the count, looks, and sleeps where it found nothing; and stops before each.
fn sleeper<R: Wait>(rt: &R, stage: &Stage, mine: u64) {
    stop(rt, stage, mine);
    stage.bell.sign_on();
    go_on(stage);
    stop(rt, stage, mine);
    let rings = stage.bell.rings();
    go_on(stage);
    stop(rt, stage, mine);
    let found = stage.flag.load(SeqCst) != 0;
    go_on(stage);
    stop(rt, stage, mine);
    go_on(stage);
    if !found {
        stage.bell.sleep(rt, rings, Duration::from_secs(LOST));
    }
    sleep_on(rt, stage);
    stage.bell.sign_off();
}

/// Sleeps until it finds the flag: a sleep may have ended for no reason.
fn sleep_on<R: Wait>(rt: &R, stage: &Stage) {
    for _ in rt.forever() {
        let rings = stage.bell.rings();
        if stage.flag.load(SeqCst) != 0 {
            return;
        }
        stage.bell.sleep(rt, rings, Duration::from_secs(LOST));
    }
}

/// The same by a waiter, which signs on and reads the count in one call.
fn waits<R: Wait>(rt: &R, stage: &Stage, mine: u64) {
    let longest = LOST * 1000;
    let waiter = Waiter::with(rt, Waiting::Sleep, Some(&stage.bell), longest);
    for _ in 0..LOOKS_AWAKE {
        waiter.rest();
    }
    stop(rt, stage, mine);
    waiter.rest();
    go_on(stage);
    stop(rt, stage, mine);
    let found = stage.flag.load(SeqCst) != 0;
    go_on(stage);
    stop(rt, stage, mine);
    go_on(stage);
    if !found {
        waiter.rest();
    }
    rest_on(&waiter, &stage.flag);
}

/// Rests until it finds the flag.
fn rest_on<R: Wait>(waiter: &Waiter<'_, R>, flag: &AtomicU64) {
    for _ in waiter.forever() {
        if flag.load(SeqCst) != 0 {
            return;
        }
        waiter.rest();
    }
}

/// Does what the sleeper waits for, looks who sleeps, counts and wakes; and stops before each.
fn ringer<R: Wait>(rt: &R, stage: &Stage, mine: u64) {
    stop(rt, stage, mine);
    stage.flag.store(1, SeqCst);
    go_on(stage);
    stop(rt, stage, mine);
    let heard = stage.bell.has_sleepers();
    go_on(stage);
    stop(rt, stage, mine);
    if heard {
        stage.bell.count();
    }
    go_on(stage);
    stop(rt, stage, mine);
    if heard {
        stage.bell.wake();
    }
    go_on(stage);
}

/// Who sleeps takes the steps of these ticks, and the ringer the others. Says whether nobody was
/// left asleep.
fn in_order<R: Threads + Wait + Clock + Sync>(rt: &R, ticks: u64, by_waiter: bool) -> bool {
    let stage = Stage {
        bell: Bell::new(),
        flag: AtomicU64::new(0),
        tick: AtomicU64::new(0),
    };
    let Ok(begin) = Instant::now(rt) else {
        return false;
    };
    let sleeps = || {
        if by_waiter {
            waits(rt, &stage, ticks);
        } else {
            sleeper(rt, &stage, ticks);
        }
    };
    join(rt, sleeps, || ringer(rt, &stage, !ticks));
    let took = begin.elapsed(rt);
    !stage.bell.has_sleepers() && took.is_ok_and(|took| took.as_secs() < LOST / 2)
}

/// Goes through all orders in which who sleeps takes so many steps, and a ringer its four, and
/// counts them. Below `end` are all choices of ticks.
fn all_orders<R: Threads + Wait + Clock + Abort + Sync>(
    rt: &R,
    steps: u32,
    end: u64,
    by_waiter: bool,
) -> u32 {
    let mut orders = 0_u32;
    for ticks in 0..end {
        if ticks.count_ones() == steps {
            assert!(rt; in_order(rt, ticks, by_waiter), "steps at {ticks:b}");
            orders = orders.saturating_add(1);
        }
    }
    orders
}

#[test]
fn no_wake_up_is_lost(rt: HostRuntime) {
    assert_eq!(&rt; all_orders(&rt, 4, 1 << 8, false), 70);
}

#[test]
fn no_waiter_is_left_asleep(rt: HostRuntime) {
    assert_eq!(&rt; all_orders(&rt, 3, 1 << 7, true), 35);
}

/// A thread rests until it finds the flag, which another raises and rings for.
fn rests<R: Threads + Wait + Clock + Sync>(rt: &R, waiting: Waiting) -> bool {
    let (bell, flag) = (Bell::new(), AtomicU64::new(0));
    join(
        rt,
        || {
            sleep(rt, Duration::from_millis(2));
            flag.store(1, SeqCst);
            bell.ring();
        },
        || rest_for(rt, waiting, &bell, &flag),
    );
    !bell.has_sleepers()
}

fn rest_for<R: Wait>(rt: &R, waiting: Waiting, bell: &Bell, flag: &AtomicU64) {
    rest_on(&Waiter::new(rt, waiting, bell), flag);
}

#[test]
fn whoever_rested_is_signed_off(rt: HostRuntime) {
    for waiting in [Waiting::Spin, Waiting::Yield, Waiting::Sleep] {
        assert!(rt; rests(&rt, waiting));
    }
}
