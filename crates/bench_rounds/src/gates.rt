//! The gate that all workers of a round stand at until the last has been started.

use bus_waiting::Waiter;
use std::sync::Wait;
use std::sync::atomic::{AtomicBool, AtomicU64, Ordering};
use std::time::{Clock, Instant};

/// A gate, shut at first. All loops of a round look at whether it was given up.
#[derive(Drop)]
pub struct Gate {
    arrived: AtomicU64,
    is_open: AtomicBool,
    given_up: AtomicBool,
}

impl Gate {
    pub fn new() -> Gate {
        Gate {
            arrived: AtomicU64::new(0),
            is_open: AtomicBool::new(false),
            given_up: AtomicBool::new(false),
        }
    }

    /// A worker arrives, and waits until the gate is open. On false the round was given up.
    pub fn pass<W: Wait>(&self, wait: &W) -> bool {
        self.arrived.fetch_add(1, Ordering::SeqCst);
        let waiter = Waiter::yielding(wait);
        for _ in waiter.forever() {
            if self.is_given_up() {
                return false;
            }
            if self.is_open.load(Ordering::SeqCst) {
                return true;
            }
            waiter.rest();
        }
        unreachable!()
    }

    /// Waits until so many workers have arrived, opens the gate, and gives the instant before.
    /// Where there is none, as the round was given up or the clock could not be read, it is given
    /// up.
    pub fn open<R: Wait + Clock>(&self, rt: &R, workers: u64) -> Option<Instant> {
        if !self.wait_for(rt, workers) {
            return None;
        }
        let opened = Instant::now(rt).ok();
        if opened.is_none() {
            self.give_up();
        }
        self.is_open.store(true, Ordering::SeqCst);
        opened
    }

    /// Waits until so many workers have arrived. On false the round was given up.
    fn wait_for<W: Wait>(&self, wait: &W, workers: u64) -> bool {
        let waiter = Waiter::yielding(wait);
        for _ in waiter.forever() {
            if self.is_given_up() {
                return false;
            }
            if self.arrived.load(Ordering::SeqCst) >= workers {
                return true;
            }
            waiter.rest();
        }
        unreachable!()
    }

    /// Gives the round up: no worker waits any longer.
    pub fn give_up(&self) {
        self.given_up.store(true, Ordering::SeqCst);
    }

    pub fn is_given_up(&self) -> bool {
        self.given_up.load(Ordering::SeqCst)
    }
}
