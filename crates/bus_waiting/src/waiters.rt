//! A waiter: how one call waits, from its first look to its last.

use crate::bells::Bell;
use crate::deadlines::Deadline;
use crossbeam_utils::Backoff;
use std::cell::Cell;
use std::sync::{Forever, Wait};
use std::time::{Clock, Duration};

/// How a thread waits for another.
#[derive(Clone, Copy, Debug, PartialEq, Eq)]
pub enum Waiting {
    /// It keeps its core.
    Spin,
    /// It spins for some pauses, and then offers its core to others at each look.
    Yield,
    /// It spins and yields for some looks, and then sleeps until another handle of the bus has got
    /// somewhere.
    Sleep,
}

/// After so many looks that found nothing a thread sleeps.
pub(crate) const LOOKS_AWAKE: u32 = 40;

/// The longest sleep, in milliseconds. So long a thread may go on sleeping although a sender has
/// got somewhere, if that one was stopped before it rang.
pub const LONGEST_SLEEP: u64 = 100;

/// The longest sleep of a call that asks whether to go on, in milliseconds.
pub const LONGEST_ASKED_SLEEP: u64 = 10;

/// The longest sleep of a thread that waits for what no ring follows, in milliseconds.
pub const LONGEST_PAUSE: u64 = 12;

/// The first pause, in microseconds. Each next one is twice as long, up to the longest.
const FIRST_PAUSE: u64 = 100;

/// Who waits in one call, and how. It is told by `rest` that a turn found nothing, and by `reset`
/// or `carry_on` that one got somewhere.
pub struct Waiter<'a, W> {
    wait: &'a W,
    waiting: Waiting,
    bell: Option<&'a Bell>,
    longest: Cell<Duration>,
    backoff: Backoff,
    /// How often it has rested since a turn got somewhere.
    rests: Cell<u32>,
    /// The count of rings that it has read, while it is signed on.
    seen: Cell<Option<u64>>,
}

impl<'a, W: Wait> Waiter<'a, W> {
    /// It waits so, and its bell is this one.
    pub fn new(wait: &'a W, waiting: Waiting, bell: &'a Bell) -> Waiter<'a, W> {
        Waiter::with(wait, waiting, Some(bell), LONGEST_SLEEP)
    }

    /// The same in a call that asks each time whether to go on: its sleeps are short.
    pub fn asked(wait: &'a W, waiting: Waiting, bell: &'a Bell) -> Waiter<'a, W> {
        Waiter::with(wait, waiting, Some(bell), LONGEST_ASKED_SLEEP)
    }

    /// It spins and then yields, and has no bell.
    pub fn yielding(wait: &'a W) -> Waiter<'a, W> {
        Waiter::with(wait, Waiting::Yield, None, LONGEST_SLEEP)
    }

    pub(crate) fn with(
        wait: &'a W,
        waiting: Waiting,
        bell: Option<&'a Bell>,
        longest: u64,
    ) -> Waiter<'a, W> {
        Waiter {
            wait,
            waiting,
            bell,
            longest: Cell::new(Duration::from_millis(longest)),
            backoff: Backoff::new(),
            rests: Cell::new(0),
            seen: Cell::new(None),
        }
    }

    /// The rounds of a loop that waits.
    pub fn forever(&self) -> Forever<'_, W> {
        self.wait.forever()
    }

    /// A turn got somewhere: the next rest is as short as the first.
    #[inline(always)]
    pub fn reset(&self) {
        self.backoff.reset();
        self.carry_on();
    }

    /// A turn got somewhere, and the call waits on for the same thing: the next rest is no shorter
    /// than the last one was, but for a sleep.
    #[inline(always)]
    pub fn carry_on(&self) {
        if self.rests.get() != 0 {
            self.count_anew();
        }
    }

    #[inline(never)]
    fn count_anew(&self) {
        self.rests.set(0);
        self.sign_off();
    }

    /// A turn found nothing, and what it waits for is rung. It may return for no reason.
    pub fn rest(&self) {
        let rests = self.count_rest();
        self.rest_for(rests, self.longest.get());
    }

    /// A turn found nothing, and no ring follows what it waits for. Before its first sleep it rings
    /// for what it has done itself.
    pub fn pause(&self) {
        let rests = self.count_rest();
        if rests == LOOKS_AWAKE {
            self.ring();
        }
        let doubled = rests.saturating_sub(LOOKS_AWAKE).min(7);
        let longest = Duration::from_micros(FIRST_PAUSE << doubled)
            .min(Duration::from_millis(LONGEST_PAUSE))
            .min(self.longest.get());
        self.rest_for(rests, longest);
    }

    /// Whether there is time left until then. From now on no sleep is longer than that.
    pub fn has_time<C: Clock>(&self, deadline: &Deadline<'_, C>) -> bool {
        let left = deadline.left();
        self.longest.set(self.longest.get().min(left));
        left > Duration::ZERO
    }

    /// Tells those that sleep that its call has got somewhere.
    #[inline(always)]
    pub fn ring(&self) {
        if let Some(bell) = self.bell {
            bell.ring();
        }
    }

    /// How often it had rested before this time.
    fn count_rest(&self) -> u32 {
        let rests = self.rests.get();
        self.rests.set(rests.saturating_add(1));
        rests
    }

    fn rest_for(&self, rests: u32, longest: Duration) {
        match (self.waiting, self.bell) {
            (Waiting::Sleep, Some(bell)) if rests >= LOOKS_AWAKE => self.sleep(bell, longest),
            (Waiting::Spin, _) => self.backoff.spin(),
            _ => self.backoff.snooze(),
        }
    }

    /// The first time it signs on and reads the count, so that its caller looks once more. Each
    /// further time it sleeps while the count is what it read.
    #[inline(never)]
    fn sleep(&self, bell: &Bell, longest: Duration) {
        match self.seen.get() {
            None => bell.sign_on(),
            Some(seen) => bell.sleep(self.wait, seen, longest),
        }
        self.seen.set(Some(bell.rings()));
    }
}

impl<W> Waiter<'_, W> {
    fn sign_off(&self) {
        let seen = self.seen.take();
        if let (Some(_), Some(bell)) = (seen, self.bell) {
            bell.sign_off();
        }
    }
}

/// Who was signed on is signed off.
impl<W> Drop for Waiter<'_, W> {
    fn drop(self) {
        self.sign_off();
        let Self {
            wait: _,
            waiting: _,
            bell: _,
            longest: _,
            backoff: _,
            rests: _,
            seen: _,
        } = self;
    }
}
