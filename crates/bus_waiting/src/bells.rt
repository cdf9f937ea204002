//! A bell: an event count, on which threads sleep until another has got somewhere.

use std::sync::Wait;
use std::sync::atomic::AtomicU64;
use std::sync::atomic::Ordering::SeqCst;
use std::time::Duration;

/// A count of rings, and how many threads may sleep until the next one. To ring it costs one load
/// where nobody sleeps.
///
/// Who sleeps registers, reads the count, looks once more for what it waits for, and sleeps only
/// while the count is what it read. Who rings has done before what others wait for. So either it
/// sees the sleeper, and counts, or the sleeper's last look sees what was done.
#[derive(Drop)]
pub struct Bell {
    rings: AtomicU64,
    sleepers: AtomicU64,
}

impl Bell {
    pub const fn new() -> Bell {
        Bell {
            rings: AtomicU64::new(0),
            sleepers: AtomicU64::new(0),
        }
    }

    /// Wakes all threads that sleep here, and keeps those awake that have registered and are about
    /// to sleep. Call it after what they wait for.
    #[inline(always)]
    pub fn ring(&self) {
        if self.has_sleepers() {
            self.ring_out();
        }
    }

    /// A thread may sleep here.
    #[inline(always)]
    pub(crate) fn has_sleepers(&self) -> bool {
        self.sleepers.load(SeqCst) != 0
    }

    #[cold]
    fn ring_out(&self) {
        self.count();
        self.wake();
    }

    /// From here on nobody goes to sleep on the count as it was.
    pub(crate) fn count(&self) {
        self.rings.fetch_add(1, SeqCst);
    }

    pub(crate) fn wake(&self) {
        self.rings.wake_all();
    }

    /// The calling thread may sleep from now on. Ends with `sign_off`.
    pub(crate) fn sign_on(&self) {
        self.sleepers.fetch_add(1, SeqCst);
    }

    pub(crate) fn sign_off(&self) {
        self.sleepers.fetch_sub(1, SeqCst);
    }

    /// The count of rings.
    pub(crate) fn rings(&self) -> u64 {
        self.rings.load(SeqCst)
    }

    /// Sleeps while the count is this one, and no longer than that. It may end for no reason.
    pub(crate) fn sleep<W: Wait>(&self, wait: &W, rings: u64, longest: Duration) {
        self.rings
            .park_timeout(wait, (rings & 0xffff_ffff) as u32, longest);
    }
}

impl Default for Bell {
    fn default() -> Bell {
        Bell::new()
    }
}
