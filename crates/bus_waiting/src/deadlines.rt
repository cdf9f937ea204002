//! Until when a call waits.

use std::time::{Clock, Duration, Instant};

/// So long from a moment on, by the clock of the system that never goes back. Where that cannot be
/// read, the time is over.
#[derive(Drop)]
pub struct Deadline<'a, C> {
    clock: &'a C,
    began: Option<Instant>,
    time: Duration,
}

impl<'a, C: Clock> Deadline<'a, C> {
    /// So long from now.
    pub fn after(clock: &'a C, time: Duration) -> Deadline<'a, C> {
        Deadline {
            clock,
            began: Instant::now(clock).ok(),
            time,
        }
    }

    /// How long there is until then; zero where the time is over.
    pub fn left(&self) -> Duration {
        match (self.began, Instant::now(self.clock)) {
            (Some(began), Ok(now)) => self.time.saturating_sub(now.duration_since(began)),
            _ => Duration::ZERO,
        }
    }
}
