//! A bell that handles share.

use crate::bells::Bell;
use crate::waiters::{Waiter, Waiting};
use std::alloc::{AllocError, Global};
use std::sync::{Arc, Wait};

/// A handle's share of a bell, and how the calls of that handle wait.
#[derive(Drop)]
pub struct SharedBell {
    bell: Arc<Bell>,
    waiting: Waiting,
}

impl SharedBell {
    /// The first share of a new bell. Its calls sleep.
    pub fn new(alloc: Global) -> Result<SharedBell, AllocError> {
        let bell = Arc::new(alloc, Bell::new())?;
        Ok(SharedBell {
            bell,
            waiting: Waiting::Sleep,
        })
    }

    /// Another share of the same bell. Its calls wait in the same way.
    pub fn again(&self) -> Result<SharedBell, AllocError> {
        let bell = Arc::try_clone(&self.bell)?;
        Ok(SharedBell {
            bell,
            waiting: self.waiting,
        })
    }

    /// The same share, whose calls wait so from now on.
    pub fn with(self, waiting: Waiting) -> SharedBell {
        SharedBell {
            bell: self.bell,
            waiting,
        }
    }

    /// The waiter of one call.
    pub fn waiter<'a, W: Wait>(&'a self, wait: &'a W) -> Waiter<'a, W> {
        let bell: &Bell = &self.bell;
        Waiter::new(wait, self.waiting, bell)
    }

    /// The waiter of one call that asks each time whether to go on.
    pub fn asked<'a, W: Wait>(&'a self, wait: &'a W) -> Waiter<'a, W> {
        let bell: &Bell = &self.bell;
        Waiter::asked(wait, self.waiting, bell)
    }

    /// Tells those that sleep that a call has got somewhere.
    #[inline(always)]
    pub fn ring(&self) {
        let bell: &Bell = &self.bell;
        bell.ring();
    }
}
