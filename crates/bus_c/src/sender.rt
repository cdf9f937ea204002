//! The handle of a sender, as C has it.
ghost use Rattle.std.specs.Prelude.{◌≡◌, Option, Some, None, MatchOption};
ghost use Rattle.bus_c.specs.Held.{sender_held};
ghost use Rattle.bus_c.specs.declared.seats.SenderSeat.{SenderSeat as Seat};

use crate::parts::Parts;
use crate::seats::SenderSeat;
use std::alloc::Global;
use std::marker::Model;
use std::{mem, ptr};

/// A pointer that only this crate follows, and whether it leads to anything. C starts it as zeros.
#[repr(C)]
pub struct CSender {
    at: *mut u8,
    alloc: Global,
    live: u32,
    pub ghost held: { Option Seat },
}

impl Model for CSender {
    ghost also_owns = { λ s. sender_held s.alloc s.live s.at s.held };
}

impl Drop for CSender {
    fn drop(self) {
        drop(self.into_box());
    }
}

impl CSender {
    /// Puts a box into the handle, and drops what was there.
    pub(crate) fn hold(&mut self, seat: Box<SenderSeat, Global>)
        ensures { self.new.held ≡ Some seat.value }
    {
        *self = CSender::of_parts(Parts::of(seat));
    }

    /// Takes the box out of the handle, which is empty then.
    pub(crate) fn take(&mut self, alloc: Global) -> Option<Box<SenderSeat, Global>>
        ensures was { MatchOption result (self.old.held ≡ None)
            (λ seat. self.old.held ≡ Some seat.value) }
        ensures empty { self.new.held ≡ None }
    {
        mem::replace(self, CSender::empty(alloc)).into_box()
    }

    /// The box that it holds.
    fn into_box(self) -> Option<Box<SenderSeat, Global>>
        ensures { MatchOption result (self.held ≡ None) (λ seat. self.held ≡ Some seat.value) }
    {
        match self.into_parts() {
            Some(parts) => Some(parts.into_box()),
            None => None,
        }
    }

    /// One that holds nothing.
    pub(crate) fn empty(alloc: Global) -> CSender
        ensures { result.held ≡ None }
    {
        CSender {
            at: ptr::null_mut(),
            alloc,
            live: 0,
        }
    }

    /// One that holds the box of these parts.
    pub(crate) fn of_parts(parts: Parts<SenderSeat, Global>) -> CSender
        ensures { result.held ≡ Some parts.value }
    {
        let Parts { ptr, alloc } = parts;
        CSender {
            at: ptr as *mut u8,
            alloc,
            live: 1,
        }
    }

    /// The parts of the box that it holds.
    pub(crate) fn into_parts(self) -> Option<Parts<SenderSeat, Global>>
        ensures { MatchOption result (self.held ≡ None) (λ p. self.held ≡ Some p.value) }
    {
        let CSender { at, alloc, live } = self;
        if live == 0 {
            return None;
        }
        Some(Parts {
            ptr: at as *mut SenderSeat,
            alloc,
        })
    }
}

/// A handle may go to another thread: its seat may.
unsafe impl Send for CSender {}
