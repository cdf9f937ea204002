//! The handle of a receiver, as C has it.
ghost use Rattle.std.specs.Prelude.{◌≡◌, Option, Some, None, MatchOption};
ghost use Rattle.bus_c.specs.Held.{receiver_held};
ghost use Rattle.bus_c.specs.declared.seats.ReceiverSeat.{ReceiverSeat as Seat};

use crate::parts::Parts;
use crate::seats::ReceiverSeat;
use std::alloc::Global;
use std::marker::Model;
use std::{mem, ptr};

/// A pointer that only this crate follows, and whether it leads to anything. C starts it as zeros.
#[repr(C)]
pub struct CReceiver {
    at: *mut u8,
    alloc: Global,
    live: u32,
    pub ghost held: { Option Seat },
}

impl Model for CReceiver {
    ghost also_owns = { λ s. receiver_held s.alloc s.live s.at s.held };
}

impl Drop for CReceiver {
    fn drop(self) {
        drop(self.into_box());
    }
}

impl CReceiver {
    /// Puts a box into the handle, and drops what was there.
    pub(crate) fn hold(&mut self, seat: Box<ReceiverSeat, Global>)
        ensures { self.new.held ≡ Some seat.value }
    {
        *self = CReceiver::of_parts(Parts::of(seat));
    }

    /// Takes the box out of the handle, which is empty then.
    pub(crate) fn take(&mut self, alloc: Global) -> Option<Box<ReceiverSeat, Global>>
        ensures was { MatchOption result (self.old.held ≡ None)
            (λ seat. self.old.held ≡ Some seat.value) }
        ensures empty { self.new.held ≡ None }
    {
        mem::replace(self, CReceiver::empty(alloc)).into_box()
    }

    /// The box that it holds.
    fn into_box(self) -> Option<Box<ReceiverSeat, Global>>
        ensures { MatchOption result (self.held ≡ None) (λ seat. self.held ≡ Some seat.value) }
    {
        match self.into_parts() {
            Some(parts) => Some(parts.into_box()),
            None => None,
        }
    }

    /// One that holds nothing.
    pub(crate) fn empty(alloc: Global) -> CReceiver
        ensures { result.held ≡ None }
    {
        CReceiver {
            at: ptr::null_mut(),
            alloc,
            live: 0,
        }
    }

    /// One that holds the box of these parts.
    pub(crate) fn of_parts(parts: Parts<ReceiverSeat, Global>) -> CReceiver
        ensures { result.held ≡ Some parts.value }
    {
        let Parts { ptr, alloc } = parts;
        CReceiver {
            at: ptr as *mut u8,
            alloc,
            live: 1,
        }
    }

    /// The parts of the box that it holds.
    pub(crate) fn into_parts(self) -> Option<Parts<ReceiverSeat, Global>>
        ensures { MatchOption result (self.held ≡ None) (λ p. self.held ≡ Some p.value) }
    {
        let CReceiver { at, alloc, live } = self;
        if live == 0 {
            return None;
        }
        Some(Parts {
            ptr: at as *mut ReceiverSeat,
            alloc,
        })
    }
}

/// A handle may go to another thread: its seat may.
unsafe impl Send for CReceiver {}
