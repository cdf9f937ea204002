//! What the pointers of handles lead to. Seats may lie one behind another while threads use them at
//! once. The room of each keeps their handles apart: no two of these share a line of memory of 64
//! bytes.

ghost use Rattle.std.specs.Prelude.{◌≡◌, Some};
ghost use Rattle.bus_c.specs.Opened.{holds, hears};

use bus_embed::{ReceiverHandle, SenderHandle, ThreeWord};

/// A sender with its bus.
#[derive(Drop)]
pub struct SenderSeat {
    pub handle: SenderHandle<ThreeWord>,
    pub room: [u64; 8],
}

/// A receiver with its bus.
#[derive(Drop)]
pub struct ReceiverSeat {
    pub handle: ReceiverHandle<ThreeWord>,
    pub room: [u64; 8],
}

/// The seat of this sender.
pub(crate) fn seat_sender(handle: SenderHandle<ThreeWord>) -> SenderSeat
    ensures { Some result ≡ holds handle }
{
    SenderSeat {
        handle,
        room: [0; 8],
    }
}

/// The seat of this receiver.
pub(crate) fn seat_receiver(handle: ReceiverHandle<ThreeWord>) -> ReceiverSeat
    ensures { Some result ≡ hears handle }
{
    ReceiverSeat {
        handle,
        room: [0; 8],
    }
}
