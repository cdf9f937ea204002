//! What may happen to a bus, and what it answers.

use bus_batch::{CloseFault, PutFault};
use bus_deliverylog::RecvTurn;
use bus_tenure::Turn;

/// What may happen next. Senders and receivers are numbered from 0.
#[derive(Debug, Drop)]
pub enum Event {
    /// A message is put into the sender's batch.
    Put { sender: u64, bytes: Vec<u8> },
    /// The sender is to close the order.
    Close(u64),
    /// The sender is to leave for good.
    Leave(u64),
    /// The sender takes a turn; `word` is the random word of a vote.
    Turn { sender: u64, word: u32 },
    /// The receiver takes a turn.
    Recv(u64),
    /// The sender stops for good. This is no step, and it takes none from then on: a page that it
    /// has stays out. Refused only where there is no such sender, or it has stopped before.
    Stop(u64),
    /// The receiver leaves for good. It is asked nothing from then on, and has no part in what room
    /// there is. Where no word of the log is used again this is no step. Refused only where there
    /// is no such receiver, or it has left before.
    Gone(u64),
}

/// The answer to an event.
#[derive(Debug, Drop)]
pub enum Answer {
    /// The number of the message that was put.
    Number(u64),
    /// The end mark waits at the sender.
    Closing,
    /// The sender's leave mark waits at it.
    Leaving,
    /// What the sender's turn came to.
    Turn(Turn),
    /// What the receiver's turn came to.
    Recv(RecvTurn),
    /// The sender has stopped.
    Stopped,
    /// The receiver has left for good.
    Gone,
}

/// Why an event is refused; of several causes the first counts. A refused event changes nothing.
#[derive(Clone, Copy, Debug, PartialEq, Eq)]
pub enum StepFault {
    NoSuchSender,
    NoSuchReceiver,
    /// The sender has stopped. Looked at before all that waits at it.
    Stopped,
    Put(PutFault),
    /// Of a close or a leave.
    Close(CloseFault),
    /// The receiver has left for good.
    Gone,
    /// Of a fork alone, and looked at before Gone: the number of the new receiver is not above that
    /// of its maker.
    NotAbove,
}

/// The first event that was refused. Those before its place have happened, and no other.
#[derive(Clone, Copy, Debug, PartialEq, Eq)]
pub struct PlayFault {
    pub place: usize,
    pub why: StepFault,
}
