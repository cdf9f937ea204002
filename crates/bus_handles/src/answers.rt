//! What sending and ending came to, as a Result.

ghost use Rattle.std.specs.Prelude.{◌≡◌, ◌≢◌, true, Some, IfOk, IfErr, OnOk};
ghost use Rattle.bus_tenure.specs.Classes.{is_last};
ghost use Rattle.bus_handles.specs.Answers.{delivered_turn, IsWhy};
ghost use Rattle.bus_handles.specs.Texts.{not_delivered_text, order_not_ended_text};
ghost use Rattle.bus_handles.specs.Texts.{bus_not_ended_text, fork_fault_text, ring_fault_text};

use bus_batch::CloseFault;
use bus_tenure::Turn;
use bus_world::MakeFault;
use std::error::Error;
use std::fmt;

/// The messages of a sender from the first number to the last one stand in the order, in the frame
/// of this tenure.
#[derive(Clone, Copy, Debug, PartialEq, Eq)]
pub struct Delivered {
    pub tenure: u64,
    pub first: u64,
    pub last: u64,
}

/// Why no message was delivered.
#[derive(Clone, Copy, Debug, PartialEq, Eq)]
pub enum NotDelivered {
    /// Nothing was pending.
    Idle,
    /// Its leave mark stands in the order, by its frame of this tenure: it has left for good.
    Left { tenure: u64 },
    /// The frame does not fit the log. The batch is kept. Of a ring some receiver has still to pass
    /// words, or the batch is longer than the log. `deliver` never says NeverFits.
    Full,
    /// The order has ended, by this sender or another, or this sender had left before.
    Closed,
    /// No tenure is left to this sender. The batch is kept.
    Spent,
    /// The batch is longer than the log, so that no wait for room would end. The batch is kept.
    NeverFits,
}

impl Error for NotDelivered {}

impl fmt::Display for NotDelivered {
    ghost output = { λ why. Some (not_delivered_text why) };

    fn fmt<W: fmt::Write>(&self, f: &mut fmt::Formatter<W>) -> fmt::Result {
        f.write_str(match self {
            NotDelivered::Idle => "nothing is delivered: no message waits",
            NotDelivered::Left { .. } => "nothing is delivered: the sender has left",
            NotDelivered::Full => "nothing is delivered: the log is full",
            NotDelivered::Closed => {
                "nothing is delivered: the order has ended, or the sender has left"
            }
            NotDelivered::Spent => "nothing is delivered: all rows are spent",
            NotDelivered::NeverFits => "nothing is delivered: the batch is longer than the log",
        })
    }
}

/// Why the order was not ended by this call.
#[derive(Clone, Copy, Debug, PartialEq, Eq)]
pub enum OrderNotEnded {
    /// The close was not taken, and nothing has changed.
    Close(CloseFault),
    /// The end mark waits, and this is what sending it was answered.
    Turn(Turn),
}

impl Error for OrderNotEnded {}

impl fmt::Display for OrderNotEnded {
    ghost output = { λ why. Some (order_not_ended_text why) };

    fn fmt<W: fmt::Write>(&self, f: &mut fmt::Formatter<W>) -> fmt::Result {
        match self {
            OrderNotEnded::Close(why) => write!(f, "the close is not taken: {why}"),
            OrderNotEnded::Turn(answer) => write!(f, "the close is not sent: {answer}"),
        }
    }
}

/// Why a bus was not ended.
#[derive(Clone, Copy, Debug, PartialEq, Eq)]
pub enum BusNotEnded {
    /// Other handles have the bus still.
    InUse,
    /// A sender that took the page has not given it back.
    PageOut,
}

impl Error for BusNotEnded {}

impl fmt::Display for BusNotEnded {
    ghost output = { λ why. Some (bus_not_ended_text why) };

    fn fmt<W: fmt::Write>(&self, f: &mut fmt::Formatter<W>) -> fmt::Result {
        f.write_str(match self {
            BusNotEnded::InUse => "other handles have the bus still",
            BusNotEnded::PageOut => "a sender has not given the page back",
        })
    }
}

/// Why no ring was opened.
#[derive(Clone, Copy, Debug, PartialEq, Eq)]
pub enum RingFault {
    /// No such bus is made.
    Make(MakeFault),
    /// Its log has fewer words than its longest frame, which is 1 + 8 B, where a batch has at most
    /// B messages: 513 where that is 64. So no batch is longer than the log of a ring.
    ShortLog,
}

impl Error for RingFault {}

impl fmt::Display for RingFault {
    ghost output = { λ why. Some (ring_fault_text why) };

    fn fmt<W: fmt::Write>(&self, f: &mut fmt::Formatter<W>) -> fmt::Result {
        match self {
            RingFault::Make(why) => why.fmt(f),
            RingFault::ShortLog => {
                f.write_str("a ring shorter than its longest frame: one word, and eight a message")
            }
        }
    }
}

/// Why no receiver was forked off another.
#[derive(Clone, Copy, Debug, PartialEq, Eq)]
pub enum ForkFault {
    /// Each number of the ring above its own was taken when it was tried. Another receiver may
    /// leave. Of a bus that is no ring it is never said.
    NoSeat,
    /// By the code, the bus or its bell has too many shares. Nothing has changed.
    NoMemory,
}

impl Error for ForkFault {}

impl fmt::Display for ForkFault {
    ghost output = { λ why. Some (fork_fault_text why) };

    fn fmt<W: fmt::Write>(&self, f: &mut fmt::Formatter<W>) -> fmt::Result {
        f.write_str(match self {
            ForkFault::NoSeat => "each number above the receiver's own was taken",
            ForkFault::NoMemory => "no memory",
        })
    }
}

/// A last answer of a sender: what was delivered, or why nothing was.
pub fn answered(turn: Turn) -> Result<Delivered, NotDelivered>
    requires { is_last turn ≡ true }
    ensures delivered { IfOk result (λ done. turn ≡ delivered_turn done) }
    ensures not_delivered { IfErr result (λ why. IsWhy turn why) }
{
    match turn {
        Turn::Delivered {
            tenure,
            first,
            last,
        } => Ok(Delivered {
            tenure,
            first,
            last,
        }),
        Turn::Idle => Err(NotDelivered::Idle),
        Turn::Left { tenure } => Err(NotDelivered::Left { tenure }),
        Turn::Full => Err(NotDelivered::Full),
        Turn::Closed => Err(NotDelivered::Closed),
        Turn::Spent => Err(NotDelivered::Spent),
        Turn::Waiting | Turn::Going | Turn::Lost { .. } | Turn::Own { .. } => unreachable!(),
        Turn::Behind { .. } => unreachable!(),
    }
}

/// The last answer to a close that was sent, as a Result.
pub(crate) fn order_ended(turn: Turn) -> Result<(), OrderNotEnded>
    ensures ended { OnOk result (turn ≡ Turn.Closed) }
    ensures not_ended { IfErr result
        (λ why. (why ≡ OrderNotEnded.Turn turn) × (turn ≢ Turn.Closed)) }
{
    match turn {
        Turn::Closed => Ok(()),
        other => Err(OrderNotEnded::Turn(other)),
    }
}
