//! Answers as plain structs.

ghost use Rattle.std.specs.Prelude.{◌≡◌};
ghost use Rattle.bus_embed.specs.Answers.{turn_code, turn_answer, heard_code, heard_answer};
ghost use Rattle.bus_embed.specs.Answers.{no_item, item_told};

use crate::codes;
use crate::writing::write_over;
use bus_handles::{Item, MOST_BYTES, RecvTurn, Turn};

/// What the answer to a turn of a sender says beside its code; 0 where it says nothing.
#[repr(C)]
#[derive(Clone, Copy, Debug)]
pub struct TurnAnswer {
    /// Of Lost, Own, Delivered, Left and Behind.
    pub tenure: u64,
    /// Of Delivered: the number of the first message.
    pub first: u64,
    /// Of Delivered: the number of the last message.
    pub last: u64,
    /// Of Lost: who was chosen. Of Behind: whose presence it is.
    pub sender: u8,
}

/// A message of the order.
#[repr(C)]
#[derive(Clone, Copy, Debug)]
pub struct HeardItem {
    /// Its number among the messages of its sender, from the base of that on.
    pub number: u64,
    /// Its sender.
    pub sender: u8,
    /// How many bytes it has.
    pub length: u8,
    /// Its bytes, and zeros behind them.
    pub bytes: [u8; MOST_BYTES],
}

/// What the answer to a turn of a receiver says beside its code.
#[repr(C)]
#[derive(Clone, Copy, Debug)]
pub struct HeardAnswer {
    /// Of Head, else 0: the tenure of the frame.
    pub tenure: u64,
    /// Of Head: the sender that owned it. Of Leave: who has left. Else 0.
    pub owner: u8,
    /// Of Item, else of no byte.
    pub item: HeardItem,
}

impl TurnAnswer {
    /// One that says nothing.
    pub fn none() -> TurnAnswer
        ensures { result ≡ record { tenure = 0; first = 0; last = 0; sender = 0 } }
    {
        TurnAnswer {
            tenure: 0,
            first: 0,
            last: 0,
            sender: 0,
        }
    }
}

/// The answer of a sender as a code, and what it says beside.
pub(crate) fn turn_told(turn: Turn) -> (u32, TurnAnswer)
    ensures code { result.0 ≡ turn_code turn }
    ensures answer { result.1 ≡ turn_answer turn }
{
    let none = TurnAnswer::none();
    match turn {
        Turn::Idle => (codes::IDLE, none),
        Turn::Waiting => (codes::WAITING, none),
        Turn::Going => (codes::GOING, none),
        Turn::Lost { tenure, owner } => {
            let sender = owner.0;
            (
                codes::LOST,
                TurnAnswer {
                    tenure,
                    first: 0,
                    last: 0,
                    sender,
                },
            )
        }
        Turn::Own { tenure } => (
            codes::OWN,
            TurnAnswer {
                tenure,
                first: 0,
                last: 0,
                sender: 0,
            },
        ),
        Turn::Delivered {
            tenure,
            first,
            last,
        } => {
            (
                codes::DELIVERED,
                TurnAnswer {
                    tenure,
                    first,
                    last,
                    sender: 0,
                },
            )
        }
        Turn::Left { tenure } => (
            codes::LEFT,
            TurnAnswer {
                tenure,
                first: 0,
                last: 0,
                sender: 0,
            },
        ),
        Turn::Full => (codes::FULL, none),
        Turn::Closed => (codes::CLOSED, none),
        Turn::Spent => (codes::SPENT, none),
        Turn::Behind { tenure, sender } => {
            let sender = sender.0;
            (
                codes::BEHIND,
                TurnAnswer {
                    tenure,
                    first: 0,
                    last: 0,
                    sender,
                },
            )
        }
    }
}

impl HeardItem {
    /// One of no byte, and of the sender and the number 0.
    fn none() -> HeardItem
        ensures { result ≡ no_item }
    {
        HeardItem {
            number: 0,
            sender: 0,
            length: 0,
            bytes: [0; MOST_BYTES],
        }
    }

    /// This message, written in place.
    #[inline(always)]
    pub(crate) fn tell(&mut self, item: &Item)
        ensures { self.new ≡ item_told item.now }
    {
        let message = item.message.as_slice();
        self.number = item.number;
        self.sender = item.sender.0;
        self.length = message.len() as u8;
        self.bytes = [0; MOST_BYTES];
        write_over(message, &mut self.bytes);
    }

    /// This message.
    fn of(item: &Item) -> HeardItem
        ensures { result ≡ item_told item.now }
    {
        let mut told = HeardItem::none();
        told.tell(item);
        told
    }
}

/// The answer of a receiver as a code, and what it says beside.
pub(crate) fn heard_told(turn: RecvTurn) -> (u32, HeardAnswer)
    ensures code { result.0 ≡ heard_code turn }
    ensures answer { result.1 ≡ heard_answer turn }
{
    let item = HeardItem::none();
    let none = HeardAnswer {
        tenure: 0,
        owner: 0,
        item,
    };
    match turn {
        RecvTurn::Going => (codes::GOING, none),
        RecvTurn::Empty => (codes::EMPTY, none),
        RecvTurn::Head { tenure, owner } => {
            (
                codes::HEAD,
                HeardAnswer {
                    tenure,
                    owner: owner.0,
                    item,
                },
            )
        }
        RecvTurn::Item(heard) => {
            let item = HeardItem::of(&heard);
            (
                codes::ITEM,
                HeardAnswer {
                    tenure: 0,
                    owner: 0,
                    item,
                },
            )
        }
        RecvTurn::Leave(sender) => {
            (
                codes::LEAVE,
                HeardAnswer {
                    tenure: 0,
                    owner: sender.0,
                    item,
                },
            )
        }
        RecvTurn::End => (codes::END, none),
    }
}
