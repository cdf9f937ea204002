//! What a turn of a sender answers.

ghost use Rattle.std.specs.Prelude.{Some};
ghost use Rattle.bus_tenure.specs.Text.{turn_text};

use bus_register::SenderNo;
use std::fmt;

/// The answer to one turn of a sender. Tenures count from 0, and message numbers from that with
/// which its sitting began.
///
/// It is written in the words of `replay`, as `lost 2 0` or `delivered 1 0 3`.
#[derive(Clone, Copy, Debug, PartialEq, Eq)]
pub enum Turn {
    /// Nothing is pending, and no mark waits. No step was taken.
    Idle,
    /// The stage shows no tenure that it may enter: another sender holds the page, or it has been
    /// there. Or, where rows are used again, it came too late for a tenure, and looks anew with its
    /// next turn.
    Waiting,
    /// A step was taken, and more are to come.
    Going,
    /// The election of this tenure chose another sender.
    Lost { tenure: u64, owner: SenderNo },
    /// It has taken the page of this tenure.
    Own { tenure: u64 },
    /// Its messages with these numbers, the first and the last, stand in the order.
    Delivered { tenure: u64, first: u64, last: u64 },
    /// Its leave mark stands in the order, by its frame of this tenure: it has left for good.
    Left { tenure: u64 },
    /// Its frame does not fit the log. The messages, or the mark, are kept.
    Full,
    /// The order has ended, or it has closed or left: nothing more is sent.
    Closed,
    /// No tenure of the sitting is left to it: all have ended, or it lost the last one, whose owner
    /// may still end the order.
    Spent,
    /// Where rows are used again: it holds the page, and the presence of this sender names this
    /// tenure, whose row the next tenure is to use. Its next turn loads that presence again.
    Behind { tenure: u64, sender: SenderNo },
}

impl fmt::Display for Turn {
    ghost output = { λ turn. Some (turn_text turn) };

    fn fmt<W: fmt::Write>(&self, f: &mut fmt::Formatter<W>) -> fmt::Result {
        match self {
            Turn::Idle => f.write_str("idle"),
            Turn::Waiting => f.write_str("waiting"),
            Turn::Going => f.write_str("going"),
            Turn::Lost { tenure, owner } => write!(f, "lost {tenure} {}", owner.0),
            Turn::Own { tenure } => write!(f, "own {tenure}"),
            Turn::Delivered {
                tenure,
                first,
                last,
            } => write!(f, "delivered {tenure} {first} {last}"),
            Turn::Left { tenure } => write!(f, "left {tenure}"),
            Turn::Full => f.write_str("full"),
            Turn::Closed => f.write_str("closed"),
            Turn::Spent => f.write_str("spent"),
            Turn::Behind { tenure, sender } => write!(f, "behind {tenure} {}", sender.0),
        }
    }
}
