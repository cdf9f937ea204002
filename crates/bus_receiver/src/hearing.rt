//! A listener that counts what a receiver was given.

ghost use Rattle.std.specs.Prelude.{◌≡◌, ◌+◌, ◌<◌, ◌&&◌, ◌==◌, Some};
ghost use Rattle.std.specs.Prelude.{slice_get, slice_index, slice_set, true, false};

use bus_batch::Item;
use bus_deliverylog::RecvTurn;
use bus_register::SenderNo;
use bus_register::limits::MOST_SENDERS;
use bus_tenure::Page;
use std::marker::Model;

/// A listener: it counts the items of each sender and notes who has left. It refuses an item that
/// is not the next of its sender or cannot be counted, all of one that has left, and after the end
/// all but the end.
#[derive(Debug, Drop)]
pub struct Heard {
    bases: [u64; MOST_SENDERS],
    counts: [u64; MOST_SENDERS],
    items: u64,
    left: [bool; MOST_SENDERS],
    ended: bool,
}

impl Model for Heard {
    ghost use Rattle.std.specs.Prelude.{◌≡◌, sum as total};
    ghost use Rattle.bus_receiver.specs.Hearing.{Hearing};

    ghost Value = { Hearing };

    ghost view = { λ h. record {
      bases = h.bases;
      counts = h.counts;
      items = h.items;
      left = h.left;
      ended = h.ended;
    } };

    ghost invariant = { λ h. total h.counts ≡ h.items };
}

impl Heard {
    ghost use Rattle.bus_receiver.specs.Hearing.{nothing, nothing_after, goes_on, has_room};
    ghost use Rattle.bus_receiver.specs.Hearing.{expected, is_there, takes, hearing_after};

    /// A listener of a first sitting that has heard nothing: it expects numbers from 0 on.
    pub fn new() -> Heard
        ensures { result ≡ nothing }
    {
        Heard {
            bases: [0; MOST_SENDERS],
            counts: [0; MOST_SENDERS],
            items: 0,
            left: [false; MOST_SENDERS],
            ended: false,
        }
    }

    /// A listener of the sitting that goes on after this page: of each sender it expects the
    /// numbers from that on which the page has for its next message. It has heard nothing.
    pub fn after(page: &Page) -> Heard
        ensures { result ≡ nothing_after page.now.next }
    {
        Heard {
            bases: page.next,
            counts: [0; MOST_SENDERS],
            items: 0,
            left: [false; MOST_SENDERS],
            ended: false,
        }
    }

    /// Another listener that has heard just what this one has: for a receiver that is forked off
    /// the one that this listens to.
    pub fn copied(&self) -> Heard
        ensures { result ≡ self.now }
    {
        Heard {
            bases: self.bases,
            counts: self.counts,
            items: self.items,
            left: self.left,
            ended: self.ended,
        }
    }

    /// Takes the next answer of a receiver and gives true, or refuses it and gives false: an item
    /// that is not the next of its sender, or one more than can be counted; an item or a leave mark
    /// of a sender that has left, or of none below `MOST_SENDERS`; and all but the end after the
    /// end. What is refused changes nothing.
    pub fn note(&mut self, turn: &RecvTurn) -> bool
        ensures takes { result ≡ takes self.old turn.now }
        ensures taken { result ≡ true → self.new ≡ hearing_after self.old turn.now }
        ensures refused { result ≡ false → self.new ≡ self.old }
    {
        match turn {
            RecvTurn::End => {
                self.ended = true;
                true
            }
            RecvTurn::Item(item) => self.note_item(item),
            RecvTurn::Leave(sender) => self.note_leave(*sender),
            RecvTurn::Going | RecvTurn::Empty | RecvTurn::Head { .. } => !self.ended,
        }
    }

    /// Takes this item as the next answer of a receiver, as `note` does.
    pub fn note_item(&mut self, item: &Item) -> bool
        ensures takes { result ≡ takes self.old (RecvTurn.Item item.now) }
        ensures taken { result ≡ true
            → self.new ≡ hearing_after self.old (RecvTurn.Item item.now) }
        ensures refused { result ≡ false → self.new ≡ self.old }
    {
        self.note_number(item.sender, item.number)
    }

    /// Takes the item of this number, or refuses it.
    fn note_number(&mut self, sender: SenderNo, number: u64) -> bool
        ensures takes { result
            ≡ (goes_on self.old && has_room self.old &&
            (is_there self.old sender.0 && (number == expected self.old sender.0))) }
        ensures taken { result ≡ true
            → self.new ≡ record self.old {
              counts = slice_set self.old.counts sender.0
                  (slice_index self.old.counts sender.0 + 1);
              items = self.old.items + 1;
            } }
        ensures refused { result ≡ false → self.new ≡ self.old }
    {
        let place = usize::from(sender.0);
        if self.ended || place >= MOST_SENDERS {
            return false;
        }
        if self.left[place] {
            return false;
        }
        let base = self.bases[place];
        if number < base || number - base != self.counts[place] {
            return false;
        }
        if self.items == u64::MAX {
            return false;
        }
        self.items += 1;
        self.counts[place] += 1;
        true
    }

    /// Takes the leave mark of this sender, or refuses it.
    fn note_leave(&mut self, sender: SenderNo) -> bool
        ensures takes { result ≡ (goes_on self.old && is_there self.old sender.0) }
        ensures taken { result ≡ true
            → self.new ≡ record self.old { left = slice_set self.old.left sender.0 true } }
        ensures refused { result ≡ false → self.new ≡ self.old }
    {
        let place = usize::from(sender.0);
        if self.ended || place >= MOST_SENDERS || self.left[place] {
            return false;
        }
        self.left[place] = true;
        true
    }

    /// How many items of the sender it has taken.
    pub fn count(&self, sender: SenderNo) -> u64
        requires { sender.0 < MOST_SENDERS }
        ensures { result ≡ slice_index self.now.counts sender.0 }
    {
        self.counts[usize::from(sender.0)]
    }

    /// How many items it has taken.
    pub fn items(&self) -> u64
        ensures { result ≡ self.now.items }
    {
        self.items
    }

    /// The leave mark of the sender was among what it took.
    pub fn has_left(&self, sender: SenderNo) -> bool
        requires { sender.0 < MOST_SENDERS }
        ensures { slice_get self.now.left sender.0 ≡ Some result }
    {
        self.left[usize::from(sender.0)]
    }

    /// The end was among what it took.
    pub fn ended(&self) -> bool
        ensures { result ≡ self.now.ended }
    {
        self.ended
    }
}
