//! The order of a sitting, and what its workers know of it. Of a ring the log keeps only its end.

use crate::hearers::Hearer;
use crate::storms::Load;
use crate::turn_receivers::{Notes, Tally, TurnReceiver};
use crate::workers::{Rest, Teller};
use anyhow::{bail, ensure};
use bus_deliverylog::LogRead;
use bus_pageslot::OfBus;
use bus_receiver::{Item, SenderNo};
use bus_register::limits::MOST_SENDERS;
use std::alloc::{AllocError, Global};

/// The order of a sitting: what a receiver was given before the place that it has passed, and what
/// the words from there on say.
#[derive(Drop)]
pub struct Whole<'a> {
    given: &'a [Item],
    read: LogRead,
    /// Who left, and after how many items.
    left: Vec<(SenderNo, u64)>,
}

/// What the order says of the page.
#[derive(Clone, Copy)]
pub struct Facts {
    /// The number behind each sender's items.
    pub nexts: [u64; MOST_SENDERS],
    pub left: [bool; MOST_SENDERS],
    pub ended: bool,
    pub items: u64,
    /// The tenure of its last frame, from 1 on; 0 where none stands.
    pub last_tenure: u64,
}

impl<'a> Whole<'a> {
    /// The order that begins with so much of this, and of which these words say the rest.
    pub fn new(
        alloc: Global,
        first: &'a Notes,
        before: Tally,
        read: LogRead,
    ) -> Result<Whole<'a>, AllocError> {
        let mut left = Vec::with_capacity(alloc, MOST_SENDERS)?;
        for mark in first.left.iter().take(before.marks) {
            left.push(*mark)?;
        }
        for (sender, behind) in read.order.left.iter().copied() {
            left.push((sender, behind.saturating_add(before.items as u64)))?;
        }
        let given = first.items.as_slice();
        Ok(Whole {
            given: &given[..before.items.min(given.len())],
            read,
            left,
        })
    }

    /// How many items it has.
    fn len(&self) -> usize {
        self.given.len().saturating_add(self.read.order.items.len())
    }

    /// These items are its first ones.
    fn begins_with(&self, items: &[Item]) -> bool {
        let further = self.read.order.items.as_slice();
        match items.get(self.given.len()..) {
            Some(rest) => items.starts_with(self.given) && further.starts_with(rest),
            None => self.given.starts_with(items),
        }
    }

    /// An item of this sender has so many before it, or more.
    fn has_item_behind(&self, sender: SenderNo, many: u64) -> bool {
        let given = self.given.iter().chain(self.read.order.items.iter());
        given.skip(many as usize).any(|item| item.sender == sender)
    }

    /// What it says of the page. Its items carry each sender's numbers one after another, from the
    /// one on that the sitting began with.
    pub fn facts(&self, load: Load) -> anyhow::Result<Facts> {
        let mut nexts = load.bases();
        for item in self.given {
            count(&mut nexts, item)?;
        }
        for item in self.read.order.items.iter() {
            count(&mut nexts, item)?;
        }
        let mut left = [false; MOST_SENDERS];
        for (sender, _) in self.left.iter() {
            if let Some(has_left) = left.get_mut(usize::from(sender.0)) {
                *has_left = true;
            }
        }
        Ok(Facts {
            nexts,
            left,
            ended: self.read.order.ended,
            items: self.len() as u64,
            last_tenure: match self.read.owners.last() {
                Some((tenure, _)) => tenure.saturating_add(1),
                None => 0,
            },
        })
    }
}

/// Counts an item, which has to be the next of its sender, and to carry its number.
fn count(nexts: &mut [u64; MOST_SENDERS], item: &Item) -> anyhow::Result<()> {
    let number = item.number;
    let Some(next) = nexts.get_mut(usize::from(item.sender.0)) else {
        bail!("an item is of no sender");
    };
    ensure!(number == *next, "an item is not the next of its sender");
    let bytes = number.to_be_bytes();
    let is_kept = item.message.as_slice() == bytes.as_slice();
    ensure!(is_kept, "a message is altered");
    *next = number.saturating_add(1);
    Ok(())
}

/// What each worker was given begins the order, and what each of its receivers was given is all of
/// it, unless the worker stopped or has left.
pub fn have_heard<B: OfBus>(whole: &Whole<'_>, hearers: &[Hearer<B>]) -> anyhow::Result<()> {
    for hearer in hearers {
        begins(whole, &hearer.notes)?;
        let has_stopped = matches!(hearer.rest, Some(Rest::Stopped | Rest::Left));
        for receiver in hearer.receivers.iter() {
            has_heard(whole, receiver, has_stopped)?;
        }
    }
    Ok(())
}

/// What the receivers of a worker were given is one thing, and begins the order.
fn begins(whole: &Whole<'_>, notes: &Notes) -> anyhow::Result<()> {
    ensure!(notes.is_sound, "an item given is not the next");
    ensure!(notes.is_same, "a fork was given another item");
    let is_same = whole.begins_with(notes.items.as_slice());
    ensure!(is_same, "another order was given");
    let is_same = whole.left.as_slice().starts_with(notes.left.as_slice());
    ensure!(is_same, "others were said to have left");
    Ok(())
}

/// What this receiver was given is all, unless its worker stopped or has left.
fn has_heard<B: OfBus>(
    whole: &Whole<'_>,
    receiver: &TurnReceiver<B>,
    has_stopped: bool,
) -> anyhow::Result<()> {
    let tally = receiver.tally;
    let has_items = tally.items == whole.len() && tally.marks == whole.left.len();
    let has_end = receiver.heard.ended();
    let is_all = has_items && has_end == whole.read.order.ended;
    ensure!(is_all || has_stopped, "a receiver was not given all");
    ensure!(is_all || !has_end, "an end was given too early");
    Ok(())
}

/// Who has left had asked to, and has one leave mark in the order, behind which it has no item. It
/// was told so, unless it has the page.
pub fn have_left<B: OfBus>(whole: &Whole<'_>, tellers: &[Teller<B>]) -> anyhow::Result<()> {
    for teller in tellers {
        let number = teller.send_worker.sender.number();
        let mut marks = whole.left.iter().filter(|mark| mark.0 == number);
        let mark = marks.next();
        ensure!(marks.next().is_none(), "a sender has left twice");
        ensure!(
            mark.is_some() || !teller.has_left,
            "a leave mark is missing"
        );
        let Some((_, behind)) = mark else { continue };
        ensure!(teller.has_asked, "a sender has left unasked");
        ensure!(
            teller.has_left || teller.has_page,
            "a sender left and was not told"
        );
        let is_last = !whole.has_item_behind(number, *behind);
        ensure!(is_last, "an item follows its sender's leave mark");
    }
    Ok(())
}
