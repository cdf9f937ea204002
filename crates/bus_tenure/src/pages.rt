//! What the holder of the lock guards.

ghost use Rattle.std.specs.Prelude.{◌≡◌, ◌<◌, ◌≤◌, IfOk, slice_set, true, if◌then◌else◌};
ghost use Rattle.bus_tenure.specs.Paging.{PageKeeps};

use bus_register::limits::{MOST_SENDERS, PLACES};
use bus_register::{NoMemory, SenderNo};
use std::alloc::Global;
use std::marker::Model;

/// The page: what the next owner has to know of the bus. It is at home, or with one sender.
#[derive(Clone, Copy, Debug, PartialEq, Eq)]
pub struct Page {
    /// For each sender the number of its next message in the order.
    pub next: [u64; MOST_SENDERS],
    /// For each sender whether it has left. No sender goes by it.
    pub left: [bool; MOST_SENDERS],
    /// The order has ended: nothing is appended any more.
    pub ended: bool,
    /// How many tenures have ended.
    pub tenures: u64,
    /// How many words of the log stand below the length.
    pub words: u64,
    /// The least place that an owner last found all receivers past; 0 where no word of the log is
    /// used again.
    pub floor: u64,
}

/// The page as it is passed on: on the heap, so that passing it moves one pointer. Its floor is no
/// further than its words.
#[derive(Drop)]
pub struct OwnedPage {
    page: Box<Page>,
}

impl Model for OwnedPage {
    ghost use Rattle.bus_tenure.specs.Paging.{PageKeeps};
    ghost use Rattle.bus_tenure.specs.declared.pages.Page.{Page};

    ghost Value = { Page };

    ghost view = { λ p. p.page.value };

    ghost invariant = { λ p. PageKeeps p.page.value };
}

impl OwnedPage {
    /// Puts this page on the heap, with the floor 0: nobody was found past a word yet. Memory is
    /// its only refusal.
    pub fn new(alloc: Global, page: Page) -> Result<OwnedPage, NoMemory>
        ensures { IfOk result (λ p. p ≡ record page { floor = 0 }) }
    {
        let page = Box::new(alloc, Page { floor: 0, ..page })?;
        Ok(OwnedPage { page })
    }

    /// Its floor is no further than its words.
    pub fn is_kept(&self)
        ensures { PageKeeps self.now }
    {
        let _ = &self.page;
    }

    /// The page itself.
    pub fn get(&self) -> &Page
        ensures { result.now ≡ self.now }
    {
        &self.page
    }

    /// So many tenures have ended.
    pub(crate) fn end_tenure(&mut self, tenures: u64)
        ensures { self.new ≡ record self.old { tenures = tenures } }
    {
        self.page.tenures = tenures;
    }

    /// So far are all receivers past.
    pub(crate) fn set_floor(&mut self, floor: u64)
        requires behind { floor ≤ self.old.words }
        requires few { floor ≤ PLACES }
        ensures { self.new ≡ record self.old { floor = floor } }
    {
        self.page.floor = floor;
    }

    /// A frame of this sender stands in the log, and `number` is that of its next message. With
    /// that frame it has left, or it has not.
    pub(crate) fn take_frame(
        &mut self,
        sender: SenderNo,
        number: u64,
        left: bool,
        ended: bool,
        words: u64,
    )
        requires below { sender.0 < MOST_SENDERS }
        requires more { self.old.words ≤ words }
        ensures { self.new ≡ record self.old {
          next = slice_set self.old.next sender.0 number;
          left = if left then slice_set self.old.left sender.0 true else self.old.left;
          ended = ended;
          words = words;
        } }
    {
        let page = &mut *self.page;
        page.next[usize::from(sender.0)] = number;
        if left {
            page.left[usize::from(sender.0)] = true;
        }
        page.ended = ended;
        page.words = words;
    }
}
