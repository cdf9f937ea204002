//! How a holder of the page makes the row of the next tenure ready.

ghost use Rattle.std.specs.Prelude.{◌≡◌, ℕ, ◌+◌, ◌≤◌, ◌<◌, ◌^◌, ◌↔◌, IsTrue};
ghost use Rattle.bus_presence.specs.Reclaimers.{reclaim_op, reclaim_fed, behind_of, is_reclaimed};
ghost use Rattle.bus_presence.specs.Reclaimers.{IsClearing, clears_left, with_cleared};

use bus_register::limits::{MOST_PROCESSES, TENURES};
use bus_register::{Op, Reg};
use std::marker::Model;

/// A sender's presence names the tenure whose row is to be cleared, so the holder waits for it.
/// Tenures and senders count from 0.
#[derive(Clone, Copy, Debug, PartialEq, Eq)]
pub struct Behind {
    pub tenure: u64,
    pub sender: u64,
}

/// The holder loads the presences of all senders in rising order, each until it does not name the
/// past tenure of the row, and then clears the words of the row in rising order.
#[derive(Drop)]
pub struct Reclaimer {
    past: u64,
    senders: u64,
    presences: Reg,
    row: Reg,
    width: u64,
    scanned: u64,
    cleared: u64,
}

impl Model for Reclaimer {
    ghost use Rattle.bus_presence.specs.Reclaimers.{Reclaiming, IsSized};

    ghost Value = { Reclaiming };

    ghost view = { λ c. record {
      past = c.past;
      senders = c.senders;
      presences = c.presences.0;
      row = c.row.0;
      width = c.width;
      scanned = c.scanned;
      cleared = c.cleared;
    } };

    ghost invariant = { λ c. IsSized (record {
      past = c.past;
      senders = c.senders;
      presences = c.presences.0;
      row = c.row.0;
      width = c.width;
      scanned = c.scanned;
      cleared = c.cleared;
    }) };
}

impl Reclaimer {
    /// Nothing is looked at yet. The row was that of a past tenure; the presences of so many
    /// senders stand in words one after another, as do the words of the row.
    pub fn new(past: u64, senders: u64, presences: Reg, row: Reg, width: u64) -> Reclaimer
        requires past { past < TENURES }
        requires few { senders ≤ MOST_PROCESSES }
        requires presences { presences.0 + senders ≤ 2 ^ 63 }
        requires row { row.0 + width ≤ 2 ^ 63 }
        ensures { result ≡ record {
          past = past;
          senders = senders;
          presences = presences.0;
          row = row.0;
          width = width;
          scanned = 0;
          cleared = 0;
        } }
    {
        Reclaimer {
            past,
            senders,
            presences,
            row,
            width,
            scanned: 0,
            cleared: 0,
        }
    }

    /// All presences have passed, and all words of the row are cleared.
    pub fn is_done(&self) -> bool
        ensures { result ≡ is_reclaimed self.now }
    {
        self.scanned >= self.senders && self.cleared >= self.width
    }

    /// The next step; none once it is done.
    pub fn next(&self) -> Option<Op>
        ensures { result ≡ reclaim_op self.now }
    {
        if self.scanned < self.senders {
            Some(Op::Load(Reg(self.presences.0 + self.scanned)))
        } else if self.cleared < self.width {
            Some(Op::Store(Reg(self.row.0 + self.cleared), 0))
        } else {
            None
        }
    }

    /// Whether it clears a word next; then that is the word at `at`.
    #[inline(always)]
    pub fn clears(&self, at: &mut u64) -> bool
        ensures clearing { IsTrue result ↔ IsClearing self.now }
        ensures at { IsTrue result → at.new ≡ self.now.row + self.now.cleared }
    {
        if self.scanned < self.senders || self.cleared >= self.width {
            return false;
        }
        *at = self.row.0 + self.cleared;
        true
    }

    /// That word is cleared.
    #[inline(always)]
    pub fn clear(&mut self)
        requires { IsClearing self.old }
        ensures { (got : ℕ) → self.new ≡ reclaim_fed self.old got }
    {
        self.cleared += 1;
    }

    /// How many words it clears in a row, from its next step on; 0 where it clears none next.
    #[inline(always)]
    pub fn clears_left(&self) -> u64
        ensures { result ≡ clears_left self.now }
    {
        if self.scanned < self.senders {
            return 0;
        }
        self.width - self.cleared
    }

    /// So many of these words are cleared.
    #[inline(always)]
    pub fn clear_many(&mut self, many: u64)
        requires { self.old.cleared + many ≤ self.old.width }
        ensures { self.new ≡ with_cleared self.old many }
    {
        self.cleared += many;
    }

    /// The step that `next` told was taken, and found `got`. It answers whom it waits for: then the
    /// same presence is loaded again.
    pub fn feed(&mut self, got: u64) -> Option<Behind>
        ensures state { self.new ≡ reclaim_fed self.old got }
        ensures behind { result ≡ behind_of self.old got }
    {
        if self.scanned < self.senders {
            if got == 1 + self.past {
                return Some(Behind {
                    tenure: self.past,
                    sender: self.scanned,
                });
            }
            self.scanned += 1;
        } else if self.cleared < self.width {
            self.cleared += 1;
        }
        None
    }
}
