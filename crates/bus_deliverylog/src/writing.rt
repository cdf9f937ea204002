//! A sender's end of the log, by itself: a sender of the bus has no writer, and does the same by
//! the table of its turns.

ghost use Rattle.std.specs.Prelude.{◌≡◌, ℕ, ◌+◌, ◌<◌, ◌≤◌, ◌^◌, length};
ghost use Rattle.std.specs.Prelude.{Some, None};
ghost use Rattle.bus_batch.specs.Batches.{HasSomething, frame_of};
ghost use Rattle.bus_batch.specs.Frames.{frame_words};

use arrayvec::ArrayVec;
use bus_batch::Batch;
use bus_register::limits::{MOST_FRAME_WORDS, TENURES};
use bus_register::{Kind, Machine, Op, Reg};
use std::marker::Model;

/// The words of a batch's frame on their way: they are stored in the log in rising order, from the
/// length on, and then the new length is stored.
#[derive(Debug, Drop)]
pub struct Writer {
    frame: ArrayVec<u64, MOST_FRAME_WORDS>,
    from: u64,
    stored: u64,
    log: Reg,
    length: Reg,
}

impl Model for Writer {
    ghost use Rattle.std.specs.Prelude.{◌+◌, ◌<◌, ◌≤◌, ◌^◌, length as len};
    ghost use Rattle.bus_register.specs.declared.limits.TheConstants.{MOST_FRAME_WORDS};
    ghost use Rattle.bus_deliverylog.specs.Writing.{Writing};

    ghost Value = { Writing };

    ghost view = { λ w. record {
      frame = w.frame.items;
      from = w.from;
      stored = w.stored;
      log_at = w.log.0;
      length_at = w.length.0;
    } };

    ghost invariant = { λ w. (w.log.0 + w.from + len w.frame.items < 2 ^ 64)
        × (len w.frame.items ≤ MOST_FRAME_WORDS) × (w.stored ≤ len w.frame.items + 1) };
}

impl Writer {
    /// A writer of the frame of a batch in a tenure. `from` is the log's length, `log` the place of
    /// the log's first word and `length` that of its length. The frame has to fit below 2^64.
    pub fn start(batch: &Batch, tenure: u64, from: u64, log: Reg, length: Reg) -> Writer
        requires something { HasSomething batch.now }
        requires tenure { tenure < TENURES }
        requires fits { log.0 + from + MOST_FRAME_WORDS < 2 ^ 64 }
        ensures { result ≡ record {
          frame = frame_words (frame_of batch.now tenure);
          from = from;
          stored = 0;
          log_at = log.0;
          length_at = length.0;
        } }
    {
        let len = batch.frame_len();
        let mut frame = ArrayVec::new();
        for i in 0..len {
            frame.push(batch.word(i, tenure));
        }
        Writer {
            frame,
            from,
            stored: 0,
            log,
            length,
        }
    }

    /// The log's length once the frame stands in it.
    pub fn new_length(&self) -> u64
        ensures { result ≡ self.now.from + length self.now.frame }
    {
        self.from + self.frame.len() as u64
    }
}

impl Machine for Writer {
    ghost use Rattle.bus_deliverylog.specs.Writing.{writing_kind, writing_op, writing_fed};
    ghost use Rattle.bus_deliverylog.specs.Private.WritingLaws.{writing_named};

    ghost kind_of = { writing_kind };

    ghost op = { λ w word. writing_op w };

    ghost fed = { λ w got word. writing_fed w };

    fn kind(&self) -> Option<Kind> {
        let len = self.frame.len() as u64;
        if self.stored < len {
            Some(Kind::StoreLogWord)
        } else if self.stored == len {
            Some(Kind::StoreLength)
        } else {
            None
        }
    }

    fn next(&self, _word: u32) -> Option<Op> {
        let len = self.frame.len() as u64;
        if self.stored < len {
            let word = self.frame.as_slice()[self.stored as usize];
            Some(Op::Store(Reg(self.log.0 + self.from + self.stored), word))
        } else if self.stored == len {
            Some(Op::Store(self.length, self.from + len))
        } else {
            None
        }
    }

    fn feed(&mut self, _got: u64, _word: u32) {
        self.stored += 1;
    }

    ghost names_each_step = { λ w word. writing_named w };
}
