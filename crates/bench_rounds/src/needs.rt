//! What a sitting takes of a bus, and whether a bus has it.

ghost use Rattle.std.specs.Prelude.{◌≡◌, ◌-◌, ◌*◌, ◌<◌, ◌≤◌, ◌⊎◌, IfOk, IfErr};
ghost use Rattle.std.specs.Prelude.{None, OnOk, OnErr};
ghost use Rattle.bus_receiver.specs.Sizes.{batches_of, tenures_of, words_of};
ghost use Rattle.bus_register.specs.declared.limits.TheConstants.{LOG_MESSAGES, MOST_ROUNDS};
ghost use Rattle.bus_run.specs.declared.limits.TheConstants.{MOST_RECEIVE_WORKERS};
ghost use Rattle.bus_run.specs.declared.limits.TheConstants.{MOST_SEND_WORKERS};
ghost use Rattle.bench_rounds.specs.declared.needs.TheConstants.{MOST_TENURES};
ghost use Rattle.bench_rounds.specs.declared.request.TheConstants.{MOST_REPETITIONS};
ghost use Rattle.bench_rounds.specs.Sizes.{bytes_of};

use crate::request::{Request, Ring, Size};
use bus_register::limits::{LOG_MESSAGES, MOST_LOG_WORDS};
use std::fmt;

/// Tenures of a round: at most 256.
pub const MOST_TENURES: u64 = 256;

/// What a sitting takes that a round does not have: more tenures, or log words, or both.
#[derive(Clone, Copy, Debug, PartialEq, Eq)]
pub struct Shortage {
    pub tenures: u128,
    pub words: u128,
}

impl fmt::Display for Shortage {
    fn fmt<W: fmt::Write>(&self, f: &mut fmt::Formatter<W>) -> fmt::Result {
        let (tenures, words) = (self.tenures, self.words);
        let few_tenures = tenures > u128::from(MOST_TENURES);
        let few_words = words > u128::from(MOST_LOG_WORDS);
        if few_tenures {
            write!(
                f,
                "{tenures} tenures are needed, and a round has {MOST_TENURES}"
            )?;
        }
        if few_tenures && few_words {
            write!(f, "; ")?;
        }
        if few_words {
            write!(
                f,
                "{words} log words are needed, and a bus has {MOST_LOG_WORDS}"
            )?;
        }
        Ok(())
    }
}

/// A measurement that fits a bus.
#[derive(Clone, Copy, Debug, PartialEq, Eq)]
pub struct Load {
    pub senders: u64,
    pub receivers: u64,
    /// Of each sender.
    pub messages: u64,
    pub size: Size,
    pub repetitions: u64,
    /// Of each binary decision.
    pub rounds: u64,
    /// The log, where its words are used again.
    pub ring: Option<Ring>,
    ghost few_senders: { senders ≤ MOST_SEND_WORKERS },
    ghost few_receivers: { receivers ≤ MOST_RECEIVE_WORKERS },
    ghost few_items: { senders * messages ≤ (MOST_TENURES - 1) * LOG_MESSAGES },
    ghost few_repetitions: { repetitions ≤ MOST_REPETITIONS },
    ghost some_rounds: { (1 ≤ rounds) × (rounds ≤ MOST_ROUNDS) },
}

impl Load {
    /// The same over a ring, or over a log that is none.
    pub fn over(self, ring: Option<Ring>) -> Load
        ensures ring { result.ring ≡ ring }
        ensures items { result.senders * result.messages ≡ self.senders * self.messages }
    {
        Load {
            senders: self.senders,
            receivers: self.receivers,
            messages: self.messages,
            size: self.size,
            repetitions: self.repetitions,
            rounds: self.rounds,
            ring,
        }
    }

    /// How many items each receiver gets.
    pub fn items(self) -> u64
        ensures { result ≡ self.senders * self.messages }
    {
        self.senders * self.messages
    }

    /// The sum of all words that are sent, modulo 2^64: each sender's messages have its numbers
    /// from 0 on as their first words, and zeros behind them.
    pub fn sum(self) -> u64 {
        let mut sum: u64 = 0;
        for number in 0..self.messages {
            sum = sum.wrapping_add(number);
        }
        sum.wrapping_mul(self.senders)
    }
}

impl Request {
    /// How many batches of at most 16 a sender makes, which are the most without a ring.
    fn batches(self) -> u128
        ensures { result ≡ batches_of self.messages }
    {
        (u128::from(self.messages) + (LOG_MESSAGES as u128 - 1)) / LOG_MESSAGES as u128
    }

    /// How many tenures a round takes: those that `tenures_needed` counts, also past 64 bits.
    fn tenures(self) -> u128
        ensures { result ≡ tenures_of self.senders self.messages }
    {
        u128::from(self.senders) * self.batches() + 1
    }

    /// How many log words a round takes: those that `words_needed` counts, also past 64 bits.
    fn words(self) -> u128
        ensures { result ≡ words_of self.senders self.messages (bytes_of self.size) }
    {
        let each = 1 + (self.size.bytes() as u128 + 7) / 8;
        u128::from(self.senders) * (self.batches() + u128::from(self.messages) * each) + 2
    }

    /// The measurement, if a round has enough tenures and its bus enough log words for it. It is
    /// over a log that is no ring.
    pub fn load(self) -> Result<Load, Shortage>
        ensures workers { IfOk result (λ load. (load.senders ≡ self.senders)
            × (load.receivers ≡ self.receivers)) }
        ensures messages { IfOk result (λ load. (load.messages ≡ self.messages)
            × (load.size ≡ self.size)) }
        ensures repetitions { IfOk result (λ load. (load.repetitions ≡ self.repetitions)
            × (load.rounds ≡ self.rounds)) }
        ensures flat { IfOk result (λ load. load.ring ≡ None) }
        ensures fits { OnOk result ((tenures_of self.senders self.messages ≤ MOST_TENURES)
            × (words_of self.senders self.messages (bytes_of self.size) ≤ MOST_LOG_WORDS)) }
        ensures needed { IfErr result
            (λ short. (short.tenures ≡ tenures_of self.senders self.messages)
            × (short.words ≡ words_of self.senders self.messages (bytes_of self.size))) }
        ensures short { OnErr result ((MOST_TENURES < tenures_of self.senders self.messages)
            ⊎ (MOST_LOG_WORDS < words_of self.senders self.messages (bytes_of self.size))) }
    {
        let (tenures, words) = (self.tenures(), self.words());
        if tenures > u128::from(MOST_TENURES) || words > u128::from(MOST_LOG_WORDS) {
            return Err(Shortage { tenures, words });
        }
        Ok(Load {
            senders: self.senders,
            receivers: self.receivers,
            messages: self.messages,
            size: self.size,
            repetitions: self.repetitions,
            rounds: self.rounds,
            ring: None,
        })
    }
}
