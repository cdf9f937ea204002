//! A sender's pin of a tenure.

ghost use Rattle.std.specs.Prelude.{◌≡◌, ℕ, ◌+◌, ◌<◌, ◌^◌};
ghost use Rattle.bus_presence.specs.Pins.{pin_op, pin_fed, number_shown, CanShow};
ghost use Rattle.bus_presence.specs.declared.pins.Pin.TheVariants as pin;

use bus_register::limits::TENURES;
use bus_register::{Op, Reg};
use std::marker::Model;

/// How far a sender's pin of a tenure has come. Tenures count from 0.
#[derive(Clone, Copy, Debug, PartialEq, Eq)]
pub enum Pin {
    /// It pins none, and its presence is 0.
    Away,
    /// It has begun this tenure and stores its presence next.
    Announcing { tenure: u64 },
    /// Its presence names this tenure. It loads the stage again next.
    Validating { tenure: u64 },
    /// It stands in this tenure, whose stage it has seen since it stored its presence.
    Pinned { tenure: u64 },
    /// It is done with this tenure and clears its presence next.
    Unpinning { tenure: u64 },
    /// It saw the stage of another tenure. It does not stand in this one, and clears its presence
    /// next.
    Invalidated { tenure: u64 },
}

/// A sender's presence: a word that names the tenure that it pins, as 1 + tenure, or is 0.
#[derive(Drop)]
pub struct Presence {
    word: Reg,
    stage: Reg,
    pin: Pin,
}

impl Model for Presence {
    ghost use Rattle.bus_presence.specs.Pins.{Pinning, CanShow};

    ghost Value = { Pinning };

    ghost view = { λ c. record { word = c.word.0; stage = c.stage.0; pin = c.pin } };

    ghost invariant = { λ c. CanShow c.pin };
}

impl Presence {
    /// A presence that is 0, in this word, beside the word of the stage.
    pub fn new(word: Reg, stage: Reg) -> Presence
        ensures { result ≡ record { word = word.0; stage = stage.0; pin = pin.Away } }
    {
        Presence {
            word,
            stage,
            pin: Pin::Away,
        }
    }

    /// How far the pin has come.
    pub fn pin(&self) -> Pin
        ensures { result ≡ self.now.pin }
    {
        self.pin
    }

    /// Begins a tenure, which is below 2^40. No step is taken.
    pub fn begin(&mut self, tenure: u64)
        requires away { self.old.pin ≡ pin.Away }
        requires below { tenure < TENURES }
        ensures { self.new ≡ record self.old { pin = pin.Announcing tenure } }
    {
        self.pin = Pin::Announcing { tenure };
    }

    /// Is done with the tenure that it stands in. No step is taken.
    pub fn part(&mut self, tenure: u64)
        requires { self.old.pin ≡ pin.Pinned tenure }
        ensures { self.new ≡ record self.old { pin = pin.Unpinning tenure } }
    {
        self.pin = Pin::Unpinning { tenure };
    }

    /// The next step: none while it is away or stands in a tenure.
    pub fn next(&self) -> Option<Op>
        ensures { result ≡ pin_op self.now }
    {
        match self.pin {
            Pin::Away | Pin::Pinned { .. } => None,
            Pin::Announcing { tenure } => Some(Op::Store(self.word, 1 + tenure)),
            Pin::Validating { .. } => Some(Op::Load(self.stage)),
            Pin::Unpinning { .. } | Pin::Invalidated { .. } => Some(Op::Store(self.word, 0)),
        }
    }

    /// The step that `next` told was taken, and found `got`.
    pub fn feed(&mut self, got: u64)
        ensures { self.new ≡ record self.old { pin = pin_fed self.old.pin got } }
    {
        match self.pin {
            Pin::Away | Pin::Pinned { .. } => {}
            Pin::Announcing { tenure } => self.pin = Pin::Validating { tenure },
            Pin::Validating { tenure } if got / 2 == tenure => {
                self.pin = Pin::Pinned { tenure };
            }
            Pin::Validating { tenure } => self.pin = Pin::Invalidated { tenure },
            Pin::Unpinning { .. } | Pin::Invalidated { .. } => self.pin = Pin::Away,
        }
    }
}
