//! The calls of a sender beside its bus that are no event of a machine.

use super::BusSender;
use bus_adoptcommit::ThreeWord;
use bus_batch::PutFault;
use bus_pageslot::Sender;
use bus_tenure::Turn;
use bus_waiting::Waiter;
use rand_pcg::Pcg32;
use std::sync::Wait;

impl<'b> BusSender<'b> {
    /// Sends what waits.
    pub fn send<W: Wait>(&mut self, wait: &W, rng: &mut Pcg32) -> Turn {
        let bus = self.bus;
        self.sender.send(&Waiter::yielding(wait), bus, rng)
    }

    /// Goes through what is left of its tenure.
    pub fn finish(&mut self, rng: &mut Pcg32) -> Option<Turn> {
        let bus = self.bus;
        self.sender.finish(bus, rng)
    }

    /// Takes what waits at a sender of an earlier sitting.
    pub fn carry(&mut self, from: &Sender<ThreeWord>) -> Result<(), PutFault> {
        from.carry_to(&mut self.sender)
    }

    /// The sender alone, to ask what it tells.
    pub fn alone(&self) -> &Sender<ThreeWord> {
        &self.sender
    }

    /// The sender without its bus.
    pub fn into_alone(self) -> Sender<ThreeWord> {
        let BusSender { sender, .. } = self;
        sender
    }
}
