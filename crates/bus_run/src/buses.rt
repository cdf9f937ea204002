//! The bus of a run.

ghost use Rattle.std.specs.Prelude.{◌≡◌};

use bus_adoptcommit::ThreeWord;
use bus_pageslot::OfBus;
use std::marker::PhantomData;

/// What its elections are decided by: this says which bus a run goes by, with the definitions of
/// specs/Left.
pub type Ratified = ThreeWord;

/// The bus.
pub type Bus = bus_pageslot::Bus<Ratified>;

/// A sender of it.
pub type Sender = bus_pageslot::Sender<Ratified>;

/// A receiver's right to load from it.
pub type Tap = bus_pageslot::Tap<Ratified>;

/// A receiver of it.
pub type Receiver = bus_receiver::Receiver<Ratified>;

/// The bus B: that a worker is of it stands in the worker's type.
#[derive(Drop)]
pub struct TheBus<B: OfBus> {
    pub bus: Bus,
    of: PhantomData<B>,
    ghost of_bus: { bus.table ≡ B.table },
}

impl<B: OfBus> TheBus<B> {
    /// This bus, which is B.
    pub fn new(bus: Bus) -> TheBus<B>
        requires { bus.table ≡ B.table }
        ensures { result.bus ≡ bus }
    {
        TheBus {
            bus,
            of: PhantomData,
        }
    }

    /// The bus.
    pub fn into_bus(self) -> Bus
        ensures bus { result ≡ self.bus }
        ensures table { result.table ≡ B.table }
    {
        let TheBus { bus, .. } = self;
        bus
    }
}
