//! What holds the workers of the senders up.

ghost use Rattle.std.specs.Prelude.{◌≡◌, true};

/// What a sender's worker asks before each batch.
pub trait Gate {
    /// The worker of this sender is about to put a batch. On false it takes no further turn.
    fn arrive(&self, sender: u64) -> bool;
}

/// A gate that lets each worker through at once.
#[derive(Clone, Copy, Debug)]
pub struct OpenGate;

impl Gate for OpenGate {
    fn arrive(&self, _sender: u64) -> bool
        ensures { result ≡ true }
    {
        true
    }
}
