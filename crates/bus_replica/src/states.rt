//! What is replicated.

ghost use Rattle.std.specs.Prelude.{IfOk};
ghost use Rattle.bus_replica.specs.Replicas.{Operations};

use bus_register::SenderNo;
use std::alloc::{AllocError, Global};

/// A state that each worker has a replica of. Replicas are equal where `apply` gives the same on
/// equal states: it may look at nothing but its arguments.
pub trait State: Drop {
    /// What an operation answers.
    type Answer: Drop;

    /// It is as before any operation. By default that says nothing.
    ghost is_first: { Self → Type 0 } = { λ state. Unit {0} };

    /// The operation of these bytes, of the worker of this number, may answer so on this state, and
    /// leave that one. By default that says nothing.
    ghost applies: { Operations Self Self.Answer } = { λ old from op answer new. Unit {0} };

    /// The state before any operation.
    fn first(alloc: Global) -> Result<Self, AllocError>
        ensures { IfOk result is_first };

    /// Applies the operation of these bytes, of the worker of this number.
    fn apply(&mut self, from: SenderNo, op: &[u8]) -> Self::Answer
        ensures { applies self.old from.0 op.now result self.new };
}
