//! A state of long operations.

ghost use Rattle.std.specs.Prelude.{◌≡◌, ℕ, List, Option, length};
ghost use Rattle.bus_long.specs.Pieces.{Begun, begun_by, whole_by, nothing};
ghost use Rattle.bus_replica.specs.Longs.{AppliesWhole, AppliesLong, IsFirstLong, LongState};

use crate::states::State;
use bus_long::{Joiner, Taken};
use bus_register::SenderNo;
use bus_register::limits::MOST_SENDERS;
use std::alloc::{AllocError, Global};
use std::marker::Model;

/// A state whose operations have 0 to 880 bytes. It is replicated as any other; its operations go
/// by `submit_long` and `execute_long` of a replica, each whole. A worker uses these calls alone:
/// what it puts by `submit` or `execute` may be taken for a piece. It takes 57 KB of memory more.
#[derive(Drop)]
pub struct Long<S: State> {
    state: S,
    /// Of each worker: the pieces of an operation that is not whole yet.
    joiners: Vec<Joiner>,
}

impl<S: State> Model for Long<S> {
    ghost use Rattle.std.specs.Prelude.{◌≡◌, length};
    ghost use Rattle.bus_register.specs.declared.limits.TheConstants.{MOST_SENDERS};
    ghost use Rattle.bus_replica.specs.Longs.{LongState};

    ghost Value = { LongState S };

    ghost view = { λ l. record { state = l.state; begun = l.joiners.items } };

    ghost invariant = { λ l. length l.joiners.items ≡ MOST_SENDERS };
}

impl<S: State> Long<S> {
    /// The state by the operations that were applied so far.
    pub fn state(&self) -> &S
        ensures { result.now ≡ self.now.state }
    {
        &self.state
    }

    /// The state alone.
    pub fn into_state(self) -> S
        ensures { result ≡ self.state }
    {
        let Long { state, .. } = self;
        state
    }
}

impl<S: State> State for Long<S> {
    /// What the operation answers that is whole with a piece; none where others are to follow.
    type Answer = Option<S::Answer>;

    ghost is_first = { IsFirstLong S.is_first };

    ghost applies = { AppliesLong S.applies };

    fn first(alloc: Global) -> Result<Long<S>, AllocError> {
        let state = S::first(alloc)?;
        let mut joiners = Vec::with_capacity(alloc, MOST_SENDERS)?;
        for _ in 0..MOST_SENDERS {
            joiners.push(Joiner::new())?;
        }
        Ok(Long { state, joiners })
    }

    fn apply(&mut self, from: SenderNo, op: &[u8]) -> Option<S::Answer> {
        match self.joiners.get_mut(from.0 as usize) {
            Some(joiner) => apply_whole(&mut self.state, joiner, from, op),
            None => apply_whole(&mut self.state, &mut Joiner::new(), from, op),
        }
    }
}

/// Takes a message of a worker, and applies the operation that is whole with it, if one is.
fn apply_whole<S: State>(
    state: &mut S,
    joiner: &mut Joiner,
    from: SenderNo,
    op: &[u8],
) -> Option<S::Answer>
    ensures whole { AppliesWhole S.applies state.old from.0 (whole_by joiner.old op.now) result
        state.new }
    ensures begins { joiner.new ≡ begun_by joiner.old op.now }
{
    match joiner.take(op) {
        Taken::Waits => None,
        Taken::Joined => {
            let answer = state.apply(from, joiner.bytes());
            joiner.clear();
            Some(answer)
        }
        Taken::Rest => Some(state.apply(from, &op[1..])),
        Taken::AsItIs => Some(state.apply(from, op)),
    }
}
