//! What was before, for clauses alone.

ghost use Rattle.std.specs.Prelude.{◌≡◌};
ghost use base.Fml.{ftrue};

use std::marker::{Model, PhantomData};

/// A value as it was, which clauses alone read. It has no bytes, and keeps nothing in memory.
pub struct Past<T> {
    marker: PhantomData<T>,
    pub ghost value: { T },
}

impl<T> Model for Past<T> {
    ghost also_owns = { λ _. ftrue };
}

impl<T> Past<T> {
    /// What this is now.
    pub fn of(x: &T) -> Past<T>
        ensures { result.value ≡ x.now }
    {
        let _ = x;
        Past {
            marker: PhantomData,
        }
    }
}

/// It owns nothing.
unsafe impl<T> Send for Past<T> {}

impl<T> Drop for Past<T> {
    fn drop(self) {
        let Self { marker: _ } = self;
    }
}
