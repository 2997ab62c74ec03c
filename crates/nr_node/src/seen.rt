//! A value that only clauses read.
ghost use Rattle.std.specs.Prelude.{◌≡◌};
ghost use base.Fml.{ftrue};

use std::marker::{Model, PhantomData, Send, Sync};

/// A `T` as clauses see it. It has no bytes and owns nothing, so it may go to any thread.
pub(crate) struct Seen<T> {
    marker: PhantomData<T>,
    pub(crate) ghost value: { T },
}

impl<T> Model for Seen<T> {
    ghost also_owns = { λ _. ftrue };
}

impl<T> Seen<T> {
    /// What it is now.
    pub(crate) fn of(x: &T) -> Seen<T>
        ensures { result.value ≡ x.now }
    {
        let _ = x;
        Seen {
            marker: PhantomData,
        }
    }
}

unsafe impl<T> Send for Seen<T> {}

unsafe impl<T> Sync for Seen<T> {}

impl<T> Drop for Seen<T> {
    fn drop(self) {
        let Self { marker: _ } = self;
    }
}
