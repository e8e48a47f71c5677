//! What a scan gave. It is there for proofs alone.

ghost use Rattle.std.specs.Borrow.{ftrue};
ghost use Rattle.std.specs.Prelude.{◌≡◌, List, [], ◌∷◌, ◌++◌};

use std::marker::{Model, PhantomData};

/// The entries that the last scan gave, in the order of its places. It keeps none of them, so that they
/// may move on, and takes no memory.
#[derive(Drop)]
pub(crate) struct Given<E> {
    kept: PhantomData<E>,
    pub(crate) ghost entries: { List E },
}

impl<E> Model for Given<E> {
    ghost also_owns = { λ _. ftrue };
}

// It owns nothing.
unsafe impl<E: Send> Send for Given<E> {}

impl<E> Given<E> {
    /// No entry was given.
    pub(crate) fn nothing() -> Self
        ensures { result.entries ≡ [] }
    {
        Given { kept: PhantomData }
    }

    /// One entry more was given.
    pub(crate) fn and(&self, entry: &E) -> Self
        ensures { result.entries ≡ self.now.entries ++ entry.now ∷ [] }
    {
        Given { kept: PhantomData }
    }
}
