//! Why a line isn't read.

ghost use Rattle.std.specs.Prelude.{◌≡◌};
ghost use Rattle.calcdb.specs.declared.faults.unread.Unread.TheVariants as unread;

use crate::faults::misreads::Misread;
use procedure::NoMemory;
use std::alloc::{AllocError, AllocFailed};

/// Why a line, or a part of it, isn't read.
#[derive(Clone, Copy)]
pub(crate) enum Unread {
    /// It isn't in the language.
    Faulty(Misread),
    NoMemory,
}

impl From<Misread> for Unread {
    ghost from_gives = { λ why e. e ≡ unread.Faulty why };

    fn from(why: Misread) -> Self {
        Unread::Faulty(why)
    }
}

impl From<NoMemory> for Unread {
    ghost from_gives = { λ _ e. e ≡ unread.NoMemory };

    fn from(_refused: NoMemory) -> Self {
        Unread::NoMemory
    }
}

impl From<AllocError> for Unread {
    ghost from_gives = { λ _ e. e ≡ unread.NoMemory };

    fn from(_refused: AllocError) -> Self {
        Unread::NoMemory
    }
}

impl<T: Drop> From<AllocFailed<T>> for Unread {
    ghost from_gives = { λ _ e. e ≡ unread.NoMemory };

    fn from(_refused: AllocFailed<T>) -> Self {
        Unread::NoMemory
    }
}
