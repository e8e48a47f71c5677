//! Why a lock is refused.

ghost use Rattle.std.specs.Prelude.{◌≡◌, Some};
ghost use Rattle.locktable.specs.Modes.{refusal_text};
ghost use Rattle.locktable.specs.declared.errors.LockError.TheVariants.{NoMemory};

use procedure::NoMemory;
use std::error::Error;
use std::fmt;

/// Why a lock is refused.
#[derive(Clone, Copy, Debug, PartialEq, Eq)]
pub enum LockError {
    /// Another session holds the key, and one of the two is to be exclusive.
    Conflict,
    /// A growth was refused.
    NoMemory,
}

impl fmt::Display for LockError {
    ghost output = { λ refusal. Some (refusal_text refusal) };

    fn fmt<W: fmt::Write>(&self, f: &mut fmt::Formatter<W>) -> fmt::Result {
        f.write_str(match self {
            LockError::Conflict => "conflict",
            LockError::NoMemory => "no memory",
        })
    }
}

impl Error for LockError {}

impl From<NoMemory> for LockError {
    ghost from_gives = { λ _ refusal. refusal ≡ NoMemory };

    fn from(_refused: NoMemory) -> Self {
        LockError::NoMemory
    }
}
