//! What each call changes and leaves, told by the mode in which a session holds a key. Each law is
//! the contract of a function that does nothing.

ghost use Rattle.locktable.specs.Changes.{ChangesOneLock, ReleasesOneSession};

/// Where a session holds a key so, or not at all, every other lock stays as it was.
pub fn lock_law()
    ensures { ChangesOneLock }
{}

/// Where a session holds nothing any more, every lock of the others stays as it was.
pub fn release_law()
    ensures { ReleasesOneSession }
{}
