//! What a machine asks for before its next instruction.

ghost use Rattle.std.specs.Prelude.{◌≡◌, option_copied};
ghost use Rattle.procedure.specs.Needs.{updated};

use crate::keys::Key;
use crate::values::Value;
use std::alloc::Allocator;

/// What is to become of a key.
#[derive(Clone, Debug, Drop)]
pub enum Update<V> {
    /// It holds the value.
    Put(V),
    /// It holds the value, if it was absent.
    Insert(V),
    /// It is absent, if it was present.
    Delete,
}

/// What the next instruction asks for.
#[derive(Clone, Debug, Drop)]
pub enum Need<V> {
    /// To see what the key holds.
    Read(Key),
    /// To see what the key holds and to update it.
    Write(Key, Update<V>),
    /// Nothing: it touches no key, or its operands end the call.
    Own,
    /// The call has ended, with this outcome.
    Ended(u8),
}

/// Which key the next instruction touches, and how.
#[derive(Clone, Copy, Debug)]
pub enum Access {
    /// It sees what the key holds.
    Reads(Key),
    /// It sees what the key holds, and may update it.
    Writes(Key),
    /// It touches no key.
    Nothing,
    /// The call has ended, with this outcome.
    Ended(u8),
}

impl<A: Allocator> Update<Value<A>> {
    /// What the key that holds `found` becomes: a value or absent; None where it stays.
    pub fn becomes(self, found: Option<&Value<A>>) -> Option<Option<Value<A>>>
        ensures { result ≡ updated self (option_copied found.entry) }
    {
        match (self, found) {
            (Update::Put(value), _) | (Update::Insert(value), None) => Some(Some(value)),
            (Update::Delete, Some(_)) => Some(None),
            (Update::Insert(_), Some(_)) | (Update::Delete, None) => None,
        }
    }
}
