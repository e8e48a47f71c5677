//! Records, as a store lends them.

use procedure::{Key, Value};
use std::alloc::Allocator;

/// The stable version of a record.
#[derive(Debug, Drop)]
pub enum Stable<V> {
    /// There is none.
    Empty,
    /// What the live version was: a value, or absent.
    Was(V),
}

/// A record, lent.
#[derive(Drop)]
pub struct Record<'a, A: Allocator> {
    pub key: Key,
    /// None where it is absent: the record is dead.
    pub live: Option<&'a Value<A>>,
    pub stable: Stable<Option<&'a Value<A>>>,
    pub available: bool,
    /// Not a candidate for reclaim until it is reconsidered.
    pub aside: bool,
}
