//! The versions of a key, as a core lends them.

ghost use Rattle.std.specs.Prelude.{◌≡◌, option_map};
ghost use Rattle.record_store.specs.Stores.{record_at};
ghost use Rattle.steps.specs.Statuses.{HasStatus};
ghost use Rattle.steps.specs.Versions.{versions_in, lent_versions, versions_at};

use crate::cores::Core;
use procedure::{Key, Value};
use record_store::{Record, Stable, Store};
use std::alloc::Allocator;

/// The versions of a key that has a record.
#[derive(Drop)]
pub struct Versions<'a, A: Allocator> {
    /// What the key holds, open calls' writes among it; None where it is absent.
    pub live: Option<&'a Value<A>>,
    /// What the running checkpoint is to take of it, where that isn't the live version.
    pub stable: Stable<Option<&'a Value<A>>>,
    pub available: bool,
}

fn lent<A: Allocator>(store: &Store<A>, slot: usize) -> Option<Versions<'_, A>>
    ensures { option_map lent_versions result ≡ versions_at store.now slot }
{
    match store.slot(slot) {
        Some(
            Record {
                live,
                stable,
                available,
                ..
            },
        ) => Some(Versions {
            live,
            stable,
            available,
        }),
        None => None,
    }
}

impl<A: Allocator> Core<A> {
    /// The versions of a key; None where it has no record.
    pub fn versions(&self, key: &Key) -> Option<Versions<'_, A>>
        ensures value { option_map lent_versions result ≡ versions_in self.now.slots key.now }
        ensures status { HasStatus self.now key.now (versions_in self.now.slots key.now) }
    {
        match self.store.find(key) {
            Some(slot) => lent(&self.store, slot),
            None => None,
        }
    }
}
