//! A table in a hash map, so that a look-up takes the same time however many keys there are.

ghost use Rattle.std.specs.Prelude.{◌≡◌, ◌+◌, ◌<◌, ◌≤◌, IfOk, IsSome, OnOk, OnErr, length, option_copied, vec_len};
ghost use Rattle.procedure.specs.Table.{no_table, value_at, with_cell, with_cells};
ghost use Rattle.view.specs.Rows.{changed};

use image::{Entry, Kind};
use indexmap::IndexMap;
use procedure::{Key, Value};
use std::alloc::{AllocError, Allocator};
use std::hash::{BuildHasherDefault, FoldHasher};
use std::marker::Model;

/// A table, seen by contracts beside its room: how many more keys fit without a growth.
#[derive(Drop)]
pub(crate) struct Rows<A: Allocator> {
    entries: IndexMap<Key, Value<A>, BuildHasherDefault<FoldHasher>, A>,
}

impl<A: Allocator> Model for Rows<A> {
    ghost use Rattle.std.specs.Ordering.{nat_cmp};
    ghost use Rattle.std.specs.Cmp.Lexicographic.{slice_cmp};
    ghost use Rattle.std.specs.FinMap as map;
    ghost use Rattle.indexmap.specs.IndexMap.{spare};
    ghost use Rattle.view.specs.Rows.{Rows, rows_code};

    ghost Value = { Rows };

    ghost coded = { rows_code };

    ghost view = { λ r. record { table = map.from_entries {R = slice_cmp nat_cmp} r.entries.entries; room = spare r.entries } };
}

impl<A: Allocator + Copy> Rows<A> {
    /// The empty table, which takes no memory.
    pub(crate) fn new(alloc: A) -> Self
        ensures { result.table ≡ no_table }
    {
        Rows {
            entries: IndexMap::new(alloc),
        }
    }

    pub(crate) fn allocator(&self) -> A {
        *self.entries.allocator()
    }
}

impl<A: Allocator> Rows<A> {
    pub(crate) fn get(&self, key: &Key) -> Option<&Value<A>>
        ensures { option_copied result ≡ value_at self.now.table key.now }
    {
        self.entries.get(key)
    }

    /// Room for so many more keys.
    pub(crate) fn reserve(&mut self, count: usize) -> Result<(), AllocError>
        ensures table { self.new.table ≡ self.old.table }
        ensures room { OnOk result (count ≤ self.new.room) }
    {
        self.entries.reserve(count)
    }

    /// What a key holds from now on.
    fn put(&mut self, entry: Entry<A>)
        requires { 0 < self.old.room }
        ensures table { self.new.table ≡ with_cell self.old.table entry.0 entry.1 }
        ensures room { self.old.room ≤ self.new.room + 1 }
    {
        let Entry { key, cell } = entry;
        match cell {
            Some(value) => {
                if self.entries.insert(key, value).is_err() {
                    unreachable!()
                }
            }
            None => drop(self.entries.swap_remove(&key)),
        }
    }

    fn clear(&mut self)
        ensures table { self.new.table ≡ no_table }
        ensures room { self.old.room ≤ self.new.room }
    {
        self.entries.clear();
    }

    fn put_all(&mut self, entries: Vec<Entry<A>, A>)
        requires { vec_len entries ≤ self.old.room }
        ensures { self.new.table ≡ with_cells self.old.table entries.items }
    {
        let mut entries = entries;
        while let Some(entry) = entries.pop() {
            self.put(entry);
        }
    }

    // Gives back memory where there is room for over twice the keys.
    fn trim(&mut self)
        ensures { self.new.table ≡ self.old.table }
    {
        if self.entries.capacity() / 2 > self.entries.len() {
            self.entries.shrink_to_fit();
        }
    }

    /// What these keys hold from now on; with a full image's entries no others hold anything. It takes no
    /// memory.
    pub(crate) fn change(&mut self, kind: Kind, entries: Vec<Entry<A>, A>)
        requires { vec_len entries ≤ self.old.room }
        ensures { self.new.table ≡ changed kind self.old.table entries.items }
    {
        if kind == Kind::Full {
            self.clear();
        }
        self.put_all(entries);
        self.trim();
    }
}
