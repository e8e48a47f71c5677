//! Entries in layers, of which each counts over those below it.

ghost use Rattle.std.specs.Prelude.{◌≡◌, ℕ, ◌+◌, ◌<◌, ◌≤◌, ◌++◌, IfOk, OnOk, drop, length, map, slice_index_or, slice_set, take};
ghost use Rattle.std.specs.Option.{option_to_list};
ghost use Rattle.std.specs.Ordering.{nat_cmp};
ghost use Rattle.std.specs.Cmp.Lexicographic.{slice_cmp};
ghost use Rattle.procedure.specs.Bytes.{Bytes};
ghost use Rattle.procedure.specs.Table.{no_table, with_cells};
ghost use Rattle.image.specs.Images.{Entry as SpecEntry, Rises, entries_of};
ghost use Rattle.image.specs.Joins.{Say, later_of};

use crate::entries::{Entry, compared};
use procedure::{Key, NoMemory};
use std::alloc::{AllocError, Allocator};
use std::cmp::Ordering;
use std::marker::Model;

/// What a table holds, as lists of entries in the order of their keys. Of two lists that name a key the
/// later counts. A new list is put together with the last as long as that has no more than twice as many
/// entries, so that an entry is looked at a number of times that goes by the logarithm of all.
#[derive(Debug, Drop)]
pub(crate) struct Layers<A: Allocator> {
    lists: Vec<Vec<Entry<A>, A>, A>,
}

impl<A: Allocator> Model for Layers<A> {
    ghost use Rattle.procedure.specs.Table.{Table};
    ghost use Rattle.image.specs.Layers.{AllRise, layers_of, table_of_layers};
    ghost use Rattle.image.specs.Tables.{table_code};

    ghost Value = { Table };

    ghost coded = { table_code };

    ghost view = { table_of_layers };

    ghost invariant = { λ l. AllRise (layers_of l) };
}

/// Where a key stands among entries from a place on, as a binary search tells it: its place, or the first
/// whose key is above.
fn place_of<A: Allocator>(entries: &[Entry<A>], from: usize, key: &Key) -> Result<usize, usize>
    ensures within { IfOk result (λ at. at < length entries.now) }
    ensures key { IfOk result (λ at. (e : SpecEntry) → (slice_index_or entries.now at e).0 ≡ key.now) }
{
    let mut at = from;
    while at < entries.len() {
        match compared(&entries[at], key) {
            Ordering::Less => at += 1,
            Ordering::Equal => return Ok(at),
            Ordering::Greater => return Err(at),
        }
    }
    Err(at)
}

/// Moves the cell of an entry into another.
fn move_cell<A: Allocator>(from: &mut Entry<A>, to: &mut Entry<A>)
    ensures { to.new ≡ (to.old.0, from.old.1) }
{
    to.cell = from.cell.take();
}

/// Gives the cells of the newer list to the keys that the older one has. The newer list's other entries
/// are left to it, in its memory.
fn replaced<A: Allocator>(older: &mut Vec<Entry<A>, A>, newer: &mut Vec<Entry<A>, A>)
    requires older { Rises older.old.items }
    requires newer { Rises newer.old.items }
    ensures older { Rises older.new.items }
    ensures others { Rises newer.new.items }
    ensures says { (q : Bytes) → later_of older.new.items newer.new.items q ≡ later_of older.old.items newer.old.items q }
{
    let mut count = 0;
    let mut at = 0;
    for index in 0..newer.len() {
        match place_of(older.as_slice(), at, &newer[index].key) {
            Ok(place) => {
                move_cell(&mut newer[index], &mut older[place]);
                at = place;
            }
            Err(place) => {
                newer.swap(count, index);
                count += 1;
                at = place;
            }
        }
    }
    newer.truncate(count);
}

/// As many entries more behind these, which have the keys of others and no values. Memory is taken once.
fn make_places<A: Allocator>(
    entries: &mut Vec<Entry<A>, A>,
    others: &[Entry<A>],
) -> Result<(), NoMemory>
    ensures { OnOk result (entries.new.items ≡ entries.old.items ++ map (λ e. (e.0, None)) others.now) }
{
    entries.reserve(others.len())?;
    for entry in others {
        entries.push_reserved(Entry {
            key: entry.key,
            cell: None,
        });
    }
    Ok(())
}

/// How the last of so many entries compares with a key. Where there is none it counts as below.
fn last_compared<A: Allocator>(entries: &[Entry<A>], count: usize, key: &Key) -> Ordering
    requires { count ≤ length entries.now }
    ensures none { count ≡ 0 → result ≡ Ordering.Less }
    ensures last { (at : ℕ) → (e : SpecEntry) → count ≡ at + 1 → result ≡ slice_cmp nat_cmp (slice_index_or entries.now at e).0 key.now }
{
    if count == 0 {
        return Ordering::Less;
    }
    compared(&entries[count - 1], key)
}

/// Puts an entry at a place, over what stood there.
fn put<A: Allocator>(entries: &mut Vec<Entry<A>, A>, at: usize, entry: Entry<A>)
    requires { at < length entries.old.items }
    ensures { entries.new.items ≡ slice_set entries.old.items at entry }
{
    entries[at] = entry;
}

/// Takes out the entries from a place up to another. The others move only where there are any.
fn take_out<A: Allocator>(entries: &mut Vec<Entry<A>, A>, from: usize, to: usize)
    requires order { from ≤ to }
    requires within { to ≤ length entries.old.items }
    ensures { entries.new.items ≡ take from entries.old.items ++ drop to entries.old.items }
{
    if from < to {
        drop(entries.drain(from..to));
    }
}

/// Two lists as one, in the memory of the older; at a key of both the newer counts. Memory is taken for
/// the newer's entries alone. They come in from the back, so that of the older's only those move that are
/// above one of them.
fn joined<A: Allocator>(
    mut older: Vec<Entry<A>, A>,
    mut newer: Vec<Entry<A>, A>,
) -> Result<Vec<Entry<A>, A>, NoMemory>
    requires older { Rises older.items }
    requires newer { Rises newer.items }
    ensures { IfOk result (λ es. Say (later_of older.items newer.items) es.items) }
{
    let mut left = older.len();
    make_places(&mut older, newer.as_slice())?;
    let mut at = older.len();
    while let Some(last) = newer.as_slice().last() {
        at -= 1;
        match last_compared(older.as_slice(), left, &last.key) {
            Ordering::Less => put(&mut older, at, newer.take_last()),
            Ordering::Equal => {
                left -= 1;
                put(&mut older, at, newer.take_last());
            }
            Ordering::Greater => {
                left -= 1;
                older.swap(left, at);
            }
        }
    }
    take_out(&mut older, left, at);
    Ok(older)
}

/// A list with a newer one over it. Memory is taken only for keys that are new.
fn covered<A: Allocator>(
    mut older: Vec<Entry<A>, A>,
    mut newer: Vec<Entry<A>, A>,
) -> Result<Vec<Entry<A>, A>, NoMemory>
    requires older { Rises older.items }
    requires newer { Rises newer.items }
    ensures { IfOk result (λ es. Say (later_of older.items newer.items) es.items) }
{
    replaced(&mut older, &mut newer);
    if newer.is_empty() {
        return Ok(older);
    }
    joined(older, newer)
}

/// Takes off the last list, where it has no more than twice as many entries.
fn take_like<A: Allocator>(
    lists: &mut Vec<Vec<Entry<A>, A>, A>,
    count: usize,
) -> Option<Vec<Entry<A>, A>>
    ensures { lists.old.items ≡ lists.new.items ++ option_to_list result }
{
    if lists.as_slice().last()?.len() / 2 > count {
        return None;
    }
    lists.pop()
}

impl<A: Allocator> Layers<A> {
    /// The empty table, which takes no memory.
    pub(crate) fn new(alloc: A) -> Self
        ensures { result ≡ no_table }
    {
        Layers {
            lists: Vec::new(alloc),
        }
    }

    /// The table changed by these entries.
    pub(crate) fn with(self, entries: Vec<Entry<A>, A>) -> Result<Self, NoMemory>
        requires { Rises entries.items }
        ensures { IfOk result (λ l. l ≡ with_cells self entries.items) }
    {
        let Layers { mut lists } = self;
        let mut newest = entries;
        while let Some(older) = take_like(&mut lists, newest.len()) {
            newest = covered(older, newest)?;
        }
        lists.push(newest)?;
        Ok(Layers { lists })
    }

    /// The entries of the table.
    pub(crate) fn into_entries(self, alloc: A) -> Result<Vec<Entry<A>, A>, NoMemory>
        ensures { IfOk result (λ es. es.items ≡ entries_of self) }
    {
        let Layers { mut lists } = self;
        let mut all = Vec::new(alloc);
        while let Some(older) = lists.pop() {
            all = covered(older, all)?;
        }
        all.retain(|entry| entry.cell.is_some());
        all.shrink_to_fit();
        Ok(all)
    }
}
