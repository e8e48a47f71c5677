//! Tests of a store that comes to its greatest number.
use super::*;
use std::alloc::Global;
use std::test::Fail;

type Cells = Store<Global>;

/// A record of a key that has none: it is available and has a stable version. The slot that it is in.
fn marked(store: &mut Cells, letter: u8) -> Option<usize> {
    let key = Key::new(&[letter])?;
    if store.find(&key).is_some() {
        return None;
    }
    let slot = store.create(key, true).ok()?;
    store.copy_stable(slot).ok()?;
    Some(slot)
}

/// Whether the record of a slot is available, and whether it has a stable version.
fn seen(store: &Cells, slot: usize) -> Option<(bool, bool)> {
    match store.slot(slot) {
        Some(
            Record {
                key: _,
                live: _,
                stable,
                available,
                aside: _,
            },
        ) => Some((available, is_kept(stable))),
        None => None,
    }
}

fn is_kept(stable: Stable<Option<&Value<Global>>>) -> bool {
    match stable {
        Stable::Empty => false,
        Stable::Was(_version) => true,
    }
}

/// The store has its greatest number from now on.
fn age(store: &mut Cells) {
    store.number = u64::MAX;
}

/// What is seen of two records, of which the first was marked under number 1: before the store has its
/// greatest number, once it has it, with the second marked under that, and under the two numbers after it,
/// with the second marked as available in between.
fn aged(store: &mut Cells) -> Option<[Option<(bool, bool)>; 7]> {
    let first = marked(store, b'a')?;
    let young = seen(store, first);
    age(store);
    let second = marked(store, b'b')?;
    let old = [seen(store, first), seen(store, second)];
    store.next_number();
    let next = [seen(store, first), seen(store, second)];
    store.set_available(second, true);
    let again = seen(store, second);
    store.next_number();
    let last = seen(store, second);
    Some([young, old[0], old[1], next[0], next[1], again, last])
}

#[test]
fn after_the_greatest_number(rt: HostRuntime) -> Result<(), Fail> {
    let mut store = Store::new(rt.alloc());
    let marked = Some((true, true));
    let none = Some((false, false));
    let available = Some((true, false));
    let wanted = [marked, none, marked, none, none, available, none];
    assert_eq!(rt; aged(&mut store), Some(wanted));
    Ok(())
}
