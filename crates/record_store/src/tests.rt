//! Tests of what no clause says: that each call succeeds, the limit of records, which slot is used
//! again, and how long many reclaims take.
use super::*;
use crate::limits::STORE_RECORDS;
use procedure::{Key, NoMemory, Value};
use std::alloc::Global;
use std::test::Fail;

type Cells = Store<Global>;

const HALF: u32 = 50_000;

fn key(n: u32) -> Result<Key, Fail> {
    Ok(Key::new(&n.to_be_bytes()).ok_or("a key has 1 to 32 bytes")?)
}

fn value(alloc: Global, n: u64) -> Result<Option<Value<Global>>, Fail> {
    Ok(Some(Value::of_number(n)))
}

fn number(cell: Option<&Value<Global>>) -> Option<u64> {
    match cell {
        Some(value) => value.as_number(),
        None => None,
    }
}

fn made(store: &mut Cells, n: u32) -> Result<usize, Fail> {
    let key = key(n)?;
    match store.find(&key) {
        Some(_) => Err("the key has a record".into()),
        None => match store.create(key, false) {
            Ok(slot) => Ok(slot),
            Err(_) => Err("no record was made".into()),
        },
    }
}

fn is_full(store: &mut Cells, n: u32) -> Result<bool, Fail> {
    let key = key(n)?;
    match store.find(&key) {
        Some(_) => Ok(false),
        None => Ok(store.create(key, true) == Err(CreateError::TableFull)),
    }
}

/// What a slot has: live, stable where there is one, available, aside.
fn seen(store: &Cells, slot: usize) -> Option<(Option<u64>, Option<Option<u64>>, bool, bool)> {
    match store.slot(slot) {
        Some(
            Record {
                key: _,
                live,
                stable,
                available,
                aside,
            },
        ) => { Some((number(live), version(stable), available, aside)) }
        None => None,
    }
}

fn version(stable: Stable<Option<&Value<Global>>>) -> Option<Option<u64>> {
    match stable {
        Stable::Empty => None,
        Stable::Was(version) => Some(number(version)),
    }
}

/// A store with this many dead records, of the keys from 0 on, each a candidate for reclaim.
fn dead_store(alloc: Global, records: u32) -> Result<Cells, Fail> {
    let mut store = Store::new(alloc);
    for n in 0..records {
        let slot = made(&mut store, n)?;
        store.reconsider(slot);
    }
    Ok(store)
}

#[test]
fn versions(rt: HostRuntime) -> Result<(), Fail> {
    let alloc = rt.alloc();
    let mut store = Store::new(alloc);
    assert!(rt; store.is_empty() && store.slots() == 0);
    let slot = made(&mut store, 7)?;
    assert_eq!(rt; store.find(&key(7)?), Some(slot));
    assert_eq!(rt;
        seen(&store, slot),
        Some((None, None, false, true)),
        "a new record"
    );
    store.write_live(slot, value(alloc, 1)?);
    store.copy_stable(slot)?;
    let before = store.write_live(slot, value(alloc, 2)?);
    assert_eq!(rt;
        seen(&store, slot),
        Some((Some(2), Some(Some(1)), false, true))
    );
    store.undo(slot, before);
    store.set_available(slot, true);
    assert_eq!(rt;
        seen(&store, slot),
        Some((Some(1), Some(Some(1)), true, true))
    );
    Ok(())
}

#[test]
fn stable_versions(rt: HostRuntime) -> Result<(), Fail> {
    let alloc = rt.alloc();
    let mut store = Store::new(alloc);
    let slot = made(&mut store, 7)?;
    store.copy_stable(slot)?;
    assert!(rt;
        matches!(store.take_stable(slot), Stable::Was(None)),
        "of a dead record"
    );
    assert!(rt;
        matches!(store.take_stable(slot), Stable::Empty),
        "it was taken"
    );
    store.write_live(slot, value(alloc, 1)?);
    store.copy_stable(slot)?;
    store.erase_stable(slot);
    assert_eq!(rt;
        seen(&store, slot),
        Some((Some(1), None, false, true)),
        "erased"
    );
    store.copy_stable(slot)?;
    store.set_available(slot, true);
    store.next_number();
    assert_eq!(rt;
        seen(&store, slot),
        Some((Some(1), None, false, true)),
        "the next number"
    );
    Ok(())
}

#[test]
fn slots_used_again(rt: HostRuntime) -> Result<(), Fail> {
    let mut store = dead_store(rt.alloc(), 4)?;
    store.reclaim(1);
    store.reclaim(2);
    assert!(rt; store.slots() == 4 && store.len() == 2);
    made(&mut store, 8)?;
    made(&mut store, 9)?;
    assert!(rt; store.slots() == 4 && store.len() == 4, "before a new one");
    made(&mut store, 10)?;
    assert_eq!(rt; store.slots(), 5);
    Ok(())
}

/// A live record is no candidate, and one that dies again is.
#[test]
fn candidates(rt: HostRuntime) -> Result<(), Fail> {
    let alloc = rt.alloc();
    let mut store = dead_store(alloc, 3)?;
    store.write_live(0, value(alloc, 1)?);
    assert_eq!(rt; store.least_candidate(), Some(1), "0 lives");
    store.set_aside(1);
    assert_eq!(rt; store.least_candidate(), Some(2), "1 is aside");
    store.reclaim(2);
    assert_eq!(rt; store.least_candidate(), None);
    store.write_live(0, None);
    assert_eq!(rt; store.least_candidate(), Some(0), "0 died again");
    store.reclaim(0);
    store.reconsider(1);
    assert_eq!(rt; store.least_candidate(), Some(1));
    Ok(())
}

#[test]
fn table_full(rt: HostRuntime) -> Result<(), Fail> {
    let mut store = dead_store(rt.alloc(), STORE_RECORDS as u32)?;
    assert!(rt; is_full(&mut store, STORE_RECORDS as u32)?);
    assert_eq!(rt; store.len(), STORE_RECORDS);
    store.reclaim(5);
    assert_eq!(rt;
        made(&mut store, STORE_RECORDS as u32)?,
        5,
        "the vacant slot"
    );
    Ok(())
}

/// Reclaims all candidates of at least HALF, and sets those below aside.
fn reclaim_upper(store: &mut Cells) -> (u32, u32) {
    let mut gone = 0u32;
    let mut aside = 0u32;
    for _ in 0..STORE_RECORDS {
        let Some(slot) = store.least_candidate() else {
            break;
        };
        if slot < HALF as usize {
            store.set_aside(slot);
            aside = aside.wrapping_add(1);
        } else {
            store.reclaim(slot);
            gone = gone.wrapping_add(1);
        }
    }
    (gone, aside)
}

/// Of 100,000 dead records 50,000 are reclaimed one by one, beside 50,000 lesser ones that may not
/// go, and then these.
#[test]
fn many_reclaims(rt: HostRuntime) -> Result<(), Fail> {
    let mut store = dead_store(rt.alloc(), STORE_RECORDS as u32)?;
    assert_eq!(rt; reclaim_upper(&mut store), (HALF, HALF));
    for slot in 0..HALF as usize {
        store.reconsider(slot);
    }
    for _ in 0..HALF {
        let slot = store.least_candidate().ok_or("a candidate is left")?;
        store.reclaim(slot);
    }
    assert!(rt; store.is_empty() && store.slots() == STORE_RECORDS);
    Ok(())
}

#[test]
fn texts(rt: HostRuntime) -> Result<(), Fail> {
    let alloc = rt.alloc();
    let full = CreateError::TableFull;
    let starved = CreateError::from(NoMemory);
    let refusals = format!(in alloc; "{full}, {starved}")?;
    assert_eq!(rt; refusals.as_str(), "table full, no memory");
    Ok(())
}
