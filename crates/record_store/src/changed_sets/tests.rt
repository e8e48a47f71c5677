//! Tests of what no clause says: that there is memory, the byte order, and many keys.
use super::*;
use std::alloc::Global;
use std::test::Fail;

/// Keys in the order in which they join, and once more in byte order.
const ORDERS: [(&[&[u8]], &[&[u8]]); 4] = [
    (&[], &[]),
    (&[b"b", b"a", b"b"], &[b"a", b"b"]),
    (&[b"ab", b"b", b"a", b"aa"], &[b"a", b"aa", b"ab", b"b"]),
    (
        &[b"\xff", b"\x00", b"\x00\x00", b"~"],
        &[b"\x00", b"\x00\x00", b"~", b"\xff"],
    ),
];

const MANY: u32 = 100_000;

fn key(bytes: &[u8]) -> Result<Key, Fail> {
    Ok(Key::new(bytes).ok_or("not a key")?)
}

fn join(changed: &mut Changed<Global>, bytes: &[u8]) -> Result<(), Fail> {
    changed.make_room(1)?;
    changed.join(key(bytes)?);
    Ok(())
}

fn rejoin(changed: &mut Changed<Global>) -> Result<(), Fail> {
    changed.make_room(changed.frozen_count())?;
    changed.rejoin();
    Ok(())
}

/// Keys join and are frozen: how many are frozen, at how many places the one that is wanted stands, and
/// whether there is none after them.
fn frozen_as(
    changed: &mut Changed<Global>,
    joined: &[&[u8]],
    frozen: &[&[u8]],
) -> Result<(usize, usize, bool), Fail> {
    for bytes in joined {
        join(changed, bytes)?;
    }
    changed.freeze();
    let mut places = 0usize;
    for (index, bytes) in frozen.iter().enumerate() {
        if changed.frozen_key(index) == Some(key(bytes)?) {
            places = places.saturating_add(1);
        }
    }
    let ends = changed.frozen_key(frozen.len()).is_none();
    Ok((changed.frozen_count(), places, ends))
}

#[test]
fn frozen_in_byte_order(rt: HostRuntime) -> Result<(), Fail> {
    for (joined, frozen) in ORDERS {
        let mut changed = Changed::new(rt.alloc());
        let found = frozen_as(&mut changed, joined, frozen);
        drop(changed);
        assert_eq!(rt; found?, (frozen.len(), frozen.len(), true));
    }
    Ok(())
}

/// Which of three keys are collected, and which are frozen.
fn seen(changed: &mut Changed<Global>) -> Result<[[bool; 3]; 2], Fail> {
    let (a, b, c) = (key(b"a")?, key(b"b")?, key(b"c")?);
    Ok([
        [
            changed.collects(&a),
            changed.collects(&b),
            changed.collects(&c),
        ],
        [
            changed.freezes(&a),
            changed.freezes(&b),
            changed.freezes(&c),
        ],
    ])
}

/// What two checkpoints show, the second begun while the first runs: before them, in the first, once two keys
/// were written beside it, and after it.
fn shown_by_two(changed: &mut Changed<Global>) -> Result<[[[bool; 3]; 2]; 4], Fail> {
    let before = seen(changed)?;
    join(changed, b"b")?;
    join(changed, b"a")?;
    changed.freeze();
    let frozen = seen(changed)?;
    join(changed, b"b")?;
    join(changed, b"c")?;
    let beside = seen(changed)?;
    changed.clear_frozen();
    Ok([before, frozen, beside, seen(changed)?])
}

#[test]
fn two_checkpoints(rt: HostRuntime) -> Result<(), Fail> {
    let mut changed = Changed::new(rt.alloc());
    let shown = shown_by_two(&mut changed);
    drop(changed);
    let wanted = [
        [[false; 3]; 2],
        [[false; 3], [true, true, false]],
        [[false, true, true], [true, true, false]],
        [[false, true, true], [false; 3]],
    ];
    assert_eq!(rt; shown?, wanted);
    Ok(())
}

/// What is seen, and how many keys are frozen, once frozen keys joined again, and after the second of two
/// more freezes, which finds no key.
fn shown_again(
    changed: &mut Changed<Global>,
) -> Result<([[bool; 3]; 2], usize, [[bool; 3]; 2]), Fail> {
    join(changed, b"b")?;
    join(changed, b"a")?;
    changed.freeze();
    join(changed, b"c")?;
    join(changed, b"b")?;
    rejoin(changed)?;
    let again = seen(changed)?;
    let count = changed.frozen_count();
    changed.freeze();
    changed.freeze();
    Ok((again, count, seen(changed)?))
}

#[test]
fn frozen_are_collected_again(rt: HostRuntime) -> Result<(), Fail> {
    let mut changed = Changed::new(rt.alloc());
    let shown = shown_again(&mut changed);
    drop(changed);
    assert_eq!(rt; shown?, ([[true; 3], [false; 3]], 0, [[false; 3]; 2]));
    Ok(())
}

/// The room at first, when it is made, after a key joined, after it joined once more, after growths that are
/// refused, and after a freeze; and whether 1 more than can be counted was refused, and more than memory.
fn rooms(changed: &mut Changed<Global>) -> Result<([usize; 6], [bool; 2]), Fail> {
    let first = changed.room();
    changed.make_room(3)?;
    let made = changed.room();
    changed.join(key(b"a")?);
    let joined = changed.room();
    join(changed, b"a")?;
    let kept = changed.room();
    let refused = [
        changed.make_room(usize::MAX).is_err(),
        changed.make_room(usize::MAX - 1).is_err(),
    ];
    let behind = changed.room();
    changed.freeze();
    Ok(([first, made, joined, kept, behind, changed.room()], refused))
}

#[test]
fn room_is_counted(rt: HostRuntime) -> Result<(), Fail> {
    let mut changed = Changed::new(rt.alloc());
    let found = rooms(&mut changed);
    drop(changed);
    assert_eq!(rt; found?, ([0, 3, 2, 2, 2, 3], [true; 2]));
    Ok(())
}

#[test]
fn many_keys(rt: HostRuntime) -> Result<(), Fail> {
    let mut changed = Changed::new(rt.alloc());
    for number in 0..MANY {
        join(&mut changed, &(MANY - number).to_be_bytes())?;
    }
    changed.freeze();
    rejoin(&mut changed)?;
    changed.freeze();
    assert_eq!(rt; changed.frozen_count(), 100_000);
    for index in 0..MANY {
        let expected = key(&(index + 1).to_be_bytes())?;
        assert_eq!(rt; changed.frozen_key(index as usize), Some(expected));
        assert!(rt; changed.freezes(&expected));
    }
    Ok(())
}
