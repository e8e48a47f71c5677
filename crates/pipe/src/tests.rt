//! Tests of what no clause says: when the ring is full, when a take finds no entry, and that the entries
//! of a thread all come through.
ghost use Rattle.std.specs.Prelude.{◌<◌, ◌≤◌};
ghost use Rattle.pipe.specs.Rings.{IsPair, SameTap, SameDrain};

use crate::{Drain, Joined, Tap, ring, send_beside};
use image::Entry;
use image::limits::ENTRIES;
use procedure::{Key, Value};
use std::alloc::Global;
use std::test::Fail;
use std::thread::Threads;

/// More turns than a thread needs for all its entries.
const TURNS: u64 = 1_000_000_000;

#[derive(Clone, Copy)]
enum Step {
    Send(u8, u64),
    Take,
}

/// What is done at a ring of one entry, and the key and number of the entry that comes of it: a `take`
/// lends it, and a `send` gives it back.
const STEPS: [(Step, Option<(u8, u64)>); 6] = [
    (Step::Send(b'x', 1), None),
    (Step::Send(b'y', 2), Some((b'y', 2))),
    (Step::Take, Some((b'x', 1))),
    (Step::Send(b'y', 2), None),
    (Step::Take, Some((b'y', 2))),
    (Step::Take, None),
];

/// The entries that came through it.
const ALL: [Option<(u8, u64)>; 3] = [Some((b'x', 1)), Some((b'y', 2)), None];

fn entry(alloc: Global, letter: u8, number: u64) -> Result<Entry<Global>, Fail> {
    Ok(Entry {
        key: Key::new(&[letter]).ok_or("no key")?,
        cell: Some(Value::of_number(number)),
    })
}

fn shown(entry: &Entry<Global>) -> Option<(u8, u64)> {
    let letter = *entry.key.as_bytes().first()?;
    Some((letter, entry.cell.as_ref()?.as_number()?))
}

fn given_back(tap: &mut Tap<Global>, entry: Entry<Global>) -> Option<(u8, u64)>
    ensures { SameTap tap.old tap.new }
{
    match tap.send(entry) {
        Ok(()) => None,
        Err(full) => shown(&full.0),
    }
}

fn lent(drain: &mut Drain<Global>) -> Option<(u8, u64)>
    ensures { SameDrain drain.old drain.new }
{
    match drain.take() {
        Some(entry) => shown(entry),
        None => None,
    }
}

fn answer(
    alloc: Global,
    tap: &mut Tap<Global>,
    drain: &mut Drain<Global>,
    step: Step,
) -> Result<Option<(u8, u64)>, Fail>
    ensures tap { SameTap tap.old tap.new }
    ensures drain { SameDrain drain.old drain.new }
{
    match step {
        Step::Send(letter, number) => Ok(given_back(tap, entry(alloc, letter, number)?)),
        Step::Take => Ok(lent(drain)),
    }
}

/// How many of the steps answer as they should, before one that doesn't.
fn count_right(
    alloc: Global,
    tap: &mut Tap<Global>,
    drain: &mut Drain<Global>,
) -> Result<usize, Fail>
    requires { IsPair tap.old drain.old }
    ensures { IsPair tap.new drain.new }
{
    for (i, (step, expected)) in STEPS.into_iter().enumerate() {
        if answer(alloc, tap, drain, step)? != expected {
            return Ok(i);
        }
    }
    Ok(STEPS.len())
}

fn at(entries: &[Entry<Global>], i: usize) -> Option<(u8, u64)> {
    shown(entries.get(i)?)
}

/// The first entries that came through.
fn through(tap: Tap<Global>, drain: Drain<Global>) -> Option<[Option<(u8, u64)>; 3]>
    requires { IsPair tap drain }
{
    let end = tap.end()?;
    let all = drain.all_after(end);
    Some([at(&all, 0), at(&all, 1), at(&all, 2)])
}

#[test]
fn ring_of_one(rt: HostRuntime) -> Result<(), Fail> {
    let (mut tap, mut drain) = ring(rt.alloc(), 1)?;
    let right = count_right(rt.alloc(), &mut tap, &mut drain)?;
    let all = through(tap, drain);
    assert_eq!(rt; right, STEPS.len());
    assert_eq!(rt; all, Some(ALL));
    Ok(())
}

fn numbered(number: u32) -> Option<Entry<Global>> {
    Some(Entry {
        key: Key::new(&number.to_be_bytes())?,
        cell: None,
    })
}

/// An entry for each number.
fn all_numbered(alloc: Global, count: usize) -> Result<Vec<Entry<Global>>, Fail> {
    let mut entries = Vec::with_capacity(alloc, count)?;
    for number in 0..count {
        entries.push(numbered(u32::try_from(number)?).ok_or("no key")?)?;
    }
    Ok(entries)
}

fn are_in_order(entries: &[Entry<Global>]) -> bool {
    entries.iter().zip(0u32..).all(|(entry, number)| entry.key.as_bytes()
        == number.to_be_bytes().as_slice())
}

/// What came of the threads.
#[derive(Clone, Copy, Debug, PartialEq, Eq)]
struct Streamed {
    sent: usize,
    next_is_full: bool,
    entries: usize,
    in_order: bool,
}

fn send_and_end<R: Threads>(
    rt: &R,
    tap: Tap<Global>,
    drain: Drain<Global>,
    entries: Vec<Entry<Global>>,
    next: Entry<Global>,
) -> Option<Streamed>
    requires { IsPair tap drain }
{
    let joined = send_beside(rt, tap, drain, entries, TURNS);
    let Joined {
        mut tap,
        drain,
        sent,
    } = joined;
    let next_is_full = tap.send(next).is_err();
    let end = tap.end()?;
    let all = drain.all_after(end);
    Some(Streamed {
        sent,
        next_is_full,
        entries: all.len(),
        in_order: are_in_order(&all),
    })
}

fn stream<R: Threads>(rt: &R, alloc: Global, capacity: usize) -> Result<Streamed, Fail>
    requires { (0 < capacity) × (capacity ≤ 4096) }
{
    let entries = all_numbered(alloc, ENTRIES)?;
    let next = numbered(0).ok_or("no key")?;
    let (tap, drain) = ring(alloc, capacity)?;
    Ok(send_and_end(rt, tap, drain, entries, next).ok_or("no end")?)
}

/// 100,000 entries come through in order, and the next is refused.
const STREAMED: Streamed = Streamed {
    sent: ENTRIES,
    next_is_full: true,
    entries: ENTRIES,
    in_order: true,
};

#[test]
fn two_threads_at_a_ring_of_one(rt: HostRuntime) -> Result<(), Fail> {
    let streamed = stream(&rt, rt.alloc(), 1)?;
    assert_eq!(rt; streamed, STREAMED);
    Ok(())
}

#[test]
fn two_threads_at_the_largest_ring(rt: HostRuntime) -> Result<(), Fail> {
    let streamed = stream(&rt, rt.alloc(), 4_096)?;
    assert_eq!(rt; streamed, STREAMED);
    Ok(())
}
