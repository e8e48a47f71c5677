//! Tests of what no clause says: that requests are granted where there is memory, and that memory is
//! used again. The rows were worked out by hand.
ghost use Rattle.std.specs.Prelude.{◌<◌, ◌≤◌};

use super::*;
use Mode::{Exclusive, Shared};
use Order::{Backwards, BothEnds, Forwards};
use Step::{Again, Asks, Refused, Released};
use Who::{One, Three, Two};
use procedure::limits::SESSIONS;
use procedure::{Key, NoMemory};
use std::alloc::Global;
use std::process::Abort;
use std::test::Fail;

/// One of three sessions.
#[derive(Clone, Copy)]
enum Who {
    One,
    Two,
    Three,
}

/// What a session does, on one key.
#[derive(Clone, Copy)]
enum Step {
    /// It asks, and is granted the lock.
    Asks(Who, Mode),
    /// It asks, and meets a conflict.
    Refused(Who, Mode),
    /// It holds again what it held before.
    Again(Who, Option<Mode>),
    /// It lets go of all its locks.
    Released(Who),
}

/// In which order sessions let go of their keys.
#[derive(Clone, Copy, Debug)]
enum Order {
    Forwards,
    Backwards,
    /// The first, the last, the second, the last but one.
    BothEnds,
}

const NOBODY: [Option<Mode>; 3] = [None, None, None];

const READER: [Option<Mode>; 3] = [Some(Shared), None, None];

const TWO_READERS: [Option<Mode>; 3] = [Some(Shared), Some(Shared), None];

const READERS: [Option<Mode>; 3] = [Some(Shared), Some(Shared), Some(Shared)];

const WRITER: [Option<Mode>; 3] = [Some(Exclusive), None, None];

const OTHER_WRITER: [Option<Mode>; 3] = [None, Some(Exclusive), None];

/// The steps, and what the three sessions hold after them.
#[derive(Clone, Copy)]
struct Row<'a>(&'a [Step], [Option<Mode>; 3]);

/// Which locks go together.
const MATRIX: [Row<'static>; 8] = [
    Row(&[], NOBODY),
    Row(&[Asks(One, Shared), Asks(Two, Shared)], TWO_READERS),
    Row(&[Asks(One, Shared), Refused(Two, Exclusive)], READER),
    Row(&[Asks(One, Exclusive), Refused(Two, Shared)], WRITER),
    Row(&[Asks(One, Exclusive), Refused(Two, Exclusive)], WRITER),
    Row(
        &[Asks(One, Shared), Asks(Two, Shared), Asks(Three, Shared)],
        READERS,
    ),
    Row(
        &[
            Asks(One, Shared),
            Asks(Two, Shared),
            Refused(Three, Exclusive),
        ],
        TWO_READERS,
    ),
    Row(
        &[
            Asks(One, Exclusive),
            Refused(Two, Shared),
            Refused(Three, Shared),
        ],
        WRITER,
    ),
];

/// A second request of a session that holds the key.
const SECOND: [Row<'static>; 6] = [
    Row(&[Asks(One, Shared), Asks(One, Shared)], READER),
    Row(&[Asks(One, Exclusive), Asks(One, Exclusive)], WRITER),
    Row(&[Asks(One, Exclusive), Asks(One, Shared)], WRITER),
    Row(&[Asks(One, Shared), Asks(One, Exclusive)], WRITER),
    Row(
        &[
            Asks(One, Shared),
            Asks(Two, Shared),
            Refused(One, Exclusive),
        ],
        TWO_READERS,
    ),
    Row(
        &[
            Asks(One, Shared),
            Asks(Two, Shared),
            Released(Two),
            Asks(One, Exclusive),
        ],
        WRITER,
    ),
];

/// Locks that go back, or away.
const BACK: [Row<'static>; 7] = [
    Row(&[Asks(One, Shared), Again(One, None)], NOBODY),
    Row(&[Asks(One, Shared), Again(One, Some(Shared))], READER),
    Row(&[Again(Two, None), Asks(One, Exclusive)], WRITER),
    Row(
        &[Asks(One, Exclusive), Again(One, None), Asks(Two, Exclusive)],
        OTHER_WRITER,
    ),
    Row(
        &[
            Asks(One, Shared),
            Asks(One, Exclusive),
            Again(One, Some(Shared)),
            Asks(Two, Shared),
        ],
        TWO_READERS,
    ),
    Row(
        &[
            Asks(One, Shared),
            Asks(Two, Shared),
            Asks(Three, Shared),
            Released(Three),
        ],
        TWO_READERS,
    ),
    Row(
        &[Asks(One, Exclusive), Released(One), Asks(Two, Exclusive)],
        OTHER_WRITER,
    ),
];

fn key(bytes: &[u8]) -> Result<Key, Fail> {
    Ok(Key::new(bytes).ok_or("no key")?)
}

fn number(who: Who) -> usize
    ensures { result < SESSIONS }
{
    match who {
        One => 0,
        Two => 31,
        Three => 63,
    }
}

/// Restores a lock, which is to be no stronger than the one that is held.
fn give_back(
    table: &mut LockTable<Global>,
    session: usize,
    key: &Key,
    mode: Option<Mode>,
) -> Result<(), Fail>
    requires { session < SESSIONS }
{
    let held = table.mode_of(session, key).is_some();
    match mode {
        None => table.restore(session, key, None),
        Some(Shared) if held => table.restore(session, key, Some(Shared)),
        Some(_) => None.ok_or("a stronger lock")?,
    }
    Ok(())
}

fn take(rt: &impl Abort, table: &mut LockTable<Global>, key: &Key, step: Step) -> Result<(), Fail> {
    match step {
        Asks(who, mode) => {
            let held = table.mode_of(number(who), key);
            assert_eq!(rt; table.request(number(who), key, mode)?, held);
        }
        Refused(who, mode) => {
            let answer = table.request(number(who), key, mode);
            assert_eq!(rt; answer, Err(LockError::Conflict));
        }
        Again(who, mode) => give_back(table, number(who), key, mode)?,
        Released(who) => table.release_all(number(who)),
    }
    Ok(())
}

fn run_row(rt: &impl Abort, alloc: Global, row: Row<'static>) -> Result<(), Fail> {
    let key = key(b"a")?;
    let mut table = LockTable::new(alloc)?;
    for step in row.0 {
        take(rt, &mut table, &key, *step)?;
    }
    for (who, mode) in [One, Two, Three].iter().zip(row.1) {
        assert_eq!(rt; table.mode_of(number(*who), &key), mode);
    }
    assert_eq!(rt; table.is_free(&key), row.1 == NOBODY);
    Ok(())
}

fn run_rows(rt: &impl Abort, alloc: Global, rows: &[Row<'static>]) -> Result<(), Fail> {
    for row in rows {
        run_row(rt, alloc, *row)?;
    }
    Ok(())
}

#[test]
fn compatibility(rt: HostRuntime) -> Result<(), Fail> {
    run_rows(&rt, rt.alloc(), &MATRIX)
}

#[test]
fn second_request(rt: HostRuntime) -> Result<(), Fail> {
    run_rows(&rt, rt.alloc(), &SECOND)
}

#[test]
fn back_and_away(rt: HostRuntime) -> Result<(), Fail> {
    run_rows(&rt, rt.alloc(), &BACK)
}

/// A session lets go of all its keys, and of no other session's.
#[test]
fn many_keys(rt: HostRuntime) -> Result<(), Fail> {
    let mut table = LockTable::new(rt.alloc())?;
    for byte in 0..=255u8 {
        let key = key(&[byte])?;
        table.request(5, &key, Shared)?;
        if byte % 2 == 0 {
            table.request(6, &key, Shared)?;
        } else {
            table.request(5, &key, Exclusive)?;
        }
    }
    table.release_all(5);
    for byte in 0..=255u8 {
        let key = key(&[byte])?;
        let left = if byte % 2 == 0 { Some(Shared) } else { None };
        assert_eq!(rt; table.mode_of(5, &key), None, "key {byte}");
        assert_eq!(rt; table.mode_of(6, &key), left, "key {byte}");
        assert_eq!(rt; table.is_free(&key), left.is_none(), "key {byte}");
    }
    Ok(())
}

/// The session whose turn it is, of so many.
fn session_at(turn: usize, sessions: usize, order: Order) -> usize
    requires turn { turn < sessions }
    requires sessions { sessions ≤ SESSIONS }
    ensures { result < sessions }
{
    match order {
        Forwards => turn,
        Backwards => sessions - 1 - turn,
        BothEnds if turn % 2 == 0 => turn / 2,
        BothEnds => sessions - 1 - turn / 2,
    }
}

/// Each of so many sessions has a key to itself; those before a turn let go of theirs.
fn assert_held(
    rt: &impl Abort,
    table: &LockTable<Global>,
    from: usize,
    sessions: usize,
    order: Order,
) -> Result<(), Fail>
    requires { sessions ≤ SESSIONS }
{
    for turn in 0..sessions {
        let session = session_at(turn, sessions, order);
        let mode = table.mode_of(session, &key(&[session as u8])?);
        let wanted = if turn < from { None } else { Some(Exclusive) };
        assert_eq!(rt;
            mode,
            wanted,
            "{turn} of {sessions} {order:?}, from {from} on"
        );
    }
    Ok(())
}

/// Each session takes a key, and lets go of it in its turn, once more after it took it again.
fn run_turns(rt: &impl Abort, alloc: Global, sessions: usize, order: Order) -> Result<(), Fail>
    requires { sessions ≤ SESSIONS }
{
    let mut table = LockTable::new(alloc)?;
    for session in 0..sessions {
        table.request(session, &key(&[session as u8])?, Exclusive)?;
    }
    for turn in 0..sessions {
        assert_held(rt, &table, turn, sessions, order)?;
        let session = session_at(turn, sessions, order);
        table.release_all(session);
        table.request(session, &key(&[session as u8])?, Shared)?;
        table.release_all(session);
    }
    assert_held(rt, &table, sessions, sessions, order)
}

/// Few keys and many, and those numbers between at which the table begins to keep them otherwise.
#[test]
fn released_in_turn(rt: HostRuntime) -> Result<(), Fail> {
    for sessions in 0..=20 {
        for order in [Forwards, Backwards, BothEnds] {
            run_turns(&rt, rt.alloc(), sessions, order)?;
        }
    }
    Ok(())
}

/// The room that is there after one key is the room that is there after 100,000, of which eight are
/// held at one time.
#[test]
fn memory_is_used_again(rt: HostRuntime) -> Result<(), Fail> {
    let mut table = LockTable::new(rt.alloc())?;
    let mut most = (0, 0);
    for n in 0..100_000u32 {
        table.request(9, &key(&n.to_be_bytes())?, Exclusive)?;
        if n % 8 == 7 {
            table.release_all(9);
        }
        if n == 100 {
            most = table.capacities(9);
        }
    }
    assert_eq!(rt; table.capacities(9), most);
    assert!(rt; most.0 < 100 && most.1 < 100);
    Ok(())
}

#[test]
fn texts(rt: HostRuntime) -> Result<(), Fail> {
    let alloc = rt.alloc();
    let modes = format!(in alloc; "{Shared} {Exclusive}")?;
    assert_eq!(rt; modes.as_str(), "shared exclusive");
    let refused = LockError::Conflict;
    let starved = LockError::from(NoMemory);
    let refusals = format!(in alloc; "{refused}, {starved}")?;
    assert_eq!(rt; refusals.as_str(), "conflict, no memory");
    Ok(())
}
