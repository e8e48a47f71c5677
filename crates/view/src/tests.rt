//! Tests of what no clause says: that calls succeed where there is memory, and what lookers in threads see
//! beside a publisher at work.
ghost use Rattle.std.specs.Prelude.{◌≡◌};
ghost use Rattle.view.specs.Views.{name_of};

use crate::limits::LOOKERS;
use crate::{AppendError, LookError, Looker, Naming, Opened, Publisher, Seen, open_view};
use image::{Entry, Image, Kind};
use procedure::{Key, Value};
use std::alloc::Global;
use std::marker::Brand;
use std::sync::Wait;
use std::test::Fail;
use std::thread;
use std::thread::Threads;

type Cells = &'static [(u8, Option<u64>)];

#[derive(Clone, Copy)]
enum Step {
    /// Appends a full image of this number.
    Full(u64, Cells),
    /// Appends a partial image of this number that stands on this base.
    Partial(u64, u64, Cells),
    Publish,
    Learn,
    Look(u8),
    /// From now on another looker is asked, with what it was given.
    Another,
}

#[derive(Clone, Copy, PartialEq, Eq)]
enum Reply {
    Done,
    Refused(AppendError),
    Shown(u64, Option<u64>),
}

/// What is done at a view, and what is answered.
const STEPS: [(Step, Reply); 26] = [
    (Step::Look(b'a'), Reply::Shown(0, None)),
    (Step::Publish, Reply::Done),
    (
        Step::Partial(2, 1, &[]),
        Reply::Refused(AppendError::NotFull),
    ),
    (Step::Full(1, &[(b'a', Some(1))]), Reply::Done),
    (Step::Publish, Reply::Done),
    (Step::Look(b'a'), Reply::Shown(1, Some(1))),
    (Step::Full(1, &[]), Reply::Refused(AppendError::Older)),
    (Step::Partial(1, 0, &[]), Reply::Refused(AppendError::Older)),
    (Step::Partial(3, 2, &[]), Reply::Refused(AppendError::Gap)),
    (Step::Partial(2, 1, &[(b'a', None)]), Reply::Done),
    (Step::Partial(3, 1, &[]), Reply::Refused(AppendError::Gap)),
    (Step::Look(b'a'), Reply::Shown(1, Some(1))),
    (Step::Publish, Reply::Done),
    (Step::Learn, Reply::Done),
    (Step::Look(b'a'), Reply::Shown(2, None)),
    (Step::Another, Reply::Done),
    (Step::Look(b'a'), Reply::Shown(2, None)),
    (
        Step::Partial(3, 2, &[(b'a', Some(3)), (b'b', Some(4))]),
        Reply::Done,
    ),
    (
        Step::Full(9, &[(b'b', Some(7)), (b'c', Some(8))]),
        Reply::Done,
    ),
    (Step::Publish, Reply::Done),
    (Step::Look(b'a'), Reply::Shown(9, None)),
    (Step::Look(b'b'), Reply::Shown(9, Some(7))),
    (
        Step::Partial(10, 9, &[(b'b', None), (b'd', Some(1))]),
        Reply::Done,
    ),
    (Step::Publish, Reply::Done),
    (Step::Look(b'b'), Reply::Shown(10, None)),
    (Step::Look(b'c'), Reply::Shown(10, Some(8))),
];

fn key(letter: u8) -> Result<Key, Fail> {
    Ok(Key::new(&[letter]).ok_or("no key")?)
}

fn entry(alloc: Global, letter: u8, number: Option<u64>) -> Result<Entry<Global>, Fail> {
    let key = key(letter)?;
    match number {
        Some(number) => Ok(Entry {
            key,
            cell: Some(Value::of_number(number)),
        }),
        None => Ok(Entry { key, cell: None }),
    }
}

fn image(
    alloc: Global,
    kind: Kind,
    number: u64,
    base: u64,
    cells: &[(u8, Option<u64>)],
) -> Result<Image<Global>, Fail> {
    let mut entries = Vec::with_capacity(alloc, cells.len())?;
    for cell in cells {
        entries.push(entry(alloc, cell.0, cell.1)?)?;
    }
    Ok(Image::new(kind, number, base, 0, entries).ok_or("no image")?)
}

fn append<J: Naming, R: Wait + Drop>(
    publisher: &mut Publisher<J, R, Global>,
    image: Image<Global>,
) -> Reply {
    match publisher.append(image) {
        Ok(()) => Reply::Done,
        Err(refusal) => Reply::Refused(refusal),
    }
}

fn look<J: Naming>(
    looker: &mut Looker<J, Global>,
    seen: Seen<J, Global>,
    key: &Key,
) -> (Option<(u64, Option<u64>)>, Seen<J, Global>) {
    match looker.get(seen, key) {
        Ok(answer) => {
            let number = match &answer.value {
                Some(value) => value.as_number(),
                None => None,
            };
            (Some((answer.number, number)), answer.seen)
        }
        Err(refused) => (None, refused.seen),
    }
}

fn answer<J: Naming, R: Wait + Drop>(
    alloc: Global,
    publisher: &mut Publisher<J, R, Global>,
    looker: &mut Looker<J, Global>,
    seen: Seen<J, Global>,
    step: Step,
) -> Result<(Reply, Seen<J, Global>), Fail> {
    match step {
        Step::Full(number, cells) => {
            let image = image(alloc, Kind::Full, number, number, cells)?;
            Ok((append(publisher, image), seen))
        }
        Step::Partial(number, base, cells) => {
            let image = image(alloc, Kind::Partial, number, base, cells)?;
            Ok((append(publisher, image), seen))
        }
        Step::Publish => {
            publisher.publish()?;
            Ok((Reply::Done, seen))
        }
        Step::Learn => Ok((Reply::Done, looker.learn(seen, publisher.tell()))),
        Step::Look(letter) => {
            let (shown, seen) = look(looker, seen, &key(letter)?);
            let (number, value) = shown.ok_or("no answer")?;
            Ok((Reply::Shown(number, value), seen))
        }
        Step::Another => {
            let (other, lent) = looker.another(&seen)?;
            *looker = other;
            Ok((Reply::Done, lent))
        }
    }
}

/// How many of the steps answer as they should, before one that doesn't.
fn count_right<J: Naming, R: Wait>(
    rt: &R,
    alloc: Global,
    opened: Opened<Global>,
) -> Result<usize, Fail>
    requires { name_of opened ≡ J.book }
{
    let (mut publisher, mut looker, mut seen) = open_view::<J, &R, Global>(alloc, rt, opened)?;
    for (i, (step, expected)) in STEPS.into_iter().enumerate() {
        let (reply, then) = answer(alloc, &mut publisher, &mut looker, seen, step)?;
        seen = then;
        if reply != expected {
            return Ok(i);
        }
    }
    Ok(STEPS.len())
}

#[test]
fn published_view(rt: HostRuntime) -> Result<(), Fail> {
    let right = count_right::<Brand, _>(&rt, rt.alloc(), Opened::new())?;
    assert_eq!(rt; right, STEPS.len());
    Ok(())
}

/// How many lookers there can be beside the first.
fn count_lookers<J: Naming, R: Wait>(
    rt: &R,
    alloc: Global,
    opened: Opened<Global>,
) -> Result<usize, Fail>
    requires { name_of opened ≡ J.book }
{
    let (_publisher, looker, seen) = open_view::<J, &R, Global>(alloc, rt, opened)?;
    let mut others = Vec::with_capacity(alloc, 2 * LOOKERS)?;
    for _ in 0..2 * LOOKERS {
        match looker.another(&seen) {
            Ok(other) => others.push(other)?,
            Err(_) => break,
        }
    }
    Ok(others.len())
}

#[test]
fn most_lookers(rt: HostRuntime) -> Result<(), Fail> {
    let others = count_lookers::<Brand, _>(&rt, rt.alloc(), Opened::new())?;
    assert_eq!(rt; others, LOOKERS - 1);
    Ok(())
}

/// Why a looker gets nothing once its publisher was dropped.
fn look_after<J: Naming, R: Wait>(
    rt: &R,
    alloc: Global,
    opened: Opened<Global>,
) -> Result<Option<LookError>, Fail>
    requires { name_of opened ≡ J.book }
{
    let (mut publisher, mut looker, seen) = open_view::<J, &R, Global>(alloc, rt, opened)?;
    publisher.append(numbered(alloc, 1)?)?;
    publisher.publish()?;
    drop(publisher);
    match looker.get(seen, &key(b'a')?) {
        Ok(_) => Ok(None),
        Err(refused) => Ok(Some(refused.error)),
    }
}

#[test]
fn looker_without_publisher(rt: HostRuntime) -> Result<(), Fail> {
    let error = look_after::<Brand, _>(&rt, rt.alloc(), Opened::new())?;
    assert!(rt; error == Some(LookError::NotEntered));
    Ok(())
}

/// The images that are published beside lookers.
const IMAGES: u64 = 1_000;

/// More turns than a looker needs to see the last of them.
const TURNS: u64 = 1_000_000_000;

/// What a looker saw: the last number, how often a number fell, and how often a value was not its number.
#[derive(Clone, Copy, Debug, PartialEq, Eq)]
struct Sight {
    last: u64,
    falls: u64,
    wrong: u64,
}

/// Looks until the last image is seen.
fn watch<J: Naming>(looker: Looker<J, Global>, seen: Seen<J, Global>, key: Key) -> Sight {
    let mut looker = looker;
    let mut seen = seen;
    let mut sight = Sight {
        last: 0,
        falls: 0,
        wrong: 0,
    };
    for _ in 0..TURNS {
        let (shown, then) = look(&mut looker, seen, &key);
        seen = then;
        if let Some((number, value)) = shown {
            if number < sight.last {
                sight.falls = sight.falls.saturating_add(1);
            }
            if value.unwrap_or(0) != number {
                sight.wrong = sight.wrong.saturating_add(1);
            }
            sight.last = number;
        }
        if sight.last == IMAGES {
            break;
        }
        thread::yield_now();
    }
    sight
}

/// The image in which `a` holds the image's number.
fn numbered(alloc: Global, number: u64) -> Result<Image<Global>, Fail> {
    let cells = [(b'a', Some(number))];
    if number == 1 {
        image(alloc, Kind::Full, 1, 1, &cells)
    } else {
        image(
            alloc,
            Kind::Partial,
            number,
            number.saturating_sub(1),
            &cells,
        )
    }
}

fn publish_all<J: Naming, R: Wait + Drop>(
    alloc: Global,
    publisher: &mut Publisher<J, R, Global>,
) -> Result<(), Fail> {
    for number in 1..=IMAGES {
        publisher.append(numbered(alloc, number)?)?;
        publisher.publish()?;
    }
    Ok(())
}

/// What four lookers saw beside the publisher, each in a thread of its own.
fn watch_beside<J: Naming + Send + Sync, R: Threads + Wait + Sync>(
    rt: &R,
    alloc: Global,
    opened: Opened<Global>,
) -> Result<[Sight; 4], Fail>
    requires { name_of opened ≡ J.book }
{
    let (mut publisher, a, of_a) = open_view::<J, &R, Global>(alloc, rt, opened)?;
    let (b, of_b) = a.another(&of_a)?;
    let (c, of_c) = a.another(&of_a)?;
    let (d, of_d) = a.another(&of_a)?;
    let key = key(b'a')?;
    let ((first, second), ((third, fourth), published)) = thread::join(
        rt,
        move || thread::join(rt, move || watch(a, of_a, key), move || watch(b, of_b, key)),
        || {
            thread::join(
                rt,
                move || thread::join(rt, move || watch(c, of_c, key), move || watch(d, of_d, key)),
                || publish_all(alloc, &mut publisher),
            )
        },
    );
    published?;
    Ok([first, second, third, fourth])
}

const ALL_SEEN: Sight = Sight {
    last: IMAGES,
    falls: 0,
    wrong: 0,
};

#[test]
fn lookers_beside_a_publisher(rt: HostRuntime) -> Result<(), Fail> {
    let seen = watch_beside::<Brand, _>(&rt, rt.alloc(), Opened::new())?;
    assert_eq!(rt; seen, [ALL_SEEN; 4]);
    Ok(())
}
