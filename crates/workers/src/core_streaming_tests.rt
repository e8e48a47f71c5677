//! Tests of a core's streamed checkpoints beside others: one schedule in both ways, the chain after an
//! image that was lost, and a checkpoint that is sent through two rings.

use crate::core_tests::{Ask, DEL, FULL, SET, Said, answer, args, called, opened, opening, shown};
use image::{Entry, Image, Kind, MergeError, assemble, merge, seal};
use phase::Phase;
use pipe::{Drain, Tap, ring};
use std::alloc::Global;
use std::test::Fail;
use steps::*;

/// A call: a procedure, the letter of a key, and a number to put there.
type Line = (u16, u8, Option<u64>);

/// The letter of a key, and the number that it holds; no number where it is gone.
type Cell = (u8, Option<u64>);

/// A checkpoint: its kind, the calls after the first places of its scan, one after each, and the entries
/// of its image.
type Lap = (Kind, &'static [Line], &'static [Cell]);

/// Over three keys that hold 1, 2 and 3.
const LAPS: [Lap; 5] = [
    (
        Kind::Full,
        &[
            (SET, b'b', Some(8)),
            (SET, b'a', Some(7)),
            (DEL, b'c', None),
        ],
        &[(b'a', Some(1)), (b'b', Some(2)), (b'c', Some(3))],
    ),
    (
        Kind::Partial,
        &[
            (SET, b'd', Some(4)),
            (DEL, b'a', None),
            (SET, b'c', Some(6)),
        ],
        &[(b'a', Some(7)), (b'b', Some(8)), (b'c', None)],
    ),
    (
        Kind::Partial,
        &[(SET, b'a', Some(2))],
        &[(b'a', None), (b'c', Some(6)), (b'd', Some(4))],
    ),
    (
        Kind::Full,
        &[(DEL, b'd', None), (SET, b'b', Some(9))],
        &[
            (b'a', Some(2)),
            (b'b', Some(8)),
            (b'c', Some(6)),
            (b'd', Some(4)),
        ],
    ),
    (Kind::Partial, &[], &[(b'b', Some(9)), (b'd', None)]),
];

/// More places than a scan has.
const MOST: usize = 10;

/// Both ends of a ring.
#[derive(Drop)]
struct Ends {
    tap: Tap<Global>,
    drain: Drain<Global>,
}

fn ring_of_one(alloc: Global) -> Result<Ends, Fail> {
    let (tap, drain) = ring(alloc, 1)?;
    Ok(Ends { tap, drain })
}

/// A call whose number is greater than that of each before it.
fn call(alloc: Global, core: &mut Core<Global>, line: &Line) -> Result<(), Fail> {
    let (procedure, letter, number) = *line;
    let args = args(alloc, letter, number)?;
    let next = core.records().len() as u64;
    match called(core, next, procedure, args) {
        "answered" => Ok(()),
        refused => Err(refused.into()),
    }
}

fn start(core: &mut Core<Global>, kind: Kind, way: Way) -> Result<u64, Fail> {
    Ok(match way {
        Way::Whole => core.start(kind)?,
        Way::Streamed => core.start_streamed(kind)?,
    })
}

fn visit(core: &mut Core<Global>, tap: &mut Tap<Global>, way: Way) -> Result<Captured, Fail> {
    Ok(match way {
        Way::Whole => core.capture()?,
        Way::Streamed => core.capture_to(tap)?,
    })
}

/// Keeps the entry that is found in a ring.
fn receive(drain: &mut Drain<Global>, entries: &mut Vec<Entry<Global>>) -> Result<(), Fail> {
    if let Some(entry) = drain.take() {
        entries.push(entry.clone()?)?;
    }
    Ok(())
}

/// A scan with calls between its places. It returns how many places it visited.
fn scan(
    alloc: Global,
    core: &mut Core<Global>,
    ends: &mut Ends,
    entries: &mut Vec<Entry<Global>>,
    (way, calls): (Way, &[Line]),
) -> Result<usize, Fail> {
    for place in 0..MOST {
        if visit(core, &mut ends.tap, way)? == Captured::Done {
            return Ok(place);
        }
        receive(&mut ends.drain, entries)?;
        if let Some(line) = calls.get(place) {
            call(alloc, core, line)?;
        }
    }
    Ok(MOST)
}

/// The image that waits, or that of the header that does.
fn finished(
    alloc: Global,
    core: &mut Core<Global>,
    entries: &[Entry<Global>],
) -> Result<Image<Global>, Fail> {
    match core.take_header() {
        Some(header) => Ok(assemble(alloc, &header, entries)?),
        None => Ok(core.take_image().ok_or("no image")?),
    }
}

/// A whole checkpoint. What its scan sends is kept.
fn run(
    alloc: Global,
    core: &mut Core<Global>,
    ends: &mut Ends,
    entries: &mut Vec<Entry<Global>>,
    (way, kind, calls): (Way, Kind, &[Line]),
) -> Result<Phase, Fail> {
    start(core, kind, way)?;
    core.advance()?;
    core.advance()?;
    scan(alloc, core, ends, entries, (way, calls))?;
    core.advance()?;
    Ok(core.advance()?)
}

/// The image of a checkpoint.
fn checkpoint(
    alloc: Global,
    core: &mut Core<Global>,
    ends: &mut Ends,
    lap: (Way, Kind, &[Line]),
) -> Result<Image<Global>, Fail> {
    let mut entries = Vec::new(alloc);
    let image = match run(alloc, core, ends, &mut entries, lap) {
        Ok(_) => finished(alloc, core, entries.as_slice()),
        Err(fail) => Err(fail),
    };
    drop(entries);
    image
}

/// Makes a checkpoint and keeps its image.
fn keep(
    alloc: Global,
    core: &mut Core<Global>,
    ends: &mut Ends,
    images: &mut Vec<Image<Global>>,
    lap: (Way, Kind, &[Line]),
) -> Result<(), Fail> {
    let image = checkpoint(alloc, core, ends, lap)?;
    Ok(images.push(image)?)
}

/// The images of the checkpoints, which all go this way.
fn checkpoints(
    alloc: Global,
    core: &mut Core<Global>,
    ends: &mut Ends,
    images: &mut Vec<Image<Global>>,
    way: Way,
) -> Result<(), Fail> {
    for (kind, calls, _) in LAPS.iter() {
        keep(alloc, core, ends, images, (way, *kind, *calls))?;
    }
    Ok(())
}

/// Makes the checkpoints at a core of their own.
fn checkpoints_of_a_core(
    alloc: Global,
    images: &mut Vec<Image<Global>>,
    way: Way,
) -> Result<(), Fail> {
    let mut core = opened(alloc)?;
    let made = match ring_of_one(alloc) {
        Ok(mut ends) => {
            let made = checkpoints(alloc, &mut core, &mut ends, images, way);
            drop(ends);
            made
        }
        Err(fail) => Err(fail),
    };
    drop(core);
    made
}

fn fill(alloc: Global, images: &mut Vec<Image<Global>>, way: Way) -> Result<(), Fail> {
    images.push(opening(alloc)?)?;
    checkpoints_of_a_core(alloc, images, way)
}

/// The opening and then those images, so that each stands at its number.
fn images(alloc: Global, way: Way) -> Result<Vec<Image<Global>>, Fail> {
    let mut images = Vec::new(alloc);
    match fill(alloc, &mut images, way) {
        Ok(()) => Ok(images),
        Err(fail) => {
            drop(images);
            Err(fail)
        }
    }
}

fn are(entries: &[Entry<Global>], cells: &[Cell]) -> bool {
    entries.len() == cells.len()
        && entries
            .iter()
            .zip(cells)
            .all(|(entry, cell)| shown(entry) == Some(*cell))
}

/// Whether two images have the same bytes.
fn are_same(alloc: Global, one: &Image<Global>, other: &Image<Global>) -> Result<bool, Fail> {
    let bytes = seal(alloc, one)?;
    Ok(bytes.as_slice() == seal(alloc, other)?.as_slice())
}

/// Whether two lists have the same image at a number, with these entries.
fn is_same(
    alloc: Global,
    streamed: &[Image<Global>],
    whole: &[Image<Global>],
    (number, cells): (usize, &[Cell]),
) -> Result<bool, Fail> {
    match (streamed.get(number), whole.get(number)) {
        (Some(one), Some(other)) => Ok(are_same(alloc, one, other)? && are(one.entries(), cells)),
        _ => Ok(false),
    }
}

/// How many checkpoints leave the same image in both ways, before one that doesn't.
fn count_same(
    alloc: Global,
    streamed: &[Image<Global>],
    whole: &[Image<Global>],
) -> Result<usize, Fail> {
    for (i, (_, _, cells)) in LAPS.iter().enumerate() {
        if !is_same(alloc, streamed, whole, (i.saturating_add(1), *cells))? {
            return Ok(i);
        }
    }
    Ok(LAPS.len())
}

fn both_ways(alloc: Global) -> Result<usize, Fail> {
    let streamed = images(alloc, Way::Streamed)?;
    let same = match images(alloc, Way::Whole) {
        Ok(whole) => {
            let same = count_same(alloc, streamed.as_slice(), whole.as_slice());
            drop(whole);
            same
        }
        Err(fail) => Err(fail),
    };
    drop(streamed);
    same
}

#[test]
fn streamed_as_captured(rt: HostRuntime) -> Result<(), Fail> {
    assert_eq!(rt; both_ways(rt.alloc())?, LAPS.len());
    Ok(())
}

/// The number of a full image, the range of numbers of the partial ones after it, and what they make.
/// Without the second image what stands on it makes nothing, until there is a later full one.
type Chain = (usize, (usize, usize), Result<&'static [Cell], MergeError>);

const CHAINS: [Chain; 5] = [
    (
        1,
        (2, 4),
        Ok(&[(b'b', Some(8)), (b'c', Some(6)), (b'd', Some(4))]),
    ),
    (0, (3, 4), Err(MergeError::Gap(0))),
    (1, (3, 4), Err(MergeError::Gap(0))),
    (1, (5, 6), Err(MergeError::Gap(0))),
    (
        4,
        (5, 6),
        Ok(&[(b'a', Some(2)), (b'b', Some(9)), (b'c', Some(6))]),
    ),
];

/// Whether the images of a chain make what they should.
fn is_right(alloc: Global, images: &[Image<Global>], (full, (from, end), wanted): Chain) -> bool {
    match (images.get(full), images.get(from..end)) {
        (Some(full), Some(partials)) => {
            let made = merge(alloc, full, partials);
            let right = match (&made, wanted) {
                (Ok(image), Ok(cells)) => are(image.entries(), cells),
                (Err(refused), Err(wanted)) => *refused == wanted,
                _ => false,
            };
            drop(made);
            right
        }
        _ => false,
    }
}

/// How many chains make what they should, before one that doesn't.
fn count_chains(alloc: Global, images: &[Image<Global>]) -> usize {
    for (i, chain) in CHAINS.iter().enumerate() {
        if !is_right(alloc, images, *chain) {
            return i;
        }
    }
    CHAINS.len()
}

fn chains(alloc: Global) -> Result<usize, Fail> {
    let images = images(alloc, Way::Streamed)?;
    let right = count_chains(alloc, images.as_slice());
    drop(images);
    Ok(right)
}

#[test]
fn chains_after_a_lost_image(rt: HostRuntime) -> Result<(), Fail> {
    assert_eq!(rt; chains(rt.alloc())?, CHAINS.len());
    Ok(())
}

/// The ring that is used.
#[derive(Clone, Copy)]
enum Side {
    One,
    Other,
}

const SIDES: [(Side, Ask, Said); 15] = [
    (Side::One, Ask::Start(Kind::Full), Said::Number(1)),
    (Side::One, Ask::Advance, Said::Entered(Phase::Resolve)),
    (Side::One, Ask::Advance, Said::Entered(Phase::Capture)),
    (Side::One, Ask::CaptureTo, Said::Text("slot")),
    (Side::One, Ask::CaptureTo, Said::Text("ring full")),
    (Side::Other, Ask::CaptureTo, Said::Text("slot")),
    (Side::Other, Ask::CaptureTo, Said::Text("ring full")),
    (Side::One, Ask::Take, Said::Held(Some((b'a', Some(1))))),
    (Side::Other, Ask::Take, Said::Held(Some((b'b', Some(2))))),
    (Side::Other, Ask::CaptureTo, Said::Text("slot")),
    (Side::One, Ask::CaptureTo, Said::Text("done")),
    (Side::One, Ask::Take, Said::Held(None)),
    (Side::Other, Ask::Take, Said::Held(Some((b'c', Some(3))))),
    (Side::One, Ask::Advance, Said::Entered(Phase::Complete)),
    (Side::One, Ask::TakeHeader, Said::Head(Some(FULL))),
];

/// How many are answered as they should be, before one that isn't.
fn count_sides(
    alloc: Global,
    core: &mut Core<Global>,
    one: &mut Ends,
    other: &mut Ends,
) -> Result<usize, Fail> {
    for (i, (side, ask, expected)) in SIDES.iter().enumerate() {
        let said = match side {
            Side::One => answer(alloc, core, &mut one.tap, &mut one.drain, *ask)?,
            Side::Other => answer(alloc, core, &mut other.tap, &mut other.drain, *ask)?,
        };
        if said != *expected {
            return Ok(i);
        }
    }
    Ok(SIDES.len())
}

fn sides_of(alloc: Global, core: &mut Core<Global>) -> Result<usize, Fail> {
    let mut one = ring_of_one(alloc)?;
    let sides = match ring_of_one(alloc) {
        Ok(mut other) => {
            let sides = count_sides(alloc, core, &mut one, &mut other);
            drop(other);
            sides
        }
        Err(fail) => Err(fail),
    };
    drop(one);
    sides
}

fn sides(alloc: Global) -> Result<usize, Fail> {
    let mut core = opened(alloc)?;
    let sides = sides_of(alloc, &mut core);
    drop(core);
    sides
}

#[test]
fn sent_through_two_rings(rt: HostRuntime) -> Result<(), Fail> {
    assert_eq!(rt; sides(rt.alloc())?, SIDES.len());
    Ok(())
}
