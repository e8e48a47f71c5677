//! Recoveries from chains of images.
use super::*;
use crate::tests::{CATALOG, Line, ONE, SET, catalog, image, log_of, records_of, recovered, shown};
use commitlog::LogHeader;
use image::{Image, Kind, Merger};
use phase::Phase;
use procedure::Sequence;
use std::alloc::Global;
use std::test::Fail;

/// Over an opening in which `a` holds 1: a call before the cut of a partial checkpoint, and one after it.
const CUT: [Line; 6] = [
    Line::Call(1, SET, Some(2), None),
    Line::Token(Phase::Prepare, 1),
    Line::Token(Phase::Resolve, 1),
    Line::Call(2, SET, Some(3), None),
    Line::Token(Phase::Capture, 1),
    Line::Token(Phase::Complete, 1),
];

/// Number, base and place of the partial image, in which `a` holds 2, and what is recovered.
const PARTIALS: [(
    u64,
    u64,
    u64,
    Result<(usize, bool, Option<u64>), RecoverError>,
); 4] = [
    (1, 0, 2, Ok((1, false, Some(3)))),
    (1, 0, 1, Err(RecoverError::PlaceOutside)),
    (2, 0, 2, Err(RecoverError::PlaceOutside)),
    (8, 7, 2, Err(RecoverError::Gap(0))),
];

fn partial(alloc: Global, number: u64, base: u64, place: u64) -> Result<Image<Global>, Fail> {
    let entries = image(alloc, 0, 0, Some(2))?.into_entries();
    Ok(Image::new(Kind::Partial, number, base, place, entries).ok_or("not lawful")?)
}

/// The log of the calls and tokens.
fn log_of_cut(alloc: Global) -> Result<Sequence<u8, Global>, Fail> {
    let header = LogHeader {
        catalog: CATALOG,
        opening: ONE,
    };
    let records = records_of(alloc, &CUT)?;
    log_of(alloc, &header, &records)
}

/// What is recovered from the opening and a partial image.
fn recovered_from(
    alloc: Global,
    partial: Image<Global>,
    bytes: &[u8],
) -> Result<Result<(usize, bool, Option<u64>), RecoverError>, Fail> {
    let catalog = catalog(alloc)?;
    let images = vec![in alloc; image(alloc, 0, 0, Some(1))?, partial]?;
    Ok(recovered(alloc, &catalog, &images, bytes))
}

/// What is recovered from them where they come one after another.
fn recovered_in_turn(
    alloc: Global,
    partial: Image<Global>,
    bytes: &[u8],
) -> Result<Result<(usize, bool, Option<u64>), RecoverError>, Fail> {
    let catalog = catalog(alloc)?;
    let opening = image(alloc, 0, 0, Some(1))?;
    let merger = Merger::new(alloc).push(opening)?.push(partial)?;
    Ok(shown(recover_in_turn(alloc, &catalog, merger, bytes)))
}

#[test]
fn chains(rt: HostRuntime) -> Result<(), Fail> {
    let log = log_of_cut(rt.alloc())?;
    for (number, base, place, wanted) in PARTIALS {
        let image = partial(rt.alloc(), number, base, place)?;
        let found = recovered_from(rt.alloc(), image, log.as_slice())?;
        assert_eq!(rt; found, wanted);
        let image = partial(rt.alloc(), number, base, place)?;
        let found = recovered_in_turn(rt.alloc(), image, log.as_slice())?;
        assert_eq!(rt; found, wanted);
    }
    Ok(())
}
