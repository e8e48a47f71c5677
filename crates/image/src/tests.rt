//! Tests of what no clause says: worked examples, limits, digests made by another program, and that
//! each call succeeds.
use super::*;
use crate::limits::{ENTRIES, IMAGES};
use procedure::{Key, Sequence, Table, Value};
use std::alloc::Global;
use std::process::Abort;
use std::test::Fail;

/// A key of one letter, and the number that it holds; no number where it is gone.
pub(crate) type Given = (u8, Option<u64>);

/// The digest of the chain of `b` with 2 and then `a` with 1, by another program.
const TWO_DIGEST: [u8; 32] = [
    0xa5, 0x8b, 0x2e, 0xdb, 0x2a, 0xfc, 0x17, 0x80, 0x92, 0xbb, 0x90, 0xf6, 0x7d, 0x10, 0xb7, 0x8d,
    0xb4, 0x7c, 0x63, 0x0e, 0x59, 0xae, 0xbe, 0x86, 0x94, 0x1b, 0x33, 0x13, 0xd5, 0xdb, 0x19, 0x81,
];

/// The digest of the chain of `a`, gone.
const GONE_DIGEST: [u8; 32] = [
    0xe1, 0x6e, 0xf9, 0xd0, 0xf9, 0x90, 0x46, 0x8b, 0x81, 0x56, 0x85, 0x14, 0x8f, 0x49, 0x7e, 0x76,
    0x4d, 0xab, 0xd7, 0x0c, 0xa5, 0xf7, 0x42, 0xfe, 0xe2, 0xc1, 0x95, 0x3e, 0x4f, 0x81, 0x0d, 0xcd,
];

/// Kind, number, base, entries, and whether they make an image.
const LAWFUL: [(Kind, u64, u64, &[Given], bool); 11] = [
    (Kind::Full, 0, 0, &[], true),
    (Kind::Full, 1, 1, &[(b'a', Some(2)), (b'b', Some(1))], true),
    (Kind::Full, 1, 0, &[], false),
    (Kind::Full, 1, 2, &[], false),
    (Kind::Full, 1, 1, &[(b'a', None)], false),
    (Kind::Full, 1, 1, &[(b'a', Some(1)), (b'a', Some(1))], false),
    (Kind::Full, 1, 1, &[(b'b', Some(1)), (b'a', Some(1))], false),
    (Kind::Partial, 1, 0, &[(b'a', None)], true),
    (Kind::Partial, 5, 3, &[(b'a', None), (b'b', Some(1))], true),
    (Kind::Partial, 1, 1, &[], false),
    (Kind::Partial, 1, 2, &[], false),
];

/// Kind, number, base, entries as they were captured, and those of their image, if they make one.
const CAPTURES: [(Kind, u64, u64, &[Given], Option<&[Given]>); 6] = [
    (Kind::Full, 0, 0, &[], Some(&[])),
    (
        Kind::Full,
        1,
        1,
        &[(b'c', Some(3)), (b'a', Some(1)), (b'b', Some(2))],
        Some(&[(b'a', Some(1)), (b'b', Some(2)), (b'c', Some(3))]),
    ),
    (
        Kind::Partial,
        5,
        3,
        &[(b'b', None), (b'a', Some(1))],
        Some(&[(b'a', Some(1)), (b'b', None)]),
    ),
    (
        Kind::Full,
        1,
        1,
        &[(b'b', Some(1)), (b'a', Some(2)), (b'b', Some(1))],
        None,
    ),
    (Kind::Full, 1, 1, &[(b'b', Some(1)), (b'a', None)], None),
    (Kind::Partial, 1, 1, &[(b'a', Some(1))], None),
];

fn entry(alloc: Global, given: Given) -> Result<Entry<Global>, Fail> {
    let cell = match given.1 {
        Some(number) => Some(Value::of_number(number)),
        None => None,
    };
    Ok(Entry {
        key: Key::new(&[given.0]).ok_or("no key")?,
        cell,
    })
}

pub(crate) fn entries(alloc: Global, given: &[Given]) -> Result<Vec<Entry<Global>>, Fail> {
    let mut made = Vec::new(alloc);
    for one in given {
        made.push(entry(alloc, *one)?)?;
    }
    Ok(made)
}

pub(crate) fn full(
    alloc: Global,
    number: u64,
    place: u64,
    given: &[Given],
) -> Result<Image<Global>, Fail> {
    image_of(alloc, &(Kind::Full, number, number, place, given))
}

/// Whether these are the entries, in their order.
pub(crate) fn are(entries: &[Entry<Global>], given: &[Given]) -> bool {
    entries.len() == given.len()
        && entries.iter().zip(given).all(|(entry, one)| {
            let number = entry.cell.as_ref().and_then(|value| value.as_number());
            entry.key.as_bytes() == [one.0].as_slice()
                && number == one.1
                && entry.cell.is_some() == one.1.is_some()
        })
}

/// Whether the image is full, with this number as its base too, this place and these entries.
pub(crate) fn is_full(image: &Image<Global>, number: u64, place: u64, given: &[Given]) -> bool {
    image.kind() == Kind::Full
        && image.number() == number
        && image.base() == number
        && image.place() == place
        && are(image.entries(), given)
}

/// Whether the parts make an image.
fn is_made(alloc: Global, parts: &Parts) -> Result<bool, Fail> {
    let entries = entries(alloc, parts.4)?;
    Ok(Image::new(parts.0, parts.1, parts.2, parts.3, entries).is_some())
}

#[test]
fn lawful(rt: HostRuntime) -> Result<(), Fail> {
    let alloc = rt.alloc();
    for (kind, number, base, given, lawful) in &LAWFUL {
        let made = is_made(alloc, &(*kind, *number, *base, 7, given))?;
        assert_eq!(rt; made, *lawful, "number {number}, base {base}");
    }
    Ok(())
}

/// Whether an image was made with the wanted entries, or none where none is wanted.
fn has(made: Option<Image<Global>>, wanted: Option<&[Given]>) -> bool {
    match made {
        Some(image) => wanted.is_some_and(|sorted| are(image.entries(), sorted)),
        None => wanted.is_none(),
    }
}

#[test]
fn captured_in_any_order(rt: HostRuntime) -> Result<(), Fail> {
    let alloc = rt.alloc();
    for (kind, number, base, given, wanted) in &CAPTURES {
        let made = Image::captured(*kind, *number, *base, 7, entries(alloc, given)?);
        assert!(rt; has(made, *wanted), "number {number}, base {base}");
    }
    Ok(())
}

#[test]
fn looked_up(rt: HostRuntime) -> Result<(), Fail> {
    let alloc = rt.alloc();
    let given = [(b'b', Some(2)), (b'd', None), (b'f', Some(6))];
    let image = image_of(alloc, &(Kind::Partial, 4, 3, 9, &given))?;
    for letter in b'a'..=b'g' {
        let key = Key::new(&[letter]).ok_or("no key")?;
        let cell = image.get(&key);
        let found = cell.map(|cell| cell.as_ref().and_then(|value| value.as_number()));
        let wanted = given.iter().find(|one| one.0 == letter).map(|one| one.1);
        assert_eq!(rt; found, wanted, "key {letter}");
    }
    assert_eq!(rt; (image.base(), image.place()), (3, 9));
    assert!(rt; are(image.into_entries().as_slice(), &given));
    Ok(())
}

fn table(alloc: Global, given: &[(u8, u64)]) -> Result<Table<Global>, Fail> {
    let mut pairs = Vec::new(alloc);
    for (letter, number) in given {
        let key = Key::new(&[*letter]).ok_or("no key")?;
        pairs.push((key, Value::of_number(*number)))?;
    }
    Ok(Table::from_pairs(alloc, Sequence::new(pairs))?)
}

#[test]
fn opening(rt: HostRuntime) -> Result<(), Fail> {
    let alloc = rt.alloc();
    let image = Image::opening(alloc, table(alloc, &[(b'b', 2), (b'a', 1)])?)?;
    assert!(rt; is_full(&image, 0, 0, &[(b'a', Some(1)), (b'b', Some(2))]));
    Ok(())
}

/// Kind, number, base, place and entries of an image.
pub(crate) type Parts<'a> = (Kind, u64, u64, u64, &'a [Given]);

/// Number, place and entries of a merged image.
type Whole = (u64, u64, &'static [Given]);

/// A full image. Of the partial ones that stand on it the second takes a key away, and the third changes
/// one.
pub(crate) const FIRST: Parts<'static> = (Kind::Full, 1, 1, 1, &[(b'a', Some(1)), (b'b', Some(2))]);

pub(crate) const SECOND: Parts<'static> = (
    Kind::Partial,
    2,
    1,
    5,
    &[(b'a', None), (b'c', Some(7))],
);

pub(crate) const THIRD: Parts<'static> = (Kind::Partial, 3, 2, 9, &[(b'b', Some(9))]);

/// Images in turn, and what they are as one: the first row has no image, the next three are chains.
const IN_TURN: [(&[Parts<'static>], Result<Whole, MergeError>); 11] = [
    (&[], Err(MergeError::NotFull)),
    (&[FIRST], Ok((1, 1, &[(b'a', Some(1)), (b'b', Some(2))]))),
    (
        &[FIRST, SECOND],
        Ok((2, 5, &[(b'b', Some(2)), (b'c', Some(7))])),
    ),
    (
        &[FIRST, SECOND, THIRD],
        Ok((3, 9, &[(b'b', Some(9)), (b'c', Some(7))])),
    ),
    (&[FIRST, THIRD], Err(MergeError::Gap(0))),
    (&[FIRST, THIRD, THIRD], Err(MergeError::Gap(0))),
    (&[FIRST, SECOND, SECOND], Err(MergeError::Gap(1))),
    (
        &[FIRST, (Kind::Full, 1, 1, 1, &[])],
        Err(MergeError::NotPartial(0)),
    ),
    (&[FIRST, SECOND, FIRST], Err(MergeError::NotPartial(1))),
    (&[(Kind::Partial, 2, 1, 5, &[])], Err(MergeError::NotFull)),
    (&[SECOND, THIRD, FIRST], Err(MergeError::NotFull)),
];

pub(crate) fn image_of(alloc: Global, parts: &Parts) -> Result<Image<Global>, Fail> {
    let entries = entries(alloc, parts.4)?;
    Ok(Image::new(parts.0, parts.1, parts.2, parts.3, entries).ok_or("not lawful")?)
}

fn images_of(alloc: Global, rows: &[Parts]) -> Result<Vec<Image<Global>>, Fail> {
    let mut made = Vec::new(alloc);
    for parts in rows {
        made.push(image_of(alloc, parts)?)?;
    }
    Ok(made)
}

fn is_whole(found: &Result<Image<Global>, MergeError>, whole: &Whole) -> bool {
    match found {
        Ok(image) => is_full(image, whole.0, whole.1, whole.2),
        Err(_) => false,
    }
}

fn is_refusal(found: &Result<Image<Global>, MergeError>, wanted: MergeError) -> bool {
    match found {
        Ok(_) => false,
        Err(refusal) => *refusal == wanted,
    }
}

/// Whether images as one are what is wanted: the image, or the refusal.
fn is_wanted(
    found: &Result<Image<Global>, MergeError>,
    wanted: &Result<Whole, MergeError>,
) -> bool {
    match wanted {
        Ok(whole) => is_whole(found, whole),
        Err(refusal) => is_refusal(found, *refusal),
    }
}

/// Whether the merge of these images, of which the first is to be full, is what is wanted.
fn merges(alloc: Global, images: Vec<Image<Global>>, wanted: &Result<Whole, MergeError>) -> bool {
    match images.as_slice() {
        [first, partials @ ..] => is_wanted(&merge(alloc, first, partials), wanted),
        [] => false,
    }
}

#[test]
fn merged_chain(rt: HostRuntime) -> Result<(), Fail> {
    let alloc = rt.alloc();
    for place in 1..4 {
        let (images, wanted) = &IN_TURN[place];
        assert!(rt;
            merges(alloc, images_of(alloc, images)?, wanted),
            "row {place}"
        );
    }
    Ok(())
}

#[test]
fn merge_refusals(rt: HostRuntime) -> Result<(), Fail> {
    let alloc = rt.alloc();
    for place in 4..IN_TURN.len() {
        let (images, wanted) = &IN_TURN[place];
        assert!(rt;
            merges(alloc, images_of(alloc, images)?, wanted),
            "row {place}"
        );
    }
    Ok(())
}

/// Whether these images, one after another, are as one what is wanted.
fn merges_in_turn(
    alloc: Global,
    images: &[Parts],
    wanted: &Result<Whole, MergeError>,
) -> Result<bool, Fail> {
    let mut merger = Merger::new(alloc);
    for parts in images {
        let image = image_of(alloc, parts)?;
        merger = merger.push(image)?;
    }
    Ok(is_wanted(&merger.finish(alloc), wanted))
}

#[test]
fn images_in_turn(rt: HostRuntime) -> Result<(), Fail> {
    let alloc = rt.alloc();
    for (place, (images, wanted)) in IN_TURN.iter().enumerate() {
        assert!(rt; merges_in_turn(alloc, images, wanted)?, "row {place}");
    }
    Ok(())
}

/// A full image with the number 0 and no entries, and partial ones with the numbers from 1 on, each on
/// the one before.
fn numbered(alloc: Global, partials: u64) -> Result<Vec<Image<Global>>, Fail> {
    let mut made = vec![in alloc; full(alloc, 0, 0, &[])?]?;
    for number in 1..=partials {
        let given = [(b'a', Some(number))];
        made.push(image_of(alloc, &(Kind::Partial, number, number - 1, number, &given))?)?;
    }
    Ok(made)
}

#[test]
fn longest_chain(rt: HostRuntime) -> Result<(), Fail> {
    let alloc = rt.alloc();
    let most = IMAGES as u64;
    assert!(rt; merges(alloc, numbered(alloc, most)?, &Err(MergeError::TooMany)));
    let merged: Result<Whole, MergeError> = Ok((63, 63, &[(b'a', Some(63))]));
    assert!(rt; merges(alloc, numbered(alloc, most - 1)?, &merged));
    Ok(())
}

/// A kind, a number, its base, and entries: the number that is the key of the first, how many there are,
/// and whether their keys are gone.
type Range = (Kind, u64, u64, u32, u32, bool);

/// As many entries as an image may have.
const MOST: Range = (Kind::Full, 0, 0, 0, ENTRIES as u32, false);

const ONE_MORE: Range = (Kind::Partial, 1, 0, ENTRIES as u32, 1, false);

const ONE_FEWER: Range = (Kind::Partial, 2, 1, 0, 1, true);

/// Entries of consecutive numbers as keys, gone or with an empty value.
fn range(alloc: Global, from: u32, count: u32, gone: bool) -> Result<Vec<Entry<Global>>, Fail> {
    let mut made = Vec::new(alloc);
    for number in from..from.saturating_add(count) {
        let key = Key::new(&number.to_be_bytes()).ok_or("no key")?;
        let cell = if gone { None } else { Some(Value::empty()) };
        made.push(Entry { key, cell })?;
    }
    Ok(made)
}

/// The image of a range; None where it isn't lawful.
fn ranged(alloc: Global, range_of: &Range) -> Result<Option<Image<Global>>, Fail> {
    let (kind, number, base, from, count, gone) = *range_of;
    let entries = range(alloc, from, count, gone)?;
    Ok(Image::new(kind, number, base, 0, entries))
}

/// How many entries the merge of these images has.
fn count_merged(alloc: Global, ranges: &[Range]) -> Result<Result<usize, MergeError>, Fail> {
    let mut images = Vec::new(alloc);
    for one in ranges {
        images.push(ranged(alloc, one)?.ok_or("not lawful")?)?;
    }
    Ok(match images.as_slice() {
        [first, partials @ ..] => merge(alloc, first, partials).map(|image| image.entries().len()),
        [] => Err(MergeError::NotFull),
    })
}

#[test]
fn most_entries(rt: HostRuntime) -> Result<(), Fail> {
    let alloc = rt.alloc();
    let too_many = (Kind::Full, 0, 0, 0, ENTRIES as u32 + 1, false);
    assert!(rt; ranged(alloc, &too_many)?.is_none());
    let too_many = Err(MergeError::TooMany);
    assert_eq!(rt; count_merged(alloc, &[MOST, ONE_MORE])?, too_many);
    let merged = count_merged(alloc, &[MOST, ONE_MORE, ONE_FEWER])?;
    assert_eq!(rt; merged, Ok(ENTRIES));
    Ok(())
}

#[test]
fn links(rt: HostRuntime) -> Result<(), Fail> {
    let alloc = rt.alloc();
    let two = link(&NO_ENTRIES, &entry(alloc, (b'b', Some(2)))?);
    assert_eq!(rt; link(&two, &entry(alloc, (b'a', Some(1)))?), TWO_DIGEST);
    assert_eq!(rt;
        link(&NO_ENTRIES, &entry(alloc, (b'a', None))?),
        GONE_DIGEST
    );
    Ok(())
}

const HEADER: Header = Header {
    kind: Kind::Full,
    number: 1,
    base: 1,
    place: 4,
    count: 2,
    chain: TWO_DIGEST,
};

/// What was captured with the header, in its order.
const CAPTURED: [Given; 2] = [(b'b', Some(2)), (b'a', Some(1))];

/// Whether the header and entries are refused as no image.
fn is_bad(alloc: Global, header: &Header, given: &[Given]) -> Result<bool, Fail> {
    let made = assemble(alloc, header, entries(alloc, given)?.as_slice());
    Ok(matches!(made, Err(AssembleError::BadForm)))
}

#[test]
fn assembled(rt: HostRuntime) -> Result<(), Fail> {
    let alloc = rt.alloc();
    let captured = entries(alloc, &CAPTURED)?;
    let image = assemble(alloc, &HEADER, captured.as_slice())?;
    assert!(rt; is_full(&image, 1, 4, &[(b'a', Some(1)), (b'b', Some(2))]));
    Ok(())
}

#[test]
fn bad_forms(rt: HostRuntime) -> Result<(), Fail> {
    let alloc = rt.alloc();
    let counts_three = Header { count: 3, ..HEADER };
    let on_another = Header { base: 0, ..HEADER };
    let of_none = Header {
        chain: NO_ENTRIES,
        ..HEADER
    };
    for header in &[counts_three, on_another, of_none] {
        assert!(rt; is_bad(alloc, header, &CAPTURED)?);
    }
    assert!(rt; is_bad(alloc, &HEADER, &[CAPTURED[1], CAPTURED[0]])?);
    assert!(rt; is_bad(alloc, &HEADER, &[(b'b', Some(2))])?);
    Ok(())
}

/// The header of these entries as a full image.
fn header_of(alloc: Global, given: &[Given]) -> Result<Header, Fail> {
    let mut chain = NO_ENTRIES;
    for one in given {
        chain = link(&chain, &entry(alloc, *one)?);
    }
    Ok(Header {
        count: given.len(),
        chain,
        ..HEADER
    })
}

#[test]
fn unlawful_entries(rt: HostRuntime) -> Result<(), Fail> {
    let alloc = rt.alloc();
    let rows: [&[Given]; 2] = [&[(b'a', Some(1)), (b'a', Some(2))], &[(b'a', None)]];
    for given in rows {
        let header = header_of(alloc, given)?;
        assert!(rt; is_bad(alloc, &header, given)?);
    }
    Ok(())
}
