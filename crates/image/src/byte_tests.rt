//! Tests of the bytes of images: worked examples made by another program, and texts that are cut or
//! altered.
use super::*;
use crate::tests::{FIRST, Given, Parts, SECOND, THIRD, are, full, image_of, is_full};
use procedure::{Key, NoMemory, Value};
use sha2::{Digest, Sha256};
use std::alloc::{AllocError, Global};
use std::process::Abort;
use std::test::Fail;

/// A full image with number 1, place 2 and the entry `a` with 2, in version 1.
pub(crate) const FIRST_ROW: [u8; 82] = [
    0x43, 0x41, 0x4c, 0x43, 0x49, 0x4d, 0x47, 0x31, 0x00, 0x00, 0x00, 0x00, 0x00, 0x00, 0x00, 0x00,
    0x01, 0x00, 0x00, 0x00, 0x00, 0x00, 0x00, 0x00, 0x01, 0x00, 0x00, 0x00, 0x00, 0x00, 0x00, 0x00,
    0x02, 0x00, 0x00, 0x00, 0x01, 0x01, 0x61, 0x01, 0x00, 0x08, 0x00, 0x00, 0x00, 0x00, 0x00, 0x00,
    0x00, 0x02, 0x19, 0xce, 0xef, 0x8e, 0x95, 0x6c, 0x00, 0x98, 0x03, 0x6a, 0x79, 0x16, 0xa2, 0x64,
    0x8f, 0xb2, 0xeb, 0x38, 0xb9, 0x8c, 0xac, 0xc3, 0x34, 0xdd, 0x39, 0x0b, 0x67, 0x0c, 0xee, 0x93,
    0x9b, 0x92,
];

/// The same image in version 2.
pub(crate) const SECOND_ROW: [u8; 114] = [
    0x43, 0x41, 0x4c, 0x43, 0x49, 0x4d, 0x47, 0x32, 0x00, 0x00, 0x00, 0x00, 0x00, 0x00, 0x00, 0x00,
    0x01, 0x00, 0x00, 0x00, 0x00, 0x00, 0x00, 0x00, 0x01, 0x00, 0x00, 0x00, 0x00, 0x00, 0x00, 0x00,
    0x02, 0x00, 0x00, 0x00, 0x01, 0x30, 0xa0, 0xf2, 0x1d, 0x1e, 0xb1, 0x5e, 0x4b, 0xac, 0x80, 0xbf,
    0x94, 0x72, 0xa3, 0xc3, 0xef, 0xe8, 0x4a, 0x75, 0x7b, 0xf1, 0xfe, 0x77, 0x93, 0xb8, 0x6b, 0xd4,
    0x35, 0x5d, 0xd6, 0x04, 0xbb, 0x01, 0x61, 0x01, 0x00, 0x08, 0x00, 0x00, 0x00, 0x00, 0x00, 0x00,
    0x00, 0x02, 0x77, 0x91, 0xfa, 0xb1, 0x58, 0xd1, 0xc6, 0xc1, 0xaf, 0x0e, 0xcd, 0x07, 0x8d, 0x80,
    0xba, 0xa7, 0x97, 0x77, 0xcf, 0x7a, 0x3b, 0xf8, 0x1d, 0x3c, 0xfb, 0xeb, 0x6e, 0x26, 0xb5, 0xfe,
    0x51, 0xbf,
];

/// The digest of the bytes of version 2 with the keys 1 to 64, each with its own number.
const SUM_OF_64: [u8; 32] = [
    0xb0, 0x5e, 0x58, 0xac, 0x8f, 0xab, 0x81, 0xa8, 0x76, 0x05, 0xa9, 0x46, 0x22, 0x68, 0x80, 0xff,
    0xc5, 0xab, 0xa8, 0x7a, 0x8e, 0x96, 0x87, 0x2c, 0x72, 0xf6, 0x91, 0xab, 0x1a, 0x0d, 0x2c, 0x3d,
];

/// And with the keys 1 to 65.
pub(crate) const SUM_OF_65: [u8; 32] = [
    0xb6, 0x24, 0x70, 0x51, 0x25, 0xc1, 0x69, 0x87, 0xf7, 0xfc, 0x8c, 0xd3, 0xc6, 0x90, 0x56, 0xb4,
    0xcb, 0x57, 0x4e, 0x87, 0x03, 0x64, 0x60, 0x6c, 0xa4, 0xc7, 0x21, 0x9d, 0x7f, 0x81, 0x27, 0xfa,
];

pub(crate) fn row(alloc: Global) -> Result<Image<Global>, Fail> {
    full(alloc, 1, 2, &[(b'a', Some(2))])
}

/// The image of the keys from 1 on, each with its own number.
pub(crate) fn counted(alloc: Global, count: u8) -> Result<Image<Global>, Fail> {
    let mut given = Vec::new(alloc);
    for key in 1..=count {
        given.push((key, Some(u64::from(key))))?;
    }
    full(alloc, 1, 2, given.as_slice())
}

/// Why the bytes are refused, and nothing where they are read.
fn refusal(alloc: Global, bytes: &[u8]) -> Option<ReadError> {
    read_image(alloc, bytes).err()
}

/// How the bytes are refused, and nothing where they are read.
fn refusal_of(alloc: Global, bytes: Result<Vec<u8>, AllocError>) -> Option<ReadError> {
    match bytes {
        Ok(bytes) => refusal(alloc, bytes.as_slice()),
        Err(_) => Some(ReadError::NoMemory),
    }
}

/// The bytes with another one at a place.
fn altered(alloc: Global, bytes: &[u8], place: usize, to: u8) -> Result<Vec<u8>, AllocError> {
    let mut copy = Vec::from_slice(alloc, bytes)?;
    if let Some(byte) = copy.get_mut(place) {
        *byte = to;
    }
    Ok(copy)
}

/// How the bytes are refused with all bits of one of them turned.
fn turned(alloc: Global, bytes: &[u8], place: usize) -> Option<ReadError> {
    let byte = *bytes.get(place)?;
    refusal_of(alloc, altered(alloc, bytes, place, !byte))
}

/// Places from one up to another, and how bytes are refused in which the one at such a place is turned.
type Turned = (usize, usize, ReadError);

/// The first of the places at which a turned byte is refused otherwise.
fn refused_otherwise(alloc: Global, bytes: &[u8], rows: &[Turned]) -> Option<usize> {
    for (from, to, wanted) in rows {
        for place in *from..*to {
            if turned(alloc, bytes, place) != Some(*wanted) {
                return Some(place);
            }
        }
    }
    None
}

/// The bytes, and after them their digest.
fn signed(alloc: Global, bytes: &[u8]) -> Result<Vec<u8>, AllocError> {
    let mut copy = Vec::from_slice(alloc, bytes)?;
    copy.extend_from_slice(&Sha256::digest(bytes))?;
    Ok(copy)
}

/// The bytes of an image in version 1.
fn sealed_v1(alloc: Global, image: Image<Global>) -> Result<Vec<u8>, SealError> {
    seal_v1(alloc, &image)
}

/// And in version 2.
pub(crate) fn sealed(alloc: Global, image: Image<Global>) -> Result<Vec<u8>, NoMemory> {
    seal(alloc, &image)
}

/// Whether the bytes are read as the image of `row`.
fn is_row(alloc: Global, bytes: &[u8]) -> bool {
    match read_image(alloc, bytes) {
        Ok(image) => is_full(&image, 1, 2, &[(b'a', Some(2))]),
        Err(_) => false,
    }
}

#[test]
fn first_bytes(rt: HostRuntime) -> Result<(), Fail> {
    let alloc = rt.alloc();
    assert!(rt; sealed_v1(alloc, row(alloc)?)?.as_slice() == FIRST_ROW.as_slice());
    assert!(rt; is_row(alloc, &FIRST_ROW));
    assert_eq!(rt; sealed_v1(alloc, full(alloc, 0, 0, &[])?)?.len(), 69);
    Ok(())
}

#[test]
fn second_bytes(rt: HostRuntime) -> Result<(), Fail> {
    let alloc = rt.alloc();
    assert!(rt; sealed(alloc, row(alloc)?)?.as_slice() == SECOND_ROW.as_slice());
    assert!(rt; is_row(alloc, &SECOND_ROW));
    assert_eq!(rt; sealed(alloc, full(alloc, 0, 0, &[])?)?.len(), 69);
    Ok(())
}

/// How many entries are read, and none where the bytes are refused.
fn count_read(alloc: Global, bytes: &[u8]) -> Option<usize> {
    match read_image(alloc, bytes) {
        Ok(image) => Some(image.entries().len()),
        Err(_) => None,
    }
}

/// The length of the bytes of an image, their digest, and how many entries are read of them.
fn measured(alloc: Global, image: Image<Global>) -> Result<(usize, [u8; 32], Option<usize>), Fail> {
    let bytes = sealed(alloc, image)?;
    let text = bytes.as_slice();
    Ok((text.len(), Sha256::digest(text), count_read(alloc, text)))
}

#[test]
fn blocks(rt: HostRuntime) -> Result<(), Fail> {
    let alloc = rt.alloc();
    let found = measured(alloc, counted(alloc, 64)?)?;
    assert_eq!(rt; found, (933, SUM_OF_64, Some(64)));
    let found = measured(alloc, counted(alloc, 65)?)?;
    assert_eq!(rt; found, (978, SUM_OF_65, Some(65)));
    Ok(())
}

#[test]
fn first_cut(rt: HostRuntime) -> Result<(), Fail> {
    let alloc = rt.alloc();
    for length in 0..FIRST_ROW.len() {
        let wanted = if length < 69 {
            ReadError::NotAnImage
        } else {
            ReadError::BadDigest
        };
        assert_eq!(rt;
            refusal(alloc, &FIRST_ROW[..length]),
            Some(wanted),
            "{length} bytes"
        );
    }
    Ok(())
}

#[test]
fn first_altered(rt: HostRuntime) {
    let alloc = rt.alloc();
    let rows = [(0, 8, ReadError::NotAnImage), (8, 82, ReadError::BadDigest)];
    assert_eq!(rt; refused_otherwise(alloc, &FIRST_ROW, &rows), None);
    let second = refusal_of(alloc, altered(alloc, &FIRST_ROW, 7, b'2'));
    assert_eq!(rt; second, Some(ReadError::BadBlock(0)));
}

/// A place, and the byte that stands there in place of the right one: a kind, the base, the count, the
/// length of the key, the tag, the length of the value.
const BAD_FORMS: [(usize, u8); 6] = [(8, 2), (24, 0), (36, 2), (37, 0), (39, 0), (40, 2)];

/// How the text is refused with another byte at a place, and its digest after it.
fn signed_refusal(alloc: Global, text: &[u8], place: usize, to: u8) -> Option<ReadError> {
    match altered(alloc, text, place, to) {
        Ok(text) => refusal_of(alloc, signed(alloc, text.as_slice())),
        Err(_) => Some(ReadError::NoMemory),
    }
}

#[test]
fn first_bad_forms(rt: HostRuntime) {
    for (place, to) in &BAD_FORMS {
        let found = signed_refusal(rt.alloc(), &FIRST_ROW[..50], *place, *to);
        assert_eq!(rt; found, Some(ReadError::BadForm), "byte {place}");
    }
}

/// Where the bytes with 65 entries are altered: their header, their first block and their second.
const SECOND_TURNED: [Turned; 8] = [
    (0, 8, ReadError::NotAnImage),
    (8, 69, ReadError::BadBlock(0)),
    (69, 70, ReadError::BadBlock(1)),
    (900, 901, ReadError::BadBlock(1)),
    (932, 933, ReadError::BadBlock(1)),
    (933, 934, ReadError::BadBlock(2)),
    (940, 941, ReadError::BadBlock(2)),
    (977, 978, ReadError::BadBlock(2)),
];

#[test]
fn second_altered(rt: HostRuntime) -> Result<(), Fail> {
    let alloc = rt.alloc();
    let bytes = sealed(alloc, counted(alloc, 65)?)?;
    let text = bytes.as_slice();
    assert_eq!(rt; refused_otherwise(alloc, text, &SECOND_TURNED), None);
    let first = refusal_of(alloc, altered(alloc, text, 7, b'1'));
    assert_eq!(rt; first, Some(ReadError::BadDigest));
    Ok(())
}

/// How the first bytes of a text are refused.
fn cut_refusal(alloc: Global, bytes: &[u8], length: usize) -> Option<ReadError> {
    refusal(alloc, bytes.get(..length)?)
}

/// How a text is refused with a byte after it.
fn longer_refusal(alloc: Global, bytes: &[u8]) -> Option<ReadError> {
    let mut longer = Vec::from_slice(alloc, bytes).ok()?;
    match longer.push(0) {
        Ok(()) => refusal(alloc, longer.as_slice()),
        Err(_) => Some(ReadError::NoMemory),
    }
}

#[test]
fn second_cut(rt: HostRuntime) -> Result<(), Fail> {
    let alloc = rt.alloc();
    let bytes = sealed(alloc, counted(alloc, 65)?)?;
    let text = bytes.as_slice();
    let last = Some(ReadError::BadBlock(2));
    assert_eq!(rt; cut_refusal(alloc, text, 977), last);
    assert_eq!(rt; cut_refusal(alloc, text, 933), last);
    assert_eq!(rt; longer_refusal(alloc, text), Some(ReadError::BadForm));
    Ok(())
}

/// Exchanges two entries of 13 bytes, which are the only block of a text of version 2, and signs the
/// block again. Bytes of another length stay.
fn exchange(bytes: &mut [u8]) {
    if bytes.len() == 127 {
        bytes[69..95].rotate_left(13);
        let digest = Sha256::digest(&bytes[37..95]);
        bytes[95..].copy_from_slice(&digest);
    }
}

#[test]
fn unordered(rt: HostRuntime) -> Result<(), Fail> {
    let alloc = rt.alloc();
    let mut bytes = sealed(alloc, counted(alloc, 2)?)?;
    exchange(bytes.as_mut_slice());
    assert_eq!(rt; bytes.len(), 127);
    assert_eq!(rt; refusal(alloc, bytes.as_slice()), Some(ReadError::BadForm));
    Ok(())
}

/// A header that states four thousand million entries.
const ENDLESS: [u8; 37] = [
    0x43, 0x41, 0x4c, 0x43, 0x49, 0x4d, 0x47, 0x31, 0x00, 0x00, 0x00, 0x00, 0x00, 0x00, 0x00, 0x00,
    0x01, 0x00, 0x00, 0x00, 0x00, 0x00, 0x00, 0x00, 0x01, 0x00, 0x00, 0x00, 0x00, 0x00, 0x00, 0x00,
    0x02, 0xff, 0xff, 0xff, 0xff,
];

#[test]
fn stated_count(rt: HostRuntime) {
    let alloc = rt.alloc();
    let first = signed_refusal(alloc, &ENDLESS, 7, b'1');
    assert_eq!(rt; first, Some(ReadError::BadForm));
    let second = signed_refusal(alloc, &ENDLESS, 7, b'2');
    assert_eq!(rt; second, Some(ReadError::BadBlock(1)));
}

fn sevens(alloc: Global, length: usize) -> Result<Vec<u8>, Fail> {
    let mut bytes = Vec::new(alloc);
    bytes.resize(length, 7)?;
    Ok(bytes)
}

/// One entry, which has these bytes as its value.
fn one_entry(alloc: Global, bytes: Vec<u8>) -> Result<Vec<Entry<Global>>, Fail> {
    let value = Value::new(bytes).ok_or("too long")?;
    let key = Key::new(b"k").ok_or("no key")?;
    let cell = Some(value);
    Ok(vec![in alloc; Entry { key, cell }]?)
}

/// A full image of one value of the given length.
pub(crate) fn valued(alloc: Global, length: usize) -> Result<Image<Global>, Fail> {
    let entries = one_entry(alloc, sevens(alloc, length)?)?;
    Ok(Image::new(Kind::Full, 0, 0, 0, entries).ok_or("not lawful")?)
}

/// Why an image has no bytes in version 1, and nothing where it has.
fn refusal_v1(alloc: Global, image: Image<Global>) -> Option<SealError> {
    seal_v1(alloc, &image).err()
}

#[test]
fn large_values(rt: HostRuntime) -> Result<(), Fail> {
    let alloc = rt.alloc();
    assert_eq!(rt; refusal_v1(alloc, valued(alloc, 256)?), None);
    let refused = refusal_v1(alloc, valued(alloc, 257)?);
    assert_eq!(rt; refused, Some(SealError::TooLarge));
    let (length, _, count) = measured(alloc, valued(alloc, 65_535)?)?;
    assert_eq!(rt; (length, count), (69 + 5 + 65_535 + 32, Some(1)));
    Ok(())
}

/// An image that is read from its bytes in version 1.
fn through_v1(alloc: Global, parts: &Parts) -> Result<Image<Global>, Fail> {
    let bytes = sealed_v1(alloc, image_of(alloc, parts)?)?;
    Ok(read_image(alloc, bytes.as_slice())?)
}

/// An image that is read from its bytes in version 2.
fn through_v2(alloc: Global, parts: &Parts) -> Result<Image<Global>, Fail> {
    let bytes = sealed(alloc, image_of(alloc, parts)?)?;
    Ok(read_image(alloc, bytes.as_slice())?)
}

/// Partial images that are read, the first from its bytes in version 2, the second in version 1.
fn mixed_partials(alloc: Global) -> Result<Vec<Image<Global>>, Fail> {
    let mut images = vec![in alloc; through_v2(alloc, &SECOND)?]?;
    images.push(through_v1(alloc, &THIRD)?)?;
    Ok(images)
}

/// Whether the partial images and a full one, which is read from its bytes in version 1, are the right
/// one when merged, and how many bytes that has in version 1.
fn mixed_length(alloc: Global, partials: &[Image<Global>]) -> Result<(bool, usize), Fail> {
    let first = through_v1(alloc, &FIRST)?;
    let merged = merged_of(alloc, first, partials)?;
    let right = is_full(&merged, 3, 9, &[(b'b', Some(9)), (b'c', Some(7))]);
    Ok((right, sealed_v1(alloc, merged)?.len()))
}

/// An image and the partial ones that stand on it as one.
fn merged_of(
    alloc: Global,
    first: Image<Global>,
    partials: &[Image<Global>],
) -> Result<Image<Global>, MergeError> {
    merge(alloc, &first, partials)
}

/// Whether the first of the images has these entries.
fn first_has(images: &[Image<Global>], given: &[Given]) -> bool {
    match images.first() {
        Some(image) => are(image.entries(), given),
        None => false,
    }
}

#[test]
fn mixed_versions(rt: HostRuntime) -> Result<(), Fail> {
    let alloc = rt.alloc();
    let partials = mixed_partials(alloc)?;
    let images = partials.as_slice();
    assert!(rt; first_has(images, &[(b'a', None), (b'c', Some(7))]));
    assert_eq!(rt; mixed_length(alloc, images)?, (true, 95));
    Ok(())
}
