//! Tests of texts with their right digests: which of them are images, in both versions.
use super::*;
use sha2::{Digest, Sha256};
use std::alloc::{AllocError, Global};
use std::test::Fail;

/// A header of number 1 and place 2: the letters, the kind, the base and the count.
fn header(alloc: Global, letters: &[u8], head: [u8; 3]) -> Result<Vec<u8>, AllocError> {
    let mut bytes = Vec::from_slice(alloc, letters)?;
    bytes.extend_from_slice(&[head[0], 0, 0, 0, 0, 0, 0, 0, 1])?;
    bytes.extend_from_slice(&[0, 0, 0, 0, 0, 0, 0, head[1]])?;
    bytes.extend_from_slice(&[0, 0, 0, 0, 0, 0, 0, 2, 0, 0, 0, head[2]])?;
    Ok(bytes)
}

/// Why a text of version 1 is refused, and nothing where it is read.
fn first(alloc: Global, head: [u8; 3], entries: &[u8]) -> Result<Option<ReadError>, AllocError> {
    let mut bytes = header(alloc, b"CALCIMG1", head)?;
    bytes.extend_from_slice(entries)?;
    let digest = Sha256::digest(bytes.as_slice());
    bytes.extend_from_slice(&digest)?;
    Ok(read_image(alloc, bytes.as_slice()).err())
}

/// And of version 2, in which the entries are one block.
fn second(alloc: Global, head: [u8; 3], entries: &[u8]) -> Result<Option<ReadError>, AllocError> {
    let mut bytes = header(alloc, b"CALCIMG2", head)?;
    let digest = Sha256::digest(bytes.as_slice());
    bytes.extend_from_slice(&digest)?;
    let mut signed = Vec::from_slice(alloc, &digest)?;
    signed.extend_from_slice(entries)?;
    bytes.extend_from_slice(entries)?;
    bytes.extend_from_slice(&Sha256::digest(signed.as_slice()))?;
    Ok(read_image(alloc, bytes.as_slice()).err())
}

fn in_both(
    alloc: Global,
    head: [u8; 3],
    entries: &[u8],
) -> Result<(Option<ReadError>, Option<ReadError>), AllocError> {
    Ok((first(alloc, head, entries)?, second(alloc, head, entries)?))
}

/// A kind, a base and a count, and entries.
type Form = ([u8; 3], &'static [u8]);

/// Which are images, in both versions.
const READ: [Form; 3] = [
    ([1, 0, 1], b"\x01a\0"),
    ([0, 1, 2], b"\x01a\x01\0\0\x01b\x01\0\0"),
    ([0, 1, 1], b"\x20aaaaaaaabbbbbbbbccccccccdddddddd\x01\0\0"),
];

/// And which have another form, in both. All but the last are altered from the second of those that are read.
const BAD_FORMS: [Form; 8] = [
    ([2, 1, 2], b"\x01a\x01\0\0\x01b\x01\0\0"),
    ([0, 0, 2], b"\x01a\x01\0\0\x01b\x01\0\0"),
    ([1, 1, 2], b"\x01a\x01\0\0\x01b\x01\0\0"),
    ([0, 1, 2], b"\x01b\x01\0\0\x01a\x01\0\0"),
    ([0, 1, 2], b"\x01a\x01\0\0\x01a\x01\0\0"),
    ([0, 1, 2], b"\x01a\x01\0\0\x01b\0"),
    ([0, 1, 2], b"\0\x01\0\0\x01b\x01\0\0"),
    ([0, 1, 1], b"\x21aaaaaaaabbbbbbbbccccccccdddddddde\x01\0\0"),
];

/// The first row of these that is read, in one of the versions, in another way than this.
fn read_otherwise(
    alloc: Global,
    rows: &[Form],
    wanted: Option<ReadError>,
) -> Result<Option<usize>, AllocError> {
    for (place, (head, entries)) in rows.iter().enumerate() {
        if in_both(alloc, *head, entries)? != (wanted, wanted) {
            return Ok(Some(place));
        }
    }
    Ok(None)
}

#[test]
fn forms(rt: HostRuntime) -> Result<(), Fail> {
    let alloc = rt.alloc();
    assert_eq!(rt; read_otherwise(alloc, &READ, None)?, None);
    let bad_form = Some(ReadError::BadForm);
    assert_eq!(rt; read_otherwise(alloc, &BAD_FORMS, bad_form)?, None);
    Ok(())
}

/// The length of a value, and why a text with it is refused in version 1. In version 2 it is read.
const LENGTHS: [(u16, Option<ReadError>); 3] = [
    (256, None),
    (257, Some(ReadError::BadForm)),
    (65_535, Some(ReadError::BadForm)),
];

fn valued(alloc: Global, length: u16) -> Result<Vec<u8>, AllocError> {
    let mut entry = Vec::from_slice(alloc, b"\x01a\x01")?;
    entry.extend_from_slice(&length.to_be_bytes())?;
    let end = entry.len() + usize::from(length);
    entry.resize(end, 7)?;
    Ok(entry)
}

/// Why a text of one value is refused, in both versions.
fn with_value(
    alloc: Global,
    length: u16,
) -> Result<(Option<ReadError>, Option<ReadError>), AllocError> {
    let entry = valued(alloc, length)?;
    in_both(alloc, [0, 1, 1], entry.as_slice())
}

#[test]
fn lengths(rt: HostRuntime) -> Result<(), Fail> {
    for (length, wanted) in &LENGTHS {
        let found = with_value(rt.alloc(), *length)?;
        assert_eq!(rt; found, (*wanted, None), "{length} bytes");
    }
    Ok(())
}

/// A tag that is neither 0 nor 1 is seen as the block is read.
#[test]
fn another_tag(rt: HostRuntime) -> Result<(), Fail> {
    let found = in_both(rt.alloc(), [0, 1, 1], b"\x01a\x02\0\0")?;
    assert_eq!(rt;
        found,
        (Some(ReadError::BadForm), Some(ReadError::BadBlock(1)))
    );
    Ok(())
}
