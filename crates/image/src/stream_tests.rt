//! Tests of images that go to a writer and come from a reader: devices that fail at a call, and that
//! take or give few bytes a call.
use super::*;
use crate::byte_tests::{FIRST_ROW, SECOND_ROW, SUM_OF_65, counted, row, sealed, valued};
use crate::tests::is_full;
use sha2::{Digest, Sha256};
use std::alloc::Global;
use std::io::{Error, ErrorKind, Read, Result as IoResult, Write};
use std::test::Fail;

/// Keeps what is written, at most `most` bytes a call, and fails once its calls are used up.
#[derive(Debug, Drop)]
struct Sink {
    kept: Vec<u8, Global>,
    most: usize,
    calls: usize,
}

impl Write for Sink {
    fn write(&mut self, buf: &[u8]) -> IoResult<usize> {
        if self.calls == 0 {
            return Err(Error::from(ErrorKind::Interrupted));
        }
        self.calls -= 1;
        let taken = buf.len().min(self.most);
        self.kept.extend_from_slice(&buf[..taken])?;
        Ok(taken)
    }

    fn flush(&mut self) -> IoResult<()> {
        Ok(())
    }
}

/// Gives its bytes, at most `most` a call, and fails once its calls are used up.
#[derive(Debug, Drop)]
struct Source<'a> {
    left: &'a [u8],
    most: usize,
    calls: usize,
}

impl<'a> Read for Source<'a> {
    fn read(&mut self, buf: &mut [u8]) -> IoResult<usize> {
        if self.calls == 0 {
            return Err(Error::from(ErrorKind::Interrupted));
        }
        self.calls -= 1;
        let given = self.left.len().min(self.most).min(buf.len());
        let (front, rest) = self.left.split_at(given);
        buf[..given].copy_from_slice(front);
        self.left = rest;
        Ok(given)
    }
}

/// What a writer that takes `calls` calls keeps of an image, and what is returned.
fn sent(
    alloc: Global,
    image: &Image<Global>,
    most: usize,
    calls: usize,
) -> (Vec<u8, Global>, Option<WriteError>) {
    let mut sink = Sink {
        kept: Vec::new(alloc),
        most,
        calls,
    };
    let refused = seal_to(alloc, &mut sink, image).err();
    (sink.kept, refused)
}

/// How many bytes a writer that takes `calls` calls keeps of an image, and what is returned.
fn count_sent(
    alloc: Global,
    image: Image<Global>,
    most: usize,
    calls: usize,
) -> (usize, Option<WriteError>) {
    let (kept, refused) = sent(alloc, &image, most, calls);
    (kept.len(), refused)
}

/// How many bytes a writer takes that fails at a call, and which of the calls is the first with which
/// nothing fails: header and digest are a write, and so is each block with its digest.
#[test]
fn written_in_three_calls(rt: HostRuntime) -> Result<(), Fail> {
    let alloc = rt.alloc();
    let rows = [
        (0, 0, Some(WriteError::WriteFault)),
        (1, 69, Some(WriteError::WriteFault)),
        (2, 933, Some(WriteError::WriteFault)),
        (3, 978, None),
    ];
    for (calls, length, wanted) in &rows {
        let found = count_sent(alloc, counted(alloc, 65)?, usize::MAX, *calls);
        assert_eq!(rt; found, (*length, *wanted), "{calls} calls");
    }
    Ok(())
}

/// Whether a writer that fails before these calls are over keeps a beginning of the bytes, whichever call
/// fails.
fn begins(alloc: Global, image: &Image<Global>, whole: &[u8], most: usize, calls: usize) -> bool {
    (0..calls).all(|fewer| {
        let (kept, refused) = sent(alloc, image, most, fewer);
        refused == Some(WriteError::WriteFault) && whole.starts_with(kept.as_slice())
    })
}

/// Whether a writer that takes `calls` calls keeps all of the bytes, and no error is returned.
fn is_sent(alloc: Global, image: &Image<Global>, whole: &[u8], most: usize, calls: usize) -> bool {
    let (kept, refused) = sent(alloc, image, most, calls);
    refused.is_none() && kept.as_slice() == whole
}

#[test]
fn written_a_byte_a_call(rt: HostRuntime) -> Result<(), Fail> {
    let alloc = rt.alloc();
    let image = row(alloc)?;
    assert!(rt; begins(alloc, &image, &SECOND_ROW, 1, 114));
    assert!(rt; is_sent(alloc, &image, &SECOND_ROW, 1, 114));
    Ok(())
}

/// What is returned as an image goes to a writer, and the digest of what that keeps.
fn digest_sent(
    alloc: Global,
    image: &Image<Global>,
    most: usize,
    calls: usize,
) -> (Option<WriteError>, [u8; 32]) {
    let (kept, refused) = sent(alloc, image, most, calls);
    (refused, Sha256::digest(kept.as_slice()))
}

/// Whether a writer with fewer calls keeps a beginning of the bytes with 65 entries, and what is returned
/// with these calls, and the digest of what the writer then keeps.
fn in_pieces(
    alloc: Global,
    most: usize,
    calls: usize,
) -> Result<(bool, Option<WriteError>, [u8; 32]), Fail> {
    let image = counted(alloc, 65)?;
    let whole = seal(alloc, &image)?;
    let begun = begins(alloc, &image, whole.as_slice(), most, calls);
    let (refused, digest) = digest_sent(alloc, &image, most, calls);
    Ok((begun, refused, digest))
}

/// Three writes, of 69, 864 and 45 bytes.
#[test]
fn written_in_pieces(rt: HostRuntime) -> Result<(), Fail> {
    let alloc = rt.alloc();
    let wanted = (true, None, SUM_OF_65);
    assert_eq!(rt; in_pieces(alloc, 978, 3)?, wanted, "978 bytes a call");
    assert_eq!(rt; in_pieces(alloc, 100, 11)?, wanted, "100 bytes a call");
    Ok(())
}

#[test]
fn write_of_no_byte(rt: HostRuntime) -> Result<(), Fail> {
    let alloc = rt.alloc();
    let found = count_sent(alloc, row(alloc)?, 0, 1);
    assert_eq!(rt; found, (0, Some(WriteError::WriteFault)));
    Ok(())
}

/// The image of bytes that come in pieces, from a reader that takes `calls` calls.
fn received(
    alloc: Global,
    bytes: &[u8],
    most: usize,
    calls: usize,
) -> Result<Image<Global>, ReadFromError> {
    let mut source = Source {
        left: bytes,
        most,
        calls,
    };
    read_from(alloc, &mut source)
}

/// How many entries are read of an image.
fn count_received(
    alloc: Global,
    bytes: &[u8],
    most: usize,
    calls: usize,
) -> Result<usize, ReadFromError> {
    Ok(received(alloc, bytes, most, calls)?.entries().len())
}

/// With how many calls, fewer than `calls`, something else than a read fault is told; and how many entries
/// are read with `calls`.
fn read_with(
    alloc: Global,
    text: &[u8],
    most: usize,
    calls: usize,
) -> (Option<usize>, Result<usize, ReadFromError>) {
    let mut other = None;
    for fewer in 0..calls {
        if count_received(alloc, text, most, fewer) != Err(ReadFromError::ReadFault) {
            other = Some(fewer);
        }
    }
    (other, count_received(alloc, text, most, calls))
}

/// The same of the bytes with 65 entries.
fn read_counted(
    alloc: Global,
    most: usize,
    calls: usize,
) -> Result<(Option<usize>, Result<usize, ReadFromError>), Fail> {
    let whole = sealed(alloc, counted(alloc, 65)?)?;
    Ok(read_with(alloc, whole.as_slice(), most, calls))
}

/// How many bytes a call gives, and with how many calls a text is read.
#[test]
fn read_in_pieces(rt: HostRuntime) -> Result<(), Fail> {
    let alloc = rt.alloc();
    let found = read_with(alloc, &SECOND_ROW, 1, 115);
    assert_eq!(rt; found, (None, Ok(1)));
    assert_eq!(rt; read_counted(alloc, 100, 11)?, (None, Ok(65)));
    assert_eq!(rt; read_counted(alloc, 978, 2)?, (None, Ok(65)));
    Ok(())
}

/// A value of the greatest length makes 65,641 bytes, which no reader gives at once.
#[test]
fn read_long(rt: HostRuntime) -> Result<(), Fail> {
    let alloc = rt.alloc();
    let whole = seal(alloc, &valued(alloc, 65_535)?)?;
    let image = received(alloc, whole.as_slice(), usize::MAX, 1_000)
        .ok()
        .ok_or("not read")?;
    let again = seal(alloc, &image)?;
    assert_eq!(rt; again.as_slice(), whole.as_slice());
    Ok(())
}

/// Whether the image of `row` is read of the bytes.
fn is_row_received(alloc: Global, bytes: &[u8]) -> bool {
    match received(alloc, bytes, 7, 100) {
        Ok(image) => is_full(&image, 1, 2, &[(b'a', Some(2))]),
        Err(_) => false,
    }
}

#[test]
fn read_both_versions(rt: HostRuntime) {
    let alloc = rt.alloc();
    assert!(rt; is_row_received(alloc, &FIRST_ROW));
    assert!(rt; is_row_received(alloc, &SECOND_ROW));
}

/// A text that ends early, and its refusal.
#[test]
fn cut_from_reader(rt: HostRuntime) {
    let rows: [(&[u8], ReadError); 5] = [
        (&[], ReadError::NotAnImage),
        (&FIRST_ROW[..68], ReadError::NotAnImage),
        (&FIRST_ROW[..81], ReadError::BadDigest),
        (&SECOND_ROW[..69], ReadError::BadBlock(1)),
        (&SECOND_ROW[..113], ReadError::BadBlock(1)),
    ];
    for (text, refusal) in rows {
        let refused = count_received(rt.alloc(), text, 7, 100);
        assert_eq!(rt; refused, Err(ReadFromError::Image(refusal)));
    }
}
