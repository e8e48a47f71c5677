//! Tests of what no clause says: worked logs, digests and bytes made by another program, and that each
//! call succeeds.
use super::*;
use commitlog::{LogHeader, Record, encode};
use image::{Entry, Image, Kind};
use phase::Phase;
use procedure::{
    Call, Catalog, Code, Instr, Key, NoMemory, Operand, Procedure, Sequence, Table, Value,
};
use std::alloc::Global;
use std::process::Abort;
use std::test::Fail;

/// The procedures of the catalog: `get` replies what a key holds, `new` inserts and `set` puts.
const GET: u16 = 0;

pub(crate) const NEW: u16 = 1;

pub(crate) const SET: u16 = 2;

/// The digest of the catalog.
pub(crate) const CATALOG: [u8; 32] = [
    0xb3, 0xa5, 0x55, 0x26, 0xff, 0x22, 0xed, 0xb3, 0xd0, 0x46, 0xf2, 0x1a, 0x05, 0x9a, 0xf1, 0x83,
    0x30, 0xee, 0x17, 0x53, 0x47, 0xef, 0x23, 0x28, 0x84, 0x54, 0xdd, 0xcb, 0x44, 0x36, 0x48, 0x3f,
];

/// The digest of the empty opening, sealed in version 2.
const EMPTY: [u8; 32] = [
    0xbc, 0x7c, 0x93, 0xe8, 0x54, 0xe2, 0x80, 0x0e, 0x98, 0xb1, 0x4e, 0x1c, 0x1e, 0xb3, 0x24, 0x5e,
    0xc1, 0x9a, 0x2b, 0xac, 0xe2, 0x3d, 0xda, 0xf1, 0x08, 0x92, 0x05, 0x04, 0x95, 0x0b, 0xda, 0x0b,
];

/// The digest of the opening in which `a` holds 1, sealed in version 2.
pub(crate) const ONE: [u8; 32] = [
    0xd1, 0x4b, 0x7e, 0xe7, 0x67, 0x97, 0xd2, 0x5a, 0x74, 0x29, 0xd2, 0x62, 0x85, 0xc0, 0x5c, 0xd4,
    0xc6, 0x66, 0x3f, 0xca, 0xac, 0x9c, 0xe6, 0x14, 0xe7, 0x31, 0x7f, 0xb7, 0x5a, 0x94, 0x17, 0x92,
];

/// Over the empty opening, in version 2: call 1 of session 0 inserts 5 at `a`, and call 2 gets it.
const SECOND: [u8; 203] = [
    0x43, 0x41, 0x4c, 0x43, 0x4c, 0x4f, 0x47, 0x32, 0xb3, 0xa5, 0x55, 0x26, 0xff, 0x22, 0xed, 0xb3,
    0xd0, 0x46, 0xf2, 0x1a, 0x05, 0x9a, 0xf1, 0x83, 0x30, 0xee, 0x17, 0x53, 0x47, 0xef, 0x23, 0x28,
    0x84, 0x54, 0xdd, 0xcb, 0x44, 0x36, 0x48, 0x3f, 0xbc, 0x7c, 0x93, 0xe8, 0x54, 0xe2, 0x80, 0x0e,
    0x98, 0xb1, 0x4e, 0x1c, 0x1e, 0xb3, 0x24, 0x5e, 0xc1, 0x9a, 0x2b, 0xac, 0xe2, 0x3d, 0xda, 0xf1,
    0x08, 0x92, 0x05, 0x04, 0x95, 0x0b, 0xda, 0x0b, 0x00, 0x00, 0x00, 0x1d, 0x01, 0x00, 0x00, 0x00,
    0x00, 0x00, 0x00, 0x00, 0x00, 0x00, 0x01, 0x00, 0x01, 0x02, 0x00, 0x01, 0x61, 0x00, 0x08, 0x00,
    0x00, 0x00, 0x00, 0x00, 0x00, 0x00, 0x05, 0x00, 0x00, 0x60, 0xb4, 0x91, 0x43, 0x45, 0xb4, 0xdf,
    0x87, 0xe5, 0x4a, 0x7b, 0x10, 0x21, 0x5b, 0x2e, 0x3a, 0x2c, 0xdd, 0xaf, 0x06, 0x7b, 0xa0, 0x30,
    0xbc, 0x24, 0x14, 0x63, 0x32, 0x63, 0x6e, 0x90, 0x90, 0x00, 0x00, 0x00, 0x1e, 0x01, 0x00, 0x00,
    0x00, 0x00, 0x00, 0x00, 0x00, 0x00, 0x00, 0x02, 0x00, 0x00, 0x01, 0x00, 0x01, 0x61, 0x00, 0x01,
    0x01, 0x00, 0x08, 0x00, 0x00, 0x00, 0x00, 0x00, 0x00, 0x00, 0x05, 0x9f, 0x54, 0x22, 0x9b, 0xe6,
    0x5e, 0x11, 0xe9, 0x20, 0x78, 0xef, 0x05, 0x42, 0x45, 0xd9, 0xb5, 0x6b, 0x45, 0x31, 0x6c, 0x85,
    0x92, 0x55, 0x65, 0x2d, 0x03, 0x96, 0x9c, 0x56, 0xb1, 0x12, 0x7c,
];

/// The same in version 1, with the digest of the opening in version 1.
const FIRST: [u8; 203] = [
    0x43, 0x41, 0x4c, 0x43, 0x4c, 0x4f, 0x47, 0x31, 0xb3, 0xa5, 0x55, 0x26, 0xff, 0x22, 0xed, 0xb3,
    0xd0, 0x46, 0xf2, 0x1a, 0x05, 0x9a, 0xf1, 0x83, 0x30, 0xee, 0x17, 0x53, 0x47, 0xef, 0x23, 0x28,
    0x84, 0x54, 0xdd, 0xcb, 0x44, 0x36, 0x48, 0x3f, 0x64, 0x3a, 0x74, 0x21, 0x32, 0x4b, 0xf5, 0x88,
    0xfa, 0x58, 0xe6, 0xba, 0x46, 0x7b, 0x82, 0xf6, 0xb2, 0x29, 0x14, 0x58, 0x75, 0x7e, 0xbb, 0xfd,
    0x0d, 0x63, 0x15, 0x3e, 0x7d, 0xa7, 0x7b, 0x82, 0x00, 0x00, 0x00, 0x1d, 0x01, 0x00, 0x00, 0x00,
    0x00, 0x00, 0x00, 0x00, 0x00, 0x00, 0x01, 0x00, 0x01, 0x02, 0x00, 0x01, 0x61, 0x00, 0x08, 0x00,
    0x00, 0x00, 0x00, 0x00, 0x00, 0x00, 0x05, 0x00, 0x00, 0xd3, 0x5f, 0x5a, 0x65, 0xb1, 0x4c, 0xea,
    0x6f, 0x38, 0x76, 0x00, 0xa3, 0x84, 0x66, 0xe1, 0x01, 0xc5, 0x18, 0x38, 0x6e, 0x94, 0x2a, 0x10,
    0xe8, 0x46, 0xbf, 0x34, 0xc6, 0x06, 0x8b, 0x68, 0x21, 0x00, 0x00, 0x00, 0x1e, 0x01, 0x00, 0x00,
    0x00, 0x00, 0x00, 0x00, 0x00, 0x00, 0x00, 0x02, 0x00, 0x00, 0x01, 0x00, 0x01, 0x61, 0x00, 0x01,
    0x01, 0x00, 0x08, 0x00, 0x00, 0x00, 0x00, 0x00, 0x00, 0x00, 0x05, 0xb0, 0xe7, 0x1b, 0x17, 0x6c,
    0xd0, 0xe1, 0x28, 0x57, 0x57, 0xb0, 0xbb, 0x61, 0x5b, 0xb1, 0x1f, 0x66, 0xbe, 0x64, 0xe4, 0x8e,
    0xa0, 0x2d, 0x8a, 0x42, 0x53, 0x41, 0x7f, 0x7b, 0xd3, 0x0c, 0x27,
];

/// A token, or a committed call of session 0 on the key `a`: its number, its procedure, the number
/// handed in and the number replied, if any.
#[derive(Clone, Copy)]
pub(crate) enum Line {
    Token(Phase, u64),
    Call(u64, u16, Option<u64>, Option<u64>),
}

use Line::{Call as Calls, Token};

/// Records over an opening, how many bytes are cut off after them, the image from which they are
/// recovered, and what is answered: calls run, whether torn, and what `a` holds; and by an audit of
/// that image: records, calls, whether torn.
#[derive(Clone, Copy)]
struct Row<'a> {
    lines: &'a [Line],
    cut: usize,
    catalog: [u8; 32],
    opening: [u8; 32],
    image: (u64, u64, Option<u64>),
    recovered: Result<(usize, bool, Option<u64>), RecoverError>,
    audited: Result<(usize, usize, bool), AuditError>,
}

const TWO: [Line; 2] = [Calls(1, NEW, Some(5), None), Calls(2, GET, None, Some(5))];

const TWO_ROW: Row<'static> = Row {
    lines: &TWO,
    cut: 0,
    catalog: CATALOG,
    opening: EMPTY,
    image: (0, 0, None),
    recovered: Ok((2, false, Some(5))),
    audited: Ok((2, 2, false)),
};

/// A call that began in prepare and ended in resolve, and a second checkpoint.
const RESOLVED: [Line; 10] = [
    Token(Phase::Prepare, 1),
    Token(Phase::Resolve, 1),
    Calls(1, SET, Some(2), None),
    Token(Phase::Capture, 1),
    Token(Phase::Complete, 1),
    Token(Phase::Rest, 1),
    Token(Phase::Prepare, 2),
    Token(Phase::Resolve, 2),
    Token(Phase::Capture, 2),
    Token(Phase::Complete, 2),
];

const RESOLVED_ROW: Row<'static> = Row {
    lines: &RESOLVED,
    cut: 0,
    catalog: CATALOG,
    opening: ONE,
    image: (0, 0, Some(1)),
    recovered: Ok((1, false, Some(2))),
    audited: Ok((10, 1, false)),
};

const ROWS: [Row<'static>; 17] = [
    TWO_ROW,
    Row {
        cut: 53,
        recovered: Ok((1, true, Some(5))),
        audited: Ok((1, 1, true)),
        ..TWO_ROW
    },
    // Another reply than the run's.
    Row {
        lines: &[Calls(1, NEW, Some(5), None), Calls(2, GET, None, Some(6))],
        recovered: Err(RecoverError::Diverged(1)),
        audited: Err(AuditError::Diverged(1)),
        ..TWO_ROW
    },
    // A number that doesn't rise.
    Row {
        lines: &[Calls(1, NEW, Some(5), None), Calls(1, GET, None, Some(5))],
        audited: Err(AuditError::Disorder(1)),
        ..TWO_ROW
    },
    // No procedure of the catalog, and another number of arguments.
    Row {
        lines: &[Calls(1, 3, None, None)],
        recovered: Err(RecoverError::Diverged(0)),
        audited: Err(AuditError::Diverged(0)),
        ..TWO_ROW
    },
    Row {
        lines: &[Calls(1, GET, Some(5), None)],
        recovered: Err(RecoverError::Diverged(0)),
        audited: Err(AuditError::Diverged(0)),
        ..TWO_ROW
    },
    Row {
        lines: &[Token(Phase::Resolve, 1)],
        recovered: Ok((0, false, None)),
        audited: Err(AuditError::Disorder(0)),
        ..TWO_ROW
    },
    Row {
        lines: &[Token(Phase::Prepare, 1), Token(Phase::Rest, 1)],
        recovered: Ok((0, false, None)),
        audited: Err(AuditError::Disorder(1)),
        ..TWO_ROW
    },
    // An abandoned checkpoint.
    Row {
        lines: &[
            Token(Phase::Prepare, 1),
            Token(Phase::Resolve, 1),
            Token(Phase::Rest, 1),
            Token(Phase::Prepare, 2),
        ],
        recovered: Ok((0, false, None)),
        audited: Ok((4, 0, false)),
        ..TWO_ROW
    },
    Row {
        catalog: [7; 32],
        recovered: Err(RecoverError::WrongCatalog),
        audited: Err(AuditError::WrongCatalog),
        ..TWO_ROW
    },
    Row {
        opening: [7; 32],
        recovered: Err(RecoverError::WrongOpening),
        audited: Err(AuditError::WrongOpening),
        ..TWO_ROW
    },
    // Number 0, and a place after the log's first record.
    Row {
        image: (0, 1, None),
        recovered: Err(RecoverError::WrongOpening),
        audited: Err(AuditError::NotAnOpening),
        ..TWO_ROW
    },
    RESOLVED_ROW,
    Row {
        image: (1, 1, Some(1)),
        audited: Err(AuditError::NotAnOpening),
        ..RESOLVED_ROW
    },
    Row {
        image: (2, 7, Some(2)),
        recovered: Ok((0, false, Some(2))),
        audited: Err(AuditError::NotAnOpening),
        ..RESOLVED_ROW
    },
    // The first seven records, which don't have the token of the image's cut.
    Row {
        cut: 138,
        image: (2, 7, Some(2)),
        recovered: Err(RecoverError::PlaceOutside),
        audited: Err(AuditError::NotAnOpening),
        ..RESOLVED_ROW
    },
    // At the place stands the token of another phase.
    Row {
        image: (1, 3, Some(2)),
        recovered: Err(RecoverError::PlaceOutside),
        audited: Err(AuditError::NotAnOpening),
        ..RESOLVED_ROW
    },
];

fn procedure(
    alloc: Global,
    arity: u8,
    instruction: Instr<Value<Global>>,
) -> Result<Procedure<Global>, Fail> {
    let mut code = Vec::new(alloc);
    code.push(instruction)?;
    Ok(Procedure {
        arity,
        code: Code::new(code)?,
    })
}

pub(crate) fn catalog(alloc: Global) -> Result<Catalog<Global>, Fail> {
    let get = Instr::Read(0, Operand::Arg(0));
    let new = Instr::Insert(Operand::Arg(0), Operand::Arg(1));
    let set = Instr::Put(Operand::Arg(0), Operand::Arg(1));
    let mut procedures = Vec::new(alloc);
    for (arity, instruction) in [(1, get), (2, new), (2, set)] {
        procedures.push(procedure(alloc, arity, instruction)?)?;
    }
    Ok(Catalog::new(Sequence::new(procedures))?)
}

fn text(alloc: Global, bytes: &[u8]) -> Result<Value<Global>, Fail> {
    Ok(Value::new(Vec::from_slice(alloc, bytes)?).ok_or("too long")?)
}

/// A full image, in which a key holds the number.
pub(crate) fn image(
    alloc: Global,
    number: u64,
    place: u64,
    held: Option<u64>,
) -> Result<Image<Global>, Fail> {
    let mut entries = Vec::new(alloc);
    if let Some(held) = held {
        entries.push(Entry {
            key: Key::new(b"a").ok_or("no key")?,
            cell: Some(Value::of_number(held)),
        })?;
    }
    Ok(Image::new(Kind::Full, number, number, place, entries).ok_or("not lawful")?)
}

fn call(
    alloc: Global,
    number: u64,
    procedure: u16,
    key: &[u8],
    given: Option<u64>,
) -> Result<Call<Global>, Fail> {
    let mut args = Vec::new(alloc);
    args.push(text(alloc, key)?)?;
    if let Some(given) = given {
        args.push(Value::of_number(given))?;
    }
    Ok(Call {
        session: 0,
        number,
        procedure,
        args: Sequence::new(args),
    })
}

fn replies(
    alloc: Global,
    number: Option<u64>,
) -> Result<Sequence<Option<Value<Global>>, Global>, NoMemory> {
    let mut replied = Vec::new(alloc);
    if let Some(number) = number {
        replied.push(Some(Value::of_number(number)))?;
    }
    Ok(Sequence::new(replied))
}

fn record_of(alloc: Global, line: Line) -> Result<Record<Global>, Fail> {
    match line {
        Token(phase, number) => Ok(Record::token(phase, number)),
        Calls(number, procedure, given, replied) => {
            let call = call(alloc, number, procedure, b"a", given)?;
            Ok(Record::call(call, 0, replies(alloc, replied)?).ok_or("out of range")?)
        }
    }
}

pub(crate) fn records_of(alloc: Global, lines: &[Line]) -> Result<Vec<Record<Global>>, Fail> {
    let mut records = Vec::new(alloc);
    for line in lines {
        records.push(record_of(alloc, *line)?)?;
    }
    Ok(records)
}

pub(crate) fn log_of(
    alloc: Global,
    header: &LogHeader,
    records: &[Record<Global>],
) -> Result<Sequence<u8, Global>, Fail> {
    if records.len() > commitlog::limits::LOG_RECORDS {
        return Err("too many".into());
    }
    Ok(encode(alloc, header, records)?)
}

/// What a table holds at `a`, if it is a number.
fn number_at(state: &Table<Global>) -> Option<u64> {
    match Key::new(b"a") {
        Some(key) => match state.get(&key) {
            Some(value) => value.as_number(),
            None => None,
        },
        None => None,
    }
}

/// How many calls were run, whether the end was torn, and the number that the key holds.
pub(crate) fn shown(
    found: Result<Recovered<Global>, RecoverError>,
) -> Result<(usize, bool, Option<u64>), RecoverError> {
    match found {
        Ok(found) => Ok((found.calls, found.torn, number_at(&found.state))),
        Err(refused) => Err(refused),
    }
}

pub(crate) fn recovered(
    alloc: Global,
    catalog: &Catalog<Global>,
    images: &[Image<Global>],
    bytes: &[u8],
) -> Result<(usize, bool, Option<u64>), RecoverError> {
    shown(recover(alloc, catalog, images, bytes))
}

fn audited(
    alloc: Global,
    catalog: &Catalog<Global>,
    opening: &Image<Global>,
    bytes: &[u8],
) -> Result<(usize, usize, bool), AuditError> {
    match audit(alloc, catalog, opening, bytes) {
        Ok(found) => Ok((found.records, found.calls, found.torn)),
        Err(refused) => Err(refused),
    }
}

/// The bytes of a row's log, and its image.
fn made(alloc: Global, row: &Row<'_>) -> Result<(Sequence<u8, Global>, Vec<Image<Global>>), Fail> {
    let header = LogHeader {
        catalog: row.catalog,
        opening: row.opening,
    };
    let records = records_of(alloc, row.lines)?;
    let mut images = Vec::new(alloc);
    images.push(image(alloc, row.image.0, row.image.1, row.image.2)?)?;
    Ok((log_of(alloc, &header, &records)?, images))
}

/// Compares what is answered for a row.
fn check_row(
    rt: &impl Abort,
    alloc: Global,
    catalog: &Catalog<Global>,
    row: &Row<'_>,
    at: usize,
) -> Result<(), Fail> {
    let (log, images) = made(alloc, row)?;
    let kept = log.len().saturating_sub(row.cut);
    let bytes = &log.as_slice()[..kept];
    let found = recovered(alloc, catalog, &images, bytes);
    assert_eq!(rt; found, row.recovered, "{at}");
    let opening = images.first().ok_or("no image")?;
    let passed = audited(alloc, catalog, opening, bytes);
    assert_eq!(rt; passed, row.audited, "{at}");
    Ok(())
}

#[test]
fn worked_logs(rt: HostRuntime) -> Result<(), Fail> {
    let catalog = catalog(rt.alloc())?;
    for (at, row) in ROWS.iter().enumerate() {
        check_row(&rt, rt.alloc(), &catalog, row, at)?;
    }
    Ok(())
}

/// Bytes that another program made, in both versions.
#[test]
fn both_versions(rt: HostRuntime) -> Result<(), Fail> {
    let alloc = rt.alloc();
    let catalog = catalog(alloc)?;
    let images = vec![in alloc; image(alloc, 0, 0, None)?]?;
    for bytes in [FIRST.as_slice(), SECOND.as_slice()] {
        assert_eq!(rt;
            recovered(alloc, &catalog, &images, bytes),
            Ok((2, false, Some(5)))
        );
    }
    Ok(())
}

/// Why these bytes aren't recovered from full images of these numbers.
fn refused(alloc: Global, numbers: &[u64], bytes: &[u8]) -> Result<Option<RecoverError>, Fail> {
    let mut images = Vec::new(alloc);
    for number in numbers {
        images.push(image(alloc, *number, *number, None)?)?;
    }
    Ok(recovered(alloc, &catalog(alloc)?, &images, bytes).err())
}

/// Images and bytes that are refused before a header is looked at.
#[test]
fn refused_before(rt: HostRuntime) -> Result<(), Fail> {
    let mut altered = SECOND;
    altered[202] ^= 1;
    let none = refused(rt.alloc(), &[], &SECOND)?;
    assert_eq!(rt; none, Some(RecoverError::NotFull));
    let short = refused(rt.alloc(), &[0], &SECOND[..71])?;
    assert_eq!(rt; short, Some(RecoverError::NotALog));
    let damaged = refused(rt.alloc(), &[0], &altered)?;
    assert_eq!(rt; damaged, Some(RecoverError::Damaged(1)));
    let twice = refused(rt.alloc(), &[0, 1], &SECOND)?;
    assert_eq!(rt; twice, Some(RecoverError::NotPartial(0)));
    Ok(())
}

/// Why these bytes don't pass with the empty opening.
fn unpassed(alloc: Global, bytes: &[u8]) -> Result<Option<AuditError>, Fail> {
    let opening = image(alloc, 0, 0, None)?;
    Ok(audited(alloc, &catalog(alloc)?, &opening, bytes).err())
}

/// How many bytes of the log are left, which of them is altered, and why they don't pass.
const UNPASSED: [(usize, usize, Option<AuditError>); 5] = [
    (203, 80, Some(AuditError::Damaged(0))),
    (203, 202, Some(AuditError::Damaged(1))),
    (203, 0, Some(AuditError::NotALog)),
    (71, 70, Some(AuditError::NotALog)),
    (0, 202, Some(AuditError::NotALog)),
];

#[test]
fn unpassed_logs(rt: HostRuntime) -> Result<(), Fail> {
    for (left, at, wanted) in UNPASSED {
        let mut altered = SECOND;
        altered[at] ^= 1;
        let found = unpassed(rt.alloc(), &altered[..left])?;
        assert_eq!(rt; found, wanted, "{left} bytes, {at}");
    }
    Ok(())
}
