//! Tests of what no clause of a core says: what a streamed checkpoint sends through a ring of one entry,
//! when the ring is full, and that each call succeeds.
ghost use Rattle.pipe.specs.Rings.{IsPair, SameTap, SameDrain};

use image::{AssembleError, Entry, Header, Image, Kind, assemble};
use phase::Phase;
use pipe::{Drain, Tap, ring};
use procedure::{Catalog, Code, Instr, Key, Operand, Procedure, Sequence, Value};
use std::alloc::Global;
use std::test::Fail;
use steps::*;

/// The procedures: `del` deletes a key, and `set` puts a number at one.
pub(crate) const DEL: u16 = 0;

pub(crate) const SET: u16 = 1;

/// What is asked of a core, and of the ring beside it.
#[derive(Clone, Copy)]
pub(crate) enum Ask {
    Start(Kind),
    Advance,
    Capture,
    CaptureTo,
    /// An entry is taken from the ring.
    Take,
    TakeHeader,
    Abandon,
    /// A whole call by its number: a procedure, the letter of a key, and a number to put there.
    Call(u64, u16, u8, Option<u64>),
}

/// How it is answered.
#[derive(Clone, Copy, Debug, PartialEq, Eq)]
pub(crate) enum Said {
    Number(u64),
    Entered(Phase),
    Text(&'static str),
    /// The key and the number of an entry.
    Held(Option<(u8, Option<u64>)>),
    Head(Option<Header>),
}

use Said::{Entered, Head, Held, Number, Text};

/// The full checkpoint of three keys; the chain was made by another program.
pub(crate) const FULL: Header = Header {
    kind: Kind::Full,
    number: 1,
    base: 1,
    place: 1,
    count: 3,
    chain: [
        0xf6, 0x94, 0x1a, 0xc7, 0x12, 0x14, 0x0e, 0x6c, 0x5c, 0x9c, 0x73, 0x35, 0x37, 0x58, 0x81,
        0x92, 0x86, 0xfb, 0x06, 0xbd, 0x30, 0xbb, 0xc1, 0xff, 0xbf, 0x39, 0x74, 0x3f, 0x6b, 0xd3,
        0xd0, 0x89,
    ],
};

/// The partial one after it, of a key that was put and one that is gone.
const PARTIAL: Header = Header {
    kind: Kind::Partial,
    number: 2,
    base: 1,
    place: 9,
    count: 2,
    chain: [
        0x77, 0x6d, 0x02, 0x8b, 0x19, 0xe8, 0xa2, 0xee, 0x75, 0xa5, 0x80, 0xad, 0x7a, 0x9b, 0x80,
        0x08, 0xc5, 0xf6, 0x58, 0xce, 0xbe, 0x0a, 0x24, 0x19, 0x48, 0xe3, 0x16, 0x62, 0x0d, 0x31,
        0x9e, 0xdb,
    ],
};

const ROW: [(Ask, Said); 44] = [
    (Ask::Start(Kind::Full), Number(1)),
    (Ask::CaptureTo, Text("not capturing")),
    (Ask::Advance, Entered(Phase::Resolve)),
    (Ask::Abandon, Text("wrong way")),
    (Ask::Advance, Entered(Phase::Capture)),
    (Ask::Capture, Text("wrong way")),
    (Ask::CaptureTo, Text("slot")),
    (Ask::CaptureTo, Text("ring full")),
    (Ask::Take, Held(Some((b'a', Some(1))))),
    (Ask::Call(1, SET, b'b', Some(8)), Text("answered")),
    (Ask::CaptureTo, Text("slot")),
    (Ask::CaptureTo, Text("ring full")),
    (Ask::Advance, Text("not scanned")),
    (Ask::Take, Held(Some((b'b', Some(2))))),
    (Ask::CaptureTo, Text("slot")),
    (Ask::CaptureTo, Text("done")),
    (Ask::TakeHeader, Head(None)),
    (Ask::Advance, Entered(Phase::Complete)),
    (Ask::Advance, Entered(Phase::Rest)),
    (Ask::Start(Kind::Partial), Text("not taken")),
    (Ask::TakeHeader, Head(Some(FULL))),
    (Ask::TakeHeader, Head(None)),
    (Ask::Take, Held(Some((b'c', Some(3))))),
    (Ask::Call(2, SET, b'a', Some(5)), Text("answered")),
    (Ask::Call(3, DEL, b'b', None), Text("answered")),
    (Ask::Start(Kind::Partial), Number(2)),
    (Ask::Advance, Entered(Phase::Resolve)),
    (Ask::Advance, Entered(Phase::Capture)),
    (Ask::CaptureTo, Text("slot")),
    (Ask::Call(4, SET, b'b', Some(9)), Text("answered")),
    (Ask::Take, Held(Some((b'a', Some(5))))),
    (Ask::CaptureTo, Text("slot")),
    (Ask::CaptureTo, Text("done")),
    (Ask::Take, Held(Some((b'b', None)))),
    (Ask::Take, Held(None)),
    (Ask::Advance, Entered(Phase::Complete)),
    (Ask::TakeHeader, Head(Some(PARTIAL))),
    (Ask::Abandon, Text("not abandonable")),
    (Ask::Advance, Entered(Phase::Rest)),
    (Ask::CaptureTo, Text("not capturing")),
    (Ask::Capture, Text("not capturing")),
    (Ask::Advance, Text("at rest")),
    (Ask::TakeHeader, Head(None)),
    (Ask::Take, Held(None)),
];

fn procedure(
    alloc: Global,
    arity: u8,
    instruction: Instr<Value<Global>>,
) -> Result<Procedure<Global>, Fail> {
    let mut code = Vec::new(alloc);
    code.push(instruction)?;
    Ok(Procedure {
        arity,
        code: Code::new(code)?,
    })
}

fn del() -> Instr<Value<Global>> {
    Instr::Delete(Operand::Arg(0))
}

fn set() -> Instr<Value<Global>> {
    Instr::Put(Operand::Arg(0), Operand::Arg(1))
}

pub(crate) fn catalog(alloc: Global) -> Result<Catalog<Global>, Fail> {
    let mut procedures = Vec::new(alloc);
    procedures.push(procedure(alloc, 1, del())?)?;
    procedures.push(procedure(alloc, 2, set())?)?;
    Ok(Catalog::new(Sequence::new(procedures))?)
}

fn entry(alloc: Global, letter: u8, number: u64) -> Result<Entry<Global>, Fail> {
    Ok(Entry {
        key: Key::new(&[letter]).ok_or("no key")?,
        cell: Some(Value::of_number(number)),
    })
}

/// Three keys hold 1, 2 and 3.
pub(crate) fn opening(alloc: Global) -> Result<Image<Global>, Fail> {
    let mut entries = Vec::new(alloc);
    for (letter, number) in [(b'a', 1), (b'b', 2), (b'c', 3)] {
        entries.push(entry(alloc, letter, number)?)?;
    }
    Ok(Image::new(Kind::Full, 0, 0, 0, entries).ok_or("not lawful")?)
}

pub(crate) fn args(alloc: Global, letter: u8, number: Option<u64>) -> Result<Vec<Vec<u8>>, Fail> {
    let mut args = Vec::new(alloc);
    args.push(Vec::from_slice(alloc, &[letter])?)?;
    if let Some(number) = number {
        args.push(Vec::from_slice(alloc, &number.to_be_bytes())?)?;
    }
    Ok(args)
}

/// A call of session 0, which has one instruction.
pub(crate) fn called(
    core: &mut Core<Global>,
    number: u64,
    procedure: u16,
    args: Vec<Vec<u8>>,
) -> &'static str {
    if let Err(refused) = core.begin(0, number, procedure, Arguments::of_bytes(args)) {
        return refused.name();
    }
    if let Err(refused) = core.step(0) {
        return refused.name();
    }
    match core.finish(0) {
        Ok(_) => "answered",
        Err(refused) => refused.name(),
    }
}

pub(crate) fn shown(entry: &Entry<Global>) -> Option<(u8, Option<u64>)> {
    let letter = *entry.key.as_bytes().first()?;
    match &entry.cell {
        Some(value) => Some((letter, Some(value.as_number()?))),
        None => Some((letter, None)),
    }
}

fn captured(captured: Captured) -> &'static str {
    match captured {
        Captured::Slot => "slot",
        Captured::Done => "done",
    }
}

fn captured_to(core: &mut Core<Global>, tap: &mut Tap<Global>) -> &'static str
    ensures { SameTap tap.old tap.new }
{
    match core.capture_to(tap) {
        Ok(x) => captured(x),
        Err(refused) => refused.name(),
    }
}

fn taken(drain: &mut Drain<Global>) -> Option<(u8, Option<u64>)>
    ensures { SameDrain drain.old drain.new }
{
    match drain.take() {
        Some(entry) => shown(entry),
        None => None,
    }
}

/// What the core says to what asks it alone.
fn asked(core: &mut Core<Global>, ask: Ask) -> Said {
    match ask {
        Ask::Start(kind) => match core.start_streamed(kind) {
            Ok(number) => Number(number),
            Err(refused) => Text(refused.name()),
        },
        Ask::Advance => match core.advance() {
            Ok(phase) => Entered(phase),
            Err(refused) => Text(refused.name()),
        },
        Ask::Capture => match core.capture() {
            Ok(x) => Text(captured(x)),
            Err(refused) => Text(refused.name()),
        },
        Ask::Abandon => match core.abandon() {
            Ok(number) => Number(number),
            Err(refused) => Text(refused.name()),
        },
        _ => Head(core.take_header()),
    }
}

pub(crate) fn answer(
    alloc: Global,
    core: &mut Core<Global>,
    tap: &mut Tap<Global>,
    drain: &mut Drain<Global>,
    ask: Ask,
) -> Result<Said, Fail>
    ensures tap { SameTap tap.old tap.new }
    ensures drain { SameDrain drain.old drain.new }
{
    match ask {
        Ask::CaptureTo => Ok(Text(captured_to(core, tap))),
        Ask::Take => Ok(Held(taken(drain))),
        Ask::Call(number, procedure, letter, put) => {
            let args = args(alloc, letter, put)?;
            Ok(Text(called(core, number, procedure, args)))
        }
        ask => Ok(asked(core, ask)),
    }
}

/// Whether a row is answered as it should be.
fn is_right(
    alloc: Global,
    core: &mut Core<Global>,
    tap: &mut Tap<Global>,
    drain: &mut Drain<Global>,
    row: &(Ask, Said),
) -> Result<bool, Fail>
    ensures tap { SameTap tap.old tap.new }
    ensures drain { SameDrain drain.old drain.new }
{
    Ok(answer(alloc, core, tap, drain, row.0)? == row.1)
}

/// How many are answered as they should be, before one that isn't.
fn count_right(
    alloc: Global,
    core: &mut Core<Global>,
    tap: &mut Tap<Global>,
    drain: &mut Drain<Global>,
    rows: &[(Ask, Said)],
) -> Result<usize, Fail>
    requires { IsPair tap.old drain.old }
    ensures { IsPair tap.new drain.new }
{
    for (i, row) in rows.iter().enumerate() {
        if !is_right(alloc, core, tap, drain, row)? {
            return Ok(i);
        }
    }
    Ok(rows.len())
}

/// What a header and entries make: how the image begins, and its last entry.
type Made = Result<(u64, usize, Option<(u8, Option<u64>)>), AssembleError>;

fn made(alloc: Global, header: &Header, entries: &[Entry<Global>]) -> Made {
    let image = assemble(alloc, header, entries)?;
    let last = match image.entries().last() {
        Some(entry) => shown(entry),
        None => None,
    };
    Ok((image.place(), image.entries().len(), last))
}

/// What the entries make.
fn all_made(alloc: Global, all: &mut [Entry<Global>]) -> Option<[Made; 4]> {
    let short = Header { count: 2, ..FULL };
    let full = made(alloc, &FULL, all.get(..3)?);
    let partial = made(alloc, &PARTIAL, all.get(3..)?);
    let short = made(alloc, &short, all.get(..3)?);
    all.swap(0, 1);
    let turned = made(alloc, &FULL, all.get(..3)?);
    Some([full, partial, short, turned])
}

/// What came through the ring makes the images of both checkpoints; with a wrong count, or in another
/// order, it makes none.
fn made_of(alloc: Global, tap: Tap<Global>, drain: Drain<Global>) -> Option<[Made; 4]>
    requires { IsPair tap drain }
{
    match tap.end() {
        Some(end) => {
            let mut all = drain.all_after(end);
            let made = all_made(alloc, all.as_mut_slice());
            drop(all);
            made
        }
        None => {
            drop(drain);
            None
        }
    }
}

const MADE: [Made; 4] = [
    Ok((1, 3, Some((b'c', Some(3))))),
    Ok((9, 2, Some((b'b', None)))),
    Err(AssembleError::BadForm),
    Err(AssembleError::BadForm),
];

/// A core that was just opened.
pub(crate) fn opened(alloc: Global) -> Result<Core<Global>, Fail> {
    Ok(Core::open(alloc, catalog(alloc)?, opening(alloc)?)?)
}

/// How many rows a core answers as it should.
fn count_answered(
    alloc: Global,
    tap: &mut Tap<Global>,
    drain: &mut Drain<Global>,
) -> Result<usize, Fail>
    requires { IsPair tap.old drain.old }
    ensures { IsPair tap.new drain.new }
{
    let mut core = opened(alloc)?;
    let right = count_right(alloc, &mut core, tap, drain, &ROW);
    drop(core);
    right
}

/// The same through a ring of one entry, and what came through it makes.
fn streamed(alloc: Global) -> Result<(usize, Option<[Made; 4]>), Fail> {
    let (mut tap, mut drain) = ring(alloc, 1)?;
    let right = count_answered(alloc, &mut tap, &mut drain);
    let made = made_of(alloc, tap, drain);
    Ok((right?, made))
}

#[test]
fn streamed_through_a_ring_of_one(rt: HostRuntime) -> Result<(), Fail> {
    let told = streamed(rt.alloc())?;
    assert_eq!(rt; told, (ROW.len(), Some(MADE)));
    Ok(())
}
