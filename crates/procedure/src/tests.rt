//! Tests of what no clause says: worked examples, limits, and that each call succeeds.
use super::*;
use crate::limits::VALUE_BYTES;
use Given::{Number, Text};
use std::alloc::Global;
use std::process::Abort;
use std::test::Fail;

pub(crate) type Literal = Value<Global>;

pub(crate) type Instructions = Vec<Instr<Literal>>;

/// An argument of a row: a text, or a number of 8 bytes.
#[derive(Clone, Copy)]
pub(crate) enum Given<'a> {
    Text(&'a [u8]),
    Number(u64),
}

pub(crate) const GET: usize = 0;

pub(crate) const NEW: usize = 1;

pub(crate) const DEPOSIT: usize = 2;

pub(crate) const MOVE: usize = 3;

pub(crate) const SET: usize = 4;

pub(crate) const DELETE: usize = 5;

pub(crate) const SWAP: usize = 6;

/// The SHA-256 of the 15 bytes of a catalog of `get` alone, by another program.
const GET_DIGEST: [u8; 32] = [
    0x7a, 0xc6, 0xf7, 0x45, 0x12, 0xb7, 0xd2, 0x16, 0x51, 0x08, 0x2f, 0x02, 0xb5, 0x95, 0x1e, 0x31,
    0x2c, 0xb9, 0xce, 0x82, 0x21, 0x66, 0xfa, 0x22, 0xd1, 0x2e, 0xfc, 0xa3, 0x14, 0x45, 0x7e, 0x91,
];

pub(crate) fn value(alloc: Global, bytes: &[u8]) -> Result<Literal, Fail> {
    let mut copy = Vec::new(alloc);
    copy.extend_from_slice(bytes)?;
    Ok(Value::new(copy).ok_or("too long a value")?)
}

pub(crate) fn long(alloc: Global, len: usize) -> Result<Vec<u8>, Fail> {
    Ok(vec![in alloc; 7u8; len]?)
}

fn procedure(arity: u8, code: Instructions) -> Result<Procedure<Global>, Fail> {
    let code = Code::new(code)?;
    Ok(Procedure { arity, code })
}

pub(crate) fn arg(index: u8) -> Operand<Literal> {
    Operand::Arg(index)
}

pub(crate) fn reg(index: u8) -> Operand<Literal> {
    Operand::Reg(index)
}

fn deposit(alloc: Global) -> Result<Instructions, Fail> {
    Ok(vec![in alloc;
        Instr::Read(0, arg(0)),
        Instr::AbortIf(Test::Absent(reg(0)), 16),
        Instr::Add(1, reg(0), arg(1)),
        Instr::Put(arg(0), reg(1)),
    ]?)
}

fn transfer(alloc: Global) -> Result<Instructions, Fail> {
    Ok(vec![in alloc;
        Instr::Read(0, arg(0)),
        Instr::Read(1, arg(1)),
        Instr::Sub(0, reg(0), arg(2)),
        Instr::Add(1, reg(1), arg(2)),
        Instr::Put(arg(0), reg(0)),
        Instr::Put(arg(1), reg(1)),
    ]?)
}

pub(crate) fn add(
    procedures: &mut Vec<Procedure<Global>>,
    arity: u8,
    code: Instructions,
) -> Result<(), Fail> {
    Ok(procedures.push(procedure(arity, code)?)?)
}

/// Adds get, new, deposit and move.
fn add_first(alloc: Global, procedures: &mut Vec<Procedure<Global>>) -> Result<(), Fail> {
    add(procedures, 1, vec![in alloc; Instr::Read(0, arg(0))]?)?;
    add(
        procedures,
        2,
        vec![in alloc; Instr::Insert(arg(0), arg(1))]?,
    )?;
    add(procedures, 2, deposit(alloc)?)?;
    add(procedures, 3, transfer(alloc)?)
}

/// Adds set, delete and swap.
fn add_others(alloc: Global, procedures: &mut Vec<Procedure<Global>>) -> Result<(), Fail> {
    add(procedures, 2, vec![in alloc; Instr::Put(arg(0), arg(1))]?)?;
    add(procedures, 1, vec![in alloc; Instr::Delete(arg(0))]?)?;
    let swap = vec![in alloc; Instr::Read(0, arg(0)), Instr::Put(arg(0), arg(1))]?;
    add(procedures, 2, swap)
}

/// The procedures of the examples: get, new, deposit, move, set, delete, swap.
pub(crate) fn examples(alloc: Global) -> Result<Catalog<Global>, Fail> {
    let mut procedures = Vec::new(alloc);
    add_first(alloc, &mut procedures)?;
    add_others(alloc, &mut procedures)?;
    Ok(Catalog::new(Sequence::new(procedures))?)
}

pub(crate) fn arguments(
    alloc: Global,
    given: &[Given<'_>],
) -> Result<Sequence<Literal, Global>, Fail> {
    let mut args = Vec::new(alloc);
    for one in given {
        args.push(match *one {
            Given::Text(text) => value(alloc, text)?,
            Given::Number(number) => Value::of_number(number),
        })?;
    }
    Ok(Sequence::new(args))
}

fn add_pair(pairs: &mut Vec<(Key, Literal)>, letter: u8, number: u64) -> Result<(), Fail> {
    let key = key(&[letter])?;
    Ok(pairs.push((key, Value::of_number(number)))?)
}

pub(crate) fn table(alloc: Global, pairs: &[(u8, u64)]) -> Result<Table<Global>, Fail> {
    let mut made = Vec::new(alloc);
    for (letter, number) in pairs {
        add_pair(&mut made, *letter, *number)?;
    }
    Ok(Table::from_pairs(alloc, Sequence::new(made))?)
}

/// Whether the table holds the number at the key of the letter.
fn holds_at(table: &Table<Global>, letter: u8, number: u64) -> bool {
    match Key::new(&[letter]) {
        Some(key) => match table.get(&key) {
            Some(value) => value.as_number() == Some(number),
            None => false,
        },
        None => false,
    }
}

/// Whether the table holds these numbers, by keys of one letter, and nothing else.
pub(crate) fn holds(table: &Table<Global>, pairs: &[(u8, u64)]) -> bool {
    table.len() == pairs.len()
        && pairs
            .iter()
            .all(|(letter, number)| holds_at(table, *letter, *number))
}

/// The catalog of one procedure.
pub(crate) fn catalog_of(
    alloc: Global,
    arity: u8,
    code: Instructions,
) -> Result<Result<Catalog<Global>, CatalogError>, Fail> {
    let one = vec![in alloc; procedure(arity, code)?]?;
    Ok(Catalog::new(Sequence::new(one)))
}

/// The catalog of `get` alone.
fn get_alone(alloc: Global) -> Result<Catalog<Global>, Fail> {
    let get = vec![in alloc; Instr::Read(0, arg(0))]?;
    Ok(catalog_of(alloc, 1, get)??)
}

#[test]
fn catalog_bytes(rt: HostRuntime) -> Result<(), Fail> {
    let bytes = get_alone(rt.alloc())?.to_bytes()?;
    assert_eq!(rt;
        bytes.as_slice(),
        b"CALCCAT1\x01\x01\x01\x01\x00\x00\x00".as_slice()
    );
    Ok(())
}

#[test]
fn bytes_of_deposit(rt: HostRuntime) -> Result<(), Fail> {
    let all = examples(rt.alloc())?.to_bytes()?;
    let third = all.as_slice().get(22..44).ok_or("short")?;
    // read r0 $0, abort 16 absent r0, add r1 r0 $1, put $0 r1
    let deposit =
        b"\x02\x04\x01\x00\x00\x00\x07\x01\x01\x00\x10\x05\x01\x01\x00\x00\x01\x02\x00\x00\x01\x01";
    assert_eq!(rt; third, deposit.as_slice());
    Ok(())
}

#[test]
fn digest_of_a_catalog(rt: HostRuntime) -> Result<(), Fail> {
    let digest = get_alone(rt.alloc())?.digest()?;
    assert_eq!(rt; digest.as_slice(), GET_DIGEST.as_slice());
    Ok(())
}

/// Lengths in bytes, and whether a key may be of that length.
const KEY_LENGTHS: [(usize, bool); 4] = [(0, false), (1, true), (32, true), (33, false)];

/// Lengths in bytes, and whether a value may be of that length.
const VALUE_LENGTHS: [(usize, bool); 3] = [
    (0, true),
    (VALUE_BYTES, true),
    (VALUE_BYTES + 1, false),
];

/// The bytes of values, and the numbers that they are.
const NUMBERS: [(&[u8], Option<u64>); 2] = [
    (b"12345678", Some(0x3132_3334_3536_3738)),
    (b"1234567", None),
];

fn key(bytes: &[u8]) -> Result<Key, Fail> {
    Ok(Key::new(bytes).ok_or("no key")?)
}

fn is_key(alloc: Global, len: usize) -> Result<bool, Fail> {
    let bytes = long(alloc, len)?;
    Ok(Key::new(bytes.as_slice()).is_some())
}

fn is_value(alloc: Global, len: usize) -> Result<bool, Fail> {
    Ok(Value::new(long(alloc, len)?).is_some())
}

#[test]
fn limits_of_keys_and_values(rt: HostRuntime) -> Result<(), Fail> {
    for (len, allowed) in KEY_LENGTHS {
        let is_key = is_key(rt.alloc(), len)?;
        assert_eq!(rt; (len, is_key), (len, allowed));
    }
    for (len, allowed) in VALUE_LENGTHS {
        let is_value = is_value(rt.alloc(), len)?;
        assert_eq!(rt; (len, is_value), (len, allowed));
    }
    Ok(())
}

#[test]
fn order_of_keys(rt: HostRuntime) -> Result<(), Fail> {
    let shorter = key(b"ab")?;
    let longer = key(b"ab\0")?;
    assert!(rt; shorter < longer && shorter != longer && shorter == shorter);
    Ok(())
}

fn number_in(alloc: Global, bytes: &[u8]) -> Result<Option<u64>, Fail> {
    Ok(value(alloc, bytes)?.as_number())
}

#[test]
fn numbers_of_values(rt: HostRuntime) -> Result<(), Fail> {
    for (bytes, number) in NUMBERS {
        assert_eq!(rt; number_in(rt.alloc(), bytes)?, number);
    }
    let value = Value::<Global>::of_number(258);
    assert_eq!(rt; value.as_bytes(), b"\0\0\0\0\0\0\x01\x02".as_slice());
    Ok(())
}

#[test]
fn empty_ones(rt: HostRuntime) {
    assert!(rt; Value::<Global>::empty().as_bytes().is_empty());
    assert!(rt; Sequence::<u8, Global>::empty(rt.alloc()).len() == 0);
}

fn reads(machine: &Machine<Global>, key: &[u8]) -> Result<bool, Fail> {
    match machine.next()? {
        Need::Read(read) => Ok(read.as_bytes() == key),
        _ => Ok(false),
    }
}

/// The number that the key of the next instruction takes.
fn writes(machine: &Machine<Global>, found: &Literal) -> Result<Option<u64>, Fail> {
    match machine.next()? {
        Need::Write(_, update) => match update.becomes(Some(found)) {
            Some(Some(value)) => Ok(value.as_number()),
            _ => Ok(None),
        },
        _ => Ok(None),
    }
}

fn has_ended(machine: &Machine<Global>, outcome: u8) -> Result<bool, Fail> {
    match machine.next()? {
        Need::Ended(code) => Ok(code == outcome),
        _ => Ok(false),
    }
}

fn first_swap(alloc: Global) -> Result<Machine<Global>, Fail> {
    let catalog = examples(alloc)?;
    let swap = catalog.procedure(SWAP).ok_or("no procedure")?;
    let args = arguments(alloc, &[Text(b"a"), Number(2)])?;
    Ok(Machine::start(alloc, swap, args)?)
}

/// Whether the next instruction takes a value, and the outcome.
fn told(machine: &Machine<Global>) -> (bool, Option<u8>) {
    (machine.gives_value(), machine.ended())
}

/// What a machine at the start of a swap asks for and tells, where its key holds `held`: whether it reads
/// `a`, the number that it writes, whether it has committed, and what is told at each of the three.
fn steps(
    machine: &mut Machine<Global>,
    held: &Literal,
) -> Result<(bool, Option<u64>, bool, [(bool, Option<u8>); 3]), Fail> {
    let reads = reads(machine, b"a")?;
    let first = told(machine);
    machine.fed(Some(held))?;
    let written = writes(machine, held)?;
    let second = told(machine);
    machine.fed(Some(held))?;
    let committed = has_ended(machine, 0)?;
    Ok((reads, written, committed, [first, second, told(machine)]))
}

/// The number that the key of the next instruction becomes.
fn becomes(machine: &Machine<Global>, found: &Literal) -> Result<Option<u64>, Fail> {
    match machine.becomes(Some(found))? {
        Some(Some(value)) => Ok(value.as_number()),
        _ => Ok(None),
    }
}

/// A write that changes its key goes on, whatever that held.
#[test]
fn machine_after_a_write(rt: HostRuntime) -> Result<(), Fail> {
    let held = value(rt.alloc(), b"held")?;
    let mut machine = first_swap(rt.alloc())?;
    machine.fed(Some(&held))?;
    assert_eq!(rt; becomes(&machine, &held)?, Some(2));
    machine.wrote();
    assert_eq!(rt; machine.ended(), Some(0));
    Ok(())
}

/// How many replies there are, and how many arguments and replies are left of it.
fn lengths(machine: Machine<Global>) -> (usize, usize, usize) {
    let replied = machine.replies().len();
    let (args, replies, _) = machine.into_parts();
    (replied, args.len(), replies.len())
}

/// A machine sees what it is fed, and nothing else.
#[test]
fn machine_by_steps(rt: HostRuntime) -> Result<(), Fail> {
    let held = value(rt.alloc(), b"held")?;
    let mut machine = first_swap(rt.alloc())?;
    let found = steps(&mut machine, &held)?;
    let lengths = lengths(machine);
    drop(held);
    let told = [(false, None), (true, None), (false, Some(0))];
    assert_eq!(rt; found, (true, Some(2), true, told));
    assert_eq!(rt; lengths, (1, 2, 1));
    Ok(())
}

#[test]
fn procedures_of_a_catalog(rt: HostRuntime) -> Result<(), Fail> {
    let catalog = examples(rt.alloc())?;
    assert_eq!(rt; catalog.len(), 7);
    assert!(rt; !catalog.is_empty() && catalog.procedure(7).is_none());
    Ok(())
}

fn two_keys(alloc: Global) -> Result<Table<Global>, Fail> {
    table(alloc, &[(b'b', 2), (b'a', 5)])
}

/// The key `b`, as an argument.
fn second_key(alloc: Global) -> Result<Sequence<Literal, Global>, Fail> {
    arguments(alloc, &[Text(b"b")])
}

/// What a call of a procedure on a table that it only reads changes.
fn changes_of(
    alloc: Global,
    procedure: &Procedure<Global>,
    table: &Table<Global>,
) -> Result<Changes<Global>, Fail> {
    Ok(run_alone(alloc, procedure, second_key(alloc)?, table)?.changes)
}

/// How many keys a deletion changes, and how many the table has then.
fn counts_of_deletion(alloc: Global) -> Result<(usize, usize), Fail> {
    let catalog = examples(alloc)?;
    let delete = catalog.procedure(DELETE).ok_or("no procedure")?;
    let before = two_keys(alloc)?;
    let changes = changes_of(alloc, delete, &before)?;
    Ok((changes.len(), before.len()))
}

fn without_second(alloc: Global) -> Result<Table<Global>, Fail> {
    let catalog = examples(alloc)?;
    let delete = catalog.procedure(DELETE).ok_or("no procedure")?;
    let args = second_key(alloc)?;
    Ok(run_whole(alloc, delete, args, two_keys(alloc)?)?.table)
}

#[test]
fn changes_and_tables(rt: HostRuntime) -> Result<(), Fail> {
    assert_eq!(rt; counts_of_deletion(rt.alloc())?, (1, 2));
    let after = without_second(rt.alloc())?;
    assert!(rt; holds(&after, &[(b'a', 5)]));
    Ok(())
}

/// The key `a` is written over, found and removed.
fn emptied(alloc: Global) -> Result<Option<Table<Global>>, Fail> {
    let mut table = without_second(alloc)?;
    let key = key(b"a")?;
    let replaces = table.insert(key, value(alloc, b"")?)?.is_some();
    let found = table.get(&key).is_some();
    let removes = table.remove(&key).is_some();
    Ok(if replaces && found && removes {
        Some(table)
    } else {
        None
    })
}

#[test]
fn emptied_table(rt: HostRuntime) -> Result<(), Fail> {
    let table = emptied(rt.alloc())?.ok_or("the key is not there")?;
    assert!(rt; table.is_empty());
    let pairs = table.into_pairs(rt.alloc())?;
    assert!(rt; pairs.is_empty());
    Ok(())
}

fn inserting(alloc: Global) -> Result<Catalog<Global>, Fail> {
    // new(key, value): insert $0 $1
    let code = vec![in alloc; Instr::Insert(arg(0), arg(1))]?;
    Ok(catalog_of(alloc, 2, code)??)
}

fn key_and_number(alloc: Global) -> Result<Sequence<Literal, Global>, Fail> {
    let key = Value::new(vec![in alloc; b'a']?).ok_or("too long")?;
    let args = vec![in alloc; key, Value::of_number(5)]?;
    Ok(Sequence::new(args))
}

fn inserted(alloc: Global) -> Result<Finished<Global>, Fail> {
    let catalog = inserting(alloc)?;
    let procedure = catalog.procedure(0).ok_or("no procedure")?;
    let args = key_and_number(alloc)?;
    Ok(run_whole(alloc, procedure, args, Table::new(alloc))?)
}

/// The example of the README.
#[test]
fn embedding(rt: HostRuntime) -> Result<(), Fail> {
    let done = inserted(rt.alloc())?;
    assert_eq!(rt;
        (done.outcome, done.table.len(), done.written.len()),
        (0, 1, 1)
    );
    Ok(())
}
