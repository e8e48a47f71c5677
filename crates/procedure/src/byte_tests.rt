//! Tests of the bytes of a catalog in which each instruction, operand and test stands. The bytes were
//! made by another program.
use super::*;
use std::alloc::Global;
use std::test::Fail;

/// A procedure of arity 0 without instructions, and one of arity 3 with those of `pushed`.
const BYTES: [u8; 76] = [
    0x43, 0x41, 0x4c, 0x43, 0x43, 0x41, 0x54, 0x31, 0x02, 0x00, 0x00, 0x03, 0x09, 0x01, 0x07, 0x00,
    0x00, 0x02, 0x00, 0x01, 0x02, 0x00, 0x01, 0x76, 0x03, 0x01, 0x00, 0x00, 0x02, 0x04, 0x02, 0x00,
    0x00, 0x05, 0x01, 0x00, 0x00, 0x01, 0x02, 0x06, 0x03, 0x02, 0x00, 0x08, 0x31, 0x32, 0x33, 0x34,
    0x35, 0x36, 0x37, 0x38, 0x00, 0x01, 0x07, 0x01, 0x01, 0x07, 0x10, 0x07, 0x02, 0x00, 0x00, 0x02,
    0x00, 0x02, 0x78, 0x79, 0xff, 0x07, 0x03, 0x01, 0x01, 0x00, 0x02, 0x11,
];

/// The SHA-256 of these bytes.
const DIGEST: [u8; 32] = [
    0xfe, 0x06, 0xa3, 0x6a, 0xbc, 0xa3, 0x0e, 0xf2, 0xb0, 0x81, 0x15, 0xd2, 0xa7, 0xdc, 0x8a, 0xeb,
    0x25, 0x98, 0xc3, 0x6f, 0x2a, 0x57, 0x09, 0x8b, 0xb3, 0x64, 0xf3, 0x3d, 0xbc, 0x0d, 0x31, 0xdf,
];

type Instructions = Vec<Instr<Value<Global>>>;

fn literal(alloc: Global, bytes: &[u8]) -> Result<Operand<Value<Global>>, Fail> {
    let value = Value::new(Vec::from_slice(alloc, bytes)?).ok_or("too long")?;
    Ok(Operand::Lit(value))
}

/// read r7 $0, put $1 'v, insert r0 $2, delete '
fn push_accesses(alloc: Global, code: &mut Instructions) -> Result<(), Fail> {
    code.push(Instr::Read(7, Operand::Arg(0)))?;
    code.push(Instr::Put(Operand::Arg(1), literal(alloc, b"v")?))?;
    code.push(Instr::Insert(Operand::Reg(0), Operand::Arg(2)))?;
    code.push(Instr::Delete(literal(alloc, b"")?))?;
    Ok(())
}

/// add r1 $0 r2, sub r3 '12345678 $1
fn push_sums(alloc: Global, code: &mut Instructions) -> Result<(), Fail> {
    code.push(Instr::Add(1, Operand::Arg(0), Operand::Reg(2)))?;
    let number = literal(alloc, b"12345678")?;
    code.push(Instr::Sub(3, number, Operand::Arg(1)))?;
    Ok(())
}

/// abort 16 absent r7, abort 255 equal $0 'xy, abort 17 below r1 $2
fn push_aborts(alloc: Global, code: &mut Instructions) -> Result<(), Fail> {
    let absent = Test::Absent(Operand::Reg(7));
    code.push(Instr::AbortIf(absent, 16))?;
    let equal = Test::Equal(Operand::Arg(0), literal(alloc, b"xy")?);
    code.push(Instr::AbortIf(equal, 255))?;
    let below = Test::Below(Operand::Reg(1), Operand::Arg(2));
    code.push(Instr::AbortIf(below, 17))?;
    Ok(())
}

/// All seven instructions, with the three operands and the three tests.
fn pushed(alloc: Global) -> Result<Instructions, Fail> {
    let mut code = Vec::new(alloc);
    push_accesses(alloc, &mut code)?;
    push_sums(alloc, &mut code)?;
    push_aborts(alloc, &mut code)?;
    Ok(code)
}

fn procedure(arity: u8, code: Instructions) -> Result<Procedure<Global>, Fail> {
    let code = Code::new(code)?;
    Ok(Procedure { arity, code })
}

fn catalog(alloc: Global) -> Result<Catalog<Global>, Fail> {
    let mut procedures = Vec::new(alloc);
    procedures.push(procedure(0, Vec::new(alloc))?)?;
    procedures.push(procedure(3, pushed(alloc)?)?)?;
    Ok(Catalog::new(Sequence::new(procedures))?)
}

#[test]
fn all_instructions(rt: HostRuntime) -> Result<(), Fail> {
    let bytes = catalog(rt.alloc())?.to_bytes()?;
    assert_eq!(rt; bytes.as_slice(), BYTES.as_slice());
    Ok(())
}

#[test]
fn digest_of_all_instructions(rt: HostRuntime) -> Result<(), Fail> {
    let digest = catalog(rt.alloc())?.digest()?;
    assert_eq!(rt; digest.as_slice(), DIGEST.as_slice());
    Ok(())
}
