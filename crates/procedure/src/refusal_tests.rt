//! Tests of catalogs that are refused, and of those at the limits, which aren't.
use super::*;
use crate::limits::{INSTRUCTIONS, LITERAL_BYTES, PROCEDURES};
use crate::tests::{Literal, add, arg, catalog_of, long, reg, value};
use std::alloc::Global;
use std::test::Fail;

/// Why a catalog of so many procedures is refused.
fn refused_procedures(alloc: Global, count: usize) -> Result<Option<CatalogError>, Fail> {
    let mut many = Vec::new(alloc);
    for _ in 0..count {
        add(&mut many, 0, Vec::new(alloc))?;
    }
    Ok(Catalog::new(Sequence::new(many)).err())
}

/// Why a catalog of one procedure of so many instructions is refused.
fn refused_instructions(alloc: Global, count: usize) -> Result<Option<CatalogError>, Fail> {
    let mut steps = Vec::new(alloc);
    for _ in 0..count {
        steps.push(Instr::Delete(reg(9)))?;
    }
    Ok(catalog_of(alloc, 9, steps)?.err())
}

/// Why a catalog of one procedure of one instruction is refused.
fn refused(
    alloc: Global,
    arity: u8,
    instruction: Instr<Literal>,
) -> Result<Option<CatalogError>, Fail> {
    let code = vec![in alloc; instruction]?;
    Ok(catalog_of(alloc, arity, code)?.err())
}

fn literal(alloc: Global, len: usize) -> Result<Operand<Literal>, Fail> {
    Ok(Operand::Lit(value(alloc, long(alloc, len)?.as_slice())?))
}

#[test]
fn refused_lengths(rt: HostRuntime) -> Result<(), Fail> {
    let many = refused_procedures(rt.alloc(), PROCEDURES + 1)?;
    let long = refused_instructions(rt.alloc(), INSTRUCTIONS + 1)?;
    let wanted = (Some(CatalogError::TooMany), Some(CatalogError::TooLong));
    assert_eq!(rt; (many, long), wanted);
    Ok(())
}

const BAD_ARGUMENT: Option<CatalogError> = Some(CatalogError::BadArgument);

const BAD_REGISTER: Option<CatalogError> = Some(CatalogError::BadRegister);

/// Of instructions that delete or read a key.
fn refused_keys(alloc: Global) -> Result<[Option<CatalogError>; 5], Fail> {
    Ok([
        refused(alloc, 9, Instr::Delete(arg(8)))?,
        refused(alloc, 8, Instr::Delete(arg(8)))?,
        refused(alloc, 8, Instr::Delete(arg(7)))?,
        refused(alloc, 0, Instr::Read(8, arg(0)))?,
        refused(alloc, 1, Instr::Read(7, arg(0)))?,
    ])
}

/// Of instructions that compute or write a value.
fn refused_values(alloc: Global) -> Result<[Option<CatalogError>; 4], Fail> {
    let too_long = Instr::Put(reg(0), literal(alloc, LITERAL_BYTES + 1)?);
    let too_long = refused(alloc, 0, too_long)?;
    let allowed = Instr::Insert(literal(alloc, LITERAL_BYTES)?, reg(7));
    Ok([
        too_long,
        refused(alloc, 0, allowed)?,
        refused(alloc, 0, Instr::Add(7, reg(8), arg(0)))?,
        refused(alloc, 0, Instr::Sub(7, arg(0), reg(8)))?,
    ])
}

/// Of instructions that abort.
fn refused_aborts(alloc: Global) -> Result<[Option<CatalogError>; 3], Fail> {
    let absent = Instr::AbortIf(Test::Absent(reg(7)), 15);
    let absent = refused(alloc, 0, absent)?;
    let equal = Instr::AbortIf(Test::Equal(arg(0), reg(8)), 15);
    let equal = refused(alloc, 0, equal)?;
    let below = Instr::AbortIf(Test::Below(arg(0), reg(7)), 16);
    Ok([absent, equal, refused(alloc, 1, below)?])
}

#[test]
fn refused_alone(rt: HostRuntime) -> Result<(), Fail> {
    let keys = refused_keys(rt.alloc())?;
    assert_eq!(rt;
        keys,
        [BAD_ARGUMENT, BAD_ARGUMENT, None, BAD_REGISTER, None]
    );
    let values = refused_values(rt.alloc())?;
    let bad_literal = Some(CatalogError::BadLiteral);
    assert_eq!(rt; values, [bad_literal, None, BAD_REGISTER, BAD_ARGUMENT]);
    let aborts = refused_aborts(rt.alloc())?;
    assert_eq!(rt; aborts, [Some(CatalogError::BadCode), BAD_ARGUMENT, None]);
    Ok(())
}
