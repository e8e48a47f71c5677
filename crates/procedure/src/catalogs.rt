//! The catalog: the procedures that can be called, each of them lawful.

ghost use Rattle.std.specs.Prelude.{◌≡◌, ◌↔◌, [], None, IfOk, IfSome, IsTrue, length, slice_get, option_copied, Some};
ghost use Rattle.std.specs.Result.{result_err};
ghost use Rattle.procedure.specs.Catalogs.{catalog_fault, first_fault, procedure_fault, instruction_fault, operand_fault, pair_fault, register_fault, test_fault, IsLawful, fault_text};

use crate::instructions::{Instr, Operand, Procedure, Test};
use crate::limits::{ARGUMENTS, INSTRUCTIONS, LITERAL_BYTES, PROCEDURES, REGISTERS};
use crate::outcomes::FIRST_ABORT;
use crate::sequences::Sequence;
use crate::values::Value;
use std::alloc::Allocator;
use std::error::Error;
use std::fmt;
use std::marker::Model;

/// Why a list of procedures is no catalog.
#[derive(Clone, Copy, Debug, PartialEq, Eq)]
pub enum CatalogError {
    /// Over 64 procedures.
    TooMany,
    /// A procedure has over 64 instructions.
    TooLong,
    /// A register over 7.
    BadRegister,
    /// An arity over 8, or an argument that isn't below the arity.
    BadArgument,
    /// A literal over 256 bytes.
    BadLiteral,
    /// A procedure's own code below 16.
    BadCode,
}

impl fmt::Display for CatalogError {
    ghost output = { λ fault. Some (fault_text fault) };

    fn fmt<W: fmt::Write>(&self, f: &mut fmt::Formatter<W>) -> fmt::Result {
        f.write_str(match self {
            CatalogError::TooMany => "too many procedures",
            CatalogError::TooLong => "a procedure has too many instructions",
            CatalogError::BadRegister => "no such register",
            CatalogError::BadArgument => "no such argument",
            CatalogError::BadLiteral => "a literal is too long",
            CatalogError::BadCode => "a code below 16",
        })
    }
}

impl Error for CatalogError {}

fn check_register(register: u8) -> Result<(), CatalogError>
    ensures { result_err result ≡ register_fault register }
{
    if usize::from(register) >= REGISTERS {
        return Err(CatalogError::BadRegister);
    }
    Ok(())
}

fn check_operand<A: Allocator>(arity: u8, operand: &Operand<Value<A>>) -> Result<(), CatalogError>
    ensures { result_err result ≡ operand_fault arity operand.now }
{
    match operand {
        Operand::Arg(index) if *index >= arity => Err(CatalogError::BadArgument),
        Operand::Arg(_) => Ok(()),
        Operand::Reg(register) => check_register(*register),
        Operand::Lit(value) if value.as_bytes().len() > LITERAL_BYTES => {
            Err(CatalogError::BadLiteral)
        }
        Operand::Lit(_) => Ok(()),
    }
}

fn check_pair<A: Allocator>(
    arity: u8,
    x: &Operand<Value<A>>,
    y: &Operand<Value<A>>,
) -> Result<(), CatalogError>
    ensures { result_err result ≡ pair_fault arity x.now y.now }
{
    check_operand(arity, x)?;
    check_operand(arity, y)
}

fn check_test<A: Allocator>(arity: u8, test: &Test<Value<A>>) -> Result<(), CatalogError>
    ensures { result_err result ≡ test_fault arity test.now }
{
    match test {
        Test::Absent(x) => check_operand(arity, x),
        Test::Equal(x, y) | Test::Below(x, y) => check_pair(arity, x, y),
    }
}

fn check_instruction<A: Allocator>(
    arity: u8,
    instruction: &Instr<Value<A>>,
) -> Result<(), CatalogError>
    ensures { result_err result ≡ instruction_fault arity instruction.now }
{
    match instruction {
        Instr::Read(register, key) => {
            check_register(*register)?;
            check_operand(arity, key)
        }
        Instr::Put(key, value) | Instr::Insert(key, value) => check_pair(arity, key, value),
        Instr::Delete(key) => check_operand(arity, key),
        Instr::Add(register, x, y) | Instr::Sub(register, x, y) => {
            check_register(*register)?;
            check_pair(arity, x, y)
        }
        Instr::AbortIf(test, code) => {
            check_test(arity, test)?;
            if *code < FIRST_ABORT {
                return Err(CatalogError::BadCode);
            }
            Ok(())
        }
    }
}

fn check_code<A: Allocator>(arity: u8, code: &[Instr<Value<A>>]) -> Result<(), CatalogError>
    ensures { result_err result ≡ first_fault (instruction_fault arity) code.now }
{
    for instruction in code {
        check_instruction(arity, instruction)?;
    }
    Ok(())
}

fn check_procedure<A: Allocator>(procedure: &Procedure<A>) -> Result<(), CatalogError>
    ensures { result_err result ≡ procedure_fault procedure.now }
{
    if procedure.code.len() > INSTRUCTIONS {
        return Err(CatalogError::TooLong);
    }
    if procedure.arity > ARGUMENTS {
        return Err(CatalogError::BadArgument);
    }
    check_code(procedure.arity, procedure.code.as_slice())
}

fn check_procedures<A: Allocator>(procedures: &[Procedure<A>]) -> Result<(), CatalogError>
    ensures { result_err result ≡ first_fault procedure_fault procedures.now }
{
    for procedure in procedures {
        check_procedure(procedure)?;
    }
    Ok(())
}

/// Procedures without a fault, numbered from 0: at most 64, seen by contracts as the list of them.
#[derive(Debug, Drop)]
pub struct Catalog<A: Allocator> {
    procedures: Sequence<Procedure<A>, A>,
}

impl<A: Allocator> Model for Catalog<A> {
    ghost use Rattle.std.specs.Prelude.{◌≡◌, List, None};
    ghost use Rattle.procedure.specs.Procedures.{Procedure};
    ghost use Rattle.procedure.specs.Catalogs.{catalog_fault};

    ghost Value = { List Procedure };

    ghost view = { λ c. c.procedures };

    ghost invariant = { λ c. catalog_fault c.procedures ≡ None };
}

impl<A: Allocator> Catalog<A> {
    /// The catalog of these procedures, or their first fault: too many of them, then procedure by
    /// procedure, instruction by instruction, part by part. It takes no memory.
    pub fn new(procedures: Sequence<Procedure<A>, A>) -> Result<Self, CatalogError>
        ensures value { IfOk result (λ c. c ≡ procedures) }
        ensures fault { result_err result ≡ catalog_fault procedures }
    {
        if procedures.len() > PROCEDURES {
            return Err(CatalogError::TooMany);
        }
        check_procedures(procedures.as_slice())?;
        Ok(Catalog { procedures })
    }

    pub fn len(&self) -> usize
        ensures { result ≡ length self.now }
    {
        self.procedures.len()
    }

    pub fn is_empty(&self) -> bool
        ensures { IsTrue result ↔ (self.now ≡ []) }
    {
        self.procedures.is_empty()
    }

    /// The procedures in order, each of them lawful.
    pub fn procedures(&self) -> &[Procedure<A>]
        ensures value { result.now ≡ self.now }
        ensures lawful { catalog_fault self.now ≡ None }
    {
        self.procedures.as_slice()
    }

    pub fn allocator(&self) -> &A {
        self.procedures.allocator()
    }

    /// A procedure by its number. Each that is there is lawful.
    pub fn procedure(&self, index: usize) -> Option<&Procedure<A>>
        ensures value { option_copied result ≡ slice_get self.now index }
        ensures lawful { IfSome result (λ p. IsLawful p.now) }
    {
        self.procedures.get(index)
    }
}
