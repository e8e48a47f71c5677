//! The bytes of a catalog, and their digest.

ghost use Rattle.std.specs.Prelude.{◌≡◌, ◌≤◌, [], ◌∷◌, ◌++◌, None, IfOk, OnOk, length};
ghost use Rattle.std.specs.List.{flat_map};
ghost use Rattle.sha2.specs.Sha256.{sha256};
ghost use Rattle.procedure.specs.Catalogs.{catalog_fault, first_fault, procedure_fault};
ghost use Rattle.procedure.specs.Procedures.{Lit, AbortIf};
ghost use Rattle.procedure.specs.CatalogBytes.{catalog_bytes, instruction_bytes, operand_bytes, procedure_bytes, test_bytes};

use crate::bytes::write_u16;
use crate::catalogs::Catalog;
use crate::instructions::{Instr, Operand, Procedure, Test};
use crate::memory::NoMemory;
use crate::sequences::Sequence;
use crate::values::Value;
use sha2::{Digest, Sha256};
use std::alloc::Allocator;

fn write_bytes<A: Allocator>(out: &mut Vec<u8, A>, bytes: &[u8]) -> Result<(), NoMemory>
    ensures { OnOk result (out.new.items ≡ out.old.items ++ bytes.now) }
{
    out.extend_from_slice(bytes)?;
    Ok(())
}

fn write_literal<A: Allocator>(out: &mut Vec<u8, A>, value: &Value<A>) -> Result<(), NoMemory>
    ensures { OnOk result (out.new.items ≡ out.old.items ++ operand_bytes (Lit value.now)) }
{
    let bytes = value.as_bytes();
    write_bytes(out, &[2])?;
    write_u16(out, bytes.len() as u16)?;
    write_bytes(out, bytes)
}

fn write_operand<A: Allocator>(
    out: &mut Vec<u8, A>,
    operand: &Operand<Value<A>>,
) -> Result<(), NoMemory>
    ensures { OnOk result (out.new.items ≡ out.old.items ++ operand_bytes operand.now) }
{
    match operand {
        Operand::Arg(index) => write_bytes(out, &[0, *index]),
        Operand::Reg(register) => write_bytes(out, &[1, *register]),
        Operand::Lit(value) => write_literal(out, value),
    }
}

/// A head, and an operand after it.
fn write_one<A: Allocator>(
    out: &mut Vec<u8, A>,
    head: &[u8],
    x: &Operand<Value<A>>,
) -> Result<(), NoMemory>
    ensures { OnOk result (out.new.items ≡ out.old.items ++ (head.now ++ operand_bytes x.now)) }
{
    write_bytes(out, head)?;
    write_operand(out, x)
}

/// A head, and two operands after it.
fn write_two<A: Allocator>(
    out: &mut Vec<u8, A>,
    head: &[u8],
    x: &Operand<Value<A>>,
    y: &Operand<Value<A>>,
) -> Result<(), NoMemory>
    ensures { OnOk result (out.new.items ≡ out.old.items ++ (head.now ++ (operand_bytes x.now ++ operand_bytes y.now))) }
{
    write_one(out, head, x)?;
    write_operand(out, y)
}

fn write_test<A: Allocator>(out: &mut Vec<u8, A>, test: &Test<Value<A>>) -> Result<(), NoMemory>
    ensures { OnOk result (out.new.items ≡ out.old.items ++ test_bytes test.now) }
{
    match test {
        Test::Absent(x) => write_one(out, &[1], x),
        Test::Equal(x, y) => write_two(out, &[2], x, y),
        Test::Below(x, y) => write_two(out, &[3], x, y),
    }
}

fn write_abort<A: Allocator>(
    out: &mut Vec<u8, A>,
    test: &Test<Value<A>>,
    code: u8,
) -> Result<(), NoMemory>
    ensures { OnOk result (out.new.items ≡ out.old.items ++ instruction_bytes (AbortIf test.now code)) }
{
    write_bytes(out, &[7])?;
    write_test(out, test)?;
    write_bytes(out, &[code])
}

fn write_instruction<A: Allocator>(
    out: &mut Vec<u8, A>,
    instruction: &Instr<Value<A>>,
) -> Result<(), NoMemory>
    ensures { OnOk result (out.new.items ≡ out.old.items ++ instruction_bytes instruction.now) }
{
    match instruction {
        Instr::Read(register, key) => write_one(out, &[1, *register], key),
        Instr::Put(key, value) => write_two(out, &[2], key, value),
        Instr::Insert(key, value) => write_two(out, &[3], key, value),
        Instr::Delete(key) => write_one(out, &[4], key),
        Instr::Add(register, x, y) => write_two(out, &[5, *register], x, y),
        Instr::Sub(register, x, y) => write_two(out, &[6, *register], x, y),
        Instr::AbortIf(test, code) => write_abort(out, test, *code),
    }
}

fn write_code<A: Allocator>(out: &mut Vec<u8, A>, code: &[Instr<Value<A>>]) -> Result<(), NoMemory>
    ensures { OnOk result (out.new.items ≡ out.old.items ++ flat_map instruction_bytes code.now) }
{
    for instruction in code {
        write_instruction(out, instruction)?;
    }
    Ok(())
}

fn write_procedure<A: Allocator>(
    out: &mut Vec<u8, A>,
    procedure: &Procedure<A>,
) -> Result<(), NoMemory>
    requires { procedure_fault procedure.now ≡ None }
    ensures { OnOk result (out.new.items ≡ out.old.items ++ procedure_bytes procedure.now) }
{
    out.extend_from_slice(&[procedure.arity, procedure.code.len() as u8])?;
    write_code(out, procedure.code.as_slice())
}

fn write_procedures<A: Allocator>(
    out: &mut Vec<u8, A>,
    procedures: &[Procedure<A>],
) -> Result<(), NoMemory>
    requires { first_fault procedure_fault procedures.now ≡ None }
    ensures { OnOk result (out.new.items ≡ out.old.items ++ flat_map procedure_bytes procedures.now) }
{
    for procedure in procedures {
        write_procedure(out, procedure)?;
    }
    Ok(())
}

fn write_catalog<A: Allocator>(
    out: &mut Vec<u8, A>,
    procedures: &[Procedure<A>],
) -> Result<(), NoMemory>
    requires { catalog_fault procedures.now ≡ None }
    ensures { OnOk result (out.new.items ≡ out.old.items ++ catalog_bytes procedures.now) }
{
    out.extend_from_slice(b"CALCCAT1")?;
    out.push(procedures.len() as u8)?;
    write_procedures(out, procedures)
}

impl<A: Allocator + Clone> Catalog<A> {
    /// The catalog as bytes: `CALCCAT1`, the number of procedures, and of each its arity, the number
    /// of its instructions and these.
    pub fn to_bytes(&self) -> Result<Sequence<u8, A>, NoMemory>
        ensures { IfOk result (λ bytes. bytes ≡ catalog_bytes self.now) }
    {
        let mut out = Vec::new(self.allocator().clone()?);
        write_catalog(&mut out, self.procedures())?;
        Ok(Sequence::new(out))
    }

    /// The SHA-256 of the catalog's bytes. Logs carry it, so that no call is run again by another
    /// catalog.
    pub fn digest(&self) -> Result<[u8; 32], NoMemory>
        ensures { IfOk result (λ digest. digest ≡ sha256 (catalog_bytes self.now)) }
    {
        Ok(Sha256::digest(self.to_bytes()?.as_slice()))
    }
}
