//! Procedures and their instructions, as plain data.
//!
//! Their literals are values of a type `V`: `Value<A>` in a program, and lists of bytes in the
//! definitions of `specs/`, which so speak of no allocator.

ghost use Rattle.std.specs.Prelude.{◌≡◌, ◌<◌, ◌↔◌, [], IfOk, IsSome, IsTrue, count_by, length, option_copied, slice_get};
ghost use Rattle.procedure.specs.Procedures.{is_read};

use crate::sequences::Sequence;
use crate::values::Value;
use std::alloc::{AllocError, Allocator};
use std::marker::Model;
use std::sync::ArcSlice;

/// Where an instruction takes a value from.
#[derive(Clone, Debug, Drop)]
pub enum Operand<V> {
    /// An argument of the call, counted from 0.
    Arg(u8),
    /// What a register holds; absent at the start of a call.
    Reg(u8),
    /// The value itself.
    Lit(V),
}

/// When an `AbortIf` ends the call.
#[derive(Clone, Debug, Drop)]
pub enum Test<V> {
    /// The operand is absent.
    Absent(Operand<V>),
    /// Both are absent, or both are present with the same bytes.
    Equal(Operand<V>, Operand<V>),
    /// Both are present, and the first comes before the second in byte order.
    Below(Operand<V>, Operand<V>),
}

/// One instruction. What it does is `effect` of `specs/Procedures.antt`.
#[derive(Clone, Debug, Drop)]
pub enum Instr<V> {
    /// Register, key: the register takes what the key holds, which is also replied.
    Read(u8, Operand<V>),
    /// Key, value: the key holds the value.
    Put(Operand<V>, Operand<V>),
    /// Key, value: ends with 1 where the key is present, else the key holds the value.
    Insert(Operand<V>, Operand<V>),
    /// Key: ends with 2 where the key is absent, else the key is absent.
    Delete(Operand<V>),
    /// Register, x, y: the register takes x + y, as 8 bytes.
    Add(u8, Operand<V>, Operand<V>),
    /// Register, x, y: the register takes x - y, as 8 bytes.
    Sub(u8, Operand<V>, Operand<V>),
    /// Test, code: ends with the code where the test holds.
    AbortIf(Test<V>, u8),
}

/// Whether an instruction may reply.
fn is_read<A: Allocator>(instruction: &Instr<Value<A>>) -> bool
    ensures { result ≡ is_read instruction.now }
{
    matches!(instruction, Instr::Read(..))
}

/// How many of these instructions read.
fn read_count<A: Allocator>(instructions: &[Instr<Value<A>>]) -> usize
    ensures { result ≡ count_by is_read instructions.now }
{
    instructions.iter().filter(|read| is_read(read)).count()
}

/// The instructions of a procedure, seen by contracts as the list of them. The catalog and the calls
/// in their course share them, so a clone takes no memory; it is refused after 2^63 - 1 of them.
#[derive(Debug, Drop)]
pub struct Code<A: Allocator> {
    instructions: ArcSlice<Instr<Value<A>>, A>,
    /// How many of them read.
    reads: usize,
}

impl<A: Allocator> Model for Code<A> {
    ghost use Rattle.std.specs.Prelude.{◌≡◌, List, count_by};
    ghost use Rattle.std.specs.Arc.{arc_slice_items};
    ghost use Rattle.procedure.specs.Procedures.{Instruction, is_read};

    ghost Value = { List Instruction };

    ghost view = { λ c. arc_slice_items c.instructions };

    ghost invariant = { λ c. c.reads ≡ count_by is_read (arc_slice_items c.instructions) };
}

impl<A: Allocator> Code<A> {
    pub fn new(instructions: Vec<Instr<Value<A>>, A>) -> Result<Self, AllocError>
    where
        A: Clone,
        ensures { IfOk result (λ c. c ≡ instructions.items) }
    {
        let reads = read_count(&instructions);
        Ok(Code {
            instructions: ArcSlice::from_vec(instructions)?,
            reads,
        })
    }

    pub fn as_slice(&self) -> &[Instr<Value<A>>]
        ensures { result.now ≡ self.now }
    {
        self.instructions.as_slice()
    }

    pub fn len(&self) -> usize
        ensures { result ≡ length self.now }
    {
        self.instructions.len()
    }

    pub fn is_empty(&self) -> bool
        ensures { IsTrue result ↔ (self.now ≡ []) }
    {
        self.as_slice().is_empty()
    }

    /// How many instructions read, and so the most replies that a call may give.
    pub fn read_count(&self) -> usize
        ensures { result ≡ count_by is_read self.now }
    {
        self.reads
    }

    /// The instruction at an index, if there is one.
    pub fn get(&self, index: usize) -> Option<&Instr<Value<A>>>
        ensures value { option_copied result ≡ slice_get self.now index }
        ensures within { IsSome result ↔ (index < length self.now) }
    {
        self.as_slice().get(index)
    }
}

impl<A: Allocator> Clone for Code<A> {
    ghost is_clone = { λ c d. d ≡ c };

    fn clone(&self) -> Result<Self, AllocError> {
        Ok(Code {
            instructions: self.instructions.clone()?,
            reads: self.reads,
        })
    }
}

/// A stored procedure: how many arguments it takes, and its instructions.
#[derive(Debug, Drop)]
pub struct Procedure<A: Allocator> {
    pub arity: u8,
    pub code: Code<A>,
}

impl<A: Allocator> Model for Procedure<A> {
    ghost use Rattle.procedure.specs.Procedures.{Procedure};

    ghost Value = { Procedure };

    ghost view = { λ p. record { arity = p.arity; code = p.code } };
}

impl<A: Allocator> Clone for Procedure<A> {
    ghost is_clone = { λ p q. q ≡ p };

    fn clone(&self) -> Result<Self, AllocError> {
        Ok(Procedure {
            arity: self.arity,
            code: self.code.clone()?,
        })
    }
}

/// A call of a procedure of the catalog, by its index, in a session.
#[derive(Clone, Debug, Drop)]
// The number first, so that no room is lost between the others.
pub struct Call<A: Allocator> {
    pub number: u64,
    pub session: u16,
    pub procedure: u16,
    pub args: Sequence<Value<A>, A>,
}
