//! Lines of procedures: operands and instructions.

ghost use Rattle.std.specs.Prelude.{◌≡◌, ◌≤◌, ◌<◌, ℕ, IfOk, IfSome, None};
ghost use Rattle.procedure.specs.Catalogs.{instruction_fault, operand_fault, pair_fault, register_fault, test_fault};
ghost use Rattle.calcdb.specs.Reads.{ReadsAs, ReadsExactly};
ghost use Rattle.calcdb.specs.Instructions as spec;
ghost use Rattle.calcdb.specs.Lines.{words};

use crate::faults::misreads::{Misread, Quote};
use crate::faults::unread::Unread;
use crate::lines::{end_of, word_at};
use crate::values::{decimal_of, value_of};
use procedure::limits::{LITERAL_BYTES, REGISTERS};
use procedure::outcomes::FIRST_ABORT;
use procedure::{Instr, Operand, Test, Value};
use std::alloc::Allocator;

/// The first word of an instruction.
#[derive(Clone, Copy)]
pub(crate) enum Verb {
    Read,
    Put,
    Insert,
    Delete,
    Add,
    Sub,
    Abort,
}

/// The word of a test.
#[derive(Clone, Copy)]
pub(crate) enum TestName {
    Absent,
    Equal,
    Below,
}

/// Whether a word is this one, byte by byte.
// Where it stands in line, the name is known and most words differ from it in length.
#[inline(always)]
pub(crate) fn is_word(word: &[u8], name: &[u8]) -> bool
    ensures { result ≡ spec.is_word word.now name.now }
{
    if word.len() != name.len() {
        return false;
    }
    for at in 0..name.len() {
        if word[at] != name[at] {
            return false;
        }
    }
    true
}

fn verb_of(word: &[u8]) -> Result<Verb, Misread>
    ensures { ReadsExactly (λ v. v) result (spec.verb_of word.now) }
{
    if is_word(word, b"read") {
        Ok(Verb::Read)
    } else if is_word(word, b"put") {
        Ok(Verb::Put)
    } else if is_word(word, b"insert") {
        Ok(Verb::Insert)
    } else if is_word(word, b"delete") {
        Ok(Verb::Delete)
    } else if is_word(word, b"add") {
        Ok(Verb::Add)
    } else if is_word(word, b"sub") {
        Ok(Verb::Sub)
    } else if is_word(word, b"abort") {
        Ok(Verb::Abort)
    } else {
        Err(Misread::NoInstruction(Quote::of(word)))
    }
}

fn test_of(word: &[u8]) -> Result<TestName, Misread>
    ensures { ReadsExactly (λ t. t) result (spec.test_of word.now) }
{
    if is_word(word, b"absent") {
        Ok(TestName::Absent)
    } else if is_word(word, b"equal") {
        Ok(TestName::Equal)
    } else if is_word(word, b"below") {
        Ok(TestName::Below)
    } else {
        Err(Misread::NoTest(Quote::of(word)))
    }
}

fn verb_at(line: &[u8]) -> Result<(Verb, &[u8]), Misread>
    ensures { ReadsExactly (λ p. (p.0, words p.1.now)) result (spec.verb_at (words line.now)) }
{
    let (word, rest) = word_at(line)?;
    Ok((verb_of(word)?, rest))
}

fn test_at(line: &[u8]) -> Result<(TestName, &[u8]), Misread>
    ensures { ReadsExactly (λ p. (p.0, words p.1.now)) result (spec.test_at (words line.now)) }
{
    let (word, rest) = word_at(line)?;
    Ok((test_of(word)?, rest))
}

/// The index that one digit is, below the count.
fn index_of(count: u8, word: &[u8]) -> Option<u8>
    requires { count ≤ 8 }
    ensures value { result ≡ spec.index_of count word.now }
    ensures lawful { IfSome result (λ i. i < count) }
{
    match word {
        [digit] if *digit >= b'0' && *digit < b'0' + count => Some(*digit - b'0'),
        _ => None,
    }
}

fn register_of(word: &[u8]) -> Result<u8, Misread>
    ensures value { ReadsExactly (λ r. r) result (spec.register_of word.now) }
    ensures lawful { IfOk result (λ r. register_fault r ≡ None) }
{
    let index = match word {
        [b'r', index @ ..] => index_of(REGISTERS as u8, index),
        _ => None,
    };
    index.ok_or(Misread::NoRegister(Quote::of(word)))
}

fn register_at(line: &[u8]) -> Result<(u8, &[u8]), Misread>
    ensures value { ReadsExactly (λ p. (p.0, words p.1.now)) result (spec.register_at (words line.now)) }
    ensures lawful { IfOk result (λ p. register_fault p.0 ≡ None) }
{
    let (word, rest) = word_at(line)?;
    Ok((register_of(word)?, rest))
}

/// A value of at most 256 bytes.
fn literal_of<A: Allocator>(alloc: A, word: &[u8]) -> Result<Operand<Value<A>>, Unread>
    ensures value { ReadsAs (λ o. o) result (spec.literal_of word.now) }
    ensures lawful { (arity : ℕ) → IfOk result (λ o. operand_fault arity o ≡ None) }
{
    let bytes = value_of(alloc, word)?;
    let long = Unread::Faulty(Misread::LongValue(Quote::of(word), LITERAL_BYTES));
    if bytes.len() > LITERAL_BYTES {
        return Err(long);
    }
    Ok(Operand::Lit(Value::new(bytes).ok_or(long)?))
}

/// An argument below the arity, a register, or a literal.
fn operand_of<A: Allocator>(alloc: A, arity: u8, word: &[u8]) -> Result<Operand<Value<A>>, Unread>
    requires { arity ≤ 8 }
    ensures value { ReadsAs (λ o. o) result (spec.operand_of arity word.now) }
    ensures lawful { IfOk result (λ o. operand_fault arity o ≡ None) }
{
    match word {
        [] => Err(Unread::Faulty(Misread::MissingWord)),
        [b'$', index @ ..] => match index_of(arity, index) {
            Some(index) => Ok(Operand::Arg(index)),
            None => Err(Unread::Faulty(Misread::NoArgument(Quote::of(word)))),
        },
        [b'r', ..] => Ok(Operand::Reg(register_of(word)?)),
        [_, ..] => literal_of(alloc, word),
    }
}

#[tactic(auto, unfolding(crate::specs::Instructions::operand_at))]
fn operand_at<'a, A: Allocator>(
    alloc: A,
    arity: u8,
    line: &'a [u8],
) -> Result<(Operand<Value<A>>, &'a [u8]), Unread>
    requires { arity ≤ 8 }
    ensures value { ReadsAs (λ p. (p.0, words p.1.now)) result (spec.operand_at arity (words line.now)) }
    ensures lawful { IfOk result (λ p. operand_fault arity p.0 ≡ None) }
{
    let (word, rest) = word_at(line)?;
    Ok((operand_of(alloc, arity, word)?, rest))
}

/// A decimal of 16 to 255.
fn code_of(word: &[u8]) -> Result<u8, Misread>
    ensures value { ReadsExactly (λ c. c) result (spec.code_of word.now) }
    ensures lawful { IfOk result (λ c. FIRST_ABORT ≤ c) }
{
    let code = decimal_of(255, word)? as u8;
    if code < FIRST_ABORT {
        return Err(Misread::NoCode(Quote::of(word)));
    }
    Ok(code)
}

#[tactic(auto, unfolding(crate::specs::Instructions::code_at))]
fn code_at(line: &[u8]) -> Result<(u8, &[u8]), Misread>
    ensures value { ReadsExactly (λ p. (p.0, words p.1.now)) result (spec.code_at (words line.now)) }
    ensures lawful { IfOk result (λ p. FIRST_ABORT ≤ p.0) }
{
    let (word, rest) = word_at(line)?;
    Ok((code_of(word)?, rest))
}

/// The last operand of a line.
#[tactic(auto, unfolding(crate::specs::Instructions::one_operand))]
fn one_operand<A: Allocator>(alloc: A, arity: u8, line: &[u8]) -> Result<Operand<Value<A>>, Unread>
    requires { arity ≤ 8 }
    ensures value { ReadsAs (λ o. o) result (spec.one_operand arity (words line.now)) }
    ensures lawful { IfOk result (λ o. operand_fault arity o ≡ None) }
{
    let (x, rest) = operand_at(alloc, arity, line)?;
    end_of(rest)?;
    Ok(x)
}

/// The last two operands of a line.
#[tactic(auto, unfolding(crate::specs::Instructions::two_operands))]
fn two_operands<A: Allocator + Clone>(
    alloc: A,
    arity: u8,
    line: &[u8],
) -> Result<(Operand<Value<A>>, Operand<Value<A>>), Unread>
    requires { arity ≤ 8 }
    ensures value { ReadsAs (λ p. p) result (spec.two_operands arity (words line.now)) }
    ensures lawful { IfOk result (λ p. pair_fault arity p.0 p.1 ≡ None) }
{
    let (x, rest) = operand_at(alloc.clone()?, arity, line)?;
    let y = one_operand(alloc, arity, rest)?;
    Ok((x, y))
}

/// The test of an abort.
#[tactic(auto, unfolding(crate::specs::Instructions::test_line))]
fn test_line<A: Allocator + Clone>(
    alloc: A,
    arity: u8,
    line: &[u8],
) -> Result<Test<Value<A>>, Unread>
    requires { arity ≤ 8 }
    ensures value { ReadsAs (λ t. t) result (spec.test_line arity (words line.now)) }
    ensures lawful { IfOk result (λ t. test_fault arity t ≡ None) }
{
    let (name, rest) = test_at(line)?;
    match name {
        TestName::Absent => Ok(Test::Absent(one_operand(alloc, arity, rest)?)),
        TestName::Equal => {
            let (x, y) = two_operands(alloc, arity, rest)?;
            Ok(Test::Equal(x, y))
        }
        TestName::Below => {
            let (x, y) = two_operands(alloc, arity, rest)?;
            Ok(Test::Below(x, y))
        }
    }
}

#[tactic(auto, unfolding(crate::specs::Instructions::read_line))]
fn read_line<A: Allocator>(alloc: A, arity: u8, line: &[u8]) -> Result<Instr<Value<A>>, Unread>
    requires { arity ≤ 8 }
    ensures value { ReadsAs (λ i. i) result (spec.read_line arity (words line.now)) }
    ensures lawful { IfOk result (λ i. instruction_fault arity i ≡ None) }
{
    let (register, rest) = register_at(line)?;
    Ok(Instr::Read(register, one_operand(alloc, arity, rest)?))
}

/// A register and two operands.
#[tactic(auto, unfolding(crate::specs::Instructions::sum_line))]
fn sum_line<A: Allocator + Clone>(
    alloc: A,
    arity: u8,
    line: &[u8],
) -> Result<(u8, (Operand<Value<A>>, Operand<Value<A>>)), Unread>
    requires { arity ≤ 8 }
    ensures value { ReadsAs (λ s. s) result (spec.sum_line arity (words line.now)) }
    ensures lawful { IfOk result (λ s. (register_fault s.0 ≡ None) × (pair_fault arity s.1.0 s.1.1 ≡ None)) }
{
    let (register, rest) = register_at(line)?;
    Ok((register, two_operands(alloc, arity, rest)?))
}

#[tactic(auto, unfolding(crate::specs::Instructions::abort_line))]
fn abort_line<A: Allocator + Clone>(
    alloc: A,
    arity: u8,
    line: &[u8],
) -> Result<Instr<Value<A>>, Unread>
    requires { arity ≤ 8 }
    ensures value { ReadsAs (λ i. i) result (spec.abort_line arity (words line.now)) }
    ensures lawful { IfOk result (λ i. instruction_fault arity i ≡ None) }
{
    let (code, rest) = code_at(line)?;
    Ok(Instr::AbortIf(test_line(alloc, arity, rest)?, code))
}

/// The instruction that a line is, in a procedure of this arity.
#[tactic(auto, unfolding(crate::specs::Instructions::instruction_of))]
pub(crate) fn instruction_of<A: Allocator + Clone>(
    alloc: A,
    arity: u8,
    line: &[u8],
) -> Result<Instr<Value<A>>, Unread>
    requires { arity ≤ 8 }
    ensures value { ReadsAs (λ i. i) result (spec.instruction_of arity (words line.now)) }
    ensures lawful { IfOk result (λ i. instruction_fault arity i ≡ None) }
{
    let (verb, rest) = verb_at(line)?;
    match verb {
        Verb::Read => read_line(alloc, arity, rest),
        Verb::Put => {
            let (key, value) = two_operands(alloc, arity, rest)?;
            Ok(Instr::Put(key, value))
        }
        Verb::Insert => {
            let (key, value) = two_operands(alloc, arity, rest)?;
            Ok(Instr::Insert(key, value))
        }
        Verb::Delete => Ok(Instr::Delete(one_operand(alloc, arity, rest)?)),
        Verb::Add => {
            let (register, (x, y)) = sum_line(alloc, arity, rest)?;
            Ok(Instr::Add(register, x, y))
        }
        Verb::Sub => {
            let (register, (x, y)) = sum_line(alloc, arity, rest)?;
            Ok(Instr::Sub(register, x, y))
        }
        Verb::Abort => abort_line(alloc, arity, rest),
    }
}
