//! What one instruction asks for and does, over the arguments and registers of a call.

ghost use Rattle.std.specs.Prelude.{◌≡◌, ◌+◌, ◌-◌, ◌<◌, ◌^◌, Some, None, IfOk, OnErr, IsSome, ◌&&◌, is_some, option_copied, slice_set, List};
ghost use Rattle.procedure.specs.Bytes.{Cell};
ghost use Rattle.procedure.specs.Procedures.{operand_value, as_key, as_number, same_cell, below_cell, holds, need, effect, adding, subtracting, reading, putting, inserting, deleting};
ghost use Rattle.procedure.specs.Needs.{HasValue, CopiesValue, accessed, becomes_of, write_access};
ghost use Rattle.procedure.specs.Actions.{effect_of, number_set};

use crate::instructions::{Instr, Operand, Test};
use crate::keys::Key;
use crate::memory::NoMemory;
use crate::needs::{Access, Need, Update};
use crate::outcomes::{BAD_KEY, KEY_ABSENT, KEY_PRESENT, NO_VALUE, NOT_A_NUMBER, OUT_OF_RANGE};
use crate::registers::Registers;
use crate::values::Value;
use std::alloc::Allocator;

/// What a machine does to itself for one instruction. All that takes memory is in it already.
#[derive(Drop)]
pub(crate) enum Action<V> {
    /// A register takes a cell.
    Set(u8, Option<V>),
    /// A register takes a cell, of which a second copy is replied.
    Load(u8, Option<V>, Option<V>),
    /// It goes on.
    Pass,
    /// The call ends with an outcome.
    End(u8),
}

/// What an operand gives, or None where that is absent.
pub(crate) fn value_of<'a, A: Allocator>(
    operand: &'a Operand<Value<A>>,
    args: &'a [Value<A>],
    registers: &'a Registers<A>,
) -> Option<&'a Value<A>>
    ensures { option_copied result ≡ operand_value operand.now args.now registers.now }
{
    match operand {
        Operand::Arg(index) => args.get(usize::from(*index)),
        Operand::Reg(index) => registers.get(*index),
        Operand::Lit(value) => Some(value),
    }
}

fn key_of<A: Allocator>(value: Option<&Value<A>>) -> Option<Key>
    ensures { result ≡ as_key (option_copied value.entry) }
{
    match value {
        Some(value) => Key::new(value.as_bytes()),
        None => None,
    }
}

/// The bytes of a value that can be a key.
fn key_bytes<'a, A: Allocator>(value: Option<&'a Value<A>>) -> Option<&'a [u8]>
    ensures { option_copied result ≡ as_key (option_copied value.entry) }
{
    match value {
        Some(value) if Key::fits(value.as_bytes()) => Some(value.as_bytes()),
        _ => None,
    }
}

fn number_of<A: Allocator>(value: Option<&Value<A>>) -> Option<u64>
    ensures { result ≡ as_number (option_copied value.entry) }
{
    match value {
        Some(value) => value.as_number(),
        None => None,
    }
}

#[tactic(auto, using(crate::proofs::Base::same_pointwise))]
fn is_same<A: Allocator>(x: Option<&Value<A>>, y: Option<&Value<A>>) -> bool
    ensures { result ≡ same_cell (option_copied x.entry) (option_copied y.entry) }
{
    match (x, y) {
        (Some(x), Some(y)) => x.as_bytes() == y.as_bytes(),
        (None, None) => true,
        _ => false,
    }
}

fn is_below<A: Allocator>(x: Option<&Value<A>>, y: Option<&Value<A>>) -> bool
    ensures { result ≡ below_cell (option_copied x.entry) (option_copied y.entry) }
{
    match (x, y) {
        (Some(x), Some(y)) => x.as_bytes().cmp(y.as_bytes()).is_lt(),
        _ => false,
    }
}

fn test_holds<A: Allocator>(
    test: &Test<Value<A>>,
    args: &[Value<A>],
    registers: &Registers<A>,
) -> bool
    ensures { result ≡ holds test.now args.now registers.now }
{
    match test {
        Test::Absent(x) => value_of(x, args, registers).is_none(),
        Test::Equal(x, y) => is_same(value_of(x, args, registers), value_of(y, args, registers)),
        Test::Below(x, y) => is_below(value_of(x, args, registers), value_of(y, args, registers)),
    }
}

fn access_to_write(key: Option<Key>, has_value: bool) -> Access
    ensures { result ≡ write_access key has_value }
{
    match (key, has_value) {
        (Some(key), true) => Access::Writes(key),
        _ => Access::Nothing,
    }
}

fn both_given<A: Allocator>(key: Option<&[u8]>, value: Option<&Value<A>>) -> bool
    ensures { result ≡ (is_some (option_copied key.entry) && is_some (option_copied value.entry)) }
{
    key.is_some() && value.is_some()
}

/// Which key an instruction touches. It takes no memory.
#[tactic(auto, unfolding(crate::specs::Procedures::need))]
pub(crate) fn access_of<A: Allocator>(
    instruction: &Instr<Value<A>>,
    args: &[Value<A>],
    registers: &Registers<A>,
) -> Access
    ensures { result ≡ accessed (need instruction.now args.now registers.now) }
{
    match instruction {
        Instr::Read(_, key) => match key_of(value_of(key, args, registers)) {
            Some(key) => Access::Reads(key),
            None => Access::Nothing,
        },
        Instr::Put(key, value) | Instr::Insert(key, value) => {
            let key = key_of(value_of(key, args, registers));
            access_to_write(key, value_of(value, args, registers).is_some())
        }
        Instr::Delete(key) => match key_of(value_of(key, args, registers)) {
            Some(key) => Access::Writes(key),
            None => Access::Nothing,
        },
        Instr::Add(..) | Instr::Sub(..) | Instr::AbortIf(..) => Access::Nothing,
    }
}

/// Whether an instruction gives a value to its key where that is absent. It takes no memory.
#[tactic(auto, unfolding(crate::specs::Procedures::need))]
pub(crate) fn gives_value<A: Allocator>(
    instruction: &Instr<Value<A>>,
    args: &[Value<A>],
    registers: &Registers<A>,
) -> bool
    ensures { result ≡ is_some (becomes_of (need instruction.now args.now registers.now) None) }
{
    match instruction {
        Instr::Put(key, value) | Instr::Insert(key, value) => {
            let key = key_bytes(value_of(key, args, registers));
            both_given(key, value_of(value, args, registers))
        }
        Instr::Read(..) | Instr::Delete(_) => false,
        Instr::Add(..) | Instr::Sub(..) | Instr::AbortIf(..) => false,
    }
}

/// What the key of an instruction becomes, where it holds `found`; None where it stays. A value that is
/// written is copied.
#[tactic(auto, unfolding(crate::specs::Procedures::need))]
pub(crate) fn becomes<A: Allocator + Clone>(
    instruction: &Instr<Value<A>>,
    args: &[Value<A>],
    registers: &Registers<A>,
    found: Option<&Value<A>>,
) -> Result<Option<Option<Value<A>>>, NoMemory>
    ensures value { IfOk result (λ b. b ≡ becomes_of (need instruction.now args.now registers.now) (option_copied found.entry)) }
    ensures memory { OnErr result (HasValue (need instruction.now args.now registers.now)) }
{
    let becomes = match instruction {
        Instr::Put(key, value) => {
            let key = key_bytes(value_of(key, args, registers));
            match (key, value_of(value, args, registers)) {
                (Some(_), Some(value)) => Some(Some(value.clone()?)),
                _ => None,
            }
        }
        Instr::Insert(key, value) => {
            let key = key_bytes(value_of(key, args, registers));
            match (key, value_of(value, args, registers), found) {
                (Some(_), Some(value), None) => Some(Some(value.clone()?)),
                _ => None,
            }
        }
        Instr::Delete(key) => match (key_bytes(value_of(key, args, registers)), found) {
            (Some(_), Some(_)) => Some(None),
            _ => None,
        },
        Instr::Read(..) | Instr::Add(..) | Instr::Sub(..) | Instr::AbortIf(..) => None,
    };
    Ok(becomes)
}

/// What an instruction asks for; a value that it writes is copied into the answer.
#[tactic(auto, unfolding(crate::specs::Procedures::need))]
#[inline(always)]
pub(crate) fn need_of<A: Allocator + Clone>(
    instruction: &Instr<Value<A>>,
    args: &[Value<A>],
    registers: &Registers<A>,
) -> Result<Need<Value<A>>, NoMemory>
    ensures value { IfOk result (λ n. n ≡ need instruction.now args.now registers.now) }
    ensures memory { OnErr result (HasValue (need instruction.now args.now registers.now)) }
{
    let need = match instruction {
        Instr::Read(_, key) => match key_of(value_of(key, args, registers)) {
            Some(key) => Need::Read(key),
            None => Need::Own,
        },
        Instr::Put(key, value) => {
            let key = key_of(value_of(key, args, registers));
            match (key, value_of(value, args, registers)) {
                (Some(key), Some(value)) => Need::Write(key, Update::Put(value.clone()?)),
                _ => Need::Own,
            }
        }
        Instr::Insert(key, value) => {
            let key = key_of(value_of(key, args, registers));
            match (key, value_of(value, args, registers)) {
                (Some(key), Some(value)) => Need::Write(key, Update::Insert(value.clone()?)),
                _ => Need::Own,
            }
        }
        Instr::Delete(key) => match key_of(value_of(key, args, registers)) {
            Some(key) => Need::Write(key, Update::Delete),
            None => Need::Own,
        },
        Instr::Add(..) | Instr::Sub(..) | Instr::AbortIf(..) => Need::Own,
    };
    Ok(need)
}

fn copy_of<A: Allocator + Clone>(cell: Option<&Value<A>>) -> Result<Option<Value<A>>, NoMemory>
    ensures { IfOk result (λ c. c ≡ option_copied cell.entry) }
{
    match cell {
        Some(value) => Ok(Some(value.clone()?)),
        None => Ok(None),
    }
}

/// A register takes a number, or the call ends where there is none.
fn number_action<A: Allocator>(register: u8, number: Option<u64>) -> Action<Value<A>>
    ensures { (registers : List Cell) →
        effect_of result registers None ≡ number_set registers register number }
{
    match number {
        Some(number) => Action::Set(register, Some(Value::of_number(number))),
        None => Action::End(OUT_OF_RANGE),
    }
}

#[tactic(auto, using(crate::proofs::Arithmetic::number_set_sum))]
fn add_action<A: Allocator>(register: u8, x: Option<u64>, y: Option<u64>) -> Action<Value<A>>
    ensures { (registers : List Cell) →
        effect_of result registers None ≡ adding registers register x y }
{
    match (x, y) {
        (Some(x), Some(y)) => number_action(register, x.checked_add(y)),
        _ => Action::End(NOT_A_NUMBER),
    }
}

#[tactic(auto, using(crate::proofs::Arithmetic::number_set_difference))]
fn sub_action<A: Allocator>(register: u8, x: Option<u64>, y: Option<u64>) -> Action<Value<A>>
    ensures { (registers : List Cell) →
        effect_of result registers None ≡ subtracting registers register x y }
{
    match (x, y) {
        (Some(x), Some(y)) => number_action(register, x.checked_sub(y)),
        (None, _) | (_, None) => Action::End(NOT_A_NUMBER),
    }
}

#[inline(always)]
fn read_action<A: Allocator + Clone>(
    register: u8,
    key: Option<&[u8]>,
    found: Option<&Value<A>>,
) -> Result<Action<Value<A>>, NoMemory>
    ensures value { IfOk result
        (λ a. (registers : List Cell) → effect_of a registers None ≡ reading registers register (option_copied key.entry) (option_copied found.entry)) }
    ensures memory { OnErr result (IsSome (option_copied key.entry)) }
{
    match key {
        Some(_) => Ok(Action::Load(register, copy_of(found)?, copy_of(found)?)),
        None => Ok(Action::End(BAD_KEY)),
    }
}

/// A write changes nothing of its machine: it ends the call, or goes on.
fn put_action<A: Allocator>(key: Option<&[u8]>, value: Option<&Value<A>>) -> Action<Value<A>>
    ensures { (registers : List Cell) →
        let e = putting registers (option_copied key.entry) (option_copied value.entry) in effect_of result registers e.becomes ≡ e }
{
    match (key, value) {
        (None, _) => Action::End(BAD_KEY),
        (Some(_), None) => Action::End(NO_VALUE),
        (Some(_), Some(_)) => Action::Pass,
    }
}

fn insert_action<A: Allocator>(
    key: Option<&[u8]>,
    value: Option<&Value<A>>,
    found: Option<&Value<A>>,
) -> Action<Value<A>>
    ensures { (registers : List Cell) →
        let e = inserting registers (option_copied key.entry) (option_copied value.entry) (option_copied found.entry) in
        effect_of result registers e.becomes ≡ e }
{
    match (key, value, found) {
        (None, _, _) => Action::End(BAD_KEY),
        (Some(_), None, _) => Action::End(NO_VALUE),
        (Some(_), Some(_), Some(_)) => Action::End(KEY_PRESENT),
        (Some(_), Some(_), None) => Action::Pass,
    }
}

fn delete_action<A: Allocator>(key: Option<&[u8]>, found: Option<&Value<A>>) -> Action<Value<A>>
    ensures { (registers : List Cell) →
        let e = deleting registers (option_copied key.entry) (option_copied found.entry) in
        effect_of result registers e.becomes ≡ e }
{
    match (key, found) {
        (None, _) => Action::End(BAD_KEY),
        (Some(_), None) => Action::End(KEY_ABSENT),
        (Some(_), Some(_)) => Action::Pass,
    }
}

/// What an instruction does to the machine, where its key holds `found`. Only one that reads takes
/// memory.
#[inline(always)]
pub(crate) fn action_of<A: Allocator + Clone>(
    instruction: &Instr<Value<A>>,
    args: &[Value<A>],
    registers: &Registers<A>,
    found: Option<&Value<A>>,
) -> Result<Action<Value<A>>, NoMemory>
    ensures value { IfOk result
        (λ a. let e = effect instruction.now args.now registers.now (option_copied found.entry) in
        effect_of a registers.now e.becomes ≡ e) }
    ensures memory { OnErr result (CopiesValue (need instruction.now args.now registers.now)) }
{
    match instruction {
        Instr::Read(register, key) => {
            read_action(*register, key_bytes(value_of(key, args, registers)), found)
        }
        Instr::Put(key, value) => {
            let key = key_bytes(value_of(key, args, registers));
            Ok(put_action(key, value_of(value, args, registers)))
        }
        Instr::Insert(key, value) => {
            let key = key_bytes(value_of(key, args, registers));
            Ok(insert_action(key, value_of(value, args, registers), found))
        }
        Instr::Delete(key) => Ok(delete_action(key_bytes(value_of(key, args, registers)), found)),
        Instr::Add(register, x, y) => {
            let x = number_of(value_of(x, args, registers));
            Ok(add_action(*register, x, number_of(value_of(y, args, registers))))
        }
        Instr::Sub(register, x, y) => {
            let x = number_of(value_of(x, args, registers));
            Ok(sub_action(*register, x, number_of(value_of(y, args, registers))))
        }
        Instr::AbortIf(test, code) => Ok(if test_holds(test, args, registers) {
            Action::End(*code)
        } else {
            Action::Pass
        }),
    }
}
