//! Decimals and values.

ghost use Rattle.std.specs.Prelude.{◌≡◌, ◌≤◌, ◌+◌, ◌*◌, IfOk, IfSome};
ghost use Rattle.calcdb.specs.Reads.{ReadsAs, ReadsExactly};
ghost use Rattle.calcdb.specs.Values as spec;

use crate::faults::misreads::{Misread, Quote};
use crate::faults::unread::Unread;
use byteorder::{BigEndian, ByteOrder};
use procedure::limits::VALUE_BYTES;
use procedure::{Key, Value};
use std::alloc::Allocator;

fn digit_of(byte: u8) -> Option<u64>
    ensures { result ≡ spec.digit_of byte }
{
    match byte {
        b'0'..=b'9' => Some(u64::from(byte - b'0')),
        _ => None,
    }
}

/// A number with one digit more, unless it is too great.
fn appended(most: u64, number: u64, digit: u64) -> Option<u64>
    ensures { result ≡ spec.at_most most (number * 10 + digit) }
{
    match number.checked_mul(10) {
        Some(tenfold) => match tenfold.checked_add(digit) {
            Some(next) if next <= most => Some(next),
            _ => None,
        },
        None => None,
    }
}

/// The number of these digits, unless it is too great.
#[inline(always)]
fn number_of_digits(most: u64, digits: &[u8]) -> Option<u64>
    ensures value { result ≡ spec.number_of_digits most digits.now }
    ensures fits { IfSome result (λ n. n ≤ most) }
{
    let mut number = 0u64;
    for byte in digits {
        let Some(digit) = digit_of(*byte) else {
            return None;
        };
        let Some(next) = appended(most, number, digit) else {
            return None;
        };
        number = next;
    }
    Some(number)
}

/// A decimal of one or more digits, at most so great.
#[tactic(auto, unfolding(crate::specs::Values::decimal_of))]
#[inline(always)]
pub(crate) fn decimal_of(most: u64, word: &[u8]) -> Result<u64, Misread>
    ensures value { ReadsExactly (λ n. n) result (spec.decimal_of most word.now) }
    ensures fits { IfOk result (λ n. n ≤ most) }
{
    let number = if word.is_empty() {
        None
    } else {
        number_of_digits(most, word)
    };
    match number {
        Some(number) => Ok(number),
        None => Err(Misread::NoNumber(Quote::of(word), most)),
    }
}

/// The bytes of a number's digits.
#[tactic(auto, unfolding(crate::specs::Values::number_value_of))]
#[inline(always)]
fn number_of(digits: &[u8]) -> Result<[u8; 8], Misread>
    ensures { ReadsExactly (λ b. b) result (spec.number_value_of digits.now) }
{
    if digits.len() > 20 {
        return Err(Misread::NoNumber(Quote::of(digits), u64::MAX));
    }
    let number = decimal_of(u64::MAX, digits)?;
    let mut bytes = [0u8; 8];
    BigEndian::write_u64(&mut bytes, number);
    Ok(bytes)
}

/// The value of hexadecimal digits.
fn hex_of<A: Allocator>(alloc: A, digits: &[u8]) -> Result<Vec<u8, A>, Unread>
    ensures { ReadsAs (λ v. v.items) result (spec.hex_of digits.now) }
{
    match hex::decode(alloc, digits) {
        Ok(bytes) => Ok(bytes),
        Err(hex::FromHexError::OutOfMemory) => Err(Unread::NoMemory),
        Err(_) => Err(Unread::Faulty(Misread::NoHex(Quote::of(digits)))),
    }
}

/// The value that a word is.
#[tactic(auto, unfolding(crate::specs::Values::value_of))]
pub(crate) fn value_of<A: Allocator>(alloc: A, word: &[u8]) -> Result<Vec<u8, A>, Unread>
    ensures { ReadsAs (λ v. v.items) result (spec.value_of word.now) }
{
    match word {
        [b'#', digits @ ..] => Ok(Vec::from_array(alloc, number_of(digits)?)?),
        [b'\'', text @ ..] => Ok(Vec::from_slice(alloc, text)?),
        [b'x', digits @ ..] => hex_of(alloc, digits),
        _ => Err(Unread::Faulty(Misread::NoValue(Quote::of(word)))),
    }
}

/// The key that a word is.
#[tactic(auto, unfolding(crate::specs::Values::value_of))]
#[inline(always)]
pub(crate) fn key_of<A: Allocator>(alloc: A, word: &[u8]) -> Result<Key, Unread>
    ensures { ReadsAs (λ k. k) result (spec.key_of word.now) }
{
    let key = match word {
        [b'#', digits @ ..] => Key::new(&number_of(digits)?),
        [b'\'', text @ ..] => Key::new(text),
        _ => Key::new(value_of(alloc, word)?.as_slice()),
    };
    match key {
        Some(key) => Ok(key),
        None => Err(Unread::Faulty(Misread::NoKey(Quote::of(word)))),
    }
}

/// What a key may hold, as a word. A short one takes no memory.
#[tactic(auto, unfolding(crate::specs::Values::value_of))]
#[inline(always)]
pub(crate) fn held_of<A: Allocator>(alloc: A, word: &[u8]) -> Result<Value<A>, Unread>
    ensures { ReadsAs (λ v. v) result (spec.held_value_of word.now) }
{
    let value = match word {
        [b'#', digits @ ..] => Value::from_slice(alloc, &number_of(digits)?)?,
        [b'\'', text @ ..] => Value::from_slice(alloc, text)?,
        _ => Value::new(value_of(alloc, word)?),
    };
    match value {
        Some(value) => Ok(value),
        None => Err(Unread::Faulty(Misread::LongValue(Quote::of(word), VALUE_BYTES))),
    }
}
