//! Values, held inline where they are short.

ghost use Rattle.std.specs.Prelude.{◌≡◌, ◌≤◌, ◌↔◌, [], length, IfOk, IfSome, IsOk, IsSome, IsTrue, Some};
ghost use Rattle.byteorder.specs.Endian.{big_bytes};
ghost use Rattle.procedure.specs.Procedures.{as_number};

use crate::limits::VALUE_BYTES;
use byteorder::{BigEndian, ByteOrder};
use std::alloc::{AllocError, Allocator};
use std::marker::Model;

/// Bytes that a value holds in itself. With its length and its tag it so takes 32 bytes, no more
/// than a `Vec` and a tag want beside an allocator without a size.
pub const INLINE_BYTES: usize = 30;

/// Where the bytes are: so many of the places, or memory of the value's own.
#[derive(Debug, Drop)]
pub(crate) enum Held<A: Allocator> {
    Inline(u8, [u8; INLINE_BYTES]),
    Heap(Vec<u8, A>),
}

/// A value of 0 to 65,535 bytes, seen by contracts as the list of them. One of at most 30 bytes has
/// no memory of its own: it is made and copied without taking any.
#[derive(Debug, Drop)]
pub struct Value<A: Allocator> {
    held: Held<A>,
}

impl<A: Allocator> Model for Value<A> {
    ghost use Rattle.std.specs.Coded.{coded_list, coded_ℕ};
    ghost use Rattle.procedure.specs.Bytes.{Bytes};
    ghost use Rattle.procedure.specs.Values.{held_bytes, IsHeld};

    ghost Value = { Bytes };

    ghost coded = { coded_list coded_ℕ };

    ghost view = { λ v. held_bytes v.held };

    ghost invariant = { λ v. IsHeld v.held };
}

/// These bytes, held inline.
fn inline<A: Allocator>(bytes: &[u8]) -> Value<A>
    requires { length bytes.now ≤ INLINE_BYTES }
    ensures { result ≡ bytes.now }
{
    let mut places = [0u8; INLINE_BYTES];
    places[..bytes.len()].copy_from_slice(bytes);
    Value {
        held: Held::Inline(bytes.len() as u8, places),
    }
}

impl<A: Allocator> Value<A> {
    /// The value of these bytes, which takes no memory: a longer one keeps the `Vec`. None where they
    /// are more than 65,535.
    pub fn new(bytes: Vec<u8, A>) -> Option<Self>
        ensures value { IfSome result (λ v. v ≡ bytes.items) }
        ensures fits { IsSome result ↔ (length bytes.items ≤ VALUE_BYTES) }
    {
        let length = bytes.len();
        if length > VALUE_BYTES {
            return None;
        }
        if length <= INLINE_BYTES {
            return Some(inline(&bytes));
        }
        Some(Value {
            held: Held::Heap(bytes),
        })
    }

    /// The value of these bytes; None where they are more than 65,535. At most 30 take no memory.
    pub fn from_slice(alloc: A, bytes: &[u8]) -> Result<Option<Self>, AllocError>
        ensures value { IfOk result (λ made. IfSome made (λ v. v ≡ bytes.now)) }
        ensures fits { IfOk result (λ made. IsSome made ↔ (length bytes.now ≤ VALUE_BYTES)) }
        ensures inline { length bytes.now ≤ INLINE_BYTES → IsOk result }
    {
        if bytes.len() <= INLINE_BYTES {
            return Ok(Some(inline(bytes)));
        }
        if bytes.len() > VALUE_BYTES {
            return Ok(None);
        }
        Ok(Value::new(Vec::from_slice(alloc, bytes)?))
    }

    /// The empty value, which takes no memory.
    pub fn empty() -> Self
        ensures { result ≡ [] }
    {
        inline(&[])
    }

    /// The 8 bytes of a number, the highest first, which take no memory.
    pub fn of_number(number: u64) -> Self
        ensures { result ≡ big_bytes 8 number }
    {
        let mut bytes = [0u8; 8];
        BigEndian::write_u64(&mut bytes, number);
        inline(&bytes)
    }

    /// The number that these bytes are; None where they aren't 8.
    pub fn as_number(&self) -> Option<u64>
        ensures { result ≡ as_number (Some self.now) }
    {
        let bytes = self.as_bytes();
        if bytes.len() != 8 {
            return None;
        }
        Some(BigEndian::read_u64(bytes))
    }

    pub fn as_bytes(&self) -> &[u8]
        ensures value { result.now ≡ self.now }
        ensures fits { length self.now ≤ VALUE_BYTES }
    {
        match &self.held {
            Held::Inline(length, places) => &places[..usize::from(*length)],
            Held::Heap(bytes) => bytes.as_slice(),
        }
    }
}

fn is_same_reply<A: Allocator>(x: &Option<Value<A>>, y: &Option<Value<A>>) -> bool
    ensures { IsTrue result ↔ (x.now ≡ y.now) }
{
    match (x, y) {
        (Some(x), Some(y)) => x.as_bytes() == y.as_bytes(),
        (None, None) => true,
        _ => false,
    }
}

/// Whether two lists of replies are the same.
pub fn are_same_replies<A: Allocator>(x: &[Option<Value<A>>], y: &[Option<Value<A>>]) -> bool
    ensures { IsTrue result ↔ (x.now ≡ y.now) }
{
    if x.len() != y.len() {
        return false;
    }
    for (i, reply) in x.iter().enumerate() {
        if !is_same_reply(reply, &y[i]) {
            return false;
        }
    }
    true
}

impl<A: Allocator + Clone> Clone for Value<A> {
    ghost use Rattle.std.specs.Prelude.{◌≡◌, ◌≤◌, length};
    ghost use Rattle.procedure.specs.declared.values.TheConstants.{INLINE_BYTES};

    ghost is_clone = { λ v w. w ≡ v };

    ghost is_infallible = { λ v. length v ≤ INLINE_BYTES };

    fn clone(&self) -> Result<Self, AllocError> {
        let held = match &self.held {
            Held::Inline(length, places) => Held::Inline(*length, *places),
            Held::Heap(bytes) => Held::Heap(bytes.clone()?),
        };
        Ok(Value { held })
    }
}
