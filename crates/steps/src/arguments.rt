//! The arguments of a call.

ghost use Rattle.std.specs.Prelude.{◌≡◌, IfOk, IsTrue, length, map};
ghost use Rattle.steps.specs.Refusals.{all_fit};

use procedure::limits::VALUE_BYTES;
use procedure::{NoMemory, Sequence, Value};
use std::alloc::Allocator;
use std::marker::Model;

/// As what arguments are given.
#[derive(Debug, Drop)]
pub(crate) enum Given<A: Allocator> {
    Values(Sequence<Value<A>, A>),
    AnyLength(Vec<Vec<u8, A>, A>),
}

/// The arguments of a call, of any length, seen by contracts as the list of them. A call begins only
/// where each has at most 65,535 bytes.
#[derive(Debug, Drop)]
pub struct Arguments<A: Allocator> {
    given: Given<A>,
}

impl<A: Allocator> Model for Arguments<A> {
    ghost use Rattle.std.specs.Prelude.{List};
    ghost use Rattle.std.specs.Coded.{coded_list, coded_ℕ};
    ghost use Rattle.procedure.specs.Bytes.{Bytes};
    ghost use Rattle.steps.specs.GivenArguments.{arguments_of};

    ghost Value = { List Bytes };

    ghost coded = { coded_list (coded_list coded_ℕ) };

    ghost view = { λ a. arguments_of a.given };
}

/// Whether no value is too long.
fn values_fit<A: Allocator>(args: &[Value<A>]) -> bool
    ensures { result ≡ all_fit args.now }
{
    for value in args {
        if value.as_bytes().len() > VALUE_BYTES {
            return false;
        }
    }
    true
}

/// Whether the bytes are none too long for values.
fn all_fit<A: Allocator>(args: &[Vec<u8, A>]) -> bool
    ensures { result ≡ all_fit (map (λ b. b.items) args.now) }
{
    for bytes in args {
        if bytes.len() > VALUE_BYTES {
            return false;
        }
    }
    true
}

/// The bytes as values, by move.
fn values_of<A: Allocator>(alloc: A, args: Vec<Vec<u8, A>, A>) -> Result<Vec<Value<A>, A>, NoMemory>
    requires { IsTrue (all_fit (map (λ b. b.items) args.items)) }
    ensures { IfOk result (λ values. values.items ≡ map (λ b. b.items) args.items) }
{
    let mut values = Vec::with_capacity(alloc, args.len())?;
    for bytes in args {
        if let Some(value) = Value::new(bytes) {
            values.push_reserved(value);
        }
    }
    Ok(values)
}

impl<A: Allocator> Arguments<A> {
    /// Arguments that are values already. A call takes them by move.
    pub fn of_values(values: Sequence<Value<A>, A>) -> Self
        ensures { result ≡ values }
    {
        Arguments {
            given: Given::Values(values),
        }
    }

    /// Arguments of any length. A call that begins makes values of them.
    pub fn of_bytes(bytes: Vec<Vec<u8, A>, A>) -> Self
        ensures { result ≡ map (λ b. b.items) bytes.items }
    {
        Arguments {
            given: Given::AnyLength(bytes),
        }
    }

    /// How many there are.
    pub(crate) fn count(&self) -> usize
        ensures { result ≡ length self.now }
    {
        match &self.given {
            Given::Values(values) => values.len(),
            Given::AnyLength(bytes) => bytes.len(),
        }
    }

    /// Whether none is too long for a value.
    pub(crate) fn fit(&self) -> bool
        ensures { result ≡ all_fit self.now }
    {
        match &self.given {
            Given::Values(values) => values_fit(values.as_slice()),
            Given::AnyLength(bytes) => all_fit(bytes.as_slice()),
        }
    }

    /// The arguments as values. Those that were given as values take no memory.
    pub(crate) fn into_values(self, alloc: A) -> Result<Sequence<Value<A>, A>, NoMemory>
        requires { IsTrue (all_fit self) }
        ensures { IfOk result (λ values. values ≡ self) }
    {
        match self.given {
            Given::Values(values) => Ok(values),
            Given::AnyLength(bytes) => Ok(Sequence::new(values_of(alloc, bytes)?)),
        }
    }
}
