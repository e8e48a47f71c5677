//! What is printed of a run in threads.

ghost use Rattle.std.specs.Prelude.{◌≡◌, ◌++◌, OnOk};
ghost use Rattle.replay.specs.Refusals.{audit_error_text};
ghost use Rattle.calcdb.specs.ThreadRuns as spec;

use crate::looking::Found;
use crate::output::{push_cell, push_decimal, push_numbered, push_text, push_value};
use procedure::{NoMemory, Value};
use replay::AuditError;
use std::alloc::Allocator;

/// The line of the calls: how many there are, how many were answered with a place, and how many weren't.
pub(crate) fn push_calls<A: Allocator>(
    out: &mut Vec<u8, A>,
    count: u64,
    answered: u64,
) -> Result<(), NoMemory>
    ensures { OnOk result (out.new.items ≡ out.old.items ++ spec.calls_text count answered) }
{
    push_text(out, b"calls ")?;
    push_decimal(out, count)?;
    push_text(out, b" answered ")?;
    push_decimal(out, answered)?;
    push_numbered(out, b" stopped ", count.saturating_sub(answered))
}

/// The name of an audit's refusal, after what is there.
fn push_audit_error<A: Allocator + Clone>(
    out: &mut Vec<u8, A>,
    refused: AuditError,
) -> Result<(), NoMemory>
    ensures { OnOk result (out.new.items ≡ out.old.items ++ audit_error_text refused) }
{
    let alloc = out.allocator().clone()?;
    let name = refused.to_string(alloc)?;
    push_text(out, name.as_str().as_bytes())
}

/// The line of an audit.
pub(crate) fn push_audit<A: Allocator + Clone>(
    out: &mut Vec<u8, A>,
    audited: Result<(), AuditError>,
) -> Result<(), NoMemory>
    ensures { OnOk result (out.new.items ≡ out.old.items ++ spec.audit_text audited) }
{
    match audited {
        Ok(()) => push_text(out, b"audit ok\n"),
        Err(refused) => {
            push_text(out, b"audit refused ")?;
            push_audit_error(out, refused)?;
            push_text(out, b"\n")
        }
    }
}

/// What was found of a key.
fn push_found<A: Allocator + Clone, B: Allocator>(
    out: &mut Vec<u8, A>,
    found: &Found<Value<B>>,
) -> Result<(), NoMemory>
    ensures { OnOk result (out.new.items ≡ out.old.items ++ spec.found_text found.now) }
{
    match found {
        Found::Held(number, value) => {
            push_decimal(out, *number)?;
            push_text(out, b" ")?;
            push_cell(out, value)
        }
        Found::NotEntered => push_text(out, b"not entered"),
        Found::NoMemory => push_text(out, b"no memory"),
    }
}

/// The line of a key that was looked up.
pub(crate) fn push_view<A: Allocator + Clone, B: Allocator>(
    out: &mut Vec<u8, A>,
    key: &[u8],
    found: &Found<Value<B>>,
) -> Result<(), NoMemory>
    ensures { OnOk result (out.new.items ≡ out.old.items ++ spec.view_text key.now found.now) }
{
    push_text(out, b"view ")?;
    push_value(out, key)?;
    push_text(out, b" ")?;
    push_found(out, found)?;
    push_text(out, b"\n")
}

/// The lines of a run: its calls, its images and its audit.
pub(crate) fn push_run<A: Allocator + Clone>(
    out: &mut Vec<u8, A>,
    count: u64,
    answered: u64,
    images: u64,
    audited: Result<(), AuditError>,
) -> Result<(), NoMemory>
    ensures { OnOk result (out.new.items ≡ out.old.items ++ spec.run_text count answered images audited) }
{
    push_calls(out, count, answered)?;
    push_numbered(out, b"images ", images)?;
    push_audit(out, audited)
}
