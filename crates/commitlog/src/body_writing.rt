//! The body of a record, handed over in pieces.

ghost use Rattle.std.specs.Prelude.{◌≡◌, ◌≤◌, length};
ghost use Rattle.std.specs.List.{flat_map};
ghost use Rattle.procedure.specs.declared.limits.TheConstants.{ARGUMENTS};
ghost use Rattle.commitlog.specs.Records.{Token, call_of};
ghost use Rattle.commitlog.specs.declared.limits.TheConstants.{REPLIES};
ghost use Rattle.commitlog.specs.LogBytes.{answer_bytes, arguments_bytes, body, call_head, phase_code, reply_bytes, value_bytes};

use crate::pieces::{Pieces, take_u16, take_u64};
use crate::records::{Entry, Record};
use phase::Phase;
use procedure::{Call, Value};
use std::alloc::Allocator;

fn phase_code(phase: Phase) -> u8
    ensures { result ≡ phase_code phase }
{
    match phase {
        Phase::Rest => 0,
        Phase::Prepare => 1,
        Phase::Resolve => 2,
        Phase::Capture => 3,
        Phase::Complete => 4,
    }
}

fn write_value<P: Pieces, A: Allocator>(out: &mut P, value: &Value<A>)
    ensures { P.Takes out.old out.new (value_bytes value.now) }
{
    let bytes = value.as_bytes();
    take_u16(out, bytes.len() as u16);
    out.take(bytes);
}

fn write_reply<P: Pieces, A: Allocator>(out: &mut P, reply: &Option<Value<A>>)
    ensures { P.Takes out.old out.new (reply_bytes reply.now) }
{
    match reply {
        None => out.take(&[0]),
        Some(value) => {
            out.take(&[1]);
            write_value(out, value);
        }
    }
}

#[tactic(auto, using(crate::proofs::Takings::all_taken, crate::proofs::Takings::next_taken))]
fn write_values<P: Pieces, A: Allocator>(out: &mut P, values: &[Value<A>])
    ensures { P.Takes out.old out.new (flat_map value_bytes values.now) }
{
    for value in values {
        write_value(out, value);
    }
}

#[tactic(auto, using(crate::proofs::Takings::all_taken, crate::proofs::Takings::next_taken))]
fn write_replies<P: Pieces, A: Allocator>(out: &mut P, replies: &[Option<Value<A>>])
    ensures { P.Takes out.old out.new (flat_map reply_bytes replies.now) }
{
    for reply in replies {
        write_reply(out, reply);
    }
}

fn write_arguments<P: Pieces, A: Allocator>(out: &mut P, args: &[Value<A>])
    requires { length args.now ≤ ARGUMENTS }
    ensures { P.Takes out.old out.new (arguments_bytes args.now) }
{
    out.take(&[args.len() as u8]);
    write_values(out, args);
}

fn write_answer<P: Pieces, A: Allocator>(out: &mut P, outcome: u8, replies: &[Option<Value<A>>])
    requires { length replies.now ≤ REPLIES }
    ensures { P.Takes out.old out.new (answer_bytes outcome replies.now) }
{
    out.take(&[outcome, replies.len() as u8]);
    write_replies(out, replies);
}

fn write_head<P: Pieces, A: Allocator>(out: &mut P, call: &Call<A>)
    ensures { P.Takes out.old out.new (call_head call.now.session call.now.number call.now.procedure) }
{
    take_u16(out, call.session);
    take_u64(out, call.number);
    take_u16(out, call.procedure);
}

fn write_token<P: Pieces>(out: &mut P, phase: Phase, number: u64)
    ensures { P.Takes out.old out.new (body (Token phase number)) }
{
    out.take(&[0, phase_code(phase)]);
    take_u64(out, number);
}

fn write_call<P: Pieces, A: Allocator>(
    out: &mut P,
    call: &Call<A>,
    outcome: u8,
    replies: &[Option<Value<A>>],
)
    requires arguments { length call.now.args ≤ ARGUMENTS }
    requires replies { length replies.now ≤ REPLIES }
    ensures { P.Takes out.old out.new (body (call_of call.now outcome replies.now)) }
{
    out.take(&[1]);
    write_head(out, call);
    write_arguments(out, call.args.as_slice());
    write_answer(out, outcome, replies);
}

/// Hands over the body of a record.
pub(crate) fn write_body<P: Pieces, A: Allocator>(out: &mut P, record: &Record<A>)
    ensures { P.Takes out.old out.new (body «record».now) }
{
    match record.entry() {
        Entry::Token { phase, number } => write_token(out, *phase, *number),
        Entry::Call {
            call,
            outcome,
            replies,
        } => write_call(out, call, *outcome, replies.as_slice()),
    }
}
