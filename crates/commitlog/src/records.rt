//! The records of a commit log.

ghost use Rattle.std.specs.Prelude.{◌≡◌, ◌↔◌, IfSome, IsSome, IsTrue};
ghost use Rattle.commitlog.specs.Records.{AreInRange, Call, Token, call_of, record_of, IsInRange};

use crate::limits::REPLIES;
use phase::Phase;
use procedure::limits::{ARGUMENTS, PROCEDURES, SESSIONS};
use procedure::outcomes::{FIRST_ABORT, NO_VALUE};
use procedure::{Call, Sequence, Value};
use std::alloc::Allocator;
use std::marker::Model;

/// What a record says.
#[derive(Debug, Drop)]
pub enum Entry<A: Allocator> {
    /// The checkpoint with this number enters the phase.
    Token {
        phase: Phase,
        number: u64,
    },
    /// A call, and what it was answered.
    Call {
        outcome: u8,
        call: Call<A>,
        replies: Sequence<Option<Value<A>>, A>,
    },
}

/// A record within the ranges of the log: of a call, a session and a procedure of 0 to 63, at most 8
/// arguments, an outcome of 0 to 6 or from 16 on, and at most 64 replies. Arguments and replies have
/// at most 65,535 bytes by their type.
#[derive(Debug, Drop)]
pub struct Record<A: Allocator> {
    entry: Entry<A>,
}

impl<A: Allocator> Model for Record<A> {
    ghost use Rattle.commitlog.specs.Records.{IsInRange, Record, record_of};

    ghost Value = { Record };

    ghost view = { λ r. record_of r.entry };

    ghost invariant = { λ r. IsInRange (record_of r.entry) };
}

/// Whether the numbers of a call are within the ranges of the log: its session, its procedure, how many
/// arguments it has, its outcome, and how many replies.
#[inline(always)]
pub(crate) fn are_in_range(
    session: u16,
    procedure: u16,
    arguments: usize,
    outcome: u8,
    replies: usize,
) -> bool
    ensures { IsTrue result ↔ AreInRange session procedure arguments outcome replies }
{
    session < SESSIONS
        && usize::from(procedure) < PROCEDURES
        && arguments <= usize::from(ARGUMENTS)
        && (outcome <= NO_VALUE || outcome >= FIRST_ABORT)
        && replies <= REPLIES
}

impl<A: Allocator> Record<A> {
    /// The checkpoint with this number enters the phase.
    pub fn token(phase: Phase, number: u64) -> Self
        ensures { result ≡ Token phase number }
    {
        Record {
            entry: Entry::Token { phase, number },
        }
    }

    /// A call, and what it was answered; None where that is out of the ranges.
    #[inline(always)]
    pub fn call(call: Call<A>, outcome: u8, replies: Sequence<Option<Value<A>>, A>) -> Option<Self>
        ensures value { IfSome result (λ r. r ≡ call_of call outcome replies) }
        ensures ranges { IsSome result ↔ IsInRange (call_of call outcome replies) }
    {
        if are_in_range(
            call.session,
            call.procedure,
            call.args.len(),
            outcome,
            replies.len(),
        ) {
            Some(Record {
                entry: Entry::Call {
                    call,
                    outcome,
                    replies,
                },
            })
        } else {
            None
        }
    }

    pub fn entry(&self) -> &Entry<A>
        ensures value { record_of result.now ≡ self.now }
        ensures ranges { IsInRange self.now }
    {
        &self.entry
    }

    pub fn into_entry(self) -> Entry<A>
        ensures value { record_of result ≡ self }
        ensures ranges { IsInRange self }
    {
        let Record { entry } = self;
        entry
    }
}
