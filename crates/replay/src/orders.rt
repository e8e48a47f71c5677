//! The order of a log's records: sessions' numbers that rise, and tokens in their cycle.

ghost use Rattle.std.specs.Prelude.{◌≡◌, ◌↔◌, ◌<◌, [], ◌∷◌, ◌++◌, List, IsTrue, Some, slice_set};
ghost use Rattle.procedure.specs.declared.limits.TheConstants.{SESSIONS};
ghost use Rattle.commitlog.specs.Records.{IsInRange, Record, record_of};
ghost use Rattle.commitlog.specs.Histories.{Follows, IsAbove};
ghost use Rattle.replay.specs.Orders.{IsAfter, IsInOrder};

use commitlog::records::Entry;
use phase::Phase;
use std::alloc::Allocator;

/// The last number of each of the 64 sessions, and the last token.
#[derive(Drop)]
pub(crate) struct Order {
    last: [Option<u64>; 64],
    phase: Phase,
    number: u64,
}

fn is_above(last: Option<u64>, number: u64) -> bool
    ensures { IsTrue result ↔ IsAbove last number }
{
    match last {
        Some(last) => last < number,
        None => true,
    }
}

/// Whether a token may follow one of a phase and number; at first these are rest and 0.
fn follows(phase: Phase, number: u64, next: Phase, next_number: u64) -> bool
    ensures { IsTrue result ↔ Follows phase number next next_number }
{
    match phase {
        Phase::Rest => match next {
            Phase::Prepare => next_number > number && next_number - number == 1,
            Phase::Rest | Phase::Resolve | Phase::Capture | Phase::Complete => false,
        },
        Phase::Prepare => match next {
            Phase::Resolve => next_number == number,
            Phase::Rest | Phase::Prepare | Phase::Capture | Phase::Complete => false,
        },
        Phase::Resolve => match next {
            Phase::Capture | Phase::Rest => next_number == number,
            Phase::Prepare | Phase::Resolve | Phase::Complete => false,
        },
        Phase::Capture => match next {
            Phase::Complete | Phase::Rest => next_number == number,
            Phase::Prepare | Phase::Resolve | Phase::Capture => false,
        },
        Phase::Complete => match next {
            Phase::Rest => next_number == number,
            Phase::Prepare | Phase::Resolve | Phase::Capture | Phase::Complete => false,
        },
    }
}

impl Order {
    /// Before the first record.
    pub(crate) fn new() -> Self
        ensures { IsAfter result [] }
    {
        Order {
            last: [None; 64],
            phase: Phase::Rest,
            number: 0,
        }
    }

    /// Whether the record may stand next.
    pub(crate) fn admits<A: Allocator>(&self, entry: &Entry<A>) -> bool
        requires { IsInRange (record_of entry.now) }
        ensures { (l : List Record) → IsAfter self.now l → (IsTrue result ↔ IsInOrder l (record_of entry.now)) }
    {
        match entry {
            Entry::Token { phase, number } => follows(self.phase, self.number, *phase, *number),
            Entry::Call { call, .. } => {
                is_above(self.last[usize::from(call.session)], call.number)
            }
        }
    }

    /// The record stands next.
    pub(crate) fn note<A: Allocator>(&mut self, entry: &Entry<A>)
        requires { IsInRange (record_of entry.now) }
        ensures { (l : List Record) → IsAfter self.old l → IsAfter self.new (l ++ record_of entry.now ∷ []) }
    {
        match entry {
            Entry::Token { phase, number } => {
                self.phase = *phase;
                self.number = *number;
            }
            Entry::Call { call, .. } => self.note_call(call.session, call.number),
        }
    }

    fn note_call(&mut self, session: u16, number: u64)
        requires { session < SESSIONS }
        ensures { self.new ≡ record self.old { last = slice_set self.old.last session (Some number) } }
    {
        self.last[usize::from(session)] = Some(number);
    }
}
