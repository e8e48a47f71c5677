//! What the worker of a session was answered.

use crate::errors::CallRefusal;
use std::alloc::Allocator;
use steps::Answer;

/// What a call was answered.
#[derive(Debug, Drop)]
pub enum Given<A: Allocator> {
    /// It stands in the log.
    Answered(Answer<A>),
    Refused(CallRefusal),
    /// It met conflicts until no turn was left.
    TurnsOut,
}

impl<A: Allocator> Given<A> {
    ghost use Rattle.std.specs.Prelude.{◌≡◌};
    ghost use Rattle.workers.specs.Shares.{stops};

    /// Whether the session can't go on after it.
    pub fn stops(&self) -> bool
        ensures { result ≡ stops self.now }
    {
        match self {
            Given::Refused(refusal) => refusal.stops(),
            _ => false,
        }
    }
}

/// The number of a call, and what it was answered.
#[derive(Debug, Drop)]
pub struct Response<A: Allocator> {
    pub number: u64,
    pub given: Given<A>,
}

/// What a session was answered, in the order of its calls, and its part of a count of them.
#[derive(Drop)]
pub struct Share<T, A: Allocator> {
    pub session: u16,
    pub answers: Vec<Response<A>, A>,
    pub tally: T,
}
