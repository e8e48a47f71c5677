//! The worker of a session.

ghost use Rattle.std.specs.Prelude.{◌≡◌, ◌+◌, ◌<◌, []};
ghost use Rattle.workers.specs.Sessions.{gains};
ghost use Rattle.workers.specs.Shares.{answered};

use crate::calls::{Session, make_calls};
use crate::copies::copy_of_args;
use crate::gates::{Gate, Point};
use crate::keepers::{Beginning, Keeper};
use crate::shared::{Shared, Tally};
use crate::shares::{Response, Share};
use procedure::{Call, NoMemory};
use std::alloc::Allocator;
use std::sync::Wait;
use steps::{Answer, Arguments, BeginError, FinishError, StepError, Stepped};

/// A session of a core under its lock, which it takes for each deed alone. Its tally grows by one for each
/// answer with a place. A call's own session isn't read.
#[derive(Drop)]
struct Locking<'a, L: Beginning<K>, A: Allocator, K: Keeper<A> + Drop, R: Wait, G: Gate> {
    rt: &'a R,
    shared: &'a Shared<L, K, A>,
    tally: Tally<L>,
    session: u16,
    gate: &'a G,
    /// Whether the keeper took more at the session's last answer.
    goes_on: bool,
    ghost counts: { 0 < tally.part.parts },
}

impl<'a, L: Beginning<K>, A: Allocator + Clone, K: Keeper<A> + Drop, R: Wait, G: Gate> Session<A>
    for Locking<'a, L, A, K, R, G> {
    ghost does = { λ d s t. (t.tally.part.parts ≡ s.tally.part.parts)
        × (t.tally.part.amount ≡ s.tally.part.amount + gains d) };

    fn goes_on(&mut self) -> bool {
        self.goes_on
    }

    fn begin(&mut self, call: &Call<A>) -> Result<(), BeginError> {
        self.gate.pass(Point::Begin(self.session));
        let args = match copy_of_args(call.args.allocator(), call.args.as_slice()) {
            Ok(args) => Arguments::of_values(args),
            Err(NoMemory) => return Err(BeginError::NoMemory),
        };
        self.shared
            .lock
            .lock(self.rt)
            .begin(self.session, call.number, call.procedure, args)
    }

    fn step(&mut self) -> Result<Stepped, StepError> {
        self.gate.pass(Point::Step(self.session));
        self.shared.lock.lock(self.rt).step(self.session)
    }

    fn finish(&mut self) -> Result<Answer<A>, FinishError> {
        self.gate.pass(Point::Finish(self.session));
        let mut locked = self.shared.lock.lock(self.rt);
        let answer = locked.finish(self.session, &mut self.tally);
        self.goes_on = locked.goes_on();
        answer
    }

    fn give_up(&mut self) {
        let _ = self.shared.lock.lock(self.rt).give_up(self.session);
    }
}

/// Makes the calls of a session in order, as `make_calls` does, and keeps an answer to each in the list, which
/// is empty. The tally grows by one for each answer with a place. A call's own session isn't read. After an answer
/// at which the keeper takes no more, no further call is made.
pub fn run_session<L: Beginning<K>, A: Allocator + Clone, K: Keeper<A> + Drop, R: Wait, G: Gate>(
    rt: &R,
    answers: Vec<Response<A>, A>,
    shared: &Shared<L, K, A>,
    tally: Tally<L>,
    session: u16,
    calls: &[Call<A>],
    turns: u64,
    gate: &G,
) -> Share<Tally<L>, A>
    requires part { 0 < tally.part.parts }
    requires empty { answers.items ≡ [] }
    ensures session { result.session ≡ session }
    ensures parts { result.tally.part.parts ≡ tally.part.parts }
    ensures amount { result.tally.part.amount ≡ tally.part.amount + answered result.answers.items }
{
    let mut answers = answers;
    let mut locking = Locking {
        rt,
        shared,
        tally,
        session,
        gate,
        goes_on: true,
    };
    make_calls(&mut answers, &mut locking, calls, turns);
    let Locking { tally, .. } = locking;
    Share {
        session,
        answers,
        tally,
    }
}
