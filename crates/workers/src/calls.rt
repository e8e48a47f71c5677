//! How a worker makes the calls of a session, whatever it does to the core for each.

ghost use Rattle.std.specs.Prelude.{◌≡◌, ◌⊎◌, ◌+◌, []};
ghost use Rattle.procedure.specs.declared.limits.TheConstants.{INSTRUCTIONS};
ghost use Rattle.workers.specs.Sessions.{Attempts, Executes, Makes, MakesAll};

use crate::errors::CallRefusal;
use crate::shares::{Given, Response};
use procedure::Call;
use procedure::limits::INSTRUCTIONS;
use std::alloc::Allocator;
use std::thread;
use steps::{Answer, BeginError, FinishError, StepError, Stepped};

/// A session as its worker drives it. What each deed does to it is its own to say.
pub trait Session<A: Allocator> {
    ghost use Rattle.workers.specs.Sessions.{Deed, asks, begins, steps, finishes, gives_up};

    ghost does: { Deed A → Self → Self → Type 0 };

    /// Whether another call may be made.
    fn goes_on(&mut self) -> bool
        ensures { does (asks result) self.old self.new };

    /// Begins the call, with a copy of its arguments.
    fn begin(&mut self, call: &Call<A>) -> Result<(), BeginError>
        ensures { does (begins call.now result) self.old self.new };

    /// Executes one instruction of the open call.
    fn step(&mut self) -> Result<Stepped, StepError>
        ensures { does (steps result) self.old self.new };

    /// Answers the open call.
    fn finish(&mut self) -> Result<Answer<A>, FinishError>
        ensures { does (finishes result) self.old self.new };

    /// Gives up the open call.
    fn give_up(&mut self)
        ensures { does gives_up self.old self.new };
}

/// Executes the instructions of the open call. One that has none is ready.
fn execute<A: Allocator, S: Session<A>>(session: &mut S) -> Result<(), StepError>
    ensures { Executes S.does (INSTRUCTIONS + 1) session.old session.new result }
{
    let mut left = INSTRUCTIONS + 1;
    while left > 0 {
        left -= 1;
        match session.step() {
            Ok(Stepped::Ran) => {}
            Ok(Stepped::Ready) => return Ok(()),
            Err(refusal) => {
                return match refusal {
                    StepError::AlreadyReady => Ok(()),
                    _ => Err(refusal),
                };
            }
        }
    }
    Ok(())
}

/// Makes the call once. None where it met a conflict. Where it isn't answered nothing of it stays open.
fn attempt<A: Allocator, S: Session<A>>(session: &mut S, call: &Call<A>) -> Option<Given<A>>
    ensures { Attempts S.does call.now session.old session.new result }
{
    if let Err(refusal) = session.begin(call) {
        return Some(Given::Refused(CallRefusal::Begin(refusal)));
    }
    if let Err(refusal) = execute(session) {
        session.give_up();
        return match refusal {
            StepError::Conflict => None,
            _ => Some(Given::Refused(CallRefusal::Step(refusal))),
        };
    }
    match session.finish() {
        Ok(answer) => Some(Given::Answered(answer)),
        Err(refusal) => {
            session.give_up();
            Some(Given::Refused(CallRefusal::Finish(refusal)))
        }
    }
}

/// Makes the call until it is answered, or no turn is left.
fn make_call<A: Allocator, S: Session<A>>(
    session: &mut S,
    call: &Call<A>,
    left: &mut u64,
) -> Given<A>
    ensures { Makes S.does call.now left.old left.new session.old session.new result }
{
    while *left > 0 {
        if let Some(given) = attempt(session, call) {
            return given;
        }
        *left -= 1;
        thread::yield_now();
    }
    Given::TurnsOut
}

/// Makes the calls in order, and keeps an answer to each in the list, which is empty. Before each it asks whether the
/// session goes on; where it doesn't, that call and those after it aren't made and have no answer.
///
/// Room for the answers is made before the first call begins; where it is refused no call is begun, and the
/// list stays empty. At a conflict the call is given up and begun again, which is one turn of all that the
/// session has. After the last turn this call and those after it are answered `TurnsOut`. Where the table or
/// the log is full, or memory is wanting, the call is given up, and its refusal is the last answer. Any
/// other refusal is the answer to that call alone.
pub fn make_calls<A: Allocator, S: Session<A>>(
    answers: &mut Vec<Response<A>, A>,
    session: &mut S,
    calls: &[Call<A>],
    turns: u64,
)
    requires { answers.old.items ≡ [] }
    ensures { ((answers.new.items ≡ []) × (session.new ≡ session.old))
        ⊎ MakesAll S.does turns calls.now session.old session.new answers.new.items }
{
    if answers.reserve(calls.len()).is_err() {
        return;
    }
    let mut left = turns;
    for call in calls {
        if !session.goes_on() {
            break;
        }
        let given = make_call(session, call, &mut left);
        let last = given.stops();
        answers.push_reserved(Response {
            number: call.number,
            given,
        });
        if last {
            break;
        }
    }
}
