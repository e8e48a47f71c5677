//! The events of a schedule, and how they are answered.

ghost use Rattle.std.specs.Prelude.{◌≡◌};
ghost use Rattle.steps.specs.Schedules.{Handles, without_image};

use crate::arguments::Arguments;
use crate::captures::Captured;
use crate::cores::Core;
use crate::errors::{
    AbandonError, AdvanceError, BeginError, CaptureError, FinishError, NotActive, StartError,
    StepError,
};
use crate::finish::Answer;
use crate::step::Stepped;
use image::{Image, Kind};
use phase::Phase;
use procedure::Key;
use std::alloc::Allocator;

/// One call of a core, with what it is given.
#[derive(Debug, Drop)]
pub enum Event<A: Allocator> {
    /// A session, a number, a procedure by its index, and arguments.
    Begin(u16, u64, u16, Arguments<A>),
    /// A session executes the next instruction of its call.
    Step(u16),
    /// A session's call is answered.
    Finish(u16),
    /// A session gives up its call.
    GiveUp(u16),
    /// A checkpoint of this kind begins.
    Start(Kind),
    /// The checkpoint enters its next phase.
    Advance,
    /// The scan of the checkpoint visits one place.
    Capture,
    /// The finished image is taken.
    TakeImage,
    /// A dead record goes.
    Reclaim,
    /// The checkpoint is given up.
    Abandon,
}

/// How an event was answered.
#[derive(Debug, Drop)]
pub enum Reply<A: Allocator> {
    Begin(Result<(), BeginError>),
    Step(Result<Stepped, StepError>),
    Finish(Result<Answer<A>, FinishError>),
    GiveUp(Result<(), NotActive>),
    /// The number of the checkpoint.
    Start(Result<u64, StartError>),
    /// The phase that was entered.
    Advance(Result<Phase, AdvanceError>),
    Capture(Result<Captured, CaptureError>),
    /// Whether an image waited, and was taken.
    TakeImage(bool),
    /// The key whose record went, if one did.
    Reclaim(Option<Key>),
    /// The number of the checkpoint.
    Abandon(Result<u64, AbandonError>),
}

/// What came of an event: its reply, and the image that it took.
#[derive(Debug, Drop)]
pub struct Handled<A: Allocator> {
    pub reply: Reply<A>,
    /// None but where the reply is that an image was taken.
    pub image: Option<Image<A>>,
}

/// What came of an event that takes no image.
fn without_image<A: Allocator>(reply: Reply<A>) -> Handled<A>
    ensures { result ≡ without_image reply }
{
    Handled { reply, image: None }
}

impl<A: Allocator + Clone> Core<A> {
    /// Carries out an event.
    pub fn handle(&mut self, event: Event<A>) -> Handled<A>
        ensures { Handles event self.old self.new result }
    {
        match event {
            Event::Begin(session, number, procedure, args) => {
                without_image(Reply::Begin(self.begin(session, number, procedure, args)))
            }
            Event::Step(session) => without_image(Reply::Step(self.step(session))),
            Event::Finish(session) => without_image(Reply::Finish(self.finish(session))),
            Event::GiveUp(session) => without_image(Reply::GiveUp(self.give_up(session))),
            Event::Start(kind) => without_image(Reply::Start(self.start(kind))),
            Event::Advance => without_image(Reply::Advance(self.advance())),
            Event::Capture => without_image(Reply::Capture(self.capture())),
            Event::TakeImage => {
                let image = self.take_image();
                Handled {
                    reply: Reply::TakeImage(image.is_some()),
                    image,
                }
            }
            Event::Reclaim => without_image(Reply::Reclaim(self.reclaim())),
            Event::Abandon => without_image(Reply::Abandon(self.abandon())),
        }
    }
}
