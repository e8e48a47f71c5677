//! A core with the images of its checkpoints.

ghost use Rattle.std.specs.Prelude.{◌≡◌, ◌+◌, ◌++◌, ◌∷◌, ◌≤◌, [], IfOk, IsOk, MatchResult, None, OnErr, OnOk, Some, drop, length, option_copied};
ghost use Rattle.pipe.specs.Rings.{SameTap};
ghost use Rattle.steps.specs.Schedules.{AdvancesAs, BeginsAs, FinishesAs, GivesUpAs, StartsAs, StepsAs, VisitsAs};
ghost use Rattle.workers.specs.Streams.{SendsAs, StreamsAs};
ghost use Rattle.workers.specs.Claims.{is_call};
ghost use Rattle.commitlog.specs.Histories.{phase_of};
ghost use Rattle.workers.specs.Checkpointed.{AreCuts, LogGrows, ImagesStay, KeepsOrigin, TakesInto, call_count, last_image};

use crate::copies::copy_of_image;
use commitlog::laws::{cuts_law, images_law};
use commitlog::{Entry, Record};
use image::{Image, Kind};
use phase::Phase;
use pipe::Tap;
use procedure::NoMemory;
use std::alloc::Allocator;
use std::marker::Model;
use steps::{
    AdvanceError, Answer, Arguments, BeginError, CaptureError, CaptureToError, Captured, Core,
    FinishError, NotActive, StartError, StepError, Stepped,
};

/// A core, and images that were taken of it. Each is the image of its checkpoint in the core's log.
#[derive(Drop)]
pub struct Checkpointed<A: Allocator> {
    core: Core<A>,
    images: Vec<Image<A>, A>,
}

impl<A: Allocator> Model for Checkpointed<A> {
    ghost use Rattle.workers.specs.Checkpointed.{AreCuts, Checkpointed};

    ghost Value = { Checkpointed };

    ghost view = { λ c. record { core = c.core; images = c.images.items } };

    ghost invariant = { λ c. AreCuts c.core c.images.items };
}

/// An image stays that of its checkpoint as the log grows.
pub fn images_stay_law()
    ensures { ImagesStay }
{
    cuts_law();
    images_law();
}

impl<A: Allocator> Checkpointed<A> {
    /// A core, and the images that were taken of it, to whose list those go that are taken from now on.
    pub fn from_parts(core: Core<A>, images: Vec<Image<A>, A>) -> Self
        requires { AreCuts core images.items }
        ensures core { result.core ≡ core }
        ensures images { result.images ≡ images.items }
    {
        Checkpointed { core, images }
    }

    /// The core and the images.
    pub fn into_parts(self) -> (Core<A>, Vec<Image<A>, A>)
        ensures core { result.0 ≡ self.core }
        ensures images { result.1.items ≡ self.images }
        ensures cuts { AreCuts result.0 result.1.items }
    {
        let Checkpointed { core, images } = self;
        (core, images)
    }

    /// How many calls the log has.
    pub fn count_calls(&self) -> usize
        ensures { result ≡ call_count self.now.core.log }
    {
        count_calls(self.core.records())
    }

    /// How many records the log has.
    pub fn count_records(&self) -> usize
        ensures { result ≡ length self.now.core.log }
    {
        self.core.records().len()
    }

    /// The records of the log after so many.
    pub fn records_after(&self, count: usize) -> &[Record<A>]
        requires { count ≤ length self.now.core.log }
        ensures { result.now ≡ drop count self.now.core.log }
    {
        &self.core.records()[count..]
    }

    /// The image that was taken last.
    pub fn last(&self) -> Option<&Image<A>>
        ensures { option_copied result ≡ last_image self.now.images }
    {
        self.images.last()
    }

    pub fn phase(&self) -> Phase
        ensures { result ≡ phase_of self.now.core.log }
    {
        self.core.phase()
    }

    pub fn give_up(&mut self, session: u16) -> Result<(), NotActive>
        ensures core { GivesUpAs self.old.core self.new.core session result }
        ensures images { self.new.images ≡ self.old.images }
        ensures origin { KeepsOrigin self.old.core self.new.core }
        ensures log { self.new.core.log ≡ self.old.core.log }
        ensures calls { call_count self.new.core.log ≡ call_count self.old.core.log }
    {
        self.core.give_up(session)
    }

    pub fn start(&mut self, kind: Kind) -> Result<u64, StartError>
        ensures core { StartsAs self.old.core self.new.core kind result }
        ensures images { self.new.images ≡ self.old.images }
        ensures origin { KeepsOrigin self.old.core self.new.core }
        ensures log { LogGrows self.old.core.log self.new.core.log }
        ensures calls { call_count self.new.core.log ≡ call_count self.old.core.log }
    {
        images_stay_law();
        let _records = self.core.records();
        self.core.start(kind)
    }

    pub fn start_streamed(&mut self, kind: Kind) -> Result<u64, StartError>
        ensures core { StreamsAs self.old.core self.new.core kind result }
        ensures images { self.new.images ≡ self.old.images }
        ensures origin { KeepsOrigin self.old.core self.new.core }
        ensures log { LogGrows self.old.core.log self.new.core.log }
        ensures calls { call_count self.new.core.log ≡ call_count self.old.core.log }
    {
        images_stay_law();
        let _records = self.core.records();
        self.core.start_streamed(kind)
    }

    /// The finished image goes to the end of the list. Whether there was one, and NoMemory where there is no
    /// room for it; then it waits on.
    pub fn take_image(&mut self) -> Result<bool, NoMemory>
        ensures taken { TakesInto self.old self.new result }
        ensures origin { KeepsOrigin self.old.core self.new.core }
        ensures log { self.new.core.log ≡ self.old.core.log }
        ensures calls { call_count self.new.core.log ≡ call_count self.old.core.log }
    {
        self.images.reserve(1)?;
        let Checkpointed { core, images } = self;
        match core.take_image() {
            Some(image) => {
                images.push_reserved(image);
                Ok(true)
            }
            None => Ok(false),
        }
    }
}

impl<A: Allocator + Clone> Checkpointed<A> {
    pub fn begin(
        &mut self,
        session: u16,
        number: u64,
        procedure: u16,
        args: Arguments<A>,
    ) -> Result<(), BeginError>
        ensures core { BeginsAs self.old.core self.new.core session number procedure args result }
        ensures images { self.new.images ≡ self.old.images }
        ensures origin { KeepsOrigin self.old.core self.new.core }
        ensures log { self.new.core.log ≡ self.old.core.log }
        ensures calls { call_count self.new.core.log ≡ call_count self.old.core.log }
    {
        self.core.begin(session, number, procedure, args)
    }

    pub fn step(&mut self, session: u16) -> Result<Stepped, StepError>
        ensures core { StepsAs self.old.core self.new.core session result }
        ensures images { self.new.images ≡ self.old.images }
        ensures origin { KeepsOrigin self.old.core self.new.core }
        ensures log { self.new.core.log ≡ self.old.core.log }
        ensures calls { call_count self.new.core.log ≡ call_count self.old.core.log }
    {
        self.core.step(session)
    }

    pub fn finish(&mut self, session: u16) -> Result<Answer<A>, FinishError>
        ensures core { FinishesAs self.old.core self.new.core session result }
        ensures images { self.new.images ≡ self.old.images }
        ensures origin { KeepsOrigin self.old.core self.new.core }
        ensures log { LogGrows self.old.core.log self.new.core.log }
        ensures calls { MatchResult result (λ _. call_count self.new.core.log ≡ call_count self.old.core.log + 1) (λ _. call_count self.new.core.log ≡ call_count self.old.core.log) }
    {
        images_stay_law();
        let _records = self.core.records();
        self.core.finish(session)
    }

    pub fn advance(&mut self) -> Result<Phase, AdvanceError>
        ensures core { AdvancesAs self.old.core self.new.core result }
        ensures images { self.new.images ≡ self.old.images }
        ensures origin { KeepsOrigin self.old.core self.new.core }
        ensures log { LogGrows self.old.core.log self.new.core.log }
        ensures calls { call_count self.new.core.log ≡ call_count self.old.core.log }
    {
        images_stay_law();
        let _records = self.core.records();
        self.core.advance()
    }

    pub fn capture(&mut self) -> Result<Captured, CaptureError>
        ensures core { VisitsAs self.old.core self.new.core result }
        ensures images { self.new.images ≡ self.old.images }
        ensures origin { KeepsOrigin self.old.core self.new.core }
        ensures log { self.new.core.log ≡ self.old.core.log }
        ensures calls { call_count self.new.core.log ≡ call_count self.old.core.log }
    {
        self.core.capture()
    }

    pub fn capture_to(&mut self, tap: &mut Tap<A>) -> Result<Captured, CaptureToError>
        ensures core { SendsAs self.old.core self.new.core tap.old tap.new result }
        ensures ring { SameTap tap.old tap.new }
        ensures images { self.new.images ≡ self.old.images }
        ensures origin { KeepsOrigin self.old.core self.new.core }
        ensures log { self.new.core.log ≡ self.old.core.log }
        ensures calls { call_count self.new.core.log ≡ call_count self.old.core.log }
    {
        self.core.capture_to(tap)
    }

    /// A copy of the image that was taken last. Where there is none, it takes no memory.
    pub fn copy_of_last(&self) -> Result<Option<Image<A>>, NoMemory>
        ensures image { IfOk result (λ i. i ≡ last_image self.now.images) }
        ensures memory { self.now.images ≡ [] → IsOk result }
    {
        match self.images.last() {
            Some(image) => Ok(Some(copy_of_image(self.images.allocator().clone()?, image)?)),
            None => Ok(None),
        }
    }
}

fn is_call<A: Allocator>(found: &Record<A>) -> bool
    ensures { result ≡ is_call found.now }
{
    match found.entry() {
        Entry::Call { .. } => true,
        Entry::Token { .. } => false,
    }
}

/// How many calls a log has.
pub fn count_calls<A: Allocator>(records: &[Record<A>]) -> usize
    ensures { result ≡ call_count records.now }
{
    records.iter().filter(|found| is_call(found)).count()
}
