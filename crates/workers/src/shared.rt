//! A core under a lock, with the count of its calls.

ghost use Rattle.std.specs.Prelude.{◌≡◌, ◌+◌, ◌<◌, ◌≤◌, ◌++◌, ◌∷◌, [], IfOk, IfSome, IsOk, List, MatchResult, Some, drop, length};
ghost use Rattle.commitlog.specs.Records.{Record};
ghost use Rattle.image.specs.Images.{Image as SpecImage};
ghost use Rattle.commitlog.specs.Histories.{phase_of};
ghost use Rattle.pipe.specs.Rings.{SameTap};
ghost use Rattle.steps.specs.Schedules.{AdvancesAs, BeginsAs, FinishesAs, GivesUpAs, StartsAs, StepsAs, VisitsAs};
ghost use Rattle.workers.specs.Checkpointed.{AreCuts, IsFrom, TakesInto, call_count, last_image};
ghost use Rattle.workers.specs.Streams.{SendsAs, StreamsAs};

use crate::checkpointed::Checkpointed;
use crate::keepers::{Beginning, Keeper};
use image::{Image, Kind};
use phase::Phase;
use pipe::Tap;
use procedure::NoMemory;
use std::alloc::Allocator;
use std::marker::Brand;
use std::sync::Mutex;
use std::sync::ledger::{Blank, Book, Ledger, Share as Part};
use steps::{
    AdvanceError, Answer, Arguments, BeginError, CaptureError, CaptureToError, Captured, Core,
    FinishError, NotActive, StartError, StepError, Stepped,
};

/// Names what a shared core was opened with, its procedures and its opening, and the ledger of its calls. No
/// value of it is made. The function that shares the core picks the names, as `Brand` where its own caller gives
/// none.
pub trait Origin: Ledger {
    ghost use Rattle.std.specs.Prelude.{List};
    ghost use Rattle.image.specs.Images.{Image};
    ghost use Rattle.procedure.specs.Procedures.{Procedure};

    ghost catalog: { List Procedure };

    ghost opening: { Image };
}

impl Origin for Brand {
    ghost use Rattle.std.specs.Prelude.{[]};
    ghost use Rattle.image.specs.declared.images.Kind.TheVariants.{Full};

    ghost catalog = { [] };

    ghost opening = { record { kind = Full; number = 0; base = 0; place = 0; entries = [] } };
}

/// A part of the count of a log's calls. What it grows by is how many answers with a place its holder was
/// given.
#[derive(Drop)]
pub struct Tally<L: Ledger> {
    pub part: Part<L>,
}

/// Tells a keeper of the records of a log after so many.
fn tell_records<A: Allocator, K: Keeper<A>>(keeper: &mut K, held: &Checkpointed<A>, before: usize)
    requires { before ≤ length held.now.core.log }
    ensures { (begun : K) (log : List Record) (images : List SpecImage) → K.Has begun keeper.old log images →
        K.Has begun keeper.new (log ++ drop before held.now.core.log) images }
{
    keeper.keep_records(held.records_after(before));
}

/// Tells a keeper of the image that was taken last.
fn tell_image<A: Allocator, K: Keeper<A>>(keeper: &mut K, held: &Checkpointed<A>)
    ensures { (last : SpecImage) → last_image held.now.images ≡ Some last →
        (begun : K) (log : List Record) (images : List SpecImage) → K.Has begun keeper.old log images →
        K.Has begun keeper.new log (images ++ last ∷ []) }
{
    if let Some(image) = held.last() {
        keeper.keep_image(image);
    }
}

/// What lies under the lock: a core with its images, of the procedures and the opening that it was shared with,
/// the book of a ledger whose total is the number of the log's calls, and a keeper that was told of the log and the
/// images. Each method is one call of the core.
#[derive(Drop)]
pub struct Locked<L: Beginning<K>, K: Keeper<A> + Drop, A: Allocator> {
    held: Checkpointed<A>,
    calls: Book<L>,
    keeper: K,
    ghost counted: { call_count held.core.log ≡ calls.total },
    ghost origin: { IsFrom L.catalog L.opening held.core },
    ghost kept: { ∥ IfSome L.begun (λ b. K.Has b keeper held.core.log held.images) ∥₁ },
}

impl<L: Beginning<K>, K: Keeper<A> + Drop, A: Allocator + Clone> Locked<L, K, A> {
    pub fn begin(
        &mut self,
        session: u16,
        number: u64,
        procedure: u16,
        args: Arguments<A>,
    ) -> Result<(), BeginError>
        ensures { BeginsAs self.old.held.core self.new.held.core session number procedure args result }
    {
        self.held.begin(session, number, procedure, args)
    }

    pub fn step(&mut self, session: u16) -> Result<Stepped, StepError>
        ensures { StepsAs self.old.held.core self.new.held.core session result }
    {
        self.held.step(session)
    }

    /// A call that is answered counts in the tally, and the keeper takes its record.
    pub fn finish(&mut self, session: u16, tally: &mut Tally<L>) -> Result<Answer<A>, FinishError>
        requires { 0 < tally.old.part.parts }
        ensures core { FinishesAs self.old.held.core self.new.held.core session result }
        ensures parts { tally.new.part.parts ≡ tally.old.part.parts }
        ensures amount { MatchResult result (λ _. tally.new.part.amount ≡ tally.old.part.amount + 1) (λ _. tally.new.part.amount ≡ tally.old.part.amount) }
    {
        let Locked {
            held,
            calls,
            keeper,
        } = self;
        let before = held.count_records();
        let answer = held.finish(session)?;
        tell_records(keeper, held, before);
        calls.add(&mut tally.part, 1);
        Ok(answer)
    }

    pub fn give_up(&mut self, session: u16) -> Result<(), NotActive>
        ensures { GivesUpAs self.old.held.core self.new.held.core session result }
    {
        self.held.give_up(session)
    }

    pub fn phase(&self) -> Phase
        ensures { result ≡ phase_of self.now.held.core.log }
    {
        self.held.phase()
    }

    pub fn start(&mut self, kind: Kind) -> Result<u64, StartError>
        ensures { StartsAs self.old.held.core self.new.held.core kind result }
    {
        let Locked { held, keeper, .. } = self;
        let before = held.count_records();
        let number = held.start(kind)?;
        tell_records(keeper, held, before);
        Ok(number)
    }

    pub fn start_streamed(&mut self, kind: Kind) -> Result<u64, StartError>
        ensures { StreamsAs self.old.held.core self.new.held.core kind result }
    {
        let Locked { held, keeper, .. } = self;
        let before = held.count_records();
        let number = held.start_streamed(kind)?;
        tell_records(keeper, held, before);
        Ok(number)
    }

    pub fn advance(&mut self) -> Result<Phase, AdvanceError>
        ensures { AdvancesAs self.old.held.core self.new.held.core result }
    {
        let Locked { held, keeper, .. } = self;
        let before = held.count_records();
        let phase = held.advance()?;
        tell_records(keeper, held, before);
        Ok(phase)
    }

    pub fn capture(&mut self) -> Result<Captured, CaptureError>
        ensures { VisitsAs self.old.held.core self.new.held.core result }
    {
        self.held.capture()
    }

    pub fn capture_to(&mut self, tap: &mut Tap<A>) -> Result<Captured, CaptureToError>
        ensures core { SendsAs self.old.held.core self.new.held.core tap.old tap.new result }
        ensures ring { SameTap tap.old tap.new }
    {
        self.held.capture_to(tap)
    }

    /// The finished image goes to the end of the list, the keeper takes it too, and whether there was one is
    /// answered. Where there is no room for it (`NoMemory`) it waits on.
    pub fn take_image(&mut self) -> Result<bool, NoMemory>
        ensures { TakesInto self.old.held self.new.held result }
    {
        let Locked { held, keeper, .. } = self;
        let was_waiting = held.take_image()?;
        if was_waiting {
            tell_image(keeper, held);
        }
        Ok(was_waiting)
    }

    /// Whether the keeper takes more.
    pub fn goes_on(&self) -> bool
        ensures { result ≡ K.is_going self.now.keeper }
    {
        self.keeper.goes_on()
    }

    /// A copy of the image that was taken last, if one was. Where none was, it takes no memory.
    pub fn copy_of_last(&self) -> Result<Option<Image<A>>, NoMemory>
        ensures image { IfOk result (λ i. i ≡ last_image self.now.held.images) }
        ensures memory { self.now.held.images ≡ [] → IsOk result }
    {
        self.held.copy_of_last()
    }
}

/// A core under its lock.
#[derive(Drop)]
pub struct Shared<L: Beginning<K>, K: Keeper<A> + Drop, A: Allocator> {
    pub(crate) lock: Mutex<Locked<L, K, A>>,
}

impl<L: Beginning<K>, K: Keeper<A> + Drop, A: Allocator> Shared<L, K, A> {
    /// A core under a lock, and the whole tally, whose amount is the number of calls that the log has. The
    /// images go into the list, which is empty. The keeper has what the log has.
    pub fn new(core: Core<A>, images: Vec<Image<A>, A>, blank: Blank, keeper: K) -> (Self, Tally<L>)
        requires name { blank.name ≡ L.name }
        requires parts { (blank.parts ≡ L.parts) × (0 < L.parts) }
        requires origin { IsFrom L.catalog L.opening core }
        requires empty { images.items ≡ [] }
        requires kept { ∥ IfSome L.begun (λ b. K.Has b keeper core.log []) ∥₁ }
        ensures parts { result.1.part.parts ≡ L.parts }
        ensures amount { result.1.part.amount ≡ call_count core.log }
    {
        let held = Checkpointed::from_parts(core, images);
        let (mut calls, mut part) = blank.open::<L>();
        let count = held.count_calls();
        calls.add(&mut part, count as u64);
        let locked = Locked {
            held,
            calls,
            keeper,
        };
        let shared = Shared {
            lock: Mutex::new(locked),
        };
        (shared, Tally { part })
    }

    /// The core, its images and the keeper, by the whole tally. The log has as many calls as that says, each image
    /// is that of its checkpoint in the log, the core has the procedures and the opening that it was shared with,
    /// and the keeper was told of the log and the images.
    pub fn close(self, all: Tally<L>) -> (Core<A>, Vec<Image<A>, A>, K)
        requires { all.part.parts ≡ L.parts }
        ensures calls { call_count result.0.log ≡ all.part.amount }
        ensures cuts { AreCuts result.0 result.1.items }
        ensures origin { IsFrom L.catalog L.opening result.0 }
        ensures kept { ∥ IfSome L.begun (λ b. K.Has b result.2 result.0.log result.1.items) ∥₁ }
    {
        let mut all = all;
        let Locked {
            held,
            mut calls,
            keeper,
        } = self.lock.into_inner();
        calls.audit(&mut all.part);
        let (core, images) = held.into_parts();
        (core, images, keeper)
    }
}
