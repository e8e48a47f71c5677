//! The worker that makes checkpoints.

ghost use Rattle.std.specs.Prelude.{length};
ghost use Rattle.workers.specs.Positions.{IsWithin};

use crate::checkpoints::{Checkpoints, Progress, make_checkpoints};
use crate::gates::{Gate, Point};
use crate::keepers::{Beginning, Keeper};
use crate::shared::Shared;
use image::{Image, Kind};
use phase::Phase;
use procedure::NoMemory;
use std::alloc::Allocator;
use std::sync::Wait;
use steps::{AdvanceError, CaptureError, Captured, StartError};

/// What hears of each image that is taken.
pub trait Listener<I: Drop> {
    /// Whether it wants to hear of more.
    fn listens(&self) -> bool;

    /// A copy of the image, or that there was no memory for one.
    fn hear(&mut self, copy: Result<I, NoMemory>);
}

/// A listener that wants to hear nothing.
#[derive(Clone, Copy, Debug, PartialEq, Eq)]
pub struct Deaf;

impl<I: Drop> Listener<I> for Deaf {
    fn listens(&self) -> bool {
        false
    }

    fn hear(&mut self, _copy: Result<I, NoMemory>) {}
}

/// The checkpoints of a core under its lock, which it takes for each deed alone. Their images go into the
/// list, and a copy of each to the listener.
#[derive(Drop)]
struct Locking<
    'a,
    L: Beginning<K>,
    A: Allocator,
    K: Keeper<A> + Drop,
    R: Wait,
    G: Gate,
    P: Listener<Image<A>>,
> {
    rt: &'a R,
    shared: &'a Shared<L, K, A>,
    gate: &'a G,
    listener: &'a mut P,
}

impl<
    'a,
    L: Beginning<K>,
    A: Allocator + Clone,
    K: Keeper<A> + Drop,
    R: Wait,
    G: Gate,
    P: Listener<Image<A>>,
> Checkpoints for Locking<'a, L, A, K, R, G, P> {
    ghost does = { λ _ _ _. Unit {0} };

    fn phase(&mut self) -> Phase {
        self.shared.lock.lock(self.rt).phase()
    }

    fn start(&mut self, kind: Kind) -> Result<u64, StartError> {
        self.gate.pass(Point::Advance);
        self.shared.lock.lock(self.rt).start(kind)
    }

    fn advance(&mut self) -> Result<Phase, AdvanceError> {
        self.gate.pass(Point::Advance);
        self.shared.lock.lock(self.rt).advance()
    }

    fn capture(&mut self) -> Result<Captured, CaptureError> {
        self.gate.pass(Point::Capture);
        self.shared.lock.lock(self.rt).capture()
    }

    fn take_image(&mut self) -> Result<(), NoMemory> {
        let taken = self.shared.lock.lock(self.rt).take_image();
        if taken? && self.listener.listens() {
            let copy = self.shared.lock.lock(self.rt).copy_of_last();
            match copy {
                Ok(Some(image)) => self.listener.hear(Ok(image)),
                Ok(None) => {}
                Err(refused) => self.listener.hear(Err(refused)),
            }
        }
        Ok(())
    }
}

/// Makes the checkpoints from a position on, as `make_checkpoints` does. Their images go into the list, and a
/// copy of each to the listener.
pub(crate) fn make_from<
    L: Beginning<K>,
    A: Allocator + Clone,
    K: Keeper<A> + Drop,
    R: Wait,
    G: Gate,
    P: Listener<Image<A>>,
>(
    rt: &R,
    shared: &Shared<L, K, A>,
    kinds: &[Kind],
    from: usize,
    turns: u64,
    gate: &G,
    listener: &mut P,
) -> Progress
    ensures { IsWithin (length kinds.now) result }
{
    let mut locking = Locking {
        rt,
        shared,
        gate,
        listener,
    };
    make_checkpoints(&mut locking, kinds, from, turns)
}

/// Makes checkpoints of these kinds, as `make_checkpoints` does, and takes their images into the list. Where
/// there is no room in it the image waits in the core.
pub fn run_checkpoints<
    L: Beginning<K>,
    A: Allocator + Clone,
    K: Keeper<A> + Drop,
    R: Wait,
    G: Gate,
>(rt: &R, shared: &Shared<L, K, A>, kinds: &[Kind], turns: u64, gate: &G) -> Progress
    ensures { IsWithin (length kinds.now) result }
{
    make_from(rt, shared, kinds, 0, turns, gate, &mut Deaf)
}
