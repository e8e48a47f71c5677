//! Journals of a run, which have what each command adds before it is answered.

ghost use Rattle.std.specs.Prelude.{◌≡◌};
ghost use Rattle.calcdb.specs.declared.journals.Stop.TheVariants as stop;

use crate::faults::Fault;
use commitlog::Record;
use image::Image;
use std::alloc::Allocator;
use std::convert::Infallible;
use steps::Core;

/// Why a run ends before its script does.
#[derive(Drop)]
pub(crate) enum Stop<F> {
    Fault(Fault),
    /// Its journal failed.
    Journal(F),
}

impl<F> From<Fault> for Stop<F> {
    ghost from_gives = { λ f s. s ≡ stop.Fault f };

    fn from(fault: Fault) -> Self {
        Stop::Fault(fault)
    }
}

/// A journal of a run, kept by what a runtime gives. It has what each command adds to the log, and the image that
/// it takes, before the command is answered.
pub(crate) trait Journal<R, A: Allocator> {
    ghost use Rattle.std.specs.Prelude.{◌≡◌, ℕ, [], OnErr, OnOk, length};
    ghost use Rattle.calcdb.specs.Journals.{Taken, images_given, taken_of, with_more};

    type Failure: Drop;

    /// It has taken all of this since the start.
    ghost Has: { (start now : Self) → Taken → Type 0 };

    /// It has failed, and a front of this is all that it has taken since the start, so many records at least.
    ghost HasFront: { (start now : Self) → Taken → (least : ℕ) → Type 0 };

    /// Begins with what a core was opened with.
    fn open(&mut self, alloc: A, rt: &R, core: &Core<A>) -> Result<(), Self::Failure>
        ensures ok { core.now.log ≡ [] → OnOk result (Has self.old self.new (taken_of core.now [])) }
        ensures err { OnErr result (HasFront self.old self.new (taken_of core.now []) 0) };

    /// Takes the records and the image that a command added.
    fn take(
        &mut self,
        alloc: A,
        rt: &R,
        records: &[Record<A>],
        image: Option<&Image<A>>,
    ) -> Result<(), Self::Failure>
        ensures ok { (start : Self) (t : Taken) → Has start self.old t → OnOk result (Has start self.new (with_more t records.now (images_given image.entry))) }
        ensures err { (start : Self) (t : Taken) → Has start self.old t → OnErr result (HasFront start self.new (with_more t records.now (images_given image.entry)) (length t.records)) };
}

/// The journal of a run that keeps none.
#[derive(Clone, Copy)]
pub(crate) struct NoJournal;

impl<R, A: Allocator> Journal<R, A> for NoJournal {
    type Failure = Infallible;

    ghost Has = { λ _ _ _. Unit {0} };

    ghost HasFront = { λ _ _ _ _. Unit {0} };

    fn open(&mut self, _alloc: A, _rt: &R, _core: &Core<A>) -> Result<(), Infallible> {
        Ok(())
    }

    fn take(
        &mut self,
        _alloc: A,
        _rt: &R,
        _records: &[Record<A>],
        _image: Option<&Image<A>>,
    ) -> Result<(), Infallible> {
        Ok(())
    }
}
