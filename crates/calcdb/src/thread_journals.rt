//! The journal of a run in threads, which is told of what the core adds while its lock is held.

ghost use Rattle.calcdb.specs.Journals.{IsTold, Taken, images_given, with_more};

use crate::journals::Journal;
use commitlog::Record;
use image::Image;
use std::alloc::Allocator;
use workers::Keeper;

/// A journal that takes the records and the images of a core as they come. Once it has failed it takes no more.
#[derive(Drop)]
pub(crate) struct ThreadJournal<'a, J: Journal<R, A> + Drop, R, A: Allocator> {
    pub alloc: A,
    pub rt: &'a R,
    pub journal: J,
    pub failure: Option<J::Failure>,
}

/// Has a journal take records and an image, unless it has failed.
fn tell<J: Journal<R, A>, R, A: Allocator + Copy>(
    alloc: A,
    rt: &R,
    journal: &mut J,
    failure: &mut Option<J::Failure>,
    records: &[Record<A>],
    image: Option<&Image<A>>,
)
    ensures { (start : J) (t : Taken) → IsTold J.Has J.HasFront start journal.old failure.old t →
        IsTold J.Has J.HasFront start journal.new failure.new (with_more t records.now (images_given image.entry)) }
{
    if failure.is_some() {
        return;
    }
    match journal.take(alloc, rt, records, image) {
        Ok(()) => {}
        Err(refused) => *failure = Some(refused),
    }
}

impl<'a, J: Journal<R, A> + Drop, R, A: Allocator + Copy> Keeper<A> for ThreadJournal<'a, J, R, A> {
    ghost use Rattle.std.specs.Prelude.{is_none};
    ghost use Rattle.calcdb.specs.Journals.{IsTold, Taken, with_more};

    ghost Has = { λ begun now log images. (start : J) (t : Taken) → IsTold J.Has J.HasFront start begun.journal begun.failure t →
        IsTold J.Has J.HasFront start now.journal now.failure (with_more t log images) };

    ghost is_going = { λ k. is_none k.failure };

    fn keep_records(&mut self, records: &[Record<A>]) {
        let images: [Image<A>; 0] = [];
        tell(
            self.alloc,
            self.rt,
            &mut self.journal,
            &mut self.failure,
            records,
            images.first(),
        );
    }

    fn keep_image(&mut self, image: &Image<A>) {
        let records: [Record<A>; 0] = [];
        tell(
            self.alloc,
            self.rt,
            &mut self.journal,
            &mut self.failure,
            &records,
            Some(image),
        );
    }

    fn goes_on(&self) -> bool {
        self.failure.is_none()
    }
}
