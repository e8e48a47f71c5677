//! How the image of a checkpoint, or the header of a streamed one, is finished.

ghost use Rattle.std.specs.Prelude.{◌≡◌, None};
ghost use Rattle.phase.specs.declared.phases.Phase.TheVariants.{Capture, Complete};
ghost use Rattle.commitlog.specs.Histories.{phase_of};
ghost use Rattle.image.specs.Headers.{EachKeyOnce, of_captured};
ghost use Rattle.image.specs.Images.{IsLawfulImage};
ghost use Rattle.steps.specs.inside.NextPhases.{Enters};
ghost use Rattle.steps.specs.Refusals.{advance_refusal};
ghost use Rattle.steps.specs.inside.FinishedCheckpoints.{Finishes, finished_image};
ghost use Rattle.steps.specs.machine.Machine.{base_at};
ghost use Rattle.steps.specs.declared.checkpoints.Way.TheVariants.{Whole};

use crate::checkpointing::push_token;
use crate::checkpoints::{Checkpoint, Way};
use crate::cores::Core;
use crate::reclaiming::Aside;
use image::{Entry, Header, Image, Kind};
use phase::Phase;
use procedure::NoMemory;
use std::alloc::Allocator;
use std::mem;

/// The number of the image on which that of a checkpoint stands: its own, or that of the last finished
/// one.
fn base_of(kind: Kind, number: u64, finished: u64) -> u64
    ensures { result ≡ base_at kind number finished }
{
    match kind {
        Kind::Full => number,
        Kind::Partial => finished,
    }
}

/// The image of what was captured, each key once.
pub(crate) fn image_of<A: Allocator>(
    kind: Kind,
    number: u64,
    finished: u64,
    place: u64,
    entries: Vec<Entry<A>, A>,
) -> Image<A>
    requires once { EachKeyOnce entries.items }
    requires lawful { IsLawfulImage (of_captured kind number (base_at kind number finished) place entries.items) }
    ensures { result ≡ of_captured kind number (base_at kind number finished) place entries.items }
{
    let base = base_of(kind, number, finished);
    match Image::captured(kind, number, base, place, entries) {
        Some(image) => image,
        None => unreachable!(),
    }
}

/// What was captured, by move. A list with over twice the room that it needs gives memory back.
fn taken_list<A: Allocator>(
    captured: &mut Vec<Entry<A>, A>,
    empty: Vec<Entry<A>, A>,
) -> Vec<Entry<A>, A>
    ensures entries { result.items ≡ captured.old.items }
    ensures left { captured.new.items ≡ empty.items }
{
    let mut entries = mem::replace(captured, empty);
    if entries.capacity() / 2 > entries.len() {
        entries.shrink_to_fit();
    }
    entries
}

/// What its scan gave becomes the image of a checkpoint, or the header of a streamed one, and waits to be
/// taken.
fn finish<A: Allocator>(checkpoint: &mut Checkpoint<A>, empty: Vec<Entry<A>, A>)
    requires once { checkpoint.old.way ≡ Whole → EachKeyOnce checkpoint.old.captured.items }
    requires lawful { checkpoint.old.way ≡ Whole → IsLawfulImage (finished_image checkpoint.old) }
    ensures { Finishes checkpoint.old checkpoint.new }
{
    let kind = checkpoint.kind;
    let number = checkpoint.number;
    let place = checkpoint.place;
    let finished = mem::replace(&mut checkpoint.finished, number);
    match checkpoint.way {
        Way::Whole => {
            let entries = taken_list(&mut checkpoint.captured, empty);
            checkpoint.waiting = Some(image_of(kind, number, finished, place, entries));
        }
        Way::Streamed => {
            checkpoint.header = Some(Header {
                kind,
                number,
                base: base_of(kind, number, finished),
                place,
                count: checkpoint.tally.count,
                chain: checkpoint.tally.chain,
            });
        }
    }
}

impl<A: Allocator + Clone> Core<A> {
    /// From capture into complete: the image is finished, or the header, and waits to be taken.
    pub(crate) fn complete(&mut self) -> Result<(), NoMemory>
        requires phase { phase_of self.old.log ≡ Capture }
        requires free { advance_refusal self.old ≡ None }
        ensures { Enters Complete self.old self.new result }
    {
        // Brings in that the store has at most 100,000 records, and so the image as many entries.
        let _records = self.store.len();
        let empty = Vec::new(self.alloc.clone()?);
        push_token(&mut self.log, Phase::Complete, self.checkpoint.number)?;
        finish(&mut self.checkpoint, empty);
        self.changed.clear_frozen();
        // Records that were set aside since their keys were collected may go now.
        self.aside = Aside::Unknown;
        self.phase = Phase::Complete;
        Ok(())
    }
}
