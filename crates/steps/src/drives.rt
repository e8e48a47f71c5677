//! A core driven by a list of events.

ghost use Rattle.std.specs.Prelude.{◌≡◌, ◌≤◌, ◌+◌, [], IfOk, None, OnOk, count_by, length, map, replicate, vec_capacity};
ghost use Rattle.procedure.specs.declared.limits.TheConstants.{SESSIONS};
ghost use Rattle.commitlog.specs.Histories.{IsCyclic, IsLegal, IsOrderly};
ghost use Rattle.image.specs.Merges.{table_of};
ghost use Rattle.steps.specs.CoreViews.{CoreView, IsSmall};
ghost use Rattle.steps.specs.Drives.{calls_of, EachStands, IsDriven};
ghost use Rattle.image.specs.Openings.{is_opening};
ghost use Rattle.steps.specs.Openings.{IsOpened};
ghost use Rattle.steps.specs.Refusals.{Answers, refused_unless};
ghost use Rattle.steps.specs.CutImages.{AllTaken, ChainsAreCuts};
ghost use Rattle.steps.specs.Schedules.{HandlesWith, answered_calls, is_taken};
ghost use Rattle.steps.specs.declared.errors.OpenError.TheVariants as refused;

use crate::cores::Core;
use crate::errors::OpenError;
use crate::schedules::{Event, Handled, Reply};
use image::Image;
use procedure::{Catalog, NoMemory};
use std::alloc::Allocator;

/// What a schedule made of a core.
#[derive(Drop)]
pub struct Run<A: Allocator> {
    /// The core after the last event.
    pub core: Core<A>,
    /// One reply for each event, in order.
    pub answers: Vec<Reply<A>, A>,
    /// The images that events took, in the order in which they were taken.
    pub images: Vec<Image<A>, A>,
}

/// The events, one after another. Their replies go into one list, which has room for them, and the
/// images that they took into the other.
fn handle_all<A: Allocator + Clone>(
    core: &mut Core<A>,
    events: Vec<Event<A>, A>,
    answers: &mut Vec<Reply<A>, A>,
    images: &mut Vec<Image<A>, A>,
) -> Result<(), NoMemory>
    requires no_answers { answers.old.items ≡ [] }
    requires no_images { images.old.items ≡ [] }
    requires room { length events.items ≤ vec_capacity answers.old }
    ensures { OnOk result (HandlesWith events.items core.old core.new answers.new.items images.new.items) }
{
    for event in events {
        let Handled { reply, image } = core.handle(event);
        answers.push_reserved(reply);
        if let Some(image) = image {
            images.push(image)?;
        }
    }
    Ok(())
}

/// The replies to the events, one after another, and the images that they took.
fn answer_all<A: Allocator + Copy>(
    alloc: A,
    core: &mut Core<A>,
    events: Vec<Event<A>, A>,
) -> Result<(Vec<Reply<A>, A>, Vec<Image<A>, A>), NoMemory>
    ensures { IfOk result (λ x. HandlesWith events.items core.old core.new x.0.items x.1.items) }
{
    let mut answers = Vec::with_capacity(alloc, events.len())?;
    let mut images = Vec::new(alloc);
    handle_all(core, events, &mut answers, &mut images)?;
    Ok((answers, images))
}

/// Opens a core and carries out the events, one after another, each with one reply. The log is then one
/// history of one thread, in which every answered call stands once, at the place that its answer gives,
/// and no other call. There is one image for each reply that one was taken, in the same order. Each image
/// is that of its checkpoint's cut, and each chain of them merges to the table at the last one's cut.
///
/// It is refused where the core isn't opened, and by `NoMemory` where there is no room for the replies
/// and images.
pub fn drive<A: Allocator + Copy>(
    alloc: A,
    catalog: Catalog<A>,
    opening: Image<A>,
    events: Vec<Event<A>, A>,
) -> Result<Run<A>, OpenError>
    ensures run { IfOk result (λ r. IsDriven catalog opening events.items r.core r.answers.items r.images.items) }
    ensures catalog { IfOk result (λ r. r.core.catalog ≡ catalog) }
    ensures opening { IfOk result (λ r. r.core.opening ≡ opening) }
    ensures legal { IfOk result (λ r. IsLegal r.core.catalog (table_of r.core.opening) r.core.log) }
    ensures orderly { IfOk result (λ r. IsOrderly r.core.log) }
    ensures cyclic { IfOk result (λ r. IsCyclic r.core.log) }
    ensures small { IfOk result (λ r. IsSmall r.core.catalog (table_of r.core.opening) r.core.log) }
    ensures calls { IfOk result (λ r. calls_of r.core.log ≡ map (λ x. x.1) (answered_calls events.items r.answers.items (replicate SESSIONS None))) }
    ensures places { IfOk result (λ r. EachStands r.core.log (answered_calls events.items r.answers.items (replicate SESSIONS None))) }
    ensures taken { IfOk result (λ r. length r.images.items ≡ count_by is_taken r.answers.items) }
    ensures images { IfOk result (λ r. AllTaken r.core.catalog (table_of r.core.opening) r.core.log r.images.items) }
    ensures chains { IfOk result (λ r. ChainsAreCuts r.core.catalog (table_of r.core.opening) r.core.log r.images.items) }
    ensures refusal { Answers (refused_unless (is_opening opening) refused.NotAnOpening) refused.NoMemory result }
{
    let mut core = Core::open(alloc, catalog, opening)?;
    let (answers, images) = match answer_all(alloc, &mut core, events) {
        Ok(handled) => handled,
        Err(NoMemory) => return Err(OpenError::NoMemory),
    };
    // Brings in what holds of the log of every core.
    let _records = core.records();
    Ok(Run {
        core,
        answers,
        images,
    })
}
