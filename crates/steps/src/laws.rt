//! What holds of every schedule, as the contracts of functions that do nothing.

ghost use Rattle.steps.specs.Promises.{AllSchedules};
ghost use Rattle.steps.specs.Renewals.{RenewalsJoin};
ghost use Rattle.steps.specs.Streaming.{HeadersFix};
ghost use Rattle.steps.specs.Visits.{ScansInTurns, ScansWhole};

use std::alloc::Allocator;

/// After every schedule the log is one history of one thread, in which each answered call stands once,
/// and the images that were taken are those of their checkpoints.
pub fn schedules_law()
    ensures { AllSchedules }
{}

/// Between the events by which a core enters capture and complete, the scan answers that it visited a
/// place exactly as often as it had places when it began.
pub fn scans_law<A: Allocator>()
    ensures { ScansWhole A }
{}

/// The same where captures into rings, of a streamed checkpoint, stand among the events.
pub fn turns_law<A: Allocator>()
    ensures { ScansInTurns A }
{}

/// The header of a streamed checkpoint fits what its scan gave (`Core::take_header`), and what is assembled
/// with it fits it too (`image::assemble`). Then it is the image of that checkpoint, unless two different
/// lists of entries have one digest.
pub fn headers_law()
    ensures { HeadersFix }
{}

/// Over cores of which each is the renewal of the one before (`Core::renew`), the logs one after another
/// are one history from the first opening on, with the replies that their calls give, and lead to the
/// table of the last core.
pub fn renewals_law()
    ensures { RenewalsJoin }
{}
