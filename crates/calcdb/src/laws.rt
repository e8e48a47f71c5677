//! Laws that join what a core promises with what recovering asks for, each the contract of a function
//! that changes nothing.

ghost use Rattle.std.specs.Prelude.{◌∷◌, List};
ghost use Rattle.steps.specs.CoreViews.{CoreView};
ghost use Rattle.steps.specs.Schedules.{HandlesAll, images_in};
ghost use Rattle.steps.specs.declared.schedules.Event.{Event};
ghost use Rattle.steps.specs.declared.schedules.Handled.{Handled};
ghost use Rattle.calcdb.specs.LiveRuns.{CutOffIsFront};
ghost use Rattle.calcdb.specs.OwnFiles.{AreItsImages, AreRecovered, GivesTableNow, HasHistory};

use commitlog::laws::{records_fit_law, written_log_law};
use replay::laws::{fronts_law, openings_law};
use std::alloc::Allocator;
use steps::Core;

/// The log of every core, and its opening with the images that events took of it, are as a recovery of its
/// files asks for. So of each front of the log's bytes, and each chain of at most 64 of these images,
/// `recover` gives the table after the records that stand whole in the front, or is out of memory. The
/// opening alone is such a chain. Of the whole log it gives the core's table, with which `Core::renew` opens
/// the next core.
pub(crate) fn recovery_law<A: Allocator>(core: &Core<A>)
    ensures history { HasHistory core.now }
    ensures images { (first : CoreView) (events : List (Event A)) (each : List (Handled A)) → HandlesAll events first core.now each → AreItsImages core.now (core.now.opening ∷ images_in each) }
    ensures recovered { (first : CoreView) (events : List (Event A)) (each : List (Handled A)) → HandlesAll events first core.now each → AreRecovered core.now (core.now.opening ∷ images_in each) }
    ensures whole { (first : CoreView) (events : List (Event A)) (each : List (Handled A)) → HandlesAll events first core.now each → GivesTableNow core.now (core.now.opening ∷ images_in each) }
{
    // Brings in what holds of the log and of the opening of every core.
    let _records = core.records();
    let _entries = core.opening().entries();
    fronts_law();
    openings_law();
    written_log_law();
}

/// What a file holds of a core's log that was written record by record, and was cut off, is a front of the log.
/// So what `recovery_law` says of fronts holds of it: a chain of images whose
/// last cut stands in it recovers, and so does the opening alone. Of what was written before, no record is lost.
pub(crate) fn cut_off_law<A: Allocator>(core: &Core<A>)
    ensures { CutOffIsFront core.now }
{
    // Of the log: it has at most 1,000,000 records, and each fits the format.
    records_fit_law(core.records());
}
