//! Laws of histories, each the contract of a function that does nothing, or only looks.

ghost use Rattle.std.specs.Prelude.{◌≡◌};
ghost use Rattle.std.specs.List.{AllByRecursion};
ghost use Rattle.commitlog.specs.Laws.{FrontsAreHistories, GrowByOne, KeepsCuts, KeepsImages, LastIsGreatest, NumbersRise, SayByOne, WrittenJoins};
ghost use Rattle.commitlog.specs.LogBytes.{Fits};
ghost use Rattle.commitlog.specs.LogReadings.{IsReadAgain, OneReading};
ghost use Rattle.commitlog.specs.declared.limits.TheConstants.{BODY_BYTES, BODY_BYTES_V1, HEADER_BYTES, LOG_RECORDS, REPLIES, VALUE_BYTES_V1};
ghost use Rattle.commitlog.specs.declared.formats.Version.TheVariants.{Two};

use crate::encoding::longest_body;
use crate::records::Record;
use std::alloc::Allocator;

/// A longer log keeps the cut of every checkpoint that it had, the table there, the checkpoint
/// finished before, and the keys written before it.
pub fn cuts_law()
    ensures { KeepsCuts }
{}

/// An image of a log stays one as the log grows.
pub fn images_law()
    ensures { KeepsImages }
{}

/// A front of a legal, orderly, cyclic history is one.
pub fn fronts_law()
    ensures { FrontsAreHistories }
{}

/// With one record more a history is legal, orderly and cyclic exactly where it was so before and the
/// record may stand after it.
pub fn growth_law()
    ensures { GrowByOne }
{}

/// The table, phase and numbers after a history with one record more.
pub fn record_law()
    ensures { SayByOne }
{}

/// The keys written between two places are those written up to a place between them and from it on.
pub fn written_law()
    ensures { WrittenJoins }
{}

/// The numbers of a session's calls rise in an orderly history.
pub fn order_law()
    ensures { NumbersRise }
{}

/// The last finished checkpoint of a cyclic history is the greatest finished one, and the last one
/// finished before a cut is the greatest below it.
pub fn finished_law()
    ensures { LastIsGreatest }
{}

/// A text has one reading as a log.
pub fn reading_law()
    ensures { OneReading }
{}

/// Every record fits version 2, whatever writes it. It looks at each.
pub fn records_fit_law<A: Allocator>(records: &[Record<A>])
    ensures { AllByRecursion (Fits Two) records.now }
{
    let _longest = longest_body(records);
}

/// What is written is read again.
pub fn written_log_law()
    ensures { IsReadAgain }
{}

/// The limits as numbers, which the definitions cite by their names.
pub fn constants_law()
    ensures records { LOG_RECORDS ≡ 1000000 }
    ensures replies { REPLIES ≡ 64 }
    ensures value_v1 { VALUE_BYTES_V1 ≡ 256 }
    ensures body_v1 { BODY_BYTES_V1 ≡ 18656 }
    ensures body { BODY_BYTES ≡ 4718744 }
    ensures header { HEADER_BYTES ≡ 72 }
{}
