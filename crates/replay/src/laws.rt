//! Laws of logs that are read again, each the contract of a function that does nothing.

ghost use Rattle.replay.specs.Promises.{FrontsAreRead, OpeningsAreImages};

/// A front of a log's bytes, with its header at least, is read as a front of its records: those that
/// stand whole in it.
pub fn fronts_law()
    ensures { FrontsAreRead }
{}

/// An opening is the image of checkpoint 0 of every log.
pub fn openings_law()
    ensures { OpeningsAreImages }
{}
