//! The log in memory.

ghost use Rattle.std.specs.Prelude.{◌≡◌, ◌≢◌, ◌≤◌, ◌<◌, ◌↔◌, [], ◌∷◌, ◌++◌, Err, IsOk, IsSome, IsTrue, OnErr, OnOk, codes, length, option_copied, slice_get, Some};
ghost use Rattle.commitlog.specs.declared.limits.TheConstants.{LOG_RECORDS};
ghost use Rattle.commitlog.specs.declared.logs.PushError.TheVariants as refused;
ghost use Rattle.commitlog.specs.Logs.{push_error_text};

use crate::limits::LOG_RECORDS;
use crate::records::Record;
use procedure::NoMemory;
use std::alloc::Allocator;
use std::error::Error;
use std::fmt;
use std::marker::Model;

/// Why a record was not taken.
#[derive(Clone, Copy, Debug, PartialEq, Eq)]
pub enum PushError {
    /// There are 1,000,000 records.
    LogFull,
    NoMemory,
}

impl fmt::Display for PushError {
    ghost output = { λ e. Some (push_error_text e) };

    fn fmt<W: fmt::Write>(&self, f: &mut fmt::Formatter<W>) -> fmt::Result {
        f.write_str(match self {
            PushError::LogFull => "log full",
            PushError::NoMemory => "no memory",
        })
    }
}

impl Error for PushError {}

/// Records in the order in which they were pushed, at most 1,000,000. Contracts see the list of them,
/// and the room: how many more can be pushed without taking memory.
#[derive(Debug, Drop)]
pub struct Log<A: Allocator> {
    records: Vec<Record<A>, A>,
}

impl<A: Allocator> Model for Log<A> {
    ghost use Rattle.std.specs.Prelude.{◌≤◌, ◌-◌, length, vec_capacity, vec_len};
    ghost use Rattle.commitlog.specs.Logs.{Log};
    ghost use Rattle.commitlog.specs.declared.limits.TheConstants.{LOG_RECORDS};

    ghost Value = { Log };

    ghost view = { λ l. record { records = l.records.items; room = vec_capacity l.records - vec_len l.records } };

    ghost invariant = { λ l. vec_len l.records ≤ LOG_RECORDS };
}

impl<A: Allocator> Log<A> {
    /// The empty log, which takes no memory.
    pub fn new(alloc: A) -> Self
        ensures { result.records ≡ [] }
    {
        Log {
            records: Vec::new(alloc),
        }
    }

    pub fn len(&self) -> usize
        ensures { result ≡ length self.now.records }
    {
        self.records.len()
    }

    pub fn is_empty(&self) -> bool
        ensures { IsTrue result ↔ (self.now.records ≡ []) }
    {
        self.records.is_empty()
    }

    /// Whether there are 1,000,000 records, so that no other is taken.
    pub fn is_full(&self) -> bool
        ensures value { IsTrue result ↔ (length self.now.records ≡ LOG_RECORDS) }
        ensures most { length self.now.records ≤ LOG_RECORDS }
    {
        let count = self.records.len();
        count == LOG_RECORDS
    }

    /// The record at a place, counted from 0, if there is one.
    pub fn get(&self, place: usize) -> Option<&Record<A>>
        ensures value { option_copied result ≡ slice_get self.now.records place }
        ensures within { IsSome result ↔ (place < length self.now.records) }
    {
        self.records.get(place)
    }

    /// The records, the oldest first.
    pub fn records(&self) -> &[Record<A>]
        ensures value { result.now ≡ self.now.records }
        ensures most { length self.now.records ≤ LOG_RECORDS }
    {
        self.records.as_slice()
    }

    /// Room for one record more, so that the next push takes no memory. It takes none where there is
    /// room.
    pub fn make_room(&mut self) -> Result<(), NoMemory>
        ensures records { self.new.records ≡ self.old.records }
        ensures room { OnOk result (1 ≤ self.new.room) }
        ensures memory { 1 ≤ self.old.room → IsOk result }
    {
        self.records.reserve(1)?;
        Ok(())
    }

    /// The record stands last. A record that is refused is dropped. It moves the record, and takes
    /// constant time, amortized over the pushes.
    #[inline(always)]
    pub fn push(&mut self, added: Record<A>) -> Result<(), PushError>
        ensures ok { OnOk result (self.new.records ≡ self.old.records ++ added ∷ []) }
        ensures err { OnErr result (self.new.records ≡ self.old.records) }
        ensures full { (result ≡ Err refused.LogFull) ↔ (length self.old.records ≡ LOG_RECORDS) }
        ensures memory { 1 ≤ self.old.room → result ≢ Err refused.NoMemory }
    {
        if self.is_full() {
            return Err(PushError::LogFull);
        }
        match self.records.reserve(1) {
            Ok(()) => {
                self.records.push_reserved(added);
                Ok(())
            }
            Err(_) => Err(PushError::NoMemory),
        }
    }
}
