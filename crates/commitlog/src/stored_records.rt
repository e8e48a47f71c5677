//! Records that stand in the bytes of a log.

ghost use Rattle.std.specs.Prelude.{◌≡◌, ◌≤◌, ◌↔◌, [], IfOk, IsTrue, OnErr, drop, length};
ghost use Rattle.commitlog.specs.LogReadings.{IsWhole, after_record, stated_body};
ghost use Rattle.commitlog.specs.StoredRecords.{AreSpelled, TakesFirst, records_in};
ghost use Rattle.commitlog.specs.declared.limits.TheConstants.{LOG_RECORDS};

use crate::bodies::{BodyError, record_of_body};
use crate::formats::Version;
use crate::records::Record;
use byteorder::{BigEndian, ByteOrder};
use procedure::NoMemory;
use std::alloc::Allocator;
use std::marker::Model;

/// The records of a log that was checked, each made of the log's bytes when it is asked for. Contracts
/// see the list of those that are still to come.
#[derive(Drop)]
pub struct StoredRecords<'a> {
    version: Version,
    count: usize,
    rest: &'a [u8],
}

impl<'a> Model for StoredRecords<'a> {
    ghost use Rattle.std.specs.Prelude.{List};
    ghost use Rattle.commitlog.specs.Records.{Record};
    ghost use Rattle.commitlog.specs.StoredRecords.{AreSpelled, records_in};

    ghost Value = { List Record };

    ghost view = { λ r. records_in r.version r.count r.rest.now };

    ghost invariant = { λ r. AreSpelled r.version r.count r.rest.now };
}

/// The body of the record at the front, and what stands after the record.
fn split_first(bytes: &[u8]) -> (&[u8], &[u8])
    requires { IsWhole bytes.now }
    ensures body { result.0.now ≡ stated_body bytes.now }
    ensures rest { result.1.now ≡ after_record bytes.now }
{
    let stated = BigEndian::read_u32(bytes) as usize;
    let (_length, rest) = bytes.split_at(4);
    let (text, rest) = rest.split_at(stated);
    let (_digest, rest) = rest.split_at(32);
    (text, rest)
}

impl<'a> StoredRecords<'a> {
    pub(crate) fn new(version: Version, count: usize, rest: &'a [u8]) -> Self
        requires { AreSpelled version count rest.now }
        ensures { result ≡ records_in version count rest.now }
    {
        StoredRecords {
            version,
            count,
            rest,
        }
    }

    /// How many are still to come.
    pub fn len(&self) -> usize
        ensures value { result ≡ length self.now }
        ensures most { length self.now ≤ LOG_RECORDS }
    {
        self.count
    }

    pub fn is_empty(&self) -> bool
        ensures { IsTrue result ↔ (self.now ≡ []) }
    {
        self.len() == 0
    }

    /// The next one, if there is one. Where memory is refused, it is still to come.
    pub fn next<A: Allocator + Clone>(&mut self, alloc: &A) -> Result<Option<Record<A>>, NoMemory>
        ensures next { IfOk result (λ found. TakesFirst self.old found self.new) }
        ensures err { OnErr result (self.new ≡ self.old) }
    {
        if self.count == 0 {
            return Ok(None);
        }
        let (text, rest) = split_first(self.rest);
        match record_of_body(alloc, self.version, text) {
            Ok(made) => {
                self.count -= 1;
                self.rest = rest;
                Ok(Some(made))
            }
            Err(BodyError::NoMemory) => Err(NoMemory),
            Err(BodyError::Malformed) => unreachable!(),
        }
    }

    /// Those from a place on, counted from 0 among the ones still to come, in time linear in the place.
    pub fn from_place(&self, place: usize) -> StoredRecords<'a>
        ensures { result ≡ drop place self.now }
    {
        let mut count = self.count;
        let mut rest = self.rest;
        let mut passed = 0;
        while passed < place && count > 0 {
            let (_text, left) = split_first(rest);
            rest = left;
            count -= 1;
            passed += 1;
        }
        StoredRecords {
            version: self.version,
            count,
            rest,
        }
    }
}
