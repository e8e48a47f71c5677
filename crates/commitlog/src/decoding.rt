//! Logs read from bytes.

ghost use Rattle.std.specs.Prelude.{◌≡◌, ℕ, Err, IfOk, Some};
ghost use Rattle.commitlog.specs.LogReadings.{Damaged, IsReading, NotALog, Reading};
ghost use Rattle.commitlog.specs.StoredLogs.{IsAnswer, Tells, reading_of};
ghost use Rattle.commitlog.specs.declared.decoding.LogError.TheVariants as refused;
ghost use Rattle.commitlog.specs.LogTexts.{log_error_text};

use crate::checking::{CheckedLog, check_whole};
use crate::formats::{LogHeader, Version};
use crate::records::Record;
use crate::stored_records::StoredRecords;
use procedure::{NoMemory, Sequence};
use std::alloc::Allocator;
use std::error::Error;
use std::fmt;

/// How a log's bytes end.
#[derive(Clone, Copy, Debug, PartialEq, Eq)]
pub enum Ending {
    /// With the last record.
    Clean,
    /// In the middle of a record, as where a write was cut off.
    Torn,
}

/// A log that was read.
#[derive(Debug, Drop)]
pub struct StoredLog<A: Allocator> {
    pub version: Version,
    pub header: LogHeader,
    pub records: Sequence<Record<A>, A>,
    pub ending: Ending,
}

/// Why bytes aren't read as a log.
#[derive(Clone, Copy, Debug, PartialEq, Eq)]
pub enum LogError {
    /// They are under 72, or begin with the letters of neither version.
    NotALog,
    /// What stands at this place, counted from 0, is no record: it states a length over that of the
    /// longest body, or it is whole and its body is that of no record, its digest is another, or there
    /// are 1,000,000 records before it.
    Damaged(usize),
    NoMemory,
}

impl fmt::Display for LogError {
    ghost output = { λ e. Some (log_error_text e) };

    fn fmt<W: fmt::Write>(&self, f: &mut fmt::Formatter<W>) -> fmt::Result {
        match self {
            LogError::NotALog => write!(f, "not a log"),
            LogError::Damaged(place) => write!(f, "damaged {place}"),
            LogError::NoMemory => write!(f, "no memory"),
        }
    }
}

impl Error for LogError {}

impl From<NoMemory> for LogError {
    ghost from_gives = { λ _ e. e ≡ refused.NoMemory };

    fn from(_refused: NoMemory) -> Self {
        LogError::NoMemory
    }
}

/// The records, made one after another.
fn all_of<A: Allocator + Clone>(
    alloc: &A,
    records: StoredRecords<'_>,
) -> Result<Vec<Record<A>, A>, NoMemory>
    ensures { IfOk result (λ made. made.items ≡ records.entry) }
{
    let mut records = records;
    let mut made = Vec::with_capacity(alloc.clone()?, records.len())?;
    while let Some(record) = records.next(alloc)? {
        made.push(record)?;
    }
    Ok(made)
}

pub(crate) fn read_whole<A: Allocator + Clone>(
    alloc: &A,
    bytes: &[u8],
) -> Result<StoredLog<A>, LogError>
    ensures { IsAnswer bytes.now result }
{
    let CheckedLog {
        version,
        header,
        records,
        ending,
    } = check_whole(bytes)?;
    Ok(StoredLog {
        version,
        header,
        records: Sequence::new(all_of(alloc, records)?),
        ending,
    })
}

/// Reads a log in either version, in time linear in the bytes. What is answered is the one reading of
/// the bytes (`IsReading`): the records that stand whole at the front and, where less than one stands
/// after them, `Torn`. No digest of the header is compared with anything. Only what is a log takes memory.
pub fn read_log<A: Allocator + Clone>(alloc: A, bytes: &[u8]) -> Result<StoredLog<A>, LogError>
    ensures read { IfOk result (λ log. IsReading bytes.now (reading_of log)) }
    ensures not_a_log { result ≡ Err refused.NotALog → IsReading bytes.now NotALog }
    ensures damaged { (i : ℕ) → result ≡ Err (refused.Damaged i) → IsReading bytes.now (Damaged i) }
    // No other reading is lawful, and a lawful one is answered unless memory runs out.
    ensures only { (r : Reading) → IsReading bytes.now r → Tells result r }
    // These two are answered whatever memory there is.
    ensures foreign { IsReading bytes.now NotALog → result ≡ Err refused.NotALog }
    ensures damage { (i : ℕ) → IsReading bytes.now (Damaged i) → result ≡ Err (refused.Damaged i) }
{
    read_whole(&alloc, bytes)
}
