//! Logs that are checked in their bytes, without making their records.

ghost use Rattle.std.specs.Prelude.{◌≡◌, ◌≤◌, ◌++◌, ◌≢◌, ℕ, Err, IfErr, IfNone, IfOk, IfSome, length, take};
ghost use Rattle.commitlog.specs.LogBytes.{magic};
ghost use Rattle.commitlog.specs.LogReadings.{Damaged, EndsAfterSome, IsForeign, IsFront, IsHeader, IsNext, IsReading, IsStop, IsWhole, NotALog, Reading, StandsFirst, StopsAfter, after_record, stated_length};
ghost use Rattle.commitlog.specs.StoredLogs.{Checks, IsCheck, checked_reading};
ghost use Rattle.commitlog.specs.declared.limits.TheConstants.{LOG_RECORDS};
ghost use Rattle.commitlog.specs.declared.formats.Version.{Version};
ghost use Rattle.commitlog.specs.declared.decoding.LogError.TheVariants as refused;

use crate::decoding::{Ending, LogError};
use crate::formats::{LogHeader, Version};
use crate::forms::is_body;
use crate::limits::{HEADER_BYTES, LOG_RECORDS};
use crate::stored_records::StoredRecords;
use byteorder::{BigEndian, ByteOrder};
use procedure::bytes::chained_digest;
use sha2::{Digest, Sha256};

/// A log that was checked, and whose records stand in its bytes alone.
#[derive(Drop)]
pub struct CheckedLog<'a> {
    pub version: Version,
    pub header: LogHeader,
    pub records: StoredRecords<'a>,
    pub ending: Ending,
}

/// What stands at the front of the bytes after a log's records so far.
enum Front {
    /// Nothing.
    Clean,
    /// Less than a record.
    Torn,
    /// A length over that of the longest body.
    TooLong,
    /// A length, that many bytes, and a digest's.
    Whole(usize),
}

fn front_of(version: Version, bytes: &[u8]) -> Front
    ensures { IsFront version bytes.now result }
{
    if bytes.is_empty() {
        return Front::Clean;
    }
    if bytes.len() < 4 {
        return Front::Torn;
    }
    let stated = BigEndian::read_u32(bytes) as usize;
    if stated > version.greatest_body() {
        return Front::TooLong;
    }
    if bytes.len() < 4 + stated + 32 {
        return Front::Torn;
    }
    Front::Whole(stated)
}

/// The digest of the record that stands whole at the front, after that of the record before it. None
/// where its body is that of no record, or it states another digest.
fn digest_of_whole(
    version: Version,
    digest: &[u8; 32],
    bytes: &[u8],
    stated: usize,
) -> Option<[u8; 32]>
    requires length { stated ≡ stated_length bytes.now }
    requires whole { IsWhole bytes.now }
    ensures some { IfSome result (λ after. StandsFirst version digest.now after bytes.now (after_record bytes.now)) }
    ensures none { IfNone result (IsForeign version digest.now bytes.now) }
{
    let (_length, rest) = bytes.split_at(4);
    let (text, rest) = rest.split_at(stated);
    let (given, _rest) = rest.split_at(32);
    let after = chained_digest(digest, text);
    if after.as_slice() != given {
        return None;
    }
    if !is_body(version, text) {
        return None;
    }
    Some(after)
}

/// What comes next: the end, or a record's digest, and how many bytes it takes.
enum Next {
    End(Ending),
    Entry { digest: [u8; 32], length: usize },
}

/// What comes at this place, after the digest of the record before it.
fn next_of(
    version: Version,
    digest: &[u8; 32],
    place: usize,
    bytes: &[u8],
) -> Result<Next, LogError>
    requires { place ≤ LOG_RECORDS }
    ensures next { IfOk result (λ next. IsNext version digest.now place bytes.now next) }
    ensures err { IfErr result (λ e. IsStop version digest.now place bytes.now e) }
{
    match front_of(version, bytes) {
        Front::Clean => Ok(Next::End(Ending::Clean)),
        Front::Torn => Ok(Next::End(Ending::Torn)),
        Front::TooLong => Err(LogError::Damaged(place)),
        Front::Whole(stated) => {
            if place == LOG_RECORDS {
                return Err(LogError::Damaged(place));
            }
            match digest_of_whole(version, digest, bytes, stated) {
                Some(digest) => Ok(Next::Entry {
                    digest,
                    length: 4 + stated + 32,
                }),
                None => Err(LogError::Damaged(place)),
            }
        }
    }
}

/// How many records stand at the front, and how the bytes end after them.
fn count_of(version: Version, digest: [u8; 32], bytes: &[u8]) -> Result<(usize, Ending), LogError>
    ensures read { IfOk result (λ x. EndsAfterSome version digest bytes.now x.0 x.1) }
    ensures err { IfErr result (λ e. StopsAfter version digest bytes.now e) }
{
    let mut count = 0;
    let mut digest = digest;
    let mut rest = bytes;
    loop {
        match next_of(version, &digest, count, rest)? {
            Next::End(ending) => return Ok((count, ending)),
            Next::Entry {
                digest: after,
                length,
            } => {
                count += 1;
                digest = after;
                let (_entry, left) = rest.split_at(length);
                rest = left;
            }
        }
    }
}

/// The version whose letters stand at the front.
fn version_of(bytes: &[u8]) -> Option<Version>
    requires { 8 ≤ length bytes.now }
    ensures found { IfSome result (λ v. take 8 bytes.now ≡ magic v) }
    ensures none { IfNone result ((v : Version) → take 8 bytes.now ≢ magic v) }
{
    let (letters, _rest) = bytes.split_at(8);
    if letters == Version::One.magic().as_slice() {
        Some(Version::One)
    } else if letters == Version::Two.magic().as_slice() {
        Some(Version::Two)
    } else {
        None
    }
}

fn digest_in(bytes: &[u8]) -> [u8; 32]
    requires { length bytes.now ≡ 32 }
    ensures { result ≡ bytes.now }
{
    let mut digest = [0; 32];
    digest.copy_from_slice(bytes);
    digest
}

/// The header of the two digests that the bytes are.
fn header_in(bytes: &[u8]) -> LogHeader
    requires { length bytes.now ≡ 64 }
    ensures digests { result.catalog ++ result.opening ≡ bytes.now }
    ensures lengths { IsHeader result }
{
    let (catalog, opening) = bytes.split_at(32);
    LogHeader {
        catalog: digest_in(catalog),
        opening: digest_in(opening),
    }
}

pub(crate) fn check_whole(bytes: &[u8]) -> Result<CheckedLog<'_>, LogError>
    ensures answer { IsCheck bytes.now result }
    ensures memory { result ≢ Err refused.NoMemory }
{
    if bytes.len() < HEADER_BYTES {
        return Err(LogError::NotALog);
    }
    let Some(version) = version_of(bytes) else {
        return Err(LogError::NotALog);
    };
    let (front, rest) = bytes.split_at(HEADER_BYTES);
    let (_letters, digests) = front.split_at(8);
    let header = header_in(digests);
    let (count, ending) = count_of(version, Sha256::digest(front), rest)?;
    Ok(CheckedLog {
        version,
        header,
        records: StoredRecords::new(version, count, rest),
        ending,
    })
}

/// Reads a log as `read_log` does, in time linear in the bytes, and makes no record: it takes no memory.
/// Each record is made of the bytes afterward, when it is asked for.
pub fn check_log(bytes: &[u8]) -> Result<CheckedLog<'_>, LogError>
    ensures read { IfOk result (λ log. IsReading bytes.now (checked_reading log)) }
    ensures not_a_log { result ≡ Err refused.NotALog → IsReading bytes.now NotALog }
    ensures damaged { (i : ℕ) → result ≡ Err (refused.Damaged i) → IsReading bytes.now (Damaged i) }
    // No other reading is lawful, and the lawful one is always answered.
    ensures only { (r : Reading) → IsReading bytes.now r → Checks result r }
    ensures memory { result ≢ Err refused.NoMemory }
{
    check_whole(bytes)
}
