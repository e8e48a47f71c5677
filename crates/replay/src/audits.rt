//! The audit of a log.

ghost use Rattle.std.specs.Prelude.{◌≡◌, ◌≤◌, ◌⊎◌, ◌↔◌, Err, IfErr, IfOk, IsTrue, OnOk, false, length};
ghost use Rattle.std.specs.declared.result.Result.{Result};
ghost use Rattle.commitlog.specs.declared.limits.TheConstants.{LOG_RECORDS};
ghost use Rattle.image.specs.Openings.{is_opening};
ghost use Rattle.replay.specs.Parts.{AreAudited, audited_at};
ghost use Rattle.replay.specs.Audits.{IsAudit, NamesBoth, OfLog};
ghost use Rattle.replay.specs.Promises.{FrontsPass, IsOneHistory};
ghost use Rattle.replay.specs.declared.audits.Audited.{Audited};
ghost use Rattle.replay.specs.declared.errors.AuditError.{AuditError};
ghost use Rattle.replay.specs.declared.errors.AuditError.TheVariants as refused;

use crate::calls::{CallError, calls_of, run_entry};
use crate::errors::AuditError;
use crate::headers::{names_catalog, names_opening};
use crate::orders::Order;
use crate::recovery::is_torn;
use crate::tables::copy_of_table;
use commitlog::{CheckedLog, StoredRecords, check_log};
use image::Image;
use procedure::{Catalog, Table};
use std::alloc::Allocator;

/// What an audited log has.
#[derive(Clone, Copy, Debug, PartialEq, Eq)]
pub struct Audited {
    /// How many whole records.
    pub records: usize,
    /// How many of them are calls.
    pub calls: usize,
    /// Whether less than a record stood at its end.
    pub torn: bool,
}

/// Whether the log is one of the catalog and of the opening.
fn check_header<A: Allocator + Clone>(
    alloc: A,
    catalog: &Catalog<A>,
    opening: &Image<A>,
    log: &CheckedLog<'_>,
) -> Result<(), AuditError>
    ensures ok { OnOk result (NamesBoth catalog.now opening.now log.now.version log.now.header) }
    ensures err { IfErr result (λ e. OfLog catalog.now opening.now log.now.version log.now.header log.now.records log.now.ending (Err e) ⊎ (e ≡ refused.NoMemory)) }
{
    if !names_catalog(&log.header, catalog)? {
        return Err(AuditError::WrongCatalog);
    }
    if !names_opening(alloc, log.version, &log.header, opening)? {
        return Err(AuditError::WrongOpening);
    }
    Ok(())
}

fn refusal_at(stopped: CallError, place: usize) -> AuditError
    ensures { result ≡ audited_at stopped place }
{
    match stopped {
        CallError::Diverged => AuditError::Diverged(place),
        CallError::TooMany => AuditError::TooMany,
        CallError::NoMemory => AuditError::NoMemory,
    }
}

/// Checks the records, each after the one before it.
fn audit_records<A: Allocator + Clone>(
    alloc: &A,
    catalog: &Catalog<A>,
    table: Table<A>,
    records: StoredRecords<'_>,
    torn: bool,
) -> Result<Audited, AuditError>
    requires { length records ≤ LOG_RECORDS }
    ensures { AreAudited catalog.now table records.entry torn result }
{
    let mut records = records;
    let mut table = table;
    let mut order = Order::new();
    let mut calls = 0;
    let mut place = 0;
    while let Some(made) = records.next(alloc)? {
        let entry = made.into_entry();
        if !order.admits(&entry) {
            return Err(AuditError::Disorder(place));
        }
        order.note(&entry);
        calls += calls_of(&entry);
        match run_entry(alloc.clone()?, catalog, entry, table) {
            Ok(after) => table = after,
            Err(stopped) => return Err(refusal_at(stopped, place)),
        }
        place += 1;
    }
    Ok(Audited {
        records: place,
        calls,
        torn,
    })
}

/// What an audit returns for an opening and a log.
fn audit_log<A: Allocator + Copy>(
    alloc: A,
    catalog: &Catalog<A>,
    opening: &Image<A>,
    log: CheckedLog<'_>,
) -> Result<Audited, AuditError>
    requires { length log.records ≤ LOG_RECORDS }
    ensures { OfLog catalog.now opening.now log.entry.version log.entry.header log.entry.records log.entry.ending result ⊎ (result ≡ Err refused.NoMemory) }
{
    check_header(alloc.clone()?, catalog, opening, &log)?;
    let torn = is_torn(log.ending);
    let table = copy_of_table(alloc.clone()?, opening)?;
    audit_records(&alloc, catalog, table, log.records, torn)
}

fn answer<A: Allocator + Copy>(
    alloc: A,
    catalog: &Catalog<A>,
    opening: &Image<A>,
    log_bytes: &[u8],
) -> Result<Audited, AuditError>
    ensures audit { IsAudit catalog.now opening.now log_bytes.now result ⊎ (result ≡ Err refused.NoMemory) }
    ensures no_opening { is_opening opening.now ≡ false → result ≡ Err refused.NotAnOpening }
{
    if !opening.is_opening() {
        return Err(AuditError::NotAnOpening);
    }
    let log = check_log(log_bytes)?;
    audit_log(alloc, catalog, opening, log)
}

/// Checks a log from the image that it began with: that each session's numbers rise, that each token is
/// one that may follow the token before it, and that each call, run whole on the table that those before
/// it left, gives the outcome and replies that the log says. The first record at which one of these
/// fails is answered, of one record in this order.
pub fn audit<A: Allocator + Copy>(
    alloc: A,
    catalog: &Catalog<A>,
    opening: &Image<A>,
    log_bytes: &[u8],
) -> Result<Audited, AuditError>
    ensures answer { IsAudit catalog.now opening.now log_bytes.now result ⊎ (result ≡ Err refused.NoMemory) }
    // A log that passes is legal, orderly and cyclic.
    ensures history { IfOk result (λ _. IsOneHistory catalog.now opening.now log_bytes.now) }
    // Each front of a log that is, of this catalog and opening, passes.
    ensures fronts { FrontsPass catalog.now opening.now log_bytes.now result }
    // There is no other answer.
    ensures only { (r : Result Audited AuditError) → IsAudit catalog.now opening.now log_bytes.now r → (result ≡ r) ⊎ (result ≡ Err refused.NoMemory) }
    ensures no_opening { is_opening opening.now ≡ false → result ≡ Err refused.NotAnOpening }
{
    answer(alloc, catalog, opening, log_bytes)
}
