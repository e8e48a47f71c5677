//! A table recovered from images and a log.

ghost use Rattle.std.specs.Prelude.{◌≡◌, ◌≤◌, ◌⊎◌, ◌↔◌, Err, IfErr, IfOk, IsTrue, List, Ok, OnOk, length};
ghost use Rattle.std.specs.FinMap as finite;
ghost use Rattle.std.specs.declared.result.Result.{Result};
ghost use Rattle.phase.specs.declared.phases.Phase.TheVariants.{Resolve};
ghost use Rattle.commitlog.specs.Records.{Token, record_of};
ghost use Rattle.commitlog.specs.declared.limits.TheConstants.{LOG_RECORDS};
ghost use Rattle.commitlog.specs.LogReadings.{IsReading};
ghost use Rattle.image.specs.Images.{Image as SpecImage};
ghost use Rattle.image.specs.Mergers.{after};
ghost use Rattle.image.specs.Merges.{table_of};
ghost use Rattle.image.specs.declared.limits.TheConstants.{ENTRIES};
ghost use Rattle.replay.specs.Parts.{Chained, RunAgain, at_place};
ghost use Rattle.replay.specs.Promises.{FromImages, FromOpening};
ghost use Rattle.replay.specs.Recovery.{BeginsLog, GoesOn, IsPlaced, IsRecovery, OfLog, Recovery, chain_of};
ghost use Rattle.replay.specs.Replays.{is_torn};
ghost use Rattle.replay.specs.declared.errors.RecoverError.{RecoverError};
ghost use Rattle.replay.specs.declared.errors.RecoverError.TheVariants as refused;

use crate::calls::{CallError, calls_of, run_entry};
use crate::errors::RecoverError;
use crate::headers::{names_catalog, names_opening};
use crate::tables::into_table;
use commitlog::records::Entry;
use commitlog::{CheckedLog, Ending, StoredRecords, check_log};
use image::{Image, Merger, merge};
use phase::Phase;
use procedure::{Catalog, NoMemory, Table};
use std::alloc::Allocator;
use std::marker::Model;

/// What was recovered.
#[derive(Debug, Drop)]
pub struct Recovered<A: Allocator> {
    /// The table after the log's records.
    pub state: Table<A>,
    /// How many calls were run.
    pub calls: usize,
    /// Whether less than a record stood at the log's end.
    pub torn: bool,
}

impl<A: Allocator> Model for Recovered<A> {
    ghost use Rattle.replay.specs.Recovery.{Recovery};

    ghost Value = { Recovery };

    ghost use Rattle.replay.specs.Recovery.{recovery_code};

    ghost coded = { recovery_code };

    ghost view = { λ r. record { state = r.state; calls = r.calls; torn = r.torn } };
}

/// The images as one.
fn chain_of<A: Allocator + Clone>(alloc: A, images: &[Image<A>]) -> Result<Image<A>, RecoverError>
    ensures { Chained images.now result }
{
    match images.split_first() {
        Some((full, partials)) => Ok(merge(alloc, full, partials)?),
        None => Err(RecoverError::NotFull),
    }
}

/// The images that came one after another as one.
fn chain_in_turn<A: Allocator + Clone>(
    alloc: A,
    merger: Merger<A>,
) -> Result<Image<A>, RecoverError>
    ensures { (images : List SpecImage) → merger ≡ after images → Chained images result }
{
    Ok(merger.finish(alloc)?)
}

/// Whether a record is the resolve token of this number.
fn resolves<A: Allocator>(entry: &Entry<A>, number: u64) -> bool
    ensures { IsTrue result ↔ (record_of entry.now ≡ Token Resolve number) }
{
    match entry {
        Entry::Token {
            phase,
            number: found,
        } => *phase == Phase::Resolve && *found == number,
        Entry::Call { .. } => false,
    }
}

/// Whether at the place of a checkpoint's image stands its resolve token.
fn is_placed<A: Allocator + Clone>(
    alloc: &A,
    records: &StoredRecords<'_>,
    image: &Image<A>,
) -> Result<bool, NoMemory>
    ensures { IfOk result (λ b. IsTrue b ↔ IsPlaced records.now image.now) }
{
    let mut records = records.from_place(image.place() as usize);
    match records.next(alloc)? {
        Some(found) => Ok(resolves(found.entry(), image.number())),
        None => Ok(false),
    }
}

/// Whether the log began with an image of number 0.
fn begins_log<A: Allocator>(
    alloc: A,
    log: &CheckedLog<'_>,
    image: &Image<A>,
) -> Result<bool, NoMemory>
    ensures { IfOk result (λ b. IsTrue b ↔ BeginsLog log.now.version log.now.header image.now) }
{
    Ok(image.place() == 0 && names_opening(alloc, log.version, &log.header, image)?)
}

/// Whether the log is one of the catalog, and goes on where the image ends.
fn check_start<A: Allocator + Clone>(
    alloc: A,
    catalog: &Catalog<A>,
    image: &Image<A>,
    log: &CheckedLog<'_>,
) -> Result<(), RecoverError>
    ensures ok { OnOk result (GoesOn catalog.now image.now log.now.version log.now.header log.now.records) }
    ensures err { IfErr result (λ e. OfLog catalog.now image.now log.now.version log.now.header log.now.records log.now.ending (Err e) ⊎ (e ≡ refused.NoMemory)) }
{
    if !names_catalog(&log.header, catalog)? {
        return Err(RecoverError::WrongCatalog);
    }
    if image.number() == 0 {
        if !begins_log(alloc, log, image)? {
            return Err(RecoverError::WrongOpening);
        }
    } else if !is_placed(&alloc, &log.records, image)? {
        return Err(RecoverError::PlaceOutside);
    }
    Ok(())
}

fn refusal_at(stopped: CallError, place: usize) -> RecoverError
    ensures { result ≡ at_place stopped place }
{
    match stopped {
        CallError::Diverged => RecoverError::Diverged(place),
        CallError::TooMany => RecoverError::TooMany,
        CallError::NoMemory => RecoverError::NoMemory,
    }
}

/// Runs the records from a place on, each after the one before it.
fn run_again<A: Allocator + Clone>(
    alloc: &A,
    catalog: &Catalog<A>,
    table: Table<A>,
    from: usize,
    records: &StoredRecords<'_>,
    torn: bool,
) -> Result<Recovered<A>, RecoverError>
    requires { length records.now ≤ LOG_RECORDS }
    ensures { RunAgain catalog.now table from records.now torn result }
{
    let mut records = records.from_place(from);
    let mut table = table;
    let mut calls = 0;
    let mut place = from;
    while let Some(made) = records.next(alloc)? {
        let entry = made.into_entry();
        calls += calls_of(&entry);
        match run_entry(alloc.clone()?, catalog, entry, table) {
            Ok(after) => table = after,
            Err(stopped) => return Err(refusal_at(stopped, place)),
        }
        place += 1;
    }
    Ok(Recovered {
        state: table,
        calls,
        torn,
    })
}

pub(crate) fn is_torn(ending: Ending) -> bool
    ensures { result ≡ is_torn ending }
{
    match ending {
        Ending::Clean => false,
        Ending::Torn => true,
    }
}

/// What is recovered from an image and a log.
fn recover_log<A: Allocator + Copy>(
    alloc: A,
    catalog: &Catalog<A>,
    image: Image<A>,
    log: &CheckedLog<'_>,
) -> Result<Recovered<A>, RecoverError>
    requires { length log.now.records ≤ LOG_RECORDS }
    ensures answer { OfLog catalog.now image log.now.version log.now.header log.now.records log.now.ending result ⊎ (result ≡ Err refused.NoMemory) }
    ensures few { IfOk result (λ r. finite.len r.state ≤ ENTRIES) }
{
    check_start(alloc.clone()?, catalog, &image, log)?;
    let from = image.place() as usize;
    let torn = is_torn(log.ending);
    let table = into_table(alloc.clone()?, image)?;
    run_again(&alloc, catalog, table, from, &log.records, torn)
}

/// What is recovered from images that were put together, or weren't, and a log.
fn answer<A: Allocator + Copy>(
    alloc: A,
    catalog: &Catalog<A>,
    chain: Result<Image<A>, RecoverError>,
    log_bytes: &[u8],
) -> Result<Recovered<A>, RecoverError>
    ensures answer { (images : List SpecImage) → Chained images chain → IsRecovery catalog.now images log_bytes.now result ⊎ (result ≡ Err refused.NoMemory) }
    ensures few { IfOk result (λ r. finite.len r.state ≤ ENTRIES) }
{
    let image = chain?;
    let log = check_log(log_bytes)?;
    recover_log(alloc, catalog, image, &log)
}

/// The table after a log's whole records: images that stand on one another are put together, and the
/// calls that they don't cover are run again, each on the table that those before it left. The log is
/// checked first, and then each record that is not covered is made when its turn comes. A call costs what
/// it executes, whatever the size of the table.
///
/// The image of number 0 is the one that the log began with, spelled in the image format of the log's
/// version; at the place of any other stands the token by which its checkpoint was cut. A call that
/// gives something else than the log says is refused with its place, so nothing is trusted but the
/// images and which calls there were.
pub fn recover<A: Allocator + Copy>(
    alloc: A,
    catalog: &Catalog<A>,
    images: &[Image<A>],
    log_bytes: &[u8],
) -> Result<Recovered<A>, RecoverError>
    ensures answer { IsRecovery catalog.now images.now log_bytes.now result ⊎ (result ≡ Err refused.NoMemory) }
    // From the opening alone, of each front of a log that was written from it on.
    ensures opening { FromOpening catalog.now images.now log_bytes.now result }
    // From images of its checkpoints, of each front that holds the last one's cut.
    ensures images { FromImages catalog.now images.now log_bytes.now result }
    // There is no other answer.
    ensures only { (r : Result Recovery RecoverError) → IsRecovery catalog.now images.now log_bytes.now r → (result ≡ r) ⊎ (result ≡ Err refused.NoMemory) }
{
    answer(alloc, catalog, chain_of(alloc, images), log_bytes)
}

/// As `recover`, from images that came one after another, so that none of them is kept but in what the
/// merger has of all.
pub fn recover_in_turn<A: Allocator + Copy>(
    alloc: A,
    catalog: &Catalog<A>,
    merger: Merger<A>,
    log_bytes: &[u8],
) -> Result<Recovered<A>, RecoverError>
    ensures answer { (images : List SpecImage) → merger ≡ after images → IsRecovery catalog.now images log_bytes.now result ⊎ (result ≡ Err refused.NoMemory) }
    // From the opening alone, of each front of a log that was written from it on.
    ensures opening { (images : List SpecImage) → merger ≡ after images → FromOpening catalog.now images log_bytes.now result }
    // From images of its checkpoints, of each front that holds the last one's cut.
    ensures images { (images : List SpecImage) → merger ≡ after images → FromImages catalog.now images log_bytes.now result }
    // There is no other answer.
    ensures only { (images : List SpecImage) (r : Result Recovery RecoverError) → merger ≡ after images → IsRecovery catalog.now images log_bytes.now r → (result ≡ r) ⊎ (result ≡ Err refused.NoMemory) }
    // The table has room in an image.
    ensures few { IfOk result (λ r. finite.len r.state ≤ ENTRIES) }
{
    answer(alloc, catalog, chain_in_turn(alloc, merger), log_bytes)
}
