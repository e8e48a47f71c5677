//! Tables recovered from the bytes of a script and of a log, and from files of images.

ghost use Rattle.std.specs.Prelude.{◌≡◌, ◌≤◌, ◌⊎◌, ◌++◌, Err, IfErr, IfOk, List, Ok, OnOk, Result};
ghost use Rattle.std.specs.FinMap as finite;
ghost use Rattle.std.specs.Io.KnownBytes.{Appends};
ghost use Rattle.procedure.specs.Bytes.{Bytes};
ghost use Rattle.image.specs.Images.{full_image};
ghost use Rattle.image.specs.declared.limits.TheConstants.{ENTRIES};
ghost use Rattle.replay.specs.Recovery.{Recovery};
ghost use Rattle.calcdb.specs.Merging.{HasTaken};
ghost use Rattle.calcdb.specs.OwnFiles.{FromImageFiles, FromOpeningFile, OfScript, OfSpelled};
ghost use Rattle.calcdb.specs.Reasons.{Tells};
ghost use Rattle.calcdb.specs.Recovering.{AgreesWithRecovery, EndsRecovery, IsRecoveryFault, IsRecovered, OfFiles, recovered_ending_text, recovered_image, recovered_line};
ghost use Rattle.calcdb.specs.Refusing.{FailsAs, no_memory};
ghost use Rattle.calcdb.specs.declared.faults.Fault.{Fault as SpecFault};
ghost use Rattle.calcdb.specs.declared.faults.Reason.{Reason as SpecReason};
ghost use Rattle.calcdb.specs.declared.faults.Reason.TheVariants as reason;

use crate::faults::refusals::{refuse, say_no_memory};
use crate::faults::{Fault, Reason};
use crate::merge_files::Kept;
use crate::output::{push_decimal, push_text};
use crate::scripts::read_catalog;
use image::{Image, OpeningError};
use procedure::streams::{WriteFault, write_out};
use procedure::{Catalog, NoMemory, Table};
use replay::{Recovered, recover_in_turn};
use std::alloc::Allocator;
use std::io::Write;

/// What is recovered by the procedures of a catalog, from what is kept of files of images.
fn recover_with<A: Allocator + Copy>(
    alloc: A,
    catalog: &Catalog<A>,
    log: &[u8],
    kept: Kept<A>,
) -> Result<Recovered<A>, Reason>
    ensures ok { (files : List Bytes) → HasTaken files kept → IfOk result (λ r. OfFiles catalog.now log.now files (Ok r)) }
    ensures few { IfOk result (λ r. finite.len r.state ≤ ENTRIES) }
    ensures err { (files : List Bytes) → HasTaken files kept → IfErr result (λ r. (r ≡ reason.NoMemory) ⊎ OfFiles catalog.now log.now files (Err r)) }
    ensures only { (files : List Bytes) (says : Result Recovery SpecReason) → HasTaken files kept → OfFiles catalog.now log.now files says → Tells (λ r. r) result says }
    ensures spelled { (files : List Bytes) → HasTaken files kept → OfSpelled catalog.now log.now files result }
{
    let merger = kept?;
    Ok(recover_in_turn(alloc, catalog, merger, log)?)
}

/// The one line of what was recovered, after what is there.
fn push_recovered<A: Allocator, B: Allocator>(
    out: &mut Vec<u8, A>,
    recovered: &Recovered<B>,
) -> Result<(), NoMemory>
    ensures { OnOk result (out.new.items ≡ out.old.items ++ recovered_line recovered.now) }
{
    push_text(out, b"recovered calls ")?;
    push_decimal(out, recovered.calls as u64)?;
    push_ending(out, recovered.torn)?;
    push_text(out, b" count ")?;
    push_decimal(out, recovered.state.len() as u64)?;
    push_text(out, b"\n")
}

/// How a log ends.
fn push_ending<A: Allocator>(out: &mut Vec<u8, A>, torn: bool) -> Result<(), NoMemory>
    ensures { OnOk result (out.new.items ≡ out.old.items ++ recovered_ending_text torn) }
{
    if torn {
        push_text(out, b" torn")
    } else {
        push_text(out, b" clean")
    }
}

/// The opening image of a table that has room in one.
fn opening_of<A: Allocator + Copy>(alloc: A, table: Table<A>) -> Result<Image<A>, NoMemory>
    requires { finite.len table ≤ ENTRIES }
    ensures { IfOk result (λ i. i ≡ full_image 0 0 table) }
{
    match Image::opening(alloc, table) {
        Ok(image) => Ok(image),
        Err(OpeningError::TooMany) => unreachable!(),
        Err(OpeningError::NoMemory) => Err(NoMemory),
    }
}

/// The image of what was recovered, and its line.
fn answer_of<A: Allocator + Copy>(
    alloc: A,
    recovered: Recovered<A>,
) -> Result<(Image<A>, Vec<u8, A>), NoMemory>
    requires { finite.len recovered.state ≤ ENTRIES }
    ensures image { IfOk result (λ p. p.0 ≡ recovered_image recovered) }
    ensures line { IfOk result (λ p. p.1.items ≡ recovered_line recovered) }
{
    let mut line = Vec::new(alloc);
    push_recovered(&mut line, &recovered)?;
    let image = opening_of(alloc, recovered.state)?;
    Ok((image, line))
}

/// What is recovered by the procedures of a script, from what is kept of files of images.
fn recover_from<A: Allocator + Copy>(
    alloc: A,
    script: &[u8],
    log: &[u8],
    kept: Kept<A>,
) -> Result<Recovered<A>, Fault>
    ensures ok { (files : List Bytes) → HasTaken files kept → IfOk result (λ r. IsRecovered script.now log.now files (Ok r)) }
    ensures few { IfOk result (λ r. finite.len r.state ≤ ENTRIES) }
    ensures err { (files : List Bytes) → HasTaken files kept → IfErr result (λ f. IsRecoveryFault script.now log.now files f) }
    ensures only { (files : List Bytes) (says : Result Recovery SpecFault) → HasTaken files kept → IsRecovered script.now log.now files says → (result ≡ says) ⊎ (result ≡ Err no_memory) }
    ensures spelled { (files : List Bytes) → HasTaken files kept → OfScript script.now log.now files result }
{
    let catalog = read_catalog(alloc, script)?;
    Ok(recover_with(alloc, &catalog, log, kept)?)
}

/// Writes the line of what was recovered, and returns its image.
fn finish<W: Write, A: Allocator + Copy>(
    alloc: A,
    writer: &mut W,
    recovered: Recovered<A>,
) -> Result<Image<A>, Fault>
    requires { finite.len recovered.state ≤ ENTRIES }
    ensures ok { IfOk result (λ i. (i ≡ recovered_image recovered) × Appends (W.contents writer.old) (W.contents writer.new) (recovered_line recovered)) }
    ensures err { IfErr result (λ f. FailsAs (λ g. g ≡ no_memory) (λ text. text ≡ recovered_line recovered) (W.contents writer.old) (W.contents writer.new) f) }
{
    let (image, line) = match answer_of(alloc, recovered) {
        Ok(answer) => answer,
        Err(NoMemory) => return Err(say_no_memory(writer)),
    };
    match write_out(writer, line.as_slice()) {
        Ok(()) => Ok(image),
        Err(WriteFault) => Err(Fault::Write),
    }
}

/// Recovers a table from a log and from files of images that came one after another, a full one and partial
/// ones in turn, by the procedures of a script, of which the commands aren't looked at. The table is
/// answered as an opening image, and one line says how many calls were run again, whether the log's end was
/// torn, and how many keys there are. The first fault is said in one line and nothing else is written: of
/// the script, of the first image, and then what `recover` refuses; or that there is no memory. A write
/// that fails, by an interruption too, and a write of no byte end it.
pub(crate) fn recover_files<W: Write, A: Allocator + Copy>(
    alloc: A,
    script: &[u8],
    log: &[u8],
    kept: Kept<A>,
    writer: &mut W,
) -> Result<Image<A>, Fault>
    // The image is that of the table, and the line says what was recovered.
    ensures image { (files : List Bytes) → HasTaken files kept → IfOk result (λ i. (r : Recovery) × IsRecovered script.now log.now files (Ok r) × (i ≡ recovered_image r) × Appends (W.contents writer.old) (W.contents writer.new) (recovered_line r)) }
    // And else the one line of the fault, or a beginning of a line.
    ensures fault { (files : List Bytes) → HasTaken files kept → IfErr result (λ f. EndsRecovery script.now log.now files (W.contents writer.old) (W.contents writer.new) f) }
    // The files say no other thing.
    ensures only { (files : List Bytes) (says : Result Recovery SpecFault) → HasTaken files kept → IsRecovered script.now log.now files says → AgreesWithRecovery result says }
    // Of the files that a history left: its table, from the opening and from images of its checkpoints.
    ensures opening { (files : List Bytes) → HasTaken files kept → FromOpeningFile script.now log.now files result }
    ensures images { (files : List Bytes) → HasTaken files kept → FromImageFiles script.now log.now files result }
{
    match recover_from(alloc, script, log, kept) {
        Ok(recovered) => finish(alloc, writer, recovered),
        Err(fault) => Err(refuse(alloc, writer, fault)),
    }
}
