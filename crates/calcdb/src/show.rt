//! Logs and images in print.

ghost use Rattle.std.specs.Prelude.{◌≡◌, ◌≤◌, ◌↔◌, ◌++◌, IfErr, IsTrue, Ok, OnOk, length};
ghost use Rattle.std.specs.declared.result.Result.{Result};
ghost use Rattle.std.specs.Io.KnownBytes.{Appends};
ghost use Rattle.procedure.specs.Bytes.{Bytes};
ghost use Rattle.commitlog.specs.Records.{Token, record_of};
ghost use Rattle.commitlog.specs.declared.limits.TheConstants.{LOG_RECORDS};
ghost use Rattle.calcdb.specs.Output.{entries_text, entry_text, header_line, image_text};
ghost use Rattle.calcdb.specs.Showing as spec;
ghost use Rattle.calcdb.specs.Showing.{AgreesWithPrint, BreaksOff, HasLogMagic, EndsShow, IsShown, Prints, PrintsImage, PrintsLog, StopsIn, log_text};
ghost use Rattle.calcdb.specs.declared.faults.Reason.{Reason};

use crate::faults::refusals::{refuse, say_no_memory, write_line};
use crate::faults::{Fault, Reason};
use crate::output::{
    phase_name, push_decimal, push_entry, push_header, push_header_line, push_outcome,
    push_replies, push_text, push_value,
};
use commitlog::{Ending, Entry as LogEntry, Record, StoredRecords, Version, check_log};
use image::{CheckedImage, Entry, Image, StoredEntries, check_image};
use phase::Phase;
use procedure::{Call, NoMemory, Value};
use std::alloc::Allocator;
use std::io::Write;

/// Each argument after a space.
fn push_arguments<A: Allocator + Clone, B: Allocator>(
    out: &mut Vec<u8, A>,
    arguments: &[Value<B>],
) -> Result<(), NoMemory>
    ensures { OnOk result (out.new.items ≡ out.old.items ++ spec.arguments_text arguments.now) }
{
    for argument in arguments {
        push_text(out, b" ")?;
        push_value(out, argument.as_bytes())?;
    }
    Ok(())
}

/// A token, after its place.
fn push_token<A: Allocator>(out: &mut Vec<u8, A>, phase: Phase, number: u64) -> Result<(), NoMemory>
    ensures { OnOk result (out.new.items ≡ out.old.items ++ spec.said_text (Token phase number)) }
{
    push_text(out, b" token ")?;
    push_text(out, phase_name(phase))?;
    push_text(out, b" ")?;
    push_decimal(out, number)
}

/// A call, after its place.
fn push_call<A: Allocator, B: Allocator>(
    out: &mut Vec<u8, A>,
    call: &Call<B>,
) -> Result<(), NoMemory>
    ensures { OnOk result (out.new.items ≡ out.old.items ++ spec.call_text call.now.session call.now.number call.now.procedure (length call.now.args)) }
{
    push_text(out, b" call ")?;
    push_decimal(out, u64::from(call.session))?;
    push_text(out, b" ")?;
    push_decimal(out, call.number)?;
    push_text(out, b" ")?;
    push_decimal(out, u64::from(call.procedure))?;
    push_text(out, b" ")?;
    push_decimal(out, call.args.len() as u64)
}

/// What a record says, after its place.
fn push_said<A: Allocator + Clone, B: Allocator>(
    out: &mut Vec<u8, A>,
    entry: &LogEntry<B>,
) -> Result<(), NoMemory>
    ensures { OnOk result (out.new.items ≡ out.old.items ++ spec.said_text (record_of entry.now)) }
{
    match entry {
        LogEntry::Token { phase, number } => push_token(out, *phase, *number),
        LogEntry::Call {
            call,
            outcome,
            replies,
        } => {
            push_call(out, call)?;
            push_arguments(out, call.args.as_slice())?;
            push_outcome(out, *outcome)?;
            push_replies(out, replies.as_slice())
        }
    }
}

/// The line of a record at a place of a log, counted from 0.
fn push_record<A: Allocator + Clone, B: Allocator>(
    out: &mut Vec<u8, A>,
    place: usize,
    found: &Record<B>,
) -> Result<(), NoMemory>
    ensures { OnOk result (out.new.items ≡ out.old.items ++ spec.record_text place found.now) }
{
    push_decimal(out, place as u64)?;
    push_said(out, found.entry())?;
    push_text(out, b"\n")
}

/// How a log ends, to the end of its line.
fn ending_words(ending: Ending) -> &'static [u8]
    ensures { result.now ≡ spec.log_ending_text ending }
{
    match ending {
        Ending::Clean => b" clean\n",
        Ending::Torn => b" torn\n",
    }
}

/// The line of a log: how many records it has, and how it ends.
fn push_count<A: Allocator>(
    out: &mut Vec<u8, A>,
    count: usize,
    ending: Ending,
) -> Result<(), NoMemory>
    ensures { OnOk result (out.new.items ≡ out.old.items ++ spec.count_text count ending) }
{
    push_text(out, b"log records ")?;
    push_decimal(out, count as u64)?;
    push_text(out, ending_words(ending))
}

/// Writes the line of a log.
fn write_count<W: Write, A: Allocator>(
    writer: &mut W,
    line: &mut Vec<u8, A>,
    count: usize,
    ending: Ending,
) -> Result<(), Fault>
    ensures ok { OnOk result (Appends (W.contents writer.old) (W.contents writer.new) (spec.count_text count ending)) }
    ensures err { IfErr result (λ f. StopsIn (spec.count_text count ending) (W.contents writer.old) (W.contents writer.new) f) }
{
    line.clear();
    match push_count(line, count, ending) {
        Ok(()) => write_line(writer, line.as_slice()),
        Err(NoMemory) => Err(say_no_memory(writer)),
    }
}

/// Writes the line of a record.
fn write_record<W: Write, A: Allocator + Clone, B: Allocator>(
    writer: &mut W,
    line: &mut Vec<u8, A>,
    place: usize,
    found: &Record<B>,
) -> Result<(), Fault>
    ensures ok { OnOk result (Appends (W.contents writer.old) (W.contents writer.new) (spec.record_text place found.now)) }
    ensures err { IfErr result (λ f. BreaksOff (spec.record_text place found.now) (W.contents writer.old) (W.contents writer.new) f) }
{
    line.clear();
    push_record(line, place, found)?;
    write_line(writer, line.as_slice())
}

/// Writes the lines of a log's records, each made when its turn comes.
fn write_records<W: Write, A: Allocator + Clone>(
    alloc: &A,
    writer: &mut W,
    line: &mut Vec<u8, A>,
    records: StoredRecords<'_>,
) -> Result<(), Fault>
    requires { length records ≤ LOG_RECORDS }
    ensures ok { OnOk result (Appends (W.contents writer.old) (W.contents writer.new) (spec.records_text 0 records.entry)) }
    ensures err { IfErr result (λ f. BreaksOff (spec.records_text 0 records.entry) (W.contents writer.old) (W.contents writer.new) f) }
{
    let mut records = records;
    let mut place = 0;
    while let Some(found) = records.next(alloc)? {
        write_record(writer, line, place, &found)?;
        place += 1;
    }
    Ok(())
}

/// Writes a log, line by line.
fn write_log<W: Write, A: Allocator + Copy>(
    alloc: A,
    writer: &mut W,
    records: StoredRecords<'_>,
    ending: Ending,
) -> Result<(), Fault>
    ensures ok { OnOk result (Appends (W.contents writer.old) (W.contents writer.new) (log_text records.entry ending)) }
    ensures err { IfErr result (λ f. StopsIn (log_text records.entry ending) (W.contents writer.old) (W.contents writer.new) f) }
{
    let mut line = Vec::new(alloc);
    write_count(writer, &mut line, records.len(), ending)?;
    write_records(&alloc, writer, &mut line, records)
}

/// Writes the line of an entry of an image.
fn write_entry<W: Write, A: Allocator + Clone, B: Allocator>(
    writer: &mut W,
    line: &mut Vec<u8, A>,
    entry: &Entry<B>,
) -> Result<(), Fault>
    ensures ok { OnOk result (Appends (W.contents writer.old) (W.contents writer.new) (entry_text entry.now)) }
    ensures err { IfErr result (λ f. BreaksOff (entry_text entry.now) (W.contents writer.old) (W.contents writer.new) f) }
{
    line.clear();
    push_entry(line, entry)?;
    write_line(writer, line.as_slice())
}

/// Writes the lines of an image's entries.
fn write_entries<W: Write, A: Allocator + Clone, B: Allocator>(
    writer: &mut W,
    line: &mut Vec<u8, A>,
    entries: &[Entry<B>],
) -> Result<(), Fault>
    ensures ok { OnOk result (Appends (W.contents writer.old) (W.contents writer.new) (entries_text entries.now)) }
    ensures err { IfErr result (λ f. BreaksOff (entries_text entries.now) (W.contents writer.old) (W.contents writer.new) f) }
{
    for entry in entries {
        write_entry(writer, line, entry)?;
    }
    Ok(())
}

/// Writes the header line of an image.
fn write_header_line<W: Write, A: Allocator, B: Allocator>(
    writer: &mut W,
    line: &mut Vec<u8, A>,
    image: &Image<B>,
) -> Result<(), Fault>
    ensures ok { OnOk result (Appends (W.contents writer.old) (W.contents writer.new) (header_line image.now)) }
    ensures err { IfErr result (λ f. BreaksOff (header_line image.now) (W.contents writer.old) (W.contents writer.new) f) }
{
    line.clear();
    push_header_line(line, image)?;
    write_line(writer, line.as_slice())
}

/// Writes an image by way of a buffer that has one of its lines at a time. What was in it is lost.
pub(crate) fn write_image_lines<W: Write, A: Allocator + Clone, B: Allocator>(
    writer: &mut W,
    line: &mut Vec<u8, A>,
    image: &Image<B>,
) -> Result<(), Fault>
    ensures ok { OnOk result (Appends (W.contents writer.old) (W.contents writer.new) (image_text image.now)) }
    ensures err { IfErr result (λ f. BreaksOff (image_text image.now) (W.contents writer.old) (W.contents writer.new) f) }
{
    write_header_line(writer, line, image)?;
    write_entries(writer, line, image.entries())
}

/// Writes the lines of an image's entries, each made when its turn comes.
fn write_stored_entries<W: Write, A: Allocator + Copy>(
    alloc: A,
    writer: &mut W,
    line: &mut Vec<u8, A>,
    entries: StoredEntries<'_>,
) -> Result<(), Fault>
    ensures ok { OnOk result (Appends (W.contents writer.old) (W.contents writer.new) (entries_text entries.entry)) }
    ensures err { IfErr result (λ f. BreaksOff (entries_text entries.entry) (W.contents writer.old) (W.contents writer.new) f) }
{
    let mut entries = entries;
    while let Some(entry) = entries.next(alloc)? {
        write_entry(writer, line, &entry)?;
    }
    Ok(())
}

/// Writes the header line of an image that was checked.
fn write_checked_header<W: Write, A: Allocator>(
    writer: &mut W,
    line: &mut Vec<u8, A>,
    image: &CheckedImage<'_>,
) -> Result<(), Fault>
    ensures ok { OnOk result (Appends (W.contents writer.old) (W.contents writer.new) (header_line image.now)) }
    ensures err { IfErr result (λ f. StopsIn (header_line image.now) (W.contents writer.old) (W.contents writer.new) f) }
{
    line.clear();
    let count = image.entries().len() as u64;
    let (kind, number) = (image.kind(), image.number());
    match push_header(line, kind, number, image.base(), image.place(), count) {
        Ok(()) => write_line(writer, line.as_slice()),
        Err(NoMemory) => Err(say_no_memory(writer)),
    }
}

/// Writes an image that was checked, line by line.
fn write_image<W: Write, A: Allocator + Copy>(
    alloc: A,
    writer: &mut W,
    image: &CheckedImage<'_>,
) -> Result<(), Fault>
    ensures ok { OnOk result (Appends (W.contents writer.old) (W.contents writer.new) (image_text image.now)) }
    ensures err { IfErr result (λ f. StopsIn (image_text image.now) (W.contents writer.old) (W.contents writer.new) f) }
{
    let mut line = Vec::new(alloc);
    write_checked_header(writer, &mut line, image)?;
    write_stored_entries(alloc, writer, &mut line, image.entries())
}

/// Shows bytes as a log.
fn show_log<W: Write, A: Allocator + Copy>(
    alloc: A,
    bytes: &[u8],
    writer: &mut W,
) -> Result<(), Fault>
    ensures text { OnOk result ((text : Bytes) × PrintsLog bytes.now (Ok text) × Appends (W.contents writer.old) (W.contents writer.new) text) }
    ensures fault { IfErr result (λ f. EndsShow (PrintsLog bytes.now) (W.contents writer.old) (W.contents writer.new) f) }
    ensures only { (says : Result Bytes Reason) → PrintsLog bytes.now says → AgreesWithPrint result says (W.contents writer.old) (W.contents writer.new) }
{
    match check_log(bytes) {
        Ok(log) => write_log(alloc, writer, log.records, log.ending),
        Err(refused) => {
            let reason = Reason::from(refused);
            Err(refuse(alloc, writer, Fault::Refused(reason)))
        }
    }
}

/// Shows bytes as an image.
fn show_image<W: Write, A: Allocator + Copy>(
    alloc: A,
    bytes: &[u8],
    writer: &mut W,
) -> Result<(), Fault>
    ensures text { OnOk result ((text : Bytes) × PrintsImage bytes.now (Ok text) × Appends (W.contents writer.old) (W.contents writer.new) text) }
    ensures fault { IfErr result (λ f. EndsShow (PrintsImage bytes.now) (W.contents writer.old) (W.contents writer.new) f) }
    ensures only { (says : Result Bytes Reason) → PrintsImage bytes.now says → AgreesWithPrint result says (W.contents writer.old) (W.contents writer.new) }
{
    match check_image(bytes) {
        Ok(image) => write_image(alloc, writer, &image),
        Err(refused) => {
            let reason = Reason::from(refused);
            Err(refuse(alloc, writer, Fault::Refused(reason)))
        }
    }
}

/// Whether the letters of a log stand at the front, of either version.
fn begins_log(bytes: &[u8]) -> bool
    ensures { IsTrue result ↔ HasLogMagic bytes.now }
{
    bytes.starts_with(&Version::One.magic()) || bytes.starts_with(&Version::Two.magic())
}

/// Writes what bytes say, line by line: a log where they begin as one, and else an image. Bytes that are
/// neither are refused with one line; so is a first line that there is no memory for. Without memory for a
/// later one nothing more is written. A write that fails, by an interruption too, and a write of no byte
/// end it.
pub(crate) fn show<W: Write, A: Allocator + Copy>(
    alloc: A,
    bytes: &[u8],
    writer: &mut W,
) -> Result<(), Fault>
    ensures text { OnOk result ((text : Bytes) × IsShown bytes.now text × Appends (W.contents writer.old) (W.contents writer.new) text) }
    // And else the one line of the fault, or a beginning of the text.
    ensures fault { IfErr result (λ f. EndsShow (Prints bytes.now) (W.contents writer.old) (W.contents writer.new) f) }
    // The bytes print nothing else.
    ensures only { (says : Result Bytes Reason) → Prints bytes.now says → AgreesWithPrint result says (W.contents writer.old) (W.contents writer.new) }
{
    if begins_log(bytes) {
        show_log(alloc, bytes, writer)
    } else {
        show_image(alloc, bytes, writer)
    }
}
