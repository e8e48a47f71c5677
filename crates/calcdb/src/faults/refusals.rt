//! Commands that say in one line why they aren't done.

ghost use Rattle.std.specs.Prelude.{◌≡◌, ◌++◌, IfErr, IfOk, OnOk};
ghost use Rattle.std.specs.Io.KnownBytes.{Appends};
ghost use Rattle.calcdb.specs.Outcomes.{HasLine, Refuses, fault_text};
ghost use Rattle.calcdb.specs.Output.{header_line};
ghost use Rattle.calcdb.specs.Reasons.{reason_text};
ghost use Rattle.calcdb.specs.Refusing.{Declines, FailsText, IsSaid, no_memory};
ghost use Rattle.procedure.specs.Streams.{IsBegun};
ghost use Rattle.calcdb.specs.declared.faults.Fault.TheVariants as fault;

use crate::faults::{Fault, Reason};
use crate::output::{push_decimal, push_header_line, push_text};
use image::Image;
use procedure::NoMemory;
use procedure::streams::{WriteFault, write_out};
use std::alloc::Allocator;
use std::io::Write;

/// A reason's name, after what is there.
fn push_reason<A: Allocator + Clone>(line: &mut Vec<u8, A>, reason: Reason) -> Result<(), NoMemory>
    ensures { OnOk result (line.new.items ≡ line.old.items ++ reason_text reason) }
{
    let alloc = line.allocator().clone()?;
    let name = reason.to_string(alloc)?;
    push_text(line, name.as_str().as_bytes())
}

/// The one line of a fault, after what is there; nothing where it has none.
fn push_fault<A: Allocator + Clone>(line: &mut Vec<u8, A>, fault: &Fault) -> Result<(), NoMemory>
    ensures { OnOk result (line.new.items ≡ line.old.items ++ fault_text fault.now) }
{
    match fault {
        Fault::Line(faulty) => {
            push_text(line, b"fault line ")?;
            push_decimal(line, faulty.number)?;
            push_text(line, b"\n")
        }
        Fault::Size => push_text(line, b"fault size\n"),
        Fault::Refused(reason) => {
            push_text(line, b"refused ")?;
            push_reason(line, *reason)?;
            push_text(line, b"\n")
        }
        Fault::Read | Fault::Write | Fault::NoMemory => Ok(()),
    }
}

/// Writes the line of a fault, which is the answer unless that fails.
fn say<W: Write>(writer: &mut W, line: &[u8], fault: Fault) -> Fault
    requires { line.now ≡ fault_text fault }
    ensures { IsSaid fault (W.contents writer.old) (W.contents writer.new) result }
{
    match write_out(writer, line) {
        Ok(()) => fault,
        Err(WriteFault) => Fault::Write,
    }
}

/// Says that there is no memory, which takes none.
pub(crate) fn say_no_memory<W: Write>(writer: &mut W) -> Fault
    ensures { IsSaid no_memory (W.contents writer.old) (W.contents writer.new) result }
{
    say(
        writer,
        b"refused no memory\n",
        Fault::Refused(Reason::NoMemory),
    )
}

/// Writes the one line of a fault, which is the answer unless that fails. Out of memory for it is the
/// answer too, and isn't said.
pub(crate) fn write_fault<W: Write, A: Allocator + Clone>(
    alloc: A,
    writer: &mut W,
    fault: Fault,
) -> Fault
    requires { HasLine fault }
    ensures { Refuses fault (W.contents writer.old) (W.contents writer.new) result }
{
    let mut line = Vec::new(alloc);
    match push_fault(&mut line, &fault) {
        Ok(()) => say(writer, line.as_slice(), fault),
        Err(NoMemory) => Fault::NoMemory,
    }
}

/// Writes the one line of a fault, which is the answer unless that fails. Where there is no memory for
/// it, that is said.
pub(crate) fn refuse<W: Write, A: Allocator + Clone>(
    alloc: A,
    writer: &mut W,
    fault: Fault,
) -> Fault
    ensures { Declines fault (W.contents writer.old) (W.contents writer.new) result }
{
    let mut line = Vec::new(alloc);
    match push_fault(&mut line, &fault) {
        Ok(()) => say(writer, line.as_slice(), fault),
        Err(NoMemory) => say_no_memory(writer),
    }
}

/// Writes the lines of a text; a write that fails is the fault.
pub(crate) fn write_line<W: Write>(writer: &mut W, line: &[u8]) -> Result<(), Fault>
    ensures ok { OnOk result (Appends (W.contents writer.old) (W.contents writer.new) line.now) }
    ensures err { IfErr result (λ f. (f ≡ fault.Write) × IsBegun (W.contents writer.old) (W.contents writer.new) line.now) }
{
    Ok(write_out(writer, line)?)
}

/// Returns an image, once its header line is written. Without memory for that, it is said.
pub(crate) fn with_header<W: Write, A: Allocator>(
    alloc: A,
    writer: &mut W,
    image: Image<A>,
) -> Result<Image<A>, Fault>
    ensures ok { IfOk result (λ i. (i ≡ image) × Appends (W.contents writer.old) (W.contents writer.new) (header_line image)) }
    ensures err { IfErr result (λ f. FailsText (header_line image) (W.contents writer.old) (W.contents writer.new) f) }
{
    let mut line = Vec::new(alloc);
    match push_header_line(&mut line, &image) {
        Ok(()) => {
            write_line(writer, line.as_slice())?;
            Ok(image)
        }
        Err(NoMemory) => Err(say_no_memory(writer)),
    }
}
