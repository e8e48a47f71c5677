//! Printed values and answers.

ghost use Rattle.std.specs.Prelude.{◌≡◌, ◌++◌, OnOk, codes, decimal};
ghost use Rattle.hex.specs.Hex.{encode_lower};
ghost use Rattle.phase.specs.Phases.{phase_text};
ghost use Rattle.calcdb.specs.Lines.{all_pass};
ghost use Rattle.calcdb.specs.Output as spec;

use byteorder::{BigEndian, ByteOrder};
use image::{Entry, Image, Kind};
use itoa::Buffer;
use phase::Phase;
use procedure::outcomes::COMMITTED;
use procedure::{NoMemory, Value};
use std::alloc::Allocator;

/// Whether each byte has a sign: from `!` to `~`.
fn is_graphic(bytes: &[u8]) -> bool
    ensures { result ≡ all_pass spec.is_graphic bytes.now }
{
    for byte in bytes {
        if !matches!(*byte, b'!'..=b'~') {
            return false;
        }
    }
    true
}

/// A text, after what is there.
#[inline(always)]
pub(crate) fn push_text<A: Allocator>(out: &mut Vec<u8, A>, text: &[u8]) -> Result<(), NoMemory>
    ensures { OnOk result (out.new.items ≡ out.old.items ++ text.now) }
{
    out.extend_from_slice(text)?;
    Ok(())
}

#[inline(always)]
fn push_line_feed<A: Allocator>(out: &mut Vec<u8, A>) -> Result<(), NoMemory>
    ensures { OnOk result (out.new.items ≡ out.old.items ++ codes "\n") }
{
    out.push(b'\n')?;
    Ok(())
}

/// A number's decimal digits, without zeros in front.
#[inline(always)]
pub(crate) fn push_decimal<A: Allocator>(out: &mut Vec<u8, A>, number: u64) -> Result<(), NoMemory>
    ensures { OnOk result (out.new.items ≡ out.old.items ++ decimal number) }
{
    let mut buffer = Buffer::new();
    push_text(out, buffer.format(number).as_bytes())
}

fn push_hex<A: Allocator + Clone>(out: &mut Vec<u8, A>, bytes: &[u8]) -> Result<(), NoMemory>
    ensures { OnOk result (out.new.items ≡ out.old.items ++ encode_lower bytes.now) }
{
    let alloc = out.allocator().clone()?;
    let digits = hex::encode(alloc, bytes)?;
    push_text(out, digits.as_str().as_bytes())
}

/// A value: `#` and a number, of 8 bytes; else `'` and the bytes, where each has a sign; else `x` and
/// hexadecimal digits.
#[tactic(auto, unfolding(crate::specs::Output::value_text))]
#[inline(always)]
pub(crate) fn push_value<A: Allocator + Clone>(
    out: &mut Vec<u8, A>,
    value: &[u8],
) -> Result<(), NoMemory>
    ensures { OnOk result (out.new.items ≡ out.old.items ++ spec.value_text value.now) }
{
    if value.len() == 8 {
        push_text(out, b"#")?;
        push_decimal(out, BigEndian::read_u64(value))
    } else if is_graphic(value) {
        push_text(out, b"'")?;
        push_text(out, value)
    } else {
        push_text(out, b"x")?;
        push_hex(out, value)
    }
}

/// A value, or `-`.
#[inline(always)]
pub(crate) fn push_cell<A: Allocator + Clone, B: Allocator>(
    out: &mut Vec<u8, A>,
    cell: &Option<Value<B>>,
) -> Result<(), NoMemory>
    ensures { OnOk result (out.new.items ≡ out.old.items ++ spec.cell_text cell.now) }
{
    match cell {
        Some(value) => push_value(out, value.as_bytes()),
        None => push_text(out, b"-"),
    }
}

/// Each reply after a space.
#[inline(always)]
pub(crate) fn push_replies<A: Allocator + Clone, B: Allocator>(
    out: &mut Vec<u8, A>,
    replies: &[Option<Value<B>>],
) -> Result<(), NoMemory>
    ensures { OnOk result (out.new.items ≡ out.old.items ++ spec.replies_text replies.now) }
{
    for reply in replies {
        push_text(out, b" ")?;
        push_cell(out, reply)?;
    }
    Ok(())
}

#[inline(always)]
pub(crate) fn push_outcome<A: Allocator>(out: &mut Vec<u8, A>, outcome: u8) -> Result<(), NoMemory>
    ensures { OnOk result (out.new.items ≡ out.old.items ++ spec.outcome_text outcome) }
{
    if outcome == COMMITTED {
        push_text(out, b" committed")
    } else {
        push_text(out, b" aborted ")?;
        push_decimal(out, u64::from(outcome))
    }
}

/// The name of a phase.
pub(crate) fn phase_name(phase: Phase) -> &'static [u8]
    ensures { result.now ≡ phase_text phase }
{
    match phase {
        Phase::Rest => b"rest",
        Phase::Prepare => b"prepare",
        Phase::Resolve => b"resolve",
        Phase::Capture => b"capture",
        Phase::Complete => b"complete",
    }
}

/// The line of a call that was finished: its place in the log, its outcome, and its replies.
pub(crate) fn push_answer<A: Allocator + Clone, B: Allocator>(
    out: &mut Vec<u8, A>,
    place: u64,
    outcome: u8,
    replies: &[Option<Value<B>>],
) -> Result<(), NoMemory>
    ensures { OnOk result (out.new.items ≡ out.old.items ++ spec.answer_text place outcome replies.now) }
{
    push_text(out, b"place ")?;
    push_decimal(out, place)?;
    push_outcome(out, outcome)?;
    push_replies(out, replies)?;
    push_line_feed(out)
}

/// The line of a refusal.
pub(crate) fn push_refusal<A: Allocator>(out: &mut Vec<u8, A>, name: &[u8]) -> Result<(), NoMemory>
    ensures { OnOk result (out.new.items ≡ out.old.items ++ spec.refused_text name.now) }
{
    push_text(out, b"refused ")?;
    push_text(out, name)?;
    push_text(out, b"\n")
}

/// The line of an entry of an image: the key, and its value or `gone`.
pub(crate) fn push_entry<A: Allocator + Clone, B: Allocator>(
    out: &mut Vec<u8, A>,
    entry: &Entry<B>,
) -> Result<(), NoMemory>
    ensures { OnOk result (out.new.items ≡ out.old.items ++ spec.entry_text entry.now) }
{
    push_value(out, entry.key.as_bytes())?;
    match &entry.cell {
        Some(value) => {
            push_text(out, b" ")?;
            push_value(out, value.as_bytes())?;
            push_text(out, b"\n")
        }
        None => push_text(out, b" gone\n"),
    }
}

/// The line of a key.
pub(crate) fn push_key<A: Allocator + Clone>(
    out: &mut Vec<u8, A>,
    key: &[u8],
) -> Result<(), NoMemory>
    ensures { OnOk result (out.new.items ≡ out.old.items ++ spec.key_text key.now) }
{
    push_text(out, b"key ")?;
    push_value(out, key)?;
    push_text(out, b"\n")
}

fn push_entries<A: Allocator + Clone, B: Allocator>(
    out: &mut Vec<u8, A>,
    entries: &[Entry<B>],
) -> Result<(), NoMemory>
    ensures { OnOk result (out.new.items ≡ out.old.items ++ spec.entries_text entries.now) }
{
    for entry in entries {
        push_entry(out, entry)?;
    }
    Ok(())
}

fn push_kind<A: Allocator>(out: &mut Vec<u8, A>, kind: Kind) -> Result<(), NoMemory>
    ensures { OnOk result (out.new.items ≡ out.old.items ++ spec.kind_text kind) }
{
    match kind {
        Kind::Full => push_text(out, b"image full "),
        Kind::Partial => push_text(out, b"image partial "),
    }
}

/// The end of a header line: the place of an image, and how many entries it has.
fn push_place<A: Allocator>(out: &mut Vec<u8, A>, place: u64, count: u64) -> Result<(), NoMemory>
    ensures { OnOk result (out.new.items ≡ out.old.items ++ spec.place_text place count) }
{
    push_text(out, b" place ")?;
    push_decimal(out, place)?;
    push_text(out, b" count ")?;
    push_decimal(out, count)?;
    push_text(out, b"\n")
}

/// The header line of an image with these parts.
pub(crate) fn push_header<A: Allocator>(
    out: &mut Vec<u8, A>,
    kind: Kind,
    number: u64,
    base: u64,
    place: u64,
    count: u64,
) -> Result<(), NoMemory>
    ensures { OnOk result (out.new.items ≡ out.old.items ++ spec.header_text kind number base place count) }
{
    push_kind(out, kind)?;
    push_decimal(out, number)?;
    push_text(out, b" base ")?;
    push_decimal(out, base)?;
    push_place(out, place, count)
}

/// The header line of an image.
pub(crate) fn push_header_line<A: Allocator, B: Allocator>(
    out: &mut Vec<u8, A>,
    image: &Image<B>,
) -> Result<(), NoMemory>
    ensures { OnOk result (out.new.items ≡ out.old.items ++ spec.header_line image.now) }
{
    push_header(
        out,
        image.kind(),
        image.number(),
        image.base(),
        image.place(),
        image.entries().len() as u64,
    )
}

/// The header line of an image, and a line for each entry.
pub(crate) fn push_image<A: Allocator + Clone, B: Allocator>(
    out: &mut Vec<u8, A>,
    image: &Image<B>,
) -> Result<(), NoMemory>
    ensures { OnOk result (out.new.items ≡ out.old.items ++ spec.image_text image.now) }
{
    push_header_line(out, image)?;
    push_entries(out, image.entries())
}

/// A line of a word and a number.
pub(crate) fn push_numbered<A: Allocator>(
    out: &mut Vec<u8, A>,
    word: &[u8],
    number: u64,
) -> Result<(), NoMemory>
    ensures { OnOk result (out.new.items ≡ out.old.items ++ spec.numbered_text word.now number) }
{
    push_text(out, word)?;
    push_decimal(out, number)?;
    push_text(out, b"\n")
}
