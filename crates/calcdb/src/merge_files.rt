//! The merge of files of images.

ghost use Rattle.std.specs.Prelude.{◌≡◌, ◌⊎◌, ◌++◌, [], ◌∷◌, Err, IfErr, IfOk, List, Ok, map};
ghost use Rattle.std.specs.declared.result.Result.{Result};
ghost use Rattle.std.specs.Io.KnownBytes.{Appends};
ghost use Rattle.procedure.specs.Bytes.{Bytes};
ghost use Rattle.image.specs.Images.{Image as SpecImage};
ghost use Rattle.calcdb.specs.Merging.{EndsMerge, HasTaken, IsMerge};
ghost use Rattle.calcdb.specs.Output.{header_line};
ghost use Rattle.calcdb.specs.Reasons.{Tells};
ghost use Rattle.calcdb.specs.Refusing.{Suits};
ghost use Rattle.calcdb.specs.declared.faults.Reason.{Reason};
ghost use Rattle.calcdb.specs.declared.faults.Reason.TheVariants as reason;

use crate::faults::refusals::{refuse, with_header};
use crate::faults::{Fault, Reason};
use image::{Image, Merger, read_image};
use std::alloc::Allocator;
use std::io::Write;

/// What is kept of files of images that are merged one after another, or why the first of them is refused
/// that spells no image.
pub(crate) type Kept<A> = Result<Merger<A>, Reason>;

/// What is kept before the first file.
pub(crate) fn before_files<A: Allocator>(alloc: A) -> Kept<A>
    ensures { HasTaken [] result }
{
    Ok(Merger::new(alloc))
}

/// What is kept with one more file, which holds the bytes of an image in either version. Of a file after
/// one that is refused nothing is looked at.
pub(crate) fn with_file<A: Allocator + Copy>(alloc: A, kept: Kept<A>, file: &[u8]) -> Kept<A>
    ensures { (files : List Bytes) → HasTaken files kept → HasTaken (files ++ file.now ∷ []) result }
{
    let merger = kept?;
    let image = read_image(alloc, file)?;
    Ok(merger.push(image)?)
}

/// What the files say as one.
fn merged<A: Allocator + Copy>(alloc: A, kept: Kept<A>) -> Result<Image<A>, Reason>
    ensures ok { (files : List Bytes) → HasTaken files kept → IfOk result (λ i. IsMerge files (Ok i)) }
    ensures err { (files : List Bytes) → HasTaken files kept → IfErr result (λ r. (r ≡ reason.NoMemory) ⊎ IsMerge files (Err r)) }
    ensures only { (files : List Bytes) (says : Result SpecImage Reason) → HasTaken files kept → IsMerge files says → Tells (λ i. i) result says }
{
    let merger = kept?;
    Ok(merger.finish(alloc)?)
}

/// Ends a merge of files that came one after another; returns the merged image, and writes its header
/// line. Where a file is refused, or else the merge, or there is no memory, one line says so and nothing
/// else is written. A write that fails, by an interruption too, and a write of no byte end it.
pub(crate) fn end_merge<W: Write, A: Allocator + Copy>(
    alloc: A,
    kept: Kept<A>,
    writer: &mut W,
) -> Result<Image<A>, Fault>
    // The image is the merge of what the files spell, and its header was written.
    ensures image { (files : List Bytes) → HasTaken files kept → IfOk result (λ i. IsMerge files (Ok i) × Appends (W.contents writer.old) (W.contents writer.new) (header_line i)) }
    // And else the one line of the fault, or a beginning of a line.
    ensures fault { (files : List Bytes) → HasTaken files kept → IfErr result (λ f. EndsMerge files (W.contents writer.old) (W.contents writer.new) f) }
    // There is no other answer.
    ensures only_image { (files : List Bytes) (says : Result SpecImage Reason) → HasTaken files kept → IsMerge files says → IfOk result (λ i. says ≡ Ok i) }
    ensures only_fault { (files : List Bytes) (says : Result SpecImage Reason) → HasTaken files kept → IsMerge files says → IfErr result (λ f. Suits f says) }
{
    match merged(alloc, kept) {
        Ok(image) => with_header(alloc, writer, image),
        Err(reason) => Err(refuse(alloc, writer, Fault::Refused(reason))),
    }
}

/// Merges files of images, a full one and then partial ones with it as base, in turn, as `end_merge` does.
pub(crate) fn merge_files<W: Write, A: Allocator + Copy>(
    alloc: A,
    images: &[Vec<u8, A>],
    writer: &mut W,
) -> Result<Image<A>, Fault>
    // The image is the merge of what the files spell, and its header was written.
    ensures image { IfOk result (λ i. IsMerge (map (λ f. f.items) images.now) (Ok i) × Appends (W.contents writer.old) (W.contents writer.new) (header_line i)) }
    // And else the one line of the fault, or a beginning of a line.
    ensures fault { IfErr result (λ f. EndsMerge (map (λ f. f.items) images.now) (W.contents writer.old) (W.contents writer.new) f) }
    // There is no other answer.
    ensures only_image { (says : Result SpecImage Reason) → IsMerge (map (λ f. f.items) images.now) says → IfOk result (λ i. says ≡ Ok i) }
    ensures only_fault { (says : Result SpecImage Reason) → IsMerge (map (λ f. f.items) images.now) says → IfErr result (λ f. Suits f says) }
{
    let mut kept = before_files(alloc);
    for image in images {
        kept = with_file(alloc, kept, image.as_slice());
    }
    end_merge(alloc, kept, writer)
}
