//! The folder of a run: the images and the log that are written at its end.

ghost use Rattle.std.specs.Prelude.{◌≡◌, ◌≤◌, ◌∷◌, [], IfErr, IfOk, OnOk, IfSome, Ok, length, map};
ghost use Rattle.commitlog.specs.LogBytes.{log_bytes};
ghost use Rattle.commitlog.specs.declared.formats.Version.TheVariants.{Two};
ghost use Rattle.commitlog.specs.declared.limits.TheConstants.{LOG_RECORDS};
ghost use Rattle.image.specs.ImageBytes.{version_2};
ghost use Rattle.sha2.specs.Sha256.{sha256};
ghost use Rattle.calcdb.specs.RunFiles.{Makes, MakesFront, image_file, run_files};
ghost use Rattle.calcdb.specs.declared.faults.failures.RunFile.TheVariants as name;

use crate::digesting::{Digesting, Telling};
use crate::engine::RanWithImages;
use crate::faults::failures::RunFile;
use commitlog::{LogHeader, Record, encode_to};
use image::{Image, seal_to};
use procedure::NoMemory;
use procedure::streams::WriteError;
use std::alloc::Allocator;

/// A folder in which the files of a run are made, by what a runtime gives.
pub(crate) trait RunFolder<R>: Sized {
    ghost use Rattle.std.specs.Prelude.{◌≡◌, [], IfErr, IfOk, List, Option, Ok};
    ghost use Rattle.calcdb.specs.RunFiles.{File as MadeFile, HasBegun, Makes, MakesOf};
    ghost use Rattle.calcdb.specs.declared.faults.failures.RunFile.{RunFile as Name};

    /// Why a file isn't made.
    type Failure: From<NoMemory> + Drop;

    /// Where a file goes.
    type Place: Drop;

    /// The bytes of a file.
    type File: Telling + Drop;

    /// The files that were made, in order, where that is known.
    ghost made: { Self → Option (List MadeFile) };

    /// The name that the file has there.
    ghost takes: { Self.Place → Name → Type 0 };

    /// Begins a file.
    fn begin(&mut self, rt: &R, name: RunFile) -> Result<(Self::Place, Self::File), Self::Failure>
        ensures named { IfOk result (λ new. takes new.0 name) }
        ensures begun { IfOk result (λ new. HasBegun (made self.new) (Self.File.contents new.1)) }
        ensures same { Makes (made self.old) (made self.new) [] };

    /// Makes a file of what was written to it, where that is all, and else leaves none.
    fn end<T: Drop>(
        &mut self,
        rt: &R,
        place: Self::Place,
        file: Self::File,
        written: Result<T, WriteError>,
    ) -> Result<T, Self::Failure>
        ensures ok { IfOk result (λ value. written ≡ Ok value) }
        ensures made { (name : Name) → takes place name → IfOk result (λ _. MakesOf (made self.old) (made self.new) name (Self.File.contents file)) }
        ensures err { IfErr result (λ _. Makes (made self.old) (made self.new) []) };
}

/// Makes the file of an image.
pub(crate) fn make_image<R, F: RunFolder<R>, A: Allocator>(
    alloc: A,
    rt: &R,
    folder: &mut F,
    image: &Image<A>,
) -> Result<(), F::Failure>
    ensures ok { OnOk result (Makes (F.made folder.old) (F.made folder.new) (image_file image.now ∷ [])) }
    ensures err { IfErr result (λ _. Makes (F.made folder.old) (F.made folder.new) []) }
{
    let (place, mut file) = folder.begin(rt, RunFile::Image(image.number()))?;
    let written = seal_to(alloc, &mut file, image);
    folder.end(rt, place, file, written)?;
    Ok(())
}

/// Makes the file of each image, in order.
fn make_images<R, F: RunFolder<R>, A: Allocator + Copy>(
    alloc: A,
    rt: &R,
    folder: &mut F,
    images: &[Image<A>],
) -> Result<(), F::Failure>
    ensures ok { OnOk result (Makes (F.made folder.old) (F.made folder.new) (map image_file images.now)) }
    ensures err { IfErr result (λ _. MakesFront (F.made folder.old) (F.made folder.new) (map image_file images.now)) }
{
    for image in images {
        make_image(alloc, rt, folder, image)?;
    }
    Ok(())
}

/// Makes the file of the opening, and returns the digest of its bytes.
pub(crate) fn make_opening<R, F: RunFolder<R>, A: Allocator>(
    alloc: A,
    rt: &R,
    folder: &mut F,
    opening: &Image<A>,
) -> Result<[u8; 32], F::Failure>
    ensures ok { IfOk result (λ _. Makes (F.made folder.old) (F.made folder.new) ((name.Image 0, version_2 opening.now) ∷ [])) }
    ensures digest { IfOk result (λ digest. IfSome (F.made folder.old) (λ _. digest ≡ sha256 (version_2 opening.now))) }
    ensures err { IfErr result (λ _. Makes (F.made folder.old) (F.made folder.new) []) }
{
    let (place, file) = folder.begin(rt, RunFile::Image(0))?;
    let mut digesting = Digesting::new(file);
    let written = seal_to(alloc, &mut digesting, opening);
    let (file, digest) = digesting.into_parts();
    folder.end(rt, place, file, written)?;
    Ok(digest)
}

/// Makes the file of the log.
fn make_log<R, F: RunFolder<R>, A: Allocator>(
    alloc: A,
    rt: &R,
    folder: &mut F,
    header: &LogHeader,
    records: &[Record<A>],
) -> Result<(), F::Failure>
    requires { length records.now ≤ LOG_RECORDS }
    ensures ok { OnOk result (Makes (F.made folder.old) (F.made folder.new) ((name.Log, log_bytes Two header.now records.now) ∷ [])) }
    ensures err { IfErr result (λ _. Makes (F.made folder.old) (F.made folder.new) []) }
{
    let (place, mut file) = folder.begin(rt, RunFile::Log)?;
    let written = encode_to(alloc, &mut file, header, records);
    folder.end(rt, place, file, written)?;
    Ok(())
}

/// Writes a run into a folder: its opening as image 0, each image that it took by its number, and its log. After
/// a file that can't be made there is no other.
pub(crate) fn write_run<R, F: RunFolder<R>, A: Allocator + Copy>(
    alloc: A,
    rt: &R,
    folder: &mut F,
    ran: &RanWithImages<A>,
) -> Result<(), F::Failure>
    ensures ok { OnOk result (Makes (F.made folder.old) (F.made folder.new) (run_files ran.now.core ran.now.images.items)) }
    ensures err { IfErr result (λ _. MakesFront (F.made folder.old) (F.made folder.new) (run_files ran.now.core ran.now.images.items)) }
{
    let opening = make_opening(alloc, rt, folder, ran.core.opening())?;
    make_images(alloc, rt, folder, ran.images.as_slice())?;
    let catalog = ran.core.catalog().digest()?;
    let header = LogHeader { catalog, opening };
    make_log(alloc, rt, folder, &header, ran.core.records())
}
