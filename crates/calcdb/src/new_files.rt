//! Files that take their name when they are whole. A full disk, a refused growth or a stop in the middle of a
//! write leaves what had the name before.

ghost use Rattle.std.specs.Prelude.{◌≡◌, ◌⊎◌, Err, IfErr, IfOk, None, Ok};
ghost use Rattle.procedure.specs.declared.streams.WriteError.TheVariants as write_refused;
ghost use Rattle.calcdb.specs.declared.faults.failures.Failure.TheVariants as failure;

use crate::digesting::Telling;
use crate::faults::failures::{Failure, OutFile, RunFile};
use crate::run_folder::RunFolder;
use procedure::streams::WriteError;
use std::alloc::Allocator;
use std::fs::{self, File, OpenFile, Permissions};
use std::io::{self, BufWriter, ErrorKind, Write};
use std::rt::Files;

/// How many names are tried for the bytes of a file that isn't whole. One is in use where another program
/// writes into the folder, or was killed there.
const NAMES: u32 = 100;

/// Bytes that are gathered before a file or standard output gets them.
pub(crate) const GATHERED: usize = 65_536;

/// What has the name of a file that is to be made.
#[derive(Drop)]
enum Target<A: Allocator> {
    /// A regular file with these permissions, or nothing. A symbolic link to a regular file was followed.
    Replaced(String<A>, Option<Permissions>),
    /// Anything else, as a device, a pipe or a folder.
    InPlace(String<A>),
}

/// The bytes of a file that is being made.
#[derive(Drop)]
pub(crate) struct NewFile<F: Write + Drop, A: Allocator> {
    pub bytes: BufWriter<F, A>,
}

/// The name that a file takes when it is made.
#[derive(Drop)]
pub(crate) struct NewName<'a, A: Allocator> {
    name: OutFile<'a>,
    renaming: Option<Renaming<A>>,
}

/// The name that the bytes have until the file is whole, and the one that it takes then.
#[derive(Drop)]
struct Renaming<A: Allocator> {
    beside: String<A>,
    target: String<A>,
}

impl<A: Allocator> Renaming<A> {
    /// Gives the file its name where it is on disk, and else removes it: whether it has its name.
    fn end<R: Files>(&self, rt: &R, is_on_disk: bool) -> bool {
        let (beside, target) = (self.beside.as_str(), self.target.as_str());
        if is_on_disk && fs::rename(rt, beside, target).is_ok() {
            sync_folder(rt, folder_of(target));
            return true;
        }
        let _ = fs::remove_file(rt, beside);
        false
    }
}

impl<F: Write + Drop, A: Allocator> Write for NewFile<F, A> {
    fn write(&mut self, buf: &[u8]) -> io::Result<usize> {
        self.bytes.write(buf)
    }

    fn flush(&mut self) -> io::Result<()> {
        self.bytes.flush()
    }
}

impl<F: Write + Drop, A: Allocator> Telling for NewFile<F, A> {
    ghost use Rattle.std.proofs.Common.{refl};

    ghost unknown = { λ _ _ _. refl };
}

/// What a symbolic link leads to.
fn linked<'a, R: Files, A: Allocator + Copy>(
    alloc: A,
    rt: &R,
    path: String<A>,
) -> Result<Target<A>, Failure<'a>> {
    let real = match rt.canonicalize(alloc, path.as_str()) {
        Ok(real) => real.into_string(),
        Err(error) if error.kind() == ErrorKind::OutOfMemory => return Err(Failure::NoMemory),
        Err(_) => return Ok(Target::InPlace(path)),
    };
    match fs::metadata(rt, real.as_str()) {
        Ok(found) if found.is_file() => Ok(Target::Replaced(real, Some(found.permissions()))),
        _ => Ok(Target::InPlace(path)),
    }
}

/// What has the name of a file.
fn target_of<'a, R: Files, A: Allocator + Copy>(
    alloc: A,
    rt: &R,
    name: OutFile<'a>,
) -> Result<Target<A>, Failure<'a>> {
    let path = name.to_string(alloc)?;
    match fs::symlink_metadata(rt, path.as_str()) {
        Ok(found) if found.is_file() => Ok(Target::Replaced(path, Some(found.permissions()))),
        Ok(found) if found.is_symlink() => linked(alloc, rt, path),
        Err(error) if error.kind() == ErrorKind::NotFound => Ok(Target::Replaced(path, None)),
        _ => Ok(Target::InPlace(path)),
    }
}

/// The folder of a file, with the slash at its end; nothing where that is the one that the program runs in.
fn folder_of(path: &str) -> &str {
    match path.rfind('/') {
        Some(at) => &path[..at + 1],
        None => "",
    }
}

/// Makes a file of another name in the folder of a target.
fn make_beside<'a, R: Files, A: Allocator + Copy>(
    alloc: A,
    rt: &R,
    name: OutFile<'a>,
    target: &str,
) -> Result<(R::File, String<A>), Failure<'a>>
where
    R::File: Drop,
{
    let folder = folder_of(target);
    for number in 0..NAMES {
        let beside = format!(in alloc; "{folder}.calcdb-{number}.new")?;
        match File::create_new(rt, beside.as_str()) {
            Ok(file) => return Ok((file, beside)),
            Err(error) if error.kind() == ErrorKind::AlreadyExists => {}
            Err(_) => break,
        }
    }
    Err(Failure::CannotWrite(name))
}

/// A file that gets its bytes many at once.
pub(crate) fn gathering<'a, F: Write + Drop, A: Allocator>(
    alloc: A,
    file: F,
) -> Result<NewFile<F, A>, Failure<'a>> {
    match BufWriter::with_capacity(alloc, GATHERED, file) {
        Ok(bytes) => Ok(NewFile { bytes }),
        Err(_) => Err(Failure::NoMemory),
    }
}

/// A file that has begun: the name that it takes, and its bytes.
type Begun<'a, F, A> = (NewName<'a, A>, NewFile<F, A>);

/// Begins a file of this name. Where a regular file has it, or nothing, the bytes go to a new file in the same
/// folder until it is finished, which has that one's permissions; else they go where the name leads.
pub(crate) fn begin<'a, R: Files, A: Allocator + Copy>(
    alloc: A,
    rt: &R,
    name: OutFile<'a>,
) -> Result<Begun<'a, R::File, A>, Failure<'a>>
where
    R::File: Drop,
{
    match target_of(alloc, rt, name)? {
        Target::InPlace(path) => begin_in_place(alloc, rt, name, path.as_str()),
        Target::Replaced(target, permissions) => {
            begin_beside(alloc, rt, name, target, permissions)
        }
    }
}

/// Begins a file whose bytes go where its name leads.
fn begin_in_place<'a, R: Files, A: Allocator + Copy>(
    alloc: A,
    rt: &R,
    name: OutFile<'a>,
    path: &str,
) -> Result<Begun<'a, R::File, A>, Failure<'a>>
where
    R::File: Drop,
{
    match fs::create(rt, path) {
        Ok(file) => {
            let renaming = None;
            Ok((NewName { name, renaming }, gathering(alloc, file)?))
        }
        Err(_) => Err(Failure::CannotWrite(name)),
    }
}

/// Begins a file whose bytes go to a new one in the folder of its target, with these permissions.
fn begin_beside<'a, R: Files, A: Allocator + Copy>(
    alloc: A,
    rt: &R,
    name: OutFile<'a>,
    target: String<A>,
    permissions: Option<Permissions>,
) -> Result<Begun<'a, R::File, A>, Failure<'a>>
where
    R::File: Drop,
{
    let (file, beside) = make_beside(alloc, rt, name, target.as_str())?;
    let renaming = Some(Renaming { beside, target });
    let new = NewName { name, renaming };
    match permitted(alloc, name, file, permissions) {
        Ok(file) => Ok((new, file)),
        Err(failure) => {
            new.discard(rt);
            Err(failure)
        }
    }
}

/// The bytes of a file with these permissions.
fn permitted<'a, F: OpenFile + Write + Drop, A: Allocator>(
    alloc: A,
    name: OutFile<'a>,
    file: F,
    permissions: Option<Permissions>,
) -> Result<NewFile<F, A>, Failure<'a>> {
    let set = match permissions {
        Some(permissions) => file.set_permissions(permissions),
        None => Ok(()),
    };
    match set {
        Ok(()) => gathering(alloc, file),
        Err(_) => Err(Failure::CannotWrite(name)),
    }
}

/// Sees that the names of a folder are on disk, where the system lets it.
pub(crate) fn sync_folder<R: Files>(rt: &R, folder: &str) {
    let folder = if folder.is_empty() { "." } else { folder };
    if let Ok(opened) = fs::open(rt, folder) {
        let _ = opened.sync_all();
    }
}

impl<'a, A: Allocator> NewName<'a, A> {
    /// Removes what was written, where it has no name of its own yet.
    fn discard<R: Files>(self, rt: &R) {
        if let Some(Renaming { beside, target: _ }) = self.renaming {
            let _ = fs::remove_file(rt, beside.as_str());
        }
    }

    /// Gives a file its name, once its bytes are on disk.
    fn finish<R: Files, F: OpenFile + Write + Drop>(
        self,
        rt: &R,
        mut file: NewFile<F, A>,
    ) -> Result<(), Failure<'a>>
        ensures { IfErr result (λ f. f ≡ failure.CannotWrite self.entry.name) }
    {
        let NewName { name, renaming } = self;
        let is_out = file.flush().is_ok();
        let is_made = match renaming {
            Some(renaming) => {
                let is_on_disk = is_out && file.bytes.get_ref().sync_all().is_ok();
                renaming.end(rt, is_on_disk)
            }
            None => is_out,
        };
        if is_made {
            Ok(())
        } else {
            Err(Failure::CannotWrite(name))
        }
    }

    /// Ends a file: it is finished where all was written to it, and else removed.
    pub(crate) fn end<R: Files, F: OpenFile + Write + Drop, T: Drop>(
        self,
        rt: &R,
        file: NewFile<F, A>,
        written: Result<T, WriteError>,
    ) -> Result<T, Failure<'a>>
        ensures ok { IfOk result (λ value. written ≡ Ok value) }
        ensures err { IfErr result (λ f. (f ≡ failure.CannotWrite self.entry.name) ⊎ ((f ≡ failure.NoMemory) × (written ≡ Err write_refused.NoMemory))) }
        ensures memory { written ≡ Err write_refused.NoMemory → IfErr result (λ f. f ≡ failure.NoMemory) }
    {
        match written {
            Ok(value) => {
                self.finish(rt, file)?;
                Ok(value)
            }
            Err(unwritten) => {
                drop(file);
                let failure = match unwritten {
                    WriteError::WriteFault => Failure::CannotWrite(self.name),
                    WriteError::NoMemory => Failure::NoMemory,
                };
                self.discard(rt);
                Err(failure)
            }
        }
    }
}

/// A folder of files that take their names when they are whole.
#[derive(Clone, Copy)]
pub(crate) struct NewFolder<'a, A: Allocator> {
    pub alloc: A,
    pub path: &'a str,
}

impl<'a, R: Files, A: Allocator + Copy> RunFolder<R> for NewFolder<'a, A>
where
    R::File: Drop,
{
    type Failure = Failure<'a>;

    type Place = NewName<'a, A>;

    type File = NewFile<R::File, A>;

    // What a disk holds isn't known.
    ghost made = { λ _. None };

    ghost takes = { λ _ _. Unit {0} };

    fn begin(&mut self, rt: &R, name: RunFile) -> Result<(Self::Place, Self::File), Failure<'a>> {
        begin(self.alloc, rt, OutFile::InFolder(self.path, name))
    }

    fn end<T: Drop>(
        &mut self,
        rt: &R,
        place: Self::Place,
        file: Self::File,
        written: Result<T, WriteError>,
    ) -> Result<T, Failure<'a>> {
        place.end(rt, file, written)
    }
}
