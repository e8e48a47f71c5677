//! The log of a folder, open while a run goes on.

use crate::faults::failures::{Failure, OutFile, RunFile};
use crate::live_runs::{LiveFolder, LiveLog};
use crate::new_files::{NewFile, NewFolder, gathering, sync_folder};
use crate::other_images::has_images;
use std::alloc::Allocator;
use std::fs::{self, File, OpenFile};
use std::io::{self, ErrorKind, Write};
use std::rt::Files;

impl<F: OpenFile + Write + Drop, A: Allocator> LiveLog for NewFile<F, A> {
    fn sync(&self) -> io::Result<()> {
        self.bytes.get_ref().sync_data()
    }
}

impl<'a, A: Allocator + Copy> NewFolder<'a, A> {
    /// The name of its log.
    fn log(&self) -> OutFile<'a> {
        OutFile::InFolder(self.path, RunFile::Log)
    }

    /// Refuses a folder that has an image, or can't be read.
    fn refuse_images<R: Files + Alloc>(&self, rt: &R) -> Result<(), Failure<'a>> {
        match has_images(rt, self.path) {
            Ok(false) => Ok(()),
            Err(error) if error.kind() == ErrorKind::OutOfMemory => Err(Failure::NoMemory),
            _ => Err(Failure::CannotWrite(self.log())),
        }
    }

    /// The log of a new file, where the folder has no image.
    fn first_log<R: Files + Alloc>(
        &self,
        rt: &R,
        file: R::File,
    ) -> Result<NewFile<R::File, A>, Failure<'a>>
    where
        R::File: Drop,
    {
        match self.refuse_images(rt) {
            Ok(()) => gathering(self.alloc, file),
            Err(failure) => {
                drop(file);
                Err(failure)
            }
        }
    }
}

impl<'a, R: Files + Alloc, A: Allocator + Copy> LiveFolder<R, NewFile<R::File, A>>
    for NewFolder<'a, A>
where
    R::File: Drop,
{
    /// The log is a new file. Images are looked for once it is there, when no other such run can begin.
    fn begin_log(&mut self, rt: &R) -> Result<NewFile<R::File, A>, Failure<'a>> {
        let path = self.log().to_string(self.alloc)?;
        let Ok(file) = File::create_new(rt, path.as_str()) else {
            return Err(Failure::CannotWrite(self.log()));
        };
        let begun = self.first_log(rt, file);
        match begun {
            Ok(_) => sync_folder(rt, self.path),
            Err(_) => {
                let _ = fs::remove_file(rt, path.as_str());
            }
        }
        begun
    }

    fn end_log(&mut self, _rt: &R, log: NewFile<R::File, A>) -> Result<(), Failure<'a>> {
        match log.bytes.get_ref().sync_all() {
            Ok(()) => Ok(()),
            Err(_) => Err(Failure::CannotWrite(self.log())),
        }
    }

    fn unwritten(&self) -> Failure<'a> {
        Failure::CannotWrite(self.log())
    }
}
