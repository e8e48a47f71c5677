//! Images that a folder holds of another run, which are told of and left alone.

use crate::faults::failures::{OutFile, RunFile};
use crate::values::decimal_of;
use image::Image;
use std::alloc::Allocator;
use std::rt::Files;
use std::{fmt, fs, io};

/// Images of another run in a folder. They print as what is said of them.
#[derive(Clone, Copy)]
pub(crate) struct OtherImages<'a> {
    folder: &'a str,
    /// The least of their numbers.
    least: u64,
    /// How many there are beside it.
    more: u64,
}

impl fmt::Display for OtherImages<'_> {
    fn fmt<W: fmt::Write>(&self, f: &mut fmt::Formatter<W>) -> fmt::Result {
        let file = OutFile::InFolder(self.folder, RunFile::Image(self.least));
        match self.more {
            0 => write!(f, "{file} is of another run"),
            more => write!(f, "{file} is of another run, and {more} more"),
        }
    }
}

/// The number of the image that a run gives this name.
fn number_of_name(name: &str) -> Option<u64> {
    let digits = name.strip_suffix(".img")?;
    if digits.len() > 1 && digits.starts_with('0') {
        return None;
    }
    decimal_of(u64::MAX, digits.as_bytes()).ok()
}

/// Whether a run writes an image with this number. The images are in the order of their numbers.
fn writes<A: Allocator>(images: &[Image<A>], number: u64) -> bool {
    number == 0
        || images
            .binary_search_by_key(&number, |image| image.number())
            .is_ok()
}

impl<'a> OtherImages<'a> {
    /// Those that were found, and one with this number.
    fn with(found: Option<Self>, folder: &'a str, number: u64) -> Self {
        let (least, more) = match found {
            Some(others) => (others.least.min(number), others.more.saturating_add(1)),
            None => (number, 0),
        };
        OtherImages {
            folder,
            least,
            more,
        }
    }
}

/// The images of another run in the folder that a run with these images was written into; none where the folder
/// can't be read.
pub(crate) fn other_images<'a, R: Files + Alloc, A: Allocator>(
    rt: &R,
    folder: &'a str,
    images: &[Image<A>],
) -> Option<OtherImages<'a>> {
    let mut found = None;
    for entry in fs::read_dir(&rt, folder).ok()? {
        if let Some(number) = number_of_name(entry.ok()?.file_name())
            && !writes(images, number)
        {
            found = Some(OtherImages::with(found, folder, number));
        }
    }
    found
}

/// Whether a folder has an image of a run.
pub(crate) fn has_images<R: Files + Alloc>(rt: &R, folder: &str) -> io::Result<bool> {
    for entry in fs::read_dir(&rt, folder)? {
        if number_of_name(entry?.file_name()).is_some() {
            return Ok(true);
        }
    }
    Ok(false)
}
