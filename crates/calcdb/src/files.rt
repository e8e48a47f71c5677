//! The files that the program reads, and the images that it writes to files.

use crate::faults::failures::{Failure, OutFile};
use crate::new_files::begin;
use image::{Image, seal_to};
use std::alloc::Allocator;
use std::fs;
use std::io::{self, ErrorKind, Read, Write};
use std::rt::Files;

/// The name that stands for standard input. A file of this name is `./-`.
const STDIN: &str = "-";

/// A text that is looked for before its bytes are needed.
#[derive(Drop)]
pub(crate) enum Input<F: Drop, I: Drop> {
    File(F),
    Stdin(I),
    /// A file that can't be opened. The first read fails.
    Unopened,
}

/// The text of this name: of a file, or what standard input gives.
pub(crate) fn input_of<'a, R: Files, I: Read>(
    rt: &R,
    name: &str,
    stdin: &'a mut I,
) -> Input<R::File, &'a mut I>
where
    R::File: Drop,
{
    if name == STDIN {
        return Input::Stdin(stdin);
    }
    match fs::open(rt, name) {
        Ok(file) => Input::File(file),
        Err(_) => Input::Unopened,
    }
}

impl<F: Read + Drop, I: Read + Drop> Read for Input<F, I> {
    fn read(&mut self, buf: &mut [u8]) -> io::Result<usize> {
        match self {
            Input::File(file) => file.read(buf),
            Input::Stdin(stdin) => stdin.read(buf),
            Input::Unopened => Err(io::Error::from(ErrorKind::NotFound)),
        }
    }
}

/// All that a reader gives, which stands for the file of this name.
fn read_whole<'a, I: Read, A: Allocator>(
    alloc: A,
    reader: &mut I,
    name: &'a str,
) -> Result<Vec<u8, A>, Failure<'a>> {
    let mut bytes = Vec::new(alloc);
    match reader.read_to_end(&mut bytes) {
        Ok(_) => Ok(bytes),
        Err(error) if error.kind() == ErrorKind::OutOfMemory => Err(Failure::NoMemory),
        Err(_) => Err(Failure::CannotRead(name)),
    }
}

/// All of the text of this name.
pub(crate) fn read_input<'a, R: Files, I: Read, A: Allocator>(
    alloc: A,
    rt: &R,
    name: &'a str,
    stdin: &mut I,
) -> Result<Vec<u8, A>, Failure<'a>>
where
    R::File: Drop,
{
    read_whole(alloc, &mut input_of(rt, name, stdin), name)
}

/// All that a file has.
pub(crate) fn read_file<'a, R: Files, A: Allocator>(
    alloc: A,
    rt: &R,
    name: &'a str,
) -> Result<Vec<u8, A>, Failure<'a>>
where
    R::File: Drop,
{
    match fs::open(rt, name) {
        Ok(mut file) => read_whole(alloc, &mut file, name),
        Err(_) => Err(Failure::CannotRead(name)),
    }
}

/// Sees that what was written is out; else it is this failure.
pub(crate) fn flush<'a, W: Write>(writer: &mut W, failure: Failure<'a>) -> Result<(), Failure<'a>> {
    writer.flush().map_err(|_| failure)
}

/// Makes a file of an image's bytes.
pub(crate) fn write_image<'a, R: Files, A: Allocator + Copy>(
    alloc: A,
    rt: &R,
    file: OutFile<'a>,
    image: &Image<A>,
) -> Result<(), Failure<'a>>
where
    R::File: Drop,
{
    let (new, mut bytes) = begin(alloc, rt, file)?;
    let written = seal_to(alloc, &mut bytes, image);
    new.end(rt, bytes, written)
}
