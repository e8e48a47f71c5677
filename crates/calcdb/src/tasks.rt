//! What the program does for each command.

use crate::command_line::Task;
use crate::faults::failures::{Failure, OutFile};
use crate::faults::refusals::say_no_memory;
use crate::faults::subjects::{ImageFiles, Subject};
use crate::files::{flush, input_of, read_file, read_input, write_image};
use crate::merge_files::{Kept, before_files, end_merge, with_file};
use crate::other_images::OtherImages;
use crate::pairs::load;
use crate::progress::{CountedBytes, CountedFiles, Progress};
use crate::recover_files::recover_files;
use crate::run_task::run_task;
use crate::show::show;
use image::Image;
use std::alloc::Allocator;
use std::io::{Read, Write};
use std::rt::Files;
use std::sync::Wait;
use std::thread::Threads;

/// What was read. Where there was no memory for it, one line on standard output says so.
fn told<'a, T, O: Write>(out: &mut O, read: Result<T, Failure<'a>>) -> Result<T, Failure<'a>> {
    match read {
        Err(Failure::NoMemory) => {
            let fault = say_no_memory(out);
            Err(Failure::of_fault(fault, "", Subject::Unknown))
        }
        _ => read,
    }
}

/// Makes a file of the image that a command made, once its standard output is out.
fn write_made<'a, R: Files, O: Write, A: Allocator + Copy>(
    alloc: A,
    rt: &R,
    image: &Image<A>,
    name: &'a str,
    out: &mut O,
) -> Result<(), Failure<'a>>
where
    R::File: Drop,
{
    flush(out, Failure::CannotPrint)?;
    write_image(alloc, rt, OutFile::Named(name), image)
}

/// Loads a file of pairs, and makes a file of their image.
fn load_task<'a, R: Files, I: Read, O: Write, P: Progress, A: Allocator + Copy>(
    alloc: A,
    rt: &R,
    pairs: &'a str,
    name: &'a str,
    stdin: &mut I,
    progress: Option<&P>,
    out: &mut O,
) -> Result<(), Failure<'a>>
where
    R::File: Drop,
{
    let mut text = input_of(rt, pairs, stdin);
    match load(alloc, &mut CountedBytes::new(&mut text, progress), out) {
        Ok(image) => write_made(alloc, rt, &image, name, out),
        Err(fault) => Err(Failure::of_fault(fault, pairs, Subject::File(pairs))),
    }
}

/// What is kept of files of images, and the name of the first that isn't merged.
type ImagesRead<'a, A> = (Kept<A>, Option<&'a str>);

/// Reads the files of images one after another, each into the merge of those before it. Of the first
/// that isn't merged the name comes too; those after it are read all the same.
fn read_merge<'a, R: Files, P: Progress + Drop, A: Allocator + Copy>(
    alloc: A,
    rt: &R,
    names: &[&'a str],
    counted: &mut CountedFiles<P>,
) -> Result<ImagesRead<'a, A>, Failure<'a>>
where
    R::File: Drop,
{
    let mut kept = before_files(alloc);
    let mut unread = None;
    for name in names {
        let bytes = read_file(alloc, rt, name)?;
        counted.add_one();
        kept = with_file(alloc, kept, bytes.as_slice());
        if kept.is_err() && unread.is_none() {
            unread = Some(*name);
        }
    }
    Ok((kept, unread))
}

/// Merges the images of files, and makes a file of the merged one.
fn merge_task<'a, R: Files, O: Write, P: Progress, A: Allocator + Copy>(
    alloc: A,
    rt: &R,
    name: &'a str,
    names: &[&'a str],
    progress: Option<&P>,
    out: &mut O,
) -> Result<(), Failure<'a>>
where
    R::File: Drop,
{
    let mut files = CountedFiles::of(names.len(), progress);
    let (kept, unread) = told(out, read_merge(alloc, rt, names, &mut files))?;
    match end_merge(alloc, kept, out) {
        Ok(image) => write_made(alloc, rt, &image, name, out),
        Err(fault) => {
            let subject = ImageFiles { names }.subject(&fault, unread.as_ref());
            Err(Failure::of_fault(fault, name, subject))
        }
    }
}

/// The files of a recovery.
#[derive(Clone, Copy)]
struct Sources<'a, 'b> {
    script: &'a str,
    log: &'a str,
    images: &'b [&'a str],
}

/// What the files of a recovery have: its script, its log, and its images as they were merged.
type SourcesRead<'a, A> = (Vec<u8, A>, Vec<u8, A>, ImagesRead<'a, A>);

/// Reads the files of a recovery.
fn read_sources<'a, R: Files, I: Read, P: Progress, A: Allocator + Copy>(
    alloc: A,
    rt: &R,
    sources: Sources<'a, '_>,
    stdin: &mut I,
    progress: Option<&P>,
) -> Result<SourcesRead<'a, A>, Failure<'a>>
where
    R::File: Drop,
{
    // The script and the log come before the images.
    let mut files = CountedFiles::of(sources.images.len().saturating_add(2), progress);
    let script = read_input(alloc, rt, sources.script, stdin)?;
    files.add_one();
    let log = read_file(alloc, rt, sources.log)?;
    files.add_one();
    let images = read_merge(alloc, rt, sources.images, &mut files)?;
    Ok((script, log, images))
}

/// Recovers a table of files, and makes a file of its image.
fn recover_task<'a, R: Files, I: Read, O: Write, P: Progress, A: Allocator + Copy>(
    alloc: A,
    rt: &R,
    name: &'a str,
    sources: Sources<'a, '_>,
    stdin: &mut I,
    progress: Option<&P>,
    out: &mut O,
) -> Result<(), Failure<'a>>
where
    R::File: Drop,
{
    let Sources {
        script,
        log,
        images: names,
    } = sources;
    let read = read_sources(alloc, rt, sources, stdin, progress);
    let (script_bytes, log_bytes, (kept, unread)) = told(out, read)?;
    match recover_files(
        alloc,
        script_bytes.as_slice(),
        log_bytes.as_slice(),
        kept,
        out,
    ) {
        Ok(image) => write_made(alloc, rt, &image, name, out),
        Err(fault) => {
            let images = ImageFiles { names };
            let subject = images.recovered(&fault, (script, log), unread.as_ref());
            Err(Failure::of_fault(fault, script, subject))
        }
    }
}

/// Prints what a file has.
fn show_task<'a, R: Files, O: Write, A: Allocator + Copy>(
    alloc: A,
    rt: &R,
    name: &'a str,
    out: &mut O,
) -> Result<(), Failure<'a>>
where
    R::File: Drop,
{
    let bytes = told(out, read_file(alloc, rt, name))?;
    match show(alloc, bytes.as_slice(), out) {
        Ok(()) => Ok(()),
        Err(fault) => Err(Failure::of_fault(fault, name, Subject::File(name))),
    }
}

/// Does a task, and returns which images of another run are in the folder that it wrote to.
pub(crate) fn do_task<
    'a,
    T: Threads + Wait + Sync,
    R: Files + Alloc + Sync,
    I: Read,
    O: Write,
    P: Progress + Sync,
    A: Allocator + Copy + Send + Sync,
>(
    alloc: A,
    threads: &T,
    rt: &R,
    task: &Task<'a>,
    stdin: &mut I,
    progress: Option<&P>,
    out: &mut O,
) -> Result<Option<OtherImages<'a>>, Failure<'a>>
where
    R::File: Drop + Send,
    R::Dir: Send,
    R::A: Send,
{
    let done = match task {
        Task::Run(files) => return run_task(alloc, threads, rt, *files, stdin, progress, out),
        Task::Load {
            pairs,
            out: name,
            progress: _,
        } => load_task(alloc, rt, pairs, name, stdin, progress, out),
        Task::Merge {
            out: name,
            images,
            progress: _,
        } => merge_task(alloc, rt, name, images.as_slice(), progress, out),
        Task::Recover {
            script,
            log,
            out: name,
            images,
            progress: _,
        } => {
            let sources = Sources {
                script,
                log,
                images: images.as_slice(),
            };
            recover_task(alloc, rt, name, sources, stdin, progress, out)
        }
        Task::Show { file } => show_task(alloc, rt, file, out),
    };
    done?;
    Ok(None)
}
