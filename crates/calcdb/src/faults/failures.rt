//! Why the program's work isn't done, and how that is said.

ghost use Rattle.std.specs.Prelude.{◌≡◌, ◌⊎◌, ℕ, IfSome, OnOk};
ghost use Rattle.std.specs.Io.KnownBytes.{Appends};
ghost use Rattle.calcdb.specs.Failures.{explanation, status_of};
ghost use Rattle.calcdb.specs.declared.faults.Fault.TheVariants as kind;
ghost use Rattle.calcdb.specs.declared.faults.Reason.{Reason as SpecReason};
ghost use Rattle.calcdb.specs.declared.faults.Reason.TheVariants as reason;
ghost use Rattle.calcdb.specs.declared.faults.failures.Failure.TheVariants as failure;

use crate::faults::misreads::FaultyLine;
use crate::faults::subjects::Subject;
use crate::faults::{Fault, Reason};
use crate::scripts::SCRIPT_BYTES;
use procedure::NoMemory;
use std::alloc::AllocError;
use std::fmt;
use std::io::{self, Write};

/// A file in the folder of a run.
#[derive(Clone, Copy, PartialEq, Eq)]
pub(crate) enum RunFile {
    /// The image with this number, that of the opening being 0.
    Image(u64),
    Log,
}

impl fmt::Display for RunFile {
    ghost use Rattle.std.specs.Prelude.{Some};
    ghost use Rattle.calcdb.specs.RunFiles.{file_name};

    ghost output = { λ file. Some (file_name file) };

    fn fmt<W: fmt::Write>(&self, f: &mut fmt::Formatter<W>) -> fmt::Result {
        match self {
            RunFile::Image(number) => write!(f, "{number}.img"),
            RunFile::Log => write!(f, "log"),
        }
    }
}

/// A file that the program makes. It prints as its path.
#[derive(Clone, Copy)]
pub(crate) enum OutFile<'a> {
    Named(&'a str),
    InFolder(&'a str, RunFile),
}

impl fmt::Display for OutFile<'_> {
    ghost use Rattle.calcdb.specs.OutFiles.{out_file_text};

    ghost output = { out_file_text };

    fn fmt<W: fmt::Write>(&self, f: &mut fmt::Formatter<W>) -> fmt::Result {
        match self {
            OutFile::Named(name) => write!(f, "{name}"),
            OutFile::InFolder(folder, file) if folder.as_bytes().ends_with(b"/") => {
                write!(f, "{folder}{file}")
            }
            OutFile::InFolder(folder, file) => write!(f, "{folder}/{file}"),
        }
    }
}

/// Why the program's work isn't done.
#[derive(Drop)]
pub(crate) enum Failure<'a> {
    /// The command line is faulty.
    Usage,
    /// A line of the text with this name.
    FaultyLine(&'a str, FaultyLine),
    /// The text with this name has over 4,194,304 bytes.
    LongText(&'a str),
    /// What is read of files is refused.
    Refused(Subject<'a>, Reason),
    /// The file of this name.
    CannotRead(&'a str),
    CannotWrite(OutFile<'a>),
    /// Standard output.
    CannotPrint,
    NoMemory,
}

impl From<NoMemory> for Failure<'_> {
    fn from(_refused: NoMemory) -> Self {
        Failure::NoMemory
    }
}

impl From<AllocError> for Failure<'_> {
    fn from(_refused: AllocError) -> Self {
        Failure::NoMemory
    }
}

impl<'a> Failure<'a> {
    /// The failure that a fault makes, where the text is that with this name, and a refusal is of this subject.
    pub(crate) fn of_fault(fault: Fault, text: &'a str, subject: Subject<'a>) -> Failure<'a>
        ensures read { fault ≡ kind.Read → result ≡ failure.CannotRead text.entry }
        ensures write { fault ≡ kind.Write → result ≡ failure.CannotPrint }
        ensures memory { (fault ≡ kind.NoMemory) ⊎ (fault ≡ kind.Refused reason.NoMemory) → result ≡ failure.NoMemory }
        ensures line { (n : ℕ) → fault ≡ kind.Line n → result ≡ failure.FaultyLine text.entry n }
        ensures size { fault ≡ kind.Size → result ≡ failure.LongText text.entry }
        ensures refused { (r : SpecReason) → (r ≡ reason.NoMemory → ⊥) → fault ≡ kind.Refused r → result ≡ failure.Refused subject.entry r }
    {
        match fault {
            Fault::Read => Failure::CannotRead(text),
            Fault::Write => Failure::CannotPrint,
            Fault::NoMemory | Fault::Refused(Reason::NoMemory) => Failure::NoMemory,
            Fault::Line(faulty) => Failure::FaultyLine(text, faulty),
            Fault::Size => Failure::LongText(text),
            Fault::Refused(reason) => Failure::Refused(subject, reason),
        }
    }

    /// The status of the process.
    pub(crate) fn status(&self) -> u8
        ensures { result ≡ status_of self.now }
    {
        match self {
            Failure::Usage => 2,
            Failure::FaultyLine(_, _)
            | Failure::LongText(_)
            | Failure::Refused(_, _)
            | Failure::CannotRead(_)
            | Failure::CannotWrite(_)
            | Failure::CannotPrint
            | Failure::NoMemory => 1,
        }
    }

    /// Says on standard error why the work isn't done, but of a command line, of which clap says it.
    pub(crate) fn explain<E: Write>(&self, err: &mut E) -> io::Result<()>
        ensures { OnOk result (IfSome (explanation self.now) (Appends (E.contents err.old) (E.contents err.new))) }
    {
        match self {
            Failure::CannotRead(name) => writeln!(err, "calcdb: cannot read {name}"),
            Failure::CannotWrite(file) => writeln!(err, "calcdb: cannot write {file}"),
            Failure::CannotPrint => writeln!(err, "calcdb: cannot write output"),
            Failure::NoMemory => writeln!(err, "calcdb: no memory"),
            Failure::FaultyLine(name, FaultyLine { number, why }) => {
                writeln!(err, "calcdb: {name} line {number}: {why}")
            }
            Failure::LongText(name) => {
                writeln!(err, "calcdb: {name}: over {SCRIPT_BYTES} bytes")
            }
            // Their numbers are those of images, which the subject names.
            Failure::Refused(subject, Reason::Gap(_)) => writeln!(err, "calcdb: {subject}gap"),
            Failure::Refused(subject, Reason::NotPartial(_)) => {
                writeln!(err, "calcdb: {subject}not partial")
            }
            Failure::Refused(subject, reason) => writeln!(err, "calcdb: {subject}{reason}"),
            Failure::Usage => Ok(()),
        }
    }
}
