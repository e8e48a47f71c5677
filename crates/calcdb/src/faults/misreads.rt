//! Why a line isn't in its language, in words for the one who wrote it. Contracts say which lines are faulty and
//! not why; tests have the words.

use image::limits::ENTRIES;
use procedure::limits::{INSTRUCTIONS, KEY_BYTES, PROCEDURES};
use std::fmt;
use std::marker::Model;

/// Bytes of a word that are quoted.
const QUOTED: usize = 24;

/// The front of a word, to quote it.
#[derive(Clone, Copy)]
pub(crate) struct Quote {
    bytes: [u8; QUOTED],
    length: u8,
    is_cut: bool,
}

impl Quote {
    pub(crate) fn of(word: &[u8]) -> Self {
        let length = word.len().min(QUOTED);
        let mut bytes = [0u8; QUOTED];
        bytes[..length].copy_from_slice(&word[..length]);
        Quote {
            bytes,
            length: length as u8,
            is_cut: length < word.len(),
        }
    }
}

impl fmt::Display for Quote {
    fn fmt<W: fmt::Write>(&self, f: &mut fmt::Formatter<W>) -> fmt::Result {
        write!(f, "\"")?;
        for byte in self.bytes.iter().take(usize::from(self.length)) {
            write!(f, "{}", char::from(*byte))?;
        }
        if self.is_cut {
            write!(f, "..")?;
        }
        write!(f, "\"")
    }
}

/// Why a line, or a word of it, isn't read.
#[derive(Clone, Copy)]
pub(crate) enum Misread {
    Byte,
    MissingWord,
    MoreWords(Quote),
    NoCommand(Quote),
    NoProcedure(Quote),
    NoKind(Quote),
    /// Or a number over this one.
    NoNumber(Quote, u64),
    NoHex(Quote),
    NoValue(Quote),
    /// A value of more bytes than this.
    LongValue(Quote, usize),
    NoKey(Quote),
    NoInstruction(Quote),
    NoTest(Quote),
    NoRegister(Quote),
    NoArgument(Quote),
    NoCode(Quote),
    NoName(Quote),
    SameName(Quote),
    ManyInstructions,
    ManyProcedures,
    /// The procedure that the line begins.
    NoEnd,
    SameKey,
    ManyPairs,
}

impl fmt::Display for Misread {
    fn fmt<W: fmt::Write>(&self, f: &mut fmt::Formatter<W>) -> fmt::Result {
        match self {
            Misread::Byte => write!(f, "a byte isn't printable ASCII or a tab"),
            Misread::MissingWord => write!(f, "a word is missing"),
            Misread::MoreWords(word) => write!(f, "{word} is a word too many"),
            Misread::NoCommand(word) => write!(f, "no command {word}"),
            Misread::NoProcedure(word) => write!(f, "no procedure {word}"),
            Misread::NoKind(word) => write!(f, "no kind of checkpoint {word}"),
            Misread::NoNumber(word, most) => write!(f, "{word} isn't a number from 0 to {most}"),
            Misread::NoHex(word) => write!(f, "{word} isn't hexadecimal, of two digits a byte"),
            Misread::NoValue(word) => {
                write!(f, "{word} isn't a value, which begins with #, ' or x")
            }
            Misread::LongValue(word, most) => write!(f, "{word} has over {most} bytes"),
            Misread::NoKey(word) => write!(f, "{word} isn't a key of 1 to {KEY_BYTES} bytes"),
            Misread::NoInstruction(word) => write!(f, "no instruction {word}"),
            Misread::NoTest(word) => write!(f, "no test {word}"),
            Misread::NoRegister(word) => write!(f, "no register {word}"),
            Misread::NoArgument(word) => write!(f, "no argument {word}"),
            Misread::NoCode(word) => write!(f, "{word} isn't a code from 16 to 255"),
            Misread::NoName(word) => write!(f, "{word} isn't a name of a procedure"),
            Misread::SameName(word) => write!(f, "there is a procedure {word} already"),
            Misread::ManyInstructions => write!(f, "over {INSTRUCTIONS} instructions"),
            Misread::ManyProcedures => write!(f, "over {PROCEDURES} procedures"),
            Misread::NoEnd => write!(f, "the procedure has no end"),
            Misread::SameKey => write!(f, "a line before has the key"),
            Misread::ManyPairs => write!(f, "over {ENTRIES} pairs"),
        }
    }
}

/// The first faulty line of a text, and why it is faulty. Contracts see its number alone, counted from 1.
#[derive(Drop)]
pub(crate) struct FaultyLine {
    pub number: u64,
    pub why: Misread,
}

impl Model for FaultyLine {
    ghost use Rattle.std.specs.Prelude.{ℕ};

    ghost Value = { ℕ };

    ghost view = { λ l. l.number };
}

impl fmt::Debug for FaultyLine {
    fn fmt<W: fmt::Write>(&self, f: &mut fmt::Formatter<W>) -> fmt::Result {
        write!(f, "FaultyLine({}: {})", self.number, self.why)
    }
}
