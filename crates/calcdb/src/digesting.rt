//! A writer that digests what goes out, so that an image is neither sealed twice nor held in memory.

ghost use Rattle.std.specs.Prelude.{◌≡◌, [], IfSome};
ghost use Rattle.sha2.specs.Sha256.{sha256};

use sha2::{Digest, Sha256};
use std::io::{self, Write};
use std::marker::Model;

/// A writer of which either it is always known what it holds, or never.
pub(crate) trait Telling: Write {
    ghost use Rattle.std.specs.Prelude.{◌≡◌, None};

    ghost unknown: { (one other : Self) → Self.contents one ≡ None → Self.contents other ≡ None };
}

/// A writer, and a hasher of all that it holds. Contracts see it as what the writer holds.
#[derive(Drop)]
pub(crate) struct Digesting<W: Telling + Drop> {
    writer: W,
    hasher: Sha256,
}

impl<W: Telling + Drop> Model for Digesting<W> {
    ghost use Rattle.std.specs.Prelude.{IfSome, List, Option, ℕ};
    ghost use Rattle.std.specs.Coded.{coded_list, coded_option, coded_ℕ};
    ghost use Rattle.sha2.specs.Hashers.{Holds256};

    ghost Value = { Option (List ℕ) };

    ghost coded = { coded_option (coded_list coded_ℕ) };

    ghost view = { λ d. W.contents d.writer };

    ghost invariant = { λ d. IfSome (W.contents d.writer) (Holds256 d.hasher) };
}

impl<W: Telling + Drop> Digesting<W> {
    /// A writer that holds nothing yet.
    pub(crate) fn new(writer: W) -> Self
        requires { IfSome (W.contents writer) (λ bytes. bytes ≡ []) }
        ensures { result ≡ W.contents writer }
    {
        Digesting {
            writer,
            hasher: Sha256::new(),
        }
    }

    /// The writer, and the digest of all that it holds.
    pub(crate) fn into_parts(self) -> (W, [u8; 32])
        ensures writer { W.contents result.0 ≡ self }
        ensures digest { IfSome self (λ bytes. result.1 ≡ sha256 bytes) }
    {
        let Digesting { writer, hasher } = self;
        (writer, hasher.finalize())
    }
}

impl<W: Telling + Drop> Write for Digesting<W> {
    ghost contents = { λ d. d };

    fn write(&mut self, buf: &[u8]) -> io::Result<usize> {
        let taken = self.writer.write(buf)?;
        self.hasher.update(&buf[..taken]);
        Ok(taken)
    }

    fn flush(&mut self) -> io::Result<()> {
        self.writer.flush()
    }
}
