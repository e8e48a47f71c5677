//! The two modes of a lock.

ghost use Rattle.std.specs.Prelude.{◌↔◌, Some, IsTrue, Option};
ghost use Rattle.locktable.specs.Modes.{KeepsAsked};

use std::fmt;

/// How a session holds a key.
#[derive(Clone, Copy, Debug, PartialEq, Eq)]
pub enum Mode {
    /// To read. Sessions share a key that they read.
    Shared,
    /// To write. No other session holds the key.
    Exclusive,
}

impl fmt::Display for Mode {
    ghost use Rattle.std.specs.Prelude.{Some};
    ghost use Rattle.locktable.specs.Modes.{mode_text};

    ghost output = { λ mode. Some (mode_text mode) };

    fn fmt<W: fmt::Write>(&self, f: &mut fmt::Formatter<W>) -> fmt::Result {
        f.write_str(match self {
            Mode::Shared => "shared",
            Mode::Exclusive => "exclusive",
        })
    }
}

/// Whether a session that holds this already has all that it asks for.
pub(crate) fn keeps_asked(held: Option<Mode>, asked: Mode) -> bool
    ensures { IsTrue result ↔ KeepsAsked held asked }
{
    match (held, asked) {
        (Some(Mode::Exclusive), _) | (Some(Mode::Shared), Mode::Shared) => true,
        _ => false,
    }
}
