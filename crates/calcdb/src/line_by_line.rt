//! Texts that are read line by line.

ghost use Rattle.std.specs.Prelude.{◌≡◌, ◌⊎◌, ◌≤◌, ◌+◌, IfErr, IfOk, IfSome, ◌<◌, Err, length, option_map};
ghost use Rattle.calcdb.specs.LineByLine.{TellsScript, after_lines, size};
ghost use Rattle.calcdb.specs.Lines.{left_lines, lines};
ghost use Rattle.calcdb.specs.declared.scripts.ScriptFault.TheVariants as fault;
ghost use Rattle.calcdb.specs.declared.scripts.TheConstants.{SCRIPT_BYTES};

use crate::faults::misreads::FaultyLine;
use crate::faults::unread::Unread;
use crate::lines::{line_at, without_return};
use crate::scripts::ScriptFault;

/// What lines have said so far.
pub(crate) trait LineReader: Sized {
    ghost use Rattle.std.specs.Prelude.{Option};
    ghost use Rattle.procedure.specs.Bytes.{Bytes};
    ghost use Rattle.calcdb.specs.Reads.{ReadsAs};

    /// What one line more makes of it; nothing where the line is faulty.
    ghost after: { Self → Bytes → Option Self };

    /// Reads one line more. Nothing is promised of what a faulty one leaves.
    fn read_line(&mut self, line: &[u8]) -> Result<(), Unread>
        ensures { ReadsAs (λ _. self.new) result (after self.old line.now) };
}

/// Reads one line, and returns what is left after it.
#[tactic(auto, unfolding(crate::specs::LineByLine::after_lines))]
fn read_next<'a, S: LineReader>(
    said: &mut S,
    number: u64,
    text: &'a [u8],
) -> Result<Option<&'a [u8]>, ScriptFault>
    ensures ok { IfOk result (λ behind. after_lines S.after said.old number (lines text.entry.now) ≡ after_lines S.after said.new (number + 1) (left_lines (option_map (λ t. t.now) behind))) }
    ensures shorter { IfOk result (λ behind. IfSome behind (λ t. length t.now < length text.entry.now)) }
    ensures err { IfErr result (λ e. (e ≡ fault.NoMemory) ⊎ (after_lines S.after said.old number (lines text.entry.now) ≡ Err e)) }
{
    let (line, behind) = line_at(text);
    match said.read_line(without_return(line)) {
        Ok(()) => Ok(behind),
        Err(Unread::Faulty(why)) => Err(ScriptFault::Line(FaultyLine { number, why })),
        Err(Unread::NoMemory) => Err(ScriptFault::NoMemory),
    }
}

/// Reads the lines that are left of a text, which are numbered from `first` on, after what was said before.
pub(crate) fn read_lines<S: LineReader>(
    said: &mut S,
    first: u64,
    left: Option<&[u8]>,
) -> Result<(), ScriptFault>
    requires { first + size (option_map (λ t. t.now) left) ≤ SCRIPT_BYTES + 2 }
    ensures { TellsScript (λ _. said.new) result (after_lines S.after said.old first (left_lines (option_map (λ t. t.now) left.entry))) }
{
    let mut number = first;
    let mut rest = left;
    while let Some(text) = rest {
        rest = read_next(said, number, text)?;
        number += 1;
    }
    Ok(())
}
