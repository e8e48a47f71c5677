//! Laws of the definitions, each the contract of a function that does nothing.

ghost use Rattle.std.specs.Prelude.{◌≡◌};
ghost use Rattle.procedure.specs.declared.limits.TheConstants.{ARGUMENTS, INSTRUCTIONS, KEY_BYTES, LITERAL_BYTES, PROCEDURES, REGISTERS, SESSIONS, VALUE_BYTES};
ghost use Rattle.procedure.specs.Catalogs.{KeepsLimits};
ghost use Rattle.procedure.specs.Copies.{RunsWhole};
ghost use Rattle.procedure.specs.Runs.{DependsOnTouched, EndsWhole, SaysWhatItWrites};

/// A call run instruction by instruction has the outcome, replies, table and written keys of the run
/// on a private copy of the table, which goes by the list of instructions.
pub fn run_law()
    ensures { RunsWhole }
{}

/// The first instructions of a call depend on the table only at the keys that they touch.
pub fn frame_law()
    ensures { DependsOnTouched }
{}

/// All instructions end a call, and where it has ended earlier it stays so.
pub fn end_law()
    ensures { EndsWhole }
{}

/// What an instruction makes of its key is told by what it asks for.
pub fn update_law()
    ensures { SaysWhatItWrites }
{}

/// The outcome of a lawful procedure is 0 to 6 or at least 16, and it replies at most as often as it
/// has instructions.
pub fn limits_law()
    ensures { KeepsLimits }
{}

/// The limits as numbers, which the definitions cite by their names.
pub fn constants_law()
    ensures sessions { SESSIONS ≡ 64 }
    ensures procedures { PROCEDURES ≡ 64 }
    ensures instructions { INSTRUCTIONS ≡ 64 }
    ensures arguments { ARGUMENTS ≡ 8 }
    ensures registers { REGISTERS ≡ 8 }
    ensures key { KEY_BYTES ≡ 32 }
    ensures value { VALUE_BYTES ≡ 65535 }
    ensures literal { LITERAL_BYTES ≡ 256 }
{}
