//! The lock of an instruction.

ghost use Rattle.std.specs.Prelude.{◌≡◌, ◌<◌, ◌↔◌, Err, IfOk, OnErr, OnOk, length};
ghost use Rattle.procedure.specs.declared.limits.TheConstants.{SESSIONS};
ghost use Rattle.locktable.specs.Modes.{IsAtMost};
ghost use Rattle.locktable.specs.declared.errors.LockError.TheVariants.{Conflict};
ghost use Rattle.steps.specs.inside.Instructions.{touch_by};
ghost use Rattle.steps.specs.inside.InstructionLocks.{IsExcluded, mode_of_touch, held_so, locked};

use locktable::{LockError, LockTable, Mode};
use procedure::Access;
use std::alloc::Allocator;

/// A session takes the lock of an instruction. How it held the key before is given back.
pub(crate) fn lock<A: Allocator>(
    locks: &mut LockTable<A>,
    session: usize,
    access: &Access,
) -> Result<Option<Mode>, LockError>
    requires { session < SESSIONS }
    ensures before { IfOk result (λ before. before ≡ mode_of_touch locks.old session (touch_by access.now)) }
    ensures granted { OnOk result (locks.new ≡ locked locks.old session (touch_by access.now)) }
    ensures refused { OnErr result (locks.new ≡ locks.old) }
    ensures conflict { result ≡ Err Conflict ↔ IsExcluded locks.old session (touch_by access.now) }
{
    let (key, mode) = match access {
        Access::Reads(key) => (key, Mode::Shared),
        Access::Writes(key) => (key, Mode::Exclusive),
        Access::Nothing | Access::Ended(_) => return Ok(None),
    };
    locks.request(session, key, mode)
}

/// A session holds the key of an instruction again as it did before.
pub(crate) fn unlock<A: Allocator>(
    locks: &mut LockTable<A>,
    session: usize,
    access: &Access,
    before: Option<Mode>,
)
    requires session { session < SESSIONS }
    requires weaker { IsAtMost before (mode_of_touch locks.old session (touch_by access.now)) }
    ensures { locks.new ≡ held_so locks.old session (touch_by access.now) before }
{
    match access {
        Access::Reads(key) | Access::Writes(key) => locks.restore(session, key, before),
        Access::Nothing | Access::Ended(_) => {}
    }
}
