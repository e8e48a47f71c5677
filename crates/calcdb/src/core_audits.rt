//! The audit of a core's own log.

ghost use Rattle.std.specs.Prelude.{◌≡◌, ◌⊎◌, Err, IfOk, Ok};
ghost use Rattle.commitlog.specs.LogReadings.{IsHeader};
ghost use Rattle.commitlog.specs.declared.formats.Version.TheVariants.{Two};
ghost use Rattle.replay.specs.Headers.{NamesCatalog, NamesOpening};
ghost use Rattle.replay.specs.declared.errors.AuditError.TheVariants as refused;

use crate::laws::recovery_law;
use commitlog::{LogHeader, encode};
use image::seal;
use procedure::NoMemory;
use replay::{AuditError, audit};
use sha2::{Digest, Sha256};
use std::alloc::Allocator;
use steps::Core;

/// The header of a core's log.
fn header_of<A: Allocator + Copy>(alloc: A, core: &Core<A>) -> Result<LogHeader, NoMemory>
    ensures catalog { IfOk result (λ h. NamesCatalog h core.now.catalog) }
    ensures opening { IfOk result (λ h. NamesOpening Two h core.now.opening) }
    ensures lengths { IfOk result IsHeader }
{
    let opening = seal(alloc, core.opening())?;
    Ok(LogHeader {
        catalog: core.catalog().digest()?,
        opening: Sha256::digest(opening.as_slice()),
    })
}

/// Audits the log of a core, by the bytes that a file of it has. A core's log passes.
pub(crate) fn audit_core<A: Allocator + Copy>(alloc: A, core: &Core<A>) -> Result<(), AuditError>
    ensures { (result ≡ Ok tt) ⊎ (result ≡ Err refused.NoMemory) }
{
    recovery_law(core);
    let header = header_of(alloc, core)?;
    let log = encode(alloc, &header, core.records())?;
    let _audited = audit(alloc, core.catalog(), core.opening(), log.as_slice())?;
    Ok(())
}
