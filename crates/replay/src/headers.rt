//! What a log's header names: the catalog and the opening image.

ghost use Rattle.std.specs.Prelude.{◌≡◌, ◌↔◌, IfOk, IsTrue, None, Ok};
ghost use Rattle.procedure.specs.Bytes.{Bytes};
ghost use Rattle.sha2.specs.Sha256.{sha256};
ghost use Rattle.commitlog.specs.declared.formats.Version.TheVariants.{One};
ghost use Rattle.image.specs.ImageBytes.{HasSmallValues};
ghost use Rattle.replay.specs.Parts.{HasDigest};
ghost use Rattle.replay.specs.Headers.{IsSpelling, NamesCatalog, NamesOpening};

use commitlog::{LogHeader, Version};
use image::{Image, SealError, seal, seal_v1};
use procedure::{Catalog, NoMemory};
use sha2::{Digest, Sha256};
use std::alloc::Allocator;

/// Whether the header names this catalog.
pub(crate) fn names_catalog<A: Allocator + Clone>(
    header: &LogHeader,
    catalog: &Catalog<A>,
) -> Result<bool, NoMemory>
    ensures { IfOk result (λ b. IsTrue b ↔ NamesCatalog header.now catalog.now) }
{
    Ok(catalog.digest()? == header.catalog)
}

/// The digest of the image in the image format of a log's version; None where it has no spelling there.
fn digest_of<A: Allocator>(
    alloc: A,
    version: Version,
    image: &Image<A>,
) -> Result<Option<[u8; 32]>, NoMemory>
    ensures value { IfOk result (λ digest. HasDigest version image.now digest) }
    // What has no spelling is known without memory.
    ensures large { version ≡ One → (HasSmallValues image.now → ⊥) → result ≡ Ok None }
{
    match version {
        Version::One => match seal_v1(alloc, image) {
            Ok(bytes) => Ok(Some(Sha256::digest(bytes.as_slice()))),
            Err(SealError::TooLarge) => Ok(None),
            Err(SealError::NoMemory) => Err(NoMemory),
        },
        Version::Two => {
            let bytes = seal(alloc, image)?;
            Ok(Some(Sha256::digest(bytes.as_slice())))
        }
    }
}

/// Whether the header names this image.
pub(crate) fn names_opening<A: Allocator>(
    alloc: A,
    version: Version,
    header: &LogHeader,
    image: &Image<A>,
) -> Result<bool, NoMemory>
    ensures { IfOk result (λ b. IsTrue b ↔ NamesOpening version header.now image.now) }
{
    match digest_of(alloc, version, image)? {
        Some(digest) => Ok(digest == header.opening),
        None => Ok(false),
    }
}
