//! Laws of the bytes of images, each the contract of a function that does nothing.

ghost use Rattle.std.specs.Prelude.{◌≡◌};
ghost use Rattle.image.specs.declared.limits.TheConstants.{BLOCK, ENTRIES, IMAGES, SHORTEST, VALUE_BYTES_V1};
ghost use Rattle.image.specs.Laws.{HaveTheirOwnBytes, OneSpelling};

/// No two images have the same bytes, in whichever version.
pub fn images_law()
    ensures { HaveTheirOwnBytes }
{}

/// An image has one spelling in each version.
pub fn spellings_law()
    ensures { OneSpelling }
{}

/// The limits as numbers, which the definitions cite by their names.
pub fn constants_law()
    ensures entries { ENTRIES ≡ 100000 }
    ensures images { IMAGES ≡ 64 }
    ensures block { BLOCK ≡ 64 }
    ensures value_v1 { VALUE_BYTES_V1 ≡ 256 }
    ensures shortest { SHORTEST ≡ 69 }
{}
