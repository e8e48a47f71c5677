//! Laws of the definitions, each the contract of a function that does nothing.

ghost use Rattle.std.specs.Prelude.{◌≡◌};
ghost use Rattle.record_store.specs.declared.limits.TheConstants.{STORE_RECORDS};

/// The limit as a number, which the definitions cite by its name.
pub fn constants_law()
    ensures { STORE_RECORDS ≡ 100000 }
{}
