use dm_token::{Memory, Text};
use std::alloc::{AllocError, AllocFailed};
use thiserror::Error;

/// Why a manifest isn't one. A text is the path of the value at fault: `/` for the whole, and else keys and the numbers
/// of items joined by `/`, as in `units/0/file`.
#[derive(Debug, PartialEq, Eq, Drop, Error)]
pub enum ManifestFault {
    /// Memory ran out.
    #[error("memory ran out")]
    Memory,
    /// The bytes are not JSON.
    #[error("not JSON")]
    Json,
    /// A value has another type, a key is unknown, or a key that is needed is absent. For an absent key the path is
    /// the one that its value would have.
    #[error("a value has another type, is unknown or is absent")]
    Shape(Text),
    /// A file or a folder has no normal name.
    #[error("not the name of a file or a folder")]
    Name(Text),
    /// A define isn't of the form, its name can't be defined, or its name is defined twice in the unit.
    #[error("not a define")]
    Define(Text),
    /// A unit equals an earlier one.
    #[error("a unit stands twice")]
    Twice(Text),
    /// There are more than 256 units.
    #[error("too many units")]
    TooMany,
}

impl From<Memory> for ManifestFault {
    ghost use Rattle.std.specs.Prelude.{◌≡◌};
    ghost use Rattle.dm_manifest.specs.declared.fault.ManifestFault.TheVariants.{Memory as no_memory};

    ghost from_gives = { λ _ fault. fault ≡ no_memory };

    fn from(_error: Memory) -> ManifestFault {
        ManifestFault::Memory
    }
}

impl From<AllocError> for ManifestFault {
    ghost use Rattle.std.specs.Prelude.{◌≡◌};
    ghost use Rattle.dm_manifest.specs.declared.fault.ManifestFault.TheVariants.{Memory as no_memory};

    ghost from_gives = { λ _ fault. fault ≡ no_memory };

    fn from(_error: AllocError) -> ManifestFault {
        ManifestFault::Memory
    }
}

impl<T: Drop> From<AllocFailed<T>> for ManifestFault {
    ghost use Rattle.std.specs.Prelude.{◌≡◌};
    ghost use Rattle.dm_manifest.specs.declared.fault.ManifestFault.TheVariants.{Memory as no_memory};

    ghost from_gives = { λ _ fault. fault ≡ no_memory };

    fn from(_error: AllocFailed<T>) -> ManifestFault {
        ManifestFault::Memory
    }
}
