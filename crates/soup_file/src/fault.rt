//! What is wrong with a soup file.

ghost use Rattle.std.specs.Prelude.{◌≡◌};
ghost use Rattle.soup_file.specs.declared.fault.FileFault.TheVariants.{OutOfMemory};

use std::alloc::{AllocError, AllocFailed};
use tierra_asm::AsmFault;
use tierra_model::Text;

/// Why bytes are no soup file: the first check that fails. A key of a creature is named like `creature.at`. Creatures
/// are counted from 1.
#[derive(Debug, Drop, PartialEq, Eq)]
pub enum FileFault {
    /// The bytes are no TOML document.
    NotToml,
    /// The document, or the table of a creature, has this unknown key. Of several, this is the least.
    UnknownKey { key: Text },
    /// The value at the key has the wrong type.
    WrongKind { key: Text },
    /// The value at the key is not in its range.
    OutOfRange { key: Text },
    /// A creature lacks the key.
    Missing { key: Text },
    /// The listing of a creature has no code.
    Listing { creature: u32, fault: AsmFault },
    /// The second creature shares a cell with the first.
    Overlap { first: u32, second: u32 },
    /// There is no creature.
    NoCreature,
    /// Memory ran out.
    OutOfMemory,
}

impl<T: Drop> From<AllocFailed<T>> for FileFault {
    ghost from_gives = { λ _ e. e ≡ OutOfMemory };

    fn from(_: AllocFailed<T>) -> FileFault {
        FileFault::OutOfMemory
    }
}

impl From<AllocError> for FileFault {
    ghost from_gives = { λ _ e. e ≡ OutOfMemory };

    fn from(_: AllocError) -> FileFault {
        FileFault::OutOfMemory
    }
}
