//! Why a file is not opened or read.

ghost use Rattle.std.specs.Prelude.{◌≡◌};
ghost use Rattle.file_journal.specs.declared.faults.FileFault.TheVariants.{DiskFault, OutOfMemory};

use desk_io::DiskFailed;
use std::alloc::AllocError;

/// Why a file is not opened or read.
#[derive(Clone, Copy, Debug, Drop, PartialEq, Eq)]
pub enum FileFault {
    DiskFault,
    OutOfMemory,
}

impl From<AllocError> for FileFault {
    ghost from_gives = { λ _ e. e ≡ OutOfMemory };

    fn from(_: AllocError) -> FileFault {
        FileFault::OutOfMemory
    }
}

impl From<DiskFailed> for FileFault {
    ghost from_gives = { λ _ e. e ≡ DiskFault };

    fn from(_: DiskFailed) -> FileFault {
        FileFault::DiskFault
    }
}
