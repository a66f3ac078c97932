//! Why a checkpoint file could not be attached.

ghost use Rattle.std.specs.Prelude.{◌≡◌};
ghost use Rattle.soup_checkpoint.specs.declared.faults.ShelfFault.TheVariants.{OutOfMemory, Refused};
ghost use Rattle.soup_checkpoint.specs.Shelf.{shelf_fault};

use file_journal::FileFault;
use std::alloc::AllocError;

/// What is wrong with a checkpoint file, or with what is asked of it.
#[derive(Clone, Copy, Debug, Drop, PartialEq, Eq)]
pub enum HoldFault {
    /// The file is no checkpoint file.
    NotAHold,
    /// The file belongs to another setup.
    Foreign,
    /// The frame is not whole or not as it was written, or it is the last one and does not hold a state of the setup.
    /// Frames are numbered from 0.
    Damaged { frame: u64 },
    /// The world that is held has run further than asked for. An attach never gives this fault.
    Beyond { held: u64 },
    /// The state of the quantum has too many bytes for a frame. An attach never gives this fault.
    TooLarge { quantum: u64, bytes: u64 },
}

/// Why a checkpoint file could not be attached.
#[derive(Clone, Copy, Debug, Drop, PartialEq, Eq)]
pub enum ShelfFault {
    Refused(HoldFault),
    DiskFault,
    OutOfMemory,
}

impl From<AllocError> for ShelfFault {
    ghost from_gives = { λ _ e. e ≡ OutOfMemory };

    fn from(_: AllocError) -> ShelfFault {
        ShelfFault::OutOfMemory
    }
}

impl From<FileFault> for ShelfFault {
    ghost from_gives = { λ f e. e ≡ shelf_fault f };

    fn from(fault: FileFault) -> ShelfFault {
        match fault {
            FileFault::DiskFault => ShelfFault::DiskFault,
            FileFault::OutOfMemory => ShelfFault::OutOfMemory,
        }
    }
}

impl From<HoldFault> for ShelfFault {
    ghost from_gives = { λ f e. e ≡ Refused f };

    fn from(fault: HoldFault) -> ShelfFault {
        ShelfFault::Refused(fault)
    }
}
