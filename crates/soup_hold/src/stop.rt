//! Why a run that keeps checkpoints stops before it is done.

ghost use Rattle.std.specs.Prelude.{◌≡◌};
ghost use Rattle.soup_hold.specs.Stops.{stop_of};
ghost use Rattle.soup_hold.specs.declared.stop.HoldStop.TheVariants.{DiskFault, OutOfMemory, TellFault};

use desk_io::{DiskFailed, TellFailed};
use soup_checkpoint::{HoldFault, ShelfFault};
use std::alloc::AllocError;

/// Why a run that keeps checkpoints stops before it is done.
#[derive(Clone, Copy, Debug, Drop, PartialEq, Eq)]
pub enum HoldStop {
    Refused(HoldFault),
    DiskFault,
    TellFault,
    OutOfMemory,
}

impl From<AllocError> for HoldStop {
    ghost from_gives = { λ _ e. e ≡ OutOfMemory };

    fn from(_: AllocError) -> HoldStop {
        HoldStop::OutOfMemory
    }
}

impl From<DiskFailed> for HoldStop {
    ghost from_gives = { λ _ e. e ≡ DiskFault };

    fn from(_: DiskFailed) -> HoldStop {
        HoldStop::DiskFault
    }
}

impl From<TellFailed> for HoldStop {
    ghost from_gives = { λ _ e. e ≡ TellFault };

    fn from(_: TellFailed) -> HoldStop {
        HoldStop::TellFault
    }
}

impl From<ShelfFault> for HoldStop {
    ghost from_gives = { λ fault e. e ≡ stop_of fault };

    fn from(fault: ShelfFault) -> HoldStop {
        match fault {
            ShelfFault::Refused(fault) => HoldStop::Refused(fault),
            ShelfFault::DiskFault => HoldStop::DiskFault,
            ShelfFault::OutOfMemory => HoldStop::OutOfMemory,
        }
    }
}
