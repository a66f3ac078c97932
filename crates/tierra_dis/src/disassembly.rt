//! The listing of a code.

ghost use Rattle.std.specs.Prelude.{◌≡◌, ◌⊎◌, ◌≤◌, length, IfOk, IfErr};
ghost use Rattle.tierra_dis.specs.Disassembly.{listing_text};
ghost use Rattle.tierra_dis.specs.declared.disassembly.DisFault.TheVariants.{OutOfMemory};
ghost use Rattle.tierra_model.specs.declared.limits.TheConstants.{MOST_SIZE};

use soup_ops::{name, op_of};
use std::alloc::{AllocError, AllocFailed, Global};
use tierra_model::Text;

/// Why bytes have no listing.
#[derive(Clone, Copy, Debug, Drop, PartialEq, Eq)]
pub enum DisFault {
    /// The byte at this place, counted from 1, is the first that is no instruction.
    NotAnOp { place: u32 },
    /// No memory was left.
    OutOfMemory,
}

impl From<AllocError> for DisFault {
    ghost from_gives = { λ _ e. e ≡ OutOfMemory };

    fn from(_: AllocError) -> DisFault {
        DisFault::OutOfMemory
    }
}

impl<T: Drop> From<AllocFailed<T>> for DisFault {
    ghost from_gives = { λ _ e. e ≡ OutOfMemory };

    fn from(_: AllocFailed<T>) -> DisFault {
        DisFault::OutOfMemory
    }
}

/// The listing of a code: the name of each instruction on a line of its own.
pub fn disassemble(alloc: Global, code: &[u8]) -> Result<Text, DisFault>
    requires { length code.now ≤ MOST_SIZE }
    ensures text { IfOk result (λ text. listing_text code.now ≡ Ok text) }
    ensures fault { IfErr result (λ fault. (fault ≡ DisFault.OutOfMemory) ⊎ (listing_text code.now ≡ Err fault)) }
{
    let mut items = Vec::new(alloc);
    for (index, byte) in code.iter().enumerate() {
        let Some(op) = op_of(*byte) else {
            return Err(DisFault::NotAnOp {
                place: index as u32 + 1,
            });
        };
        items.extend_from_slice(name(op).as_bytes())?;
        items.push(b'\n')?;
    }
    Ok(Text { items })
}
