//! A file, read in pieces.

ghost use Rattle.std.specs.Prelude.{◌≡◌, IfOk, IfSome, OnOk, length};
ghost use Rattle.desk_io.specs.Desk.{HasNoFault, IsDiskCall, IsSynced, NoMore, Untouched, UsesDisk};
ghost use Rattle.file_journal.specs.Steps.{CountsFaults, IsReadOf};

use crate::faults::FileFault;
use crate::header::HEADER_LEN;
use desk_io::{Desk, DiskFailed};
use std::alloc::Global;

/// The most bytes that are read in one call.
const PIECE_LEN: usize = 65_536;

// Reads the whole file.
fn read_pieces<D: Desk>(desk: &mut D, bytes: &mut [u8]) -> Result<(), DiskFailed>
    requires sound { HasNoFault (D.state desk.old) }
    requires whole { IfSome (D.state desk.old).reads (λ file. length bytes.old ≡ length file) }
    ensures bytes { OnOk result (IfSome (D.state desk.old).reads (λ file. bytes.new ≡ file)) }
    ensures untouched { Untouched (D.state desk.old) (D.state desk.new) }
    ensures call { IsDiskCall (D.state desk.old) (D.state desk.new) result (D.state desk.old).may_leave }
{
    let len = bytes.len();
    let mut at = 0;
    while at < len {
        let end = at + PIECE_LEN.min(len - at);
        desk.read_at(at as u64, &mut bytes[at..end])?;
        at = end;
    }
    Ok(())
}

/// The whole file, or `None` if it is too short for a header.
pub fn read_file<D: Desk>(alloc: Global, desk: &mut D) -> Result<Option<Vec<u8>>, FileFault>
    requires sound { HasNoFault (D.state desk.old) }
    ensures read { IfOk result (λ o. IsReadOf o (D.state desk.old)) }
    ensures untouched { Untouched (D.state desk.old) (D.state desk.new) }
    ensures uses { UsesDisk (D.state desk.old) (D.state desk.new) (D.state desk.old).may_leave }
    ensures cause { CountsFaults result (D.state desk.new) }
{
    let len = desk.len()?;
    if len < HEADER_LEN as u64 {
        return Ok(None);
    }
    let mut bytes = vec![in alloc; 0; len as usize]?;
    read_pieces(desk, &mut bytes)?;
    Ok(Some(bytes))
}

/// Makes what was written of the file durable, and gives the whole file.
pub fn load<D: Desk>(alloc: Global, desk: &mut D) -> Result<Option<Vec<u8>>, FileFault>
    requires sound { HasNoFault (D.state desk.old) }
    ensures read { IfOk result (λ o. IsReadOf o (D.state desk.old)) }
    ensures synced { OnOk result (IsSynced (D.state desk.old) (D.state desk.new)) }
    ensures crash { NoMore (D.state desk.old).may_leave (D.state desk.new).may_leave }
    ensures uses { UsesDisk (D.state desk.old) (D.state desk.new) (D.state desk.old).may_leave }
    ensures cause { CountsFaults result (D.state desk.new) }
{
    desk.sync()?;
    read_file(alloc, desk)
}
