//! A write that is made durable.

ghost use Rattle.std.specs.Prelude.{◌<◌, ◌≤◌, ◌+◌, ◌^◌, IfSome, OnOk, length};
ghost use Rattle.desk_io.specs.Desk.{IsDiskCall, IsSettled, Torn};
ghost use Rattle.file_journal.specs.Steps.{IfTold, IsWritten};

use desk_io::{Desk, DiskFailed};

/// Writes a piece and makes it durable. Until then a crash may leave it torn.
pub fn put<D: Desk>(desk: &mut D, at: u64, piece: &[u8]) -> Result<(), DiskFailed>
    requires settled { IsSettled (D.state desk.old) }
    requires inside { IfSome (D.state desk.old).reads (λ file. at ≤ length file) }
    requires some { 0 < length piece.now }
    ensures written { OnOk result (IsWritten (D.state desk.old) at piece.now (D.state desk.new)) }
    ensures most { OnOk result (at + length piece.now ≤ 2 ^ 62) }
    ensures call { IsDiskCall (D.state desk.old) (D.state desk.new) result
        (IfTold (D.state desk.old) (Torn at (length piece.now))) }
{
    desk.write_at(at, piece)?;
    desk.sync()
}
