//! Appending a record after the closed gate of a file.

ghost use Rattle.std.specs.Prelude.{◌≤◌, ◌<◌, ◌+◌, ◌^◌, IfSome, OnOk, length, take};
ghost use Rattle.desk_io.specs.Desk.{IsDiskCall, IsSettled};
ghost use Rattle.file_journal.specs.Files.{ClosesAfter, IsBeforeOrAfter, IsClosedAt, IsStaged, Stages, with_record};
ghost use Rattle.file_journal.specs.Steps.{Becomes, IfTold};

use crate::room::Room;
use crate::writes::put;
use desk_io::{Desk, DiskFailed};

/// An open gate.
const OPEN: u8 = 1;

// Writes the record, and a closed gate after it, after the closed gate at the place.
fn stage<D: Desk>(desk: &mut D, gate: u64, room: &Room) -> Result<(), DiskFailed>
    requires settled { IsSettled (D.state desk.old) }
    requires most { gate ≤ 2 ^ 62 }
    requires closed { IfSome (D.state desk.old).reads (IsClosedAt gate) }
    ensures staged { OnOk result (Becomes (D.state desk.old) (D.state desk.new) (Stages gate room.now)) }
    ensures most { OnOk result (gate + 1 + length room.now < 2 ^ 62) }
    ensures call { IsDiskCall (D.state desk.old) (D.state desk.new) result
        (IfTold (D.state desk.old) (λ file. ClosesAfter (take gate file))) }
{
    put(desk, gate + 1, room.bytes())
}

// Opens the gate that has a record written after it.
fn open_gate<D: Desk>(desk: &mut D, gate: u64, room: &Room) -> Result<(), DiskFailed>
    requires settled { IsSettled (D.state desk.old) }
    requires staged { IfSome (D.state desk.old).reads (IsStaged gate room.now) }
    ensures opened { OnOk result (Becomes (D.state desk.old) (D.state desk.new)
        (λ file. ClosesAfter (with_record gate room.now file))) }
    ensures call { IsDiskCall (D.state desk.old) (D.state desk.new) result
        (IfTold (D.state desk.old) (IsBeforeOrAfter gate room.now)) }
{
    let _ = room;
    put(desk, gate, &[OPEN])
}

/// Appends a record after the closed gate at a place. The next closed gate comes after the record.
pub fn append<D: Desk>(desk: &mut D, gate: u64, room: &Room) -> Result<(), DiskFailed>
    requires settled { IsSettled (D.state desk.old) }
    requires most { gate ≤ 2 ^ 62 }
    requires closed { IfSome (D.state desk.old).reads (IsClosedAt gate) }
    ensures appended { OnOk result
        (Becomes (D.state desk.old) (D.state desk.new) (λ file. ClosesAfter (with_record gate room.now file))) }
    ensures most { OnOk result (gate + 1 + length room.now < 2 ^ 62) }

    // A crash at any moment leaves the file as it was up to the closed gate, or with the record after an open one.
    ensures call { IsDiskCall (D.state desk.old) (D.state desk.new) result
        (IfTold (D.state desk.old) (IsBeforeOrAfter gate room.now)) }
{
    stage(desk, gate, room)?;
    open_gate(desk, gate, room)
}
