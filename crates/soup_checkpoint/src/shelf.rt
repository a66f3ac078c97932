//! A checkpoint file that is attached.

ghost use Rattle.std.specs.Prelude.{◌≡◌, ◌+◌, ◌<◌, ◌≤◌, ◌^◌, IfErr, IfOk, IfSome, OnOk, Some, length};
ghost use Rattle.desk_io.specs.Desk.{HasNoFault, IsDiskCall, UsesDisk};
ghost use Rattle.world_state.specs.Restoring.{IsStateOf};
ghost use Rattle.file_journal.specs.Files.{ClosesAfter, IsBeforeOrAfter, IsFresh, with_record};
ghost use Rattle.file_journal.specs.Steps.{Becomes, IfTold, IsUnwritten};
ghost use Rattle.soup_checkpoint.specs.Frames.{spelling};
ghost use Rattle.soup_checkpoint.specs.Hold.{owner_of, title};
ghost use Rattle.soup_checkpoint.specs.Shelf.{Appends, Attaches, CountsFaults, HasRoomFor, HoldsUpTo, IfHoldRefused, IsAttached, IsOfFile, Refuses, SaysAsBefore, SaysBeforeOrAfter};

use crate::faults::ShelfFault;
use crate::frames::frame_of;
use crate::owner::Owner;
use crate::recovery::{Held, recover};
use desk_io::{Desk, DiskFailed};
use file_journal::{HEADER_LEN, Room, append, open};
use std::alloc::Global;
use std::marker::Model;
use tierra_model::{Code, OutOfMemory, Setup};
use world_core::World;

/// A checkpoint file in the file of a desk. It keeps no state in memory but the one it is about to append.
#[derive(Drop)]
pub struct Shelf {
    alloc: Global,
    owner: Owner,
    // The place of the closed gate after the frames.
    gate: u64,
    // The next frame, once there is room for it.
    room: Option<Room>,
}

impl Model for Shelf {
    ghost use Rattle.std.specs.Prelude.{◌≡◌, ◌≤◌, ◌^◌, length};
    ghost use Rattle.soup_checkpoint.specs.Shelf.{ShelfState};

    ghost Value = { ShelfState };

    ghost view = { λ s. record {
      owner = s.owner;
      gate = s.gate;
      room = s.room;
    } };

    ghost invariant = { λ s. (length s.owner.digest ≡ 32) × (s.gate ≤ 2 ^ 62) };
}

// A shelf of this owner, with the gate after its frames at this place.
fn shelf_at(alloc: Global, owner: Owner, gate: u64) -> Shelf
    requires most { gate ≤ 2 ^ 62 }
    requires digest { length owner.digest ≡ 32 }
    ensures owner { result.owner ≡ owner }
    ensures gate { result.gate ≡ gate }
{
    Shelf {
        alloc,
        owner,
        gate,
        room: None,
    }
}

// Attaches the owner's file.
fn attach_for<D: Desk>(
    alloc: Global,
    desk: &mut D,
    owner: Owner,
) -> Result<(Shelf, Option<World>), ShelfFault>
    requires sound { HasNoFault (D.state desk.old) }
    ensures attached { IfOk result (λ x. Attaches owner (D.state desk.old) (D.state desk.new) x.0 x.1) }
    ensures refused { IfErr result (λ e. IfHoldRefused e (λ f. IsOfFile f
        × Refuses owner (D.state desk.old) (D.state desk.new) f)) }
    ensures kept { OnOk result (IfSome (D.state desk.old).reads (λ file. (IsFresh title file → ⊥)
        → IsUnwritten (D.state desk.old) (D.state desk.new))) }
    ensures quiet { IfSome (D.state desk.old).reads (λ file. (IsFresh title file → ⊥)
        → UsesDisk (D.state desk.old) (D.state desk.new) (D.state desk.old).may_leave) }
    ensures moments { UsesDisk (D.state desk.old) (D.state desk.new)
        (IfTold (D.state desk.old) (SaysAsBefore owner (D.state desk.old).may_leave)) }
    ensures cause { CountsFaults result (D.state desk.new) }
{
    let header = owner.header();
    let Some(image) = open(alloc, desk, &header)? else {
        return Ok((shelf_at(alloc, owner, HEADER_LEN as u64 - 1), None));
    };
    let Held { world, gate } = recover(alloc, &image, &owner)?;
    Ok((shelf_at(alloc, owner, gate as u64), world))
}

// Appends the frame that a shelf has room for.
fn write_frame<D: Desk>(desk: &mut D, shelf: &Shelf, state: &Code) -> Result<(), DiskFailed>
    requires attached { IsAttached shelf.now (D.state desk.old) }
    requires room { HasRoomFor shelf.now state.now }
    ensures appended { OnOk result (Becomes (D.state desk.old) (D.state desk.new)
        (λ file. ClosesAfter (with_record shelf.now.gate (spelling state.now) file))) }
    ensures most { OnOk result (shelf.now.gate + 1 + length (spelling state.now) < 2 ^ 62) }
    ensures call { IsDiskCall (D.state desk.old) (D.state desk.new) result
        (IfTold (D.state desk.old) (IsBeforeOrAfter shelf.now.gate (spelling state.now))) }
    ensures digest { length shelf.now.owner.digest ≡ 32 }
{
    let _ = state;
    match &shelf.room {
        Some(room) => append(desk, shelf.gate, room),
        None => unreachable!(),
    }
}

// Appends the state that a shelf has room for.
fn write_state<D: Desk>(desk: &mut D, shelf: &Shelf, state: &Code) -> Result<(), DiskFailed>
    requires attached { IsAttached shelf.now (D.state desk.old) }
    requires room { HasRoomFor shelf.now state.now }
    ensures held { OnOk result (Becomes (D.state desk.old) (D.state desk.new)
        (λ file. HoldsUpTo shelf.now.owner (shelf.now.gate + 1 + length (spelling state.now)) state.now)) }
    ensures most { OnOk result (shelf.now.gate + 1 + length (spelling state.now) < 2 ^ 62) }
    ensures call { IsDiskCall (D.state desk.old) (D.state desk.new) result
        (IfTold (D.state desk.old) (SaysBeforeOrAfter shelf.now.owner state.now)) }
{
    write_frame(desk, shelf, state)
}

impl Shelf {
    // The shelf after one more frame.
    fn grown(self, state: &Code) -> Shelf
        requires room { self.room ≡ Some (spelling state.now) }
        requires most { self.gate + 1 + length (spelling state.now) < 2 ^ 62 }
        ensures owner { result.owner ≡ self.owner }
        ensures gate { result.gate ≡ self.gate + 1 + length (spelling state.now) }
    {
        let _ = state;
        let mut shelf = self;
        if let Some(room) = &shelf.room {
            shelf.gate += 1 + room.record_len() as u64;
        }
        shelf
    }

    /// Makes the file durable as it was written, and reads it: the world of its last frame, or none if it has no frame.
    /// A fresh file is made a checkpoint file. A file that is refused is not written.
    pub fn attach<D: Desk>(
        alloc: Global,
        desk: &mut D,
        setup: &Setup,
    ) -> Result<(Shelf, Option<World>), ShelfFault>
        requires sound { HasNoFault (D.state desk.old) }

        // The world is that of the file as it was read at the start. A refusal gives what is wrong with that file.
        ensures attached { IfOk result
            (λ x. Attaches (owner_of setup.now) (D.state desk.old) (D.state desk.new) x.0 x.1) }
        ensures refused { IfErr result (λ e. IfHoldRefused e (λ f. IsOfFile f
            × Refuses (owner_of setup.now) (D.state desk.old) (D.state desk.new) f)) }

        // A file that is not fresh is never written, whatever the outcome.
        ensures kept { OnOk result (IfSome (D.state desk.old).reads (λ file. (IsFresh title file → ⊥)
            → IsUnwritten (D.state desk.old) (D.state desk.new))) }
        ensures quiet { IfSome (D.state desk.old).reads (λ file. (IsFresh title file → ⊥)
            → UsesDisk (D.state desk.old) (D.state desk.new) (D.state desk.old).may_leave) }

        // A crash at any moment leaves an image that says the same as one that a crash might have left at the start, or
        // as the file that was read then.
        ensures moments { UsesDisk (D.state desk.old) (D.state desk.new)
            (IfTold (D.state desk.old) (SaysAsBefore (owner_of setup.now) (D.state desk.old).may_leave)) }
        ensures cause { CountsFaults result (D.state desk.new) }
    {
        let owner = Owner::new(alloc, setup)?;
        attach_for(alloc, desk, owner)
    }

    /// Takes the memory that appending this state needs. Room made for another state before is given up.
    pub fn make_room(&mut self, state: &Code) -> Result<(), OutOfMemory>
        requires short { length state.now < 2 ^ 31 }
        requires sound { IsStateOf self.old.owner.settings state.now }
        ensures room { OnOk result (HasRoomFor self.new state.now) }
        ensures owner { self.new.owner ≡ self.old.owner }
        ensures gate { self.new.gate ≡ self.old.gate }
    {
        self.room = None;
        let frame = frame_of(self.alloc, &state.items)?;
        self.room = Some(Room::new(frame)?);
        Ok(())
    }

    /// Appends a state, and takes no memory. After a failure the file must be attached again, over a new desk.
    pub fn append<D: Desk>(self, desk: &mut D, state: &Code) -> Result<Shelf, DiskFailed>
        requires attached { IsAttached self (D.state desk.old) }
        requires room { HasRoomFor self state.now }
        ensures appended { IfOk result (Appends self state.now (D.state desk.old) (D.state desk.new)) }

        // A crash at any moment leaves an image that says the same as the file before, or one that holds the new state.
        ensures call { IsDiskCall (D.state desk.old) (D.state desk.new) result
            (IfTold (D.state desk.old) (SaysBeforeOrAfter self.owner state.now)) }
    {
        write_state(desk, &self, state)?;
        Ok(self.grown(state))
    }
}
