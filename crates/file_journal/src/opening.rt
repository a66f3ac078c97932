//! Opening a file.

ghost use Rattle.std.specs.Prelude.{◌≡◌, ◌≤◌, IfNone, IfOk, IfSome, OnOk, false, length, true};
ghost use Rattle.desk_io.specs.Desk.{HasNoFault, IsSettled, UsesDisk};
ghost use Rattle.file_journal.specs.Creating.{IsAtStage, IsMade, IsMaking};
ghost use Rattle.file_journal.specs.Files.{IsFresh, IsTitle};
ghost use Rattle.file_journal.specs.Opening.{IsFound, IsLeftOrMaking, IsNew};
ghost use Rattle.file_journal.specs.Steps.{Becomes, CountsFaults, IfTold};

use crate::creating::{Stage, create, stage_of};
use crate::faults::FileFault;
use crate::header::{Header, is_fresh};
use crate::reading::load;
use desk_io::Desk;
use std::alloc::Global;

// Gives a fresh file its header.
fn make<D: Desk>(
    alloc: Global,
    desk: &mut D,
    stage: Stage,
    header: &Header,
) -> Result<(), FileFault>
    requires settled { IsSettled (D.state desk.old) }
    requires title { IsTitle header.now.title }
    requires stage { IfSome (D.state desk.old).reads (IsAtStage header.now.title stage) }
    ensures made { OnOk result (Becomes (D.state desk.old) (D.state desk.new) (λ file. IsMade header.now)) }
    ensures moments { UsesDisk (D.state desk.old) (D.state desk.new)
        (IfTold (D.state desk.old) (λ file. IsMaking header.now)) }
    ensures cause { CountsFaults result (D.state desk.new) }
{
    let bytes = header.to_bytes(alloc)?;
    create(desk, stage, header, &bytes)?;
    Ok(())
}

// Gives the file a header if what was read of it is fresh.
fn make_fresh<D: Desk>(
    alloc: Global,
    desk: &mut D,
    header: &Header,
    image: &[u8],
) -> Result<bool, FileFault>
    requires settled { IsSettled (D.state desk.old) }
    requires title { IsTitle header.now.title }
    requires image { IfSome (D.state desk.old).reads (λ file. image.now ≡ file) }
    requires long { 45 ≤ length image.now }
    ensures made { IfOk result (λ made. made ≡ true → IsFresh header.now.title image.now
        × Becomes (D.state desk.old) (D.state desk.new) (λ file. IsMade header.now)) }
    ensures left { IfOk result (λ made. made ≡ false → (IsFresh header.now.title image.now → ⊥)) }
    ensures unwritten { (IsFresh header.now.title image.now → ⊥) → desk.new ≡ desk.old }
    ensures moments { UsesDisk (D.state desk.old) (D.state desk.new)
        (IfTold (D.state desk.old) (λ file image. IsFresh header.now.title file × IsMaking header.now image)) }
    ensures cause { CountsFaults result (D.state desk.new) }
{
    if !is_fresh(&header.title, image) {
        return Ok(false);
    }
    make(alloc, desk, stage_of(&header.title, image), header)?;
    Ok(true)
}

/// Makes what was written of the file durable, and reads it. A fresh file gets its header, and there is nothing to
/// read: `None`. Any other file is not written.
pub fn open<D: Desk>(
    alloc: Global,
    desk: &mut D,
    header: &Header,
) -> Result<Option<Vec<u8>>, FileFault>
    requires sound { HasNoFault (D.state desk.old) }
    requires title { IsTitle header.now.title }
    ensures new { IfOk result (λ o. IfNone o (IsNew header.now (D.state desk.old) (D.state desk.new))) }
    ensures found { IfOk result (λ o. IfSome o
        (λ image. IsFound header.now.title image.items (D.state desk.old) (D.state desk.new))) }

    // Whatever the result, a file that is not fresh is never written.
    ensures quiet { IfSome (D.state desk.old).reads (λ file. (IsFresh header.now.title file → ⊥)
        → UsesDisk (D.state desk.old) (D.state desk.new) (D.state desk.old).may_leave) }
    ensures moments { UsesDisk (D.state desk.old) (D.state desk.new)
        (IfTold (D.state desk.old) (IsLeftOrMaking header.now (D.state desk.old).may_leave)) }
    ensures cause { CountsFaults result (D.state desk.new) }
{
    let Some(image) = load(alloc, desk)? else {
        make(alloc, desk, Stage::Short, header)?;
        return Ok(None);
    };
    if make_fresh(alloc, desk, header, &image)? {
        return Ok(None);
    }
    Ok(Some(image))
}
