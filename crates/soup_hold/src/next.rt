//! From one checkpoint to the next.

ghost use Rattle.std.specs.Prelude.{◌≡◌, ◌-◌, ◌≤◌, ◌⊎◌, IfErr, IfOk, IfSome};
ghost use Rattle.desk_io.specs.Desk.{Elapses, TellsText, UsesDisk};
ghost use Rattle.file_journal.specs.Steps.{IfTold};
ghost use Rattle.serial_slicer.specs.Onward.{after};
ghost use Rattle.soup_checkpoint.specs.Shelf.{IsAttached, SaysSame};
ghost use Rattle.soup_hold.specs.Holding.{HoldsWorld};
ghost use Rattle.soup_hold.specs.Steps.{HoldsNext, IsHoldingNext, IsLargeAt};
ghost use Rattle.soup_hold.specs.Stops.{CountsStops, IfRefused};
ghost use Rattle.soup_hold.specs.Text.{held_line};
ghost use Rattle.tierra_model.specs.declared.limits.TheConstants.{MOST_QUANTA};

use crate::stop::HoldStop;
use desk_io::Desk;
use serial_slicer::run_on;
use soup_checkpoint::{HoldFault, Shelf};
use std::alloc::Global;
use tierra_model::{OutOfMemory, Text};
use world_core::World;

/// The state in a frame has fewer bytes than this.
const MOST_BYTES: usize = 1 << 31;

// The line of a checkpoint.
fn held_line(alloc: Global, quantum: u64) -> Result<Text, OutOfMemory>
    ensures { IfOk result (λ text. text ≡ held_line quantum) }
{
    let line = format!(in alloc; "held {quantum}\n")?;
    let items = line.into_bytes();
    Ok(Text { items })
}

// Appends the state of the world.
fn keep_state<D: Desk>(
    alloc: Global,
    desk: &mut D,
    shelf: Shelf,
    world: &World,
) -> Result<Shelf, HoldStop>
    requires attached { IsAttached shelf (D.state desk.old) }
    requires settings { world.now.world.settings ≡ shelf.owner.settings }
    ensures held { IfOk result (HoldsNext shelf world.now.world (D.state desk.old) (D.state desk.new)) }
    ensures large { IfErr result (λ s. IfRefused s (IsLargeAt world.now.world world.now.world.quanta)) }
    ensures moments { UsesDisk (D.state desk.old) (D.state desk.new) (IfTold (D.state desk.old) (λ file image.
        SaysSame shelf.owner file image ⊎ HoldsWorld shelf.owner world.now.world image)) }
    ensures counts { CountsStops result (D.state desk.new) }
{
    let state = world.state_bytes(alloc)?;
    let bytes = state.items.len();
    if bytes >= MOST_BYTES {
        return Err(HoldStop::Refused(HoldFault::TooLarge {
            quantum: world.quanta(),
            bytes: bytes as u64,
        }));
    }
    let mut shelf = shelf;
    shelf.make_room(&state)?;
    Ok(shelf.append(desk, &state)?)
}

// Appends the state of the world, and then tells its line.
fn keep_and_tell<D: Desk>(
    alloc: Global,
    desk: &mut D,
    shelf: Shelf,
    world: &World,
) -> Result<Shelf, HoldStop>
    requires attached { IsAttached shelf (D.state desk.old) }
    requires settings { world.now.world.settings ≡ shelf.owner.settings }
    ensures held { IfOk result (HoldsNext shelf world.now.world (D.state desk.old) (D.state desk.new)) }
    ensures large { IfErr result (λ s. IfRefused s (IsLargeAt world.now.world world.now.world.quanta)) }
    ensures moments { IfSome (D.state desk.old).reads (λ file. Elapses (D.state desk.old) (D.state desk.new)
        (IsHoldingNext shelf.owner file world.now.world (held_line world.now.world.quanta) (D.state desk.old).told)) }
    ensures told { TellsText (D.state desk.old) (D.state desk.new) (held_line world.now.world.quanta) result }
    ensures counts { CountsStops result (D.state desk.new) }
{
    let shelf = keep_state(alloc, desk, shelf, world)?;
    let line = held_line(alloc, world.quanta())?;
    desk.tell(&line.items)?;
    Ok(shelf)
}

/// Runs the world on to the quantum, appends its state, and tells its line.
pub(crate) fn hold_next<D: Desk>(
    alloc: Global,
    desk: &mut D,
    shelf: Shelf,
    world: World,
    quantum: u64,
) -> Result<(Shelf, World), HoldStop>
    requires attached { IsAttached shelf (D.state desk.old) }
    requires settings { world.world.settings ≡ shelf.owner.settings }
    requires later { world.world.quanta ≤ quantum }
    requires few { quantum ≤ MOST_QUANTA }
    ensures world { IfOk result (λ x. x.1.world ≡ after (quantum - world.world.quanta) world.world) }
    ensures held { IfOk result (λ x. HoldsNext shelf (after (quantum - world.world.quanta) world.world)
        (D.state desk.old) (D.state desk.new) x.0) }
    ensures large { IfErr result (λ s. IfRefused s
        (IsLargeAt (after (quantum - world.world.quanta) world.world) quantum)) }
    ensures moments { IfSome (D.state desk.old).reads (λ file. Elapses (D.state desk.old) (D.state desk.new)
        (IsHoldingNext shelf.owner file (after (quantum - world.world.quanta) world.world) (held_line quantum)
        (D.state desk.old).told)) }
    ensures told { TellsText (D.state desk.old) (D.state desk.new) (held_line quantum) result }
    ensures counts { CountsStops result (D.state desk.new) }
{
    let _ = world.settings();
    let more = quantum - world.quanta();
    let world = run_on(alloc, world, more)?;
    let shelf = keep_and_tell(alloc, desk, shelf, &world)?;
    Ok((shelf, world))
}
