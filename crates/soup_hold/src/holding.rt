//! A run that goes on from a file, to its last quantum.

ghost use Rattle.std.specs.Prelude.{◌≡◌, ◌-◌, ◌<◌, ◌≤◌, All, IfErr, IfOk, IfSome, OnOk, Some, length};
ghost use Rattle.desk_io.specs.Desk.{Elapses, HasNoFault, TellsText, UsesDisk};
ghost use Rattle.desk_io.specs.Told.{AppendedLess};
ghost use Rattle.file_journal.specs.Files.{IsFresh};
ghost use Rattle.file_journal.specs.Steps.{IfTold, IsUnwritten};
ghost use Rattle.report_text.specs.Report.{report};
ghost use Rattle.serial_slicer.specs.Onward.{after};
ghost use Rattle.soup_checkpoint.specs.declared.faults.HoldFault.{HoldFault};
ghost use Rattle.soup_checkpoint.specs.Hold.{owner_of, title};
ghost use Rattle.soup_checkpoint.specs.Shelf.{IsAttached, IsOfFile, Refuses, SaysAsBefore, SaysSame, ShelfState};
ghost use Rattle.soup_hold.specs.Ending.{IsDone, IsStopped};
ghost use Rattle.soup_hold.specs.Holding.{HoldsOn, IsEarly, IsHolding, IsLast, IsSmall, RefusesHold};
ghost use Rattle.soup_hold.specs.Steps.{Begins, HasHeld, HasStopped, IsLargeFirst};
ghost use Rattle.soup_hold.specs.Stops.{CountsStops, IfRefused, UnlessTelling};
ghost use Rattle.soup_hold.specs.Text.{held_quanta, hold_text, world_at};
ghost use Rattle.tierra_model.specs.declared.limits.TheConstants.{MOST_QUANTA};
ghost use Rattle.tierra_model.specs.Setups.{IsSetup};

use crate::next::hold_next;
use crate::stop::HoldStop;
use desk_io::Desk;
use report_text::report;
use serial_slicer::run_on;
use soup_checkpoint::{HoldFault, Shelf};
use std::alloc::Global;
use tierra_model::{Setup, Text};
use world_core::World;

// Appends the world after each quantum that `every` divides, from this world on up to the last, and tells its line.
fn hold_each<D: Desk>(
    alloc: Global,
    desk: &mut D,
    shelf: Shelf,
    world: World,
    quanta: u64,
    every: u64,
) -> Result<World, HoldStop>
    requires attached { IsAttached shelf (D.state desk.old) }
    requires settings { world.world.settings ≡ shelf.owner.settings }
    requires not_beyond { world.world.quanta ≤ quanta }
    requires few { quanta ≤ MOST_QUANTA }
    requires every { 1 ≤ every }
    ensures held { IfOk result (λ w. (s : ShelfState)
        × HasHeld shelf.owner world.world (held_quanta every world.world.quanta quanta)
        (D.state desk.old) (D.state desk.new) (length (held_quanta every world.world.quanta quanta)) s w.world) }
    ensures later { IfOk result (λ w. w.world.quanta ≤ quanta) }
    ensures last { IfOk result (λ w. after (quanta - w.world.quanta) w.world ≡ world_at world.world quanta) }
    ensures stopped { IfErr result (HasStopped shelf.owner world.world (held_quanta every world.world.quanta quanta)
        (D.state desk.old) (D.state desk.new)) }
{
    let _ = world.settings();
    let mut shelf = shelf;
    let mut world = world;
    let from = world.quanta() / every + 1;
    let to = quanta / every + 1;
    for number in from..to {
        let (next_shelf, next_world) = hold_next(alloc, desk, shelf, world, number * every)?;
        shelf = next_shelf;
        world = next_world;
    }
    Ok(world)
}

// Runs the world on to the last quantum, and gives its report.
fn last_report(alloc: Global, world: World, quanta: u64) -> Result<Text, HoldStop>
    requires later { world.world.quanta ≤ quanta }
    requires few { quanta ≤ MOST_QUANTA }
    ensures text { IfOk result (λ text. text ≡ report (after (quanta - world.world.quanta) world.world)) }
    ensures memory { IfErr result (λ s. s ≡ HoldStop.OutOfMemory) }
{
    let rest = quanta - world.quanta();
    let world = run_on(alloc, world, rest)?;
    Ok(report(alloc, &world)?)
}

// Appends and tells the checkpoints, runs the world on to the last quantum, and tells the report.
fn hold_from<D: Desk>(
    alloc: Global,
    desk: &mut D,
    shelf: Shelf,
    world: World,
    quanta: u64,
    every: u64,
) -> Result<(), HoldStop>
    requires attached { IsAttached shelf (D.state desk.old) }
    requires settings { world.world.settings ≡ shelf.owner.settings }
    requires not_beyond { world.world.quanta ≤ quanta }
    requires few { quanta ≤ MOST_QUANTA }
    requires every { 1 ≤ every }
    ensures told { TellsText (D.state desk.old) (D.state desk.new) (hold_text world.world quanta every) result }
    ensures unfinished { IfErr result (λ s. UnlessTelling s
        (AppendedLess (D.state desk.old).told (hold_text world.world quanta every) (D.state desk.new).told)) }
    ensures small { OnOk result (All
        (λ q. IsSmall (world_at world.world q)) (held_quanta every world.world.quanta quanta)) }
    ensures large { IfErr result (λ s. IfRefused s
        (IsLargeFirst world.world (held_quanta every world.world.quanta quanta))) }
    ensures moments { IfSome (D.state desk.old).reads (λ file. Elapses (D.state desk.old) (D.state desk.new)
        (IsHolding shelf.owner (SaysSame shelf.owner file) world.world (held_quanta every world.world.quanta quanta)
        (hold_text world.world quanta every) (D.state desk.old).told)) }
    ensures last { OnOk result (IfSome (D.state desk.old).reads (λ file.
        IsLast shelf.owner (SaysSame shelf.owner file) world.world (held_quanta every world.world.quanta quanta)
        (D.state desk.new))) }
    ensures counts { CountsStops result (D.state desk.new) }
{
    let world = hold_each(alloc, desk, shelf, world, quanta, every)?;
    let text = last_report(alloc, world, quanta)?;
    desk.tell(&text.items)?;
    Ok(())
}

// The shelf of the setup's file, and the world that a run goes on from.
fn begin<D: Desk>(alloc: Global, desk: &mut D, setup: &Setup) -> Result<(Shelf, World), HoldStop>
    requires sound { HasNoFault (D.state desk.old) }
    ensures begun { IfOk result (λ x. Begins setup.now (D.state desk.old) (D.state desk.new) x.0 x.1.world) }
    ensures refused { IfErr result (λ s. IfRefused s (λ f. IsOfFile f
        × Refuses (owner_of setup.now) (D.state desk.old) (D.state desk.new) f)) }
    ensures kept { OnOk result (IfSome (D.state desk.old).reads (λ file. (IsFresh title file → ⊥)
        → IsUnwritten (D.state desk.old) (D.state desk.new))) }
    ensures quiet { IfSome (D.state desk.old).reads (λ file. (IsFresh title file → ⊥)
        → UsesDisk (D.state desk.old) (D.state desk.new) (D.state desk.old).may_leave) }
    ensures moments { UsesDisk (D.state desk.old) (D.state desk.new)
        (IfTold (D.state desk.old) (SaysAsBefore (owner_of setup.now) (D.state desk.old).may_leave)) }
    ensures counts { CountsStops result (D.state desk.new) }
{
    let (shelf, held) = Shelf::attach(alloc, desk, setup)?;
    let world = match held {
        Some(world) => world,
        None => World::start(alloc, setup)?,
    };
    Ok((shelf, world))
}

/// Runs the setup to the last quantum, from the world that its file holds or else from the start. After each quantum
/// that `every` divides it appends the world's state to the file, and then tells its line. At the end it tells the
/// report.
pub fn hold<D: Desk>(
    alloc: Global,
    desk: &mut D,
    setup: &Setup,
    quanta: u64,
    every: u64,
) -> Result<(), HoldStop>
    requires few { quanta ≤ MOST_QUANTA }
    requires every { 1 ≤ every }
    requires sound { HasNoFault (D.state desk.old) }

    // A run that is done has told its whole text, and none of its states was too large. One that stopped has told nothing
    // or the first bytes of it, and not all of them unless a tell failed. A refusal has its reason.
    ensures done { OnOk result (IsDone setup.now quanta every (D.state desk.old) (D.state desk.new)) }
    ensures stopped { IfErr result (IsStopped setup.now quanta every (D.state desk.old) (D.state desk.new)) }

    // A file that is refused before any state is appended is not written at any moment.
    ensures quiet { (f : HoldFault) → IsEarly f → IfSome (D.state desk.old).reads (λ file.
        RefusesHold setup.now quanta every (Some file) f
        → Elapses (D.state desk.old) (D.state desk.new) (λ image text. (D.state desk.old).may_leave image)) }

    // At each moment the image says what the file might have said at the start, and nothing was told since; or it holds
    // what a read gave then, or a world appended since: no earlier than any whose line was told, and at most one later.
    ensures moments { HoldsOn setup.now quanta every (D.state desk.old) (D.state desk.new) }
    ensures counts { CountsStops result (D.state desk.new) }

    // What the type of a setup keeps.
    ensures setup { IsSetup setup.now }
{
    is_setup(setup);
    let (shelf, world) = begin(alloc, desk, setup)?;
    let held = world.quanta();
    if held > quanta {
        return Err(HoldStop::Refused(HoldFault::Beyond { held }));
    }
    hold_from(alloc, desk, shelf, world, quanta, every)
}

// Does nothing: its contract is what the type of a setup keeps.
fn is_setup(setup: &Setup)
    ensures { IsSetup setup.now }
{
    let _settings = &setup.settings;
}
