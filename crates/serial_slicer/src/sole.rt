//! A world that shares no page with a version of its soup.

ghost use Rattle.std.specs.Prelude.{◌≡◌, ◌==◌, ◌↔◌, ◌<◌, ◌^◌, ◌≤◌, IfOk, IsTrue, OnOk, Some, find, length, option_copied, slice_index};
ghost use Rattle.tierra_model.specs.declared.limits.TheConstants.{MOST_SIZE};
ghost use Rattle.tierra_model.specs.declared.events.Event.TheVariants as event;
ghost use Rattle.tierra_model.specs.Events.{apply_event, turn_end as turn_end_of};
ghost use Rattle.tierra_model.specs.Queue.{place_of_first_other};
ghost use Rattle.tierra_model.specs.Replay.{CanHappen, RecordFits};
ghost use Rattle.tierra_model.specs.Room.{is_owned, room_for};
ghost use Rattle.tierra_model.specs.Step.{flip_bit};
ghost use Rattle.tierra_model.specs.World.{front, put};
ghost use Rattle.world_core.specs.Running.{AllReady, IsRunning};
ghost use Rattle.serial_slicer.specs.Turns.{IsTurn, sole_after};

use soup_cells::PAGE;
use std::alloc::Global;
use std::marker::Model;
use tierra_model::{Block, Creature, OutOfMemory, Settings, View};
use world_core::Running;

/// A running world that shares no page, so all its cells are ready. A turn sets cells in its creature's blocks.
#[derive(Drop)]
pub(crate) struct Sole {
    running: Running,
    own: Block,
    daughter: Option<Block>,
}

impl Model for Sole {
    ghost use Rattle.serial_slicer.specs.Turns.{IsSole, SoleFields};

    ghost Value = { SoleFields };

    ghost view = { λ s. record { world = s.running.world; own = s.own; daughter = s.daughter } };

    ghost invariant = { λ s. IsSole s.running };
}

impl View for Sole {
    ghost use Rattle.std.specs.Prelude.{◌||◌, slice_set};
    ghost use Rattle.std.proofs.Common.{length-set, refl};
    ghost use Rattle.tierra_model.specs.Blocks.{is_in, is_in_daughter};
    ghost use Rattle.serial_slicer.specs.Written.{cell-set};

    ghost size = { λ v. length v.world.soup };

    ghost cells = { λ v p. slice_index v.world.soup p };

    ghost writable = { λ v p. is_in v.own p || is_in_daughter v.daughter p };

    ghost looked = { λ v p. v };

    ghost written = { λ v p x. record v { world = record v.world { soup = slice_set v.world.soup p x } } };

    ghost look_keeps_size = { λ v p. refl };

    ghost look_keeps_cells = { λ v p q. refl };

    ghost look_keeps_writable = { λ v p q. refl };

    ghost write_keeps_size = { λ v p x _ _ _. length-set v.world.soup p x };

    ghost write_sets_cell = { λ v p x q here _ _ there. cell-set v.world.soup p x q here };

    ghost write_keeps_writable = { λ v p x q _ _ _. refl };

    fn size(&self) -> u32 {
        self.running.settings().soup_size
    }

    fn get(&mut self, at: u32) -> u8 {
        self.running.cell(at)
    }

    fn may_write(&self, at: u32) -> bool {
        self.own.contains(at) || self.daughter.is_some_and(|block| block.contains(at))
    }

    fn set(&mut self, at: u32, value: u8) {
        self.running.write(at, value);
    }

    fn row(&self) -> Option<&[u8]> {
        Some(self.running.row())
    }
}

impl Sole {
    /// Makes all cells of a world ready.
    pub(crate) fn new(running: Running) -> Result<Sole, OutOfMemory>
        requires { length running.world.soup ≡ running.world.settings.soup_size }
        ensures { IfOk result (λ s. s.world ≡ running.world) }
    {
        let mut running = running;
        make_ready(&mut running)?;
        let none = Block { at: 0, size: 0 };
        Ok(Sole {
            running,
            own: none,
            daughter: None,
        })
    }

    /// The world as it runs.
    pub(crate) fn into_running(self) -> Running
        ensures { result.world ≡ self.world }
    {
        self.running
    }

    pub(crate) fn settings(&self) -> &Settings
        ensures { result.now ≡ self.now.world.settings }
    {
        self.running.settings()
    }

    pub(crate) fn quanta(&self) -> u64
        ensures { result ≡ self.now.world.quanta }
    {
        self.running.quanta()
    }

    /// How many genotypes were saved.
    pub(crate) fn kept(&self) -> u64
        ensures { result ≡ length self.now.world.saved }
    {
        self.running.kept()
    }

    pub(crate) fn births(&self) -> u64
        ensures { result ≡ self.now.world.births }
    {
        self.running.births()
    }

    pub(crate) fn deaths(&self) -> u64
        ensures { result ≡ self.now.world.deaths }
    {
        self.running.deaths()
    }

    /// The record of a creature, if it lives.
    pub(crate) fn creature(&self, id: u64) -> Option<&Creature>
        ensures { option_copied result ≡ find (λ c. c.id == id) self.now.world.living }
    {
        self.running.creature(id)
    }

    /// The creature whose turn it is.
    pub(crate) fn front(&self) -> &Creature
        requires { IsRunning self.now.world }
        ensures { result.now ≡ front self.now.world }
    {
        self.running.front()
    }

    /// Where a daughter block of the size is to go, if there is room.
    pub(crate) fn room_for(&self, size: u32) -> Option<u32>
        requires within { IsRunning self.now.world }
        requires one { 1 ≤ size }
        requires few { size ≤ MOST_SIZE }
        ensures { result ≡ room_for self.now.world.settings (λ p. is_owned self.now.world.living p) size }
    {
        self.running.room_for(size)
    }

    /// Whether the daughter block is where a block of its size is to go, once it is given up.
    pub(crate) fn room_again(&self, block: Block) -> bool
        requires within { IsRunning self.now.world }
        requires held { (front self.now.world).daughter ≡ Some block }
        ensures { IsTrue result ↔ (room_for self.now.world.settings
            (λ p. is_owned (apply_event self.now.world event.GiveUp).living p) block.size ≡ Some block.at) }
    {
        self.running.room_again(block)
    }

    /// The place in the reaper queue of the first creature other than the one whose turn it is.
    pub(crate) fn victim(&self) -> Option<u32>
        requires { IsRunning self.now.world }
        ensures { result ≡ place_of_first_other (front self.now.world).id self.now.world.reaper }
    {
        self.running.victim()
    }

    /// How many creatures live, all of whom are in the reaper queue.
    pub(crate) fn reaper_len(&self) -> u32
        ensures { result ≡ length self.now.world.reaper }
    {
        self.running.reaper_len()
    }

    // ---- events

    /// The background flip of a cell's bit.
    pub(crate) fn flip(&mut self, at: u32, bit: u8)
        requires inside { at < length self.old.world.soup }
        requires bit { bit < 5 }
        ensures { let value = flip_bit (slice_index self.old.world.soup at) (Some bit) in
            self.new ≡ sole_after (event.Write at value) self.old }
    {
        let value = flip_bit(self.running.cell(at), bit);
        self.running.write(at, value);
    }

    /// The creature whose turn it is errs.
    pub(crate) fn err(&mut self)
        requires { IsRunning self.old.world }
        ensures { self.new ≡ sole_after event.Err self.old }
    {
        self.running.err();
    }

    /// It makes a good move in the reaper queue.
    pub(crate) fn good(&mut self)
        requires { IsRunning self.old.world }
        ensures { self.new ≡ sole_after event.Good self.old }
    {
        self.running.good();
    }

    /// It gives up its daughter block.
    pub(crate) fn give_up(&mut self) -> Result<(), OutOfMemory>
        requires within { IsRunning self.old.world }
        requires can { CanHappen self.old.world event.GiveUp }
        ensures { OnOk result (self.new ≡ sole_after event.GiveUp self.old) }
    {
        self.running.reserve_blocks(1)?;
        self.running.give_up();
        self.daughter = None;
        Ok(())
    }

    /// It takes a daughter block.
    pub(crate) fn take(&mut self, block: Block) -> Result<(), OutOfMemory>
        requires within { IsRunning self.old.world }
        requires can { CanHappen self.old.world (event.Mal block.at block.size) }
        ensures { OnOk result (self.new ≡ sole_after (event.Mal block.at block.size) self.old) }
    {
        self.running.reserve_blocks(1)?;
        self.running.mal(block);
        self.daughter = Some(block);
        Ok(())
    }

    /// The creature at a place of the reaper queue, not the one whose turn it is, dies.
    pub(crate) fn reap(&mut self, place: u32) -> Result<(), OutOfMemory>
        requires within { IsRunning self.old.world }
        requires can { CanHappen self.old.world (event.Reap place) }
        ensures { OnOk result (self.new ≡ sole_after (event.Reap place) self.old) }
    {
        self.running.reserve_blocks(2)?;
        self.running.reap(place);
        Ok(())
    }

    /// Its daughter is born, at the cost of `ran` and `moved`.
    pub(crate) fn bear(&mut self, alloc: Global, ran: u64, moved: u64) -> Result<(), OutOfMemory>
        requires within { IsRunning self.old.world }
        requires can { CanHappen self.old.world (event.Divide ran moved) }
        ensures { OnOk result (self.new ≡ sole_after (event.Divide ran moved) self.old) }
    {
        let code = self.running.daughter_code(alloc)?;
        self.running.reserve(1, 0)?;
        self.running.divide(ran, moved, code);
        self.daughter = None;
        Ok(())
    }

    // ---- turns

    /// The record of the creature whose turn it is, in whose blocks cells may now be set.
    pub(crate) fn begin_turn(&mut self) -> Creature
        requires { IsRunning self.old.world }
        ensures world { self.new.world ≡ self.old.world }
        ensures record { result ≡ front self.old.world }
        ensures turn { IsTurn result self.new }
    {
        let creature = *self.running.front();
        self.own = creature.own;
        self.daughter = creature.daughter;
        creature
    }

    /// The creature, which has this record now, goes to the back of the slicer queue, and the quantum is counted.
    pub(crate) fn end_turn(&mut self, after: &Creature)
        requires within { IsRunning self.old.world }
        requires fits { RecordFits (front self.old.world) after.now }
        ensures { self.new.world ≡ turn_end_of (put after.now self.old.world) }
    {
        self.running.put(after);
        self.running.turn_end();
    }
}

ghost use Rattle.std.specs.Prelude.{◌+◌};

// Makes all cells of a world ready.
fn make_ready(running: &mut Running) -> Result<(), OutOfMemory>
    requires { length running.old.world.soup ≡ running.old.world.settings.soup_size }
    ensures world { OnOk result (running.new.world ≡ running.old.world) }
    ensures ready { OnOk result (AllReady running.new) }
{
    let last = (running.settings().soup_size - 1) / PAGE;
    for page in 0..last + 1 {
        running.ready(page * PAGE)?;
    }
    Ok(())
}

// The value with the bit flipped.
fn flip_bit(value: u8, bit: u8) -> u8
    requires value { value < 32 }
    requires bit { bit < 5 }
    ensures flip { result ≡ flip_bit value (Some bit) }
    ensures below { result < 32 }
{
    value ^ (1 << bit)
}
