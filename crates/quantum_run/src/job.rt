//! Jobs.

ghost use Rattle.std.specs.Prelude.{◌≡◌, ◌+◌, ◌-◌, ◌<◌, ◌≤◌, ◌^◌, IfOk, length};
ghost use Rattle.std.specs.Arc.{arc_value};
ghost use Rattle.tierra_model.specs.Scene.{Scene};
ghost use Rattle.quantum_run.specs.Job.{OfSoundWorld};

use crate::scratch::{Lists, Room, Sheet};
use soup_cells::Version;
use std::alloc::Global;
use std::marker::Model;
use std::sync::Arc;
use tierra_model::{Block, Creature, FreeList, OutOfMemory, Settings, Standing, Yard};

/// A quantum to come: its number, the creature expected at the front, and what a quantum can see of the world as it is now.
/// The two lists are shared with the world that showed them, and not copied.
#[derive(Drop)]
pub struct Job {
    quantum: u64,
    // the settings, the creature expected, and memory for the finding, which no contract sees
    sheet: Box<Sheet>,
    cells: Version,
    free: Arc<FreeList>,
    yard: Arc<Yard>,
}

impl Model for Job {
    ghost use Rattle.std.specs.Prelude.{◌-◌, ◌<◌, ◌≤◌, ◌^◌, length};
    ghost use Rattle.std.specs.Arc.{arc_value};
    ghost use Rattle.tierra_model.specs.Scene.{Scene};
    ghost use Rattle.quantum_run.specs.Job.{OfSoundWorld};

    ghost Value = { Scene };

    ghost view = { λ j. record {
      settings = j.sheet.value.settings;
      quanta = j.quantum - 1;
      front = j.sheet.value.before;
      soup = j.cells;
      free = arc_value j.free;
      yard = arc_value j.yard;
    } };

    ghost invariant = { λ j. (1 ≤ j.quantum) × (length (arc_value j.yard) < 2 ^ 30)
        × OfSoundWorld (record {
          settings = j.sheet.value.settings;
          quanta = j.quantum - 1;
          front = j.sheet.value.before;
          soup = j.cells;
          free = arc_value j.free;
          yard = arc_value j.yard;
        }) };
}

impl Job {
    /// The job of a quantum, made of the parts of one sound world, with memory for its finding. It takes memory only
    /// if `room` is empty.
    pub fn of(
        alloc: Global,
        settings: &Settings,
        quantum: u64,
        front: &Creature,
        cells: Version,
        free: Arc<FreeList>,
        yard: Arc<Yard>,
        room: Room,
    ) -> Result<Job, OutOfMemory>
        requires one { 1 ≤ quantum }
        requires sound { OfSoundWorld (record {
          settings = settings.now;
          quanta = quantum - 1;
          front = front.now;
          soup = cells;
          free = arc_value free;
          yard = arc_value yard;
        }) }
        ensures { IfOk result (λ j. j ≡ record {
          settings = settings.now;
          quanta = quantum - 1;
          front = front.now;
          soup = cells;
          free = arc_value free;
          yard = arc_value yard;
        }) }
    {
        let sheet = room.into_sheet(alloc, settings, front)?;
        Ok(Job {
            quantum,
            sheet,
            cells,
            free,
            yard,
        })
    }

    // Gives up the memory for its lists.
    pub(crate) fn take_lists(&mut self) -> Lists
        ensures { self.new ≡ self.old }
    {
        self.sheet.take_lists()
    }

    // The job's own memory, and the lists that it shares.
    pub(crate) fn into_parts(self) -> (Box<Sheet>, Arc<FreeList>, Arc<Yard>)
        ensures settings { result.0.value.settings ≡ self.settings }
        ensures before { result.0.value.before ≡ self.front }
        ensures free { arc_value result.1 ≡ self.free }
        ensures yard { arc_value result.2 ≡ self.yard }
        ensures sound { OfSoundWorld self }
    {
        (self.sheet, self.free, self.yard)
    }

    pub(crate) fn settings(&self) -> &Settings
        ensures settings { result.now ≡ self.now.settings }
        ensures sound { OfSoundWorld self.now }
    {
        &self.sheet.settings
    }

    pub(crate) fn cells(&self) -> &Version
        ensures cells { result.now ≡ self.now.soup }
        ensures sound { OfSoundWorld self.now }
    {
        &self.cells
    }

    pub(crate) fn free(&self) -> &[Block]
        ensures { result.now ≡ self.now.free }
    {
        &self.free.items
    }

    pub(crate) fn standings(&self) -> &[Standing]
        ensures yard { result.now ≡ self.now.yard }
        ensures few { length self.now.yard < 2 ^ 30 }
    {
        &self.yard.items
    }

    // One more owner of each list.
    pub(crate) fn share_free(&self) -> Result<Arc<FreeList>, OutOfMemory>
        ensures { IfOk result (λ a. arc_value a ≡ self.now.free) }
    {
        Arc::try_clone(&self.free)
    }

    pub(crate) fn share_yard(&self) -> Result<Arc<Yard>, OutOfMemory>
        ensures { IfOk result (λ a. arc_value a ≡ self.now.yard) }
    {
        Arc::try_clone(&self.yard)
    }

    /// The number of the quantum.
    pub fn quantum(&self) -> u64
        ensures { result ≡ self.now.quanta + 1 }
    {
        self.quantum
    }

    /// The creature expected at the front.
    pub fn front(&self) -> &Creature
        ensures { result.now ≡ self.now.front }
    {
        &self.sheet.before
    }
}
