//! Memory that quanta use one after another.

ghost use Rattle.std.specs.Prelude.{◌≡◌, ◌≤◌, [], IfOk, vec_capacity, vec_len};
ghost use Rattle.read_sets.specs.Reads.{nothing};

use block_alloc::Blocks;
use read_sets::Reads;
use std::alloc::Global;
use std::mem;
use tierra_model::{Creature, Event, EventList, OutOfMemory, Settings, Standing};

/// Room for the copies of a job's free runs and yard, which a quantum makes when it changes them.
#[derive(Drop)]
pub(crate) struct Copies {
    pub(crate) free: Blocks,
    pub(crate) yard: Vec<Standing>,
}

impl Copies {
    pub(crate) fn new(alloc: Global) -> Copies {
        Copies {
            free: Blocks::full(alloc, 0),
            yard: Vec::new(alloc),
        }
    }
}

/// The lists that a quantum makes: what it read, and its events.
#[derive(Drop)]
pub(crate) struct Lists {
    pub(crate) reads: Reads,
    pub(crate) events: Vec<Event>,
}

impl Lists {
    pub(crate) fn new(alloc: Global) -> Lists {
        Lists {
            reads: Reads::empty(alloc),
            events: Vec::new(alloc),
        }
    }

    /// The same lists, emptied, with room for this many cells and events.
    pub(crate) fn emptied(self, cells: u32, events: u32) -> Result<Lists, OutOfMemory>
        ensures reads { IfOk result (λ n. n.reads.reads ≡ nothing) }
        ensures cells { IfOk result (λ n. cells ≤ n.reads.spare) }
        ensures none { IfOk result (λ n. n.events.items ≡ []) }
        ensures len { IfOk result (λ n. vec_len n.events ≡ 0) }
        ensures events { IfOk result (λ n. events ≤ vec_capacity n.events) }
    {
        let mut reads = self.reads;
        let mut happened = self.events;
        reads.clear();
        reads.reserve(cells)?;
        happened.clear();
        happened.reserve(events as usize)?;
        Ok(Lists {
            reads,
            events: happened,
        })
    }
}

/// The large parts of a job and of its finding: the settings, the records of the creature before and after the quantum,
/// and the lists. A job has the settings and the record before, and memory for the others. A sheet is boxed, since jobs
/// and findings are moved often.
#[derive(Drop)]
pub(crate) struct Sheet {
    pub(crate) settings: Settings,
    pub(crate) before: Creature,
    pub(crate) after: Creature,
    pub(crate) reads: Reads,
    pub(crate) events: EventList,
}

impl Sheet {
    // Takes the lists out, and leaves empty ones.
    pub(crate) fn take_lists(&mut self) -> Lists
        ensures settings { self.new.settings ≡ self.old.settings }
        ensures before { self.new.before ≡ self.old.before }
    {
        let alloc = *self.events.items.allocator();
        Lists {
            reads: mem::replace(&mut self.reads, Reads::empty(alloc)),
            events: mem::replace(&mut self.events.items, Vec::new(alloc)),
        }
    }
}

/// The memory for a job and its finding, if some is kept. It goes out with the job, and comes back when the finding is
/// no longer needed.
#[derive(Drop)]
pub struct Room {
    pub(crate) sheet: Option<Box<Sheet>>,
}

impl Room {
    /// A sheet with the settings, and the record of the creature that is to run.
    pub(crate) fn into_sheet(
        self,
        alloc: Global,
        settings: &Settings,
        before: &Creature,
    ) -> Result<Box<Sheet>, OutOfMemory>
        ensures settings { IfOk result (λ s. s.value.settings ≡ settings.now) }
        ensures before { IfOk result (λ s. s.value.before ≡ before.now) }
    {
        if let Some(mut sheet) = self.sheet {
            sheet.settings = *settings;
            sheet.before = *before;
            return Ok(sheet);
        }
        let Lists { reads, events } = Lists::new(alloc);
        let sheet = Sheet {
            settings: *settings,
            before: *before,
            after: *before,
            reads,
            events: EventList { items: events },
        };
        let sheet = Box::new(alloc, sheet)?;
        Ok(sheet)
    }
}
