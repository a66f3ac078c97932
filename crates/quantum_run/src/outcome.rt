//! What a quantum that ran in a scene leaves.

ghost use Rattle.std.specs.Prelude.{◌≡◌, ◌<◌, ◌^◌, length};
ghost use Rattle.std.specs.Arc.{arc_value};
ghost use Rattle.quantum_run.specs.Finding.{Kept};
ghost use Rattle.quantum_run.specs.Outcomes.{finding_by};
ghost use Rattle.quantum_run.specs.Seen.{HasNoList};

use crate::finding::Finding;
use crate::scratch::Sheet;
use read_sets::Reads;
use std::sync::Arc;
use tierra_model::{Creature, Event, EventList, FreeList, Yard};

/// What a quantum found, without the lists that its job shares: the cells that it read, its events, the record after
/// it, and whether it read the free list and the yard.
#[derive(Drop)]
pub(crate) struct Outcome {
    pub(crate) reads: Reads,
    pub(crate) events: Vec<Event>,
    pub(crate) after: Creature,
    pub(crate) free_noted: bool,
    pub(crate) yard_noted: bool,
}

impl Outcome {
    /// The finding, in the memory of the job's sheet, with the lists that the job shares.
    pub(crate) fn into_finding(
        self,
        quantum: u64,
        sheet: Box<Sheet>,
        free: Arc<FreeList>,
        yard: Arc<Yard>,
    ) -> Finding
        requires free { length (arc_value free) < 2 ^ 32 }
        requires yard { length (arc_value yard) < 2 ^ 32 }
        requires none { HasNoList self.reads.reads }
        requires kept { Kept (finding_by sheet.value.settings quantum sheet.value.before (arc_value free)
            (arc_value yard) self) }
        ensures { result
            ≡ finding_by sheet.value.settings quantum sheet.value.before (arc_value free) (arc_value yard) self }
    {
        let mut reads = self.reads;
        if self.free_noted {
            reads.note_free(free);
        }
        if self.yard_noted {
            reads.note_yard(yard);
        }
        let mut sheet = sheet;
        sheet.after = self.after;
        sheet.reads = reads;
        sheet.events = EventList { items: self.events };
        Finding::of(quantum, sheet)
    }
}
