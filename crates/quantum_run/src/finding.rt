//! Findings.

ghost use Rattle.std.specs.Prelude.{◌≡◌, IfOk};

use crate::scratch::{Room, Sheet};
use read_sets::Reads;
use std::marker::Model;
use tierra_model::{Creature, EventList, OutOfMemory, Settings};

/// What a quantum that ran alone found: the record of its creature before and after, what it read, and its events in
/// order. It stands: any run of the quantum that reads the same finds the same.
#[derive(Drop)]
pub struct Finding {
    quantum: u64,
    sheet: Box<Sheet>,
}

impl Model for Finding {
    ghost use Rattle.tierra_model.specs.Findings as findings;
    ghost use Rattle.quantum_run.specs.Finding.{Kept};

    ghost Value = { findings.Finding };

    ghost view = { λ f. record {
      settings = f.sheet.value.settings;
      quantum = f.quantum;
      before = f.sheet.value.before;
      reads = f.sheet.value.reads.reads;
      events = f.sheet.value.events;
      after = f.sheet.value.after;
    } };

    ghost invariant = { λ f. Kept (record {
      settings = f.sheet.value.settings;
      quantum = f.quantum;
      before = f.sheet.value.before;
      reads = f.sheet.value.reads.reads;
      events = f.sheet.value.events;
      after = f.sheet.value.after;
    }) };
}

ghost use Rattle.quantum_run.specs.Finding.{Kept};

impl Finding {
    pub(crate) fn of(quantum: u64, sheet: Box<Sheet>) -> Finding
        requires { Kept (record {
          settings = sheet.value.settings;
          quantum = quantum;
          before = sheet.value.before;
          reads = sheet.value.reads.reads;
          events = sheet.value.events;
          after = sheet.value.after;
        }) }
        ensures { result ≡ record {
          settings = sheet.value.settings;
          quantum = quantum;
          before = sheet.value.before;
          reads = sheet.value.reads.reads;
          events = sheet.value.events;
          after = sheet.value.after;
        } }
    {
        Finding { quantum, sheet }
    }

    // The memory of the finding, for another job. The lists that it shares are released.
    pub(crate) fn into_room(self) -> Room {
        let mut sheet = self.sheet;
        sheet.reads.clear();
        Room { sheet: Some(sheet) }
    }

    /// The settings of the world in which it ran.
    pub fn settings(&self) -> &Settings
        ensures { result.now ≡ self.now.settings }
    {
        &self.sheet.settings
    }

    /// The number of the quantum.
    pub fn quantum(&self) -> u64
        ensures is { result ≡ self.now.quantum }
        ensures kept { Kept self.now }
    {
        self.quantum
    }

    /// The record of the creature before the quantum.
    pub fn before(&self) -> &Creature
        ensures { result.now ≡ self.now.before }
    {
        &self.sheet.before
    }

    /// What the quantum read.
    pub fn reads(&self) -> &Reads
        ensures is { result.now.reads ≡ self.now.reads }
        ensures kept { Kept self.now }
    {
        &self.sheet.reads
    }

    /// What happened in it, in order.
    pub fn events(&self) -> &EventList
        ensures { result.now ≡ self.now.events }
    {
        &self.sheet.events
    }

    /// The record after it.
    pub fn after(&self) -> &Creature
        ensures { result.now ≡ self.now.after }
    {
        &self.sheet.after
    }

    /// A copy of the finding.
    pub fn copy(&self) -> Result<Finding, OutOfMemory>
        ensures { IfOk result (λ f. f ≡ self.now) }
    {
        let events = &self.sheet.events.items;
        let sheet = Sheet {
            settings: self.sheet.settings,
            before: self.sheet.before,
            after: self.sheet.after,
            reads: self.sheet.reads.copy()?,
            events: EventList {
                items: events.clone()?,
            },
        };
        Ok(Finding {
            quantum: self.quantum,
            sheet: Box::new(*events.allocator(), sheet)?,
        })
    }
}
