//! Room in which quanta run alone.

ghost use Rattle.std.specs.Prelude.{All, ◌≡◌, ◌+◌, IfOk, OnErr, OnOk, length};
ghost use Rattle.tierra_model.proofs.Each.{Each};
ghost use Rattle.quantum_run.specs.Marks.{IsUnknown};
ghost use Rattle.tierra_model.specs.Findings.{finding_of};
ghost use Rattle.tierra_model.specs.Quantum as quantum;
ghost use Rattle.quantum_run.specs.Finding.{IsFound};
ghost use Rattle.quantum_run.specs.Outcomes.{IsOutcome};

use crate::cells::UNKNOWN;
use crate::finding::Finding;
use crate::job::Job;
use crate::on_scene::OnScene;
use crate::outcome::Outcome;
use crate::scratch::{Copies, Lists, Room};
use mutation_streams::NoTape;
use quantum_core::run_slice;
use slicer_queue::slice_of;
use std::alloc::Global;
use std::mem;
use std::sync::ledger::Ledger;
use step_count::Steps;
use tierra_model::OutOfMemory;

/// What a worker keeps from one quantum to the next: a mark for each cell, all of them unknown, and the memory of the
/// lists and of findings no longer needed. So in the long run no quantum takes memory.
#[derive(Drop)]
pub struct Workspace {
    marks: Vec<u8>,
    copies: Copies,
    rooms: Vec<Room>,
    ghost kept: { All IsUnknown marks.items },
}

impl Workspace {
    /// Room for quanta of any soup. It takes no memory.
    pub fn new(alloc: Global) -> Workspace {
        Workspace {
            marks: Vec::new(alloc),
            copies: Copies::new(alloc),
            rooms: Vec::new(alloc),
        }
    }

    /// Runs the quantum of a job alone. All memory is taken before the first instruction.
    pub fn run<L: Ledger>(
        &mut self,
        job: &Job,
        steps: &mut Steps<L>,
    ) -> Result<Finding, OutOfMemory>
        ensures scene { IfOk result (λ f. f ≡ finding_of job.now) }
        ensures found { IfOk result (λ f. IsFound job.now f) }
        ensures ticks { OnOk result (steps.new ≡ steps.old + quantum.slice_of job.now.front.own.size job.now.settings) }
        ensures refused { OnErr result (steps.new ≡ steps.old) }
    {
        let alloc = *self.marks.allocator();
        let free = job.share_free()?;
        let yard = job.share_yard()?;
        let room = self.spare_room();
        let mut sheet = room.into_sheet(alloc, job.settings(), job.front())?;
        let lists = sheet.take_lists();
        let outcome = self.outcome_of(job, lists, steps)?;
        Ok(outcome.into_finding(job.quantum(), sheet, free, yard))
    }

    /// Runs the quantum of a job and uses the job up: the finding takes over its memory.
    pub fn complete<L: Ledger>(
        &mut self,
        mut job: Job,
        steps: &mut Steps<L>,
    ) -> Result<Finding, OutOfMemory>
        ensures scene { IfOk result (λ f. f ≡ finding_of job) }
        ensures ticks { OnOk result (steps.new ≡ steps.old + quantum.slice_of job.front.own.size job.settings) }
        ensures refused { OnErr result (steps.new ≡ steps.old) }
    {
        let lists = job.take_lists();
        let outcome = self.outcome_of(&job, lists, steps)?;
        let quantum = job.quantum();
        let (sheet, free, yard) = job.into_parts();
        Ok(outcome.into_finding(quantum, sheet, free, yard))
    }

    // What the quantum of a job leaves, in the memory of `lists`.
    fn outcome_of<L: Ledger>(
        &mut self,
        job: &Job,
        lists: Lists,
        steps: &mut Steps<L>,
    ) -> Result<Outcome, OutOfMemory>
        ensures outcome { IfOk result (IsOutcome job.now) }
        ensures ticks { OnOk result (steps.new ≡ steps.old + quantum.slice_of job.now.front.own.size job.now.settings) }
        ensures refused { OnErr result (steps.new ≡ steps.old) }
    {
        let alloc = *self.marks.allocator();
        let settings = job.settings();
        let slice = slice_of(job.front().own.size, settings);
        let marks = self.take_marks(settings.soup_size)?;
        let copies = mem::replace(&mut self.copies, Copies::new(alloc));
        let mut scene = OnScene::new(job, slice, marks, copies, lists)?;
        let rooms = mem::replace(&mut self.rooms, Vec::new(alloc));
        let quantum = job.quantum();
        match run_slice(&mut scene, &mut NoTape, settings, quantum, slice, steps) {
            Ok(()) => {
                let (outcome, marks, copies) = scene.into_outcome();
                *self = Workspace {
                    marks,
                    copies,
                    rooms,
                };
                Ok(outcome)
            }
            Err(_) => unreachable!(),
        }
    }

    // The marks for a soup of `size` cells; new ones if the kept ones are for another size.
    fn take_marks(&mut self, size: u32) -> Result<Vec<u8>, OutOfMemory>
        ensures size { IfOk result (λ marks. length marks.items ≡ size) }
        ensures fresh { IfOk result (λ marks. Each IsUnknown marks.items) }
    {
        if self.marks.len() == size as usize {
            let alloc = *self.marks.allocator();
            return Ok(mem::replace(&mut self.marks, Vec::new(alloc)));
        }
        let marks = vec![in *self.marks.allocator(); UNKNOWN; size as usize]?;
        Ok(marks)
    }

    /// Memory for a job and its finding, if some is kept; else an empty room.
    pub fn spare_room(&mut self) -> Room {
        match self.rooms.pop() {
            Some(room) => room,
            None => Room { sheet: None },
        }
    }

    /// Keeps the memory of a finding no longer needed. If the list of kept memory cannot grow, it is freed.
    pub fn keep_room(&mut self, finding: Finding) {
        let _kept: Result<_, _> = self.rooms.push(finding.into_room());
    }
}

/// Runs the quantum of a job alone, and gives what it found.
pub fn run_quantum<L: Ledger>(
    alloc: Global,
    job: &Job,
    steps: &mut Steps<L>,
) -> Result<Finding, OutOfMemory>
    ensures scene { IfOk result (λ f. f ≡ finding_of job.now) }
    ensures found { IfOk result (λ f. IsFound job.now f) }
    ensures ticks { OnOk result (steps.new ≡ steps.old + quantum.slice_of job.now.front.own.size job.now.settings) }
    ensures refused { OnErr result (steps.new ≡ steps.old) }
{
    Workspace::new(alloc).run(job, steps)
}
