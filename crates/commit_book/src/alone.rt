//! Quanta that caller 1 commits alone.

ghost use Rattle.std.specs.Prelude.{◌≡◌, ◌↔◌, ◌≤◌, ◌⊎◌, IfOk, IsTrue, None, false, replicate};
ghost use Rattle.commit_book.specs.Alone.{Pauses, WorksOn, last_of, number_saved};

use crate::book::Book;
use crate::commit::is_setup;
use crate::history::History;
use crate::shown::Shown;
use mutation_streams::Tape;
use serial_slicer::InPlace;
use std::alloc::Global;
use std::sync::ledger::Ledger;
use step_count::Steps;
use tierra_model::{How, OutOfMemory};
use world_core::World;

impl Book {
    /// Commits quanta as caller 1, each as `advance` does, until one saves a genotype, all are committed, or `most` are
    /// done. As long as findings are kept, they are compared; the quanta after them run in the world itself, with draws
    /// off the tape. If memory runs out, the book is lost.
    pub fn work_on<T: Tape, L: Ledger>(
        self,
        alloc: Global,
        tape: &mut T,
        most: u64,
        steps: &mut Steps<L>,
    ) -> Result<Book, OutOfMemory>
        ensures { IfOk result (λ b. WorksOn (number_saved self) (last_of most self) self b steps.old steps.new) }
    {
        let kept = self.world.kept();
        let last = self.quanta.min(self.committed.saturating_add(most));
        let mut book = self;
        'findings: while book.keeps_findings() && !book.pauses(kept, last) {
            book.commit_next(alloc, 1, steps)?;
        }
        book.run_in_place(alloc, tape, kept, last, steps)
    }

    // Runs the next quanta in the world itself, until the work pauses.
    fn run_in_place<T: Tape, L: Ledger>(
        self,
        alloc: Global,
        tape: &mut T,
        kept: u64,
        last: u64,
        steps: &mut Steps<L>,
    ) -> Result<Book, OutOfMemory>
        requires within { last ≤ self.quanta }
        requires none { Pauses kept last self ⊎ (self.stash ≡ replicate self.window None) }
        ensures { IfOk result (λ b. WorksOn kept last self b steps.old steps.new) }
    {
        is_setup(&self.setup);
        let mut history = self.history;
        let world = run_world(alloc, self.world, &mut history, tape, kept, last, steps)?;
        let committed = history.len() as u64;
        Ok(Book {
            setup: self.setup,
            quanta: self.quanta,
            window: self.window,
            committed,
            handed: self.handed.max(committed),
            stash: self.stash,
            stopped: self.stopped,
            history,
            world,
            shown: Shown::nothing(),
            workspace: self.workspace,
        })
    }

    // Whether `last` quanta are committed, or more than `kept` genotypes are saved.
    fn pauses(&self, kept: u64, last: u64) -> bool
        ensures { IsTrue result ↔ Pauses kept last self.now }
    {
        last <= self.committed || self.world.kept() > kept
    }

    // Whether any finding is kept.
    fn keeps_findings(&self) -> bool
        ensures { result ≡ false → self.now.stash ≡ replicate self.now.window None }
    {
        for place in 0..self.window as usize {
            if self.stash[place].is_some() {
                return true;
            }
        }
        false
    }
}

ghost use Rattle.std.specs.Prelude.{OnOk};
ghost use Rattle.commit_book.specs.Alone.{CanRun, ran_on};
ghost use Rattle.commit_book.specs.Book.{BookFields};
ghost use Rattle.commit_book.specs.Kept.{IsBook};

// Runs the next quanta of a book in its world, until the work pauses.
fn run_world<T: Tape, L: Ledger>(
    alloc: Global,
    world: World,
    history: &mut History,
    tape: &mut T,
    kept: u64,
    last: u64,
    steps: &mut Steps<L>,
) -> Result<World, OutOfMemory>
    requires { (b : BookFields) × CanRun kept last b world.world history.old }
    ensures works { (b : BookFields) → CanRun kept last b world.world history.old
        → OnOk result (WorksOn kept last b (ran_on b history.new) steps.old steps.new) }
    ensures book { (b : BookFields) → CanRun kept last b world.world history.old
        → IfOk result (λ w. IsBook (ran_on b history.new) w.world) }
{
    let mut run = InPlace::of(world)?;
    run_quanta(alloc, &mut run, history, tape, kept, last, steps)?;
    run.finish(alloc)
}

// Borrows the world as it runs, so that one place ends it.
fn run_quanta<T: Tape, L: Ledger>(
    alloc: Global,
    run: &mut InPlace,
    history: &mut History,
    tape: &mut T,
    kept: u64,
    last: u64,
    steps: &mut Steps<L>,
) -> Result<(), OutOfMemory>
    requires { (b : BookFields) × CanRun kept last b run.old history.old }
    ensures works { (b : BookFields) → CanRun kept last b run.old history.old
        → OnOk result (WorksOn kept last b (ran_on b history.new) steps.old steps.new) }
    ensures book { (b : BookFields) → CanRun kept last b run.old history.old
        → OnOk result (IsBook (ran_on b history.new) run.new) }
{
    let mut committed = history.len() as u64;
    'quanta: while committed < last && run.kept() <= kept {
        history.push(run.first(), 1, How::Missing)?;
        run.next_counted(alloc, tape, steps)?;
        committed += 1;
    }
    Ok(())
}
