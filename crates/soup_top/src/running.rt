//! A run that keeps its genebank.

ghost use Rattle.std.specs.Prelude.{◌≡◌, IfErr, IfOk, IfSome, OnOk};
ghost use Rattle.bank_journal.specs.Bank.{Attaches, IsAttached, Refuses, SaysAsBefore};
ghost use Rattle.bank_journal.specs.Steps.{IfTold, IsUnwritten};
ghost use Rattle.bank_recover.specs.Bank.{title};
ghost use Rattle.file_journal.specs.Files.{IsFresh};
ghost use Rattle.commit_book.specs.Book.{world_of};
ghost use Rattle.desk_io.specs.Desk.{HasNoFault, UsesDisk};
ghost use Rattle.report_text.specs.Report.{report};
ghost use Rattle.soup_top.specs.Ending.{HasMomentsFor, IsDoneFor, IsStoppedFor};
ghost use Rattle.soup_top.specs.Genebank.{digest_of};
ghost use Rattle.soup_top.specs.Handing.{HasStopped, TookAll};
ghost use Rattle.soup_top.specs.Sources.{run_groups, run_report};
ghost use Rattle.soup_top.specs.Stops.{CountsStops, OnlyRefused};
ghost use Rattle.soup_top.specs.declared.asking.Task.TheVariants as Task;

use crate::hand::{Keeper, Start, run_book};
use crate::plan::Plan;
use crate::stop::RunStop;
use bank_format::setup_digest;
use bank_journal::Bank;
use commit_book::Book;
use crew::{Gate, Ran};
use desk_io::Desk;
use report_text::report;
use std::alloc::Global;
use std::snapshot::Snapshot;
use std::sync::Wait;
use std::thread::Threads;
use tierra_model::{Setup, Text};

// Attaches the genebank of the setup.
fn attach<D: Desk>(alloc: Global, desk: &mut D, setup: &Setup) -> Result<Bank, RunStop>
    requires sound { HasNoFault (D.state desk.old) }
    ensures attached { IfOk result (Attaches (digest_of setup.now) (D.state desk.old) (D.state desk.new)) }
    ensures refused { IfErr result (OnlyRefused (Refuses (digest_of setup.now) (D.state desk.old) (D.state desk.new))) }
    ensures kept { OnOk result (IfSome (D.state desk.old).reads (λ file. (IsFresh title file → ⊥)
        → IsUnwritten (D.state desk.old) (D.state desk.new))) }
    ensures quiet { IfSome (D.state desk.old).reads (λ file. (IsFresh title file → ⊥)
        → UsesDisk (D.state desk.old) (D.state desk.new) (D.state desk.old).may_leave) }
    ensures moments { UsesDisk (D.state desk.old) (D.state desk.new)
        (IfTold (D.state desk.old) (SaysAsBefore (digest_of setup.now) (D.state desk.old).may_leave)) }
    ensures counts { CountsStops result (D.state desk.new) }
{
    let digest = setup_digest(alloc, setup)?;
    match Bank::attach(alloc, desk, &digest) {
        Ok(bank) => Ok(bank),
        Err(fault) => Err(RunStop::from(fault)),
    }
}

// The report of a book's world.
fn report_of(alloc: Global, book: Book) -> Result<Text, RunStop>
    ensures report { IfOk result (λ text. text ≡ report (world_of book)) }
    ensures memory { IfErr result (λ s. s ≡ RunStop.OutOfMemory) }
{
    match report(alloc, book.world()) {
        Ok(text) => Ok(text),
        Err(_) => Err(RunStop::OutOfMemory),
    }
}

// Runs the plan with a crew, takes its groups to the bank as they come, telling the lines of each, and gives the report
// of its world.
fn run_with_crew<R: Threads + Wait + Sync, G: Gate + Sync, D: Desk>(
    rt: &R,
    alloc: Global,
    desk: &mut D,
    gate: &G,
    bank: Bank,
    plan: Plan,
) -> Result<Text, RunStop>
    requires attached { IsAttached bank (D.state desk.old) }
    ensures report { IfOk result (λ text. text ≡ run_report plan.setup plan.quanta) }
    ensures took_all { OnOk result
        (TookAll bank (run_groups plan.setup plan.quanta) (D.state desk.old) (D.state desk.new)) }
    ensures stopped { IfErr result
        (HasStopped bank (run_groups plan.setup plan.quanta) (D.state desk.old) (D.state desk.new)) }
{
    let start = Start {
        plan: Snapshot::of(&plan),
        desk: Snapshot::of(&*desk),
        bank: Snapshot::of(&bank),
    };
    let mut keeper = Keeper {
        bank: Some(bank),
        done: 0,
        stopped: None,
    };
    let workers = plan.workers;
    let Ok(book) = Book::begin(alloc, plan.setup, plan.quanta, 2 * workers) else {
        return Err(RunStop::OutOfMemory);
    };
    let ran = run_book(rt, alloc, gate, &start, desk, &mut keeper, book, workers);
    let Ran::Ended(book) = ran else {
        return Err(keeper.stopped.unwrap_or(RunStop::OutOfMemory));
    };
    report_of(alloc, book)
}

/// Carries the plan out: attaches the genebank of its setup, takes the run's groups to it, telling the lines of each, and
/// tells the report.
pub(crate) fn run<R: Threads + Wait + Sync, G: Gate + Sync, D: Desk>(
    rt: &R,
    alloc: Global,
    desk: &mut D,
    gate: &G,
    plan: Plan,
) -> Result<(), RunStop>
    requires sound { HasNoFault (D.state desk.old) }
    ensures done { OnOk result
        (IsDoneFor (Task.Run plan.setup plan.quanta plan.workers) (D.state desk.old) (D.state desk.new)) }
    ensures stopped { IfErr result
        (IsStoppedFor (Task.Run plan.setup plan.quanta plan.workers) (D.state desk.old) (D.state desk.new)) }
    ensures moments { HasMomentsFor (Task.Run plan.setup plan.quanta plan.workers)
        (D.state desk.old) (D.state desk.new) }
    ensures counts { CountsStops result (D.state desk.new) }
{
    let bank = attach(alloc, desk, &plan.setup)?;
    let report = run_with_crew(rt, alloc, desk, gate, bank, plan)?;
    desk.tell(&report.items)?;
    Ok(())
}
