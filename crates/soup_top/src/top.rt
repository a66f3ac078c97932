//! The call that does all that the program does.

ghost use Rattle.std.specs.Prelude.{◌≡◌, IfErr, OnOk};
ghost use Rattle.desk_io.specs.Desk.{Elapses, HasNoFault, IsTellCall, KeepsDisk, Untouched};
ghost use Rattle.desk_io.specs.Source.{HasNoReadFault};
ghost use Rattle.soup_top.specs.Calls.{CallsNoMore, ComesToSameEnd, HasRightText, KeepsLinesUp, LeavesTrueGenebank, HasItsCause, SparesRefusedFile, TellsNothingElse, TellsWhatIsAsked, call};
ghost use Rattle.soup_top.specs.Ending.{HasMomentsFor, IsDoneFor, IsStoppedFor};
ghost use Rattle.soup_top.specs.Stops.{CountsStops};
ghost use Rattle.soup_top.specs.Tasks.{IsFew, IsTellingFor, OfText, UnlessWriting};

use crate::asking::{Task, task_asked};
use crate::plan::Plan;
use crate::running::run;
use crate::status::Status;
use crate::stop::RunStop;
use bank_journal::read_bank;
use crew::Gate;
use desk_io::{Desk, Source, TellFailed};
use genotype_probe::probe_text;
use report_text::bank_text;
use soup_hold::hold;
use soup_watch::watch;
use std::alloc::Global;
use std::sync::Wait;
use std::thread::Threads;
use tierra_model::{Setup, Text};

/// Tells the text, with no call where it is empty.
fn tell_some<D: Desk>(desk: &mut D, text: &Text) -> Result<(), TellFailed>
    requires sound { HasNoFault (D.state desk.old) }
    ensures call { IsTellCall (D.state desk.old) (D.state desk.new) text.now result }
{
    if text.items.is_empty() {
        return Ok(());
    }
    desk.tell(&text.items)
}

/// Tells the genebank in the disk's file.
fn tell_bank<D: Desk>(alloc: Global, desk: &mut D) -> Result<(), RunStop>
    requires sound { HasNoFault (D.state desk.old) }
    ensures done { OnOk result (IsDoneFor Task.Bank (D.state desk.old) (D.state desk.new)) }
    ensures stopped { IfErr result (IsStoppedFor Task.Bank (D.state desk.old) (D.state desk.new)) }
    ensures kept { KeepsDisk (D.state desk.old) (D.state desk.new) }
    ensures telling { Elapses (D.state desk.old) (D.state desk.new) (IsTellingFor Task.Bank (D.state desk.old)) }
    ensures counts { CountsStops result (D.state desk.new) }
{
    let groups = read_bank(alloc, desk)?;
    let text = bank_text(alloc, &groups)?;
    Ok(tell_some(desk, &text)?)
}

/// Tells the efforts of its genotypes.
fn tell_probe<R: Threads + Sync, D: Desk>(
    rt: &R,
    alloc: Global,
    desk: &mut D,
    quanta: u64,
    workers: u32,
) -> Result<(), RunStop>
    requires few { IsFew (Task.Probe quanta workers) }
    requires sound { HasNoFault (D.state desk.old) }
    ensures done { OnOk result (IsDoneFor (Task.Probe quanta workers) (D.state desk.old) (D.state desk.new)) }
    ensures stopped { IfErr result (IsStoppedFor (Task.Probe quanta workers) (D.state desk.old) (D.state desk.new)) }
    ensures kept { KeepsDisk (D.state desk.old) (D.state desk.new) }
    ensures telling { Elapses (D.state desk.old) (D.state desk.new)
        (IsTellingFor (Task.Probe quanta workers) (D.state desk.old)) }
    ensures counts { CountsStops result (D.state desk.new) }
{
    let groups = read_bank(alloc, desk)?;
    let text = probe_text(rt, alloc, &groups, quanta, workers)?;
    Ok(tell_some(desk, &text)?)
}

/// Runs the setup, and tells what an observer saw of it.
fn watch_and_tell<R: Threads + Wait + Sync, G: Gate + Sync, D: Desk>(
    rt: &R,
    alloc: Global,
    desk: &mut D,
    gate: &G,
    setup: Setup,
    quanta: u64,
    workers: u32,
    looks: u64,
) -> Result<(), RunStop>
    requires few { IsFew (Task.Watch setup quanta workers looks) }
    requires sound { HasNoFault (D.state desk.old) }
    ensures done { OnOk result
        (IsDoneFor (Task.Watch setup quanta workers looks) (D.state desk.old) (D.state desk.new)) }
    ensures stopped { IfErr result
        (IsStoppedFor (Task.Watch setup quanta workers looks) (D.state desk.old) (D.state desk.new)) }
    ensures untouched { Untouched (D.state desk.old) (D.state desk.new) }
    ensures telling { Elapses (D.state desk.old) (D.state desk.new)
        (IsTellingFor (Task.Watch setup quanta workers looks) (D.state desk.old)) }
    ensures disk { (D.state desk.new).disk_faults ≡ 0 }
    ensures counts { CountsStops result (D.state desk.new) }
{
    let text = watch(rt, alloc, gate, setup, quanta, workers, looks)?;
    Ok(desk.tell(&text.items)?)
}

/// Runs the setup from its last checkpoint, keeps checkpoints, and tells a line for each and the report.
fn hold_and_tell<D: Desk>(
    alloc: Global,
    desk: &mut D,
    setup: Setup,
    quanta: u64,
    every: u64,
) -> Result<(), RunStop>
    requires few { IsFew (Task.Hold setup quanta every) }
    requires sound { HasNoFault (D.state desk.old) }
    ensures done { OnOk result (IsDoneFor (Task.Hold setup quanta every) (D.state desk.old) (D.state desk.new)) }
    ensures stopped { IfErr result (IsStoppedFor (Task.Hold setup quanta every) (D.state desk.old) (D.state desk.new)) }
    ensures moments { HasMomentsFor (Task.Hold setup quanta every) (D.state desk.old) (D.state desk.new) }
    ensures counts { CountsStops result (D.state desk.new) }
{
    Ok(hold(alloc, desk, &setup, quanta, every)?)
}

/// Does what was asked.
fn carry_out<R: Threads + Wait + Sync, G: Gate + Sync, D: Desk>(
    rt: &R,
    alloc: Global,
    desk: &mut D,
    gate: &G,
    task: Task,
) -> Result<(), RunStop>
    requires few { IsFew task }
    requires sound { HasNoFault (D.state desk.old) }
    ensures done { OnOk result (IsDoneFor task (D.state desk.old) (D.state desk.new)) }
    ensures stopped { IfErr result (IsStoppedFor task (D.state desk.old) (D.state desk.new)) }
    ensures moments { HasMomentsFor task (D.state desk.old) (D.state desk.new) }
    ensures untouched { UnlessWriting task (Untouched (D.state desk.old) (D.state desk.new)) }
    ensures disk { OfText task ((D.state desk.new).disk_faults ≡ 0) }
    ensures counts { CountsStops result (D.state desk.new) }
{
    match task {
        Task::Run {
            setup,
            quanta,
            workers,
        } => {
            let plan = Plan {
                setup,
                quanta,
                workers,
            };
            run(rt, alloc, desk, gate, plan)
        }
        Task::Tell { text } => Ok(desk.tell(&text.items)?),
        Task::Bank => tell_bank(alloc, desk),
        Task::Probe { quanta, workers } => tell_probe(rt, alloc, desk, quanta, workers),
        Task::Watch {
            setup,
            quanta,
            workers,
            looks,
        } => watch_and_tell(rt, alloc, desk, gate, setup, quanta, workers, looks),
        Task::Hold {
            setup,
            quanta,
            every,
        } => hold_and_tell(alloc, desk, setup, quanta, every),
    }
}

/// Does all that the program does: reads the words and the source, and does what they ask for. A run keeps its genebank
/// in the disk's file, and tells a saved line once the genebank has the genotype. A run with checkpoints keeps them
/// there in place of a genebank, goes on from the last one, and tells a checkpoint once the file holds it.
pub fn tierra<R: Threads + Wait + Sync, S: Source, D: Desk, G: Gate + Sync>(
    rt: &R,
    alloc: Global,
    words: &Vec<String>,
    source: &mut S,
    desk: &mut D,
    gate: &G,
) -> Status
    requires source_sound { HasNoReadFault (S.state source.old) }
    requires sound { HasNoFault (D.state desk.old) }

    // A run that is done told the saved lines and the report of the world that the serial slicer reaches, and its
    // genebank is on disk.
    ensures run { HasRightText (call S.state D.state words.now source.old source.new desk.old desk.new result) }

    // A crash at any moment of a run leaves a true genebank, with every genotype whose saved line was told.
    ensures crash { LeavesTrueGenebank (call S.state D.state words.now source.old source.new desk.old desk.new result) }

    // The saved lines of a run keep up with its genebank.
    ensures lines { KeepsLinesUp (call S.state D.state words.now source.old source.new desk.old desk.new result) }

    // A run with checkpoints comes to the end of a run that never stopped.
    ensures hold { ComesToSameEnd (call S.state D.state words.now source.old source.new desk.old desk.new result) }

    // Every action that is done told just its text.
    ensures actions { TellsWhatIsAsked (call S.state D.state words.now source.old source.new desk.old desk.new result) }

    // Each refusal has its cause.
    ensures refusals { HasItsCause (call S.state D.state words.now source.old source.new desk.old desk.new result) }

    // Whatever the answer, what was told begins the text of a call that is done.
    ensures output { TellsNothingElse (call S.state D.state words.now source.old source.new desk.old desk.new result) }

    // A file that is refused is not written.
    ensures file { SparesRefusedFile (call S.state D.state words.now source.old source.new desk.old desk.new result) }

    // The source and the desk are called as far as needed, and no call follows one that failed.
    ensures calls { CallsNoMore (call S.state D.state words.now source.old source.new desk.old desk.new result) }
{
    match task_asked(rt, alloc, words, source) {
        Ok(task) => match carry_out(rt, alloc, desk, gate, task) {
            Ok(()) => Status::Done,
            Err(stop) => Status::from(stop),
        },
        Err(status) => status,
    }
}
