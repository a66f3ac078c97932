//! A run that an observer watches.

ghost use Rattle.std.specs.Prelude.{◌-◌, ◌≡◌, ◌+◌, ◌++◌, ◌<◌, ◌≤◌, ◌^◌, All, IfOk, IfSome, OnOk, length, min};
ghost use Rattle.std.specs.Thread.{IsSync};
ghost use Rattle.tierra_model.specs.declared.limits.TheConstants.{MOST_LOOKS, MOST_QUANTA, MOST_WORKERS};
ghost use Rattle.tierra_model.specs.Serial.{serial};
ghost use Rattle.commit_book.specs.Book.{world_of};
ghost use Rattle.commit_book.specs.Giving.{MayGive};
ghost use Rattle.crew.specs.Works.{AreFrom, HasJoined, HasWorked, IsFirst, IsOther, IsThere, IsUnused};
ghost use Rattle.report_text.specs.Report.{report};
ghost use Rattle.soup_watch.specs.declared.waiting.TheConstants.{MOST_TURNS};
ghost use Rattle.soup_watch.specs.Seats.{HasLooked, HasSeen, IsWatched, observer_turns};
ghost use Rattle.soup_watch.specs.Text.{sights_text};
ghost use Rattle.soup_watch.specs.Watching.{AreSights, IsWatchText};

use crate::looking::look;
use crate::sights::Sights;
use crate::text::sights_text;
use crate::waiting::wait_until;
use commit_book::{Advanced, Book};
use crew::{Gate, add_seats, work_all};
use report_text::report;
use std::alloc::{AllocError, Global};
use std::marker::Brand;
use std::sync::Wait;
use std::sync::ledger::{Blank, Ledger};
use std::thread::{Threads, join_mut};
use step_count::Steps;
use tierra_model::{OutOfMemory, Setup, Text};
use turn_lock::{Seat, TurnLock};

/// What the workers and their observer leave: the seat of worker 1, joined with those of the other workers, the seat of
/// the observer, and what was seen.
#[derive(Drop)]
pub(crate) struct Watched {
    lead: Seat,
    observer: Seat,
    sights: Sights,
}

// Waits until this many quanta are committed, and looks.
fn look_next<R: Wait>(
    rt: &R,
    alloc: Global,
    lock: &TurnLock<Book>,
    seat: Seat,
    sights: &mut Sights,
    number: u64,
    quanta: u64,
    stands_still: &mut bool,
) -> Result<Seat, OutOfMemory>
    requires lock { seat.lock ≡ lock.now }
    requires turns { seat.turns < 2 ^ 39 }
    requires room { 0 < sights.old.spare }
    requires seen { HasSeen lock.now.opening.setup.0 number seat.seen sights.old.sights }
    ensures worked { IfOk result (HasWorked (MOST_TURNS + 1) seat) }
    ensures seen { IfOk result (λ s. HasSeen lock.now.opening.setup.0 (number + 1) s.seen sights.new.sights) }
    ensures room { OnOk result (sights.old.spare ≡ sights.new.spare + 1) }
{
    let waited = wait_until(rt, lock, seat, quanta, stands_still);
    let (seat, sight) = look(rt, alloc, lock, waited);
    sights.add(sight?);
    Ok(seat)
}

// Looks this many times, spread over the run, and keeps room for one sight more.
fn observe<R: Wait>(
    rt: &R,
    alloc: Global,
    lock: &TurnLock<Book>,
    seat: Seat,
    quanta: u64,
    looks: u64,
) -> Result<(Seat, Sights), OutOfMemory>
    requires lock { seat.lock ≡ lock.now }
    requires turns { seat.turns ≡ 0 }
    requires few { (quanta ≤ MOST_QUANTA) × (looks ≤ MOST_LOOKS) }
    ensures worked { IfOk result (λ r. HasWorked observer_turns seat r.0) }
    ensures seen { IfOk result (λ r. HasSeen lock.now.opening.setup.0 looks r.0.seen r.1.sights) }
    ensures room { IfOk result (λ r. 0 < r.1.spare) }
{
    let mut seat = seat;
    let mut sights = Sights::new(alloc);
    let mut still = false;
    sights.reserve(looks + 1)?;
    for number in 0..looks {
        let moment = quanta * number / looks;
        let sights = &mut sights;
        seat = look_next(rt, alloc, lock, seat, sights, number, moment, &mut still)?;
    }
    Ok((seat, sights))
}

// Takes the observer's seat, and does the same.
fn observe_on<R: Wait>(
    rt: &R,
    alloc: Global,
    lock: &TurnLock<Book>,
    observer: u32,
    seat: &mut Option<Seat>,
    quanta: u64,
    looks: u64,
) -> Result<(Seat, Sights), OutOfMemory>
    requires seat { IsThere seat.old (IsOther lock.now observer) }
    requires few { (quanta ≤ MOST_QUANTA) × (looks ≤ MOST_LOOKS) }
    ensures done { IfOk result (λ r. HasLooked lock.now observer r.0) }
    ensures seen { IfOk result (λ r. HasSeen lock.now.opening.setup.0 looks r.0.seen r.1.sights) }
    ensures room { IfOk result (λ r. 0 < r.1.spare) }
{
    let Some(seat) = seat.take() else {
        unreachable!()
    };
    observe(rt, alloc, lock, seat, quanta, looks)
}

// Runs the workers and their observer side by side. The observer is the last of the others.
fn with_observer<R: Threads + Wait + Sync, G: Gate + Sync>(
    rt: &R,
    alloc: Global,
    lock: &TurnLock<Book>,
    first: Seat,
    others: Vec<Seat>,
    quanta: u64,
    looks: u64,
    gate: &G,
) -> Result<Watched, OutOfMemory>
    requires first { IsFirst lock.now (length others.items + 2) first }
    requires others { AreFrom lock.now 2 others.items }
    requires callers { (1 ≤ length others.items) × (length others.items ≤ MOST_WORKERS - 1) }
    requires few { (quanta ≤ MOST_QUANTA) × (looks ≤ MOST_LOOKS) }
    ensures { IfOk result (IsWatched lock.now.opening.setup.0 lock.now (length others.items + 1) looks) }
{
    let mut others = others;
    let Some(last) = others.pop() else {
        unreachable!()
    };
    let observer = last.caller();
    let mut theirs = Some(last);
    let mut mine = Some(first);
    let (seen, lead) = join_mut(
        rt,
        &mut || -> Result<(Seat, Sights), OutOfMemory>
            requires { IsSync R.row × IsThere theirs (IsOther lock.now observer)
                × ((quanta ≤ MOST_QUANTA) × (looks ≤ MOST_LOOKS)) }
            ensures { IfOk result (λ r. HasLooked lock.entry.now observer r.0
                × HasSeen lock.entry.now.opening.setup.0 looks r.0.seen r.1.sights × (0 < r.1.spare)) }
        { observe_on(rt, alloc, lock, observer, &mut theirs, quanta, looks) },
        &mut || -> Seat
            requires { (IsSync R.row × IsSync G.row) × IsThere mine (IsUnused lock.now)
                × All (IsUnused lock.now) others.items }
            ensures { IfSome mine.entry (λ s. HasJoined others.entry.items s result) }
        { work_all(rt, alloc, lock, &mut mine, &mut others, gate) },
    );
    let (observer, sights) = seen?;
    Ok(Watched {
        lead,
        observer,
        sights,
    })
}

// Commits one more quantum, where one is left.
fn advance_one(alloc: Global, book: &mut Book, by: u32) -> Result<(), OutOfMemory>
    requires by { (1 ≤ by) × (by ≤ MOST_WORKERS) }
    ensures gives { MayGive by book.old book.new }
    ensures more { OnOk result (min (book.old.committed + 1) book.old.quanta ≤ book.new.committed) }
{
    counted_advance::<Brand>(alloc, book, by, Blank::new(1))
}

// Commits one more quantum, with an account of the instructions that only contracts see.
fn counted_advance<L: Ledger>(
    alloc: Global,
    book: &mut Book,
    by: u32,
    blank: Blank,
) -> Result<(), OutOfMemory>
    requires by { (1 ≤ by) × (by ≤ MOST_WORKERS) }
    requires name { blank.name ≡ L.name }
    requires parts { blank.parts ≡ L.parts }
    requires some { 0 < L.parts }
    ensures gives { MayGive by book.old book.new }
    ensures more { OnOk result (min (book.old.committed + 1) book.old.quanta ≤ book.new.committed) }
{
    let mut steps = Steps::<L>::start(blank);
    match book.advance(alloc, by, &mut steps) {
        Advanced::Committed | Advanced::Ended => Ok(()),
        Advanced::OutOfMemory => Err(AllocError),
    }
}

// Commits the quanta that are left.
fn commit_all(alloc: Global, book: &mut Book, by: u32) -> Result<(), OutOfMemory>
    requires by { (1 ≤ by) × (by ≤ MOST_WORKERS) }
    ensures gives { MayGive by book.old book.new }
    ensures all { OnOk result (book.new.committed ≡ book.old.quanta) }
{
    for _ in book.committed()..book.quanta() {
        advance_one(alloc, book, by)?;
    }
    let _committed = book.committed(); // for its contract alone
    Ok(())
}

// Takes a turn, and commits the quanta that are left in it.
fn end_run<R: Wait>(
    rt: &R,
    alloc: Global,
    lock: &TurnLock<Book>,
    seat: Seat,
) -> Result<Seat, OutOfMemory>
    requires lock { seat.lock ≡ lock.now }
    requires room { seat.turns < 2 ^ 40 }
    ensures worked { IfOk result (HasWorked 1 seat) }
    ensures seen { IfOk result (λ s. s.seen ≡ lock.now.opening.setup.1) }
{
    let caller = seat.caller();
    let (turn, mut book) = lock.take(rt, seat);
    let all = commit_all(alloc, &mut book, caller);
    let seat = lock.give(turn, book);
    all?;
    Ok(seat)
}

// Commits what is left, looks once more, and gives the book.
fn see_end<R: Wait>(
    rt: &R,
    alloc: Global,
    lock: TurnLock<Book>,
    observer: u32,
    looks: u64,
    watched: Watched,
) -> Result<(Sights, Book), OutOfMemory>
    requires callers { (2 ≤ observer) × (observer ≤ MOST_WORKERS) }
    requires watched { IsWatched lock.opening.setup.0 lock observer looks watched }
    requires few { lock.opening.setup.1 ≤ MOST_QUANTA }
    ensures sights { IfOk result (λ r. AreSights lock.opening.setup.0 lock.opening.setup.1 looks r.0.sights) }
    ensures book { IfOk result (λ r. world_of r.1 ≡ serial lock.opening.setup.0 lock.opening.setup.1) }
{
    let lead = end_run(rt, alloc, &lock, watched.lead)?;
    let seat = lock.join_seats(watched.observer, lead);
    let (seat, sight) = look(rt, alloc, &lock, seat);
    let book = lock.close(seat);
    let _committed = book.committed(); // for its contract alone
    let mut sights = watched.sights;
    sights.add(sight?);
    Ok((sights, book))
}

// The sights, and the report of the book's world.
fn told(alloc: Global, sights: &Sights, book: &Book) -> Result<Text, OutOfMemory>
    ensures { IfOk result (λ text. text ≡ sights_text sights.now.sights ++ report (world_of book.now)) }
{
    let mut text = sights_text(alloc, sights)?;
    let report = report(alloc, book.world())?;
    text.items.extend_from_slice(&report.items)?;
    Ok(text)
}

/// Runs the setup with this many workers and an observer, which looks `looks` times at the world that the turn lock
/// guards. Gives what it saw, a last sight of the end, and the report. The calling thread is worker 1; it commits what
/// the workers left.
pub fn watch<R: Threads + Wait + Sync, G: Gate + Sync>(
    rt: &R,
    alloc: Global,
    gate: &G,
    setup: Setup,
    quanta: u64,
    workers: u32,
    looks: u64,
) -> Result<Text, OutOfMemory>
    requires quanta { (1 ≤ quanta) × (quanta ≤ MOST_QUANTA) }
    requires workers { (1 ≤ workers) × (workers ≤ MOST_WORKERS - 1) }
    requires looks { looks ≤ MOST_LOOKS }
    ensures { IfOk result (IsWatchText setup quanta looks) }
{
    let book = Book::begin(alloc, setup, quanta, 2 * workers)?;
    let Ok((lock, mut first)) = TurnLock::of(alloc, book) else {
        return Err(AllocError);
    };
    let mut others = Vec::new(alloc);
    add_seats(&lock, &mut first, workers + 1, &mut others)?;
    let watched = with_observer(rt, alloc, &lock, first, others, quanta, looks, gate)?;
    let (sights, book) = see_end(rt, alloc, lock, workers + 1, looks, watched)?;
    told(alloc, &sights, &book)
}
