//! The crew.

ghost use Rattle.std.specs.Prelude.{◌≡◌, ◌<◌, ◌≤◌, IfOk, length, true};
ghost use Rattle.tierra_model.specs.declared.limits.TheConstants.{MOST_WORKERS};
ghost use Rattle.crew.specs.Beside.{IsOfRun};
ghost use Rattle.crew.specs.Hand.{IsUnhalted, run_bank};
ghost use Rattle.crew.specs.Ran.{HaltsAsIn, IfEnded, IfHalted};

use crate::alone::{halted, run_alone};
use crate::beside::run_beside;
use crate::gate::Gate;
use crate::hand::{Hand, Next};
use crate::lead::Handover;
use crate::seats::{add_seats, work_together};
use crate::trial::Stay;
use crate::worker::Crew;
use commit_book::Book;
use std::alloc::Global;
use std::marker::Brand;
use std::sync::Wait;
use std::thread::Threads;
use tierra_model::OutOfMemory;
use turn_lock::TurnLock;

/// How a run ended.
#[derive(Drop)]
pub enum Ran {
    /// All quanta are committed, and all groups were handed over.
    Ended(Book),
    /// The hand halted, and the book is stopped.
    Halted(Book),
    OutOfMemory,
}

/// Runs a book to its end, with this many workers, and hands the groups of its genebank over as they come. The calling
/// thread is worker 1.
pub fn run_crew<R: Threads + Wait + Sync, G: Gate + Sync, H: Hand>(
    rt: &R,
    alloc: Global,
    book: Book,
    workers: u32,
    gate: &G,
    hand: &mut H,
) -> Ran
    requires workers { (1 ≤ workers) × (workers ≤ MOST_WORKERS) }
    requires unhalted { H.halts hand.old ≡ 0 }
    requires can { H.can_put hand.old }
    requires setup { H.setup hand.old ≡ book.setup }
    requires quanta { H.quanta hand.old ≡ book.quanta }
    requires done { H.done hand.old ≤ length (run_bank book.setup book.committed) }

    // All quanta are committed, and every group of the run's genebank was handed over, from the hand's place on, in
    // order and each once.
    ensures ended { IfEnded result (λ b. (b.setup ≡ book.setup) × (b.quanta ≡ book.quanta) × (b.committed ≡ b.quanta)) }
    ensures all_put { IfEnded result (λ b. H.done hand.new ≡ length (run_bank book.setup book.quanta)) }

    // The answer is Halted exactly where the hand halted.
    ensures halted { IfHalted result (λ b. (b.setup ≡ book.setup) × (b.quanta ≡ book.quanta) × (b.stopped ≡ true)) }
    ensures halts { HaltsAsIn result (H.halts hand.new) }

    // The hand is the one handed in, at a later time.
    ensures run { (H.setup hand.new ≡ H.setup hand.old) × (H.quanta hand.new ≡ H.quanta hand.old) }
    ensures later { H.goes_to hand.old hand.new }
{
    let _committed = book.committed(); // for its contract alone
    let Ok((lock, mut first)) = TurnLock::of(alloc, book) else {
        return Ran::OutOfMemory;
    };
    let mut others = Vec::new(alloc);
    // Where there is no memory for a worker's seat, fewer work.
    let _all = add_seats(&lock, &mut first, workers, &mut others);
    let crew = Crew {
        rt,
        alloc,
        lock: &lock,
        gate,
        stay: Stay::ForTheTrial,
    };
    let mut first = Some(first);
    let mut handover = Handover { hand, kept: 0 };
    let worked = work_together(&crew, &mut first, &mut others, &mut handover);
    let book = lock.close(worked.seat);
    match worked.outcome.next {
        Next::Go => run_rest(rt, alloc, book, workers, hand),
        Next::Halt => halted(book),
    }
}

// Runs a book to its end after its jobs, with several workers as far as these can be had. If worker 2 finds no memory, the
// book is lost. If besides the hand has halted, a book of the same run is there for the answer.
fn run_rest<R: Threads + Wait + Sync, H: Hand>(
    rt: &R,
    alloc: Global,
    book: Book,
    workers: u32,
    hand: &mut H,
) -> Ran
    requires hand { IsUnhalted (book.setup, book.quanta) (H.setup hand.old) (H.quanta hand.old)
        (H.done hand.old) (H.halts hand.old) (H.can_put hand.old) }
    ensures ended { IfEnded result (λ b. (b.setup ≡ book.setup) × (b.quanta ≡ book.quanta) × (b.committed ≡ b.quanta)) }
    ensures all_put { IfEnded result (λ b. H.done hand.new ≡ length (run_bank book.setup book.quanta)) }
    ensures halted { IfHalted result (λ b. (b.setup ≡ book.setup) × (b.quanta ≡ book.quanta) × (b.stopped ≡ true)) }
    ensures halts { HaltsAsIn result (H.halts hand.new) }
    ensures run { (H.setup hand.new ≡ H.setup hand.old) × (H.quanta hand.new ≡ H.quanta hand.old) }
    ensures later { H.goes_to hand.old hand.new }
{
    if workers == 1 {
        return run_alone(alloc, book, hand);
    }
    let Ok(spare) = another(alloc, &book) else {
        return run_alone(alloc, book, hand);
    };
    let left = run_beside::<Brand, R, H>(rt, alloc, book, workers, hand);
    if left.next == Next::Halt {
        return halted(left.book.unwrap_or(spare));
    }
    match left.book {
        Ok(book) => run_alone(alloc, book, hand),
        Err(_) => Ran::OutOfMemory,
    }
}

// A book of the same run, at its beginning.
fn another(alloc: Global, book: &Book) -> Result<Book, OutOfMemory>
    ensures { IfOk result (IsOfRun book.now.setup book.now.quanta) }
{
    let setup = book.setup().copy(alloc)?;
    Book::begin(alloc, setup, book.quanta(), 1)
}
