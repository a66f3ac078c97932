//! The part of a run that worker 1 does by itself.

ghost use Rattle.std.specs.Prelude.{◌≡◌, ◌<◌, ◌≤◌, ℕ, IfOk, length, true};
ghost use Rattle.commit_book.specs.Alone.{WorksOn, last_of, number_saved};
ghost use Rattle.crew.specs.Hand.{HasGroups, IsUnhalted, run_bank};
ghost use Rattle.crew.specs.declared.runs.Ran.TheVariants.{Halted};
ghost use Rattle.crew.specs.Ran.{HaltsAsIn, IfEnded, IfHalted};

use crate::hand::{Hand, Next};
use crate::handing::hand_all;
use crate::runs::Ran;
use commit_book::Book;
use mutation_streams::{NoTape, Tape};
use std::alloc::Global;
use std::marker::Brand;
use std::sync::ledger::{Blank, Ledger};
use step_count::Steps;
use tierra_model::OutOfMemory;

/// Runs a book to its end with one worker. As nobody else changes the world, each quantum is run in the world itself.
/// The groups of a quantum are handed over before the next one is run. Those that were handed over when memory runs out
/// stay handed over.
pub(crate) fn run_alone<H: Hand>(alloc: Global, book: Book, hand: &mut H) -> Ran
    requires hand { IsUnhalted (book.setup, book.quanta) (H.setup hand.old) (H.quanta hand.old)
        (H.done hand.old) (H.halts hand.old) (H.can_put hand.old) }
    ensures ended { IfEnded result (λ b. (b.setup ≡ book.setup) × (b.quanta ≡ book.quanta) × (b.committed ≡ b.quanta)) }
    ensures all_put { IfEnded result (λ b. H.done hand.new ≡ length (run_bank book.setup book.quanta)) }
    ensures halted { IfHalted result (λ b. (b.setup ≡ book.setup) × (b.quanta ≡ book.quanta) × (b.stopped ≡ true)) }
    ensures halts { HaltsAsIn result (H.halts hand.new) }
    ensures run { (H.setup hand.new ≡ H.setup hand.old) × (H.quanta hand.new ≡ H.quanta hand.old) }
    ensures later { H.goes_to hand.old hand.new }
{
    let mut book = book;
    'savings: loop {
        match hand_all(alloc, &book, hand) {
            Ok(Next::Go) => {}
            Ok(Next::Halt) => return halted(book),
            Err(_) => return Ran::OutOfMemory,
        }
        if book.committed() == book.quanta() {
            return Ran::Ended(book);
        }
        let Ok(worked) = work_on(alloc, book, hand) else {
            return Ran::OutOfMemory;
        };
        book = worked;
    }
}

// Commits quanta until one saves a genotype or all are committed. (The hand stands here for the contract alone: it has
// all groups before a quantum is run.)
fn work_on<H: Hand>(alloc: Global, book: Book, hand: &H) -> Result<Book, OutOfMemory>
    requires groups { HasGroups book.setup book.committed (H.done hand.now) }
    ensures works { IfOk result (λ b. (u : ℕ) × WorksOn (number_saved book) (last_of book.quanta book) book b 0 u) }
    ensures few { IfOk result (λ b. b.committed ≤ b.quanta) }
{
    let most = book.quanta();
    work_some(alloc, book, &mut NoTape, most)
}

/// Commits quanta until one saves a genotype, all are committed, or this many were. The draws are those of the tape.
pub(crate) fn work_some<T: Tape>(
    alloc: Global,
    book: Book,
    tape: &mut T,
    most: u64,
) -> Result<Book, OutOfMemory>
    ensures works { IfOk result (λ b. (u : ℕ) × WorksOn (number_saved book) (last_of most book) book b 0 u) }
    ensures few { IfOk result (λ b. b.committed ≤ b.quanta) }
{
    counted_work::<Brand, T>(alloc, book, tape, most, Blank::new(1))
}

// Commits these quanta, with an account of the instructions that only contracts see.
fn counted_work<L: Ledger, T: Tape>(
    alloc: Global,
    book: Book,
    tape: &mut T,
    most: u64,
    blank: Blank,
) -> Result<Book, OutOfMemory>
    requires name { blank.name ≡ L.name }
    requires parts { blank.parts ≡ L.parts }
    requires some { 0 < L.parts }
    ensures works { IfOk result (λ b. (u : ℕ) × WorksOn (number_saved book) (last_of most book) book b 0 u) }
    ensures few { IfOk result (λ b. b.committed ≤ b.quanta) }
{
    let mut steps = Steps::<L>::start(blank);
    let worked = book.work_on(alloc, tape, most, &mut steps)?;
    let _committed = worked.committed(); // for its contract alone
    Ok(worked)
}

/// Stops a book whose hand halted.
pub(crate) fn halted(book: Book) -> Ran
    ensures { result ≡ Halted (record book { stopped = true }) }
{
    let mut book = book;
    book.stop();
    Ran::Halted(book)
}
