//! Plays schedules.

ghost use Rattle.std.specs.Prelude.{◌≡◌, ◌+◌, ◌-◌, ◌<◌, ◌≤◌, ◌^◌, [], All, IfOk, OnOk, Some};
ghost use Rattle.tierra_model.specs.declared.limits.TheConstants.{MOST_QUANTA};
ghost use Rattle.tierra_model.specs.Findings.{finding_of};
ghost use Rattle.commit_book.specs.Book.{after_commits, world_of};
ghost use Rattle.schedule_drill.specs.AtBook.{FitsBook, IsOfRun, answers};
ghost use Rattle.schedule_drill.specs.Drill.{after_advance, after_move, after_offer, drill, first_drill, tally_of, to_the_end};
ghost use Rattle.schedule_drill.specs.declared.moves.Move.TheVariants as Move;
ghost use Rattle.schedule_drill.specs.Moves.{IsOfHand};

use crate::moves::{Move, MoveList};
use crate::tally::{Answered, Tally, ways_of};
use commit_book::{Advanced, Book, Claim, Offered};
use quantum_run::{Finding, Job, Workspace};
use std::alloc::{AllocError, Global};
use std::marker::{Brand, Model};
use std::sync::ledger::{Blank, Ledger};
use step_count::Steps;
use tierra_model::{OutOfMemory, Setup};

/// How far ahead of the book the hands may be.
const WINDOW: u32 = 4;

/// A book that has ended, and what was counted on the way.
#[derive(Drop)]
pub struct Played {
    pub book: Book,
    pub tally: Tally,
}

// A drill under way: its book, what its hands hold, and the answers so far.
#[derive(Drop)]
struct Drill {
    book: Book,
    hands: Vec<Option<Finding>>,
    answered: Answered,
    workspace: Workspace,
}

impl Model for Drill {
    ghost use Rattle.schedule_drill.specs.Drill.{DrillFields};
    ghost use Rattle.schedule_drill.specs.AtBook.{IsAtBook};

    ghost Value = { DrillFields };

    ghost view = { λ d. record { book = d.book; hands = d.hands.items; answered = d.answered } };

    ghost invariant = { λ d. IsAtBook (record { book = d.book; hands = d.hands.items; answered = d.answered }) };
}

/// Plays the moves in order and then advances the book to its end. Whatever the moves, its world is then the serial
/// run's.
pub fn play(
    alloc: Global,
    setup: Setup,
    quanta: u64,
    moves: &MoveList,
) -> Result<Played, OutOfMemory>
    requires quanta { (1 ≤ quanta) × (quanta ≤ MOST_QUANTA) }
    requires hands { All IsOfHand moves.now }
    ensures book { IfOk result (λ p. p.book ≡ (drill setup quanta moves.now).book) }
    ensures setup { IfOk result (λ p. p.book.setup ≡ setup) }
    ensures end { IfOk result (λ p. p.book.committed ≡ quanta) }
    ensures tally { IfOk result (λ p. p.tally ≡ tally_of (drill setup quanta moves.now)) }
{
    counted_play::<Brand>(alloc, setup, quanta, moves, Blank::new(1))
}

// Plays the moves, with an account of the instructions that only contracts see.
fn counted_play<L: Ledger>(
    alloc: Global,
    setup: Setup,
    quanta: u64,
    moves: &MoveList,
    blank: Blank,
) -> Result<Played, OutOfMemory>
    requires quanta { (1 ≤ quanta) × (quanta ≤ MOST_QUANTA) }
    requires hands { All IsOfHand moves.now }
    requires name { blank.name ≡ L.name }
    requires parts { blank.parts ≡ L.parts }
    requires some { 0 < L.parts }
    ensures book { IfOk result (λ p. p.book ≡ (drill setup quanta moves.now).book) }
    ensures setup { IfOk result (λ p. p.book.setup ≡ setup) }
    ensures end { IfOk result (λ p. p.book.committed ≡ quanta) }
    ensures tally { IfOk result (λ p. p.tally ≡ tally_of (drill setup quanta moves.now)) }
{
    let mut steps = Steps::<L>::start(blank);
    let mut drill = Drill::begin(alloc, setup, quanta)?;
    for next in moves.items.iter() {
        drill.make(alloc, *next, &mut steps)?;
    }
    drill.finish(alloc, &mut steps)
}

impl Drill {
    // The hands are empty.
    fn begin(alloc: Global, setup: Setup, quanta: u64) -> Result<Drill, OutOfMemory>
        requires quanta { (1 ≤ quanta) × (quanta ≤ MOST_QUANTA) }
        ensures { IfOk result (λ d. d ≡ first_drill setup quanta) }
    {
        let hands = Vec::from_array(alloc, [None, None, None, None])?;
        let book = Book::begin(alloc, setup, quanta, WINDOW)?;
        let answered = Answered {
            kept: 0,
            twice: 0,
            late: 0,
            full: 0,
            idle: 0,
        };
        let workspace = Workspace::new(alloc);
        Ok(Drill {
            book,
            hands,
            answered,
            workspace,
        })
    }

    // Makes a move.
    fn make<L: Ledger>(
        &mut self,
        alloc: Global,
        next: Move,
        steps: &mut Steps<L>,
    ) -> Result<(), OutOfMemory>
        requires hand { IsOfHand next }
        requires few { answers self.old < 2 ^ 63 }
        ensures made { OnOk result (self.new ≡ after_move next self.old) }
        ensures few { OnOk result (answers self.new ≤ answers self.old + 1) }
        ensures run { OnOk result (IsOfRun self.old.book self.new.book) }
    {
        match next {
            Move::Claim { hand } => self.claim(alloc, hand, steps),
            Move::Offer { hand } => self.offer_held(alloc, hand, steps),
            Move::Repeat { hand } => self.repeat(alloc, hand, steps),
            Move::Lose { hand } => {
                self.lose(hand);
                Ok(())
            }
            Move::Advance { hand } => self.advance(alloc, hand, steps),
        }
    }

    // Claims a job and runs it, where the hand is empty.
    fn claim<L: Ledger>(
        &mut self,
        alloc: Global,
        hand: u32,
        steps: &mut Steps<L>,
    ) -> Result<(), OutOfMemory>
        requires hand { (1 ≤ hand) × (hand ≤ 4) }
        requires few { answers self.old < 2 ^ 63 }
        ensures made { OnOk result (self.new ≡ after_move (Move.Claim hand) self.old) }
        ensures few { OnOk result (answers self.new ≤ answers self.old + 1) }
        ensures run { OnOk result (IsOfRun self.old.book self.new.book) }
    {
        let place = hand as usize - 1;
        if self.hands[place].is_some() {
            self.answered.idle += 1;
            return Ok(());
        }
        keeps_settings(&self.book);
        match self.book.claim(alloc) {
            Claim::Job(job) => self.hands[place] = Some(run_job(&mut self.workspace, job, steps)?),
            Claim::Full => self.answered.full += 1,
            Claim::Ended => self.answered.idle += 1,
            Claim::Stopped => unreachable!(),
            Claim::OutOfMemory => return Err(AllocError),
        }
        Ok(())
    }

    // Offers what the hand holds.
    fn offer_held<L: Ledger>(
        &mut self,
        alloc: Global,
        hand: u32,
        steps: &mut Steps<L>,
    ) -> Result<(), OutOfMemory>
        requires hand { (1 ≤ hand) × (hand ≤ 4) }
        requires few { answers self.old < 2 ^ 63 }
        ensures made { OnOk result (self.new ≡ after_move (Move.Offer hand) self.old) }
        ensures few { OnOk result (answers self.new ≤ answers self.old + 1) }
        ensures run { OnOk result (IsOfRun self.old.book self.new.book) }
    {
        match self.hands[hand as usize - 1].take() {
            Some(finding) => self.offer(alloc, hand, finding, steps),
            None => {
                self.answered.idle += 1;
                Ok(())
            }
        }
    }

    // Offers a copy of what the hand holds.
    fn repeat<L: Ledger>(
        &mut self,
        alloc: Global,
        hand: u32,
        steps: &mut Steps<L>,
    ) -> Result<(), OutOfMemory>
        requires hand { (1 ≤ hand) × (hand ≤ 4) }
        requires few { answers self.old < 2 ^ 63 }
        ensures made { OnOk result (self.new ≡ after_move (Move.Repeat hand) self.old) }
        ensures few { OnOk result (answers self.new ≤ answers self.old + 1) }
        ensures run { OnOk result (IsOfRun self.old.book self.new.book) }
    {
        match &self.hands[hand as usize - 1] {
            Some(finding) => {
                let copy = finding.copy()?;
                self.offer(alloc, hand, copy, steps)
            }
            None => {
                self.answered.idle += 1;
                Ok(())
            }
        }
    }

    // Drops what the hand holds.
    fn lose(&mut self, hand: u32)
        requires hand { (1 ≤ hand) × (hand ≤ 4) }
        requires few { answers self.old < 2 ^ 63 }
        ensures made { self.new ≡ after_move (Move.Lose hand) self.old }
        ensures few { answers self.new ≤ answers self.old + 1 }
        ensures run { IsOfRun self.old.book self.new.book }
    {
        if self.hands[hand as usize - 1].take().is_none() {
            self.answered.idle += 1;
        }
    }

    fn offer<L: Ledger>(
        &mut self,
        alloc: Global,
        hand: u32,
        finding: Finding,
        steps: &mut Steps<L>,
    ) -> Result<(), OutOfMemory>
        requires hand { (1 ≤ hand) × (hand ≤ 4) }
        requires few { answers self.old < 2 ^ 63 }
        requires fits { FitsBook self.old.book (Some finding) }
        ensures made { OnOk result (self.new ≡ after_offer hand finding self.old) }
        ensures few { OnOk result (answers self.new ≤ answers self.old + 1) }
        ensures run { OnOk result (IsOfRun self.old.book self.new.book) }
    {
        match self.book.offer(alloc, finding, hand, steps) {
            Offered::Late { .. } => self.answered.late += 1,
            Offered::Twice => self.answered.twice += 1,
            Offered::Kept => self.answered.kept += 1,
            Offered::Committed(_) => {}
            Offered::Foreign | Offered::Beyond { .. } => unreachable!(),
            Offered::OutOfMemory => return Err(AllocError),
        }
        Ok(())
    }

    fn advance<L: Ledger>(
        &mut self,
        alloc: Global,
        hand: u32,
        steps: &mut Steps<L>,
    ) -> Result<(), OutOfMemory>
        requires hand { (1 ≤ hand) × (hand ≤ 4) }
        requires few { answers self.old < 2 ^ 63 }
        ensures made { OnOk result (self.new ≡ after_advance hand self.old) }
        ensures few { OnOk result (answers self.new ≤ answers self.old + 1) }
        ensures run { OnOk result (IsOfRun self.old.book self.new.book) }
    {
        match self.book.advance(alloc, hand, steps) {
            Advanced::Committed => {}
            Advanced::Ended => self.answered.idle += 1,
            Advanced::OutOfMemory => return Err(AllocError),
        }
        Ok(())
    }

    // Advances the book to its end, and counts.
    fn finish<L: Ledger>(self, alloc: Global, steps: &mut Steps<L>) -> Result<Played, OutOfMemory>
        ensures book { IfOk result (λ p. p.book ≡ (to_the_end self).book) }
        ensures setup { IfOk result (λ p. p.book.setup ≡ self.book.setup) }
        ensures end { IfOk result (λ p. p.book.committed ≡ self.book.quanta) }
        ensures tally { IfOk result (λ p. p.tally ≡ tally_of (to_the_end self)) }
    {
        let mut book = self.book;
        advance_all(alloc, &mut book, steps)?;
        let tally = tally(&book, self.answered);
        Ok(Played { book, tally })
    }
}

// Does nothing. Its contract says that a book's world has the settings of its setup.
fn keeps_settings(book: &Book)
    ensures same { (world_of book.now).settings ≡ book.now.setup.settings }
    ensures most { book.now.committed ≤ book.now.quanta }
{
    let _settings = &book.setup().settings;
    let _committed = book.committed();
    let _quanta = book.quanta();
}

// Advances the book to its end.
fn advance_all<L: Ledger>(
    alloc: Global,
    book: &mut Book,
    steps: &mut Steps<L>,
) -> Result<(), OutOfMemory>
    ensures book { OnOk result (book.new ≡ after_commits 1 (book.old.quanta - book.old.committed) book.old) }
    ensures setup { OnOk result (book.new.setup ≡ book.old.setup) }
    ensures end { OnOk result (book.new.committed ≡ book.old.quanta) }
{
    let left = book.quanta() - book.committed();
    for _quantum in 0..left {
        match book.advance(alloc, 1, steps) {
            Advanced::Committed => {}
            Advanced::Ended => unreachable!(),
            Advanced::OutOfMemory => return Err(AllocError),
        }
    }
    Ok(())
}

fn tally(book: &Book, answered: Answered) -> Tally
    ensures { result ≡ tally_of (record { book = book.now; hands = []; answered = answered }) }
{
    let ways = ways_of(book.history());
    Tally {
        fresh: ways.fresh,
        missing: ways.missing,
        stale: ways.stale,
        kept: answered.kept,
        twice: answered.twice,
        late: answered.late,
        full: answered.full,
        idle: answered.idle,
    }
}

// What the job's quantum finds.
fn run_job<L: Ledger>(
    workspace: &mut Workspace,
    job: Job,
    steps: &mut Steps<L>,
) -> Result<Finding, OutOfMemory>
    ensures { IfOk result (λ f. f ≡ finding_of job) }
{
    workspace.complete(job, steps)
}
