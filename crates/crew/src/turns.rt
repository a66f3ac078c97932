//! What a worker does with the book while it has it.

ghost use Rattle.std.specs.Prelude.{◌≡◌, ◌<◌, ◌≤◌, IsSome, IsTrue, false, true};
ghost use Rattle.tierra_model.specs.declared.limits.TheConstants.{MOST_WORKERS};
ghost use Rattle.commit_book.specs.Giving.{MayGive};

use crate::trial::Stay;
use commit_book::{Advanced, Book, Claim};
use quantum_run::{Finding, Job, Workspace};
use std::alloc::Global;
use std::marker::Brand;
use std::sync::ledger::{Blank, Ledger};
use step_count::Steps;

// The finding of a job, where there is memory for it.
pub(crate) fn finding_of(workspace: &mut Workspace, job: Job) -> Option<Finding> {
    counted_finding::<Brand>(workspace, job, Blank::new(1))
}

// Runs a job, with an account of the instructions that only contracts see.
fn counted_finding<L: Ledger>(workspace: &mut Workspace, job: Job, blank: Blank) -> Option<Finding>
    requires name { blank.name ≡ L.name }
    requires parts { blank.parts ≡ L.parts }
    requires some { 0 < L.parts }
{
    let mut steps = Steps::<L>::start(blank);
    workspace.complete(job, &mut steps).ok()
}

// What a worker's turn gave it.
#[derive(Drop)]
pub(crate) struct Served {
    // Whether its finding was offered.
    pub offered: bool,
    pub job: Option<Job>,
}

// Offers the finding, if there is one, and gives the next job, if there is one to take. A stopped book is left as it is.
pub(crate) fn serve(
    alloc: Global,
    book: &mut Book,
    by: u32,
    stay: Stay,
    finding: Option<Finding>,
) -> Served
    requires by { (1 ≤ by) × (by ≤ MOST_WORKERS) }
    ensures gives { MayGive by book.old book.new }
    ensures stopped { book.old.stopped ≡ true → book.new ≡ book.old }
    ensures offered { IsTrue result.offered → (book.old.stopped ≡ false) × IsSome finding }
{
    if book.is_stopped() {
        return Served {
            offered: false,
            job: None,
        };
    }
    counted_serve::<Brand>(alloc, book, by, stay, finding, Blank::new(1))
}

// Serves from a book that is not stopped, with an account of the instructions that only contracts see.
fn counted_serve<L: Ledger>(
    alloc: Global,
    book: &mut Book,
    by: u32,
    stay: Stay,
    finding: Option<Finding>,
    blank: Blank,
) -> Served
    requires by { (1 ≤ by) × (by ≤ MOST_WORKERS) }
    requires name { blank.name ≡ L.name }
    requires parts { blank.parts ≡ L.parts }
    requires some { 0 < L.parts }
    ensures gives { MayGive by book.old book.new }
    ensures offered { IsTrue result.offered → IsSome finding }
{
    let mut steps = Steps::<L>::start(blank);
    let offered = finding.is_some();
    if let Some(finding) = finding {
        book.offer(alloc, finding, by, &mut steps);
    }
    let job = if stay.goes_on(book) {
        next_job(alloc, book, by, &mut steps)
    } else {
        None
    };
    Served { offered, job }
}

// The next job. Where as many jobs are handed out as may be, quanta are committed until there is one.
fn next_job<L: Ledger>(alloc: Global, book: &mut Book, by: u32, steps: &mut Steps<L>) -> Option<Job>
    requires by { (1 ≤ by) × (by ≤ MOST_WORKERS) }
    ensures { MayGive by book.old book.new }
{
    for _ in 0..book.quanta() {
        match book.claim(alloc) {
            Claim::Job(job) => return Some(job),
            Claim::Full => {}
            Claim::Stopped | Claim::Ended | Claim::OutOfMemory => return None,
        }
        match book.advance(alloc, by, steps) {
            Advanced::Committed => {}
            Advanced::Ended | Advanced::OutOfMemory => return None,
        }
    }
    None
}
