//! A book hands out jobs, and is shared by a turn lock.

ghost use Rattle.std.specs.Prelude.{◌≡◌, ◌^◌, ◌<◌, ℕ, Some, IsSome, IfOk};
ghost use Rattle.turn_lock.specs.Seat.{own_of, first_seat, new_seat};

use commit_book::{Advanced, Book, Claim};
use quantum_run::{Finding, Job};
use std::alloc::Global;
use std::marker::Brand;
use std::process::Abort;
use std::sync::Wait;
use std::sync::ledger::{Blank, Ledger};
use std::test::Fail;
use step_count::Steps;
use test_soups::{TWO, setup_of};
use turn_lock::{Seat, TurnLock};

// A hundred cells, with one creature at cell 5.
const ONE: &str = "soup_size = 100\n[[creature]]\nat = 5\ncode = 'inc_b mov_iab'\n";

// What a claim gives: the quantum of a job and its creature's number, or why there is no job.
fn claimed(alloc: Global, book: &mut Book) -> Result<(u64, u64), &'static str> {
    match book.claim(alloc) {
        Claim::Job(job) => Ok((job.quantum(), job.front().id)),
        Claim::Full => Err("full"),
        Claim::Stopped => Err("stopped"),
        _ => Err("none"),
    }
}

fn counted<R: Abort, L: Ledger>(rt: &R, alloc: Global, blank: Blank) -> Result<(), Fail>
    requires name { blank.name ≡ L.name }
    requires parts { blank.parts ≡ L.parts }
    requires some { 0 < L.parts }
{
    let mut steps = Steps::<L>::start(blank);
    let mut book = Book::begin(alloc, setup_of(alloc, ONE)?, 2, 4)?;
    let claims = [claimed(alloc, &mut book), claimed(alloc, &mut book)];
    let advanced = book.advance(alloc, 1, &mut steps);
    let counts = (
        book.committed(),
        book.quanta(),
        book.history().len(),
        book.world().births(),
    );
    book.stop();
    let last = claimed(alloc, &mut book);
    assert_eq!(rt;
        (claims, advanced, counts, last),
        (
            [Ok((1, 1)), Err("full")],
            Advanced::Committed,
            (1, 2, 1, 0),
            Err("stopped")
        )
    );
    Ok(())
}

#[test]
fn a_book_hands_out_jobs(rt: HostRuntime) -> Result<(), Fail> {
    counted::<_, Brand>(&rt, rt.alloc(), Blank::new(1))
}

// Takes a turn, and commits one quantum in it.
fn advance_once<R: Wait, L: Ledger>(
    rt: &R,
    alloc: Global,
    lock: &TurnLock<Book>,
    seat: Seat,
    steps: &mut Steps<L>,
) -> Seat
    requires lock { seat.lock ≡ lock.now }
    requires room { seat.turns < 2 ^ 40 }
    ensures lock { result.lock ≡ seat.lock }
    ensures last { result.last_caller ≡ seat.last_caller }
    ensures speaks { (c : ℕ) → IsSome (own_of seat c) → IsSome (own_of result c) }
{
    let caller = seat.caller();
    let (turn, mut book) = lock.take(rt, seat);
    let _answer = book.advance(alloc, caller, steps);
    let seat = lock.give(turn, book);
    seat
}

/// A lock over a book of the two creatures, which runs them for two quanta, and the seats of callers 1 and 2.
pub(crate) fn shared_book(alloc: Global) -> Result<(TurnLock<Book>, Seat, Seat), Fail>
    ensures first { IfOk result (λ r. r.1 ≡ record (first_seat r.0) { last_caller = Some 2 }) }
    ensures second { IfOk result (λ r. r.2 ≡ new_seat (first_seat r.0) 2) }
{
    let book = Book::begin(alloc, setup_of(alloc, TWO)?, 2, 4)?;
    let Ok((lock, mut first)) = TurnLock::of(alloc, book) else {
        return Err(Fail::from("no room for a lock"));
    };
    let second = lock.split(&mut first, 2)?;
    Ok((lock, first, second))
}

// Two callers advance the book once each, and the lock is closed: how many quanta callers 1 to 3 committed, by the seat
// of both, and how many are committed in all.
fn two_callers<R: Wait, L: Ledger>(
    rt: &R,
    alloc: Global,
    blank: Blank,
) -> Result<([Option<u64>; 3], u64), Fail>
    requires name { blank.name ≡ L.name }
    requires parts { blank.parts ≡ L.parts }
    requires some { 0 < L.parts }
{
    let mut steps = Steps::<L>::start(blank);
    let (lock, first, second) = shared_book(alloc)?;
    let first = advance_once(rt, alloc, &lock, first, &mut steps);
    let second = advance_once(rt, alloc, &lock, second, &mut steps);
    let all = lock.join_seats(first, second);
    let own = [all.own(1), all.own(2), all.own(3)];
    let book = lock.close(all);
    Ok((own, book.committed()))
}

#[test]
fn each_caller_advances_the_book_once(rt: HostRuntime) -> Result<(), Fail> {
    let committed = two_callers::<_, Brand>(&rt, rt.alloc(), Blank::new(1))?;
    assert_eq!(rt; committed, ([Some(1), Some(1), None], 2));
    Ok(())
}

// Takes a turn, in which a finding is offered and a job claimed.
fn offer_and_claim<R: Wait, L: Ledger>(
    rt: &R,
    alloc: Global,
    lock: &TurnLock<Book>,
    seat: Seat,
    finding: Finding,
    steps: &mut Steps<L>,
) -> (Seat, Option<Job>)
    requires lock { seat.lock ≡ lock.now }
    requires room { seat.turns < 2 ^ 40 }
    ensures lock { result.0.lock ≡ seat.lock }
{
    let caller = seat.caller();
    let (turn, mut book) = lock.take(rt, seat);
    let _answer = book.offer(alloc, finding, caller, steps);
    let claim = book.claim(alloc);
    let seat = lock.give(turn, book);
    match claim {
        Claim::Job(job) => (seat, Some(job)),
        _ => (seat, None),
    }
}
