//! The seats of a crew, and the workers who take turns with them side by side.

ghost use Rattle.std.specs.Prelude.{◌≡◌, ◌+◌, ◌≤◌, All, IfOk, IfSome, OnErr, OnOk, length};
ghost use Rattle.tierra_model.specs.declared.limits.TheConstants.{MOST_WORKERS};
ghost use Rattle.std.specs.Thread.{IsSync};
ghost use Rattle.crew.specs.Works.{AreFrom, HasJoined, HasWorked, IsFirst, IsOther, IsThere, IsUnused, worker_turns};

use crate::errand::{Errand, NoErrand};
use crate::gate::Gate;
use crate::trial::Stay;
use crate::worker::{Crew, Worked, work_with};
use commit_book::Book;
use std::alloc::Global;
use std::sync::Wait;
use std::thread::{Threads, join_mut};
use tierra_model::OutOfMemory;
use turn_lock::{Seat, TurnLock};

// A seat for the next caller, split off from the seat of worker 1.
fn seat_for(lock: &TurnLock<Book>, first: &mut Seat, caller: u32) -> Result<Seat, OutOfMemory>
    requires first { IsFirst lock.now caller first.old }
    requires callers { (2 ≤ caller) × (caller ≤ MOST_WORKERS) }
    ensures other { IfOk result (IsOther lock.now caller) }
    ensures first { OnOk result (IsFirst lock.now (caller + 1) first.new) }
    ensures refused { OnErr result (first.new ≡ first.old) }
{
    lock.split(first, caller)
}

/// Adds the seats of the callers from 2 to `last`, split off from the seat of worker 1. Where memory ends, the first of
/// them are there.
pub fn add_seats(
    lock: &TurnLock<Book>,
    first: &mut Seat,
    last: u32,
    seats: &mut Vec<Seat>,
) -> Result<(), OutOfMemory>
    requires first { IsFirst lock.now 2 first.old }
    requires callers { (1 ≤ last) × (last ≤ MOST_WORKERS) }
    requires empty { length seats.old.items ≡ 0 }
    ensures others { AreFrom lock.now 2 seats.new.items }
    ensures first { IsFirst lock.now (length seats.new.items + 2) first.new }
    ensures few { length seats.new.items + 1 ≤ last }
    ensures all { OnOk result (length seats.new.items + 1 ≡ last) }
{
    seats.reserve(last as usize - 1)?;
    for caller in 2..last + 1 {
        seats.push_reserved(seat_for(lock, first, caller)?);
    }
    Ok(())
}

// Takes a worker's seat, and works.
fn work_on<R: Wait, G: Gate>(crew: &Crew<'_, R, G>, seat: &mut Option<Seat>) -> Seat
    requires { IsThere seat.old (IsUnused crew.now.lock.now) }
    ensures { IfSome seat.old (λ s. HasWorked worker_turns s result) }
{
    let Some(seat) = seat.take() else {
        unreachable!()
    };
    work_with(crew, seat, &mut NoErrand).seat
}

/// Runs worker 1 with its errand, and beside it a worker for each other seat. The seat of worker 1 comes back, joined with
/// theirs.
pub(crate) fn work_together<R: Threads + Wait + Sync, G: Gate + Sync, E: Errand>(
    crew: &Crew<'_, R, G>,
    first: &mut Option<Seat>,
    others: &mut Vec<Seat>,
    errand: &mut E,
) -> Worked
    requires first { IsThere first.old (IsUnused crew.now.lock.now) }
    requires others { All (IsUnused crew.now.lock.now) others.old.items }
    requires ready { E.is_ready crew.now.lock.now.opening.setup errand.old }
    ensures seat { IfSome first.old (λ s. HasJoined others.old.items s result.seat) }
    ensures went { E.went result.outcome.next errand.old errand.new }
{
    let Some(seat) = first.take() else {
        unreachable!()
    };
    let Some(other) = others.pop() else {
        return work_with(crew, seat, errand);
    };
    let mut theirs = Some(other);
    let mut mine = Some(seat);
    let (other, worked) = join_mut(
        crew.rt,
        &mut || -> Seat
            requires { (IsSync R.row × IsSync G.row) × IsThere theirs (IsUnused crew.now.lock.now) }
            ensures { IfSome theirs.entry (λ s. HasWorked worker_turns s result) }
        { work_on(crew, &mut theirs) },
        &mut || -> Worked
            requires { (IsSync R.row × IsSync G.row) × IsThere mine (IsUnused crew.now.lock.now)
                × All (IsUnused crew.now.lock.now) others.now.items
                × E.is_ready crew.now.lock.now.opening.setup errand.now }
            ensures { IfSome mine.entry (λ s. HasJoined others.entry.now.items s result.seat)
                × E.went result.outcome.next errand.entry.now errand.exit.now }
        { work_together(crew, &mut mine, others, errand) },
    );
    Worked {
        seat: crew.lock.join_seats(worked.seat, other),
        outcome: worked.outcome,
    }
}

/// Takes turns as worker 1, and beside it as a worker for each other seat, until there is no job. The seat of worker 1
/// comes back, joined with theirs.
pub fn work_all<R: Threads + Wait + Sync, G: Gate + Sync>(
    rt: &R,
    alloc: Global,
    lock: &TurnLock<Book>,
    first: &mut Option<Seat>,
    others: &mut Vec<Seat>,
    gate: &G,
) -> Seat
    requires first { IsThere first.old (IsUnused lock.now) }
    requires others { All (IsUnused lock.now) others.old.items }
    ensures seat { IfSome first.old (λ s. HasJoined others.old.items s result) }
{
    let crew = Crew {
        rt,
        alloc,
        lock,
        gate,
        stay: Stay::ToTheEnd,
    };
    work_together(&crew, first, others, &mut NoErrand).seat
}
