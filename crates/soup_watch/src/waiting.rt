//! How an observer waits for its next look.

ghost use Rattle.std.specs.Prelude.{◌≡◌, ◌+◌, ◌<◌, ◌^◌};
ghost use Rattle.crew.specs.Works.{HasWorked};
ghost use Rattle.soup_watch.specs.declared.waiting.TheConstants.{MOST_TURNS};

use commit_book::Book;
use std::hint::spin_loop;
use std::sync::Wait;
use turn_lock::{Seat, TurnLock};

/// The most turns that the observer takes to wait for one look.
const MOST_TURNS: u64 = 500_000_000;

/// More turns in a row than this, in which nothing is committed, show that the run stands still. They take seconds.
const MOST_IDLE_TURNS: u64 = 100_000;

/// How often the observer pauses between two turns, some twenty microseconds in all.
const PAUSES: u64 = 500;

// Takes a turn, and reads how many quanta are committed.
fn ask<R: Wait>(rt: &R, lock: &TurnLock<Book>, seat: Seat) -> (Seat, u64)
    requires lock { seat.lock ≡ lock.now }
    requires room { seat.turns < 2 ^ 40 }
    ensures { HasWorked 1 seat result.0 }
{
    for _ in 0..PAUSES {
        spin_loop();
    }
    let (turn, book) = lock.take(rt, seat);
    let committed = book.committed();
    (lock.give(turn, book), committed)
}

/// Takes turns until this many quanta are committed, so that looks are spread over a run. A run that once stood still,
/// because its workers found no memory, is not waited for again.
pub(crate) fn wait_until<R: Wait>(
    rt: &R,
    lock: &TurnLock<Book>,
    seat: Seat,
    quanta: u64,
    stands_still: &mut bool,
) -> Seat
    requires lock { seat.lock ≡ lock.now }
    requires room { seat.turns < 2 ^ 39 }
    ensures { HasWorked MOST_TURNS seat result }
{
    let mut seat = seat;
    let mut last = 0;
    let mut idle = 0;
    for _ in 0..MOST_TURNS {
        if last >= quanta || *stands_still {
            break;
        }
        let (after, committed) = ask(rt, lock, seat);
        seat = after;
        idle = if committed > last { 0 } else { idle + 1 };
        last = committed;
        *stands_still = idle > MOST_IDLE_TURNS;
    }
    seat
}
