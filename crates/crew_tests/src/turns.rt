//! Turns at a lock over a tally.

ghost use Rattle.std.specs.Prelude.{◌≡◌, ℕ, ◌+◌, ◌^◌, ◌<◌, ◌≤◌, All, Some, IsSome, IfOk, OnOk};
ghost use Rattle.turn_lock.specs.Summary.{summary_of, Commits};
ghost use Rattle.turn_lock.specs.Seat.{own_of, first_seat, SpeaksForAll};

use std::alloc::Global;
use std::process::Abort;
use std::sync::Wait;
use std::test::Fail;
use std::thread::{Threads, map_vec, sleep};
use std::time::{Clock, Duration};
use tierra_model::OutOfMemory;
use turn_lock::{Kept, Seat, TurnLock};

// Entries by caller.
#[derive(Debug, Drop)]
struct Tally {
    committed: u64,
    entries: [u64; 64],
}

impl Kept for Tally {
    ghost use Rattle.std.specs.Prelude.{[]};
    ghost use Rattle.tierra_model.specs.Setups.{setup_for};

    ghost setup = { λ _. (setup_for [], 0) };

    ghost committed = { λ t. t.committed };

    ghost entries = { λ t. t.entries };

    fn committed(&self) -> u64 {
        self.committed
    }
}

impl Tally {
    fn new() -> Tally {
        Tally {
            committed: 0,
            entries: [0; 64],
        }
    }

    // Counts one more entry by this caller, if it can be counted.
    fn advance(&mut self, caller: u32)
        requires { (1 ≤ caller) × (caller ≤ 64) }
        ensures { let summary = summary_of ⟦<Tally as Kept>⟧.setup ⟦<Tally as Kept>⟧.committed ⟦<Tally as Kept>⟧.entries
            in
            Commits caller (summary self.old) (summary self.new) }
    {
        let at = caller as usize - 1;
        let entries = self.entries[at];
        if self.committed < u64::MAX && entries < u64::MAX {
            self.committed += 1;
            self.entries[at] = entries + 1;
        }
    }
}

// Takes this many turns, and advances the tally once in each.
fn work<R: Wait>(rt: &R, lock: &TurnLock<Tally>, seat: Seat, times: u64) -> Seat
    requires lock { seat.lock ≡ lock.now }
    requires room { seat.turns + times < 2 ^ 40 }
    ensures lock { result.lock ≡ seat.lock }
    ensures last { result.last_caller ≡ seat.last_caller }
    ensures speaks { (c : ℕ) → IsSome (own_of seat c) → IsSome (own_of result c) }
{
    let mut seat = seat;
    for _ in 0..times {
        let caller = seat.caller();
        let (turn, mut tally) = lock.take(rt, seat);
        tally.advance(caller);
        seat = lock.give(turn, tally);
    }
    seat
}

// New seats for the callers from 2 to `last`.
fn split_all(
    alloc: Global,
    lock: &TurnLock<Tally>,
    first: &mut Seat,
    last: u32,
) -> Result<Vec<Seat>, OutOfMemory>
    requires first { first.old ≡ first_seat lock.now }
    requires last { (2 ≤ last) × (last ≤ 64) }
    ensures first { OnOk result (first.new ≡ record first.old { last_caller = Some last }) }
    ensures others { IfOk result (λ v. All (λ s. (s.lock ≡ lock.now) × (s.turns ≡ 0)) v.items) }
{
    let mut seats = Vec::new(alloc);
    for caller in 2..last + 1 {
        let seat = lock.split(first, caller)?;
        seats.push(seat)?;
    }
    Ok(seats)
}

// Each seat takes its turns in a thread.
fn work_all<R: Threads + Wait + Sync>(
    rt: &R,
    lock: &TurnLock<Tally>,
    seats: Vec<Seat>,
    times: u64,
) -> Result<Vec<Seat>, OutOfMemory>
    requires seats { All (λ s. (s.lock ≡ lock.now) × (s.turns ≡ 0)) seats.items }
    requires room { times < 2 ^ 40 }
{
    map_vec(rt, seats, &|seat| work(rt, lock, seat, times))
}

// Holds a turn for far longer than a waiting caller looks before it parks.
fn hold<R: Clock + Wait>(rt: &R, lock: &TurnLock<Tally>, seat: Seat) -> Seat
    requires lock { seat.lock ≡ lock.now }
    requires room { seat.turns < 2 ^ 40 }
{
    let caller = seat.caller();
    let (turn, mut tally) = lock.take(rt, seat);
    tally.advance(caller);
    sleep(rt, Duration::from_millis(20));
    lock.give(turn, tally)
}

// Each seat holds a turn in a thread.
fn hold_all<R: Clock + Threads + Wait + Sync>(
    rt: &R,
    lock: &TurnLock<Tally>,
    seats: Vec<Seat>,
) -> Result<Vec<Seat>, OutOfMemory>
    requires seats { All (λ s. (s.lock ≡ lock.now) × (s.turns ≡ 0)) seats.items }
{
    map_vec(rt, seats, &|seat| hold(rt, lock, seat))
}

// What a seat says: its caller, how much it saw committed, and how much caller 2 committed by it.
fn said_by(seat: &Seat) -> (u32, u64, Option<u64>) {
    (seat.caller(), seat.seen(), seat.own(2))
}

// What the seats of callers 1 and 2 say after a turn of each, and the seat that both are joined into.
type Joined = ([(u32, u64, Option<u64>); 2], Seat);

fn take_turns<R: Wait>(rt: &R, lock: &TurnLock<Tally>, first: Seat, second: Seat) -> Joined
    requires first { (first.lock ≡ lock.now) × (first.turns ≡ 0) × (first.last_caller ≡ Some 2) }
    requires callers { IsSome (own_of first 1) × IsSome (own_of second 2) }
    requires second { (second.lock ≡ lock.now) × (second.turns ≡ 0) }
    ensures lock { result.1.lock ≡ lock.now }
    ensures all { SpeaksForAll result.1 }
{
    let first = work(rt, lock, first, 1);
    let second = work(rt, lock, second, 1);
    let said = [said_by(&first), said_by(&second)];
    let all = lock.join_seats(first, second);
    (said, all)
}

#[test]
fn each_caller_counts_its_own(rt: HostRuntime) -> Result<(), Fail> {
    let (lock, mut first) = TurnLock::of(rt.alloc(), Tally::new())?;
    let second = lock.split(&mut first, 2)?;
    let (said, all) = take_turns(&rt, &lock, first, second);
    let joined = (all.caller(), all.turns(), all.seen());
    let own = [all.own(1), all.own(2), all.own(3)];
    let none = [all.own(0), all.own(65), all.own(u32::MAX)];
    let tally = lock.close(all);
    let entries = [tally.entries[0], tally.entries[1], tally.entries[2]];
    assert_eq!(rt; said, [(1, 1, None), (2, 2, Some(1))]);
    assert_eq!(rt;
        (joined, own, none),
        ((1, 2, 2), [Some(1), Some(1), None], [None; 3])
    );
    assert_eq!(rt; (tally.committed, entries), (2, [1, 1, 0]));
    Ok(())
}

// Each seat took this many turns, and counted each.
fn compare_turns<R: Abort>(rt: &R, seats: &[Seat], times: u64) {
    for seat in seats {
        assert_eq!(rt;
            (seat.turns(), seat.own(seat.caller())),
            (times, Some(times))
        );
    }
}

#[test]
fn no_turn_of_a_thread_is_lost(rt: HostRuntime) -> Result<(), Fail> {
    let (lock, mut first) = TurnLock::of(rt.alloc(), Tally::new())?;
    let seats = split_all(rt.alloc(), &lock, &mut first, 9)?;
    let seats = work_all(&rt, &lock, seats, 300)?;
    compare_turns(&rt, &seats, 300);
    let (turn, tally) = lock.take(&rt, first);
    let (committed, entries) = (tally.committed, tally.entries);
    let first = lock.give(turn, tally);
    assert_eq!(rt;
        (committed, entries[0], first.seen(), first.own(1)),
        (2400, 0, 2400, Some(0))
    );
    assert_eq!(rt; &entries[1..9], [300; 8].as_slice());
    Ok(())
}

#[test]
fn who_waits_for_long_is_woken(rt: HostRuntime) -> Result<(), Fail> {
    let (lock, mut first) = TurnLock::of(rt.alloc(), Tally::new())?;
    let seats = split_all(rt.alloc(), &lock, &mut first, 5)?;
    let seats = hold_all(&rt, &lock, seats)?;
    compare_turns(&rt, &seats, 1);
    let (turn, tally) = lock.take(&rt, first);
    let committed = tally.committed;
    let first = lock.give(turn, tally);
    assert_eq!(rt; (committed, first.seen()), (4, 4));
    Ok(())
}
