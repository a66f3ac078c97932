//! Looks at small worlds.

ghost use Rattle.std.specs.Prelude.{◌≡◌, ◌^◌, ◌+◌, ◌<◌, ◌≤◌, [], IfOk, IfSome, OnOk};
ghost use Rattle.soup_watch.specs.Seeing.{last_of};

use crate::book::shared_book;
use crate::gates::{PlanGate, Until};
use commit_book::Book;
use crew::FreeGate;
use serial_slicer::run_serial;
use soup_watch::{Count, Sight, Sights, look, sight_of, sights_text, watch};
use std::alloc::Global;
use std::marker::Brand;
use std::sync::Wait;
use std::sync::ledger::{Blank, Ledger};
use std::test::Fail;
use std::thread::Threads;
use step_count::Steps;
use test_soups::{TWO, setup_of};
use tierra_model::{Name, OutOfMemory};
use turn_lock::{Seat, TurnLock};

/// Four genotypes; the first and the third die in quantum 2.
const HALVED: &str = r#"
soup_size = 100
dist_every = 2
dist_percent = 50
[[creature]]
at = 0
code = "inc_a"
[[creature]]
at = 10
code = "inc_b"
[[creature]]
at = 20
code = "inc_c"
[[creature]]
at = 30
code = "dec_c"
"#;

/// Two genotypes with two creatures each; one creature of each dies in quantum 1.
const PAIRS: &str = r#"
soup_size = 100
dist_every = 1
dist_percent = 50
[[creature]]
at = 0
code = "inc_a"
[[creature]]
at = 10
code = "inc_a"
[[creature]]
at = 20
code = "inc_b"
[[creature]]
at = 30
code = "inc_b"
"#;

/// What is seen of the world after this many quanta of a soup file.
fn seen(alloc: Global, file: &str, quanta: u16) -> Result<Sight, Fail> {
    let world = run_serial(alloc, &setup_of(alloc, file)?, u64::from(quanta))?;
    Ok(sight_of(alloc, &world)?)
}

/// Whether this text is told of the sights.
fn is_told(alloc: Global, sights: &Sights, text: &str) -> Result<bool, OutOfMemory> {
    Ok(sights_text(alloc, sights)?.items.as_slice() == text.as_bytes())
}

/// Whether this text is told of one sight alone.
fn is_told_alone(alloc: Global, sight: Sight, text: &str) -> Result<bool, OutOfMemory> {
    let mut sights = Sights::new(alloc);
    sights.reserve(1)?;
    sights.add(sight);
    is_told(alloc, &sights, text)
}

#[test]
fn the_living_are_counted(rt: HostRuntime) -> Result<(), Fail> {
    let sight = seen(rt.alloc(), TWO, 0)?;
    let numbers = [sight.quanta, sight.births, sight.deaths, sight.living];
    let counts = [2, 5].map(|size| Count {
        name: Name { size, rank: 0 },
        living: 1,
        total: 1,
    });
    assert_eq!(rt;
        (numbers, sight.counts.items.as_slice()),
        ([0, 0, 0, 2], counts.as_slice())
    );
    Ok(())
}

#[test]
fn sights_are_told(rt: HostRuntime) -> Result<(), Fail> {
    let rows = [
        (
            TWO,
            0,
            "sight quanta 0 births 0 deaths 0 living 2\n0002aaa 1 1\n0005aaa 1 1\n",
        ),
        (
            TWO,
            2,
            "sight quanta 2 births 0 deaths 0 living 2\n0002aaa 1 1\n0005aaa 1 1\n",
        ),
        (
            HALVED,
            2,
            "sight quanta 2 births 0 deaths 2 living 2\n0001aab 1 1\n0001aad 1 1\n",
        ),
        (
            PAIRS,
            1,
            "sight quanta 1 births 0 deaths 2 living 2\n0001aaa 1 2\n0001aab 1 2\n",
        ),
    ];
    for (file, quanta, text) in rows {
        let sight = seen(rt.alloc(), file, quanta)?;
        assert!(rt; is_told_alone(rt.alloc(), sight, text)?, "{text}");
    }
    assert!(rt; is_told(rt.alloc(), &Sights::new(rt.alloc()), "")?);
    Ok(())
}

// Takes a turn, and commits one quantum in it.
fn advance_once<R: Wait, L: Ledger>(
    rt: &R,
    alloc: Global,
    lock: &TurnLock<Book>,
    seat: Seat,
    steps: &mut Steps<L>,
) -> Seat
    requires lock { seat.lock ≡ lock.now }
    requires room { seat.turns < 2 ^ 40 }
    ensures lock { result.lock ≡ seat.lock }
    ensures turns { result.turns ≡ seat.turns + 1 }
{
    let caller = seat.caller();
    let (turn, mut book) = lock.take(rt, seat);
    let _answer = book.advance(alloc, caller, steps);
    lock.give(turn, book)
}

// Looks, and adds the sight to `sights`.
fn look_again<R: Wait>(
    rt: &R,
    alloc: Global,
    lock: &TurnLock<Book>,
    seat: Seat,
    sights: &mut Sights,
) -> Result<Seat, OutOfMemory>
    requires lock { seat.lock ≡ lock.now }
    requires turns { seat.turns < 2 ^ 40 }
    requires room { 0 < sights.old.spare }
    requires order { IfSome (last_of sights.old.sights) (λ last. last.quanta ≤ seat.seen) }
    ensures lock { IfOk result (λ s. s.lock ≡ seat.lock) }
    ensures turns { IfOk result (λ s. s.turns ≡ seat.turns + 1) }
    ensures room { OnOk result (sights.old.spare ≡ sights.new.spare + 1) }
    ensures order { IfOk result (λ s. IfSome (last_of sights.new.sights) (λ last. last.quanta ≤ s.seen)) }
{
    let (seat, sight) = look(rt, alloc, lock, seat);
    sights.add(sight?);
    Ok(seat)
}

// Looks before and after a quantum is committed, and once more after the next one, with the worker's seat joined.
fn look_thrice<R: Wait, L: Ledger>(
    rt: &R,
    alloc: Global,
    lock: &TurnLock<Book>,
    worker: Seat,
    observer: Seat,
    sights: &mut Sights,
    steps: &mut Steps<L>,
) -> Result<Seat, OutOfMemory>
    requires worker { (worker.lock ≡ lock.now) × (worker.turns ≡ 0) }
    requires observer { (observer.lock ≡ lock.now) × (observer.turns ≡ 0) }
    requires room { 3 ≤ sights.old.spare }
    requires none { sights.old.sights ≡ [] }
{
    let observer = look_again(rt, alloc, lock, observer, sights)?;
    let worker = advance_once(rt, alloc, lock, worker, steps);
    let observer = look_again(rt, alloc, lock, observer, sights)?;
    let worker = advance_once(rt, alloc, lock, worker, steps);
    let observer = lock.join_seats(observer, worker);
    look_again(rt, alloc, lock, observer, sights)
}

// The seat of the observer at the end, and what it saw.
fn watched<R: Wait, L: Ledger>(rt: &R, alloc: Global, blank: Blank) -> Result<(Seat, Sights), Fail>
    requires name { blank.name ≡ L.name }
    requires parts { blank.parts ≡ L.parts }
    requires some { 0 < L.parts }
{
    let mut steps = Steps::<L>::start(blank);
    let mut sights = Sights::new(alloc);
    sights.reserve(3)?;
    let (lock, worker, observer) = shared_book(alloc)?;
    let seat = look_thrice(rt, alloc, &lock, worker, observer, &mut sights, &mut steps)?;
    Ok((seat, sights))
}

// The seat's caller, how much it saw committed, its turns, and how much callers 1 to 3 committed by it.
fn numbers_of(seat: &Seat) -> ((u32, u64, u64), [Option<u64>; 3]) {
    let numbers = (seat.caller(), seat.seen(), seat.turns());
    (numbers, [seat.own(1), seat.own(2), seat.own(3)])
}

#[test]
fn an_observer_sees_what_is_committed(rt: HostRuntime) -> Result<(), Fail> {
    let (seat, sights) = watched::<_, Brand>(&rt, rt.alloc(), Blank::new(1))?;
    assert_eq!(rt; numbers_of(&seat), ((2, 2, 5), [Some(2), Some(0), None]));
    let text = "sight quanta 0 births 0 deaths 0 living 2\n0002aaa 1 1\n0005aaa 1 1\n\
        sight quanta 1 births 0 deaths 0 living 2\n0002aaa 1 1\n0005aaa 1 1\n\
        sight quanta 2 births 0 deaths 0 living 2\n0002aaa 1 1\n0005aaa 1 1\n";
    assert!(rt; is_told(rt.alloc(), &sights, text)?);
    Ok(())
}

// Watches two quanta with three looks: into how many parts the word `sight` splits the text, and whether the text ends
// so.
fn watched_run<R: Threads + Wait + Sync>(
    rt: &R,
    alloc: Global,
    workers: u32,
    end: &str,
) -> Result<(usize, bool), Fail>
    requires { (1 ≤ workers) × (workers ≤ 63) }
{
    let text = watch(rt, alloc, &FreeGate, setup_of(alloc, TWO)?, 2, workers, 3)?;
    let text = str::from_utf8(&text.items)?;
    Ok((text.split("sight").count(), text.ends_with(end)))
}

#[test]
fn a_watched_run_ends_in_its_report(rt: HostRuntime) -> Result<(), Fail> {
    let end = "sight quanta 2 births 0 deaths 0 living 2\n0002aaa 1 1\n0005aaa 1 1\n\
        quanta 2\nbirths 0\ndeaths 0\nliving 2\nfilled 7\n\
        front 1 ip 25 ax 0 bx 1 cx 0 dx 0 flag 0 errors 0\ngenotypes 2\nkept 0\n0002aaa 1 1\n0005aaa 1 1\n";
    for workers in [1u32, 2, 63] {
        let told = watched_run(&rt, rt.alloc(), workers, end)?;
        assert_eq!(rt; told, (5, true), "{workers} workers");
    }
    Ok(())
}

// The worker of the third job is held for long.
const HOLD_THIRD: &[(u64, Until)] = &[(3, Until::Yields(1_000_000))];

// Watches four quanta with one worker and two looks. Whether a look sees the world after two quanta.
fn sees_two_quanta<R: Threads + Wait + Sync>(
    rt: &R,
    alloc: Global,
    gate: &PlanGate,
) -> Result<bool, Fail> {
    let text = watch(rt, alloc, gate, setup_of(alloc, TWO)?, 4, 1, 2)?;
    Ok(str::from_utf8(&text.items)?.contains("\nsight quanta 2 "))
}

#[test]
fn a_look_falls_between_two_commits(rt: HostRuntime) -> Result<(), Fail> {
    let gate = PlanGate::new(HOLD_THIRD);
    assert!(rt; sees_two_quanta(&rt, rt.alloc(), &gate)?);
    // The look leaves the book to its worker.
    let calls = [1, 2, 3, 4].map(|quantum| (gate.before_by(quantum), gate.after_by(quantum)));
    assert_eq!(rt; calls, [(1, 1); 4]);
    Ok(())
}
