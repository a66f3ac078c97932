//! Runs with gates that see who works.

use crew::Gate;
use soup_top::Status;
use std::alloc::Global;
use std::array::from_fn;
use std::sync::Wait;
use std::sync::atomic::{AtomicBool, AtomicU64, Ordering};
use std::test::Fail;
use std::thread::{Threads, yield_now};
use test_calls::{Given, PLAIN, call_beside};
use test_soups::{ANCESTOR, TWO};
use tierra_model::OutOfMemory;

/// Yields until the count is so great, at most 50,000,000 times. Says whether it became so great.
fn is_reached(count: &AtomicU64, least: u64) -> bool {
    for _ in 0..50_000_000 {
        if count.load(Ordering::SeqCst) >= least {
            return true;
        }
        yield_now();
    }
    false
}

/// Counts the calls, and lets no worker pass its first `before` until so many workers have come.
#[derive(Drop)]
struct Barrier {
    workers: u64,
    came: AtomicU64,
    // The calls of `before`, by worker.
    befores: [AtomicU64; 9],
    afters: AtomicU64,
    is_limit_met: AtomicBool,
}

impl Barrier {
    fn new(workers: u64) -> Barrier {
        Barrier {
            workers,
            came: AtomicU64::new(0),
            befores: from_fn(|_| AtomicU64::new(0)),
            afters: AtomicU64::new(0),
            is_limit_met: AtomicBool::new(false),
        }
    }

    /// Whether some worker never came.
    fn is_limit_met(&self) -> bool {
        self.is_limit_met.load(Ordering::SeqCst)
    }

    /// How many workers came.
    fn came(&self) -> usize {
        let befores = self.befores.iter();
        befores
            .filter(|calls| calls.load(Ordering::SeqCst) > 0)
            .count()
    }

    /// The calls of `before` by worker 1, and those of `after`.
    fn calls(&self) -> [u64; 2] {
        [&self.befores[1], &self.afters].map(|calls| calls.load(Ordering::SeqCst))
    }
}

impl Gate for Barrier {
    fn before(&self, worker: u32, _quantum: u64) {
        let order = Ordering::SeqCst;
        let Some(calls) = self.befores.get(worker as usize) else {
            return;
        };
        if calls.fetch_add(1, order) > 0 {
            return;
        }
        self.came.fetch_add(1, order);
        if !is_reached(&self.came, self.workers) {
            self.is_limit_met.store(true, order);
        }
    }

    fn after(&self, _worker: u32, _quantum: u64) {
        self.afters.fetch_add(1, Ordering::SeqCst);
    }
}

/// The status of a run with this gate.
fn run_gated<R: Threads + Wait + Sync, G: Gate + Sync>(
    rt: &R,
    alloc: Global,
    words: &str,
    source: &str,
    tells: &[u64],
    gate: &G,
) -> Result<Status, OutOfMemory> {
    let given = Given { tells, ..PLAIN };
    let ended = call_beside(rt, alloc, words, source.as_bytes(), &given, gate)?;
    Ok(ended.status)
}

#[test]
fn each_worker_has_a_job_before_any_is_run(rt: HostRuntime) -> Result<(), Fail> {
    let rows = [
        ("run --quanta 200 --workers 3", TWO, 3),
        ("watch --quanta 200 --workers 3", TWO, 3),
        ("run --quanta 200 --workers 8", TWO, 8),
        ("watch --quanta 200 --workers 8", TWO, 8),
        ("grow --quanta 200 --workers 8", ANCESTOR, 8),
    ];
    for (words, source, workers) in rows {
        let gate = Barrier::new(workers);
        let status = run_gated(&rt, rt.alloc(), words, source, &[], &gate)?;
        assert_eq!(rt;
            (status, gate.is_limit_met(), gate.came() as u64),
            (Status::Done, false, workers),
            "{words}"
        );
    }
    Ok(())
}

#[test]
fn one_worker_has_a_job_for_each_quantum(rt: HostRuntime) -> Result<(), Fail> {
    for words in ["run --quanta 200", "watch --quanta 200 --looks 3"] {
        let gate = Barrier::new(1);
        let status = run_gated(&rt, rt.alloc(), words, TWO, &[], &gate)?;
        assert_eq!(rt;
            (status, gate.calls()),
            (Status::Done, [200, 200]),
            "{words}"
        );
    }
    Ok(())
}

/// Holds the worker of the run's first `before`, or of one worker's, until another worker calls `after`.
#[derive(Drop)]
struct HoldGate {
    // The worker that is held, or 0 as long as none is.
    held: AtomicU64,
    // How often that worker called `before`.
    befores: AtomicU64,
    // How often another worker called `after`.
    afters_of_others: AtomicU64,
    is_limit_met: AtomicBool,
    is_ended_by_another: AtomicBool,
}

impl HoldGate {
    /// Holds the worker that comes first.
    fn first() -> HoldGate {
        HoldGate::of(0)
    }

    fn of(worker: u32) -> HoldGate {
        HoldGate {
            held: AtomicU64::new(u64::from(worker)),
            befores: AtomicU64::new(0),
            afters_of_others: AtomicU64::new(0),
            is_limit_met: AtomicBool::new(false),
            is_ended_by_another: AtomicBool::new(false),
        }
    }

    /// Whether no other worker called `after` in time.
    fn is_limit_met(&self) -> bool {
        self.is_limit_met.load(Ordering::SeqCst)
    }

    /// Whether the hold was ended by another worker's `after`.
    fn is_ended_by_another(&self) -> bool {
        self.is_ended_by_another.load(Ordering::SeqCst)
    }

    // Whether it is the first `before` of the worker that is to be held.
    fn is_to_hold(&self, worker: u32) -> bool {
        let (by, order) = (u64::from(worker), Ordering::SeqCst);
        let is_first = self.held.compare_exchange(0, by, order, order).is_ok();
        (is_first || self.held.load(order) == by) && self.befores.fetch_add(1, order) == 0
    }
}

impl Gate for HoldGate {
    fn before(&self, worker: u32, _quantum: u64) {
        if !self.is_to_hold(worker) {
            return;
        }
        if is_reached(&self.afters_of_others, 1) {
            self.is_ended_by_another.store(true, Ordering::SeqCst);
        } else {
            self.is_limit_met.store(true, Ordering::SeqCst);
        }
    }

    fn after(&self, worker: u32, _quantum: u64) {
        if self.held.load(Ordering::SeqCst) != u64::from(worker) {
            self.afters_of_others.fetch_add(1, Ordering::SeqCst);
        }
    }
}

// Three workers, of whom the first is held until what another found was offered.
#[test]
fn a_hold_ends_by_another_worker(rt: HostRuntime) -> Result<(), Fail> {
    let gate = HoldGate::first();
    let status = run_gated(
        &rt,
        rt.alloc(),
        "run --quanta 200 --workers 3",
        TWO,
        &[],
        &gate,
    )?;
    assert_eq!(rt;
        (status, gate.is_limit_met(), gate.is_ended_by_another()),
        (Status::Done, false, true)
    );
    Ok(())
}

// Worker 1 of a watched run is held until an offer of worker 2 was answered.
#[test]
fn a_watched_run_goes_on_beside_a_held_worker(rt: HostRuntime) -> Result<(), Fail> {
    let gate = HoldGate::of(1);
    let words = "watch --quanta 200 --workers 2 --looks 20";
    let status = run_gated(&rt, rt.alloc(), words, TWO, &[], &gate)?;
    assert_eq!(rt;
        (status, gate.is_limit_met(), gate.is_ended_by_another()),
        (Status::Done, false, true)
    );
    Ok(())
}

/// Worker 1 is held with its first job until worker 2 has the job of quantum 3, and worker 2 is held with that job
/// until worker 1 has a job of quantum 6 or later.
#[derive(Drop)]
struct WindowGate {
    thirds: AtomicU64,
    sixths: AtomicU64,
    is_limit_met: AtomicBool,
}

impl WindowGate {
    fn new() -> WindowGate {
        WindowGate {
            thirds: AtomicU64::new(0),
            sixths: AtomicU64::new(0),
            is_limit_met: AtomicBool::new(false),
        }
    }

    /// Whether what some worker waited for never happened.
    fn is_limit_met(&self) -> bool {
        self.is_limit_met.load(Ordering::SeqCst)
    }

    fn hold(&self, count: &AtomicU64) {
        if !is_reached(count, 1) {
            self.is_limit_met.store(true, Ordering::SeqCst);
        }
    }
}

impl Gate for WindowGate {
    fn before(&self, worker: u32, quantum: u64) {
        if worker == 1 && quantum < 3 {
            self.hold(&self.thirds);
        } else if worker == 2 && quantum == 3 {
            self.thirds.fetch_add(1, Ordering::SeqCst);
            self.hold(&self.sixths);
        } else if worker == 1 && quantum >= 6 {
            self.sixths.fetch_add(1, Ordering::SeqCst);
        }
    }

    fn after(&self, _worker: u32, _quantum: u64) {}
}

// The ancestor, which breeds in its first slice, is the third of five creatures. Each other one loops in two cells.
const FIRST_TWO: &str = "slice_size = 1000\n\
    [[creature]]\nat = 1000\ncode = 'adrf nop_0 zero nop_1 push_ax ret'\n\
    [[creature]]\nat = 2000\ncode = 'adrf nop_0 zero nop_1 push_ax ret inc_a'\n";

const LAST_TWO: &str = "[[creature]]\nat = 3000\ncode = 'adrf nop_0 zero nop_1 push_ax ret inc_b'\n\
    [[creature]]\nat = 4000\ncode = 'adrf nop_0 zero nop_1 push_ax ret inc_c'\n";

// Worker 1 gets job 6 while quantum 3 is not committed. Were quantum 3 committed by then, worker 1 would tell what it
// saved, and the run would end with that tell, before worker 1 has job 6.
#[test]
fn four_jobs_are_out_with_two_workers(rt: HostRuntime) -> Result<(), Fail> {
    let alloc = rt.alloc();
    let ancestor = "[[creature]]\nat = 0\ncode";
    let source = format!(in alloc; "{FIRST_TWO}{ancestor} = \"\"\"{ANCESTOR}\"\"\"\n{LAST_TWO}")?;
    let gate = WindowGate::new();
    let words = "run --quanta 40 --workers 2";
    let status = run_gated(&rt, alloc, words, &source, &[1], &gate)?;
    assert_eq!(rt; (status, gate.is_limit_met()), (Status::TellFault, false));
    Ok(())
}
