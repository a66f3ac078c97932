//! Gates that hold workers, and tell who called them.

ghost use Rattle.std.specs.Prelude.{◌<◌};

use crew::Gate;
use std::array::from_fn;
use std::sync::atomic::{AtomicBool, AtomicU64, Ordering};
use std::thread::yield_now;

/// Yields until the count is so great, at most 50,000,000 times. Says whether it became so great.
fn is_reached(count: &AtomicU64, least: u64) -> bool {
    for _ in 0..50_000_000 {
        if count.load(Ordering::SeqCst) >= least {
            return true;
        }
        yield_now();
    }
    false
}

fn number_in(cell: Option<&AtomicU64>) -> u64 {
    cell.map_or(0, |number| number.load(Ordering::SeqCst))
}

fn pause(yields: u32) {
    for _ in 0..yields {
        yield_now();
    }
}

/// What the worker of a job waits for.
#[derive(Clone, Copy, Drop)]
pub(crate) enum Until {
    /// The call of `before` for that quantum.
    Before(usize),
    /// The call of `after` for that quantum.
    After(usize),
    /// So many yields.
    Yields(u32),
}

/// The quanta below which a `PlanGate` notes the calls.
const NOTED: usize = 17;

/// Holds the workers of some jobs. It notes the calls for the first quanta.
#[derive(Drop)]
pub(crate) struct PlanGate {
    // The quanta whose workers are held.
    plan: &'static [(u64, Until)],
    // The workers that called, by quantum; 0 stands for nobody.
    befores: [AtomicU64; NOTED],
    afters: [AtomicU64; NOTED],
    is_limit_met: AtomicBool,
}

impl PlanGate {
    pub(crate) fn new(plan: &'static [(u64, Until)]) -> PlanGate {
        PlanGate {
            plan,
            befores: from_fn(|_| AtomicU64::new(0)),
            afters: from_fn(|_| AtomicU64::new(0)),
            is_limit_met: AtomicBool::new(false),
        }
    }

    /// Whether what some worker waited for never happened.
    pub(crate) fn is_limit_met(&self) -> bool {
        self.is_limit_met.load(Ordering::SeqCst)
    }

    /// Who called `before` for that quantum; 0 stands for nobody.
    pub(crate) fn before_by(&self, quantum: usize) -> u64 {
        number_in(self.befores.get(quantum))
    }

    /// Who called `after` for that quantum; 0 stands for nobody.
    pub(crate) fn after_by(&self, quantum: usize) -> u64 {
        number_in(self.afters.get(quantum))
    }

    fn hold(&self, until: Until) {
        let calls = match until {
            Until::Before(quantum) => self.befores.get(quantum),
            Until::After(quantum) => self.afters.get(quantum),
            Until::Yields(yields) => return pause(yields),
        };
        if let Some(calls) = calls {
            if !is_reached(calls, 1) {
                self.is_limit_met.store(true, Ordering::SeqCst);
            }
        }
    }
}

impl Gate for PlanGate {
    fn before(&self, worker: u32, quantum: u64) {
        if let Some(by) = self.befores.get(quantum as usize) {
            by.store(u64::from(worker), Ordering::SeqCst);
        }
        for (held, until) in self.plan {
            if *held == quantum {
                self.hold(*until);
            }
        }
    }

    fn after(&self, worker: u32, quantum: u64) {
        if let Some(by) = self.afters.get(quantum as usize) {
            by.store(u64::from(worker), Ordering::SeqCst);
        }
    }
}

/// Lets no worker pass its first `before` for a quantum above `from` until each worker has come there. It counts the
/// calls for these quanta.
#[derive(Drop)]
pub(crate) struct BarrierGate {
    workers: u64,
    from: u64,
    // How many workers came.
    came: AtomicU64,
    // The calls, by worker.
    befores: [AtomicU64; 4],
    afters: [AtomicU64; 4],
    is_limit_met: AtomicBool,
}

impl BarrierGate {
    pub(crate) fn new(workers: u32, from: u64) -> BarrierGate {
        BarrierGate {
            workers: u64::from(workers),
            from,
            came: AtomicU64::new(0),
            befores: from_fn(|_| AtomicU64::new(0)),
            afters: from_fn(|_| AtomicU64::new(0)),
            is_limit_met: AtomicBool::new(false),
        }
    }

    /// Whether some worker never came.
    pub(crate) fn is_limit_met(&self) -> bool {
        self.is_limit_met.load(Ordering::SeqCst)
    }

    /// How often the worker called `after`.
    pub(crate) fn afters_of(&self, worker: u32) -> u64
        requires { worker < 4 }
    {
        self.afters[worker as usize].load(Ordering::SeqCst)
    }
}

impl Gate for BarrierGate {
    fn before(&self, worker: u32, quantum: u64) {
        let order = Ordering::SeqCst;
        let Some(calls) = self.befores.get(worker as usize) else {
            return;
        };
        if quantum <= self.from || calls.fetch_add(1, order) > 0 {
            return;
        }
        self.came.fetch_add(1, order);
        if !is_reached(&self.came, self.workers) {
            self.is_limit_met.store(true, order);
        }
    }

    fn after(&self, worker: u32, quantum: u64) {
        if let Some(calls) = self.afters.get(worker as usize) {
            if quantum > self.from {
                calls.fetch_add(1, Ordering::SeqCst);
            }
        }
    }
}

/// Holds the worker of the run's first `before` until another worker calls `after`.
#[derive(Drop)]
pub(crate) struct HoldGate {
    // The worker that came first, or 0 as long as none came.
    held: AtomicU64,
    // How often that worker called `before`.
    befores: AtomicU64,
    // How often another worker called `after`.
    afters_of_others: AtomicU64,
    is_limit_met: AtomicBool,
    is_ended_by_another: AtomicBool,
}

impl HoldGate {
    pub(crate) fn new() -> HoldGate {
        HoldGate {
            held: AtomicU64::new(0),
            befores: AtomicU64::new(0),
            afters_of_others: AtomicU64::new(0),
            is_limit_met: AtomicBool::new(false),
            is_ended_by_another: AtomicBool::new(false),
        }
    }

    /// Whether no other worker called `after` in time.
    pub(crate) fn is_limit_met(&self) -> bool {
        self.is_limit_met.load(Ordering::SeqCst)
    }

    /// Whether the hold was ended by another worker's `after`.
    pub(crate) fn is_ended_by_another(&self) -> bool {
        self.is_ended_by_another.load(Ordering::SeqCst)
    }

    // Whether it is the first `before` of the worker that is to be held.
    fn is_to_hold(&self, worker: u32) -> bool {
        let (by, order) = (u64::from(worker), Ordering::SeqCst);
        let is_first = self.held.compare_exchange(0, by, order, order).is_ok();
        (is_first || self.held.load(order) == by) && self.befores.fetch_add(1, order) == 0
    }
}

impl Gate for HoldGate {
    fn before(&self, worker: u32, _quantum: u64) {
        if !self.is_to_hold(worker) {
            return;
        }
        if is_reached(&self.afters_of_others, 1) {
            self.is_ended_by_another.store(true, Ordering::SeqCst);
        } else {
            self.is_limit_met.store(true, Ordering::SeqCst);
        }
    }

    fn after(&self, worker: u32, _quantum: u64) {
        if self.held.load(Ordering::SeqCst) != u64::from(worker) {
            self.afters_of_others.fetch_add(1, Ordering::SeqCst);
        }
    }
}

/// Counts the calls, and holds nobody.
#[derive(Drop)]
pub(crate) struct CountGate {
    befores: AtomicU64,
    afters: AtomicU64,
}

impl CountGate {
    pub(crate) fn new() -> CountGate {
        CountGate {
            befores: AtomicU64::new(0),
            afters: AtomicU64::new(0),
        }
    }

    /// How often `before` and `after` were called.
    pub(crate) fn calls(&self) -> [u64; 2] {
        [&self.befores, &self.afters].map(|calls| calls.load(Ordering::SeqCst))
    }
}

impl Gate for CountGate {
    fn before(&self, _worker: u32, _quantum: u64) {
        self.befores.fetch_add(1, Ordering::SeqCst);
    }

    fn after(&self, _worker: u32, _quantum: u64) {
        self.afters.fetch_add(1, Ordering::SeqCst);
    }
}

/// Holds each worker but worker 1 in its first `before` until the hand has halted, and for 1,000,000 yields more.
#[derive(Drop)]
pub(crate) struct HaltGate {
    /// How often the hand has halted.
    pub(crate) halts: AtomicU64,
    // The calls of `before`, by worker.
    befores: [AtomicU64; 4],
    afters: AtomicU64,
    is_limit_met: AtomicBool,
}

impl HaltGate {
    pub(crate) fn new() -> HaltGate {
        HaltGate {
            halts: AtomicU64::new(0),
            befores: from_fn(|_| AtomicU64::new(0)),
            afters: AtomicU64::new(0),
            is_limit_met: AtomicBool::new(false),
        }
    }

    /// Whether the hand never halted.
    pub(crate) fn is_limit_met(&self) -> bool {
        self.is_limit_met.load(Ordering::SeqCst)
    }

    /// How often worker 2 and worker 3 called `before`.
    pub(crate) fn befores_of_others(&self) -> [u64; 2] {
        [&self.befores[2], &self.befores[3]].map(|calls| calls.load(Ordering::SeqCst))
    }

    pub(crate) fn afters(&self) -> u64 {
        self.afters.load(Ordering::SeqCst)
    }
}

impl Gate for HaltGate {
    fn before(&self, worker: u32, _quantum: u64) {
        let order = Ordering::SeqCst;
        let Some(calls) = self.befores.get(worker as usize) else {
            return;
        };
        if calls.fetch_add(1, order) > 0 || worker == 1 {
            return;
        }
        if is_reached(&self.halts, 1) {
            pause(1_000_000);
        } else {
            self.is_limit_met.store(true, order);
        }
    }

    fn after(&self, _worker: u32, _quantum: u64) {
        self.afters.fetch_add(1, Ordering::SeqCst);
    }
}

/// Notes how many groups the hand had at the calls of `before` for two quanta.
#[derive(Drop)]
pub(crate) struct TakenGate {
    /// The groups that the hand has.
    pub(crate) groups: AtomicU64,
    quanta: [u64; 2],
    // The groups at these calls.
    noted: [AtomicU64; 2],
}

impl TakenGate {
    pub(crate) fn new(quanta: [u64; 2]) -> TakenGate {
        TakenGate {
            groups: AtomicU64::new(0),
            quanta,
            noted: from_fn(|_| AtomicU64::new(u64::MAX)),
        }
    }

    /// How many groups the hand had at the two calls; the greatest number stands for no call.
    pub(crate) fn noted(&self) -> [u64; 2] {
        [&self.noted[0], &self.noted[1]].map(|groups| groups.load(Ordering::SeqCst))
    }
}

impl Gate for TakenGate {
    fn before(&self, _worker: u32, quantum: u64) {
        for (at, noted) in self.quanta.iter().zip(&self.noted) {
            if *at == quantum {
                noted.store(self.groups.load(Ordering::SeqCst), Ordering::SeqCst);
            }
        }
    }

    fn after(&self, _worker: u32, _quantum: u64) {}
}
