//! Workers run coming quanta ahead of their turn, and what they find is committed.

ghost use Rattle.std.specs.Prelude.{◌≤◌};

use crate::gates::{BarrierGate, CountGate, HoldGate, PlanGate, Until};
use crate::hands::{LOOPS, history_of};
use crew::{number_of_drawers, takes_jobs};
use std::alloc::Global;
use std::process::Abort;
use std::sync::Wait;
use std::test::Fail;
use std::thread::Threads;
use test_soups::TWO;
use tierra_model::{How, Stale, defaults};

// The two creatures, too far apart to meet.
const FAR: &str = "soup_size = 1000\n[[creature]]\nat = 0\ncode = 'inc_b mov_iab'\n\
    [[creature]]\nat = 500\ncode = 'nop_1 nop_1 nop_1 nop_1 nop_1'\n";

const HOLD_FIRST: &[(u64, Until)] = &[(1, Until::After(2))];

#[test]
fn a_kept_finding_is_compared_in_its_turn(rt: HostRuntime) -> Result<(), Fail> {
    let difference = Stale::Cell {
        at: 0,
        seen: 9,
        now: 26,
    };
    for (file, how) in [(TWO, How::Stale(difference)), (FAR, How::Fresh)] {
        let gate = PlanGate::new(HOLD_FIRST);
        let lines = history_of(&rt, rt.alloc(), file, 2, 2, &gate)?;
        assert!(rt; !gate.is_limit_met(), "{file}");
        let other = gate.before_by(2);
        let want = [(other, How::Missing), (other, how)];
        assert_eq!(rt; lines.as_slice(), want.as_slice(), "{file}");
    }
    Ok(())
}

// Three workers, window 6: the first job is held until what another worker found was offered.
#[test]
fn the_first_job_waits_for_another_workers_offer(rt: HostRuntime) -> Result<(), Fail> {
    let gate = HoldGate::new();
    let lines = history_of(&rt, rt.alloc(), TWO, 200, 3, &gate)?;
    assert_eq!(rt;
        (lines.len(), gate.is_limit_met(), gate.is_ended_by_another()),
        (200, false, true)
    );
    Ok(())
}

// One worker, window 2.
#[test]
fn one_worker_commits_each_quantum_by_its_own_job(rt: HostRuntime) -> Result<(), Fail> {
    let gate = CountGate::new();
    let lines = history_of(&rt, rt.alloc(), TWO, 200, 1, &gate)?;
    let fresh = lines
        .iter()
        .filter(|line| **line == (1, How::Fresh))
        .count();
    assert_eq!(rt; (gate.calls(), lines.len(), fresh), ([200, 200], 200, 200));
    Ok(())
}

// The third job is held too, so that the finding of the second stays kept until that of the first is offered.
const HOLD_FIRST_AND_THIRD: &[(u64, Until)] = &[(1, Until::After(2)), (3, Until::After(1))];

#[test]
fn a_finding_waits_for_the_one_before_it(rt: HostRuntime) -> Result<(), Fail> {
    let gate = PlanGate::new(HOLD_FIRST_AND_THIRD);
    let lines = history_of(&rt, rt.alloc(), LOOPS, 3, 2, &gate)?;
    assert!(rt; !gate.is_limit_met());
    // The worker of the first job commits all: the third finding comes too late.
    let first = gate.before_by(1);
    let want = [
        (first, How::Fresh),
        (first, How::Fresh),
        (first, How::Missing),
    ];
    assert_eq!(rt; lines.as_slice(), want.as_slice());
    Ok(())
}

// Each worker has a job before any is run; then they offer what they found in order, before they run a second job.
const TWO_IN_ORDER: &[(u64, Until)] = &[
    (1, Until::Before(2)),
    (2, Until::After(1)),
    (3, Until::After(2)),
    (4, Until::After(2)),
];

const THREE_IN_ORDER: &[(u64, Until)] = &[
    (1, Until::Before(3)),
    (2, Until::After(1)),
    (3, Until::After(2)),
    (4, Until::After(3)),
    (5, Until::After(3)),
    (6, Until::After(3)),
];

const EIGHT_IN_ORDER: &[(u64, Until)] = &[
    (1, Until::Before(8)),
    (2, Until::After(1)),
    (3, Until::After(2)),
    (4, Until::After(3)),
    (5, Until::After(4)),
    (6, Until::After(5)),
    (7, Until::After(6)),
    (8, Until::After(7)),
    (9, Until::After(8)),
    (10, Until::After(8)),
    (11, Until::After(8)),
    (12, Until::After(8)),
    (13, Until::After(8)),
    (14, Until::After(8)),
    (15, Until::After(8)),
    (16, Until::After(8)),
];

#[test]
fn each_worker_commits_what_it_found(rt: HostRuntime) -> Result<(), Fail> {
    let rows = [
        (2u32, 4u64, TWO_IN_ORDER),
        (3, 6, THREE_IN_ORDER),
        (8, 16, EIGHT_IN_ORDER),
    ];
    for (workers, quanta, plan) in rows {
        let gate = PlanGate::new(plan);
        let lines = history_of(&rt, rt.alloc(), LOOPS, quanta, workers, &gate)?;
        assert!(rt; !gate.is_limit_met(), "{workers} workers");
        for worker in 1..=u64::from(workers) {
            assert!(rt;
                lines.contains(&(worker, How::Fresh)),
                "worker {worker} of {workers}"
            );
        }
    }
    Ok(())
}

#[test]
fn all_workers_take_jobs(rt: HostRuntime) -> Result<(), Fail> {
    take_jobs(&rt, rt.alloc(), 2)?;
    take_jobs(&rt, rt.alloc(), 3)
}

// Each worker has a job past the first hundred, and what it found is offered; nearly all that is found is committed.
fn take_jobs<R: Threads + Wait + Sync + Abort>(
    rt: &R,
    alloc: Global,
    workers: u32,
) -> Result<(), Fail>
    requires { (1 ≤ workers) × (workers ≤ 3) }
{
    let gate = BarrierGate::new(workers, 100);
    let lines = history_of(rt, alloc, LOOPS, 256, workers, &gate)?;
    assert!(rt; !gate.is_limit_met(), "{workers} workers");
    for worker in 1..=workers {
        assert!(rt; gate.afters_of(worker) > 0, "worker {worker} of {workers}");
    }
    let fresh = lines.iter().filter(|line| line.1 == How::Fresh).count();
    assert!(rt; fresh >= 230, "{fresh} with {workers} workers");
    Ok(())
}

#[test]
fn one_worker_takes_jobs_in_the_trial_alone(rt: HostRuntime) -> Result<(), Fail> {
    let gate = CountGate::new();
    let lines = history_of(&rt, rt.alloc(), TWO, 2000, 1, &gate)?;
    assert_eq!(rt; gate.calls(), [256, 256]);
    assert_eq!(rt; lines.len(), 2000);
    for (place, line) in lines.iter().enumerate() {
        let how = if place < 256 {
            How::Fresh
        } else {
            How::Missing
        };
        assert_eq!(rt; *line, (1, how), "after {place} quanta");
    }
    Ok(())
}

#[test]
fn short_jobs_end_with_the_trial(rt: HostRuntime) -> Result<(), Fail> {
    let gate = CountGate::new();
    let lines = history_of(&rt, rt.alloc(), TWO, 2000, 3, &gate)?;
    assert_eq!(rt; lines.len(), 2000);
    // As many as the window is wide may be out when the trial ends.
    let [befores, _] = gate.calls();
    assert!(rt; 256 <= befores && befores <= 262, "{befores}");
    Ok(())
}

#[test]
fn jobs_are_taken_in_the_trial(rt: HostRuntime) {
    // The quanta that are committed, and the living.
    let rows: [(u64, u32, bool); 8] = [
        (0, 28_000, true),
        (255, 2, true),
        (256, 2, false),
        (4_000_000, 1, false),
        (127, 3937, true), // 499,999
        (125, 4000, false),
        (17, 28_000, true),
        (18, 28_000, false),
    ];
    for (committed, living, want) in rows {
        let is_taken = takes_jobs(committed, living);
        assert_eq!(rt; is_taken, want, "{committed} quanta, {living} living");
    }
}

#[test]
fn draws_are_made_ahead_by_workers_above_the_second(rt: HostRuntime) {
    // The workers, the three rates, and how many workers make draws.
    let rows: [(u32, [u32; 3], u32); 10] = [
        (1, [10_000, 1000, 2000], 0),
        (2, [10_000, 1000, 2000], 0),
        (3, [10_000, 1000, 2000], 1),
        (4, [10_000, 1000, 2000], 2),
        (5, [10_000, 1000, 2000], 2),
        (64, [10_000, 1000, 2000], 2),
        (64, [0, 0, 0], 0),
        (4, [1, 0, 0], 2),
        (4, [0, 1, 0], 2),
        (4, [0, 0, 1], 2),
    ];
    for (workers, [back_rate, copy_rate, flaw_rate], drawers) in rows {
        let mut settings = defaults();
        settings.back_rate = back_rate;
        settings.copy_rate = copy_rate;
        settings.flaw_rate = flaw_rate;
        assert_eq!(rt;
            number_of_drawers(workers, &settings),
            drawers,
            "{workers} workers"
        );
    }
}
